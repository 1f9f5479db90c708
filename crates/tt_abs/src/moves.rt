//! Where a program goes on.

ghost use Rattle.std.specs.Prelude.{◌≡◌, List, Some, slice_get};
ghost use Rattle.tt_code.specs.declared.machine.Frame.{Frame as AnyFrame};
ghost use Rattle.tt_abs.specs.Cells.{Abstract};
ghost use Rattle.tt_abs.specs.Transfers.{two_ways};
ghost use Rattle.tt_abs.specs.Moves.{nexts_of, ways_of};

use tt_code::Frame;

/// Where a program goes on.
#[derive(Clone, Copy)]
pub enum Move {
    /// To an offset of the same body, or to the main program's end.
    To(u32),
    /// Into the body of a function, by a call.
    Enter(Frame),
    /// To the next turn of the innermost call.
    NextTurn,
    /// To just after the innermost call.
    Return,
}

/// The ways in which a program may go on, all with one state: a short list, which is read by
/// `first` and `get`.
#[derive(Clone, Copy)]
pub enum Moves {
    /// To one place.
    One(Move),
    /// To one of two offsets, the smaller one first; each is one to which `Move::To` may lead.
    Two(u32, u32),
}

impl Moves {
    /// Returns the first way.
    pub fn first(&self) -> Move
        ensures { slice_get (ways_of self.now) 0 ≡ Some result }
    {
        match *self {
            Moves::One(way) => way,
            Moves::Two(offset, _) => Move::To(offset),
        }
    }

    /// Returns the way with this number, counted from 0, if there is one.
    pub fn get(&self, index: usize) -> Option<Move>
        ensures { result ≡ slice_get (ways_of self.now) index }
    {
        match *self {
            Moves::Two(_, offset) if index == 1 => Some(Move::To(offset)),
            _ if index == 0 => Some(self.first()),
            _ => None,
        }
    }

    /// Makes the ways to two offsets; one way where they are the same.
    pub(crate) fn two(one: u32, other: u32) -> Moves
        ensures { (fs : List AnyFrame) (a : Abstract)
            → two_ways fs one other a ≡ nexts_of fs result a }
    {
        if one == other {
            Moves::One(Move::To(one))
        } else if one < other {
            Moves::Two(one, other)
        } else {
            Moves::Two(other, one)
        }
    }
}
