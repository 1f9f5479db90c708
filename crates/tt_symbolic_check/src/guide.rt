//! Who chooses what becomes of the states of a walk.

ghost use Rattle.std.specs.Prelude.{IfOk};
ghost use Rattle.tt_symbolic_check.specs.Moves.{IsFair};

use crate::copying::Split;
use crate::pool::Pool;
use crate::walk::Walk;
use std::alloc::AllocError;
use tt_setting::StepFault;
use tt_symbolic_state::state::State;

/// What is to become of the state that is carried on.
#[derive(Drop)]
pub enum Move {
    /// It makes a step, or is put among the ends, where it is at the main program's end.
    Go,
    /// Its lower part is carried on; the upper one waits at this place.
    Split(Split, usize),
    /// It waits at this place.
    Wait(usize),
    /// This state, which covers it, waits at this place instead.
    Widen(Box<State>, usize),
    /// It goes no further, since the state that waits at this place covers it.
    Meet(usize),
    /// This state, which covers both, waits instead of it and of the one that waits at this place.
    Join(usize, Box<State>),
    /// It becomes a head, and is carried on.
    Head,
    /// It goes no further, since the head of this number covers it.
    Stop(usize),
}

/// Who chooses. A guide tests that a state covers another one for which it is to stand. A walk that
/// comes to its end is right whatever else was chosen.
pub trait Guide {
    /// Chooses what becomes of the state that is carried on. The places of what waits are those of
    /// `walk.pending`: the last of it is carried on next.
    ///
    /// # Errors
    /// Why the guide gives up, or that memory ran out.
    fn choose(&mut self, walk: &Walk, state: &State, pool: &mut Pool) -> Result<Move, StepFault>
        ensures fair { IfOk result (IsFair walk.now state.now) };

    /// Is told the state after a step.
    ///
    /// # Errors
    /// If memory runs out.
    fn stepped(&mut self, state: &State) -> Result<(), AllocError>;

    /// Is told that the instruction was refused at which the state is.
    ///
    /// # Errors
    /// If memory runs out.
    fn refused(&mut self, state: &State, fault: &StepFault) -> Result<(), AllocError>;
}
