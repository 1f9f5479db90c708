//! What a search tells of a program for those who explain its answer.

use crate::site::Site;
use tt_setting::{Failed, Kind, Spot};
use tt_symbolic_state::cell::Cell;
use tt_symbolic_state::state::State;

/// What is asked of a program that is searched.
#[derive(Clone, Copy)]
pub struct Question {
    /// Where an instruction begins, of the main program or of a function that it calls, if what is
    /// known there is asked for.
    pub site: Option<Site>,
}

impl Question {
    /// Whether what is known at this site of a program of this kind is asked for. The bodies of the
    /// font program's functions are in the font program itself, and so are those of the CVT program's.
    pub fn is_on(self, kind: Kind, site: Site) -> bool {
        match self.site {
            Some(asked) => {
                asked.offset == site.offset && holder(kind, asked.spot) == holder(kind, site.spot)
            }
            None => false,
        }
    }
}

/// Returns in which program a place of this spot is: the main program also where that is the font
/// program or the CVT program, and the place in one of its functions.
fn holder(kind: Kind, spot: Spot) -> Spot {
    match (kind, spot) {
        (Kind::Font, Spot::Font) | (Kind::Cvt, Spot::Prep) => Spot::Main,
        _ => spot,
    }
}

/// Where a number comes from that isn't known, as far as the search tells.
#[derive(Clone, Copy)]
pub enum SymbolOrigin {
    /// The instruction at this place makes it, or reads it where nothing is known of it.
    Made(Site),
    /// States that met at this place had different numbers. Each is told where it was known.
    Met {
        at: Site,
        first: Option<i32>,
        second: Option<i32>,
    },
    /// The program starts with it.
    Start,
    /// The search doesn't tell.
    Lost,
}

/// A state on its way, before the instruction where it is.
#[derive(Drop)]
pub struct KnownState {
    /// The state.
    pub state: State,
    /// Where the number of each of its symbols comes from.
    pub origins: Vec<SymbolOrigin>,
}

impl KnownState {
    /// Returns where the number of a cell's symbol comes from; nothing where it has none.
    pub fn origin(&self, cell: Cell) -> Option<SymbolOrigin> {
        if cell.factor == 0 {
            return None;
        }
        self.origins.get(cell.symbol as usize).copied()
    }
}

/// A state that was refused.
#[derive(Drop)]
pub struct RefusedState {
    /// The state, before the instruction that was refused.
    pub known: KnownState,
    /// The test of that instruction that failed.
    pub failed: Failed,
}

/// What the search tells of a program: of its last trial, the one whose answer it gave.
pub struct Insight {
    /// How many steps it made.
    pub steps: u64,
    /// How many elements the stack had at most.
    pub depth: usize,
    /// How many heads of loops there are.
    pub heads: usize,
    /// The state that was refused; none where no instruction is refused.
    pub refused: Option<RefusedState>,
    /// The first states that came to the site that was asked for.
    pub seen: Vec<KnownState>,
    /// Whether more states came there.
    pub has_more: bool,
}

// Written out, so that who holds an insight proves in one step that its memory is given back.
impl Drop for Insight {
    fn drop(self) {
        let Insight {
            steps: _,
            depth: _,
            heads: _,
            refused,
            seen,
            has_more: _,
        } = self;
        drop(refused);
        drop(seen);
    }
}
