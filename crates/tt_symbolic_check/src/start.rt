//! The states in which a program starts.

ghost use Rattle.std.specs.Prelude.{◌≡◌, [], IfOk, true};
ghost use Rattle.tt_symbolic_check.specs.Starts.{IsAfter, IsStartState, ShowsAfter, StartCovers};

use crate::covering::covers;
use std::alloc::{AllocError, Global};
use tt_code::Graphics;
use tt_setting::SortedMap;
use tt_symbolic_state::cell::{Cell, Range, known};
use tt_symbolic_state::stack::Stack;
use tt_symbolic_state::state::{State, Zone};

/// What is known of the memory and the functions with which a program starts, up to symbols.
pub struct Start {
    /// The storage area: what isn't listed is any number.
    pub storage: SortedMap<Cell>,
    /// The control values: what isn't listed is any number.
    pub controls: SortedMap<Cell>,
    /// The known functions, with the names of their bodies.
    pub functions: SortedMap<u32>,
    /// The range of each symbol.
    pub ranges: Vec<Range>,
}

// Written out, so that who holds a start proves in one step that its memory is given back.
impl Drop for Start {
    fn drop(self) {
        let Start {
            storage,
            controls,
            functions,
            ranges,
        } = self;
        drop(storage);
        drop(controls);
        drop(functions);
        drop(ranges);
    }
}

impl Start {
    /// Makes the start of which nothing is known.
    pub fn unknown(alloc: Global) -> Start
        ensures storage { result.storage ≡ [] }
        ensures controls { result.controls ≡ [] }
        ensures functions { result.functions ≡ [] }
        ensures ranges { result.ranges.items ≡ [] }
    {
        Start {
            storage: SortedMap::new(alloc),
            controls: SortedMap::new(alloc),
            functions: SortedMap::new(alloc),
            ranges: Vec::new(alloc),
        }
    }

    /// Makes the start with the memory and the functions that a state shows.
    ///
    /// # Errors
    /// If memory runs out.
    pub fn after(alloc: Global, end: &State) -> Result<Start, AllocError>
        ensures { IfOk result (ShowsAfter end.now) }
    {
        Ok(Start {
            storage: end.storage.copied(alloc)?,
            controls: end.controls.copied(alloc)?,
            functions: end.functions.copied(alloc)?,
            ranges: Vec::from_slice(alloc, end.ranges.as_slice())?,
        })
    }

    /// Whether the other start shows each machine that this one shows.
    ///
    /// # Errors
    /// If memory runs out.
    pub fn is_covered_by(&self, alloc: Global, other: &Start) -> Result<bool, AllocError>
        ensures { IfOk result (λ b. b ≡ true → StartCovers self.now other.now) }
    {
        let mine = start_state(alloc, self)?;
        let theirs = start_state(alloc, other)?;
        let covered = covers(alloc, &mine, &theirs)?;
        Ok(covered)
    }
}

/// Makes the state in which a program starts.
///
/// # Errors
/// If memory runs out.
pub fn start_state(alloc: Global, start: &Start) -> Result<State, AllocError>
    ensures start { IfOk result (IsStartState start.now) }
    ensures parts { IfOk result (λ a. IsAfter a start.now) }
{
    Ok(State {
        offset: 0,
        calls: Vec::new(alloc),
        stack: Stack::new(alloc),
        graphics: Graphics {
            rp0: known(0),
            rp1: known(0),
            rp2: known(0),
            zp0: Zone::One,
            zp1: Zone::One,
            zp2: Zone::One,
            loop_number: known(1),
        },
        storage: start.storage.copied(alloc)?,
        controls: start.controls.copied(alloc)?,
        functions: start.functions.copied(alloc)?,
        ranges: Vec::from_slice(alloc, start.ranges.as_slice())?,
    })
}
