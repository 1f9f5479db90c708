//! The history of a state on its way, as far as the search needs it.

use crate::cell_names::{CellName, Part};
use crate::origins::{NOWHERE, OriginNumber, origin_in};
use crate::signature::mix;
use std::alloc::{AllocError, Global};
use std::cmp::Ordering;
use std::rc::Rc;
use tt_symbolic_state::State;
use tt_symbolic_state::cell::Cell;

/// How many splits a state remembers.
const MOST_REMEMBERED: usize = 24;

/// What is known of the main program, or of a call that hasn't returned.
#[derive(Clone, Copy)]
pub(crate) struct Level {
    /// How many turns of calls, and jumps back, it has seen.
    pub turn: u32,
    /// From which height on the stack's elements are its own.
    pub base: u32,
}

/// The history of a state, as far as the search needs it.
pub(crate) struct History {
    /// The origin of each symbol.
    pub origins: Vec<OriginNumber>,
    /// The main program, then each call that hasn't returned.
    pub levels: Vec<Level>,
    /// The origins of the symbols that were split, the latest last.
    pub splits: Vec<OriginNumber>,
    /// A hash of the known numbers below each height of the stack.
    hashes: Rc<Vec<u64>>,
    /// Up to which height these are right.
    hashed: usize,
}

// Written out, so that who holds a history proves in one step that its memory is given back.
impl Drop for History {
    fn drop(self) {
        let History {
            origins,
            levels,
            splits,
            hashes,
            hashed: _,
        } = self;
        drop(origins);
        drop(levels);
        drop(splits);
        drop(hashes);
    }
}

/// A state with its history.
#[derive(Drop)]
pub(crate) struct Track {
    /// The state.
    pub state: Box<State>,
    /// Its history.
    pub history: Box<History>,
}

/// The same, lent.
#[derive(Clone, Copy)]
pub(crate) struct Seen<'a> {
    /// The state.
    pub state: &'a State,
    /// Its history.
    pub history: &'a History,
}

/// Makes a list the same as another one, in the memory that it has, where that is enough.
pub(crate) fn copy_list<T: Copy>(list: &mut Vec<T>, other: &[T]) -> Result<(), AllocError> {
    list.clear();
    list.extend_from_slice(other)
}

impl History {
    /// Makes the history of a state in which a program starts, and which has so many symbols.
    fn start(alloc: Global, symbols: usize) -> Result<History, AllocError> {
        let level = Level { turn: 0, base: 0 };
        Ok(History {
            origins: vec![in alloc; NOWHERE; symbols]?,
            levels: vec![in alloc; level]?,
            splits: Vec::new(alloc),
            hashes: Rc::new(alloc, Vec::new(alloc))?,
            hashed: 0,
        })
    }

    /// Makes the same in memory of its own.
    pub(crate) fn boxed_start(alloc: Global, symbols: usize) -> Result<Box<History>, AllocError> {
        let history = History::start(alloc, symbols)?;
        Ok(Box::new(alloc, history)?)
    }

    /// Makes a copy.
    fn copied(&self, alloc: Global) -> Result<History, AllocError> {
        Ok(History {
            origins: Vec::from_slice(alloc, self.origins.as_slice())?,
            levels: Vec::from_slice(alloc, self.levels.as_slice())?,
            splits: Vec::from_slice(alloc, self.splits.as_slice())?,
            hashes: self.hashes.clone()?,
            hashed: self.hashed,
        })
    }

    /// Makes a copy in memory of its own.
    pub(crate) fn boxed_copy(&self, alloc: Global) -> Result<Box<History>, AllocError> {
        let copy = self.copied(alloc)?;
        Ok(Box::new(alloc, copy)?)
    }

    /// Becomes a copy of others, in the memory that it has, where that is enough.
    pub(crate) fn copy_from(&mut self, other: &History) -> Result<(), AllocError> {
        copy_list(&mut self.origins, other.origins.as_slice())?;
        copy_list(&mut self.levels, other.levels.as_slice())?;
        copy_list(&mut self.splits, other.splits.as_slice())?;
        self.hashes = other.hashes.clone()?;
        self.hashed = other.hashed;
        Ok(())
    }

    /// Remembers that a symbol of this origin was split.
    pub(crate) fn note_split(&mut self, origin: OriginNumber) -> Result<(), AllocError> {
        if origin == NOWHERE || self.splits.last() == Some(&origin) {
            return Ok(());
        }
        self.splits.retain(|other| *other != origin);
        if self.splits.len() >= MOST_REMEMBERED {
            self.splits.remove(0);
        }
        self.splits.push(origin)?;
        Ok(())
    }

    /// Takes over the splits that another state remembers, and forgets the earliest, where these are
    /// too many.
    pub(crate) fn add_splits(&mut self, others: &[OriginNumber]) -> Result<(), AllocError> {
        for origin in others {
            if !self.splits.contains(origin) {
                self.splits.push(*origin)?;
            }
        }
        let excess = self.splits.len().saturating_sub(MOST_REMEMBERED);
        drop(self.splits.drain(..excess));
        Ok(())
    }

    /// Notes that the elements of the stack below a height are as they were.
    pub(crate) fn touch(&mut self, height: usize) {
        self.hashed = self.hashed.min(height);
        let Ok(low) = u32::try_from(height) else {
            return;
        };
        if let Some(level) = self.levels.last_mut() {
            level.base = level.base.min(low);
        }
    }

    /// Returns a hash of the known numbers below a height of the stack, if that is noted.
    pub(crate) fn noted_hash(&self, height: usize) -> Option<u64> {
        if height > self.hashed {
            return None;
        }
        self.hashes.get(height).copied()
    }

    /// Notes a hash of the known numbers below each height of the stack.
    fn note_hashes(&mut self, alloc: Global, cells: &[Cell]) -> Result<(), AllocError> {
        let mut hashes = Vec::with_capacity(alloc, cells.len().saturating_add(1))?;
        let mut hash = 0;
        hashes.push(hash)?;
        for cell in cells {
            if cell.factor == 0 {
                hash = mix(hash, i64::from(cell.offset));
            }
            hashes.push(hash)?;
        }
        self.hashes = Rc::new(alloc, hashes)?;
        self.hashed = cells.len();
        Ok(())
    }

    /// Goes into a call that was just opened, with these elements on the stack.
    pub(crate) fn go_in(&mut self, alloc: Global, cells: &[Cell]) -> Result<(), AllocError> {
        let depth = cells.len();
        if self.levels.len() == 1 && self.noted_hash(depth).is_none() {
            self.note_hashes(alloc, cells)?;
        }
        let base = u32::try_from(depth).unwrap_or(u32::MAX);
        self.levels.push(Level { turn: 0, base })?;
        Ok(())
    }

    /// Comes back from a call that was just closed.
    pub(crate) fn come_back(&mut self) {
        if let Some(level) = self.levels.pop() {
            self.touch(level.base as usize);
        }
    }

    /// Counts a turn of the innermost call, or a jump back there.
    pub(crate) fn count_turn(&mut self) {
        if let Some(level) = self.levels.last_mut() {
            level.turn = level.turn.saturating_add(1);
        }
    }
}

impl Track {
    /// Lends the state with its history.
    pub(crate) fn seen(&self) -> Seen<'_> {
        Seen {
            state: &self.state,
            history: &self.history,
        }
    }
}

/// How many cells the rest of a state is counted as.
const CELLS_OF_STATE: usize = 32;

/// Returns how many cells a state has, roughly, with what is known beside it.
pub(crate) fn weight(state: &State) -> usize {
    cell_count(state).saturating_add(CELLS_OF_STATE)
}

/// Returns how many cells a state has, but for those of the graphics state and the calls.
pub(crate) fn cell_count(state: &State) -> usize {
    state
        .stack
        .len()
        .saturating_add(state.storage.as_slice().len())
        .saturating_add(state.controls.as_slice().len())
}

impl Seen<'_> {
    /// Returns where it is at a level: in its upper half how many turns that has seen, in the lower
    /// one at which offset it is.
    fn place_at(self, level: usize) -> u64 {
        let turn = match self.history.levels.get(level) {
            Some(own) => own.turn,
            None => 0,
        };
        let offset = match self.state.calls.get(level) {
            Some(call) => call.call,
            None => self.state.offset,
        };
        (u64::from(turn) << 32) | u64::from(offset)
    }

    /// Returns how its place is ordered to that of another track: level by level, from the main
    /// program to the innermost call, by the turn and the offset.
    pub(crate) fn order_to(self, other: Seen<'_>) -> Ordering {
        let (own, theirs) = (self.history.levels.len(), other.history.levels.len());
        for level in 0..own.min(theirs) {
            let (own, theirs) = (self.place_at(level), other.place_at(level));
            if own != theirs {
                return own.cmp(&theirs);
            }
        }
        own.cmp(&theirs)
    }

    /// Returns the origin of a cell's symbol.
    pub(crate) fn origin(self, cell: Cell) -> OriginNumber {
        origin_in(self.history.origins.as_slice(), cell)
    }

    /// Returns the name of the innermost body; none in the main program.
    pub(crate) fn body(self) -> Option<u32> {
        let call = self.state.calls.last()?;
        Some(call.body)
    }

    /// Returns the body of a level; none for the main program.
    pub(crate) fn body_at(self, level: usize) -> Option<u32> {
        let call = self.state.calls.get(level.checked_sub(1)?)?;
        Some(call.body)
    }

    /// Returns the name of a cell of the innermost body's states.
    pub(crate) fn name(self, part: Part) -> CellName {
        CellName {
            body: self.body(),
            part,
        }
    }

    /// Returns the name of the element at a height of the stack.
    pub(crate) fn element_name(self, height: usize) -> CellName {
        let height = u32::try_from(height).unwrap_or(u32::MAX);
        let mut name = CellName {
            body: None,
            part: Part::Stack(height),
        };
        for level in 1..self.history.levels.len() {
            let base = self.history.levels[level].base;
            if base <= height {
                name = CellName {
                    body: self.body_at(level),
                    part: Part::Stack(height - base),
                };
            }
        }
        name
    }
}
