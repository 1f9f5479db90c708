//! Memory of a walk that is used again: states that are done with, and a list for comparisons.

ghost use Rattle.std.specs.Prelude.{IfOk};
ghost use Rattle.tt_symbolic_check.specs.Copying.{IsCopy};

use crate::copying::{copied, copy_into};
use std::alloc::{AllocError, Global};
use tt_symbolic_state::cell::Cell;
use tt_symbolic_state::state::State;

/// How many states are kept at most whose memory is used again.
const MOST_KEPT: usize = 32;

/// Memory of a walk that is used again.
#[derive(Drop)]
pub struct Pool {
    alloc: Global,
    /// States that are done with.
    states: Vec<Box<State>>,
    /// What was assigned when states were compared last.
    pub assigned: Vec<Option<Cell>>,
}

impl Pool {
    /// Makes the pool of no memory.
    pub fn new(alloc: Global) -> Pool {
        Pool {
            alloc,
            states: Vec::new(alloc),
            assigned: Vec::new(alloc),
        }
    }

    /// Makes a copy of a state, in the memory of one that is done with, where there is one.
    ///
    /// # Errors
    /// If memory runs out.
    pub fn copied(&mut self, state: &State) -> Result<Box<State>, AllocError>
        ensures { IfOk result (λ b. IsCopy state.now b.value) }
    {
        match self.states.pop() {
            Some(used) => {
                let mut copy = used;
                copy_into(self.alloc, state, &mut copy)?;
                Ok(copy)
            }
            None => Ok(Box::new(self.alloc, self.exact_copy(state)?)?),
        }
    }

    /// Makes a copy of a state in new memory, of which it takes no more than it needs.
    ///
    /// # Errors
    /// If memory runs out.
    pub fn exact_copy(&self, state: &State) -> Result<State, AllocError>
        ensures { IfOk result (IsCopy state.now) }
    {
        copied(self.alloc, state)
    }

    /// Keeps the memory of a state that is done with, if there is little of it.
    ///
    /// # Errors
    /// If memory runs out.
    pub fn keep(&mut self, state: Box<State>) -> Result<(), AllocError> {
        if self.states.len() < MOST_KEPT {
            self.states.push(state)?;
        }
        Ok(())
    }
}
