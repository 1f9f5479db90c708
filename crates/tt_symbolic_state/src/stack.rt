//! The stack of cells.

ghost use Rattle.std.specs.Prelude.{◌≡◌, ◌+◌, ◌<◌, ◌^◌, [], ◌∷◌, length, drop, remove, reverse, IfSome, IfOk, OnOk};

use crate::cell::Cell;
use std::alloc::{AllocError, Global};
use std::marker::Model;

/// A stack of cells, which contracts see top first.
#[derive(Drop)]
pub struct Stack {
    /// The cells, the bottom first.
    cells: Vec<Cell>,
}

impl Model for Stack {
    ghost use Rattle.std.specs.Prelude.{List, reverse};
    ghost use Rattle.tt_symbolic_state.specs.declared.cell.Cell.{Cell};

    ghost Value = { List Cell };

    ghost view = { λ s. reverse s.cells.items };
}

impl Stack {
    /// Makes the empty stack.
    pub fn new(alloc: Global) -> Self
        ensures { result ≡ [] }
    {
        Stack {
            cells: Vec::new(alloc),
        }
    }

    /// Makes the stack of these cells, the bottom first.
    pub fn from_cells(cells: Vec<Cell>) -> Self
        ensures { result ≡ reverse cells.items }
    {
        Stack { cells }
    }

    /// Returns the cells, the bottom first.
    pub fn into_cells(self) -> Vec<Cell>
        ensures { result.items ≡ reverse self }
    {
        self.cells
    }

    /// Returns how many cells there are.
    pub fn len(&self) -> usize
        ensures { result ≡ length self.now }
    {
        self.cells.len()
    }

    /// Returns the cells, the bottom first.
    pub fn as_slice(&self) -> &[Cell]
        ensures { result.now ≡ reverse self.now }
    {
        self.cells.as_slice()
    }

    /// Puts a cell on top.
    ///
    /// # Errors
    /// If memory runs out.
    pub fn push(&mut self, cell: Cell) -> Result<(), AllocError>
        ensures { OnOk result (self.new ≡ cell ∷ self.old) }
    {
        self.cells.push(cell)?;
        Ok(())
    }

    /// Returns the cell under `taken` others, if there is one.
    pub fn under(&self, taken: usize) -> Option<Cell>
        ensures cell { IfSome result (λ c. drop taken self.now ≡ c ∷ drop (taken + 1) self.now) }
        ensures room { IfSome result (λ _. taken + 1 < 2 ^ 64) }
    {
        let depth = self.cells.len();
        if taken < depth {
            Some(self.cells[depth - 1 - taken])
        } else {
            None
        }
    }

    /// Removes `count` cells from the top, or all of them if there are fewer.
    pub fn cut(&mut self, count: usize)
        ensures { self.new ≡ drop count self.old }
    {
        let depth = self.cells.len();
        self.cells.truncate(depth.saturating_sub(count));
    }

    /// Removes the cell at a position from the top: 0 is the top.
    pub fn remove(&mut self, place: usize)
        requires { place < length self.old }
        ensures { self.new ≡ remove self.old place }
    {
        let depth = self.cells.len();
        self.cells.remove(depth - 1 - place);
    }

    /// Removes all cells.
    pub fn clear(&mut self)
        ensures { self.new ≡ [] }
    {
        self.cells.clear();
    }

    /// Makes a stack of the same cells.
    ///
    /// # Errors
    /// If memory runs out.
    pub fn copied(&self, alloc: Global) -> Result<Stack, AllocError>
        ensures { IfOk result (λ copy. copy ≡ self.now) }
    {
        Ok(Stack {
            cells: Vec::from_slice(alloc, self.cells.as_slice())?,
        })
    }
}
