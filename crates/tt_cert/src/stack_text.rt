//! The text of a stack's cells, which is kept for the next stack: mostly the lowest cells are the
//! same.

ghost use Rattle.std.specs.Prelude.{◌≡◌, ◌≤◌, ◌++◌, [], ◌∷◌, List, length, take, OnOk};
ghost use Rattle.tt_abs.specs.declared.cells.Cell.{Cell as AnyCell};
ghost use Rattle.tt_cert.specs.Representation.Clauses.{Pushes};
ghost use Rattle.tt_cert.specs.Representation.KeptTexts.{IsStackText, end_of};
ghost use Rattle.tt_cert.specs.Text.{cell_text};

use std::alloc::{AllocError, Global};
use tt_abs::Cell;

/// Appends the text of a cell: a tag, and the number if it is known.
///
/// # Errors
/// If memory runs out.
#[inline]
pub(crate) fn push_cell(out: &mut Vec<u8>, cell: Cell) -> Result<(), AllocError>
    ensures { Pushes (cell_text cell) result out.old.items out.new.items }
{
    match cell {
        Cell::Unknown => {
            out.push(0)?;
            Ok(())
        }
        Cell::Known(number) => {
            let [b3, b2, b1, b0] = number.to_be_bytes();
            out.extend_from_slice(&[1, b3, b2, b1, b0])
        }
    }
}

/// The text of a stack's cells, from the bottom up, by which the same lowest cells are recognized.
pub(crate) struct StackText {
    /// The texts of the cells, one after the other.
    pub(crate) cells: Vec<u8>,
    /// Where the text of each of them ends.
    pub(crate) ends: Vec<usize>,
}

// Written out, so that who holds a stack's text proves in one step that its memory is given back.
impl Drop for StackText {
    fn drop(self) {
        let StackText { cells, ends } = self;
        drop(cells);
        drop(ends);
    }
}

impl StackText {
    /// Makes the text of the empty stack.
    pub(crate) fn new(alloc: Global) -> Self
        ensures { IsStackText result [] }
    {
        StackText {
            cells: Vec::new(alloc),
            ends: Vec::new(alloc),
        }
    }

    /// Becomes the text of the empty stack.
    pub(crate) fn clear(&mut self)
        ensures { IsStackText self.new [] }
    {
        self.cells.clear();
        self.ends.clear();
    }

    /// Returns how many bytes the texts of the lowest `count` cells have.
    pub(crate) fn width(&self, count: usize) -> usize
        requires { count ≤ length self.now.ends.items }
        ensures { result ≡ end_of self.now.ends.items count }
    {
        match count.checked_sub(1) {
            Some(last) => self.ends[last],
            None => 0,
        }
    }

    /// Becomes the text of the lowest `count` cells, or stays that of all if there are fewer.
    pub(crate) fn cut(&mut self, count: usize)
        ensures { (cells : List AnyCell) → IsStackText self.old cells
            → IsStackText self.new (take count cells) }
    {
        if count < self.ends.len() {
            let width = self.width(count);
            self.cells.truncate(width);
            self.ends.truncate(count);
        }
    }

    /// Appends the text of one more cell.
    ///
    /// # Errors
    /// If memory runs out.
    #[inline]
    pub(crate) fn push(&mut self, cell: Cell) -> Result<(), AllocError>
        ensures { OnOk result ((cells : List AnyCell) → IsStackText self.old cells
            → IsStackText self.new (cells ++ cell ∷ [])) }
    {
        push_cell(&mut self.cells, cell)?;
        self.ends.push(self.cells.len())?;
        Ok(())
    }
}
