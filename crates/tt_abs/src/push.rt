//! Pushing cells, and the data of push instructions.

ghost use Rattle.std.specs.Prelude.{◌≡◌, OnOk, map};
ghost use Rattle.tt_code.specs.Computing.{numbers_in};
ghost use Rattle.tt_abs.specs.Transfers.{cells_on};
ghost use Rattle.tt_abs.specs.declared.cells.Cell.TheVariants.{Known};

use crate::cells::Cell;
use crate::stack::Stack;
use std::alloc::AllocError;
use tt_code::kinds::Push;

/// Pushes cells, the last one on top.
///
/// # Errors
/// If memory runs out, or there would be more than 2^31 - 1 cells; then the stack's cells are
/// unspecified.
pub fn push_cells(stack: &mut Stack, cells: &[Cell]) -> Result<(), AllocError>
    ensures { OnOk result (stack.new ≡ cells_on cells.now stack.old) }
{
    for cell in cells {
        stack.push(*cell)?;
    }
    Ok(())
}

/// Pushes the numbers that the data of a push instruction spell.
///
/// # Errors
/// If memory runs out, or there would be more than 2^31 - 1 cells; then the stack's cells are
/// unspecified.
pub fn push_data(stack: &mut Stack, push: Push, bytes: &[u8]) -> Result<(), AllocError>
    ensures { OnOk result (stack.new ≡ cells_on (map Known (numbers_in push bytes.now)) stack.old) }
{
    match push {
        Push::CountedBytes => stack.push_bytes(bytes),
        Push::Bytes(_) => stack.push_bytes(bytes),
        Push::CountedWords => stack.push_words(bytes),
        Push::Words(_) => stack.push_words(bytes),
    }
}
