//! Cells taken from a state's stack and put there.

ghost use Rattle.std.specs.Prelude.{IfOk, OnOk};
ghost use Rattle.tt_symbolic.specs.Sound.{Pops, Pushes};

use tt_setting::{Failed, StepFault};
use tt_symbolic_cells::{cell_under, too_few};
use tt_symbolic_state::cell::Cell;
use tt_symbolic_state::state::State;

/// Takes the top, after the instruction took this many others.
///
/// # Errors
/// `TooFew` where there is none, with how many there were before the instruction.
pub fn pop(state: &mut State, taken: usize) -> Result<Cell, Failed>
    ensures { IfOk result (Pops state.old state.new) }
{
    let Ok(top) = cell_under(&state.stack, 0) else {
        return Err(too_few(&state.stack, taken));
    };
    state.stack.cut(1);
    Ok(top)
}

/// Puts a cell on top.
///
/// # Errors
/// `OutOfMemory`.
pub fn put(state: &mut State, cell: Cell) -> Result<(), StepFault>
    ensures { OnOk result (Pushes state.old state.new cell) }
{
    state.stack.push(cell)?;
    Ok(())
}
