//! The instructions that push data or move the stack's cells.

ghost use Rattle.std.specs.Prelude.{◌≡◌, ◌+◌, ◌∷◌, [], IfOk, OnOk, drop, pos, suc};
ghost use Rattle.tt_code.specs.Computing.{shuffled};
ghost use Rattle.tt_code.specs.declared.kinds.StackOp.TheVariants as op;
ghost use Rattle.tt_symbolic_state.specs.Values.{Fits, Valuation, value};
ghost use Rattle.tt_symbolic_state.specs.declared.cell.Cell.{Cell as AnyCell};
ghost use Rattle.tt_symbolic_cells.specs.Stacking.{Restacks};

use crate::failures::{too_few, unknown};
use std::alloc::AllocError;
use tt_code::Reason;
use tt_code::kinds::StackOp;
use tt_setting::{Failed, Role, StepFault};
use tt_symbolic_state::cell::{Cell, Range, known, number};
use tt_symbolic_state::stack::Stack;

/// Returns the cell under `taken` others.
///
/// # Errors
/// `TooFew` where there is no such cell.
pub fn cell_under(stack: &Stack, taken: usize) -> Result<Cell, Failed>
    ensures { IfOk result (λ c. drop taken stack.now ≡ c ∷ drop (taken + 1) stack.now) }
{
    match stack.under(taken) {
        Some(cell) => Ok(cell),
        None => Err(too_few(stack, 0)),
    }
}

/// Carries out DUP.
fn duplicate(stack: &mut Stack, ranges: &[Range]) -> Result<(), StepFault>
    ensures { OnOk result (Restacks (shuffled op.Dup) ranges.now stack.old stack.new) }
{
    let top = cell_under(stack, 0)?;
    stack.push(top)?;
    Ok(())
}

/// Carries out POP.
fn discard(stack: &mut Stack, ranges: &[Range]) -> Result<(), StepFault>
    ensures { OnOk result (Restacks (shuffled op.Pop) ranges.now stack.old stack.new) }
{
    cell_under(stack, 0)?;
    stack.cut(1);
    Ok(())
}

/// Carries out SWAP.
fn swap(stack: &mut Stack, ranges: &[Range]) -> Result<(), StepFault>
    ensures { OnOk result (Restacks (shuffled op.Swap) ranges.now stack.old stack.new) }
{
    let top = cell_under(stack, 0)?;
    let second = cell_under(stack, 1)?;
    stack.cut(2);
    stack.push(top)?;
    stack.push(second)?;
    Ok(())
}

/// Carries out CLEAR.
fn clear(stack: &mut Stack, ranges: &[Range])
    ensures { Restacks (shuffled op.Clear) ranges.now stack.old stack.new }
{
    stack.clear();
}

/// Carries out DEPTH.
fn push_depth(stack: &mut Stack, ranges: &[Range]) -> Result<(), StepFault>
    ensures { OnOk result (Restacks (shuffled op.Depth) ranges.now stack.old stack.new) }
{
    match i32::try_from(stack.len()) {
        Ok(depth) => {
            stack.push(known(depth))?;
            Ok(())
        }
        Err(_) => Err(StepFault::from(Reason::Overflow)),
    }
}

/// Reads the index on top: returns how many cells lie above the cell that it names.
fn indexed(stack: &Stack, ranges: &[Range]) -> Result<usize, Failed>
    ensures { IfOk result (λ n. (c : AnyCell) × (drop 0 stack.now ≡ c ∷ drop 1 stack.now)
        × ((v : Valuation) → Fits ranges.now v → value v c ≡ pos (suc n))) }
{
    let top = cell_under(stack, 0)?;
    match number(top, ranges) {
        Some(index) => match usize::try_from(index) {
            Ok(n) if n > 0 => Ok(n - 1),
            _ => Err(Failed::LowIndex { index }),
        },
        None => Err(unknown(Role::StackIndex, 0)),
    }
}

/// Returns the test that fails where there is no cell under this many others, which an index names.
fn no_element(above: usize) -> Failed {
    let index = i32::try_from(above.saturating_add(1)).unwrap_or(i32::MAX);
    Failed::NoElement { index }
}

/// Returns the cell under this many others, which an index names.
fn element(stack: &Stack, above: usize) -> Result<Cell, Failed>
    ensures { IfOk result (λ c. drop above stack.now ≡ c ∷ drop (above + 1) stack.now) }
{
    match stack.under(above) {
        Some(cell) => Ok(cell),
        None => Err(no_element(above)),
    }
}

/// Carries out CINDEX.
fn copy_indexed(stack: &mut Stack, ranges: &[Range]) -> Result<(), StepFault>
    ensures { OnOk result (Restacks (shuffled op.CopyIndexed) ranges.now stack.old stack.new) }
{
    let above = indexed(stack, ranges)?;
    stack.cut(1);
    let cell = element(stack, above)?;
    stack.push(cell)?;
    Ok(())
}

/// Carries out MINDEX.
fn move_indexed(stack: &mut Stack, ranges: &[Range]) -> Result<(), StepFault>
    ensures { OnOk result (Restacks (shuffled op.MoveIndexed) ranges.now stack.old stack.new) }
{
    let above = indexed(stack, ranges)?;
    stack.cut(1);
    let cell = element(stack, above)?;
    if above >= stack.len() {
        return Err(StepFault::from(no_element(above)));
    }
    stack.remove(above);
    stack.push(cell)?;
    Ok(())
}

/// Carries out ROLL.
fn roll(stack: &mut Stack, ranges: &[Range]) -> Result<(), StepFault>
    ensures { OnOk result (Restacks (shuffled op.Roll) ranges.now stack.old stack.new) }
{
    let top = cell_under(stack, 0)?;
    let second = cell_under(stack, 1)?;
    let third = cell_under(stack, 2)?;
    stack.cut(3);
    stack.push(second)?;
    stack.push(top)?;
    stack.push(third)?;
    Ok(())
}

/// Carries out an instruction that moves the stack's cells.
///
/// # Errors
/// `Refused` where it may fault, or isn't known well enough; `OutOfMemory`.
pub fn shuffle(stack: &mut Stack, ranges: &[Range], operation: StackOp) -> Result<(), StepFault>
    ensures { OnOk result (Restacks (shuffled operation) ranges.now stack.old stack.new) }
{
    match operation {
        StackOp::Dup => duplicate(stack, ranges),
        StackOp::Pop => discard(stack, ranges),
        StackOp::Clear => {
            clear(stack, ranges);
            Ok(())
        }
        StackOp::Swap => swap(stack, ranges),
        StackOp::Depth => push_depth(stack, ranges),
        StackOp::CopyIndexed => copy_indexed(stack, ranges),
        StackOp::MoveIndexed => move_indexed(stack, ranges),
        StackOp::Roll => roll(stack, ranges),
    }
}
