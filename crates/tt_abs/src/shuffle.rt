//! The instructions that move the stack's cells.

ghost use Rattle.std.specs.Prelude.{◌≡◌, ◌+◌, ◌∷◌, [], Err, IfErr, IfOk, List, OnOk, drop, length, pos, suc};
ghost use Rattle.tt_code.specs.Computing.{element};
ghost use Rattle.tt_code.specs.declared.kinds.StackOp.TheVariants as op;
ghost use Rattle.tt_abs.specs.Failures.{IsRoleOfShuffle};
ghost use Rattle.tt_setting.specs.Refusals.{reason_of};
ghost use Rattle.tt_setting.specs.Refusals.{ForFailed};
ghost use Rattle.tt_abs.specs.Representation.Taken.{IsRole, TellsOfStack, TellsOfStackAs};
ghost use Rattle.tt_abs.specs.Representation.Steps.{IsNamedCell, IsStackRefusedFor, NamesNoCell, Restacks};
ghost use Rattle.tt_abs.specs.Transfers.{shuffled_cells};
ghost use Rattle.tt_abs.specs.declared.cells.Cell.{Cell as AnyCell};
ghost use Rattle.tt_setting.specs.declared.failed.Failed.TheVariants as failed;
ghost use Rattle.tt_setting.specs.declared.failed.Role.TheVariants as roles;

use crate::cells::Cell;
use crate::operands::{number, too_few};
use crate::stack::Stack;
use tt_code::kinds::StackOp;
use tt_setting::{Failed, Role, StepFault};

/// Returns the cell under `taken` others.
///
/// # Errors
/// `TooFew` where there is no such cell.
pub fn cell_under(stack: &Stack, taken: usize) -> Result<Cell, Failed>
    ensures ok { IfOk result (λ c. drop taken stack.now ≡ c ∷ drop (taken + 1) stack.now) }
    ensures refused { IfErr result (λ f. drop taken stack.now ≡ []) }
    ensures told { IfErr result (λ f. f ≡ failed.TooFew (length stack.now)) }
{
    match stack.under(taken) {
        Some(cell) => Ok(cell),
        None => Err(too_few(stack)),
    }
}

/// Carries out DUP: copies the top.
fn duplicate(stack: &mut Stack) -> Result<(), StepFault>
    ensures ok { OnOk result (Restacks (shuffled_cells op.Dup) stack.old stack.new) }
    ensures refused { IfErr result (IsStackRefusedFor (shuffled_cells op.Dup) stack.old) }
    ensures told { IfErr result (λ e. ForFailed e (TellsOfStack stack.old)) }
{
    let top = cell_under(stack, 0)?;
    stack.push(top)?;
    Ok(())
}

/// Carries out POP: removes the top.
fn discard(stack: &mut Stack) -> Result<(), StepFault>
    ensures ok { OnOk result (Restacks (shuffled_cells op.Pop) stack.old stack.new) }
    ensures refused { IfErr result (IsStackRefusedFor (shuffled_cells op.Pop) stack.old) }
    ensures told { IfErr result (λ e. ForFailed e (TellsOfStack stack.old)) }
{
    cell_under(stack, 0)?;
    stack.cut(1);
    Ok(())
}

/// Carries out SWAP: exchanges the two upper cells.
fn swap(stack: &mut Stack) -> Result<(), StepFault>
    ensures ok { OnOk result (Restacks (shuffled_cells op.Swap) stack.old stack.new) }
    ensures refused { IfErr result (IsStackRefusedFor (shuffled_cells op.Swap) stack.old) }
    ensures told { IfErr result (λ e. ForFailed e (TellsOfStack stack.old)) }
{
    let top = cell_under(stack, 0)?;
    let second = cell_under(stack, 1)?;
    stack.cut(2);
    stack.push(top)?;
    stack.push(second)?;
    Ok(())
}

/// Carries out DEPTH: pushes how many cells there are.
fn push_depth(stack: &mut Stack) -> Result<(), StepFault>
    ensures ok { OnOk result (Restacks (shuffled_cells op.Depth) stack.old stack.new) }
    ensures refused { IfErr result (IsStackRefusedFor (shuffled_cells op.Depth) stack.old) }
    ensures told { IfErr result (λ e. ForFailed e (TellsOfStack stack.old)) }
{
    let depth = stack.len() as i32;
    stack.push(Cell::Known(depth))?;
    Ok(())
}

/// Returns the position that an index from 1 names, the top being 0.
fn place(index: i32) -> Result<usize, Failed>
    ensures ok { IfOk result (λ n. index ≡ pos (suc n)) }
    ensures refused { IfErr result
        (λ f. (cells : List AnyCell) → element index cells ≡ Err (reason_of f)) }
    ensures told { IfErr result (λ f. f ≡ failed.LowIndex index) }
{
    match usize::try_from(index) {
        Ok(n) if n > 0 => Ok(n - 1),
        _ => Err(Failed::LowIndex { index }),
    }
}

/// Reads the index on top: returns how many cells lie above the cell that it names, the index
/// itself not counted, and that cell.
fn indexed(stack: &Stack) -> Result<(usize, Cell), Failed>
    ensures ok { IfOk result (IsNamedCell stack.now) }
    ensures refused { IfErr result (NamesNoCell stack.now) }
    ensures told { IfErr result (TellsOfStackAs (IsRole roles.StackIndex 0) stack.now) }
{
    let top = cell_under(stack, 0)?;
    let index = number(top, Role::StackIndex, 0)?;
    let above = place(index)?;
    match cell_under(stack, above + 1) {
        Ok(cell) => Ok((above, cell)),
        Err(_) => Err(Failed::NoElement { index }),
    }
}

/// Carries out CINDEX: copies the cell that the top names.
fn copy_indexed(stack: &mut Stack) -> Result<(), StepFault>
    ensures ok { OnOk result (Restacks (shuffled_cells op.CopyIndexed) stack.old stack.new) }
    ensures refused { IfErr result (IsStackRefusedFor (shuffled_cells op.CopyIndexed) stack.old) }
    ensures told { IfErr result
        (λ e. ForFailed e (TellsOfStackAs (IsRole roles.StackIndex 0) stack.old)) }
{
    let (_, cell) = indexed(stack)?;
    stack.cut(1);
    stack.push(cell)?;
    Ok(())
}

/// Carries out MINDEX: moves the cell that the top names to the top.
fn move_indexed(stack: &mut Stack) -> Result<(), StepFault>
    ensures ok { OnOk result (Restacks (shuffled_cells op.MoveIndexed) stack.old stack.new) }
    ensures refused { IfErr result (IsStackRefusedFor (shuffled_cells op.MoveIndexed) stack.old) }
    ensures told { IfErr result
        (λ e. ForFailed e (TellsOfStackAs (IsRole roles.StackIndex 0) stack.old)) }
{
    let (above, cell) = indexed(stack)?;
    stack.cut(1);
    stack.remove(above);
    stack.push(cell)?;
    Ok(())
}

/// Carries out ROLL: brings the third cell to the top.
fn roll(stack: &mut Stack) -> Result<(), StepFault>
    ensures ok { OnOk result (Restacks (shuffled_cells op.Roll) stack.old stack.new) }
    ensures refused { IfErr result (IsStackRefusedFor (shuffled_cells op.Roll) stack.old) }
    ensures told { IfErr result (λ e. ForFailed e (TellsOfStack stack.old)) }
{
    let top = cell_under(stack, 0)?;
    let second = cell_under(stack, 1)?;
    let third = cell_under(stack, 2)?;
    stack.cut(3);
    stack.push(second)?;
    stack.push(top)?;
    stack.push(third)?;
    Ok(())
}

/// Carries out an instruction that moves the stack's cells.
///
/// # Errors
/// `Refused` with `Underflow` where the stack has too few cells, with `UnknownOperand` where an
/// index isn't known, with `Count` where it is below 1; then the stack stays as it is.
/// `OutOfMemory`; then its cells are unspecified.
pub fn shuffle(stack: &mut Stack, operation: StackOp) -> Result<(), StepFault>
    ensures ok { OnOk result (Restacks (shuffled_cells operation) stack.old stack.new) }
    ensures refused { IfErr result (IsStackRefusedFor (shuffled_cells operation) stack.old) }
    ensures told { IfErr result
        (λ e. ForFailed e (TellsOfStackAs (IsRoleOfShuffle operation) stack.old)) }
{
    match operation {
        StackOp::Dup => duplicate(stack),
        StackOp::Pop => discard(stack),
        StackOp::Clear => {
            stack.clear();
            Ok(())
        }
        StackOp::Swap => swap(stack),
        StackOp::Depth => push_depth(stack),
        StackOp::CopyIndexed => copy_indexed(stack),
        StackOp::MoveIndexed => move_indexed(stack),
        StackOp::Roll => roll(stack),
    }
}
