//! The arithmetic and logical instructions.

ghost use Rattle.std.specs.Prelude.{◌≡◌, IfErr, OnOk};
ghost use Rattle.tt_abs.specs.Representation.Computes.{one_computed, two_computed, one_result, two_results};
ghost use Rattle.tt_setting.specs.Refusals.{ForFailed};
ghost use Rattle.tt_abs.specs.Representation.Taken.{TellsOfStack};
ghost use Rattle.tt_abs.specs.Representation.Steps.{IsStackRefusedFor, Restacks, takes_one};
ghost use Rattle.tt_abs.specs.Transfers.{computed_cells};

use crate::arithmetic;
use crate::cells::Cell;
use crate::shuffle::cell_under;
use crate::stack::Stack;
use tt_code::kinds::Arithmetic;
use tt_setting::StepFault;

/// Whether the instruction takes only one operand.
fn is_of_one(operation: Arithmetic) -> bool
    ensures { result ≡ takes_one operation }
{
    match operation {
        Arithmetic::Abs => true,
        Arithmetic::Neg => true,
        Arithmetic::Not => true,
        _ => false,
    }
}

/// Returns the result of ABS, NEG or NOT.
fn result_of_one(operation: Arithmetic, cell: Cell) -> Cell
    ensures { result ≡ one_result operation cell }
{
    match operation {
        Arithmetic::Abs => arithmetic::absolute_value(cell),
        Arithmetic::Neg => arithmetic::negative(cell),
        _ => arithmetic::opposite(cell),
    }
}

/// Returns the result of an instruction of two operands: of the second element of the stack and the
/// top.
fn result_of_two(operation: Arithmetic, second: Cell, top: Cell) -> Cell
    ensures { result ≡ two_results operation second top }
{
    match operation {
        Arithmetic::Add => arithmetic::sum(second, top),
        Arithmetic::Sub => arithmetic::difference(second, top),
        Arithmetic::Lt => arithmetic::less(second, top),
        Arithmetic::LtEq => arithmetic::at_most(second, top),
        Arithmetic::Gt => arithmetic::less(top, second),
        Arithmetic::GtEq => arithmetic::at_most(top, second),
        Arithmetic::Eq => arithmetic::same(second, top),
        Arithmetic::Neq => arithmetic::different(second, top),
        Arithmetic::And => arithmetic::both(second, top),
        _ => arithmetic::either(second, top),
    }
}

/// Replaces the top of the stack by the result of an instruction of one operand.
fn compute_of_one(stack: &mut Stack, operation: Arithmetic) -> Result<(), StepFault>
    ensures ok { OnOk result (Restacks (one_computed operation) stack.old stack.new) }
    ensures refused { IfErr result (IsStackRefusedFor (one_computed operation) stack.old) }
    ensures told { IfErr result (λ e. ForFailed e (TellsOfStack stack.old)) }
{
    let top = cell_under(stack, 0)?;
    stack.cut(1);
    stack.push(result_of_one(operation, top))?;
    Ok(())
}

/// Replaces the two upper cells by the result of an instruction of two operands.
fn compute_of_two(stack: &mut Stack, operation: Arithmetic) -> Result<(), StepFault>
    ensures ok { OnOk result (Restacks (two_computed operation) stack.old stack.new) }
    ensures refused { IfErr result (IsStackRefusedFor (two_computed operation) stack.old) }
    ensures told { IfErr result (λ e. ForFailed e (TellsOfStack stack.old)) }
{
    let top = cell_under(stack, 0)?;
    let second = cell_under(stack, 1)?;
    stack.cut(2);
    stack.push(result_of_two(operation, second, top))?;
    Ok(())
}

/// Replaces an instruction's operands, which are on top, by its result.
///
/// # Errors
/// `Refused` with `Underflow` where the stack has too few cells; then it stays as it is.
/// `OutOfMemory`; then its cells are unspecified.
pub fn compute(stack: &mut Stack, operation: Arithmetic) -> Result<(), StepFault>
    ensures ok { OnOk result (Restacks (computed_cells operation) stack.old stack.new) }
    ensures refused { IfErr result (IsStackRefusedFor (computed_cells operation) stack.old) }
    ensures told { IfErr result (λ e. ForFailed e (TellsOfStack stack.old)) }
{
    if is_of_one(operation) {
        compute_of_one(stack, operation)
    } else {
        compute_of_two(stack, operation)
    }
}
