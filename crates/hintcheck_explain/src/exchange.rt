//! How many cells an instruction takes from the stack, and how many it pushes onto it.

use crate::element::Element;
use crate::instruction_text::count_of_data;
use crate::view::View;
use tt_code::kinds::{Arithmetic, Control, Effect, Operand, Row, StackOp};
use tt_code::{Instr, entry};
use tt_setting::Register;

/// How many cells an instruction takes from the stack, and how many it pushes onto it.
#[derive(Clone, Copy, Default)]
pub(crate) struct Exchange {
    pub takes: usize,
    pub pushes: usize,
}

/// Returns how many cells an operand takes after this many others, as far as that is known.
fn cells_of(view: View<'_>, taken: usize, operand: Operand) -> usize {
    match operand {
        Operand::LoopPoints(_) => count_of(view.number(Element::Register(Register::Loop)), 1),
        Operand::PointPairs(_) | Operand::CvtPairs => {
            let pairs = count_of(view.number_under(taken), 0);
            pairs.saturating_mul(2).saturating_add(1)
        }
        _ => 1,
    }
}

/// Returns a number as a count; this other one where it isn't known or is negative.
pub(crate) fn count_of(number: Option<i32>, other: usize) -> usize {
    match number {
        Some(number) => usize::try_from(number).unwrap_or(other),
        None => other,
    }
}

/// Returns how many cells a line takes, as far as that is known.
fn cells_taken(view: View<'_>, row: &Row) -> usize {
    let mut taken: usize = 0;
    for operand in row.operands {
        taken = taken.saturating_add(cells_of(view, taken, *operand));
    }
    taken
}

/// Returns how many cells a control instruction takes.
fn cells_of_control(operation: Control) -> usize {
    match operation {
        Control::If | Control::Jump | Control::Call | Control::FunctionDefinition => 1,
        Control::JumpIfTrue | Control::JumpIfFalse | Control::LoopCall => 2,
        Control::Else | Control::EndFunction | Control::InstructionDefinition => 0,
    }
}

/// Returns how many cells a stack instruction takes and pushes.
fn exchange_of_stack(operation: StackOp, depth: usize) -> (usize, usize) {
    match operation {
        StackOp::Dup => (1, 2),
        StackOp::Pop => (1, 0),
        StackOp::Clear => (depth, 0),
        StackOp::Swap => (2, 2),
        StackOp::Depth => (0, 1),
        StackOp::CopyIndexed => (1, 1),
        StackOp::MoveIndexed => (1, 0),
        StackOp::Roll => (3, 3),
    }
}

/// Whether an arithmetic instruction takes only one number.
pub(crate) fn is_of_one(operation: Arithmetic) -> bool {
    matches!(
        operation,
        Arithmetic::Abs | Arithmetic::Neg | Arithmetic::Not
    )
}

/// Returns how many cells an instruction takes and pushes, as far as that is known.
pub(crate) fn exchange_of(view: View<'_>, instr: &Instr<'_>) -> Exchange {
    let (takes, pushes) = match entry(instr.code()) {
        Effect::NoEntry => (0, 0),
        Effect::Plain(row) => (cells_taken(view, row), row.pushes.len()),
        Effect::Push(push) => (0, count_of_data(*push, instr.data())),
        Effect::Stack(operation) => exchange_of_stack(*operation, view.depth()),
        Effect::Arithmetic(operation) => (if is_of_one(*operation) { 1 } else { 2 }, 1),
        Effect::Control(operation) => (cells_of_control(*operation), 0),
    };
    Exchange { takes, pushes }
}
