//! The arithmetic and logical instructions.

ghost use Rattle.std.specs.Prelude.{◌≡◌, OnOk, false, true};
ghost use Rattle.tt_symbolic_state.specs.Values.{IsWithin};
ghost use Rattle.tt_symbolic_cells.specs.Answers.{IsAnswer, takes_one as takes_only_one};
ghost use Rattle.tt_symbolic.specs.Sound.{Computes, Puts};

use crate::push::{pop, put};
use tt_code::kinds::Arithmetic;
use tt_setting::StepFault;
use tt_symbolic_cells::{Answer, result_of_one, result_of_two, takes_one};
use tt_symbolic_state::cell::{Range, known};
use tt_symbolic_state::state::{State, fresh};

/// Puts a number of a range on top.
///
/// # Errors
/// `OutOfMemory`; `Refused`, where a symbol's number is in use.
fn put_within(state: &mut State, range: Range) -> Result<(), StepFault>
    ensures { OnOk result (Puts (λ v m controls z. IsWithin range z) state.old state.new) }
{
    if range.low == range.high {
        return put(state, known(range.low));
    }
    let cell = fresh(state, range)?;
    put(state, cell)
}

/// Puts a number on top of which the answer tells.
///
/// # Errors
/// `OutOfMemory`; `Refused`, where a symbol's number is in use.
pub fn put_answer(state: &mut State, answer: Answer) -> Result<(), StepFault>
    ensures { OnOk result (Puts (λ v m controls z. IsAnswer answer v z) state.old state.new) }
{
    match answer {
        Answer::Exactly(cell) => put(state, cell),
        Answer::Within(range) => put_within(state, range),
    }
}

/// Carries out an instruction that takes the top.
fn compute_one(state: &mut State, operation: Arithmetic) -> Result<(), StepFault>
    requires { takes_only_one operation ≡ true }
    ensures { OnOk result (Computes operation state.old state.new) }
{
    let top = pop(state, 0)?;
    let answer = result_of_one(operation, top, state.ranges.as_slice());
    put_answer(state, answer)
}

/// Carries out an instruction that takes two cells.
fn compute_two(state: &mut State, operation: Arithmetic) -> Result<(), StepFault>
    requires { takes_only_one operation ≡ false }
    ensures { OnOk result (Computes operation state.old state.new) }
{
    let top = pop(state, 0)?;
    let second = pop(state, 1)?;
    let answer = result_of_two(operation, second, top, state.ranges.as_slice());
    put_answer(state, answer)
}

/// Carries out an arithmetic or logical instruction.
///
/// # Errors
/// `Refused` where it may fault; `OutOfMemory`.
pub fn compute(state: &mut State, operation: Arithmetic) -> Result<(), StepFault>
    ensures { OnOk result (Computes operation state.old state.new) }
{
    if takes_one(operation) {
        compute_one(state, operation)
    } else {
        compute_two(state, operation)
    }
}
