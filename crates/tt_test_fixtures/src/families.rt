//! What the tests share: states, and builders into which contexts and states are put.

ghost use Rattle.std.specs.Prelude.{IfOk};
ghost use Rattle.tt_setting.specs.Entries.{Ascends};
ghost use Rattle.tt_abs.specs.States.{state_order};

use std::alloc::{AllocError, Global};
use tt_abs::{Cell, State, StepFault};
use tt_code::{Frame, Reason};
use tt_family::Builder;

/// The first turn of a call at offset 0.
pub const CALL: Frame = Frame {
    body: 7,
    call: 0,
    turn: 1,
    count: 1,
};

/// Returns the state at a start with these functions, with these numbers on the stack, the bottom
/// first; 64 of them at most.
///
/// # Errors
/// If memory runs out.
pub fn state_of(alloc: Global, functions: &[(u16, u32)], stack: &[i32]) -> Result<State, AllocError>
    requires { Ascends functions.now }
    ensures { IfOk result (λ state. state_order.InRange state) }
{
    let mut state = State::start(alloc, functions)?;
    for number in stack {
        if state.depth() < 64 {
            state.push(Cell::Known(*number))?;
        }
    }
    Ok(state)
}

/// Adds a context below one that is there.
///
/// # Errors
/// The faults of `Builder::add_context`; `TooManyContexts` also where there is none that it could
/// be below.
pub fn add(builder: &mut Builder, parent: u32, frame: Frame) -> Result<u32, StepFault> {
    if parent >= builder.contexts() {
        return Err(StepFault::from(Reason::TooManyContexts));
    }
    builder.add_context(parent, frame)
}

/// Joins a state into a context that is there.
///
/// # Errors
/// The faults of `Builder::join_state`; `OutOfMemory` also where the context isn't there.
pub fn join(
    builder: &mut Builder,
    context: u32,
    offset: u32,
    state: &State,
) -> Result<bool, StepFault>
    requires { state_order.InRange state.now }
{
    if context >= builder.contexts() {
        return Err(StepFault::OutOfMemory(AllocError));
    }
    builder.join_state(context, offset, state)
}
