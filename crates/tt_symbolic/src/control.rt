//! The instructions that lead elsewhere than to the next instruction.

ghost use Rattle.std.specs.Prelude.{◌≡◌, ◌+◌, ◌≤◌, ℕ, ◌++◌, ◌∷◌, [], IfOk, OnOk, length, pos, true};
ghost use Rattle.tt_code.specs.declared.kinds.Control.TheVariants as control;
ghost use Rattle.tt_symbolic_state.specs.Values.{Fits, Valuation, value};
ghost use Rattle.tt_symbolic.specs.Representation.Leading.{Closes, GoesTo, IsAt, IsKnownFunction, JumpsIf, JumpsTo, Leads, Opens, Repeats};

use crate::push::pop;
use std::alloc::AllocError;
use tt_code::Reason;
use tt_code::kinds::Control;
use tt_setting::setting::body_offset;
use tt_setting::{Failed, Point, Role, Setting, SortedMap, StepFault};
use tt_symbolic_cells::{UNDECIDED, too_deep, truth_of, unknown};
use tt_symbolic_state::cell::{Cell, Range, bounds, difference, known, number};
use tt_symbolic_state::state::{OpenCall, State};

/// What is told where an instruction has no end to which it could lead.
const NO_END: Failed = Failed::Only(Reason::Target);

/// Returns the offset just after an instruction of one byte.
fn next_offset(point: &Point<'_>) -> Result<u32, Failed>
    ensures { IfOk result (λ n. n ≡ point.now.offset + 1) }
{
    match point.offset.checked_add(1) {
        Some(offset) => Ok(offset),
        None => Err(NO_END),
    }
}

/// Returns the number that the cell is, which was under this many others, and is taken as this.
fn number_of(cell: Cell, ranges: &[Range], role: Role, under: usize) -> Result<i32, Failed>
    ensures { IfOk result (λ k. (v : Valuation) → Fits ranges.now v → value v cell ≡ k) }
{
    match number(cell, ranges) {
        Some(number) => Ok(number),
        None => Err(unknown(role, under)),
    }
}

/// Goes to an offset of the same body.
fn go_to(state: &mut State, offset: u32)
    ensures { GoesTo offset state.old state.new }
{
    state.offset = offset;
}

/// Carries out IF.
fn branch(setting: &Setting<'_>, point: &Point<'_>, state: &mut State) -> Result<(), StepFault>
    requires { IsAt point.now state.old }
    ensures { OnOk result (Leads setting.now control.If state.old state.new) }
{
    let condition = pop(state, 0)?;
    let Some(holds) = truth_of(condition, state.ranges.as_slice()) else {
        return Err(StepFault::from(UNDECIDED));
    };
    if holds {
        let next = next_offset(point)?;
        go_to(state, next);
        return Ok(());
    }
    let Some(after) = setting.program(point).after_if(point.offset) else {
        return Err(StepFault::from(NO_END));
    };
    go_to(state, after);
    Ok(())
}

/// Carries out ELSE, where it is reached.
fn skip_else(setting: &Setting<'_>, point: &Point<'_>, state: &mut State) -> Result<(), StepFault>
    requires { IsAt point.now state.old }
    ensures { OnOk result (Leads setting.now control.Else state.old state.new) }
{
    let Some(after) = setting.program(point).after_else(point.offset) else {
        return Err(StepFault::from(NO_END));
    };
    go_to(state, after);
    Ok(())
}

/// Returns the offset to which a jump by this distance leads.
fn jump_target(setting: &Setting<'_>, point: &Point<'_>, by: i32) -> Result<u32, Failed>
    ensures { IfOk result (JumpsTo setting.now point.now by) }
{
    match u32::try_from(i64::from(point.offset) + i64::from(by)) {
        Ok(target) => {
            if setting.is_target(point, i64::from(target)) {
                Ok(target)
            } else {
                Err(Failed::NoTarget { by })
            }
        }
        Err(_) => Err(Failed::NoTarget { by }),
    }
}

/// Whether the stack is as deep as it may be, or less.
fn is_within_depth(setting: &Setting<'_>, state: &State) -> bool
    ensures { result ≡ true → length state.now.stack ≤ setting.now.limits.stack }
{
    state.stack.len() <= usize::from(setting.limits.stack)
}

/// Carries out JMPR.
fn jump(setting: &Setting<'_>, point: &Point<'_>, state: &mut State) -> Result<(), StepFault>
    requires { IsAt point.now state.old }
    ensures { OnOk result (Leads setting.now control.Jump state.old state.new) }
{
    let distance = pop(state, 0)?;
    let by = number_of(distance, state.ranges.as_slice(), Role::Distance, 0)?;
    if !is_within_depth(setting, state) {
        return Err(StepFault::from(too_deep(&state.stack)));
    }
    let target = jump_target(setting, point, by)?;
    go_to(state, target);
    Ok(())
}

/// Carries out JROT and JROF, which jump where the condition is as asked.
fn jump_if(
    setting: &Setting<'_>,
    point: &Point<'_>,
    state: &mut State,
    asked: bool,
) -> Result<(), StepFault>
    requires { IsAt point.now state.old }
    ensures { OnOk result (JumpsIf setting.now asked state.old state.new) }
{
    let condition = pop(state, 0)?;
    let distance = pop(state, 1)?;
    match truth_of(condition, state.ranges.as_slice()) {
        Some(holds) => {
            if holds == asked {
                let by = number_of(distance, state.ranges.as_slice(), Role::Distance, 1)?;
                if !is_within_depth(setting, state) {
                    return Err(StepFault::from(too_deep(&state.stack)));
                }
                let target = jump_target(setting, point, by)?;
                go_to(state, target);
                Ok(())
            } else {
                let next = next_offset(point)?;
                go_to(state, next);
                Ok(())
            }
        }
        None => {
            // Which of both ways it goes isn't known; a distance that isn't known either is told first.
            number_of(distance, state.ranges.as_slice(), Role::Distance, 1)?;
            Err(StepFault::from(UNDECIDED))
        }
    }
}

/// Returns the number of a function.
fn function_number(number: i32) -> Result<u16, Failed>
    ensures { IfOk result (λ n. number ≡ pos n) }
{
    match u16::try_from(number) {
        Ok(function) => Ok(function),
        Err(_) => Err(Failed::NoFunction { number }),
    }
}

/// Carries out FDEF.
fn define(setting: &Setting<'_>, point: &Point<'_>, state: &mut State) -> Result<(), StepFault>
    requires { IsAt point.now state.old }
    ensures { OnOk result (Leads setting.now control.FunctionDefinition state.old state.new) }
{
    if !setting.may_define() {
        return Err(StepFault::from(Reason::Definition));
    }
    let top = pop(state, 0)?;
    let number = number_of(top, state.ranges.as_slice(), Role::Function, 0)?;
    let function = function_number(number)?;
    if function >= setting.limits.functions {
        return Err(StepFault::from(Failed::NoFunction { number }));
    }
    let Some(after) = setting.program(point).after_fdef(point.offset) else {
        return Err(StepFault::from(NO_END));
    };
    let start = next_offset(point)?;
    if start >= 1 << 31 {
        return Err(StepFault::from(NO_END));
    }
    let body = setting.body_name(start);
    state.functions.put(function, body)?;
    state.offset = after;
    Ok(())
}

/// Returns the body of the function of this number.
fn called(setting: &Setting<'_>, functions: &SortedMap<u32>, number: i32) -> Result<u32, Failed>
    ensures { IfOk result (λ body. (n : ℕ) × (number ≡ pos n)
        × IsKnownFunction setting.now functions.now n body) }
{
    match u16::try_from(number) {
        Ok(n) => {
            if n >= setting.limits.functions {
                return Err(Failed::NoFunction { number });
            }
            match functions.get(n) {
                Some(body) => Ok(body),
                None => Err(Failed::Undefined { number }),
            }
        }
        Err(_) => Err(Failed::NoFunction { number }),
    }
}

/// Whether the body is that of a call that hasn't returned.
fn is_running(calls: &[OpenCall], body: u32) -> bool {
    for call in calls {
        if call.body == body {
            return true;
        }
    }
    false
}

/// Puts a call at the end.
fn push_call(calls: &mut Vec<OpenCall>, call: OpenCall) -> Result<(), AllocError>
    ensures { OnOk result (calls.new.items ≡ calls.old.items ++ call ∷ []) }
{
    calls.push(call)?;
    Ok(())
}

/// Opens a call of a body, with as many turns left after the first. The last argument is what is
/// told where the body is running already.
fn enter(state: &mut State, call: OpenCall, running: Failed) -> Result<(), StepFault>
    ensures { OnOk result (Opens call state.old state.new) }
{
    if is_running(state.calls.as_slice(), call.body) {
        return Err(StepFault::from(running));
    }
    push_call(&mut state.calls, call)?;
    state.offset = body_offset(call.body);
    Ok(())
}

/// Carries out CALL.
fn call(setting: &Setting<'_>, state: &mut State) -> Result<(), StepFault>
    ensures { OnOk result (Leads setting.now control.Call state.old state.new) }
{
    let top = pop(state, 0)?;
    let function = number_of(top, state.ranges.as_slice(), Role::Function, 0)?;
    let body = called(setting, &state.functions, function)?;
    let open = OpenCall {
        body,
        call: state.offset,
        left: known(0),
    };
    enter(state, open, Failed::Running { number: function })
}

/// Calls a body as many times as a count says. The last argument is what is told where the body is
/// running already.
fn repeat(
    point: &Point<'_>,
    state: &mut State,
    body: u32,
    count: Cell,
    running: Failed,
) -> Result<(), StepFault>
    requires { point.now.offset ≡ state.old.offset }
    ensures { OnOk result (Repeats body count state.old state.new) }
{
    let Some((low, high)) = bounds(count, state.ranges.as_slice()) else {
        return Err(StepFault::from(unknown(Role::Turns, 1)));
    };
    if high <= 0 {
        let next = next_offset(point)?;
        go_to(state, next);
        return Ok(());
    }
    if low <= 0 {
        return Err(StepFault::from(unknown(Role::Turns, 1)));
    }
    let Some(left) = difference(count, known(1)) else {
        return Err(StepFault::from(UNDECIDED));
    };
    let open = OpenCall {
        body,
        call: state.offset,
        left,
    };
    enter(state, open, running)
}

/// Carries out LOOPCALL.
fn loop_call(setting: &Setting<'_>, point: &Point<'_>, state: &mut State) -> Result<(), StepFault>
    requires { IsAt point.now state.old }
    ensures { OnOk result (Leads setting.now control.LoopCall state.old state.new) }
{
    let top = pop(state, 0)?;
    let function = number_of(top, state.ranges.as_slice(), Role::Function, 0)?;
    let body = called(setting, &state.functions, function)?;
    let count = pop(state, 1)?;
    let running = Failed::Running { number: function };
    repeat(point, state, body, count, running)
}

/// Closes the innermost call, and returns it.
fn close(state: &mut State) -> Result<OpenCall, Failed>
    ensures { IfOk result (Closes state.old state.new) }
{
    match state.calls.pop() {
        Some(call) => Ok(call),
        None => Err(NO_END),
    }
}

/// Carries out ENDF.
fn end_function(setting: &Setting<'_>, state: &mut State) -> Result<(), StepFault>
    ensures { OnOk result (Leads setting.now control.EndFunction state.old state.new) }
{
    let call = close(state)?;
    let Some((low, high)) = bounds(call.left, state.ranges.as_slice()) else {
        return Err(StepFault::from(UNDECIDED));
    };
    if high <= 0 {
        let Some(next) = call.call.checked_add(1) else {
            return Err(StepFault::from(NO_END));
        };
        go_to(state, next);
        return Ok(());
    }
    if low <= 0 {
        return Err(StepFault::from(UNDECIDED));
    }
    let Some(left) = difference(call.left, known(1)) else {
        return Err(StepFault::from(UNDECIDED));
    };
    let open = OpenCall {
        body: call.body,
        call: call.call,
        left,
    };
    enter(state, open, Failed::Only(Reason::Recursion))
}

/// Carries out a control instruction at the state's point.
///
/// # Errors
/// `Refused` where it may fault, or isn't known well enough; `OutOfMemory`.
pub fn execute_control(
    setting: &Setting<'_>,
    point: &Point<'_>,
    state: &mut State,
    operation: Control,
) -> Result<(), StepFault>
    requires { IsAt point.now state.old }
    ensures { OnOk result (Leads setting.now operation state.old state.new) }
{
    match operation {
        Control::If => branch(setting, point, state),
        Control::Else => skip_else(setting, point, state),
        Control::Jump => jump(setting, point, state),
        Control::JumpIfTrue => jump_if(setting, point, state, true),
        Control::JumpIfFalse => jump_if(setting, point, state, false),
        Control::FunctionDefinition => define(setting, point, state),
        Control::Call => call(setting, state),
        Control::LoopCall => loop_call(setting, point, state),
        Control::EndFunction => end_function(setting, state),
        Control::InstructionDefinition => { Err(StepFault::from(Reason::InstructionDefinition)) }
    }
}
