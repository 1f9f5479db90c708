//! What an instruction makes of an abstract state.

ghost use Rattle.std.specs.Prelude.{◌≡◌, ◌+◌, ◌<◌, ◌^◌, IfErr, IfOk, Some, length};
ghost use Rattle.tt_abs.specs.Moves.{IsStepRefusedFor, StepsTo, TellsWhatFails};
ghost use Rattle.tt_setting.specs.Settings.{StartsAt, point_instruction};
ghost use Rattle.tt_abs.specs.Lines.{EndsAt};
ghost use Rattle.tt_setting.specs.Settings.{frames_of, setting_of};
ghost use Rattle.tt_abs.specs.States.{state_order};
ghost use Rattle.tt_abs.specs.Representation.Steps.{DoesTo, IsDoingRefusedFor, TellsOfBytes};

use crate::compute::compute;
use crate::control::execute_control;
use crate::moves::{Move, Moves};
use crate::plain::execute_plain;
use crate::push::push_data;
use crate::shuffle::shuffle;
use crate::state::State;
use tt_code::kinds::Effect;
use tt_code::{Instr, Reason, entry};
use tt_setting::setting::{body_of, is_same_body};
use tt_setting::{Failed, Point, Setting, StepFault};

/// What is told where no instruction of the body starts.
const NO_INSTRUCTION: Failed = Failed::Only(Reason::Target);

/// Carries out an instruction by the kind of its effect, and returns where the program goes on. The
/// depth afterwards is tested by `execute`.
fn dispatch(
    setting: &Setting<'_>,
    point: &Point<'_>,
    state: &mut State,
    instr: &Instr<'_>,
) -> Result<Moves, StepFault>
    requires { point.now.offset + length instr.now < 2 ^ 31 }
    ensures ok { IfOk result (DoesTo setting.now point.now instr.now state.old state.new) }
    ensures refused { IfErr result (IsDoingRefusedFor setting.now point.now instr.now state.old) }
    ensures told { IfErr result
        (TellsOfBytes setting.now point.now instr.now state.old (length state.new.stack)) }
{
    match entry(instr.code()) {
        Effect::NoEntry => return Err(StepFault::Refused(Failed::Only(Reason::Opcode))),
        Effect::Plain(line) => execute_plain(setting, state, line)?,
        Effect::Push(push) => push_data(&mut state.stack, *push, instr.data())?,
        Effect::Stack(operation) => shuffle(&mut state.stack, *operation)?,
        Effect::Arithmetic(operation) => compute(&mut state.stack, *operation)?,
        Effect::Control(operation) => return execute_control(setting, point, state, *operation),
    }
    Ok(Moves::One(Move::To(point.offset + instr.len())))
}

/// Carries out the instruction that starts at a point, in the point's body, and returns where the
/// program goes on.
fn execute(
    setting: &Setting<'_>,
    point: &Point<'_>,
    state: &mut State,
    instr: &Instr<'_>,
) -> Result<Moves, StepFault>
    requires short { point.now.offset + length instr.now < 2 ^ 31 }
    requires found { point_instruction setting.now point.now ≡ Some instr.now }
    ensures ok { IfOk result (StepsTo setting.now point.now state.old state.new) }
    ensures refused { IfErr result (IsStepRefusedFor setting.now point.now state.old) }
    ensures told { IfErr result
        (TellsWhatFails setting.now point.now state.old (length state.new.stack)) }
    ensures in_range { state_order.InRange state.old
        → IfOk result (λ _. state_order.InRange state.new) }
{
    setting.range_facts();
    prove!(u32::from(instr.code()) < 256);
    let moves = dispatch(setting, point, state, instr)?;
    if state.stack.len() > usize::from(setting.limits.stack) {
        let depth = state.stack.len() as u32;
        return Err(StepFault::Refused(Failed::TooDeep { depth }));
    }
    state.order_facts();
    Ok(moves)
}

/// Carries out the instruction at a point on a state that the caller owns, and returns where the
/// program goes on. After a refusal the state's content is unspecified, except that a stack which
/// would be too deep is as deep as is told.
///
/// # Errors
/// `Refused` with the first test of the instruction that fails; `OutOfMemory`.
pub fn step(setting: &Setting<'_>, point: &Point<'_>, state: &mut State) -> Result<Moves, StepFault>
    requires { StartsAt setting.now point.now }
    ensures ok { IfOk result (StepsTo setting.now point.now state.old state.new) }
    ensures refused { IfErr result (IsStepRefusedFor setting.now point.now state.old) }
    ensures told { IfErr result
        (TellsWhatFails setting.now point.now state.old (length state.new.stack)) }
    ensures in_range { state_order.InRange state.old
        → IfOk result (λ _. state_order.InRange state.new) }
{
    let program = setting.program(point);
    let Some(instr) = program.at(point.offset) else {
        return Err(StepFault::Refused(NO_INSTRUCTION));
    };
    prove!(point.offset < program.len());
    execute(setting, point, state, &instr)
}

/// Where a program goes on from an instruction, and where the instruction ends.
#[derive(Clone, Copy)]
pub struct Stepped {
    /// Where the program goes on.
    pub moves: Moves,
    /// The offset just after the instruction.
    pub end: u32,
}

/// Carries out the instruction at a point, as `step` does, if an instruction of the point's body
/// starts there. After a refusal the state's content is unspecified.
///
/// # Errors
/// `Refused` for `Target` where none starts there, and otherwise as `step` refuses; `OutOfMemory`.
pub fn step_at(
    setting: &Setting<'_>,
    point: &Point<'_>,
    state: &mut State,
) -> Result<Stepped, StepFault>
    ensures ok { IfOk result
        (λ step. StepsTo setting.now point.now state.old state.new step.moves) }
    ensures end { IfOk result
        (λ step. EndsAt (setting_of setting.now) (frames_of point.now, point.now.offset) step.end) }
    ensures refused { IfErr result (IsStepRefusedFor setting.now point.now state.old) }
    ensures told { IfErr result
        (TellsWhatFails setting.now point.now state.old (length state.new.stack)) }
    ensures in_range { state_order.InRange state.old
        → IfOk result (λ _. state_order.InRange state.new) }
{
    let program = setting.program(point);
    let Some((instr, body)) = program.found_at(point.offset) else {
        return Err(StepFault::Refused(NO_INSTRUCTION));
    };
    if !is_same_body(body_of(point), body) {
        return Err(StepFault::Refused(NO_INSTRUCTION));
    }
    prove!(point.offset < program.len());
    prove!(instr.len() > 0);
    let moves = execute(setting, point, state, &instr)?;
    let end = point.offset + instr.len();
    Ok(Stepped { moves, end })
}
