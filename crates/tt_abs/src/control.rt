//! The instructions that lead elsewhere than to the next instruction, or define a function.

ghost use Rattle.std.specs.Prelude.{◌≡◌, ◌+◌, ◌<◌, ◌≤◌, ◌^◌, Err, IfErr, IfOk, Ok, OnOk, Some, length, reverse, ℕ};
ghost use Rattle.tt_code.specs.Changes.{natural};
ghost use Rattle.tt_code.specs.Control.{body_named};
ghost use Rattle.tt_code.specs.declared.kinds.Control.TheVariants as control;
ghost use Rattle.tt_code.specs.declared.reason.Reason.TheVariants as reason;
ghost use Rattle.tt_abs.specs.declared.cells.Cell.TheVariants.{Known};
ghost use Rattle.tt_setting.specs.declared.failed.Failed.TheVariants.{Only, TooDeep};
ghost use Rattle.tt_setting.specs.declared.failed.Role.TheVariants as roles;
ghost use Rattle.tt_abs.specs.Failures.{IsRoleOfControl};
ghost use Rattle.tt_setting.specs.Refusals.{reason_of};
ghost use Rattle.tt_abs.specs.Moves.{ControlsTo, IsControlRefusedFor, IsRefusedFor, LeadsBy, TellsOf};
ghost use Rattle.tt_abs.specs.Representation.Steps.{JumpsNowhere, JumpsTo, Leads, LeadsNowhere, TellsOfCall, TellsOfEntry, TellsOfJump, called_at, enter_at, if_at, jump_at, jump_if_at, loop_at};
ghost use Rattle.tt_abs.specs.Representation.Taken.{IsRole};
ghost use Rattle.tt_abs.specs.Transfers.{is_running as runs_already};

use crate::arithmetic::is_true;
use crate::cells::Cell;
use crate::moves::{Move, Moves};
use crate::operands::number;
use crate::shuffle::cell_under;
use crate::state::State;
use tt_code::kinds::Control;
use tt_code::{Frame, Reason};
use tt_setting::setting::is_index;
use tt_setting::{Failed, Point, Role, Setting, StepFault};

/// Returns the offset just after an instruction of one byte.
fn next_offset(point: &Point<'_>) -> u32
    requires { point.now.offset < 2 ^ 31 }
    ensures { result ≡ point.now.offset + 1 }
{
    point.offset + 1
}

/// What is told where an instruction has no end to which it could lead.
const NO_END: Failed = Failed::Only(Reason::Target);

/// Returns the ways of an IF, by the cell of its condition.
fn ways_of_if(setting: &Setting<'_>, point: &Point<'_>, cell: Cell) -> Result<Moves, Failed>
    requires { point.now.offset < 2 ^ 31 }
    ensures ok { IfOk result
        (λ m. (depth : ℕ) → Leads (if_at setting.now point.now cell) point.now depth m) }
    ensures refused { IfErr result
        (λ f. (depth : ℕ) → LeadsNowhere (if_at setting.now point.now cell) depth f) }
    ensures told { IfErr result (λ f. f ≡ Only reason.Target) }
{
    let after = setting.program(point).after_if(point.offset);
    match cell {
        Cell::Known(condition) => {
            if is_true(condition) {
                return Ok(Moves::One(Move::To(next_offset(point))));
            }
            match after {
                Some(offset) => Ok(Moves::One(Move::To(offset))),
                None => Err(NO_END),
            }
        }
        Cell::Unknown => match after {
            Some(offset) => Ok(Moves::two(next_offset(point), offset)),
            None => Err(NO_END),
        },
    }
}

/// Carries out IF.
fn branch(setting: &Setting<'_>, point: &Point<'_>, state: &mut State) -> Result<Moves, StepFault>
    requires { point.now.offset < 2 ^ 31 }
    ensures ok { IfOk result (ControlsTo setting.now point.now control.If state.old state.new) }
    ensures refused { IfErr result
        (IsControlRefusedFor setting.now point.now control.If state.old) }
    ensures told { IfErr result
        (TellsOf (IsRoleOfControl control.If) setting.now point.now state.old
        (length state.new.stack)) }
{
    let condition = cell_under(&state.stack, 0)?;
    let moves = ways_of_if(setting, point, condition)?;
    state.stack.cut(1);
    Ok(moves)
}

/// Carries out ELSE, where it is reached.
fn skip_else(
    setting: &Setting<'_>,
    point: &Point<'_>,
    state: &mut State,
) -> Result<Moves, StepFault>
    ensures ok { IfOk result (ControlsTo setting.now point.now control.Else state.old state.new) }
    ensures refused { IfErr result
        (IsControlRefusedFor setting.now point.now control.Else state.old) }
    ensures told { IfErr result
        (TellsOf (IsRoleOfControl control.Else) setting.now point.now state.old
        (length state.new.stack)) }
{
    match setting.program(point).after_else(point.offset) {
        Some(offset) => Ok(Moves::One(Move::To(offset))),
        None => Err(StepFault::Refused(NO_END)),
    }
}

/// How far a jump leads: the cell that tells it, and under how many others it was.
#[derive(Clone, Copy)]
struct Distance {
    cell: Cell,
    under: u32,
}

/// Tests that a stack isn't too deep.
fn test_depth(setting: &Setting<'_>, depth: usize) -> Result<(), Failed>
    requires { depth < 2 ^ 31 }
    ensures ok { OnOk result (depth ≤ setting.now.limits.stack) }
    ensures deep { IfErr result (λ f. setting.now.limits.stack < depth) }
    ensures told { IfErr result (λ f. f ≡ TooDeep depth) }
{
    if depth > usize::from(setting.limits.stack) {
        let depth = depth as u32;
        return Err(Failed::TooDeep { depth });
    }
    Ok(())
}

/// Returns the offset to which a jump leads, by its distance, where the stack has `depth` cells.
fn jump_target(
    setting: &Setting<'_>,
    point: &Point<'_>,
    distance: Distance,
    depth: usize,
) -> Result<u32, Failed>
    requires start { point.now.offset < 2 ^ 31 }
    requires few { depth < 2 ^ 31 }
    ensures ok { IfOk result (JumpsTo setting.now point.now distance.cell depth) }
    ensures refused { IfErr result (JumpsNowhere setting.now point.now distance.cell depth) }
    ensures told { IfErr result (TellsOfJump setting.now point.now distance depth) }
{
    test_depth(setting, depth)?;
    match distance.cell {
        Cell::Known(by) => {
            let target = i64::from(point.offset) + i64::from(by);
            if setting.is_target(point, target) {
                Ok(target as u32)
            } else {
                Err(Failed::NoTarget { by })
            }
        }
        Cell::Unknown => Err(Failed::Unknown {
            role: Role::Distance,
            under: distance.under,
        }),
    }
}

/// Carries out JMPR.
fn jump(setting: &Setting<'_>, point: &Point<'_>, state: &mut State) -> Result<Moves, StepFault>
    requires { point.now.offset < 2 ^ 31 }
    ensures ok { IfOk result (ControlsTo setting.now point.now control.Jump state.old state.new) }
    ensures refused { IfErr result
        (IsControlRefusedFor setting.now point.now control.Jump state.old) }
    ensures told { IfErr result
        (TellsOf (IsRoleOfControl control.Jump) setting.now point.now state.old
        (length state.new.stack)) }
{
    let cell = cell_under(&state.stack, 0)?;
    state.stack.cut(1);
    let distance = Distance { cell, under: 0 };
    let target = jump_target(setting, point, distance, state.stack.len())?;
    Ok(Moves::One(Move::To(target)))
}

/// Returns the ways of JROT and JROF by the condition's cell, where the stack has `depth` cells.
/// They jump where the condition is as asked.
fn ways_of_jump(
    setting: &Setting<'_>,
    point: &Point<'_>,
    asked: bool,
    condition: Cell,
    distance: Distance,
    depth: usize,
) -> Result<Moves, Failed>
    requires start { point.now.offset < 2 ^ 31 }
    requires few { depth < 2 ^ 31 }
    ensures ok { IfOk result
        (Leads (jump_at setting.now point.now asked condition distance.cell) point.now depth) }
    ensures refused { IfErr result
        (LeadsNowhere (jump_at setting.now point.now asked condition distance.cell) depth) }
    ensures told { IfErr result (TellsOfJump setting.now point.now distance depth) }
{
    match condition {
        Cell::Known(number) => {
            if is_true(number) == asked {
                let target = jump_target(setting, point, distance, depth)?;
                Ok(Moves::One(Move::To(target)))
            } else {
                Ok(Moves::One(Move::To(next_offset(point))))
            }
        }
        Cell::Unknown => {
            let target = jump_target(setting, point, distance, depth)?;
            Ok(Moves::two(next_offset(point), target))
        }
    }
}

/// Carries out JROT and JROF, which jump where the condition is as asked.
fn jump_if(
    setting: &Setting<'_>,
    point: &Point<'_>,
    state: &mut State,
    asked: bool,
) -> Result<Moves, StepFault>
    requires { point.now.offset < 2 ^ 31 }
    ensures ok { IfOk result
        (λ m. LeadsBy point.now (jump_if_at setting.now point.now asked state.old) m state.new) }
    ensures refused { IfErr result
        (IsRefusedFor (jump_if_at setting.now point.now asked state.old)) }
    ensures told { IfErr result
        (TellsOf (IsRole roles.Distance 1) setting.now point.now state.old
        (length state.new.stack)) }
{
    let condition = cell_under(&state.stack, 0)?;
    let cell = cell_under(&state.stack, 1)?;
    state.stack.cut(2);
    let distance = Distance { cell, under: 1 };
    let moves = ways_of_jump(
        setting,
        point,
        asked,
        condition,
        distance,
        state.stack.len(),
    )?;
    Ok(moves)
}

/// Carries out FDEF, to which only the font program and the CVT program may come: it defines the
/// function whose number it pops, with the body just after it.
fn define(setting: &Setting<'_>, point: &Point<'_>, state: &mut State) -> Result<Moves, StepFault>
    requires { point.now.offset + 1 < 2 ^ 31 }
    ensures ok { IfOk result
        (ControlsTo setting.now point.now control.FunctionDefinition state.old state.new) }
    ensures refused { IfErr result
        (IsControlRefusedFor setting.now point.now control.FunctionDefinition state.old) }
    ensures told { IfErr result
        (TellsOf (IsRoleOfControl control.FunctionDefinition) setting.now point.now state.old
        (length state.new.stack)) }
{
    if !setting.may_define() {
        return Err(StepFault::Refused(Failed::Only(Reason::Definition)));
    }
    let top = cell_under(&state.stack, 0)?;
    let function = number(top, Role::Function, 0)?;
    if !is_index(function, u32::from(setting.limits.functions)) {
        let failed = Failed::NoFunction { number: function };
        return Err(StepFault::Refused(failed));
    }
    let Some(after) = setting.program(point).after_fdef(point.offset) else {
        return Err(StepFault::Refused(NO_END));
    };
    state.stack.cut(1);
    state.define(function as u16, setting.body_name(next_offset(point)))?;
    Ok(Moves::One(Move::To(after)))
}

/// A function that is called.
#[derive(Clone, Copy)]
struct Callee {
    number: i32,
    body: u32,
}

/// Returns the function whose number a cell on top of the stack holds, if that number is below
/// maxFunctionDefs and the function is known.
fn called(setting: &Setting<'_>, state: &State, cell: Cell) -> Result<Callee, Failed>
    ensures ok { IfOk result (λ c. called_at setting.now state.now cell ≡ Ok c.body) }
    ensures number { IfOk result (λ c. cell ≡ Known c.number) }
    ensures named { IfOk result (λ c.
        body_named state.now.functions (natural c.number) ≡ Some c.body) }
    ensures refused { IfErr result (λ f.
        called_at setting.now state.now cell ≡ Err (reason_of f)) }
    ensures told { IfErr result (TellsOfCall setting.now state.now cell) }
{
    let function = number(cell, Role::Function, 0)?;
    if !is_index(function, u32::from(setting.limits.functions)) {
        return Err(Failed::NoFunction { number: function });
    }
    match state.functions.get(function as u16) {
        Some(body) => Ok(Callee {
            number: function,
            body,
        }),
        None => Err(Failed::Undefined { number: function }),
    }
}

/// Whether the body is running already.
fn is_running(frames: &[Frame], body: u32) -> bool
    ensures { result ≡ runs_already body (reverse frames.now) }
{
    let mut rest = frames;
    while let [before @ .., frame] = rest {
        if frame.body == body {
            return true;
        }
        rest = before;
    }
    false
}

/// Returns the way into a function's body, for `turns` turns, where the stack has `depth` cells.
fn enter(
    setting: &Setting<'_>,
    point: &Point<'_>,
    callee: Callee,
    turns: u32,
    depth: usize,
) -> Result<Moves, Failed>
    requires { depth < 2 ^ 31 }
    ensures ok { IfOk result
        (Leads (enter_at setting.now point.now callee.body turns) point.now depth) }
    ensures refused { IfErr result
        (LeadsNowhere (enter_at setting.now point.now callee.body turns) depth) }
    ensures told { IfErr result (TellsOfEntry setting.now point.now callee depth) }
{
    test_depth(setting, depth)?;
    if is_running(point.frames, callee.body) {
        let number = callee.number;
        return Err(Failed::Running { number });
    }
    Ok(Moves::One(Move::Enter(Frame {
        body: callee.body,
        call: point.offset,
        turn: 1,
        count: turns,
    })))
}

/// Carries out CALL.
fn call(setting: &Setting<'_>, point: &Point<'_>, state: &mut State) -> Result<Moves, StepFault>
    ensures ok { IfOk result (ControlsTo setting.now point.now control.Call state.old state.new) }
    ensures refused { IfErr result
        (IsControlRefusedFor setting.now point.now control.Call state.old) }
    ensures told { IfErr result
        (TellsOf (IsRoleOfControl control.Call) setting.now point.now state.old
        (length state.new.stack)) }
{
    let top = cell_under(&state.stack, 0)?;
    let callee = called(setting, state, top)?;
    state.stack.cut(1);
    let moves = enter(setting, point, callee, 1, state.stack.len())?;
    Ok(moves)
}

/// Returns where a LOOPCALL of a function leads by its count, where the stack has `depth` cells; 0
/// or less calls nothing.
fn repeat(
    setting: &Setting<'_>,
    point: &Point<'_>,
    callee: Callee,
    count: i32,
    depth: usize,
) -> Result<Moves, Failed>
    requires start { point.now.offset < 2 ^ 31 }
    requires few { depth < 2 ^ 31 }
    ensures ok { IfOk result
        (Leads (loop_at setting.now point.now callee.body count) point.now depth) }
    ensures refused { IfErr result
        (LeadsNowhere (loop_at setting.now point.now callee.body count) depth) }
    ensures told { IfErr result (TellsOfEntry setting.now point.now callee depth) }
{
    if count > 0 {
        enter(setting, point, callee, count as u32, depth)
    } else {
        Ok(Moves::One(Move::To(next_offset(point))))
    }
}

/// Carries out LOOPCALL.
fn loop_call(
    setting: &Setting<'_>,
    point: &Point<'_>,
    state: &mut State,
) -> Result<Moves, StepFault>
    requires { point.now.offset < 2 ^ 31 }
    ensures ok { IfOk result
        (ControlsTo setting.now point.now control.LoopCall state.old state.new) }
    ensures refused { IfErr result
        (IsControlRefusedFor setting.now point.now control.LoopCall state.old) }
    ensures told { IfErr result
        (TellsOf (IsRoleOfControl control.LoopCall) setting.now point.now state.old
        (length state.new.stack)) }
{
    let top = cell_under(&state.stack, 0)?;
    let callee = called(setting, state, top)?;
    let second = cell_under(&state.stack, 1)?;
    let count = number(second, Role::Turns, 1)?;
    state.stack.cut(2);
    let moves = repeat(setting, point, callee, count, state.stack.len())?;
    Ok(moves)
}

/// Carries out ENDF: goes on to the next turn, or to just after the call.
fn end_function(setting: &Setting<'_>, point: &Point<'_>, state: &State) -> Result<Moves, StepFault>
    ensures ok { IfOk result
        (ControlsTo setting.now point.now control.EndFunction state.now state.now) }
    ensures refused { IfErr result
        (IsControlRefusedFor setting.now point.now control.EndFunction state.now) }
    ensures told { IfErr result
        (TellsOf (IsRoleOfControl control.EndFunction) setting.now point.now state.now
        (length state.now.stack)) }
{
    match point.frames {
        [] => Err(StepFault::Refused(NO_END)),
        [.., frame] => {
            if frame.turn < frame.count {
                Ok(Moves::One(Move::NextTurn))
            } else {
                Ok(Moves::One(Move::Return))
            }
        }
    }
}

/// Carries out a control instruction, and returns where the program goes on.
///
/// # Errors
/// `Refused` with the reason of the first test of the instruction that fails; `OutOfMemory`. Then
/// the state's content is unspecified.
pub fn execute_control(
    setting: &Setting<'_>,
    point: &Point<'_>,
    state: &mut State,
    operation: Control,
) -> Result<Moves, StepFault>
    requires { point.now.offset + 1 < 2 ^ 31 }
    ensures ok { IfOk result (ControlsTo setting.now point.now operation state.old state.new) }
    ensures refused { IfErr result (IsControlRefusedFor setting.now point.now operation state.old) }
    ensures told { IfErr result
        (TellsOf (IsRoleOfControl operation) setting.now point.now state.old
        (length state.new.stack)) }
{
    match operation {
        Control::If => branch(setting, point, state),
        Control::Else => skip_else(setting, point, state),
        Control::Jump => jump(setting, point, state),
        Control::JumpIfTrue => jump_if(setting, point, state, true),
        Control::JumpIfFalse => jump_if(setting, point, state, false),
        Control::Call => call(setting, point, state),
        Control::LoopCall => loop_call(setting, point, state),
        Control::FunctionDefinition => define(setting, point, state),
        Control::EndFunction => end_function(setting, point, state),
        Control::InstructionDefinition => {
            Err(StepFault::Refused(Failed::Only(Reason::InstructionDefinition)))
        }
    }
}
