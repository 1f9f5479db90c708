//! What an instruction makes of a symbolic state.

ghost use Rattle.std.specs.Prelude.{◌≡◌, OnOk, reverse};
ghost use Rattle.std.specs.Option.{option_to_list};
ghost use Rattle.tt_code.specs.Table.{Plain, effect_of};
ghost use Rattle.tt_setting.specs.Settings.{setting_of};
ghost use Rattle.tt_symbolic.specs.Representation.Leading.{IsAt, SameBody};
ghost use Rattle.tt_symbolic.specs.Representation.Plain.{line_of};
ghost use Rattle.tt_symbolic.specs.Representation.Refined.{LineWorks};
ghost use Rattle.tt_symbolic.specs.Steps.{Dispatches};

use crate::compute::compute;
use crate::control::execute_control;
use crate::plain::finish;
use crate::refined::{
    change_control, compute_exact_of_one, compute_exact_of_two, forget_pairs, pair_count,
    read_control, write_control,
};
use tt_code::kinds::Row;
use tt_code::{Effect, Frame, Instr, Reason, Refinement, entry, refinement};
use tt_setting::{Point, Setting, StepFault};
use tt_symbolic_cells::{Exact, push_data, shuffle, take_operands, test_uses};
use tt_symbolic_state::state::State;

/// Carries out the plain line of this code. Where the machine with control values says more of the
/// instruction, a function of its kind does so; DELTAC first forgets the control values that it
/// names.
fn execute_line(
    setting: &Setting<'_>,
    state: &mut State,
    code: u8,
    line: &Row,
) -> Result<(), StepFault>
    requires { effect_of code ≡ Plain (line_of line.now) }
    ensures { OnOk result
        (LineWorks (setting_of setting.now) code line.now state.old state.new) }
{
    match refinement(code) {
        Refinement::Ordinary => {}
        Refinement::ChangesControls => {
            let count = pair_count(state)?;
            forget_pairs(state, count)?;
        }
        Refinement::ReadsControl => return read_control(setting, state),
        Refinement::WritesControl => return write_control(setting, state),
        Refinement::ChangesControl => return change_control(setting, state),
        Refinement::Greatest => return compute_exact_of_two(setting, state, Exact::Greatest),
        Refinement::Least => return compute_exact_of_two(setting, state, Exact::Least),
        Refinement::Product => return compute_exact_of_two(setting, state, Exact::Product),
        Refinement::Quotient => return compute_exact_of_two(setting, state, Exact::Quotient),
        Refinement::Floor => return compute_exact_of_one(setting, state, Exact::Floor),
        Refinement::Ceiling => return compute_exact_of_one(setting, state, Exact::Ceiling),
    }
    let graphics = &state.graphics;
    let ranges = state.ranges.as_slice();
    let count = take_operands(setting, graphics, ranges, &state.stack, line.operands)?;
    test_uses(setting, graphics, ranges, line.uses)?;
    finish(state, count, line.updates, line.pushes)
}

/// Carries out the instruction at the state's point. One that doesn't lead elsewhere goes on at the
/// next one. Its caller tests the stack's depth.
pub(crate) fn execute(
    setting: &Setting<'_>,
    point: &Point<'_>,
    state: &mut State,
    instr: &Instr<'_>,
) -> Result<(), StepFault>
    requires { IsAt point.now state.old }
    ensures { OnOk result (Dispatches setting.now instr.now state.old state.new) }
{
    let code = instr.code();
    let effect = entry(code);
    if let Effect::Control(operation) = effect {
        return execute_control(setting, point, state, *operation);
    }
    let Some(next) = state.offset.checked_add(instr.len()) else {
        return Err(StepFault::from(Reason::Target));
    };
    state.offset = next;
    match effect {
        Effect::Plain(line) => execute_line(setting, state, code, line),
        Effect::Push(push) => {
            push_data(&mut state.stack, *push, instr.data())?;
            Ok(())
        }
        Effect::Stack(operation) => {
            shuffle(&mut state.stack, state.ranges.as_slice(), *operation)
        }
        Effect::Arithmetic(operation) => compute(state, *operation),
        Effect::Control(_) | Effect::NoEntry => Err(StepFault::from(Reason::Opcode)),
    }
}

/// Returns the innermost call that hasn't returned, as a frame in its only turn, if there is one.
pub(crate) fn innermost(state: &State) -> Option<Frame>
    ensures { SameBody (option_to_list result) (reverse state.now.calls.items) }
{
    match state.calls.as_slice() {
        [] => None,
        [.., call] => Some(Frame {
            body: call.body,
            call: call.call,
            turn: 1,
            count: 1,
        }),
    }
}

/// Returns the code of the instruction where the state is, if one starts there.
pub fn code_at(setting: &Setting<'_>, state: &State) -> Option<u8> {
    let frame = innermost(state);
    let point = Point {
        frames: frame.as_slice(),
        offset: state.offset,
    };
    let instr = setting.program(&point).at(point.offset)?;
    Some(instr.code())
}
