//! The instructions of which the machine with control values says more: RCVT, WCVTP, WCVTF, DELTAC,
//! MAX, MIN, MUL, DIV, FLOOR and CEILING.

ghost use Rattle.std.specs.Prelude.{◌≡◌, ◌∷◌, IfOk, OnOk, drop, pos};
ghost use Rattle.tt_setting.specs.Settings.{setting_of};
ghost use Rattle.tt_symbolic.specs.Representation.Areas.{ForgetsPair, ForgetsPairs};
ghost use Rattle.tt_symbolic.specs.Representation.Refined.{ChangeWorks, ExactWorks, ReadWorks, WriteWorks, exact_line, of_one_line, of_two_line};
ghost use Rattle.tt_symbolic_state.specs.Values.{Fits, Valuation, value};
ghost use Rattle.tt_symbolic_state.specs.declared.cell.Cell.{Cell as AnyCell};

use crate::areas::forget;
use crate::changes::{index_bounds, index_of};
use crate::compute::put_answer;
use crate::plain::{cut, put_any, put_control};
use crate::push::pop;
use tt_setting::{Failed, Role, Setting, StepFault};
use tt_symbolic_cells::{
    Exact, Named, UNDECIDED, answer_of_one, answer_of_two, cell_under, failed_index, is_index,
    unknown, unknown_index,
};
use tt_symbolic_state::cell::{is_in_machine, number};
use tt_symbolic_state::state::State;

/// Carries out RCVT.
///
/// # Errors
/// `Refused` where the index may be none of a control value; `OutOfMemory`.
pub fn read_control(setting: &Setting<'_>, state: &mut State) -> Result<(), StepFault>
    ensures { OnOk result (ReadWorks (setting_of setting.now) state.old state.new) }
{
    let cell = cell_under(&state.stack, 0)?;
    if !is_index(state.ranges.as_slice(), cell, setting.cvt) {
        return Err(StepFault::from(failed_index(
            state.ranges.as_slice(),
            cell,
            Named::ControlValue,
            0,
        )));
    }
    match index_of(cell, state.ranges.as_slice()) {
        Ok(index) => {
            cut(state, 1);
            put_control(state, index)
        }
        Err(_) => {
            cut(state, 1);
            put_any(state)
        }
    }
}

/// Carries out WCVTF: the control value may be any number then.
///
/// # Errors
/// `Refused` where the index may be none of a control value.
pub fn change_control(setting: &Setting<'_>, state: &mut State) -> Result<(), StepFault>
    ensures { OnOk result (ChangeWorks (setting_of setting.now) state.old state.new) }
{
    cell_under(&state.stack, 0)?;
    let place = cell_under(&state.stack, 1)?;
    if !is_index(state.ranges.as_slice(), place, setting.cvt) {
        return Err(StepFault::from(failed_index(
            state.ranges.as_slice(),
            place,
            Named::ControlValue,
            1,
        )));
    }
    let (low, high) = index_bounds(place, state.ranges.as_slice())?;
    cut(state, 2);
    forget(&mut state.controls, low, high);
    Ok(())
}

/// Forgets the control value that the index of a pair under the top may name.
fn forget_pair(state: &mut State, pair: u32) -> Result<(), StepFault>
    ensures { OnOk result (ForgetsPair pair state.old state.new) }
{
    let below = pair as usize;
    let under = below + below + 1;
    let place = cell_under(&state.stack, under)?;
    let Ok((low, high)) = index_bounds(place, state.ranges.as_slice()) else {
        return Err(StepFault::from(unknown_index(
            state.ranges.as_slice(),
            place,
            Named::ControlValue,
            under,
        )));
    };
    forget(&mut state.controls, low, high);
    Ok(())
}

/// Forgets the control values that the indexes of the first pairs under the top may name.
pub(crate) fn forget_pairs(state: &mut State, count: u32) -> Result<(), StepFault>
    ensures { OnOk result (ForgetsPairs count state.old state.new) }
{
    for pair in 0..count {
        forget_pair(state, pair)?;
    }
    Ok(())
}

/// Returns how many pairs are under the top.
pub(crate) fn pair_count(state: &State) -> Result<u32, Failed>
    ensures { IfOk result (λ n. (c : AnyCell)
        × (drop 0 state.now.stack ≡ c ∷ drop 1 state.now.stack)
        × ((v : Valuation) → Fits state.now.ranges.items v → value v c ≡ pos n)) }
{
    let top = cell_under(&state.stack, 0)?;
    match number(top, state.ranges.as_slice()) {
        Some(count) => match u32::try_from(count) {
            Ok(pairs) => Ok(pairs),
            Err(_) => Err(Failed::NegativeCount { count }),
        },
        None => Err(unknown(Role::Count, 0)),
    }
}

/// Carries out WCVTP.
///
/// # Errors
/// `Refused` where the index may be none of a control value; `OutOfMemory`.
pub fn write_control(setting: &Setting<'_>, state: &mut State) -> Result<(), StepFault>
    ensures { OnOk result (WriteWorks (setting_of setting.now) state.old state.new) }
{
    let cell = cell_under(&state.stack, 0)?;
    if !is_in_machine(cell, state.ranges.as_slice()) {
        return Err(StepFault::from(UNDECIDED));
    }
    let place = cell_under(&state.stack, 1)?;
    if !is_index(state.ranges.as_slice(), place, setting.cvt) {
        return Err(StepFault::from(failed_index(
            state.ranges.as_slice(),
            place,
            Named::ControlValue,
            1,
        )));
    }
    if let Ok(index) = index_of(place, state.ranges.as_slice()) {
        cut(state, 2);
        state.controls.put(index, cell)?;
        return Ok(());
    }
    let (low, high) = index_bounds(place, state.ranges.as_slice())?;
    cut(state, 2);
    forget(&mut state.controls, low, high);
    Ok(())
}

/// Carries out MAX, MIN, MUL or DIV.
///
/// # Errors
/// `Refused` where there are fewer than two elements; `OutOfMemory`.
pub fn compute_exact_of_two(
    setting: &Setting<'_>,
    state: &mut State,
    operation: Exact,
) -> Result<(), StepFault>
    requires { exact_line operation ≡ of_two_line }
    ensures { OnOk result (ExactWorks operation (setting_of setting.now) state.old state.new) }
{
    let top = pop(state, 0)?;
    let second = pop(state, 1)?;
    let answer = answer_of_two(operation, second, top, state.ranges.as_slice());
    put_answer(state, answer)
}

/// Carries out FLOOR or CEILING.
///
/// # Errors
/// `Refused` where there is no element; `OutOfMemory`.
pub fn compute_exact_of_one(
    setting: &Setting<'_>,
    state: &mut State,
    operation: Exact,
) -> Result<(), StepFault>
    requires { exact_line operation ≡ of_one_line }
    ensures { OnOk result (ExactWorks operation (setting_of setting.now) state.old state.new) }
{
    let top = pop(state, 0)?;
    let answer = answer_of_one(operation, top, state.ranges.as_slice());
    put_answer(state, answer)
}
