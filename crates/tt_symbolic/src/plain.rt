//! What plain lines change and push, once their operands are taken and tested.

ghost use Rattle.std.specs.Prelude.{IfOk, OnOk, [], ◌∷◌};
ghost use Rattle.tt_code.specs.declared.kinds.Pushed.TheVariants as pushed_kind;
ghost use Rattle.tt_symbolic.specs.Representation.Plain.{Cuts, Finishes, IsAny, IsControlAt, IsStoredAt, ListsControl, ListsStored};
ghost use Rattle.tt_symbolic.specs.Sound.{Puts};

use crate::changes::{index_of, taken, update_all};
use crate::push::put;
use tt_code::kinds::{Pushed, Update};
use tt_setting::StepFault;
use tt_symbolic_cells::UNDECIDED;
use tt_symbolic_state::cell::{Cell, FULL};
use tt_symbolic_state::state::{State, fresh};

/// Puts any number on top.
pub fn put_any(state: &mut State) -> Result<(), StepFault>
    ensures { OnOk result (Puts IsAny state.old state.new) }
{
    let cell = fresh(state, FULL)?;
    put(state, cell)
}

/// Lists a storage cell of which nothing was known, and returns its number.
fn list_stored(state: &mut State, index: u16) -> Result<Cell, StepFault>
    ensures { IfOk result (ListsStored index state.old state.new) }
{
    let cell = fresh(state, FULL)?;
    state.storage.put(index, cell)?;
    Ok(cell)
}

/// Lists a control value of which nothing was known, and returns it.
fn list_control(state: &mut State, index: u16) -> Result<Cell, StepFault>
    ensures { IfOk result (ListsControl index state.old state.new) }
{
    let cell = fresh(state, FULL)?;
    state.controls.put(index, cell)?;
    Ok(cell)
}

/// Puts the number in a storage cell on top.
fn put_stored(state: &mut State, index: u16) -> Result<(), StepFault>
    ensures { OnOk result (Puts (IsStoredAt index) state.old state.new) }
{
    match state.storage.get(index) {
        Some(cell) => put(state, cell),
        None => {
            let cell = list_stored(state, index)?;
            put(state, cell)
        }
    }
}

/// Puts a control value on top.
pub fn put_control(state: &mut State, index: u16) -> Result<(), StepFault>
    ensures { OnOk result (Puts (IsControlAt index) state.old state.new) }
{
    match state.controls.get(index) {
        Some(cell) => put(state, cell),
        None => {
            let cell = list_control(state, index)?;
            put(state, cell)
        }
    }
}

/// Removes the operands.
pub fn cut(state: &mut State, count: usize)
    ensures { Cuts count state.old state.new }
{
    state.stack.cut(count);
}

/// Makes the changes, and removes the operands.
fn finish_changes(state: &mut State, count: usize, changes: &[Update]) -> Result<(), StepFault>
    ensures { OnOk result (Finishes count changes.now [] state.old state.new) }
{
    update_all(state, count, changes)?;
    cut(state, count);
    Ok(())
}

/// Removes the operands, and puts any number on top.
fn finish_any(state: &mut State, count: usize) -> Result<(), StepFault>
    ensures { OnOk result (Finishes count [] (pushed_kind.Any ∷ []) state.old state.new) }
{
    cut(state, count);
    put_any(state)?;
    Ok(())
}

/// Removes the operands, and puts any two numbers on top.
fn finish_two(state: &mut State, count: usize) -> Result<(), StepFault>
    ensures { OnOk result (Finishes count [] (pushed_kind.Any ∷ pushed_kind.Any ∷ [])
        state.old state.new) }
{
    cut(state, count);
    put_any(state)?;
    put_any(state)?;
    Ok(())
}

/// Removes the operands, and puts a stored number on top.
fn finish_stored(state: &mut State, count: usize, position: u8) -> Result<(), StepFault>
    ensures { OnOk result (Finishes count [] (pushed_kind.Stored position ∷ [])
        state.old state.new) }
{
    let cell = taken(&state.stack, count, position)?;
    match index_of(cell, state.ranges.as_slice()) {
        Ok(index) => {
            cut(state, count);
            put_stored(state, index)?;
            Ok(())
        }
        Err(_) => {
            cut(state, count);
            put_any(state)?;
            Ok(())
        }
    }
}

/// Removes the operands and pushes.
fn finish_pushes(state: &mut State, count: usize, pushes: &[Pushed]) -> Result<(), StepFault>
    ensures { OnOk result (Finishes count [] pushes.now state.old state.new) }
{
    match pushes {
        [Pushed::Any] => finish_any(state, count),
        [Pushed::Any, Pushed::Any] => finish_two(state, count),
        [Pushed::Stored(position)] => finish_stored(state, count, *position),
        _ => Err(StepFault::from(UNDECIDED)),
    }
}

/// Makes the changes or the pushes of a line whose operands, so many, are tested.
///
/// # Errors
/// `Refused` where not enough is known; `OutOfMemory`.
pub fn finish(
    state: &mut State,
    count: usize,
    changes: &[Update],
    pushes: &[Pushed],
) -> Result<(), StepFault>
    ensures { OnOk result (Finishes count changes.now pushes.now state.old state.new) }
{
    match pushes {
        [] => finish_changes(state, count, changes),
        _ => match changes {
            [] => finish_pushes(state, count, pushes),
            _ => Err(StepFault::from(UNDECIDED)),
        },
    }
}
