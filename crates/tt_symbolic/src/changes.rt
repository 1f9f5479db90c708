//! What a plain line changes, with its operands still on the stack.

ghost use Rattle.std.specs.Prelude.{◌≡◌, ◌≤ℤ◌, IfOk, OnOk, pos, take};
ghost use Rattle.tt_code.specs.Changes.{taken_at, zone_of as zone_of_number};
ghost use Rattle.tt_code.specs.declared.kinds.Update.TheVariants as update_kind;
ghost use Rattle.tt_code.specs.declared.kinds.NewNumber.TheVariants as new_number;
ghost use Rattle.tt_symbolic_state.specs.Values.{Fits, Valuation, value};
ghost use Rattle.tt_symbolic_state.specs.Shows.{values, zone_number};
ghost use Rattle.tt_symbolic.specs.Representation.Changing.{Changes, ChangesAll, StoresAt, StoresBetween};

use crate::areas::forget;
use tt_code::kinds::{NewNumber, Pointer, Reference, Update};
use tt_setting::{Failed, StepFault};
use tt_symbolic_cells::{UNDECIDED, reference, set_pointer, set_reference, too_few};
use tt_symbolic_state::cell::{Cell, Range, bounds, is_in_machine, known, number};
use tt_symbolic_state::stack::Stack;
use tt_symbolic_state::state::{State, Zone};

/// Returns the element at a position among the `count` that are taken.
///
/// # Errors
/// `TooFew`, where there is none.
pub fn taken(stack: &Stack, count: usize, position: u8) -> Result<Cell, Failed>
    ensures { IfOk result (λ c. (v : Valuation)
        → taken_at (pos 1) (take count (values v stack.now)) position ≡ value v c) }
{
    let place = usize::from(position);
    if place >= count {
        return Err(too_few(stack, 0));
    }
    match stack.under(place) {
        Some(cell) => Ok(cell),
        None => Err(too_few(stack, 0)),
    }
}

/// Returns the zone that a cell names, once its number is tested to be 0 or 1.
fn zone_of(cell: Cell, ranges: &[Range]) -> Result<Zone, Failed>
    ensures { IfOk result (λ z. (v : Valuation) → Fits ranges.now v
        → zone_of_number (value v cell) ≡ zone_number z) }
{
    match number(cell, ranges) {
        Some(0) => Ok(Zone::Zero),
        Some(_) => Ok(Zone::One),
        None => Err(UNDECIDED),
    }
}

/// Returns the index that a cell is, where it is known.
///
/// # Errors
/// `UNDECIDED`, where it isn't.
pub fn index_of(cell: Cell, ranges: &[Range]) -> Result<u16, Failed>
    ensures { IfOk result (λ i. (v : Valuation) → Fits ranges.now v → value v cell ≡ pos i) }
{
    match number(cell, ranges) {
        Some(number) => match u16::try_from(number) {
            Ok(index) => Ok(index),
            Err(_) => Err(UNDECIDED),
        },
        None => Err(UNDECIDED),
    }
}

/// Returns bounds of an index.
///
/// # Errors
/// `UNDECIDED`, where it may be negative.
pub fn index_bounds(cell: Cell, ranges: &[Range]) -> Result<(i64, i64), Failed>
    ensures { IfOk result (λ b. (v : Valuation) → Fits ranges.now v
        → (pos 0 ≤ℤ value v cell) × (b.0 ≤ℤ value v cell) × (value v cell ≤ℤ b.1)) }
{
    match bounds(cell, ranges) {
        Some((low, high)) => {
            if low < 0 {
                return Err(UNDECIDED);
            }
            Ok((low, high))
        }
        None => Err(UNDECIDED),
    }
}

/// Sets a reference point to an element that was taken.
fn change_reference(
    state: &mut State,
    count: usize,
    which: Reference,
    position: u8,
) -> Result<(), StepFault>
    ensures { OnOk result (Changes count
        (update_kind.SetReference which (new_number.Taken position)) state.old state.new) }
{
    let cell = taken(&state.stack, count, position)?;
    set_reference(&mut state.graphics, which, cell);
    Ok(())
}

/// Sets a reference point to another one.
fn copy_reference(state: &mut State, count: usize, which: Reference, other: Reference)
    ensures { Changes count
        (update_kind.SetReference which (new_number.Same other)) state.old state.new }
{
    let cell = reference(&state.graphics, other);
    set_reference(&mut state.graphics, which, cell);
}

/// Sets a zone pointer.
fn change_pointer(
    state: &mut State,
    count: usize,
    which: Pointer,
    position: u8,
) -> Result<(), StepFault>
    ensures { OnOk result (Changes count
        (update_kind.SetPointer which position) state.old state.new) }
{
    let cell = taken(&state.stack, count, position)?;
    let zone = zone_of(cell, state.ranges.as_slice())?;
    set_pointer(&mut state.graphics, which, zone);
    Ok(())
}

/// Sets the loop number.
fn change_loop(state: &mut State, count: usize, position: u8) -> Result<(), StepFault>
    ensures { OnOk result (Changes count (update_kind.SetLoop position) state.old state.new) }
{
    let cell = taken(&state.stack, count, position)?;
    state.graphics.loop_number = cell;
    Ok(())
}

/// Sets the loop number to 1.
fn reset_loop(state: &mut State, count: usize)
    ensures { Changes count update_kind.LoopIsOne state.old state.new }
{
    state.graphics.loop_number = known(1);
}

/// Stores a cell at a known index.
fn store_at(state: &mut State, index: u16, cell: Cell) -> Result<(), StepFault>
    ensures { OnOk result (StoresAt index cell state.old state.new) }
{
    state.storage.put(index, cell)?;
    Ok(())
}

/// Stores at an index in a range: what is stored in the range isn't known afterwards.
fn store_between(state: &mut State, low: i64, high: i64)
    ensures { StoresBetween low high state.old state.new }
{
    forget(&mut state.storage, low, high);
}

/// Stores an element in the storage area.
fn store(state: &mut State, count: usize, at: u8, position: u8) -> Result<(), StepFault>
    ensures { OnOk result (Changes count (update_kind.Store at position) state.old state.new) }
{
    let place = taken(&state.stack, count, at)?;
    let cell = taken(&state.stack, count, position)?;
    let ranges = state.ranges.as_slice();
    if !is_in_machine(cell, ranges) {
        return Err(StepFault::from(UNDECIDED));
    }
    if let Ok(index) = index_of(place, ranges) {
        return store_at(state, index, cell);
    }
    let (low, high) = index_bounds(place, ranges)?;
    store_between(state, low, high);
    Ok(())
}

/// Makes one change by the `count` elements that are taken.
fn update(state: &mut State, count: usize, change: Update) -> Result<(), StepFault>
    ensures { OnOk result (Changes count change state.old state.new) }
{
    match change {
        Update::SetReference(which, NewNumber::Taken(position)) => {
            change_reference(state, count, which, position)
        }
        Update::SetReference(which, NewNumber::Same(other)) => {
            copy_reference(state, count, which, other);
            Ok(())
        }
        Update::SetPointer(which, position) => change_pointer(state, count, which, position),
        Update::SetLoop(position) => change_loop(state, count, position),
        Update::LoopIsOne => {
            reset_loop(state, count);
            Ok(())
        }
        Update::Store(at, position) => store(state, count, at, position),
    }
}

/// Makes the changes of a line, one after the other.
///
/// # Errors
/// `Refused` where one isn't known well enough; `OutOfMemory`.
pub fn update_all(state: &mut State, count: usize, changes: &[Update]) -> Result<(), StepFault>
    ensures { OnOk result (ChangesAll count changes.now state.old state.new) }
{
    for change in changes {
        update(state, count, *change)?;
    }
    Ok(())
}
