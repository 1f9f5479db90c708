//! What a plain line changes and pushes, with its operands still on the stack.

ghost use Rattle.std.specs.Prelude.{◌≡◌, IfOk, OnOk, pos, take};
ghost use Rattle.tt_code.specs.Changes.{taken_at};
ghost use Rattle.tt_abs.specs.Representation.Steps.{ChangesAllTo, ChangesTo, all_pushed_from, pushed_from};
ghost use Rattle.tt_abs.specs.Representation.Stored.{AreIndexed, AreIndexedPushes, IndexedPush, IndexedUpdate, IsIndex};
ghost use Rattle.tt_abs.specs.Transfers.{index_in, zone_in};
ghost use Rattle.tt_abs.specs.declared.cells.Cell.TheVariants.{Known};

use crate::cells::Cell;
use crate::stack::Stack;
use crate::state::State;
use smallvec::SmallVec;
use std::alloc::{AllocError, Global};
use tt_code::kinds::{NewNumber, Pushed, Update};
use tt_setting::ZoneCell;

/// What a line pushes: at most two cells.
pub type PushedCells = SmallVec<Cell, 2>;

/// Returns the zone that a cell names, once its number is tested to be 0 or 1; either zone for an
/// unknown cell.
fn zone_of(cell: Cell) -> ZoneCell
    ensures { result ≡ zone_in cell }
{
    match cell {
        Cell::Known(0) => ZoneCell::Zero,
        Cell::Known(_) => ZoneCell::One,
        Cell::Unknown => ZoneCell::Either,
    }
}

/// Returns the element at a position among the `count` that are taken; 1 where there is none.
fn taken(stack: &Stack, count: usize, position: u8) -> Cell
    ensures { result ≡ taken_at (Known (pos 1)) (take count stack.now) position }
{
    let place = usize::from(position);
    if place >= count {
        return Cell::Known(1);
    }
    match stack.under(place) {
        Some(cell) => cell,
        None => Cell::Known(1),
    }
}

/// Returns the storage index that a cell holds.
fn index_of(cell: Cell) -> u16
    requires { IsIndex cell }
    ensures { result ≡ index_in cell }
{
    match cell {
        Cell::Known(number) => number as u16,
        Cell::Unknown => 0,
    }
}

/// Makes one change by the `count` elements that are taken.
fn update(state: &mut State, count: usize, change: Update) -> Result<(), AllocError>
    requires { IndexedUpdate (take count state.old.stack) change }
    ensures { OnOk result (ChangesTo count change state.old state.new) }
{
    match change {
        Update::SetReference(r, source) => {
            let cell = match source {
                NewNumber::Taken(position) => taken(&state.stack, count, position),
                NewNumber::Same(q) => state.graphics.reference(q),
            };
            state.graphics.set_reference(r, cell);
        }
        Update::SetPointer(p, position) => {
            let zone = zone_of(taken(&state.stack, count, position));
            state.graphics.set_pointer(p, zone);
        }
        Update::SetLoop(position) => {
            state.graphics.loop_number = taken(&state.stack, count, position);
        }
        Update::LoopIsOne => state.graphics.loop_number = Cell::Known(1),
        Update::Store(at, value) => {
            let index = index_of(taken(&state.stack, count, at));
            let cell = taken(&state.stack, count, value);
            state.set_storage(index, cell)?;
        }
    }
    Ok(())
}

/// Makes the changes of a line, one after the other, by the `count` elements that are taken.
///
/// # Errors
/// If memory runs out, or there would be more than 65,535 known storage cells; then the state's
/// content is unspecified.
pub fn update_all(state: &mut State, count: usize, changes: &[Update]) -> Result<(), AllocError>
    requires { AreIndexed (take count state.old.stack) changes.now }
    ensures { OnOk result (ChangesAllTo count changes.now state.old state.new) }
{
    for change in changes {
        update(state, count, *change)?;
    }
    Ok(())
}

/// Returns a cell that is pushed.
fn pushed_cell(state: &State, count: usize, pushed: Pushed) -> Cell
    requires { IndexedPush (take count state.now.stack) pushed }
    ensures { result ≡ pushed_from state.now count pushed }
{
    match pushed {
        Pushed::Any => Cell::Unknown,
        Pushed::Stored(position) => {
            let index = index_of(taken(&state.stack, count, position));
            state.storage(index)
        }
    }
}

/// Returns the cells that a line pushes, the deepest first, by the `count` elements that are taken
/// and the storage area.
///
/// # Errors
/// If memory runs out.
pub fn pushed_cells(
    alloc: Global,
    state: &State,
    count: usize,
    pushes: &[Pushed],
) -> Result<PushedCells, AllocError>
    requires { AreIndexedPushes (take count state.now.stack) pushes.now }
    ensures { IfOk result (λ made. made.items ≡ all_pushed_from state.now count pushes.now) }
{
    let mut made = SmallVec::new(alloc);
    for pushed in pushes {
        made.push(pushed_cell(state, count, *pushed))?;
    }
    Ok(made)
}
