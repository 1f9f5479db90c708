//! Copies of states, and states with a part of a symbol's range.

ghost use Rattle.std.specs.Prelude.{◌≡◌, ◌<◌, ℤ, ◌≤ℤ◌, ◌<ℤ◌, IfOk, OnOk, length, slice_set};
ghost use Rattle.tt_symbolic_state.specs.Values.{IsWithin};
ghost use Rattle.tt_symbolic_check.specs.Copying.{IsCopy, IsLower, IsUpper};

use std::alloc::{AllocError, Global};
use std::mem;
use tt_symbolic_state::cell::Range;
use tt_symbolic_state::stack::Stack;
use tt_symbolic_state::state::State;

/// Where a symbol's range is split.
#[derive(Clone, Copy)]
pub struct Split {
    /// The symbol.
    pub symbol: u32,
    /// The greatest number of the lower part.
    pub last: i32,
}

/// Makes a copy of a state.
///
/// # Errors
/// If memory runs out.
pub fn copied(alloc: Global, state: &State) -> Result<State, AllocError>
    ensures { IfOk result (IsCopy state.now) }
{
    Ok(State {
        offset: state.offset,
        calls: Vec::from_slice(alloc, state.calls.as_slice())?,
        stack: state.stack.copied(alloc)?,
        graphics: state.graphics,
        storage: state.storage.copied(alloc)?,
        controls: state.controls.copied(alloc)?,
        functions: state.functions.copied(alloc)?,
        ranges: Vec::from_slice(alloc, state.ranges.as_slice())?,
    })
}

/// Makes a list the same as another one, in the memory that it has, where that is enough.
fn copy_list<T: Copy>(list: &[T], copy: &mut Vec<T>) -> Result<(), AllocError>
    ensures { OnOk result (copy.new.items ≡ list.now) }
{
    copy.clear();
    copy.extend_from_slice(list)
}

/// Makes a stack the same as another one, in the memory that it has, where that is enough.
fn copy_stack(alloc: Global, stack: &Stack, copy: &mut Stack) -> Result<(), AllocError>
    ensures { OnOk result (copy.new ≡ stack.now) }
{
    let mut cells = mem::replace(copy, Stack::new(alloc)).into_cells();
    copy_list(stack.as_slice(), &mut cells)?;
    *copy = Stack::from_cells(cells);
    Ok(())
}

/// Makes a state a copy of another one, in the memory that it has, where that is enough.
///
/// # Errors
/// If memory runs out; then the state that was to become a copy is unspecified.
pub fn copy_into(alloc: Global, state: &State, copy: &mut State) -> Result<(), AllocError>
    ensures { OnOk result (IsCopy state.now copy.new) }
{
    copy_list(state.calls.as_slice(), &mut copy.calls)?;
    copy_stack(alloc, &state.stack, &mut copy.stack)?;
    copy.storage.copy_from(&state.storage)?;
    copy.controls.copy_from(&state.controls)?;
    copy.functions.copy_from(&state.functions)?;
    copy_list(state.ranges.as_slice(), &mut copy.ranges)?;
    copy.offset = state.offset;
    copy.graphics = state.graphics;
    Ok(())
}

/// Returns the part of the range up to a number.
fn lower_range(range: Range, last: i32) -> Range
    ensures { (z : ℤ) → IsWithin range z → z ≤ℤ last → IsWithin result z }
{
    Range {
        low: range.low,
        high: last.min(range.high),
    }
}

/// Returns the part of the range above a number.
fn upper_range(range: Range, last: i32) -> Range
    ensures { (z : ℤ) → IsWithin range z → last <ℤ z → IsWithin result z }
{
    match last.checked_add(1) {
        Some(low) => Range {
            low: low.max(range.low),
            high: range.high,
        },
        None => range,
    }
}

/// Sets a range.
fn set_range(ranges: &mut Vec<Range>, place: usize, range: Range)
    requires { place < length ranges.old.items }
    ensures { ranges.new.items ≡ slice_set ranges.old.items place range }
{
    ranges[place] = range;
}

/// Keeps the lower part of a state.
pub fn lower(state: &mut State, split: Split)
    ensures { IsLower split state.old state.new }
{
    let place = split.symbol as usize;
    if place < state.ranges.len() {
        let range = state.ranges[place];
        let part = lower_range(range, split.last);
        set_range(&mut state.ranges, place, part);
    }
}

/// Keeps the upper part of a state.
pub fn raise(state: &mut State, split: Split)
    ensures { IsUpper split state.old state.new }
{
    let place = split.symbol as usize;
    if place < state.ranges.len() {
        let range = state.ranges[place];
        let part = upper_range(range, split.last);
        set_range(&mut state.ranges, place, part);
    }
}
