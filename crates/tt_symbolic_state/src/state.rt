//! Symbolic states: what a machine's state is, up to symbols.

ghost use Rattle.std.specs.Prelude.{◌≡◌, ℕ, IfOk, OnOk, false, ◌++◌, ◌∷◌, []};
ghost use Rattle.std.specs.List.{All};
ghost use Rattle.tt_symbolic_state.specs.Shows.{IsFree, IsFreeCall, IsFresh};
ghost use Rattle.tt_symbolic_state.specs.declared.cell.Cell.{Cell as AnyCell};

use crate::cell::{Cell, Range, symbol};
use crate::stack::Stack;
use std::alloc::AllocError;
use tt_code::{Graphics, Reason};
use tt_setting::{SortedMap, StepFault};

/// The zone that a pointer names.
#[derive(Clone, Copy, PartialEq, Eq)]
pub enum Zone {
    /// The twilight zone.
    Zero,
    /// The glyph zone.
    One,
}

/// A call that hasn't returned.
#[derive(Clone, Copy)]
pub struct OpenCall {
    /// The name of the body that runs.
    pub body: u32,
    /// The offset of the call in the body that called.
    pub call: u32,
    /// How many turns follow this one.
    pub left: Cell,
}

/// What a machine's state is, up to symbols.
#[derive(Drop)]
pub struct State {
    /// Where it is: in the program of its innermost call, without calls in the main program.
    pub offset: u32,
    /// The calls that haven't returned, the outermost first.
    pub calls: Vec<OpenCall>,
    /// The stack.
    pub stack: Stack,
    /// The graphics state.
    pub graphics: Graphics<Cell, Zone>,
    /// The storage area: what isn't listed is any number.
    pub storage: SortedMap<Cell>,
    /// The control values: what isn't listed is any number.
    pub controls: SortedMap<Cell>,
    /// The known functions, with the names of their bodies.
    pub functions: SortedMap<u32>,
    /// The range of each symbol.
    pub ranges: Vec<Range>,
}

/// Whether the cell depends on the symbol.
fn mentions(cell: Cell, number: u32) -> bool
    ensures { result ≡ false → IsFree number cell }
{
    cell.factor != 0 && cell.symbol == number
}

/// Whether one of the cells depends on the symbol.
fn any_mentions(cells: &[Cell], number: u32) -> bool
    ensures { result ≡ false → All (IsFree number) cells.now }
{
    for cell in cells {
        if mentions(*cell, number) {
            return true;
        }
    }
    false
}

/// Whether what is left of one of the calls depends on the symbol.
fn any_call_mentions(calls: &[OpenCall], number: u32) -> bool
    ensures { result ≡ false → All (IsFreeCall number) calls.now }
{
    for call in calls {
        if mentions(call.left, number) {
            return true;
        }
    }
    false
}

/// Whether the cell of one of the entries depends on the symbol.
fn any_entry_mentions(entries: &[(u16, Cell)], number: u32) -> bool
    ensures { result ≡ false → All (λ (e : ℕ × AnyCell). IsFree number e.1) entries.now }
{
    for entry in entries {
        if mentions(entry.1, number) {
            return true;
        }
    }
    false
}

/// Gives the next symbol its range.
fn push_range(ranges: &mut Vec<Range>, range: Range) -> Result<(), AllocError>
    ensures { OnOk result (ranges.new.items ≡ ranges.old.items ++ range ∷ []) }
{
    ranges.push(range)?;
    Ok(())
}

/// Makes a new symbol with this range, and returns its cell.
///
/// # Errors
/// `OutOfMemory`; `Refused`, where a cell depends on a symbol that has no range, so that the new
/// symbol's number is in use.
pub fn fresh(state: &mut State, range: Range) -> Result<Cell, StepFault>
    ensures { IfOk result (IsFresh state.old state.new range) }
{
    let Ok(number) = u32::try_from(state.ranges.len()) else {
        return Err(StepFault::from(Reason::UnknownOperand));
    };
    let graphics = &state.graphics;
    if mentions(graphics.rp0, number)
        || mentions(graphics.rp1, number)
        || mentions(graphics.rp2, number)
        || mentions(graphics.loop_number, number)
        || any_call_mentions(state.calls.as_slice(), number)
        || any_mentions(state.stack.as_slice(), number)
        || any_entry_mentions(state.storage.as_slice(), number)
        || any_entry_mentions(state.controls.as_slice(), number)
    {
        return Err(StepFault::from(Reason::UnknownOperand));
    }
    push_range(&mut state.ranges, range)?;
    Ok(symbol(number))
}
