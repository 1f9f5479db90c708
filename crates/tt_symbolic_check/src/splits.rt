//! Which splits an instruction wants. Each split is right, so that nothing is promised of these.

use crate::copying::Split;
use tt_code::kinds::{Arithmetic, Control};
use tt_code::{Effect, entry};
use tt_symbolic_state::cell::{Cell, Range, difference};
use tt_symbolic_state::state::State;

/// How many numbers the range of a function number may have to be split.
const MOST_FUNCTIONS: i64 = 16;

/// What an instruction decides by numbers that a split can tell apart.
#[derive(Clone, Copy, PartialEq, Eq)]
pub enum Decision {
    /// LT and GTEQ: whether the first number is less than the second.
    IsLess,
    /// LTEQ and GT: whether the first number is at most the second.
    IsAtMost,
    /// EQ and NEQ: whether two numbers are equal.
    AreEqual,
    /// IF, JROT and JROF: whether a number is 0.
    IsZero,
    /// CALL: which function is called.
    WhichFunction,
    /// LOOPCALL: which function is called, and whether it is called at all.
    WhetherRepeated,
    /// ENDF: whether the function has another turn.
    WhetherAgain,
}

/// Returns what the instructions of a code decide, if it is by numbers that a split can tell apart.
pub fn decision_of(code: u8) -> Option<Decision> {
    let decision = match entry(code) {
        Effect::Arithmetic(Arithmetic::Lt | Arithmetic::GtEq) => Decision::IsLess,
        Effect::Arithmetic(Arithmetic::LtEq | Arithmetic::Gt) => Decision::IsAtMost,
        Effect::Arithmetic(Arithmetic::Eq | Arithmetic::Neq) => Decision::AreEqual,
        Effect::Control(Control::If | Control::JumpIfTrue | Control::JumpIfFalse) =>
            Decision::IsZero,
        Effect::Control(Control::Call) => Decision::WhichFunction,
        Effect::Control(Control::LoopCall) => Decision::WhetherRepeated,
        Effect::Control(Control::EndFunction) => Decision::WhetherAgain,
        _ => return None,
    };
    Some(decision)
}

/// Returns the range of the cell's symbol, if it has one.
fn range_of(cell: Cell, ranges: &[Range]) -> Option<Range> {
    if cell.factor == 0 {
        return None;
    }
    let range = *ranges.get(cell.symbol as usize)?;
    Some(range)
}

/// Returns how many numbers a range has, less 1.
fn width(range: Range) -> i64 {
    i64::from(range.high) - i64::from(range.low)
}

/// Returns the split of a symbol whose upper part begins with a number, if both parts have numbers.
fn split_before(symbol: u32, range: Range, first: i64) -> Option<Split> {
    if first <= i64::from(range.low) || i64::from(range.high) < first {
        return None;
    }
    let last = i32::try_from(first.checked_sub(1)?).ok()?;
    Some(Split { symbol, last })
}

/// Returns the split after which it is decided whether the cell is 0, if one is wanted: at the
/// symbol's number there, or just after it.
fn at_zero(cell: Cell, ranges: &[Range]) -> Option<Split> {
    let range = range_of(cell, ranges)?;
    let offset = i64::from(cell.offset);
    let factor = i64::from(cell.factor);
    if offset.checked_rem(factor)? != 0 {
        return None;
    }
    let zero = 0i64.checked_sub(offset.checked_div(factor)?)?;
    if zero == i64::from(range.low) {
        return split_before(cell.symbol, range, zero.checked_add(1)?);
    }
    split_before(cell.symbol, range, zero)
}

/// Returns the split after which it is decided whether the cell is below a bound, if one is wanted.
fn at_bound(cell: Cell, bound: i64, ranges: &[Range]) -> Option<Split> {
    let range = range_of(cell, ranges)?;
    let factor = i64::from(cell.factor);
    let above = i64::from(cell.offset).checked_sub(bound)?;
    if factor > 0 {
        let first = 0i64.checked_sub(above.checked_div_euclid(factor)?)?;
        return split_before(cell.symbol, range, first);
    }
    let steps = above.checked_div_euclid(0i64.checked_sub(factor)?)?;
    split_before(cell.symbol, range, steps.checked_add(1)?)
}

/// Returns the split of the least number of a cell from the others, if these are few.
fn at_least(cell: Cell, ranges: &[Range]) -> Option<Split> {
    let range = range_of(cell, ranges)?;
    if width(range) >= MOST_FUNCTIONS {
        return None;
    }
    split_before(cell.symbol, range, i64::from(range.low).checked_add(1)?)
}

/// Returns the difference of the two upper elements, if it has a symbol whose range has at most as
/// many numbers as the widest.
fn compared(state: &State, widest: i64) -> Option<Cell> {
    let top = state.stack.under(0)?;
    let second = state.stack.under(1)?;
    let cell = difference(second, top)?;
    let range = range_of(cell, state.ranges.as_slice())?;
    if width(range) >= widest {
        return None;
    }
    Some(cell)
}

/// Returns the split that LOOPCALL wants: of the function number, or of the count at 1.
fn at_loop_call(state: &State) -> Option<Split> {
    let ranges = state.ranges.as_slice();
    if let Some(split) = at_least(state.stack.under(0)?, ranges) {
        return Some(split);
    }
    at_bound(state.stack.under(1)?, 1, ranges)
}

/// Returns the split that an instruction of this code wants in the state, if it wants one. A
/// comparison wants one where the range of the symbol has at most as many numbers as the widest.
pub fn wanted(code: u8, state: &State, widest: i64) -> Option<Split> {
    let ranges = state.ranges.as_slice();
    match decision_of(code)? {
        Decision::IsLess => at_bound(compared(state, widest)?, 0, ranges),
        Decision::IsAtMost => at_bound(compared(state, widest)?, 1, ranges),
        Decision::AreEqual => at_zero(compared(state, widest)?, ranges),
        Decision::IsZero => at_zero(state.stack.under(0)?, ranges),
        Decision::WhichFunction => at_least(state.stack.under(0)?, ranges),
        Decision::WhetherRepeated => at_loop_call(state),
        Decision::WhetherAgain => at_bound(state.calls.last()?.left, 1, ranges),
    }
}
