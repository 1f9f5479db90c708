//! What is known of a result, by what is known of the operands: the result itself exactly where it
//! is the same for all numbers that the operands may be.

ghost use Rattle.std.specs.Prelude.{◌≡◌, ℤ, ◌+ℤ◌, ◌-ℤ◌, neg_ℤ, not};
ghost use Rattle.tt_code.specs.Computing.{absolute, equal};
ghost use Rattle.tt_code.specs.States.{is_true as holds};
ghost use Rattle.tt_abs.specs.Transfers.{and_cells, exact_cell, le_cells, lt_cells, of_both_known, of_known, only_if, or_cells, truth_cell};

use crate::cells::Cell;

/// Returns the result if it is a number of the machine, from -2^31 to 2^31 - 1, and an unknown cell
/// otherwise.
fn exact(value: i64) -> Cell
    ensures { result ≡ exact_cell value }
{
    match i32::try_from(value) {
        Ok(number) => Cell::Known(number),
        Err(_) => Cell::Unknown,
    }
}

/// Returns 1 for true, 0 for false.
fn truth(holds: bool) -> Cell
    ensures { result ≡ truth_cell holds }
{
    if holds {
        Cell::Known(1)
    } else {
        Cell::Known(0)
    }
}

/// Returns the answer if it is decided, and an unknown cell otherwise.
fn decided(is_decided: bool, answer: bool) -> Cell
    ensures { result ≡ only_if is_decided (truth_cell answer) }
{
    if is_decided {
        truth(answer)
    } else {
        Cell::Unknown
    }
}

/// Returns the sum, for ADD.
pub fn sum(first: Cell, second: Cell) -> Cell
    ensures { result ≡ of_both_known (λ a b. exact_cell (a +ℤ b)) first second }
{
    match (first, second) {
        (Cell::Known(a), Cell::Known(b)) => exact(i64::from(a) + i64::from(b)),
        _ => Cell::Unknown,
    }
}

/// Returns the first minus the second, for SUB.
pub fn difference(first: Cell, second: Cell) -> Cell
    ensures { result ≡ of_both_known (λ a b. exact_cell (a -ℤ b)) first second }
{
    match (first, second) {
        (Cell::Known(a), Cell::Known(b)) => exact(i64::from(a) - i64::from(b)),
        _ => Cell::Unknown,
    }
}

/// Returns the absolute value, for ABS.
pub fn absolute_value(cell: Cell) -> Cell
    ensures { result ≡ of_known (λ a. exact_cell (absolute a)) cell }
{
    match cell {
        Cell::Known(a) => exact(i64::from(a).abs()),
        Cell::Unknown => Cell::Unknown,
    }
}

/// Returns the number with the other sign, for NEG.
pub fn negative(cell: Cell) -> Cell
    ensures { result ≡ of_known (λ a. exact_cell (neg_ℤ a)) cell }
{
    match cell {
        Cell::Known(a) => exact(-i64::from(a)),
        Cell::Unknown => Cell::Unknown,
    }
}

/// Returns whether the first is less than the second, for LT. No number is less than -2^31, and
/// 2^31 - 1 is less than none.
pub fn less(first: Cell, second: Cell) -> Cell
    ensures { result ≡ lt_cells first second }
{
    match first {
        Cell::Known(a) => match second {
            Cell::Known(b) => truth(a < b),
            Cell::Unknown => decided(a == i32::MAX, false),
        },
        Cell::Unknown => match second {
            Cell::Known(b) => decided(b == i32::MIN, false),
            Cell::Unknown => Cell::Unknown,
        },
    }
}

/// Returns whether the first is at most the second, for LTEQ. -2^31 is at most each number, and
/// each is at most 2^31 - 1.
pub fn at_most(first: Cell, second: Cell) -> Cell
    ensures { result ≡ le_cells first second }
{
    match first {
        Cell::Known(a) => match second {
            Cell::Known(b) => truth(a <= b),
            Cell::Unknown => decided(a == i32::MIN, true),
        },
        Cell::Unknown => match second {
            Cell::Known(b) => decided(b == i32::MAX, true),
            Cell::Unknown => Cell::Unknown,
        },
    }
}

/// Returns whether the two are the same, for EQ.
pub fn same(first: Cell, second: Cell) -> Cell
    ensures { result ≡ of_both_known (λ a b. truth_cell (equal a b)) first second }
{
    match (first, second) {
        (Cell::Known(a), Cell::Known(b)) => truth(a == b),
        _ => Cell::Unknown,
    }
}

/// Returns whether the two differ, for NEQ.
pub fn different(first: Cell, second: Cell) -> Cell
    ensures { result ≡ of_both_known (λ a b. truth_cell (not (equal a b))) first second }
{
    match (first, second) {
        (Cell::Known(a), Cell::Known(b)) => truth(a != b),
        _ => Cell::Unknown,
    }
}

/// Whether the number is true: every number but 0 is.
pub fn is_true(number: i32) -> bool
    ensures { result ≡ holds number }
{
    number != 0
}

/// Returns whether both are true, for AND: one that is false decides.
pub fn both(first: Cell, second: Cell) -> Cell
    ensures { result ≡ and_cells first second }
{
    match first {
        Cell::Known(a) => match second {
            Cell::Known(b) => truth(is_true(a) && is_true(b)),
            Cell::Unknown => decided(!is_true(a), false),
        },
        Cell::Unknown => match second {
            Cell::Known(b) => decided(!is_true(b), false),
            Cell::Unknown => Cell::Unknown,
        },
    }
}

/// Returns whether one of the two is true, for OR: one that is true decides.
pub fn either(first: Cell, second: Cell) -> Cell
    ensures { result ≡ or_cells first second }
{
    match first {
        Cell::Known(a) => match second {
            Cell::Known(b) => truth(is_true(a) || is_true(b)),
            Cell::Unknown => decided(is_true(a), true),
        },
        Cell::Unknown => match second {
            Cell::Known(b) => decided(is_true(b), true),
            Cell::Unknown => Cell::Unknown,
        },
    }
}

/// Returns whether the number is false, for NOT.
pub fn opposite(cell: Cell) -> Cell
    ensures { result ≡ of_known (λ a. truth_cell (not (holds a))) cell }
{
    match cell {
        Cell::Known(a) => truth(!is_true(a)),
        Cell::Unknown => Cell::Unknown,
    }
}
