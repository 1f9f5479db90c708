//! The results of the arithmetic and logical instructions, of cells.

ghost use Rattle.std.specs.Prelude.{◌≡◌, ◌+ℤ◌, ◌-ℤ◌, ◌≤ℤ◌, ℤ, IfSome, false, true};
ghost use Rattle.tt_code.specs.Computing.{absolute, exact as exact_value, truth as truth_value};
ghost use Rattle.tt_code.specs.States.{Exactly, is_true};
ghost use Rattle.tt_code.specs.declared.kinds.Arithmetic.TheVariants as arithmetic;
ghost use Rattle.tt_symbolic_state.specs.Values.{Fits, Valuation, value};
ghost use Rattle.tt_symbolic_cells.specs.Representation.Bounds.{AreBounds};
ghost use Rattle.tt_symbolic_cells.specs.Answers.{AnswersResult, result_of, takes_one as takes_only_one};

use crate::answer::Answer;
use crate::exact::range_between;
use tt_code::kinds::Arithmetic;
use tt_symbolic_state::cell::{
    Cell, FULL, Range, bounds, difference, is_equal, is_in_machine, is_less, known, simplified, sum,
};

/// The numbers 0 and 1.
const BIT: Range = Range { low: 0, high: 1 };

/// Returns the cell, if its value is always a number of the machine.
fn exact(cell: Cell, ranges: &[Range]) -> Option<Cell>
    ensures { IfSome result (λ c. (v : Valuation) → Fits ranges.now v
        → exact_value (value v cell) ≡ Exactly (value v c)) }
{
    if is_in_machine(cell, ranges) {
        Some(cell)
    } else {
        None
    }
}

/// Makes the cell of 1 or 0.
fn truth(holds: bool) -> Cell
    ensures { (v : Valuation) → truth_value holds ≡ Exactly (value v result) }
{
    if holds { known(1) } else { known(0) }
}

/// Whether the cell is true, where that is always or never so.
pub fn truth_of(cell: Cell, ranges: &[Range]) -> Option<bool>
    ensures { IfSome result (λ b. (v : Valuation) → Fits ranges.now v
        → is_true (value v cell) ≡ b) }
{
    let (low, high) = bounds(cell, ranges)?;
    if low > 0 || high < 0 {
        Some(true)
    } else if low == 0 && high == 0 {
        Some(false)
    } else {
        None
    }
}

/// Returns the result of ADD, where it is a cell.
fn exact_sum(a: Cell, b: Cell, ranges: &[Range]) -> Option<Cell>
    ensures { IfSome result (λ c. (v : Valuation) → Fits ranges.now v
        → result_of arithmetic.Add (value v a) (value v b) ≡ Exactly (value v c)) }
{
    let total = sum(a, b)?;
    let cell = exact(total, ranges)?;
    Some(cell)
}

/// Returns the result of SUB, where it is a cell.
fn exact_difference(a: Cell, b: Cell, ranges: &[Range]) -> Option<Cell>
    ensures { IfSome result (λ c. (v : Valuation) → Fits ranges.now v
        → result_of arithmetic.Sub (value v a) (value v b) ≡ Exactly (value v c)) }
{
    let rest = difference(a, b)?;
    let cell = exact(rest, ranges)?;
    Some(cell)
}

/// Returns the result of NEG, where it is a cell.
fn exact_negative(cell: Cell, ranges: &[Range]) -> Option<Cell>
    ensures { IfSome result (λ c. (v : Valuation) → Fits ranges.now v
        → result_of arithmetic.Neg (value v cell) (value v cell) ≡ Exactly (value v c)) }
{
    let opposite = difference(known(0), cell)?;
    let negative = exact(opposite, ranges)?;
    Some(negative)
}

/// Returns the result of ABS, where it is a cell.
fn exact_magnitude(cell: Cell, ranges: &[Range]) -> Option<Cell>
    ensures { IfSome result (λ c. (v : Valuation) → Fits ranges.now v
        → result_of arithmetic.Abs (value v cell) (value v cell) ≡ Exactly (value v c)) }
{
    let (low, high) = bounds(cell, ranges)?;
    if low >= 0 {
        let same = exact(cell, ranges)?;
        return Some(same);
    }
    if high <= 0 {
        let negative = exact_negative(cell, ranges)?;
        return Some(negative);
    }
    None
}

/// Returns the result of NOT, where it is a cell.
fn exact_not(cell: Cell, ranges: &[Range]) -> Option<Cell>
    ensures { IfSome result (λ c. (v : Valuation) → Fits ranges.now v
        → result_of arithmetic.Not (value v cell) (value v cell) ≡ Exactly (value v c)) }
{
    let (low, high) = bounds(cell, ranges)?;
    if low > 0 || high < 0 {
        return Some(truth(false));
    }
    if low >= 0 && high <= 1 {
        let opposite = difference(known(1), cell)?;
        return Some(opposite);
    }
    None
}

/// Returns the result of AND, where it is a cell.
fn exact_and(a: Cell, b: Cell, ranges: &[Range]) -> Option<Cell>
    ensures { IfSome result (λ c. (v : Valuation) → Fits ranges.now v
        → result_of arithmetic.And (value v a) (value v b) ≡ Exactly (value v c)) }
{
    match truth_of(a, ranges) {
        Some(false) => Some(truth(false)),
        Some(true) => {
            let holds = truth_of(b, ranges)?;
            Some(truth(holds))
        }
        None => match truth_of(b, ranges) {
            Some(false) => Some(truth(false)),
            _ => None,
        },
    }
}

/// Returns the result of OR, where it is a cell.
fn exact_or(a: Cell, b: Cell, ranges: &[Range]) -> Option<Cell>
    ensures { IfSome result (λ c. (v : Valuation) → Fits ranges.now v
        → result_of arithmetic.Or (value v a) (value v b) ≡ Exactly (value v c)) }
{
    match truth_of(a, ranges) {
        Some(true) => Some(truth(true)),
        Some(false) => {
            let holds = truth_of(b, ranges)?;
            Some(truth(holds))
        }
        None => match truth_of(b, ranges) {
            Some(true) => Some(truth(true)),
            _ => None,
        },
    }
}

/// Returns the result of a comparison, where it is always the same.
fn compared(operation: Arithmetic, a: Cell, b: Cell, ranges: &[Range]) -> Option<Cell>
    ensures { IfSome result (λ c. (v : Valuation) → Fits ranges.now v
        → result_of operation (value v a) (value v b) ≡ Exactly (value v c)) }
{
    match operation {
        Arithmetic::Lt => {
            let holds = is_less(a, b, ranges)?;
            Some(truth(holds))
        }
        Arithmetic::Gt => {
            let holds = is_less(b, a, ranges)?;
            Some(truth(holds))
        }
        Arithmetic::LtEq => {
            let fails = is_less(b, a, ranges)?;
            Some(truth(!fails))
        }
        Arithmetic::GtEq => {
            let fails = is_less(a, b, ranges)?;
            Some(truth(!fails))
        }
        Arithmetic::Eq => {
            let holds = is_equal(a, b, ranges)?;
            Some(truth(holds))
        }
        Arithmetic::Neq => {
            let fails = is_equal(a, b, ranges)?;
            Some(truth(!fails))
        }
        _ => None,
    }
}

/// Returns the result of an instruction that takes two operands, where it is a cell.
fn exact_of_two(operation: Arithmetic, a: Cell, b: Cell, ranges: &[Range]) -> Option<Cell>
    ensures { IfSome result (λ c. (v : Valuation) → Fits ranges.now v
        → result_of operation (value v a) (value v b) ≡ Exactly (value v c)) }
{
    match operation {
        Arithmetic::Add => exact_sum(a, b, ranges),
        Arithmetic::Sub => exact_difference(a, b, ranges),
        Arithmetic::And => exact_and(a, b, ranges),
        Arithmetic::Or => exact_or(a, b, ranges),
        _ => compared(operation, a, b, ranges),
    }
}

/// Returns the result of an instruction that takes one operand, where it is a cell.
fn exact_of_one(operation: Arithmetic, cell: Cell, ranges: &[Range]) -> Option<Cell>
    ensures { IfSome result (λ c. (v : Valuation) → Fits ranges.now v
        → result_of operation (value v cell) (value v cell) ≡ Exactly (value v c)) }
{
    match operation {
        Arithmetic::Abs => exact_magnitude(cell, ranges),
        Arithmetic::Neg => exact_negative(cell, ranges),
        Arithmetic::Not => exact_not(cell, ranges),
        _ => None,
    }
}

/// Returns bounds of the sum of two cells.
fn sum_bounds(a: Cell, b: Cell, ranges: &[Range]) -> Option<(i64, i64)>
    ensures { IfSome result (AreBounds (λ x y. x +ℤ y) a b ranges.now) }
{
    let (least, greatest) = bounds(a, ranges)?;
    let (low, high) = bounds(b, ranges)?;
    let smallest = least.checked_add(low)?;
    let largest = greatest.checked_add(high)?;
    Some((smallest, largest))
}

/// Returns bounds of the difference of two cells.
fn difference_bounds(a: Cell, b: Cell, ranges: &[Range]) -> Option<(i64, i64)>
    ensures { IfSome result (AreBounds (λ x y. x -ℤ y) a b ranges.now) }
{
    let (least, greatest) = bounds(a, ranges)?;
    let (low, high) = bounds(b, ranges)?;
    let smallest = least.checked_sub(high)?;
    let largest = greatest.checked_sub(low)?;
    Some((smallest, largest))
}

/// Returns the results of ADD as a range.
fn sum_range(a: Cell, b: Cell, ranges: &[Range]) -> Answer
    ensures { AnswersResult arithmetic.Add a b ranges.now result }
{
    match sum_bounds(a, b, ranges) {
        Some((low, high)) => Answer::Within(range_between(low, high)),
        None => Answer::Within(FULL),
    }
}

/// Returns the results of SUB as a range.
fn difference_range(a: Cell, b: Cell, ranges: &[Range]) -> Answer
    ensures { AnswersResult arithmetic.Sub a b ranges.now result }
{
    match difference_bounds(a, b, ranges) {
        Some((low, high)) => Answer::Within(range_between(low, high)),
        None => Answer::Within(FULL),
    }
}

/// Returns the results of NEG as a range.
fn negative_range(cell: Cell, ranges: &[Range]) -> Answer
    ensures { AnswersResult arithmetic.Neg cell cell ranges.now result }
{
    match difference_bounds(known(0), cell, ranges) {
        Some((low, high)) => Answer::Within(range_between(low, high)),
        None => Answer::Within(FULL),
    }
}

/// Returns a bound of what ABS makes of a number between two bounds.
fn magnitude(low: i64, high: i64) -> Option<i64>
    ensures { IfSome result (λ m. (x : ℤ) → low ≤ℤ x → x ≤ℤ high → absolute x ≤ℤ m) }
{
    let negative = 0i64.checked_sub(low)?;
    if negative < high {
        Some(high)
    } else {
        Some(negative)
    }
}

/// Returns the results of ABS as a range.
fn magnitude_range(cell: Cell, ranges: &[Range]) -> Answer
    ensures { AnswersResult arithmetic.Abs cell cell ranges.now result }
{
    match bounds(cell, ranges) {
        Some((low, high)) => match magnitude(low, high) {
            Some(most) => Answer::Within(range_between(0, most)),
            None => Answer::Within(FULL),
        },
        None => Answer::Within(FULL),
    }
}

/// Returns the results of an instruction that takes two operands as a range.
fn range_of_two(operation: Arithmetic, a: Cell, b: Cell, ranges: &[Range]) -> Answer
    requires { takes_only_one operation ≡ false }
    ensures { AnswersResult operation a b ranges.now result }
{
    match operation {
        Arithmetic::Add => sum_range(a, b, ranges),
        Arithmetic::Sub => difference_range(a, b, ranges),
        Arithmetic::Abs => Answer::Within(FULL),
        Arithmetic::Neg => Answer::Within(FULL),
        _ => Answer::Within(BIT),
    }
}

/// Returns the results of an instruction that takes one operand as a range.
fn range_of_one(operation: Arithmetic, cell: Cell, ranges: &[Range]) -> Answer
    requires { takes_only_one operation ≡ true }
    ensures { AnswersResult operation cell cell ranges.now result }
{
    match operation {
        Arithmetic::Abs => magnitude_range(cell, ranges),
        Arithmetic::Neg => negative_range(cell, ranges),
        Arithmetic::Not => Answer::Within(BIT),
        _ => Answer::Within(FULL),
    }
}

/// Returns what an instruction makes of two operands.
pub fn result_of_two(operation: Arithmetic, a: Cell, b: Cell, ranges: &[Range]) -> Answer
    requires { takes_only_one operation ≡ false }
    ensures { AnswersResult operation a b ranges.now result }
{
    let one = simplified(a, ranges);
    let other = simplified(b, ranges);
    match exact_of_two(operation, one, other, ranges) {
        Some(cell) => Answer::Exactly(cell),
        None => range_of_two(operation, one, other, ranges),
    }
}

/// Returns what an instruction makes of one operand.
pub fn result_of_one(operation: Arithmetic, cell: Cell, ranges: &[Range]) -> Answer
    requires { takes_only_one operation ≡ true }
    ensures { AnswersResult operation cell cell ranges.now result }
{
    let simple = simplified(cell, ranges);
    match exact_of_one(operation, simple, ranges) {
        Some(cell) => Answer::Exactly(cell),
        None => range_of_one(operation, simple, ranges),
    }
}

/// Whether the instruction takes the top only.
pub fn takes_one(operation: Arithmetic) -> bool
    ensures { result ≡ takes_only_one operation }
{
    matches!(
        operation,
        Arithmetic::Abs | Arithmetic::Neg | Arithmetic::Not
    )
}
