//! MAX, MIN, MUL, DIV, FLOOR and CEILING on cells. What is computed by a division is tested by a
//! multiplication, so that no division has to be proved.

ghost use Rattle.std.specs.Prelude.{◌≡◌, ℤ, pos, ◌*ℤ◌, ◌≤ℤ◌, ◌<ℤ◌, IfSome, IsTrue};
ghost use Rattle.tt_code.specs.States.{IsNumber};
ghost use Rattle.tt_symbolic_state.specs.CvtMachine.{IsCeiling, IsCommensurable, IsFloor};
ghost use Rattle.tt_symbolic_state.specs.Values.{Fits, IsWithin, Valuation, value};
ghost use Rattle.tt_symbolic_cells.specs.Answers.{AnswersExact};
ghost use Rattle.tt_symbolic_cells.specs.Answers.{Answers};
ghost use Rattle.tt_symbolic_cells.specs.Representation.Bounds.{AnswersProduct, AreBounds, IsNear, IsOrdered, IsRangeOf};
ghost use Rattle.tt_symbolic_cells.specs.declared.exact.Exact.TheVariants as exact;

use crate::answer::Answer;
use tt_symbolic_state::cell::{
    Cell, FULL, Range, bounds, divided, is_in_machine, is_less, number, scaled, simplified,
};

/// An instruction whose result the machine with control values fixes.
#[derive(Clone, Copy, PartialEq, Eq)]
pub enum Exact {
    /// MAX.
    Greatest,
    /// MIN.
    Least,
    /// MUL.
    Product,
    /// DIV.
    Quotient,
    /// FLOOR.
    Floor,
    /// CEILING.
    Ceiling,
}

/// Returns the numbers between two bounds; all numbers, where a bound is none of the machine.
pub fn range_between(low: i64, high: i64) -> Range
    ensures { IsRangeOf low high result }
{
    match i32::try_from(low) {
        Ok(least) => match i32::try_from(high) {
            Ok(greatest) => Range {
                low: least,
                high: greatest,
            },
            Err(_) => FULL,
        },
        Err(_) => FULL,
    }
}

/// Returns the greater of two numbers.
fn greater(one: i64, other: i64) -> i64
    ensures one { one ≤ℤ result }
    ensures other { other ≤ℤ result }
    ensures least { (x : ℤ) → one ≤ℤ x → other ≤ℤ x → result ≤ℤ x }
{
    if one < other { other } else { one }
}

/// Returns the lesser of two numbers.
fn lesser(one: i64, other: i64) -> i64
    ensures one { result ≤ℤ one }
    ensures other { result ≤ℤ other }
    ensures greatest { (x : ℤ) → x ≤ℤ one → x ≤ℤ other → x ≤ℤ result }
{
    if one < other { one } else { other }
}

/// Returns bounds of the product of two cells.
fn product_bounds(a: Cell, b: Cell, ranges: &[Range]) -> Option<(i64, i64)>
    ensures { IfSome result (AreBounds (λ x y. x *ℤ y) a b ranges.now) }
{
    let (least, greatest) = bounds(a, ranges)?;
    let (low, high) = bounds(b, ranges)?;
    let one = least.checked_mul(low)?;
    let two = least.checked_mul(high)?;
    let three = greatest.checked_mul(low)?;
    let four = greatest.checked_mul(high)?;
    let smallest = lesser(lesser(one, two), lesser(three, four));
    let largest = greater(greater(one, two), greater(three, four));
    Some((smallest, largest))
}

/// Returns the product of two cells as a range.
fn product_range(a: Cell, b: Cell, ranges: &[Range]) -> Answer
    ensures { AnswersProduct a b ranges.now result }
{
    match product_bounds(a, b, ranges) {
        Some((low, high)) => Answer::Within(range_between(low, high)),
        None => Answer::Within(FULL),
    }
}

/// Returns a cell times a number, where that is a cell of numbers of the machine.
fn multiple(cell: Cell, by: i32, ranges: &[Range]) -> Option<Cell>
    ensures { IfSome result (λ c. (v : Valuation) → Fits ranges.now v
        → (value v c ≡ value v cell *ℤ by) × IsNumber (value v c)) }
{
    let product = scaled(cell, by)?;
    if is_in_machine(product, ranges) {
        Some(product)
    } else {
        None
    }
}

/// Returns the product of two cells, where one of them is known.
fn known_product(a: Cell, b: Cell, ranges: &[Range]) -> Option<Cell>
    ensures { IfSome result (λ c. (v : Valuation) → Fits ranges.now v
        → (value v c ≡ value v a *ℤ value v b) × IsNumber (value v c)) }
{
    match number(a, ranges) {
        Some(by) => {
            let product = multiple(b, by, ranges)?;
            Some(product)
        }
        None => {
            let by = number(b, ranges)?;
            let product = multiple(a, by, ranges)?;
            Some(product)
        }
    }
}

/// Returns the product of two cells.
fn times(a: Cell, b: Cell, ranges: &[Range]) -> Answer
    ensures { AnswersProduct a b ranges.now result }
{
    match known_product(a, b, ranges) {
        Some(cell) => Answer::Exactly(cell),
        None => product_range(a, b, ranges),
    }
}

/// Returns what MUL makes of two cells.
fn product(a: Cell, b: Cell, ranges: &[Range]) -> Answer
    ensures { AnswersExact exact.Product a b ranges.now result }
{
    match divided(a, 64) {
        Some(whole) => times(whole, b, ranges),
        None => match divided(b, 64) {
            Some(whole) => times(whole, a, ranges),
            None => Answer::Within(FULL),
        },
    }
}

/// Returns by what the divisor is to be multiplied to give the number, if there is such a number.
fn quotient_of(number: i32, divisor: i32) -> Option<i32>
    ensures { IfSome result (λ q. number ≡ q *ℤ divisor) }
{
    let quotient = number.checked_div(divisor)?;
    let product = quotient.checked_mul(divisor)?;
    if product == number {
        Some(quotient)
    } else {
        None
    }
}

/// Whether the number is a multiple or a divisor of 64.
fn is_commensurable(number: i32) -> bool
    ensures { IsTrue result → IsCommensurable number }
{
    if let Some(_) = quotient_of(number, 64) {
        return true;
    }
    if let Some(_) = quotient_of(64, number) {
        return true;
    }
    false
}

/// Returns the product of two numbers.
fn product_of(one: i32, other: i32) -> i64
    ensures { result ≡ one *ℤ other }
{
    i64::from(one) * i64::from(other)
}

/// Returns the numbers that are a quotient of a number between the bounds, or beside one, by a
/// divisor above 0.
fn quotients(low: i64, high: i64, divisor: i32) -> Option<Range>
    requires { pos 0 <ℤ divisor }
    ensures { IfSome result (λ r. (x z : ℤ) → low ≤ℤ x → x ≤ℤ high → IsNear x divisor z
        → IsWithin r z) }
{
    let by = i64::from(divisor);
    let least = i32::try_from(low.div_euclid(by)).ok()?;
    let above = high.checked_add(by - 1)?;
    let greatest = i32::try_from(above.div_euclid(by)).ok()?;
    if product_of(least, divisor) > low {
        return None;
    }
    if product_of(greatest, divisor) < high {
        return None;
    }
    Some(Range {
        low: least,
        high: greatest,
    })
}

/// Returns what a cell is by a divisor above 0: a cell or a range.
fn divided_by(cell: Cell, divisor: i32, ranges: &[Range]) -> Option<Answer>
    requires { pos 0 <ℤ divisor }
    ensures { IfSome result (Answers (λ v z. IsNear (value v cell) divisor z) ranges.now) }
{
    match divided(cell, divisor) {
        Some(quotient) => Some(Answer::Exactly(quotient)),
        None => {
            let (low, high) = bounds(cell, ranges)?;
            let range = quotients(low, high, divisor)?;
            Some(Answer::Within(range))
        }
    }
}

/// Returns what DIV makes of two cells, where it is fixed.
fn fixed_quotient(a: Cell, b: Cell, ranges: &[Range]) -> Option<Answer>
    ensures { IfSome result (AnswersExact exact.Quotient a b ranges.now) }
{
    let divisor = number(b, ranges)?;
    if divisor <= 0 {
        return None;
    }
    if !is_commensurable(divisor) {
        return None;
    }
    let dividend = multiple(a, 64, ranges)?;
    let quotient = divided_by(dividend, divisor, ranges)?;
    Some(quotient)
}

/// Returns what DIV makes of two cells.
fn quotient(a: Cell, b: Cell, ranges: &[Range]) -> Answer
    ensures { AnswersExact exact.Quotient a b ranges.now result }
{
    match fixed_quotient(a, b, ranges) {
        Some(answer) => answer,
        None => Answer::Within(FULL),
    }
}

/// Returns the greatest multiple of 64 that isn't above a number.
fn floor_of(number: i64) -> Option<i64>
    ensures { IfSome result (IsFloor number) }
{
    let multiple = number.div_euclid(64);
    let floor = multiple.checked_mul(64)?;
    let above = floor.checked_add(64)?;
    if floor > number || number >= above {
        return None;
    }
    Some(floor)
}

/// Returns the range of the multiples of 64 from the one below a bound to the one below another.
fn floors(low: i64, high: i64) -> Option<Range>
    ensures { IfSome result (λ r. (x z : ℤ) → low ≤ℤ x → x ≤ℤ high → IsNumber z → IsFloor x z
        → IsWithin r z) }
{
    let least = floor_of(low)?;
    let greatest = floor_of(high)?;
    Some(range_between(least, greatest))
}

/// Returns what FLOOR makes of a cell, where it is more than any number.
fn fixed_floor(cell: Cell, ranges: &[Range]) -> Option<Answer>
    ensures { IfSome result (AnswersExact exact.Floor cell cell ranges.now) }
{
    match divided(cell, 64) {
        Some(_) => Some(Answer::Exactly(cell)),
        None => {
            let (low, high) = bounds(cell, ranges)?;
            let range = floors(low, high)?;
            Some(Answer::Within(range))
        }
    }
}

/// Returns the least multiple of 64 that isn't below a number.
fn ceiling_of(number: i64) -> Option<i64>
    ensures { IfSome result (IsCeiling number) }
{
    let multiple = number.checked_add(63)?.div_euclid(64);
    let ceiling = multiple.checked_mul(64)?;
    let above = number.checked_add(64)?;
    if number > ceiling || ceiling >= above {
        return None;
    }
    Some(ceiling)
}

/// Returns the range of the multiples of 64 from the one above a bound to the one above another.
fn ceilings(low: i64, high: i64) -> Option<Range>
    ensures { IfSome result (λ r. (x z : ℤ) → low ≤ℤ x → x ≤ℤ high → IsNumber z
        → ((c : ℤ) → IsCeiling x c → IsNumber c → z ≡ c) → IsWithin r z) }
{
    let least = ceiling_of(low)?;
    let greatest = ceiling_of(high)?;
    Some(range_between(least, greatest))
}

/// Returns what CEILING makes of a cell, where it is more than any number.
fn fixed_ceiling(cell: Cell, ranges: &[Range]) -> Option<Answer>
    ensures { IfSome result (AnswersExact exact.Ceiling cell cell ranges.now) }
{
    if !is_in_machine(cell, ranges) {
        return None;
    }
    match divided(cell, 64) {
        Some(_) => Some(Answer::Exactly(cell)),
        None => {
            let (low, high) = bounds(cell, ranges)?;
            let range = ceilings(low, high)?;
            Some(Answer::Within(range))
        }
    }
}

/// Returns what MAX makes of two cells whose order isn't known.
fn greatest_range(a: Cell, b: Cell, ranges: &[Range]) -> Answer
    ensures { AnswersExact exact.Greatest a b ranges.now result }
{
    match bounds(a, ranges) {
        Some((least, most)) => match bounds(b, ranges) {
            Some((low, high)) => {
                let range = range_between(greater(least, low), greater(most, high));
                Answer::Within(range)
            }
            None => Answer::Within(FULL),
        },
        None => Answer::Within(FULL),
    }
}

/// Returns what MIN makes of two cells whose order isn't known.
fn least_range(a: Cell, b: Cell, ranges: &[Range]) -> Answer
    ensures { AnswersExact exact.Least a b ranges.now result }
{
    match bounds(a, ranges) {
        Some((least, most)) => match bounds(b, ranges) {
            Some((low, high)) => {
                let range = range_between(lesser(least, low), lesser(most, high));
                Answer::Within(range)
            }
            None => Answer::Within(FULL),
        },
        None => Answer::Within(FULL),
    }
}

/// Tells which cell is never less than the other, where that is known: true, if it is the first,
/// and false, if it is the second.
fn is_at_least(a: Cell, b: Cell, ranges: &[Range]) -> Option<bool>
    ensures { IfSome result (λ first. (v : Valuation) → Fits ranges.now v
        → IsOrdered first (value v a) (value v b)) }
{
    match is_less(a, b, ranges) {
        Some(less) => Some(!less),
        None => match is_less(b, a, ranges) {
            Some(less) => Some(less),
            None => None,
        },
    }
}

/// Returns what MAX makes of two cells.
fn greatest(a: Cell, b: Cell, ranges: &[Range]) -> Answer
    ensures { AnswersExact exact.Greatest a b ranges.now result }
{
    match is_at_least(a, b, ranges) {
        Some(true) => Answer::Exactly(a),
        Some(false) => Answer::Exactly(b),
        None => greatest_range(a, b, ranges),
    }
}

/// Returns what MIN makes of two cells.
fn least(a: Cell, b: Cell, ranges: &[Range]) -> Answer
    ensures { AnswersExact exact.Least a b ranges.now result }
{
    match is_at_least(a, b, ranges) {
        Some(true) => Answer::Exactly(b),
        Some(false) => Answer::Exactly(a),
        None => least_range(a, b, ranges),
    }
}

/// Returns what an instruction that takes two operands makes of them, which are numbers where their
/// values are always the same.
fn answer_of_simplified(operation: Exact, a: Cell, b: Cell, ranges: &[Range]) -> Answer
    ensures { AnswersExact operation a b ranges.now result }
{
    match operation {
        Exact::Greatest => greatest(a, b, ranges),
        Exact::Least => least(a, b, ranges),
        Exact::Product => product(a, b, ranges),
        Exact::Quotient => quotient(a, b, ranges),
        _ => Answer::Within(FULL),
    }
}

/// Returns what an instruction that takes two operands makes of them.
pub fn answer_of_two(operation: Exact, a: Cell, b: Cell, ranges: &[Range]) -> Answer
    ensures { AnswersExact operation a b ranges.now result }
{
    answer_of_simplified(
        operation,
        simplified(a, ranges),
        simplified(b, ranges),
        ranges,
    )
}

/// Returns what FLOOR or CEILING makes of a cell, where it is more than any number.
fn fixed_of_one(operation: Exact, cell: Cell, ranges: &[Range]) -> Option<Answer>
    ensures { IfSome result (AnswersExact operation cell cell ranges.now) }
{
    match operation {
        Exact::Floor => fixed_floor(cell, ranges),
        Exact::Ceiling => fixed_ceiling(cell, ranges),
        _ => None,
    }
}

/// Returns what an instruction that takes one operand makes of it.
pub fn answer_of_one(operation: Exact, cell: Cell, ranges: &[Range]) -> Answer
    ensures { AnswersExact operation cell cell ranges.now result }
{
    let simple = simplified(cell, ranges);
    match fixed_of_one(operation, simple, ranges) {
        Some(answer) => answer,
        None => Answer::Within(FULL),
    }
}
