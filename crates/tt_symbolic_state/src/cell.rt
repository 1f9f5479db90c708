//! Cells: affine expressions of at most one symbol, whose number is in a range.

ghost use Rattle.std.specs.Prelude.{◌≡◌, ◌+ℤ◌, ◌-ℤ◌, ◌*ℤ◌, ◌≤ℤ◌, IfSome, IsTrue, true, int_lt, slice_get};
ghost use Rattle.tt_symbolic_state.specs.Values.{Fits, Valuation, value};
ghost use Rattle.tt_code.specs.States.{is_number};
ghost use Rattle.tt_code.specs.Computing.{equal};

/// A number that is known up to a symbol: `factor * symbol + offset`.
#[derive(Clone, Copy, PartialEq, Eq)]
pub struct Cell {
    /// The symbol's number. Where the factor is 0 the cell has no symbol.
    pub symbol: u32,
    /// What the symbol is multiplied by; 0 for a known number.
    pub factor: i32,
    /// What is added.
    pub offset: i32,
}

/// The numbers from `low` to `high`.
#[derive(Clone, Copy, PartialEq, Eq)]
pub struct Range {
    /// The least number.
    pub low: i32,
    /// The greatest number.
    pub high: i32,
}

/// All numbers of the machine.
pub const FULL: Range = Range {
    low: i32::MIN,
    high: i32::MAX,
};

/// Makes the cell of a number.
pub fn known(number: i32) -> Cell
    ensures { (v : Valuation) → value v result ≡ number }
{
    Cell {
        symbol: 0,
        factor: 0,
        offset: number,
    }
}

/// Makes the cell of a symbol.
pub fn symbol(symbol: u32) -> Cell
    ensures { (v : Valuation) → value v result ≡ v symbol }
{
    Cell {
        symbol,
        factor: 1,
        offset: 0,
    }
}

/// Returns the cell's value where its symbol is this number.
fn at(cell: Cell, number: i32) -> i64
    ensures { result ≡ cell.factor *ℤ number +ℤ cell.offset }
{
    i64::from(cell.factor) * i64::from(number) + i64::from(cell.offset)
}

/// Returns the range of a symbol, if it has one.
fn range_of(ranges: &[Range], symbol: u32) -> Option<Range>
    ensures { result ≡ slice_get ranges.now symbol }
{
    ranges.get(symbol as usize).copied()
}

/// Returns bounds of the cell's value: none where its symbol has no range.
pub fn bounds(cell: Cell, ranges: &[Range]) -> Option<(i64, i64)>
    ensures { IfSome result (λ b. (v : Valuation) → Fits ranges.now v
        → (b.0 ≤ℤ value v cell) × (value v cell ≤ℤ b.1)) }
{
    if cell.factor == 0 {
        let number = i64::from(cell.offset);
        return Some((number, number));
    }
    let range = range_of(ranges, cell.symbol)?;
    if cell.factor > 0 {
        Some((at(cell, range.low), at(cell, range.high)))
    } else {
        Some((at(cell, range.high), at(cell, range.low)))
    }
}

/// Returns the number that the cell is, where there is only one.
pub fn number(cell: Cell, ranges: &[Range]) -> Option<i32>
    ensures { IfSome result (λ k. (v : Valuation) → Fits ranges.now v → value v cell ≡ k) }
{
    let (low, high) = bounds(cell, ranges)?;
    if low != high {
        return None;
    }
    i32::try_from(low).ok()
}

/// Returns the cell as a number, where its value is always the same, and otherwise as it is.
pub fn simplified(cell: Cell, ranges: &[Range]) -> Cell
    ensures { (v : Valuation) → Fits ranges.now v → value v result ≡ value v cell }
{
    if cell.factor == 0 {
        return cell;
    }
    match number(cell, ranges) {
        Some(number) => known(number),
        None => cell,
    }
}

/// Whether the cell's value is always a number of the machine.
pub fn is_in_machine(cell: Cell, ranges: &[Range]) -> bool
    ensures { IsTrue result → (v : Valuation) → Fits ranges.now v
        → is_number (value v cell) ≡ true }
{
    match bounds(cell, ranges) {
        Some((low, high)) => low >= i64::from(i32::MIN) && high <= i64::from(i32::MAX),
        None => false,
    }
}

/// Returns the symbol of both cells, where one of them has none or both have the same.
fn common(one: Cell, other: Cell) -> Option<u32>
    ensures { IfSome result (λ s. (v : Valuation)
        → (value v one ≡ one.factor *ℤ v s +ℤ one.offset)
        × (value v other ≡ other.factor *ℤ v s +ℤ other.offset)) }
{
    if one.factor == 0 || one.symbol == other.symbol {
        Some(other.symbol)
    } else if other.factor == 0 {
        Some(one.symbol)
    } else {
        None
    }
}

/// Returns the sum of two cells, where it is a cell.
pub fn sum(one: Cell, other: Cell) -> Option<Cell>
    ensures { IfSome result (λ c. (v : Valuation) → value v c ≡ value v one +ℤ value v other) }
{
    let symbol = common(one, other)?;
    let factor = one.factor.checked_add(other.factor)?;
    let offset = one.offset.checked_add(other.offset)?;
    Some(Cell {
        symbol,
        factor,
        offset,
    })
}

/// Returns the difference of two cells, where it is a cell.
pub fn difference(one: Cell, other: Cell) -> Option<Cell>
    ensures { IfSome result (λ c. (v : Valuation) → value v c ≡ value v one -ℤ value v other) }
{
    let symbol = common(one, other)?;
    let factor = one.factor.checked_sub(other.factor)?;
    let offset = one.offset.checked_sub(other.offset)?;
    Some(Cell {
        symbol,
        factor,
        offset,
    })
}

/// Returns bounds of the difference of two cells.
pub fn difference_bounds(one: Cell, other: Cell, ranges: &[Range]) -> Option<(i64, i64)>
    ensures { IfSome result (λ b. (v : Valuation) → Fits ranges.now v
        → (b.0 ≤ℤ (value v one -ℤ value v other)) × ((value v one -ℤ value v other) ≤ℤ b.1)) }
{
    match difference(one, other) {
        Some(cell) => bounds(cell, ranges),
        None => {
            let mine = bounds(one, ranges)?;
            let theirs = bounds(other, ranges)?;
            let low = mine.0.checked_sub(theirs.1)?;
            let high = mine.1.checked_sub(theirs.0)?;
            Some((low, high))
        }
    }
}

/// Whether the first cell is less than the second, where that is always or never so.
pub fn is_less(one: Cell, other: Cell, ranges: &[Range]) -> Option<bool>
    ensures { IfSome result (λ b. (v : Valuation) → Fits ranges.now v
        → int_lt (value v one) (value v other) ≡ b) }
{
    let (low, high) = difference_bounds(one, other, ranges)?;
    if high < 0 {
        Some(true)
    } else if low >= 0 {
        Some(false)
    } else {
        None
    }
}

/// Whether the two cells are equal, where that is always or never so.
pub fn is_equal(one: Cell, other: Cell, ranges: &[Range]) -> Option<bool>
    ensures { IfSome result (λ b. (v : Valuation) → Fits ranges.now v
        → equal (value v one) (value v other) ≡ b) }
{
    let (low, high) = difference_bounds(one, other, ranges)?;
    if high < 0 || low > 0 {
        Some(false)
    } else if low == 0 && high == 0 {
        Some(true)
    } else {
        None
    }
}

/// Returns the cell times a number, where it is a cell.
pub fn scaled(cell: Cell, by: i32) -> Option<Cell>
    ensures value { IfSome result (λ c. (v : Valuation) → value v c ≡ value v cell *ℤ by) }
    ensures symbol { IfSome result (λ c. c.symbol ≡ cell.symbol) }
{
    let factor = cell.factor.checked_mul(by)?;
    let offset = cell.offset.checked_mul(by)?;
    Some(Cell {
        symbol: cell.symbol,
        factor,
        offset,
    })
}

/// Returns the cell that gives this one when it is multiplied by the number, if there is one.
pub fn divided(cell: Cell, by: i32) -> Option<Cell>
    ensures { IfSome result (λ c. (v : Valuation) → value v cell ≡ value v c *ℤ by) }
{
    let quotient = Cell {
        symbol: cell.symbol,
        factor: cell.factor.checked_div(by)?,
        offset: cell.offset.checked_div(by)?,
    };
    let product = scaled(quotient, by)?;
    if product.factor == cell.factor && product.offset == cell.offset {
        Some(quotient)
    } else {
        None
    }
}
