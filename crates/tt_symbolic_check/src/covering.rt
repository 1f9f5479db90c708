//! Whether one symbolic state covers another: shows each machine that the other shows. A cell is
//! assigned to each symbol of the covering state, so that the cells of both have the same values.

ghost use Rattle.std.specs.Prelude.{◌≡◌, ◌+ℤ◌, ◌*ℤ◌, IfOk, IfSome, Some, slice_get, true};
ghost use Rattle.tt_symbolic_state.specs.Values.{Assigns, Valuation, value};
ghost use Rattle.tt_symbolic_check.specs.Covering.{AgreeAll, AgreeCall, AgreeCalls, AgreeEntries, AgreeGraphics, AgreeStates, Agrees, Covers, Extends, IsImageWithin, RangesWithin};
ghost use Rattle.tt_setting.specs.Functions.{CoversFunctions};
ghost use Rattle.tt_setting.specs.Entries.{listed};

use std::alloc::{AllocError, Global};
use tt_code::Graphics;
use tt_setting::SortedMap;
use tt_symbolic_state::cell::{Cell, Range, bounds, difference, divided, known, simplified};
use tt_symbolic_state::state::{OpenCall, State, Zone};

/// Returns the cell that is assigned to a symbol, if one is.
fn assigned_to(assigned: &[Option<Cell>], symbol: u32) -> Option<Cell>
    ensures { IfSome result (λ c. slice_get assigned.now symbol ≡ Some (Some c)) }
{
    match assigned.get(symbol as usize) {
        Some(Some(cell)) => Some(*cell),
        _ => None,
    }
}

/// Returns a cell times a factor, and an offset added, where that is a cell.
fn scaled(factor: i32, cell: Cell, offset: i32) -> Option<Cell>
    ensures { IfSome result (λ c. (v : Valuation)
        → value v c ≡ (factor *ℤ value v cell) +ℤ offset) }
{
    let product = factor.checked_mul(cell.factor)?;
    let shift = factor.checked_mul(cell.offset)?;
    let number = shift.checked_add(offset)?;
    Some(Cell {
        symbol: cell.symbol,
        factor: product,
        offset: number,
    })
}

/// Whether the two cells have one value, whatever the symbols are.
fn are_same(one: Cell, other: Cell) -> bool
    ensures { result ≡ true → (v : Valuation) → value v one ≡ value v other }
{
    if one.offset != other.offset {
        return false;
    }
    if one.factor != other.factor {
        return false;
    }
    if one.factor == 0 {
        return true;
    }
    one.symbol == other.symbol
}

/// Whether the cell is, by what is assigned to the symbol of the covering one, the other.
fn is_given(given: Cell, mine: Cell, theirs: Cell) -> bool
    ensures { result ≡ true → (v : Valuation)
        → (theirs.factor *ℤ value v given) +ℤ theirs.offset ≡ value v mine }
{
    match scaled(theirs.factor, given, theirs.offset) {
        Some(cell) => are_same(cell, mine),
        None => false,
    }
}

/// Assigns a cell to a symbol to which none is assigned.
fn assign(assigned: &mut [Option<Cell>], symbol: u32, cell: Cell) -> bool
    ensures extends { Extends assigned.old assigned.new }
    ensures assigns { result ≡ true → slice_get assigned.new symbol ≡ Some (Some cell) }
{
    let place = symbol as usize;
    if place >= assigned.len() {
        return false;
    }
    if assigned[place].is_some() {
        return false;
    }
    assigned[place] = Some(cell);
    true
}

/// Returns the cell that is to be assigned to the symbol of the covering cell, so that both agree.
fn image(mine: Cell, theirs: Cell) -> Option<Cell>
    ensures { IfSome result (λ given. (v : Valuation)
        → (theirs.factor *ℤ value v given) +ℤ theirs.offset ≡ value v mine) }
{
    let shifted = difference(mine, known(theirs.offset))?;
    let given = divided(shifted, theirs.factor)?;
    Some(given)
}

/// Whether the cell of the covering state can be the other, which isn't always the same number
/// unless it is known, by what is assigned to its symbol, which is assigned where nothing is.
fn agree_simplified(assigned: &mut [Option<Cell>], mine: Cell, theirs: Cell) -> bool
    ensures extends { Extends assigned.old assigned.new }
    ensures agrees { result ≡ true → (v w : Valuation) → Assigns assigned.new v w
        → value w theirs ≡ value v mine }
{
    if theirs.factor == 0 {
        return are_same(theirs, mine);
    }
    match assigned_to(assigned, theirs.symbol) {
        Some(given) => is_given(given, mine, theirs),
        None => match image(mine, theirs) {
            Some(given) => assign(assigned, theirs.symbol, given),
            None => false,
        },
    }
}

/// Whether the cell of the covering state can be the other, by what is assigned to its symbol,
/// which is assigned where nothing is.
fn agree(assigned: &mut [Option<Cell>], ranges: &[Range], mine: Cell, theirs: Cell) -> bool
    ensures extends { Extends assigned.old assigned.new }
    ensures agrees { result ≡ true → Agrees assigned.new ranges.now mine theirs }
{
    agree_simplified(assigned, simplified(mine, ranges), theirs)
}

/// Whether two open calls agree.
fn agree_call(
    assigned: &mut [Option<Cell>],
    ranges: &[Range],
    mine: OpenCall,
    theirs: OpenCall,
) -> bool
    ensures extends { Extends assigned.old assigned.new }
    ensures agrees { result ≡ true → AgreeCall assigned.new ranges.now mine theirs }
{
    mine.body == theirs.body
        && mine.call == theirs.call
        && agree(assigned, ranges, mine.left, theirs.left)
}

/// Whether the open calls agree.
fn agree_calls(
    assigned: &mut [Option<Cell>],
    ranges: &[Range],
    mine: &[OpenCall],
    theirs: &[OpenCall],
) -> bool
    ensures extends { Extends assigned.old assigned.new }
    ensures agrees { result ≡ true → AgreeCalls assigned.new ranges.now mine.now theirs.now }
{
    if mine.len() != theirs.len() {
        return false;
    }
    for i in 0..mine.len() {
        if !agree_call(assigned, ranges, mine[i], theirs[i]) {
            return false;
        }
    }
    true
}

/// Whether the cells of a stack agree with those of another.
fn agree_all(
    assigned: &mut [Option<Cell>],
    ranges: &[Range],
    mine: &[Cell],
    theirs: &[Cell],
) -> bool
    ensures extends { Extends assigned.old assigned.new }
    ensures agrees { result ≡ true → AgreeAll assigned.new ranges.now mine.now theirs.now }
{
    if mine.len() != theirs.len() {
        return false;
    }
    for i in 0..mine.len() {
        if !agree(assigned, ranges, mine[i], theirs[i]) {
            return false;
        }
    }
    true
}

/// Returns what is listed with a number, which is mostly found at a place.
pub fn listed_near<T: Copy>(entries: &SortedMap<T>, place: usize, number: u16) -> Option<T>
    ensures { result ≡ listed entries.now number }
{
    let list = entries.as_slice();
    if place < list.len() {
        let entry = list[place];
        if entry.0 == number {
            return Some(entry.1);
        }
    }
    entries.get(number)
}

/// Whether the entries of the covering map agree with those of the other.
fn agree_entries(
    assigned: &mut [Option<Cell>],
    ranges: &[Range],
    mine: &SortedMap<Cell>,
    theirs: &[(u16, Cell)],
) -> bool
    ensures extends { Extends assigned.old assigned.new }
    ensures agrees { result ≡ true → AgreeEntries assigned.new ranges.now mine.now theirs.now }
{
    for i in 0..theirs.len() {
        let entry = theirs[i];
        let Some(cell) = listed_near(mine, i, entry.0) else {
            return false;
        };
        if !agree(assigned, ranges, cell, entry.1) {
            return false;
        }
    }
    true
}

/// Whether a map has each of these functions.
fn has_each(mine: &SortedMap<u32>, theirs: &[(u16, u32)]) -> bool
    ensures { result ≡ true → CoversFunctions theirs.now mine.now }
{
    for i in 0..theirs.len() {
        let entry = theirs[i];
        let Some(body) = listed_near(mine, i, entry.0) else {
            return false;
        };
        if body != entry.1 {
            return false;
        }
    }
    true
}

/// Whether the functions of the covering state are those of the other, which may have more. Mostly
/// both have the same.
pub fn has_functions(mine: &SortedMap<u32>, theirs: &SortedMap<u32>) -> bool
    ensures { result ≡ true → CoversFunctions theirs.now mine.now }
{
    if mine.is_same(theirs) {
        return true;
    }
    has_each(mine, theirs.as_slice())
}

/// Whether both are the same zone.
fn is_same_zone(mine: Zone, theirs: Zone) -> bool
    ensures { result ≡ true → mine ≡ theirs }
{
    match mine {
        Zone::Zero => matches!(theirs, Zone::Zero),
        Zone::One => matches!(theirs, Zone::One),
    }
}

/// Whether the graphics states agree.
fn agree_graphics(
    assigned: &mut [Option<Cell>],
    ranges: &[Range],
    mine: &Graphics<Cell, Zone>,
    theirs: &Graphics<Cell, Zone>,
) -> bool
    ensures extends { Extends assigned.old assigned.new }
    ensures agrees { result ≡ true → AgreeGraphics assigned.new ranges.now mine.now theirs.now }
{
    is_same_zone(mine.zp0, theirs.zp0)
        && is_same_zone(mine.zp1, theirs.zp1)
        && is_same_zone(mine.zp2, theirs.zp2)
        && agree(assigned, ranges, mine.rp0, theirs.rp0)
        && agree(assigned, ranges, mine.rp1, theirs.rp1)
        && agree(assigned, ranges, mine.rp2, theirs.rp2)
        && agree(assigned, ranges, mine.loop_number, theirs.loop_number)
}

/// Whether the cell that is assigned to a symbol is always in the symbol's range; where none is,
/// whether the range has a number.
fn is_image_within(given: Option<Cell>, ranges: &[Range], range: Range) -> bool
    ensures { result ≡ true → IsImageWithin given ranges.now range }
{
    match given {
        Some(cell) => match bounds(cell, ranges) {
            Some((low, high)) => low >= i64::from(range.low) && high <= i64::from(range.high),
            None => false,
        },
        None => range.low <= range.high,
    }
}

/// Whether each symbol of the covering state has a number in its range.
fn ranges_within(assigned: &[Option<Cell>], mine: &[Range], theirs: &[Range]) -> bool
    ensures { result ≡ true → RangesWithin assigned.now mine.now theirs.now }
{
    for i in 0..theirs.len() {
        let Some(given) = assigned.get(i) else {
            return false;
        };
        if !is_image_within(*given, mine, theirs[i]) {
            return false;
        }
    }
    true
}

/// Whether all parts of the covering state agree with those of the other.
fn agree_states(
    assigned: &mut [Option<Cell>],
    ranges: &[Range],
    mine: &State,
    theirs: &State,
) -> bool
    ensures { result ≡ true → AgreeStates assigned.new ranges.now mine.now theirs.now }
{
    let (calls, stack) = (mine.calls.as_slice(), mine.stack.as_slice());
    mine.offset == theirs.offset
        && has_functions(&mine.functions, &theirs.functions)
        && agree_graphics(assigned, ranges, &mine.graphics, &theirs.graphics)
        && agree_calls(assigned, ranges, calls, theirs.calls.as_slice())
        && agree_all(assigned, ranges, stack, theirs.stack.as_slice())
        && agree_entries(assigned, ranges, &mine.storage, theirs.storage.as_slice())
        && agree_entries(assigned, ranges, &mine.controls, theirs.controls.as_slice())
}

/// Whether the second state shows each machine that the first shows. The cells that are assigned to
/// its symbols are put into a list, in the memory that this has, where that is enough.
///
/// # Errors
/// If memory runs out.
pub fn covers_by(
    assigned: &mut Vec<Option<Cell>>,
    mine: &State,
    theirs: &State,
) -> Result<bool, AllocError>
    ensures { IfOk result (λ b. b ≡ true → Covers mine.now theirs.now) }
{
    assigned.clear();
    assigned.resize(theirs.ranges.len(), None)?;
    let cells = assigned.as_mut_slice();
    let ranges = mine.ranges.as_slice();
    if !agree_states(cells, ranges, mine, theirs) {
        return Ok(false);
    }
    Ok(ranges_within(cells, ranges, theirs.ranges.as_slice()))
}

/// Whether the second state shows each machine that the first shows.
///
/// # Errors
/// If memory runs out.
pub fn covers(alloc: Global, mine: &State, theirs: &State) -> Result<bool, AllocError>
    ensures { IfOk result (λ b. b ≡ true → Covers mine.now theirs.now) }
{
    let mut assigned = Vec::new(alloc);
    covers_by(&mut assigned, mine, theirs)
}

/// Whether a state shows each machine that either of two shows. It uses a list as `covers_by` does.
///
/// # Errors
/// If memory runs out.
pub fn covers_both(
    assigned: &mut Vec<Option<Cell>>,
    one: &State,
    other: &State,
    joined: &State,
) -> Result<bool, AllocError>
    ensures { IfOk result (λ b. b ≡ true
        → Covers one.now joined.now × Covers other.now joined.now) }
{
    Ok(covers_by(assigned, one, joined)? && covers_by(assigned, other, joined)?)
}
