//! The stack of cells.

ghost use Rattle.std.specs.Prelude.{◌≡◌, ℕ, ◌↔◌, ◌<◌, ◌≢◌, ◌+◌, ◌-◌, ◌^◌, ◌++◌, [], ◌∷◌, length, drop, take, remove, reverse, slice_get, map, pos, ◌≤◌, IsTrue, IfSome, OnOk, OnErr, IfOk};
ghost use Rattle.smallvec.specs.SmallVec.{HasRoomFor};
ghost use Rattle.tt_code.specs.Computing.{word_number, words};
ghost use Rattle.tt_abs.specs.Transfers.{cells_on};
ghost use Rattle.tt_abs.specs.declared.cells.Cell.TheVariants.{Known};
ghost use Rattle.tt_abs.specs.CellOrders.{CellInRange};
ghost use Rattle.tt_abs.specs.Orders.{IsLeastAbove};
ghost use Rattle.tt_abs.specs.Representation.Codes.{HasNoCode, cells_of, kept_cells};
ghost use Rattle.tt_abs.specs.Stacks.{IsLeastCell, ShareBottom, StackBelow, StackInRange, cell_at, first, stack_order};

use crate::cell_codes::{
    Codes, INLINE_CELLS, append_bytes, append_cells, append_codes, are_below, are_equal, cell_of,
    code_of, join_codes, joined,
};
use crate::cells::Cell;
use crate::order::{DepthMismatch, Order};
use smallvec::SmallVec;
use std::alloc::{AllocError, Global};
use std::marker::Model;

/// How many cells a stack may have at most.
const MOST_CELLS: usize = 0x7fff_ffff;

/// Up to this many codes are removed one by one: `truncate` makes a call to clear what it removes,
/// which isn't worth it for a few.
const FEW: usize = 8;

/// A stack of cells, which contracts see top first. Up to 32 cells need no allocation, if each is
/// unknown or has a number from -32,767 to 32,767.
pub struct Stack {
    /// The lowest cells, kept as they are because a cell that had no code was pushed as one of
    /// them; usually there are none.
    wide: Vec<Cell>,
    /// The codes of the cells above the wide ones.
    codes: Codes,
}

// Written out, so that who holds a stack proves in one step that its memory is given back.
impl Drop for Stack {
    fn drop(self) {
        let Stack { wide, codes } = self;
        drop(wide);
        drop(codes);
    }
}

impl Model for Stack {
    ghost use Rattle.std.specs.Prelude.{List, length, reverse, ◌+◌, ◌<◌, ◌^◌};
    ghost use Rattle.tt_abs.specs.declared.cells.Cell.{Cell};
    ghost use Rattle.tt_abs.specs.Representation.Codes.{kept_cells};

    ghost Value = { List Cell };

    ghost view = { λ s. reverse (kept_cells s.wide.items s.codes.items) };

    ghost invariant = { λ s. length s.wide.items + length s.codes.items < 2 ^ 31 };
}

/// Makes room for the codes of `more` further cells, above the `wide` cells that are kept as they
/// are.
fn make_room(codes: &mut Codes, wide: usize, more: usize) -> Result<(), AllocError>
    requires { wide + length codes.old.items < 2 ^ 31 }
    ensures items { codes.new.items ≡ codes.old.items }
    ensures room { OnOk result (HasRoomFor codes.new more) }
    ensures few { OnOk result (wide + length codes.old.items + more < 2 ^ 31) }
{
    if more > MOST_CELLS - wide - codes.len() {
        return Err(AllocError);
    }
    codes.reserve(more)
}

/// Puts a cell that has no code on top: it and those below it become wide cells.
fn push_wide(wide: &mut Vec<Cell>, codes: &mut Codes, cell: Cell) -> Result<(), AllocError>
    requires { length wide.old.items + length codes.old.items < 2 ^ 31 }
    ensures cells { OnOk result (kept_cells wide.new.items codes.new.items
        ≡ kept_cells wide.old.items codes.old.items ++ cell ∷ []) }
    ensures wide { OnErr result (wide.new.items ≡ wide.old.items) }
    ensures codes { OnErr result (codes.new.items ≡ codes.old.items) }
{
    wide.reserve(codes.len() + 1)?;
    append_cells(wide, codes.as_slice());
    wide.push_reserved(cell);
    codes.clear();
    Ok(())
}

/// Removes `count` codes from the end, or all of them if there are fewer.
fn shorten(codes: &mut Codes, count: usize)
    ensures { codes.new.items ≡ take (length codes.old.items - count) codes.old.items }
{
    if count > FEW {
        let len = codes.len();
        codes.truncate(len.saturating_sub(count));
        return;
    }
    for _ in 0..count {
        codes.pop();
    }
}

/// Returns the signed word of two bytes.
fn word_of(high: u8, low: u8) -> i32
    ensures { result ≡ word_number high low }
{
    let number = 256 * i32::from(high) + i32::from(low);
    if high < 128 { number } else { number - 65536 }
}

/// States that a cell's number is one of the machine, as it always is.
fn number_facts(cell: Cell)
    ensures { CellInRange cell }
{}

/// Whether the cells of two equally long lists are the same.
fn cells_equal(mine: &[Cell], theirs: &[Cell]) -> bool
    requires { length mine.now ≡ length theirs.now }
    ensures { IsTrue result ↔ (mine.now ≡ theirs.now) }
{
    for i in 0..mine.len() {
        if !mine[i].is_same(theirs[i]) {
            return false;
        }
    }
    true
}

/// Whether the first `count` codes of both lists are those of the same cells.
fn have_same_front(mine: &[u16], theirs: &[u16], count: usize) -> bool
    requires enough { count ≤ length mine.now }
    requires enough_there { count ≤ length theirs.now }
    ensures { IsTrue result ↔
        (take count (cells_of mine.now) ≡ take count (cells_of theirs.now)) }
{
    are_equal(&mine[..count], &theirs[..count])
}

impl Stack {
    /// Makes the empty stack.
    pub fn new(alloc: Global) -> Self
        ensures { result ≡ [] }
    {
        Stack {
            wide: Vec::new(alloc),
            codes: SmallVec::new(alloc),
        }
    }

    /// Returns how many cells there are.
    pub fn len(&self) -> usize
        ensures value { result ≡ length self.now }
        ensures small { result < 2 ^ 31 }
    {
        self.wide.len() + self.codes.len()
    }

    /// Puts a cell on top.
    ///
    /// # Errors
    /// If memory runs out, or there are 2^31 - 1 cells; then the stack stays as it is.
    pub fn push(&mut self, cell: Cell) -> Result<(), AllocError>
        ensures ok { OnOk result (self.new ≡ cell ∷ self.old) }
        ensures err { OnErr result (self.new ≡ self.old) }
    {
        if self.wide.len() + self.codes.len() >= MOST_CELLS {
            return Err(AllocError);
        }
        match code_of(cell) {
            Some(code) => {
                self.codes.push(code)?;
                Ok(())
            }
            None => push_wide(&mut self.wide, &mut self.codes, cell),
        }
    }

    /// Puts cells on top, one after the other, stopping before the first that has no code, and
    /// returns how many it has put there.
    ///
    /// # Errors
    /// If memory runs out, or there would be more than 2^31 - 1 cells.
    fn push_coded(&mut self, cells: &[Cell]) -> Result<usize, AllocError>
        ensures count { IfOk result (λ n. n ≤ length cells.now) }
        ensures stop { IfOk result (λ n. n < length cells.now
            → HasNoCode (cell_at cells.now n)) }
        ensures pushed { IfOk result (λ n. self.new ≡ cells_on (take n cells.now) self.old) }
        ensures in_range { OnOk result (StackInRange self.old → StackInRange self.new) }
    {
        make_room(&mut self.codes, self.wide.len(), cells.len())?;
        Ok(append_codes(&mut self.codes, cells))
    }

    /// Puts cells on top, one after the other.
    ///
    /// # Errors
    /// If memory runs out, or there would be more than 2^31 - 1 cells; then the stack's cells are
    /// unspecified.
    pub fn push_cells(&mut self, cells: &[Cell]) -> Result<(), AllocError>
        ensures pushed { OnOk result (self.new ≡ cells_on cells.now self.old) }
        ensures in_range { OnOk result (StackInRange self.old → StackInRange self.new) }
    {
        let coded = self.push_coded(cells)?;
        let rest = &cells[coded..];
        for i in 0..rest.len() {
            let cell = rest[i];
            number_facts(cell);
            self.push(cell)?;
        }
        Ok(())
    }

    /// Puts bytes on top, one after the other.
    ///
    /// # Errors
    /// If memory runs out, or there would be more than 2^31 - 1 cells; then the stack's cells are
    /// unspecified.
    pub fn push_bytes(&mut self, bytes: &[u8]) -> Result<(), AllocError>
        ensures { OnOk result (self.new ≡ cells_on (map Known (map pos bytes.now)) self.old) }
    {
        make_room(&mut self.codes, self.wide.len(), bytes.len())?;
        append_bytes(&mut self.codes, bytes);
        Ok(())
    }

    /// Puts words of two bytes on top, one after the other.
    ///
    /// # Errors
    /// If memory runs out, or there would be more than 2^31 - 1 cells; then the stack's cells are
    /// unspecified.
    pub fn push_words(&mut self, bytes: &[u8]) -> Result<(), AllocError>
        ensures { OnOk result (self.new ≡ cells_on (map Known (words bytes.now)) self.old) }
    {
        make_room(&mut self.codes, self.wide.len(), bytes.len() / 2)?;
        let mut rest = bytes;
        while let [high, low, after @ ..] = rest {
            self.push(Cell::Known(word_of(*high, *low)))?;
            rest = after;
        }
        Ok(())
    }

    /// Returns the cell at a position from the bottom: 0 is the bottom.
    fn at(&self, place: usize) -> Cell
        requires { place < length self.now }
        ensures { result ≡ cell_at (reverse self.now) place }
    {
        let wide = self.wide.as_slice();
        if place < wide.len() {
            wide[place]
        } else {
            let codes = self.codes.as_slice();
            cell_of(codes[place - wide.len()])
        }
    }

    /// Returns the cell under `taken` others, if there is one: under 0 others is the top.
    pub fn under(&self, taken: usize) -> Option<Cell>
        ensures cell { result ≡ first (drop taken self.now) }
        ensures small { IfSome result (λ _. taken < 2 ^ 31) }
    {
        let depth = self.len();
        if taken < depth {
            Some(self.at(depth - 1 - taken))
        } else {
            None
        }
    }

    /// Returns the cell above `others` cells, if there is one: above 0 cells is the bottom.
    pub fn above(&self, others: usize) -> Option<Cell>
        ensures { result ≡ slice_get (reverse self.now) others }
    {
        if others < self.len() {
            Some(self.at(others))
        } else {
            None
        }
    }

    /// Removes `count` cells from the top, or all of them if there are fewer.
    pub fn cut(&mut self, count: usize)
        ensures { self.new ≡ drop count self.old }
    {
        let codes = self.codes.len();
        shorten(&mut self.codes, count);
        let more = count.saturating_sub(codes);
        if more > 0 {
            let wide = self.wide.len();
            self.wide.truncate(wide.saturating_sub(more));
        }
    }

    /// Removes the cell at a position from the top: 0 is the top.
    pub fn remove(&mut self, place: usize)
        requires { place < length self.old }
        ensures { self.new ≡ remove self.old place }
    {
        let wide = self.wide.len();
        let codes = self.codes.len();
        if place < codes {
            self.codes.remove(codes - 1 - place);
        } else {
            self.wide.remove(wide + codes - 1 - place);
        }
    }

    /// Removes all cells.
    pub fn clear(&mut self)
        ensures { self.new ≡ [] }
    {
        self.wide.clear();
        self.codes.clear();
    }

    /// Returns the allocator from which the stack has its memory.
    pub(crate) fn allocator(&self) -> Global {
        *self.codes.allocator()
    }

    /// Makes a stack of the same cells.
    ///
    /// # Errors
    /// If memory runs out.
    pub fn copied(&self) -> Result<Stack, AllocError>
        ensures { IfOk result (λ copy. copy ≡ self.now) }
    {
        let alloc = *self.codes.allocator();
        let codes = self.codes.as_slice();
        let codes = if codes.len() <= INLINE_CELLS {
            SmallVec::from_slice(alloc, codes)?
        } else {
            SmallVec::from_vec(Vec::from_slice(alloc, codes)?)
        };
        let wide = if self.wide.is_empty() {
            Vec::new(alloc)
        } else {
            Vec::from_slice(alloc, self.wide.as_slice())?
        };
        Ok(Stack { wide, codes })
    }

    /// Becomes a stack of the other's cells, in the memory that it has, where that is enough.
    ///
    /// # Errors
    /// If memory runs out; then the stack's cells are unspecified.
    pub fn copy_from(&mut self, other: &Stack) -> Result<(), AllocError>
        ensures { OnOk result (self.new ≡ other.now) }
    {
        self.wide.clear();
        self.codes.clear();
        self.codes.extend_from_slice(other.codes.as_slice())?;
        // The usual case: no cell is wide.
        if other.wide.is_empty() {
            return Ok(());
        }
        self.wide.extend_from_slice(other.wide.as_slice())
    }

    /// Whether the same cells are wide in both stacks, and the codes are the same. This is found
    /// fast, and is usually true where the cells are the same.
    fn has_same_parts(&self, other: &Stack) -> bool
        ensures { IsTrue result → self.now ≡ other.now }
    {
        self.codes.len() == other.codes.len()
            && self.wide.len() == other.wide.len()
            && are_equal(self.codes.as_slice(), other.codes.as_slice())
            && cells_equal(self.wide.as_slice(), other.wide.as_slice())
    }

    /// Whether the lowest `count` cells are the same in both stacks, found cell by cell.
    fn has_same_lowest(&self, other: &Stack, count: usize) -> bool
        requires enough { count ≤ length self.now }
        requires enough_there { count ≤ length other.now }
        ensures { IsTrue result ↔
            (take count (reverse self.now) ≡ take count (reverse other.now)) }
    {
        for place in 0..count {
            if !self.at(place).is_same(other.at(place)) {
                return false;
            }
        }
        true
    }

    /// Whether both stacks have `count` cells at the bottom, and the same ones.
    pub fn shares_bottom(&self, other: &Stack, count: usize) -> bool
        ensures { IsTrue result ↔ ShareBottom self.now other.now count }
    {
        if count > self.len() || count > other.len() {
            return false;
        }
        let wide = self.wide.len();
        // The usual case: equally many cells are wide in both, mostly none.
        if wide == other.wide.len() && wide <= count {
            have_same_front(self.codes.as_slice(), other.codes.as_slice(), count - wide)
                && cells_equal(self.wide.as_slice(), other.wide.as_slice())
        } else {
            self.has_same_lowest(other, count)
        }
    }

    /// Whether the cells are the same.
    pub fn is_same(&self, other: &Stack) -> bool
        ensures { IsTrue result ↔ (self.now ≡ other.now) }
    {
        self.len() == other.len() && self.shares_bottom(other, self.len())
    }

    /// Whether each cell is below the one at the same position of the other stack, which is as
    /// deep, found cell by cell.
    fn places_below(&self, other: &Stack) -> bool
        requires { length self.now ≡ length other.now }
        ensures { IsTrue result ↔ StackBelow self.now other.now }
    {
        for place in 0..self.len() {
            if !self.at(place).below(&other.at(place)) {
                return false;
            }
        }
        true
    }

    /// Whether each cell is below the one at the same position of the other stack, which is as
    /// deep.
    fn partners_below(&self, other: &Stack) -> bool
        requires { length self.now ≡ length other.now }
        ensures { IsTrue result ↔ StackBelow self.now other.now }
    {
        if self.wide.is_empty() && other.wide.is_empty() {
            are_below(self.codes.as_slice(), other.codes.as_slice())
        } else {
            self.places_below(other)
        }
    }

    /// Replaces the cell at a position from the bottom by its join with another cell: the least
    /// cell above both.
    fn join_at(&mut self, place: usize, other: Cell)
        requires { place < length self.old }
        ensures depth { length self.new ≡ length self.old }
        ensures cell { IsLeastCell (cell_at (reverse self.old) place) other
            (cell_at (reverse self.new) place) }
        ensures others { (k : ℕ) → k ≢ place
            → cell_at (reverse self.new) k ≡ cell_at (reverse self.old) k }
    {
        let wide = self.wide.len();
        if place < wide {
            self.wide[place] = self.wide[place].joined(other);
        } else {
            let codes = self.codes.as_mut_slice();
            codes[place - wide] = joined(codes[place - wide], other);
        }
    }

    /// Becomes the least stack above both, which is made cell by cell.
    fn join_places(&mut self, other: &Stack)
        requires { length self.old ≡ length other.now }
        ensures { IsLeastAbove stack_order self.old other.now self.new }
    {
        for place in 0..self.len() {
            self.join_at(place, other.at(place));
        }
    }

    /// Becomes the least stack above both. Takes no memory.
    pub fn raise(&mut self, other: &Stack)
        requires { length self.old ≡ length other.now }
        ensures { IsLeastAbove stack_order self.old other.now self.new }
    {
        if self.wide.is_empty() && other.wide.is_empty() {
            join_codes(self.codes.as_mut_slice(), other.codes.as_slice());
        } else {
            self.join_places(other);
        }
    }
}

impl Order for Stack {
    ghost use Rattle.tt_abs.specs.Stacks.{stack_order};
    ghost use Rattle.tt_abs.specs.StackLaws.{stack_laws};

    ghost order = { stack_order };

    fn below(&self, other: &Stack) -> bool {
        self.len() == other.len() && (self.has_same_parts(other) || self.partners_below(other))
    }

    fn join(&mut self, other: &Stack) -> Result<bool, DepthMismatch> {
        if self.len() != other.len() {
            return Err(DepthMismatch);
        }
        let changed = !other.below(self);
        if changed {
            self.raise(other);
        }
        Ok(changed)
    }

    ghost laws = { stack_laws };
}
