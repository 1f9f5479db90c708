//! Cell codes: most cells of a stack are kept as numbers of 16 bits, so that cells are compared
//! many at a time.

ghost use Rattle.std.specs.Prelude.{◌≡◌, ℕ, ◌<◌, ◌≤◌, ◌↔◌, ◌+◌, ◌++◌, [], ◌∷◌, IsTrue, MatchOption, take, length, map, pos, vec_len, vec_capacity};
ghost use Rattle.smallvec.specs.SmallVec.{HasRoomFor, small_vec_len};
ghost use Rattle.tt_abs.specs.declared.cells.Cell.TheVariants.{Known};
ghost use Rattle.tt_abs.specs.CellOrders.{CellBelow, CellInRange};
ghost use Rattle.tt_abs.specs.Representation.Codes.{AreLeastCodes, HasNoCode, cell_of_code, cells_of};
ghost use Rattle.tt_abs.specs.Stacks.{IsLeastCell, StackBelow, cell_at};

use crate::cells::Cell;
use smallvec::SmallVec;

/// How many codes need no allocation.
pub const INLINE_CELLS: usize = 32;

/// How many codes are made at a time.
const BLOCK: usize = 64;

/// The codes of cells, the bottom first.
pub type Codes = SmallVec<u16, INLINE_CELLS>;

/// The code of an unknown cell. Each other code is its cell's number in two's complement.
pub const UNKNOWN: u16 = 0x8000;

/// Returns the code of the cell, if it has one. A known cell has none if its number isn't from
/// -32,767 to 32,767.
pub fn code_of(cell: Cell) -> Option<u16>
    ensures { MatchOption result (HasNoCode cell) (λ code. cell_of_code code ≡ cell) }
{
    match cell {
        Cell::Known(number) if -32_768 < number && number < 32_768 => {
            Some((number as i16).cast_unsigned())
        }
        Cell::Known(_) => None,
        Cell::Unknown => Some(UNKNOWN),
    }
}

/// Returns the cell of the code.
pub fn cell_of(code: u16) -> Cell
    ensures { result ≡ cell_of_code code }
{
    if code == UNKNOWN {
        Cell::Unknown
    } else {
        Cell::Known(i32::from(code.cast_signed()))
    }
}

/// Whether each code is the same as the one at the same position of the other list. Compares bits
/// only, so that the compiler can turn the loop into vector instructions.
pub fn are_equal(mine: &[u16], theirs: &[u16]) -> bool
    requires { length mine.now ≡ length theirs.now }
    ensures { IsTrue result ↔ (mine.now ≡ theirs.now) }
{
    let mut difference = 0;
    for i in 0..mine.len() {
        difference |= mine[i] ^ theirs[i];
    }
    difference == 0
}

/// Whether the second code's cell covers whatever the first one's covers.
fn is_below(mine: u16, theirs: u16) -> bool
    ensures { IsTrue result ↔ CellBelow (cell_of_code mine) (cell_of_code theirs) }
{
    (mine == theirs) | (theirs == UNKNOWN)
}

/// Whether each code's cell is below that of the code at the same position of the other list, which
/// is as long.
pub fn are_below(mine: &[u16], theirs: &[u16]) -> bool
    requires { length mine.now ≡ length theirs.now }
    ensures { IsTrue result ↔ StackBelow (cells_of mine.now) (cells_of theirs.now) }
{
    let mut all = true;
    for i in 0..mine.len() {
        all = all & is_below(mine[i], theirs[i]);
    }
    all
}

/// Returns the code of the least cell above two cells, the first of which is given by its code.
pub fn joined(mine: u16, theirs: Cell) -> u16
    ensures { IsLeastCell (cell_of_code mine) theirs (cell_of_code result) }
{
    if cell_of(mine).is_same(theirs) {
        mine
    } else {
        UNKNOWN
    }
}

/// Returns the code of the least cell above the cells of two codes.
fn joined_code(mine: u16, theirs: u16) -> u16
    ensures { IsLeastCell (cell_of_code mine) (cell_of_code theirs) (cell_of_code result) }
{
    if mine == theirs { mine } else { UNKNOWN }
}

/// Makes each code that of the least cell above two: its own cell, and that of the code at the same
/// position of the other list, which is as long.
pub fn join_codes(mine: &mut [u16], theirs: &[u16])
    requires { length mine.old ≡ length theirs.now }
    ensures { AreLeastCodes mine.old theirs.now mine.new }
{
    for i in 0..mine.len() {
        mine[i] = joined_code(mine[i], theirs[i]);
    }
}

/// Appends the code of a byte's number, for which there is room.
fn append(codes: &mut Codes, byte: u8)
    requires { HasRoomFor codes.old 1 }
    ensures cells { cells_of codes.new.items ≡ cells_of codes.old.items ++ Known (pos byte) ∷ [] }
    ensures len { small_vec_len codes.new ≡ small_vec_len codes.old + 1 }
    ensures capacity { codes.new.capacity ≡ codes.old.capacity }
{
    codes.push_reserved(u16::from(byte));
}

/// Appends the codes of bytes' numbers, for which there is room.
pub fn append_bytes(codes: &mut Codes, bytes: &[u8])
    requires { HasRoomFor codes.old (length bytes.now) }
    ensures cells { cells_of codes.new.items
        ≡ cells_of codes.old.items ++ map Known (map pos bytes.now) }
    ensures len { small_vec_len codes.new ≡ small_vec_len codes.old + length bytes.now }
{
    for byte in bytes {
        append(codes, *byte);
    }
}

/// Sets the first places to the codes of the first cells, as many as there is room for, up to the
/// first cell that has none, and returns how many there are.
fn code_cells(codes: &mut [u16; BLOCK], cells: &[Cell]) -> usize
    ensures count { result ≤ length cells.now }
    ensures few { result ≤ 64 }
    ensures stop { result < length cells.now → result < 64
        → HasNoCode (cell_at cells.now result) }
    ensures cells { cells_of (take result codes.new) ≡ take result cells.now }
    ensures in_range { (k : ℕ) → k < result → CellInRange (cell_at cells.now k) }
{
    let most = cells.len().min(BLOCK);
    for i in 0..most {
        let Some(code) = code_of(cells[i]) else {
            return i;
        };
        codes[i] = code;
    }
    most
}

/// Appends codes, for which there is room.
fn append_block(codes: &mut Codes, block: &[u16])
    requires { HasRoomFor codes.old (length block.now) }
    ensures items { codes.new.items ≡ codes.old.items ++ block.now }
    ensures capacity { codes.old.capacity ≤ codes.new.capacity }
{
    match codes.extend_from_slice(block) {
        Ok(()) => {}
        // There is room for them.
        Err(_) => unreachable!(),
    }
}

/// Appends the codes of cells, for which there is room, up to the first cell that has none, and
/// returns how many codes were appended. They are made many at a time, and then copied at once.
pub fn append_codes(codes: &mut Codes, cells: &[Cell]) -> usize
    requires { HasRoomFor codes.old (length cells.now) }
    ensures count { result ≤ length cells.now }
    ensures stop { result < length cells.now → HasNoCode (cell_at cells.now result) }
    ensures cells { cells_of codes.new.items ≡ cells_of codes.old.items ++ take result cells.now }
    ensures len { small_vec_len codes.new ≡ small_vec_len codes.old + result }
    ensures in_range { (k : ℕ) → k < result → CellInRange (cell_at cells.now k) }
{
    let mut block = [0; BLOCK];
    let mut done = 0;
    'blocks: while done < cells.len() {
        let count = code_cells(&mut block, &cells[done..]);
        append_block(codes, &block[..count]);
        done += count;
        if count < BLOCK {
            return done;
        }
    }
    done
}

/// Appends the codes' cells, for which there is room.
pub fn append_cells(cells: &mut Vec<Cell>, codes: &[u16])
    requires { vec_len cells.old + length codes.now ≤ vec_capacity cells.old }
    ensures cells { cells.new.items ≡ cells.old.items ++ cells_of codes.now }
    ensures capacity { vec_capacity cells.new ≡ vec_capacity cells.old }
{
    for code in codes {
        cells.push_reserved(cell_of(*code));
    }
}
