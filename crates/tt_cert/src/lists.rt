//! Lists of a section's states: cells of stacks, functions and storage cells.

ghost use Rattle.std.specs.Prelude.{◌≡◌, ◌+◌, ◌-◌, ◌*◌, ◌^◌, ◌<◌, ◌≤◌, List, [], ◌++◌, false, true, length, take, Ok, Err, IfErr, IfOk, OnErr, OnOk};
ghost use Rattle.std.specs.Io.KnownBytes.{Keeps};
ghost use Rattle.tt_abs.specs.declared.cells.Cell.{Cell as AnyCell};
ghost use Rattle.tt_setting.specs.Entries.{Ascends};
ghost use Rattle.tt_stream.specs.Reads.{ConsumesBeginning, ConsumesFewer};
ghost use Rattle.tt_stream.specs.Streams.{CountsFailure};
ghost use Rattle.tt_cert.specs.Answers.{CountsRead, IsReadFault, IsOutOfMemory};
ghost use Rattle.tt_cert.specs.Representation.Blocks.{AreKept, FillsOn, FillsRest, ReadsBlock, ReadsCells, ReadsMoreCells, ReadsRest, Takes, TakesCells, TakesSomeCells, cells_at, cells_up_to};
ghost use Rattle.tt_cert.specs.Representation.Clauses.{ReadsBy, ReadsInto, StopsWhole};
ghost use Rattle.tt_cert.specs.Representation.KeptTexts.{IsStackText, KeepsCut};
ghost use Rattle.tt_cert.specs.Readers.{list_at};
ghost use Rattle.tt_cert.specs.Reading.{function_at, functions_at, storage_at, stored_at};
ghost use Rattle.tt_cert.specs.Rules.{is_above, last_of};

use crate::form::Form;
use crate::stack_text::StackText;
use crate::units::{pair_of, read_cell, read_pair, read_word};
use std::alloc::Global;
use tt_abs::Cell;
use tt_setting::CertFault;
use tt_stream::{ReadFailed, Source, read_full};

/// How many bytes a function has: its number, and its body.
const FUNCTION: usize = 6;

/// How many functions, or bytes of cells, are read at a time. A state may list hundreds of each,
/// and they are most of a certificate's bytes.
pub(crate) const BLOCK: usize = 64;

/// Reads some more of the wanted bytes into the buffer in one call, after the `held` bytes that it
/// already holds, and returns how many were read.
fn read_more<S: Source>(
    source: &mut S,
    buf: &mut [u8],
    held: usize,
    wanted: usize,
) -> Result<usize, ReadFailed>
    requires some { held < wanted }
    requires room { wanted ≤ length buf.old }
    ensures fills { IfOk result (λ n. FillsOn (S.remaining source.old) (S.remaining source.new)
        held wanted n buf.old buf.new) }
    ensures beginning { ConsumesBeginning (S.remaining source.old) (S.remaining source.new) }
    ensures kept { OnErr result (Keeps (S.remaining source.old) (S.remaining source.new)) }
    ensures failures { CountsFailure result (S.failures source.old) (S.failures source.new) }
{
    source.read(&mut buf[held..wanted])
}

/// Reads until the buffer, which already holds `held` bytes, is full, or the input ends, and
/// returns how many bytes were read.
fn read_rest<S: Source>(source: &mut S, buf: &mut [u8], held: usize) -> Result<usize, ReadFailed>
    requires { held ≤ length buf.old }
    ensures rest { IfOk result (λ n. FillsRest (S.remaining source.old) (S.remaining source.new)
        held n buf.old buf.new) }
    ensures beginning { ConsumesBeginning (S.remaining source.old) (S.remaining source.new) }
    ensures few { OnErr result
        (ConsumesFewer (length buf.old - held) (S.remaining source.old) (S.remaining source.new)) }
    ensures failures { CountsFailure result (S.failures source.old) (S.failures source.new) }
{
    read_full(source, &mut buf[held..])
}

/// Takes the cells that are whole in these bytes, after those before them, and returns how many
/// bytes are left of one more.
fn take_cells(cells: &mut Vec<Cell>, place: u64, bytes: &[u8]) -> Result<usize, CertFault>
    ensures { TakesCells result cells.old.items cells.new.items place bytes.now }
{
    let mut left = bytes;
    let mut at = place;
    'cells: while let Some((tag, rest)) = left.split_first() {
        match *tag {
            0 => {
                cells.push(Cell::Unknown)?;
                at = at.saturating_add(1);
                left = rest;
            }
            1 => {
                let Some((number, after)) = rest.split_first_chunk::<4>() else {
                    return Ok(left.len());
                };
                cells.push(Cell::Known(i32::from_be_bytes(*number)))?;
                at = at.saturating_add(5);
                left = after;
            }
            _ => return Err(CertFault::Form(at)),
        }
    }
    Ok(0)
}

/// Cuts cells from the front of these bytes, as far as they are whole, at most `count` and as many
/// as there is room for: into `cells`, and where the text of each ends, after a text of `start`
/// bytes, into `ends`. Returns how many cells there are, and how many bytes they have.
fn cut_cells(
    cells: &mut [Cell; BLOCK],
    ends: &mut [usize; BLOCK],
    start: usize,
    place: u64,
    bytes: &[u8],
    count: usize,
) -> Result<(usize, usize), CertFault>
    requires room { start + length bytes.now < 2 ^ 64 }
    ensures few { IfOk result (λ r. r.0 ≤ 64) }
    ensures used { IfOk result (λ r. r.1 ≤ length bytes.now) }
    ensures takes { IfOk result (λ r.
        TakesSomeCells (Ok r.1) [] (take r.0 cells.new) place bytes.now count) }
    ensures broken { IfErr result (λ fault.
        TakesSomeCells (Err fault) [] [] place bytes.now count) }
    ensures kept { IfOk result (λ r. KeepsCut start (take r.1 bytes.now)
        (take r.0 ends.new) (take r.0 cells.new)) }
{
    let most = count.min(BLOCK);
    let mut left = bytes;
    let mut taken = 0;
    'cells: while taken < most {
        let Some((tag, rest)) = left.split_first() else {
            return Ok((taken, bytes.len() - left.len()));
        };
        match *tag {
            0 => {
                cells[taken] = Cell::Unknown;
                ends[taken] = start + (bytes.len() - rest.len());
                left = rest;
            }
            1 => {
                let Some((number, after)) = rest.split_first_chunk::<4>() else {
                    return Ok((taken, bytes.len() - left.len()));
                };
                cells[taken] = Cell::Known(i32::from_be_bytes(*number));
                ends[taken] = start + (bytes.len() - after.len());
                left = after;
            }
            _ => {
                let broken = bytes.len() - left.len();
                return Err(CertFault::Form(place.saturating_add(broken as u64)));
            }
        }
        taken += 1;
    }
    Ok((taken, bytes.len() - left.len()))
}

/// Takes cells that are read ahead, as far as they are whole, at most `count` and as many as there
/// is room for, and appends their texts to the text. Returns how many there are, and the place
/// after them.
pub(crate) fn take_ahead_cells<S: Source>(
    source: &mut S,
    place: u64,
    count: usize,
    cells: &mut [Cell; BLOCK],
    text: &mut StackText,
) -> Result<(usize, u64), CertFault>
    ensures few { IfOk result (λ r. r.0 ≤ 64) }
    ensures reads { IfOk result (λ r. ReadsMoreCells (Ok r.1)
        (S.remaining source.old) (S.remaining source.new) [] (take r.0 cells.new) place count) }
    ensures broken { IfErr result (λ fault. ReadsMoreCells (Err fault)
        (S.remaining source.old) (S.remaining source.new) [] [] place count) }
    ensures kept { (below : List AnyCell) → IsStackText text.old below
        → IfOk result (λ r. IsStackText text.new (below ++ take r.0 cells.new)) }
    ensures beginning { ConsumesBeginning (S.remaining source.old) (S.remaining source.new) }
    ensures no_read { IfErr result (λ fault. ¬ IsReadFault fault) }
    ensures failures { CountsRead result (S.failures source.old) (S.failures source.new) }
{
    let mut ends = [0; BLOCK];
    let ahead = source.ahead();
    let (taken, used) = cut_cells(cells, &mut ends, text.cells.len(), place, ahead, count)?;
    text.cells.extend_from_slice(&ahead[..used])?;
    text.ends.extend_from_slice(&ends[..taken])?;
    source.skip(used);
    Ok((taken, place.saturating_add(used as u64)))
}

/// Reads the rest of a known cell, of which the tag and the first bytes of the number, `begun`,
/// were read already, and returns the place after it.
fn read_rest_of_cell<S: Source>(
    source: &mut S,
    place: u64,
    begun: &[u8],
    cells: &mut Vec<Cell>,
) -> Result<u64, CertFault>
    requires { length begun.now ≤ 4 }
    ensures reads { ReadsRest result (S.remaining source.old) (S.remaining source.new)
        begun.now cells.old.items cells.new.items place }
    ensures beginning { ConsumesBeginning (S.remaining source.old) (S.remaining source.new) }
    ensures few { IfErr result (λ fault. IsReadFault fault
        → ConsumesFewer (4 - length begun.now) (S.remaining source.old) (S.remaining source.new)) }
    ensures failures { CountsRead result (S.failures source.old) (S.failures source.new) }
{
    let held = begun.len();
    let mut number = [0u8; 4];
    number[..held].copy_from_slice(begun);
    let more = read_rest(source, &mut number, held)?;
    let after = place.saturating_add(1 + held as u64 + more as u64);
    if held + more < 4 {
        return Err(CertFault::Form(after));
    }
    cells.push(Cell::Known(i32::from_be_bytes(number)))?;
    Ok(after)
}

/// Reads one more cell after those before it, and returns the place after it.
fn read_one_cell<S: Source>(
    source: &mut S,
    place: u64,
    count: usize,
    cells: &mut Vec<Cell>,
) -> Result<u64, CertFault>
    requires { length cells.old.items < count }
    ensures reads { ReadsCells result (S.remaining source.old) (S.remaining source.new)
        cells.old.items cells.new.items place count }
    ensures beginning { ConsumesBeginning (S.remaining source.old) (S.remaining source.new) }
    ensures stopped { StopsWhole (cells_up_to cells.old.items count) place result
        (S.remaining source.old) (S.remaining source.new) }
    ensures failures { CountsRead result (S.failures source.old) (S.failures source.new) }
{
    let (cell, after) = read_cell(source, place)?;
    cells.push(cell)?;
    Ok(after)
}

/// Reads some cells at once, after those before them, so that there are at most `count` in all, and
/// returns the place after them. Each cell has at least one byte: so as many bytes are read as
/// cells are missing, at most `BLOCK`, and then the rest of the last cell. The source isn't called
/// again once a tag is read that breaks a rule.
fn fetch_cell_block<S: Source>(
    source: &mut S,
    place: u64,
    count: usize,
    cells: &mut Vec<Cell>,
) -> Result<u64, CertFault>
    requires { length cells.old.items < count }
    ensures reads { ReadsCells result (S.remaining source.old) (S.remaining source.new)
        cells.old.items cells.new.items place count }
    ensures beginning { ConsumesBeginning (S.remaining source.old) (S.remaining source.new) }
    ensures stopped { StopsWhole (cells_up_to cells.old.items count) place result
        (S.remaining source.old) (S.remaining source.new) }
    ensures failures { CountsRead result (S.failures source.old) (S.failures source.new) }
{
    let mut bytes = [0u8; BLOCK];
    let wanted = (count - cells.len()).min(BLOCK);
    let mut filled = 0;
    let mut taken = 0;
    'fill: while filled < wanted {
        let more = read_more(source, &mut bytes, filled, wanted)?;
        filled += more;
        let at = place.saturating_add(taken as u64);
        if more == 0 {
            return Err(CertFault::Form(place.saturating_add(filled as u64)));
        }
        let over = take_cells(cells, at, &bytes[taken..filled])?;
        taken = filled - over;
    }
    let after = place.saturating_add(taken as u64);
    if taken == filled {
        return Ok(after);
    }
    read_rest_of_cell(source, after, &bytes[taken + 1..filled], cells)
}

/// Reads some cells, after those before them, so that there are at most `count` in all, and returns
/// the place after them: where bytes are read ahead, one cell, and otherwise some at once.
pub(crate) fn read_cell_block<S: Source>(
    source: &mut S,
    place: u64,
    count: usize,
    cells: &mut Vec<Cell>,
) -> Result<u64, CertFault>
    requires { length cells.old.items < count }
    ensures reads { ReadsCells result (S.remaining source.old) (S.remaining source.new)
        cells.old.items cells.new.items place count }
    ensures beginning { ConsumesBeginning (S.remaining source.old) (S.remaining source.new) }
    ensures stopped { StopsWhole (cells_up_to cells.old.items count) place result
        (S.remaining source.old) (S.remaining source.new) }
    ensures failures { CountsRead result (S.failures source.old) (S.failures source.new) }
{
    if source.ahead().is_empty() {
        return fetch_cell_block(source, place, count, cells);
    }
    read_one_cell(source, place, count, cells)
}

/// Whether the function may come after these.
fn is_next(functions: &[(u16, u32)], function: (u16, u32)) -> bool
    ensures { result ≡ is_above (last_of functions.now) function }
{
    match functions.last() {
        Some(last) => last.0 < function.0,
        None => true,
    }
}

/// Takes the functions that are whole in these bytes, after those before them, and returns how many
/// bytes are left of one more.
fn take_functions(
    functions: &mut Vec<(u16, u32)>,
    place: u64,
    bytes: &[u8],
) -> Result<usize, CertFault>
    ensures takes { Takes result functions.old.items functions.new.items place bytes.now }
    ensures ascends { Ascends functions.old.items → OnOk result (Ascends functions.new.items) }
{
    functions.reserve(bytes.len() / FUNCTION)?;
    let mut left = bytes;
    let mut at = place;
    'functions: while let Some((unit, rest)) = left.split_first_chunk::<FUNCTION>() {
        let function = pair_of(*unit);
        if !is_next(functions, function) {
            return Err(CertFault::Form(at));
        }
        functions.push(function)?;
        at = at.saturating_add(FUNCTION as u64);
        left = rest;
    }
    Ok(left.len())
}

/// Reads this many functions at once, after those before them, and returns the place after them.
/// The source isn't called again once a function is read that breaks a rule.
fn fetch_function_block<S: Source>(
    source: &mut S,
    place: u64,
    count: usize,
    functions: &mut Vec<(u16, u32)>,
) -> Result<u64, CertFault>
    requires { count ≤ 64 }
    ensures reads { ReadsBlock result (S.remaining source.old) (S.remaining source.new)
        functions.old.items functions.new.items place count }
    ensures ascends { Ascends functions.old.items → OnOk result (Ascends functions.new.items) }
    ensures beginning { ConsumesBeginning (S.remaining source.old) (S.remaining source.new) }
    ensures stopped { StopsWhole (list_at function_at functions.old.items count) place result
        (S.remaining source.old) (S.remaining source.new) }
    ensures failures { CountsRead result (S.failures source.old) (S.failures source.new) }
{
    let mut bytes = [0u8; FUNCTION * BLOCK];
    let wanted = FUNCTION * count;
    let mut filled = 0;
    let mut taken = 0;
    'fill: while filled < wanted {
        let more = read_more(source, &mut bytes, filled, wanted)?;
        filled += more;
        let at = place.saturating_add(taken as u64);
        if more == 0 {
            return Err(CertFault::Form(place.saturating_add(filled as u64)));
        }
        let over = take_functions(functions, at, &bytes[taken..filled])?;
        taken = filled - over;
    }
    Ok(place.saturating_add(taken as u64))
}

/// Reads this many functions, after those before them, and returns the place after them: at once,
/// where all of them are read ahead.
fn read_function_block<S: Source>(
    source: &mut S,
    place: u64,
    count: usize,
    functions: &mut Vec<(u16, u32)>,
) -> Result<u64, CertFault>
    requires { count ≤ 64 }
    ensures reads { ReadsBlock result (S.remaining source.old) (S.remaining source.new)
        functions.old.items functions.new.items place count }
    ensures ascends { Ascends functions.old.items → OnOk result (Ascends functions.new.items) }
    ensures beginning { ConsumesBeginning (S.remaining source.old) (S.remaining source.new) }
    ensures stopped { StopsWhole (list_at function_at functions.old.items count) place result
        (S.remaining source.old) (S.remaining source.new) }
    ensures failures { CountsRead result (S.failures source.old) (S.failures source.new) }
{
    let width = FUNCTION * count;
    let ahead = source.ahead();
    if ahead.len() < width {
        return fetch_function_block(source, place, count, functions);
    }
    let _over = take_functions(functions, place, &ahead[..width])?;
    source.skip(width);
    Ok(place.saturating_add(width as u64))
}

/// Reads this many functions, in place of those in the list.
fn read_function_list<S: Source>(
    source: &mut S,
    place: u64,
    count: u16,
    functions: &mut Vec<(u16, u32)>,
) -> Result<u64, CertFault>
    ensures reads { ReadsInto functions.new.items (list_at function_at [] count) place result
        (S.remaining source.old) (S.remaining source.new) }
    ensures ascends { OnOk result (Ascends functions.new.items) }
    ensures beginning { ConsumesBeginning (S.remaining source.old) (S.remaining source.new) }
    ensures stopped { StopsWhole (list_at function_at [] count) place result
        (S.remaining source.old) (S.remaining source.new) }
    ensures failures { CountsRead result (S.failures source.old) (S.failures source.new) }
{
    functions.clear();
    let mut at = place;
    let mut left = usize::from(count);
    'blocks: while left > 0 {
        let block = left.min(BLOCK);
        at = read_function_block(source, at, block, functions)?;
        left -= block;
    }
    Ok(at)
}

/// Functions that were read, and their text where it was kept. Most lists are the same as the one
/// of the state before.
pub(crate) struct Functions {
    pub(crate) list: Vec<(u16, u32)>,
    pub(crate) text: Vec<u8>,
    /// Whether they were found to be the same as those of the state before.
    pub(crate) is_same: bool,
}

// Written out, so that who holds functions proves in one step that its memory is given back.
impl Drop for Functions {
    fn drop(self) {
        let Functions {
            list,
            text,
            is_same: _,
        } = self;
        drop(list);
        drop(text);
    }
}

impl Functions {
    /// Makes the list without functions.
    pub(crate) fn new(alloc: Global) -> Self
        ensures kept { AreKept result.text.items result.list.items }
        ensures none { result.list.items ≡ [] }
    {
        Functions {
            list: Vec::new(alloc),
            text: Vec::new(alloc),
            is_same: false,
        }
    }
}

/// Whether this text has `width` bytes, at least one, and is what is read ahead next.
fn is_ahead<S: Source>(source: &S, text: &[u8], width: usize) -> bool
    ensures some { result ≡ true → 0 < width }
    ensures long { result ≡ true → length text.now ≡ width }
    ensures there { result ≡ true → width ≤ length (S.read_ahead source.now) }
    ensures same { result ≡ true → take width (S.read_ahead source.now) ≡ text.now }
{
    let ahead = source.ahead();
    if width == 0 || text.len() != width || ahead.len() < width {
        return false;
    }
    let front = &ahead[..width];
    front == text
}

/// Reads this many functions, in place of the others: at once, where all of them are read ahead.
/// Their text is kept then.
fn read_others<S: Source>(
    source: &mut S,
    place: u64,
    count: u16,
    functions: &mut Functions,
) -> Result<u64, CertFault>
    ensures reads { ReadsInto functions.new.list.items (list_at function_at [] count) place result
        (S.remaining source.old) (S.remaining source.new) }
    ensures kept { OnOk result (AreKept functions.new.text.items functions.new.list.items) }
    ensures fresh { OnOk result (functions.new.is_same ≡ false) }
    ensures beginning { ConsumesBeginning (S.remaining source.old) (S.remaining source.new) }
    ensures stopped { StopsWhole (list_at function_at [] count) place result
        (S.remaining source.old) (S.remaining source.new) }
    ensures failures { CountsRead result (S.failures source.old) (S.failures source.new) }
{
    functions.is_same = false;
    functions.list.clear();
    functions.text.clear();
    let width = FUNCTION * usize::from(count);
    let ahead = source.ahead();
    if ahead.len() < width {
        return read_function_list(source, place, count, &mut functions.list);
    }
    let bytes = &ahead[..width];
    let _over = take_functions(&mut functions.list, place, bytes)?;
    functions.text.extend_from_slice(bytes)?;
    source.skip(width);
    Ok(place.saturating_add(width as u64))
}

/// Reads this many functions, in place of the others. Mostly they are the same.
fn read_listed<S: Source>(
    source: &mut S,
    place: u64,
    count: u16,
    functions: &mut Functions,
) -> Result<u64, CertFault>
    requires { AreKept functions.old.text.items functions.old.list.items }
    ensures reads { ReadsInto functions.new.list.items (list_at function_at [] count) place result
        (S.remaining source.old) (S.remaining source.new) }
    ensures kept { OnOk result (AreKept functions.new.text.items functions.new.list.items) }
    ensures same { OnOk result (functions.new.is_same ≡ true
        → functions.new.list.items ≡ functions.old.list.items) }
    ensures beginning { ConsumesBeginning (S.remaining source.old) (S.remaining source.new) }
    ensures stopped { StopsWhole (list_at function_at [] count) place result
        (S.remaining source.old) (S.remaining source.new) }
    ensures failures { CountsRead result (S.failures source.old) (S.failures source.new) }
{
    let width = FUNCTION * usize::from(count);
    if is_ahead(source, &functions.text, width) {
        source.skip(width);
        functions.is_same = true;
        return Ok(place.saturating_add(width as u64));
    }
    read_others(source, place, count, functions)
}

/// Reads the functions that are known, with their bodies, in place of the others. Mostly they are
/// the same.
#[tactic(auto, unfolding(crate::specs::Reading::functions_at))]
pub(crate) fn read_functions<S: Source>(
    source: &mut S,
    place: u64,
    functions: &mut Functions,
) -> Result<u64, CertFault>
    requires { AreKept functions.old.text.items functions.old.list.items }
    ensures reads { ReadsInto functions.new.list.items functions_at place result
        (S.remaining source.old) (S.remaining source.new) }
    ensures kept { OnOk result (AreKept functions.new.text.items functions.new.list.items) }
    ensures same { OnOk result (functions.new.is_same ≡ true
        → functions.new.list.items ≡ functions.old.list.items) }
    ensures beginning { ConsumesBeginning (S.remaining source.old) (S.remaining source.new) }
    ensures stopped { StopsWhole functions_at place result
        (S.remaining source.old) (S.remaining source.new) }
    ensures failures { CountsRead result (S.failures source.old) (S.failures source.new) }
{
    let (count, at) = read_word(source, place)?;
    read_listed(source, at, count, functions)
}

/// Reads a storage cell with its number, after those before it.
#[tactic(auto, unfolding(crate::specs::Reading::stored_at))]
fn read_stored<S: Source>(
    source: &mut S,
    place: u64,
    before: &[(u16, i32)],
) -> Result<((u16, i32), u64), CertFault>
    ensures reads { ReadsBy (stored_at before.now) place result
        (S.remaining source.old) (S.remaining source.new) }
    ensures above { IfOk result (λ r. is_above (last_of before.now) r.0 ≡ true) }
    ensures beginning { ConsumesBeginning (S.remaining source.old) (S.remaining source.new) }
    ensures stopped { StopsWhole (stored_at before.now) place result
        (S.remaining source.old) (S.remaining source.new) }
    ensures failures { CountsRead result (S.failures source.old) (S.failures source.new) }
    ensures memory { IfErr result (λ fault. ¬ IsOutOfMemory fault) }
{
    let ((index, number), after) = read_pair(source, place)?;
    if let Some(last) = before.last()
        && index <= last.0
    {
        return Err(CertFault::Form(place));
    }
    Ok(((index, number.cast_signed()), after))
}

/// Reads this many storage cells, in place of the others.
fn read_storage_list<S: Source>(
    source: &mut S,
    place: u64,
    count: u16,
    cells: &mut Vec<(u16, i32)>,
) -> Result<u64, CertFault>
    ensures reads { ReadsInto cells.new.items (list_at stored_at [] count) place result
        (S.remaining source.old) (S.remaining source.new) }
    ensures ascends { OnOk result (Ascends cells.new.items) }
    ensures beginning { ConsumesBeginning (S.remaining source.old) (S.remaining source.new) }
    ensures stopped { StopsWhole (list_at stored_at [] count) place result
        (S.remaining source.old) (S.remaining source.new) }
    ensures failures { CountsRead result (S.failures source.old) (S.failures source.new) }
{
    cells.clear();
    let mut at = place;
    'cells: for _ in 0..count {
        let (cell, after) = read_stored(source, at, cells)?;
        cells.push(cell)?;
        at = after;
    }
    Ok(at)
}

/// Reads the storage cells that are known, with their numbers, where the form lists them, in place
/// of the others.
#[tactic(auto, unfolding(crate::specs::Reading::storage_at))]
pub(crate) fn read_storage<S: Source>(
    source: &mut S,
    place: u64,
    form: Form,
    cells: &mut Vec<(u16, i32)>,
) -> Result<u64, CertFault>
    ensures reads { ReadsInto cells.new.items (storage_at form) place result
        (S.remaining source.old) (S.remaining source.new) }
    ensures ascends { OnOk result (Ascends cells.new.items) }
    ensures beginning { ConsumesBeginning (S.remaining source.old) (S.remaining source.new) }
    ensures stopped { StopsWhole (storage_at form) place result
        (S.remaining source.old) (S.remaining source.new) }
    ensures failures { CountsRead result (S.failures source.old) (S.failures source.new) }
{
    match form {
        Form::One | Form::Two => {
            cells.clear();
            Ok(place)
        }
        Form::Three | Form::Four => {
            let (count, at) = read_word(source, place)?;
            read_storage_list(source, at, count, cells)
        }
    }
}
