//! Stacks, each read after another one. Mostly the lowest cells are those of the one before: they
//! are recognized by their text, and stay in the state.

ghost use Rattle.std.specs.Prelude.{◌≡◌, ◌<◌, ◌≤◌, ◌++◌, List, [], true, length, reverse, Ok, IfErr, OnOk};
ghost use Rattle.std.specs.Io.{StartsWith};
ghost use Rattle.tt_abs.specs.declared.cells.Cell.{Cell as AnyCell};
ghost use Rattle.tt_stream.specs.Reads.{ConsumesBeginning};
ghost use Rattle.tt_cert.specs.Answers.{CountsRead, IsReadFault};
ghost use Rattle.tt_cert.specs.Representation.Blocks.{ReadsCells, ReadsMoreCells, cells_at, cells_up_to};
ghost use Rattle.tt_cert.specs.Reading.{stack_at};
ghost use Rattle.tt_cert.specs.Representation.Clauses.{ReadsInto, StopsWhole};
ghost use Rattle.tt_cert.specs.Representation.KeptTexts.{AreWithin, IsStackText};
ghost use Rattle.tt_cert.specs.Representation.SharedCells.{AreAhead, IsStackKept};

use crate::lists::{BLOCK, read_cell_block, take_ahead_cells};
use crate::stack_text::StackText;
use crate::units::read_word;
use std::alloc::{AllocError, Global};
use tt_abs::{Cell, State};
use tt_setting::CertFault;
use tt_stream::Source;

/// How many cells fewer the second guess has than the first. From each guess to the next the
/// difference doubles.
const FEWER: usize = 8;

/// The stack that was read last.
pub(crate) struct LastStack {
    pub(crate) text: StackText,
    /// Cells that were read because they aren't those of the stack before, and weren't read ahead.
    /// The next ones are read in their memory.
    read: Vec<Cell>,
}

// Written out, so that who holds a stack that was read proves in one step that its memory is given back.
impl Drop for LastStack {
    fn drop(self) {
        let LastStack { text, read } = self;
        drop(text);
        drop(read);
    }
}

impl LastStack {
    /// Makes the empty stack.
    pub(crate) fn new(alloc: Global) -> Self
        ensures { IsStackText result.text [] }
    {
        LastStack {
            text: StackText::new(alloc),
            read: Vec::new(alloc),
        }
    }
}

/// Whether the bytes begin with that text, which is compared at once.
fn begins_with(bytes: &[u8], text: &[u8]) -> bool
    ensures { result ≡ true → StartsWith bytes.now text.now }
{
    if bytes.len() < text.len() {
        return false;
    }
    let front = &bytes[..text.len()];
    front == text
}

/// Returns how many of the lowest cells, at most `most`, have their texts next in what is read
/// ahead. Few guesses are made, each by one comparison: so it may find fewer than there are.
fn count_ahead(text: &StackText, ahead: &[u8], most: usize) -> usize
    requires { AreWithin text.now.cells.items text.now.ends.items }
    ensures { AreAhead text.now.cells.items text.now.ends.items ahead.now most result }
{
    let mut count = most.min(text.ends.len());
    let mut fewer = FEWER;
    'guesses: while count > 0 {
        if begins_with(ahead, &text.cells[..text.width(count)]) {
            return count;
        }
        count = count.saturating_sub(fewer);
        fewer = fewer.saturating_mul(2);
    }
    0
}

/// Takes the texts of the lowest cells, at most `count`, where they are read ahead. These cells
/// stay in the state, and their text is kept. Returns the place after it.
fn take_shared<S: Source>(
    source: &mut S,
    place: u64,
    count: usize,
    state: &mut State,
    text: &mut StackText,
) -> u64
    requires { IsStackKept text.old state.old }
    ensures reads { ReadsMoreCells (Ok result) (S.remaining source.old) (S.remaining source.new)
        [] (reverse state.new.stack) place count }
    ensures few { length state.new.stack ≤ count }
    ensures others { state.new ≡ record state.old { stack = state.new.stack } }
    ensures kept { IsStackKept text.new state.new }
    ensures beginning { ConsumesBeginning (S.remaining source.old) (S.remaining source.new) }
    ensures failures { S.failures source.new ≡ S.failures source.old }
{
    let shared = count_ahead(text, source.ahead(), count);
    let width = text.width(shared);
    source.skip(width);
    text.cut(shared);
    state.cut_stack(state.depth() - shared);
    place.saturating_add(width as u64)
}

/// Appends the texts of cells that come after those whose texts are kept.
fn keep_cells(text: &mut StackText, cells: &[Cell]) -> Result<(), AllocError>
    ensures { (before : List AnyCell) → IsStackText text.old before
        → OnOk result (IsStackText text.new (before ++ cells.now)) }
{
    text.ends.reserve(cells.len())?;
    for cell in cells {
        text.push(*cell)?;
    }
    Ok(())
}

/// Takes cells that come next and are whole in what is read ahead, so that the state has at most
/// `count`, and puts them on its stack, whose text is kept. Returns the place after them.
fn take_new<S: Source>(
    source: &mut S,
    place: u64,
    count: usize,
    state: &mut State,
    text: &mut StackText,
) -> Result<u64, CertFault>
    requires kept { IsStackKept text.old state.old }
    requires few { length state.old.stack ≤ count }
    requires room { count ≤ 65535 }
    ensures reads { ReadsMoreCells result (S.remaining source.old) (S.remaining source.new)
        (reverse state.old.stack) (reverse state.new.stack) place count }
    ensures others { OnOk result (state.new ≡ record state.old { stack = state.new.stack }) }
    ensures kept { OnOk result (IsStackKept text.new state.new) }
    ensures beginning { ConsumesBeginning (S.remaining source.old) (S.remaining source.new) }
    ensures no_read { IfErr result (λ fault. ¬ IsReadFault fault) }
    ensures failures { CountsRead result (S.failures source.old) (S.failures source.new) }
{
    let mut cells = [Cell::Unknown; BLOCK];
    let missing = count - state.depth();
    let (taken, after) = take_ahead_cells(source, place, missing, &mut cells, text)?;
    state.push_cells(&cells[..taken])?;
    Ok(after)
}

/// Reads some of the cells that come next, though they may not be read ahead, so that the state has
/// at most `count`, and puts them on its stack, whose text is kept. Returns the place after them.
#[cold]
#[inline(never)]
fn fetch_new<S: Source>(
    source: &mut S,
    place: u64,
    count: usize,
    state: &mut State,
    last: &mut LastStack,
) -> Result<u64, CertFault>
    requires kept { IsStackKept last.old.text state.old }
    requires some { length state.old.stack < count }
    requires room { count ≤ 65535 }
    ensures reads { ReadsCells result (S.remaining source.old) (S.remaining source.new)
        (reverse state.old.stack) (reverse state.new.stack) place count }
    ensures others { OnOk result (state.new ≡ record state.old { stack = state.new.stack }) }
    ensures kept { OnOk result (IsStackKept last.new.text state.new) }
    ensures beginning { ConsumesBeginning (S.remaining source.old) (S.remaining source.new) }
    ensures stopped { StopsWhole (cells_up_to (reverse state.old.stack) count) place result
        (S.remaining source.old) (S.remaining source.new) }
    ensures failures { CountsRead result (S.failures source.old) (S.failures source.new) }
{
    last.read.clear();
    let missing = count - state.depth();
    let after = read_cell_block(source, place, missing, &mut last.read)?;
    keep_cells(&mut last.text, &last.read)?;
    state.push_cells(&last.read)?;
    Ok(after)
}

/// Reads some of the cells that come next, so that the state has at most `count`, and puts them on
/// its stack, whose text is kept. Returns the place after them.
fn read_new<S: Source>(
    source: &mut S,
    place: u64,
    count: usize,
    state: &mut State,
    last: &mut LastStack,
) -> Result<u64, CertFault>
    requires kept { IsStackKept last.old.text state.old }
    requires some { length state.old.stack < count }
    requires room { count ≤ 65535 }
    ensures reads { ReadsCells result (S.remaining source.old) (S.remaining source.new)
        (reverse state.old.stack) (reverse state.new.stack) place count }
    ensures others { OnOk result (state.new ≡ record state.old { stack = state.new.stack }) }
    ensures kept { OnOk result (IsStackKept last.new.text state.new) }
    ensures beginning { ConsumesBeginning (S.remaining source.old) (S.remaining source.new) }
    ensures stopped { StopsWhole (cells_up_to (reverse state.old.stack) count) place result
        (S.remaining source.old) (S.remaining source.new) }
    ensures failures { CountsRead result (S.failures source.old) (S.failures source.new) }
{
    let before = state.depth();
    let at = take_new(source, place, count, state, &mut last.text)?;
    if before < state.depth() {
        return Ok(at);
    }
    fetch_new(source, at, count, state, last)
}

/// Reads the `count` cells of a stack into a state, in place of the stack that the state has, whose
/// text is kept. Returns the place after them.
fn read_stack_cells<S: Source>(
    source: &mut S,
    place: u64,
    count: u16,
    state: &mut State,
    last: &mut LastStack,
) -> Result<u64, CertFault>
    requires { IsStackKept last.old.text state.old }
    ensures reads { ReadsInto (reverse state.new.stack) (cells_at [] count) place result
        (S.remaining source.old) (S.remaining source.new) }
    ensures others { OnOk result (state.new ≡ record state.old { stack = state.new.stack }) }
    ensures kept { OnOk result (IsStackKept last.new.text state.new) }
    ensures beginning { ConsumesBeginning (S.remaining source.old) (S.remaining source.new) }
    ensures stopped { StopsWhole (cells_at [] count) place result
        (S.remaining source.old) (S.remaining source.new) }
    ensures failures { CountsRead result (S.failures source.old) (S.failures source.new) }
{
    let count = usize::from(count);
    let mut at = take_shared(source, place, count, state, &mut last.text);
    'cells: while state.depth() < count {
        at = read_new(source, at, count, state, last)?;
    }
    Ok(at)
}

/// Reads a stack's cells into a state, from the bottom up, in place of the stack that the state
/// has, whose text is kept. Returns the place after them.
#[tactic(auto, unfolding(crate::specs::Reading::stack_at))]
pub(crate) fn read_stack<S: Source>(
    source: &mut S,
    place: u64,
    state: &mut State,
    last: &mut LastStack,
) -> Result<u64, CertFault>
    requires { IsStackKept last.old.text state.old }
    ensures reads { ReadsInto (reverse state.new.stack) stack_at place result
        (S.remaining source.old) (S.remaining source.new) }
    ensures others { OnOk result (state.new ≡ record state.old { stack = state.new.stack }) }
    ensures kept { OnOk result (IsStackKept last.new.text state.new) }
    ensures beginning { ConsumesBeginning (S.remaining source.old) (S.remaining source.new) }
    ensures stopped { StopsWhole stack_at place result
        (S.remaining source.old) (S.remaining source.new) }
    ensures failures { CountsRead result (S.failures source.old) (S.failures source.new) }
{
    let (count, at) = read_word(source, place)?;
    read_stack_cells(source, at, count, state, last)
}
