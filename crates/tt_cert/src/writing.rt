//! Sections written to a sink, in form 4.

ghost use Rattle.std.specs.Prelude.{◌≡◌, ◌+◌, ◌*◌, ◌++◌, ◌<◌, ◌≤◌, ◌^◌, FitsSigned, drop, length, reverse, take, true, IfOk, IfSome, IsSomeAnd, OnErr, OnOk};
ghost use Rattle.std.specs.Int.{w32};
ghost use Rattle.std.specs.Io.KnownBytes.{Appends};
ghost use Rattle.std.specs.List.{AllByRecursion, flat_map};
ghost use Rattle.std.specs.List.Sorted.{IsStrictlySortedBy};
ghost use Rattle.std.specs.Map.{keys_of};
ghost use Rattle.tt_abs.specs.States.{state_order};
ghost use Rattle.tt_family.specs.Places.{place_cmp};
ghost use Rattle.tt_family.specs.Ascending.{IsFinished};
ghost use Rattle.tt_stream.specs.Streams.{AppendsBeginning};
ghost use Rattle.tt_cert.specs.Answers.{CountsWrite};
ghost use Rattle.tt_cert.specs.Families.{HasText, family_text};
ghost use Rattle.tt_cert.specs.Representation.Clauses.{Pushes};
ghost use Rattle.tt_cert.specs.Representation.KeptTexts.{IsStackText, KeepsCut};
ghost use Rattle.tt_cert.specs.Rules.{AreCallsInTurn, CallFits, Fits, HasRoom, IsTextOf, NameFits, StateFits};
ghost use Rattle.tt_cert.specs.Sections.{contexts_in, section_of};
ghost use Rattle.tt_cert.specs.Text.{cell_text, context_text, counted, graphics_text, long, name_text, pair_text, section_text, state_text, stored_text, word, zone_text};

use crate::form::Form;
use crate::lists::BLOCK;
use crate::stack_text::{StackText, push_cell};
use std::alloc::{AllocError, Global};
use tt_abs::{Cell, State};
use tt_code::Frame;
use tt_code::kinds::{Pointer, Reference};
use tt_family::Certificate;
use tt_setting::{CertFault, Name, ZoneCell};
use tt_stream::{Sink, write_all};

/// How many bytes there is room for from the first section on: most sections have fewer.
const ROOM: usize = 16_384;

/// How many cells fewer are tried next, where the lowest cells of two states aren't all the same.
const FEWER: usize = 8;

/// The texts of a state's lists, kept for the next state.
struct KeptTexts {
    /// How many functions there are, and then each of them.
    functions: Vec<u8>,
    /// The cells of the stack.
    stack: StackText,
}

// Written out, so that who holds texts proves in one step that its memory is given back.
impl Drop for KeptTexts {
    fn drop(self) {
        let KeptTexts { functions, stack } = self;
        drop(functions);
        drop(stack);
    }
}

/// Appends the kind of a program, and its glyph.
fn push_name(out: &mut Vec<u8>, name: Name) -> Result<(), AllocError>
    ensures written { Pushes (name_text name) result out.old.items out.new.items }
    ensures fits { NameFits name }
{
    let (kind, glyph) = match name {
        Name::Font => (0, 0u16),
        Name::Cvt => (1, 0),
        Name::Glyph(id) => (2, id),
    };
    let [high, low] = glyph.to_be_bytes();
    out.extend_from_slice(&[kind, high, low])
}

/// Appends a number of 16 bits.
fn push_word(out: &mut Vec<u8>, number: u16) -> Result<(), AllocError>
    ensures written { Pushes (word number) result out.old.items out.new.items }
    ensures fits { number < 2 ^ 16 }
{
    out.extend_from_slice(&number.to_be_bytes())
}

/// Appends a number of 32 bits.
fn push_long(out: &mut Vec<u8>, number: u32) -> Result<(), AllocError>
    ensures written { Pushes (long number) result out.old.items out.new.items }
    ensures fits { number < 2 ^ 32 }
{
    out.extend_from_slice(&number.to_be_bytes())
}

/// Appends a number of 16 bits and one of 32.
fn push_pair(out: &mut Vec<u8>, pair: (u16, u32)) -> Result<(), AllocError>
    ensures written { Pushes (pair_text pair) result out.old.items out.new.items }
    ensures fits { OnOk result ((pair.0 < 2 ^ 16) × (pair.1 < 2 ^ 32)) }
{
    let [w1, w0] = pair.0.to_be_bytes();
    let [l3, l2, l1, l0] = pair.1.to_be_bytes();
    out.extend_from_slice(&[w1, w0, l3, l2, l1, l0])
}

/// Appends what is known of a zone pointer, as a byte.
fn push_zone(out: &mut Vec<u8>, zone: ZoneCell) -> Result<(), AllocError>
    ensures { Pushes (zone_text zone) result out.old.items out.new.items }
{
    let byte = match zone {
        ZoneCell::Zero => 0,
        ZoneCell::One => 1,
        ZoneCell::Either => 2,
    };
    out.push(byte)?;
    Ok(())
}

/// Appends how many values a list has. The format has no room for 65,536 or more, which is reported
/// as out of memory.
fn push_count(out: &mut Vec<u8>, count: usize) -> Result<(), AllocError>
    ensures written { Pushes (word count) result out.old.items out.new.items }
    ensures few { OnOk result (count < 2 ^ 16) }
{
    let Ok(count) = u16::try_from(count) else {
        return Err(AllocError);
    };
    push_word(out, count)
}

/// Keeps the text of the lowest cells that are found to be the same in the state before and in this
/// one, and returns how many there are.
fn keep_shared(text: &mut StackText, before: Option<&State>, state: &State) -> usize
    requires text { IfSome before (λ s. IsStackText text.old (reverse s.now.stack)) }
    requires few { length state.now.stack < 2 ^ 16 }
    ensures { IsStackText text.new (take result (reverse state.now.stack)) }
{
    let Some(before) = before else {
        text.clear();
        return 0;
    };
    let shared = shared_depth(before, state);
    text.cut(shared);
    shared
}

/// Spells a cell from the place `start` on, and returns where its text ends.
#[inline]
fn spell_cell(bytes: &mut [u8; 5 * BLOCK], start: usize, cell: Cell) -> usize
    requires { start + 5 ≤ 320 }
    ensures few { result ≤ start + 5 }
    ensures spelled { take result bytes.new ≡ take start bytes.old ++ cell_text cell }
{
    match cell {
        Cell::Unknown => {
            bytes[start] = 0;
            start + 1
        }
        Cell::Known(number) => {
            let [b3, b2, b1, b0] = number.to_be_bytes();
            bytes[start] = 1;
            bytes[start + 1] = b3;
            bytes[start + 2] = b2;
            bytes[start + 3] = b1;
            bytes[start + 4] = b0;
            start + 5
        }
    }
}

/// Spells `count` cells of a stack, after the `from` lowest ones: sets the first bytes to their
/// texts, and the first ends to where these end after a text of `start` bytes. Returns how many
/// bytes they have.
fn spell_cells(
    bytes: &mut [u8; 5 * BLOCK],
    ends: &mut [usize; BLOCK],
    start: usize,
    state: &State,
    from: usize,
    count: usize,
) -> usize
    requires there { from + count ≤ length state.now.stack }
    requires small { length state.now.stack < 2 ^ 16 }
    requires few { count ≤ 64 }
    requires room { start + 320 < 2 ^ 64 }
    ensures few { result ≤ 5 * count }
    ensures spelled { KeepsCut start (take result bytes.new) (take count ends.new)
        (take count (drop from (reverse state.now.stack))) }
{
    let mut used = 0;
    for i in 0..count {
        let cell = state.cell(from + i).unwrap();
        used = spell_cell(bytes, used, cell);
        ends[i] = start + used;
    }
    used
}

/// Appends the texts of some of a stack's cells after the `place` lowest ones, whose text is there.
/// Returns of how many cells the text is there then.
fn push_some(text: &mut StackText, state: &State, place: usize) -> Result<usize, AllocError>
    requires some { place < length state.now.stack }
    requires small { length state.now.stack < 2 ^ 16 }
    requires text { IsStackText text.old (take place (reverse state.now.stack)) }
    ensures more { IfOk result (λ now. place < now) }
    ensures few { IfOk result (λ now. now ≤ length state.now.stack) }
    ensures text { IfOk result (λ now.
        IsStackText text.new (take now (reverse state.now.stack))) }
{
    let mut bytes = [0; 5 * BLOCK];
    let mut ends = [0; BLOCK];
    let count = (state.depth() - place).min(BLOCK);
    let used = spell_cells(&mut bytes, &mut ends, text.cells.len(), state, place, count);
    text.cells.extend_from_slice(&bytes[..used])?;
    text.ends.extend_from_slice(&ends[..count])?;
    Ok(place + count)
}

/// Returns how many of the lowest cells are found to be the same in both states. It tries as many
/// as both have, and then 8, 24, 56 and so on fewer.
fn shared_depth(before: &State, state: &State) -> usize
    requires { length state.now.stack < 2 ^ 16 }
    ensures { take result (reverse before.now.stack) ≡ take result (reverse state.now.stack) }
{
    let depth = before.depth().min(state.depth());
    let mut fewer = 0;
    while fewer < depth {
        if before.shares_bottom(state, depth - fewer) {
            return depth - fewer;
        }
        fewer = 2 * fewer + FEWER;
    }
    0
}

/// Makes the text of a stack's cells, from that of the state before if there is one: anew only for
/// those that aren't found to be the same.
fn keep_stack(text: &mut StackText, before: Option<&State>, state: &State) -> Result<(), AllocError>
    requires text { IfSome before (λ s. IsStackText text.old (reverse s.now.stack)) }
    requires small { length state.now.stack < 2 ^ 16 }
    ensures { OnOk result (IsStackText text.new (reverse state.now.stack)) }
{
    let mut place = keep_shared(text, before, state);
    'cells: while place < state.depth() {
        place = push_some(text, state, place)?;
    }
    Ok(())
}

/// Appends how many cells the stack has, and then each of them, from the bottom up. Text is made
/// anew only for those that aren't found to be as in the state before.
fn push_stack(
    out: &mut Vec<u8>,
    before: Option<&State>,
    state: &State,
    text: &mut StackText,
) -> Result<(), AllocError>
    requires { IfSome before (λ s. IsStackText text.old (reverse s.now.stack)) }
    ensures written { Pushes (counted cell_text (reverse state.now.stack))
        result out.old.items out.new.items }
    ensures few { OnOk result (length state.now.stack < 2 ^ 16) }
    ensures kept { OnOk result (IsStackText text.new (reverse state.now.stack)) }
{
    push_count(out, state.depth())?;
    keep_stack(text, before, state)?;
    out.extend_from_slice(text.cells.as_slice())
}

/// Appends what is known of the reference points.
fn push_points(out: &mut Vec<u8>, state: &State) -> Result<(), AllocError>
    ensures { Pushes (cell_text state.now.graphics.rp0 ++ (cell_text state.now.graphics.rp1
        ++ cell_text state.now.graphics.rp2)) result out.old.items out.new.items }
{
    push_cell(out, state.reference_point(Reference::Rp0))?;
    push_cell(out, state.reference_point(Reference::Rp1))?;
    push_cell(out, state.reference_point(Reference::Rp2))
}

/// Appends what is known of the zone pointers.
fn push_zones(out: &mut Vec<u8>, state: &State) -> Result<(), AllocError>
    ensures { Pushes (zone_text state.now.graphics.zp0 ++ (zone_text state.now.graphics.zp1
        ++ zone_text state.now.graphics.zp2)) result out.old.items out.new.items }
{
    push_zone(out, state.zone_pointer(Pointer::Zp0))?;
    push_zone(out, state.zone_pointer(Pointer::Zp1))?;
    push_zone(out, state.zone_pointer(Pointer::Zp2))
}

/// Appends what is known of the graphics state.
fn push_graphics(out: &mut Vec<u8>, state: &State) -> Result<(), AllocError>
    ensures { Pushes (graphics_text state.now.graphics) result out.old.items out.new.items }
{
    push_points(out, state)?;
    push_zones(out, state)?;
    push_cell(out, state.loop_cell())
}

/// Appends functions, one after the other.
fn push_pairs(out: &mut Vec<u8>, functions: &[(u16, u32)]) -> Result<(), AllocError>
    ensures written { Pushes (flat_map pair_text functions.now)
        result out.old.items out.new.items }
    ensures numbers { OnOk result
        (AllByRecursion (λ e. (e.0 < 2 ^ 16) × (e.1 < 2 ^ 32)) functions.now) }
{
    for function in functions {
        push_pair(out, *function)?;
    }
    Ok(())
}

/// Appends how many functions there are, and then each of them.
fn push_functions(out: &mut Vec<u8>, functions: &[(u16, u32)]) -> Result<(), AllocError>
    ensures written { Pushes (counted pair_text functions.now) result out.old.items out.new.items }
    ensures few { OnOk result (length functions.now < 2 ^ 16) }
    ensures numbers { OnOk result
        (AllByRecursion (λ e. (e.0 < 2 ^ 16) × (e.1 < 2 ^ 32)) functions.now) }
{
    push_count(out, functions.len())?;
    out.reserve(6 * functions.len())?;
    push_pairs(out, functions)
}

/// Appends a storage cell's index with its number.
fn push_stored(out: &mut Vec<u8>, stored: (u16, i32)) -> Result<(), AllocError>
    ensures written { Pushes (stored_text stored) result out.old.items out.new.items }
    ensures fits { OnOk result ((stored.0 < 2 ^ 16) × FitsSigned w32 stored.1) }
{
    push_word(out, stored.0)?;
    out.extend_from_slice(&stored.1.to_be_bytes())
}

/// Appends storage cells with their numbers, one after the other.
fn push_each_stored(out: &mut Vec<u8>, cells: &[(u16, i32)]) -> Result<(), AllocError>
    ensures written { Pushes (flat_map stored_text cells.now) result out.old.items out.new.items }
    ensures numbers { OnOk result
        (AllByRecursion (λ e. (e.0 < 2 ^ 16) × FitsSigned w32 e.1) cells.now) }
{
    for cell in cells {
        push_stored(out, *cell)?;
    }
    Ok(())
}

/// Appends how many storage cells there are, and then each of them.
fn push_storage(out: &mut Vec<u8>, cells: &[(u16, i32)]) -> Result<(), AllocError>
    ensures written { Pushes (counted stored_text cells.now) result out.old.items out.new.items }
    ensures few { OnOk result (length cells.now < 2 ^ 16) }
    ensures numbers { OnOk result
        (AllByRecursion (λ e. (e.0 < 2 ^ 16) × FitsSigned w32 e.1) cells.now) }
{
    push_count(out, cells.len())?;
    push_each_stored(out, cells)
}

/// Whether the functions that are known in a state are those of the state before.
fn has_same(before: Option<&State>, state: &State) -> bool
    ensures { result ≡ true → IsSomeAnd before.entry (λ s. s.now.functions ≡ state.now.functions) }
{
    match before {
        Some(before) => before.has_same_functions(state),
        None => false,
    }
}

/// Makes the text of the functions that are known in a state, unless they are those of the state
/// before, whose text is there.
fn keep_functions(
    text: &mut Vec<u8>,
    before: Option<&State>,
    state: &State,
) -> Result<(), AllocError>
    requires { IfSome before (λ s. IsTextOf text.old.items s.now.functions) }
    ensures { OnOk result (IsTextOf text.new.items state.now.functions) }
{
    if has_same(before, state) {
        return Ok(());
    }
    text.clear();
    push_functions(text, state.functions())
}

/// Appends how many functions are known in a state, and then each of them: by the text that was
/// kept where the state before has the same ones, as most have, and otherwise by one that is made
/// anew.
fn push_known(
    out: &mut Vec<u8>,
    before: Option<&State>,
    state: &State,
    text: &mut Vec<u8>,
) -> Result<(), AllocError>
    requires { IfSome before (λ s. IsTextOf text.old.items s.now.functions) }
    ensures written { Pushes (counted pair_text state.now.functions)
        result out.old.items out.new.items }
    ensures kept { OnOk result (IsTextOf text.new.items state.now.functions) }
{
    keep_functions(text, before, state)?;
    out.extend_from_slice(text.as_slice())
}

/// Appends what follows the stack in a state: the graphics state, the functions and the storage
/// cells. `text` is that of the functions of the state before, if there is one, and then that of
/// this state's functions.
fn push_after_stack(
    out: &mut Vec<u8>,
    before: Option<&State>,
    state: &State,
    text: &mut Vec<u8>,
) -> Result<(), AllocError>
    requires { IfSome before (λ s. IsTextOf text.old.items s.now.functions) }
    ensures kept { OnOk result (IsTextOf text.new.items state.now.functions) }
    ensures written { Pushes (graphics_text state.now.graphics
        ++ (counted pair_text state.now.functions ++ counted stored_text state.now.storage))
        result out.old.items out.new.items }
    ensures few { OnOk result (length state.now.storage < 2 ^ 16) }
    ensures numbers { OnOk result
        (AllByRecursion (λ e. (e.0 < 2 ^ 16) × FitsSigned w32 e.1) state.now.storage) }
{
    push_graphics(out, state)?;
    push_known(out, before, state, text)?;
    push_storage(out, state.stored())
}

/// Appends a state with its context and offset. `texts` are those of the lists of the state before,
/// if there is one, and then those of this state's lists.
fn push_state(
    out: &mut Vec<u8>,
    point: (u16, u32),
    before: Option<&State>,
    state: &State,
    texts: &mut KeptTexts,
) -> Result<(), AllocError>
    requires functions { IfSome before (λ s. IsTextOf texts.old.functions.items s.now.functions) }
    requires stack { IfSome before (λ s. IsStackText texts.old.stack (reverse s.now.stack)) }
    ensures functions { OnOk result (IsTextOf texts.new.functions.items state.now.functions) }
    ensures stack { OnOk result (IsStackText texts.new.stack (reverse state.now.stack)) }
    ensures written { Pushes (state_text Form.Four (point, state.now))
        result out.old.items out.new.items }
    ensures offset { OnOk result (point.1 < 2 ^ 32) }
    ensures fits { OnOk result (state_order.InRange state.now → StateFits Form.Four state.now) }
{
    push_pair(out, point)?;
    push_stack(out, before, state, &mut texts.stack)?;
    push_after_stack(out, before, state, &mut texts.functions)
}

/// Appends a context: its parent's number, and its last call.
fn push_context(out: &mut Vec<u8>, parent: u16, frame: &Frame) -> Result<(), AllocError>
    ensures written { Pushes (context_text (parent, frame.now)) result out.old.items out.new.items }
    ensures numbers { OnOk result (CallFits (parent, frame.now)) }
{
    push_word(out, parent)?;
    push_long(out, frame.call)?;
    push_long(out, frame.body)?;
    push_long(out, frame.turn)?;
    push_long(out, frame.count)
}

/// Appends how many contexts there are except for the main one, and then each of them.
fn push_contexts(out: &mut Vec<u8>, certificate: &Certificate) -> Result<(), AllocError>
    ensures written { Pushes (counted context_text (contexts_in certificate.now.contexts))
        result out.old.items out.new.items }
    ensures numbers { OnOk result (AllByRecursion CallFits (contexts_in certificate.now.contexts)) }
    ensures finished { IsFinished certificate.now }
{
    let count = certificate.contexts() - 1;
    push_word(out, count as u16)?;
    for number in 0..count {
        let (parent, frame) = certificate.context(number + 1).unwrap();
        push_context(out, parent as u16, &frame)?;
    }
    Ok(())
}

/// Appends the states of a family, one after the other. `texts` become those of the last state's
/// lists.
fn push_each_state(
    out: &mut Vec<u8>,
    certificate: &Certificate,
    texts: &mut KeptTexts,
) -> Result<(), AllocError>
    ensures written { Pushes (flat_map (state_text Form.Four) certificate.now.states)
        result out.old.items out.new.items }
    ensures room { OnOk result
        (AllByRecursion (HasRoom (length certificate.now.contexts)) certificate.now.states) }
    ensures ascends { OnOk result (IsStrictlySortedBy place_cmp (keys_of certificate.now.states)) }
{
    let mut states = certificate.states();
    let mut before = None;
    while let Some((context, offset, state)) = states.take_first() {
        push_state(out, (context as u16, offset), before, state, texts)?;
        before = Some(state);
    }
    Ok(())
}

/// Appends how many states there are, and then each of them.
fn push_states(out: &mut Vec<u8>, certificate: &Certificate) -> Result<(), AllocError>
    ensures written { Pushes (long (length certificate.now.states)
        ++ flat_map (state_text Form.Four) certificate.now.states)
        result out.old.items out.new.items }
    ensures room { OnOk result
        (AllByRecursion (HasRoom (length certificate.now.contexts)) certificate.now.states) }
    ensures ascends { OnOk result (IsStrictlySortedBy place_cmp (keys_of certificate.now.states)) }
{
    push_long(out, certificate.points())?;
    let alloc = *out.allocator();
    let mut texts = KeptTexts {
        functions: Vec::new(alloc),
        stack: StackText::new(alloc),
    };
    push_each_state(out, certificate, &mut texts)
}

/// Makes the bytes of a section, in place of those that are there.
fn push_section(out: &mut Vec<u8>, name: Name, certificate: &Certificate) -> Result<(), AllocError>
    ensures text { OnOk result
        (out.new.items ≡ section_text Form.Four (section_of name certificate.now)) }
    ensures fits { OnOk result (AreCallsInTurn certificate.now.contexts
        → Fits Form.Four (section_of name certificate.now)) }
{
    out.clear();
    out.reserve(ROOM)?;
    push_name(out, name)?;
    push_contexts(out, certificate)?;
    push_states(out, certificate)?;
    Ok(())
}

/// A writer of sections, one after the other: the bytes of each are made in the memory of those
/// before it. What is written doesn't depend on them.
#[derive(Drop)]
pub struct Encoder {
    /// The bytes of the last section.
    bytes: Vec<u8>,
}

impl Encoder {
    /// Makes a writer that has written nothing. It takes no memory.
    pub fn new(alloc: Global) -> Self {
        Encoder {
            bytes: Vec::new(alloc),
        }
    }

    /// Writes a section, as `encode` does.
    ///
    /// # Errors
    /// As `encode`.
    pub fn encode<W: Sink>(
        &mut self,
        name: Name,
        certificate: &Certificate,
        sink: &mut W,
    ) -> Result<(), CertFault>
        ensures written { OnOk result (Appends (W.contents sink.old) (W.contents sink.new)
            (family_text Form.Four name certificate.now)) }
        // The section keeps the rules by which it is read, if in each context each call is in one
        // of its turns and no body runs twice.
        ensures fits { OnOk result (AreCallsInTurn certificate.now.contexts
            → Fits Form.Four (section_of name certificate.now)) }
        // So this is the text of the name with the family.
        ensures text { OnOk result (AreCallsInTurn certificate.now.contexts
            → HasText Form.Four name certificate.now) }
        ensures beginning { OnErr result
            (AppendsBeginning (W.contents sink.old) (W.contents sink.new)
            (family_text Form.Four name certificate.now)) }
        ensures failures { CountsWrite result (W.failures sink.old) (W.failures sink.new) }
    {
        push_section(&mut self.bytes, name, certificate)?;
        certificate.order_facts();
        write_all(sink, &self.bytes)?;
        Ok(())
    }
}

/// Writes the section of a program with this name and this family, in form 4.
///
/// # Errors
/// `Write` exactly where a write failed; `OutOfMemory`, also where a state's stack, or a list of
/// functions or storage cells, has 65,536 values or more, for which the format has no room. Then a
/// beginning of the section was written, perhaps an empty one.
pub fn encode<W: Sink>(
    alloc: Global,
    name: Name,
    certificate: &Certificate,
    sink: &mut W,
) -> Result<(), CertFault>
    ensures written { OnOk result (Appends (W.contents sink.old) (W.contents sink.new)
        (family_text Form.Four name certificate.now)) }
    // The section keeps the rules by which it is read, if in each context each call is in one of
    // its turns and no body runs twice.
    ensures fits { OnOk result (AreCallsInTurn certificate.now.contexts
        → Fits Form.Four (section_of name certificate.now)) }
    // So this is the text of the name with the family.
    ensures text { OnOk result (AreCallsInTurn certificate.now.contexts
        → HasText Form.Four name certificate.now) }
    ensures beginning { OnErr result
        (AppendsBeginning (W.contents sink.old) (W.contents sink.new)
        (family_text Form.Four name certificate.now)) }
    ensures failures { CountsWrite result (W.failures sink.old) (W.failures sink.new) }
{
    Encoder::new(alloc).encode(name, certificate, sink)
}
