//! Contexts of a section: read one after the other, each by the rules, and then added to a builder.

ghost use Rattle.std.specs.Prelude.{◌≡◌, ◌<◌, ◌≤◌, ℕ, [], ◌∷◌, ◌++◌, true, length, vec_capacity, vec_len, IfErr, IfOk, IfSome, OnOk};
ghost use Rattle.std.specs.Option.{option_copied};
ghost use Rattle.tt_family.specs.Built.{key_of as key_of_context};
ghost use Rattle.tt_family.specs.Contents.{IsFamily, frames_at};
ghost use Rattle.tt_family.specs.Ascending.{IsFinished};
ghost use Rattle.tt_family.specs.Contexts.{frames_of};
ghost use Rattle.tt_stream.specs.Reads.{ConsumesBeginning};
ghost use Rattle.tt_cert.specs.Answers.{CountsRead, IsOutOfMemory};
ghost use Rattle.tt_cert.specs.Representation.Clauses.{BeginsWith, IsEmptyBuilder, ReadsAs, ReadsBy, ReadsOneMore, StopsWhole};
ghost use Rattle.tt_cert.specs.Forms.{most_contexts};
ghost use Rattle.tt_cert.specs.Readers.{list_at};
ghost use Rattle.tt_cert.specs.Reading.{context_at, context_count_at, contexts_at};
ghost use Rattle.tt_cert.specs.Rules.{AreContexts, HaveParents, NumbersFit, is_above_context, is_new_body as is_new_body_of, is_turn as is_turn_of, last_of, may_follow as may_follow_after};
ghost use Rattle.tt_cert.specs.Sections.{Context};
ghost use Rattle.tt_cert.specs.Text.{context_text};

use crate::form::Form;
use crate::units::{read_long, read_word, take_long, take_word};
use std::alloc::{AllocError, Global};
use tt_code::Frame;
use tt_family::Builder;
use tt_setting::{CertFault, StepFault};
use tt_stream::Source;

/// How many turns a call has at most.
const MOST_TURNS: u32 = 0x7fff_ffff;

/// Whether the call's turn is from 1 to its count, and the count at most 2^31 - 1.
fn is_turn(frame: &Frame) -> bool
    ensures { result ≡ is_turn_of frame.now }
{
    1 <= frame.turn && frame.turn <= frame.count && frame.count <= MOST_TURNS
}

/// Returns the key by which contexts ascend: parent, call, body, turn and count.
fn key_of(context: &(u32, Frame)) -> (u32, u32, u32, u32, u32)
    ensures { result ≡ key_of_context context.now }
{
    let (parent, frame) = *context;
    (parent, frame.call, frame.body, frame.turn, frame.count)
}

/// Whether the context is above the last one, if there is one.
fn is_above(last: Option<&(u32, Frame)>, context: &(u32, Frame)) -> bool
    ensures { result ≡ is_above_context (option_copied last.entry) context.now }
{
    match last {
        Some(last) => key_of(last).cmp(&key_of(context)).is_lt(),
        None => true,
    }
}

/// Whether the body runs in none of the calls of this context.
fn is_new_body(contexts: &[(u32, Frame)], number: u32, body: u32) -> bool
    requires parents { HaveParents contexts.now }
    requires there { number ≤ length contexts.now }
    ensures { result ≡ is_new_body_of (frames_at (frames_of contexts.now) number) body }
{
    let mut at = number as usize;
    while at > 0 {
        let (parent, frame) = contexts[at - 1];
        if frame.body == body {
            return false;
        }
        at = parent as usize;
    }
    true
}

/// Whether the context may come after these.
fn may_follow(before: &[(u32, Frame)], context: &(u32, Frame)) -> bool
    requires { HaveParents before.now }
    ensures { result ≡ may_follow_after before.now context.now }
{
    context.0 as usize <= before.len()
        && is_above(before.last(), context)
        && is_turn(&context.1)
        && is_new_body(before, context.0, context.1.body)
}

/// Reads a context that comes after these, number by number.
///
/// # Errors
/// As `read_context`.
#[cold]
#[inline(never)]
#[tactic(auto, unfolding(crate::specs::Reading::context_at))]
fn read_numbers<S: Source>(
    source: &mut S,
    place: u64,
    before: &[(u32, Frame)],
) -> Result<((u32, Frame), u64), CertFault>
    requires { HaveParents before.now }
    ensures reads { ReadsBy (context_at before.now) place result
        (S.remaining source.old) (S.remaining source.new) }
    ensures follows { IfOk result (λ r. may_follow_after before.now r.0 ≡ true) }
    ensures beginning { ConsumesBeginning (S.remaining source.old) (S.remaining source.new) }
    ensures stopped { StopsWhole (context_at before.now) place result
        (S.remaining source.old) (S.remaining source.new) }
    ensures failures { CountsRead result (S.failures source.old) (S.failures source.new) }
    ensures memory { IfErr result (λ fault. ¬ IsOutOfMemory fault) }
{
    let (parent, at) = read_word(source, place)?;
    let (call, at) = read_long(source, at)?;
    let (body, at) = read_long(source, at)?;
    let (turn, at) = read_long(source, at)?;
    let (count, at) = read_long(source, at)?;
    let frame = Frame {
        body,
        call,
        turn,
        count,
    };
    let context = (u32::from(parent), frame);
    if !may_follow(before, &context) {
        return Err(CertFault::Form(place));
    }
    Ok((context, at))
}

/// Takes a context from the front of these bytes, if all of it is there.
#[inline]
fn take_context(bytes: &[u8]) -> Option<((u32, Frame), &[u8])>
    ensures { IfSome result (λ r. BeginsWith context_text NumbersFit bytes.now r.0 r.1.now) }
{
    let (parent, rest) = take_word(bytes)?;
    let (call, rest) = take_long(rest)?;
    let (body, rest) = take_long(rest)?;
    let (turn, rest) = take_long(rest)?;
    let (count, rest) = take_long(rest)?;
    let frame = Frame {
        body,
        call,
        turn,
        count,
    };
    Some(((u32::from(parent), frame), rest))
}

/// Reads one more context, after those before it, whose numbers start from 1: at once, where all of
/// it is read ahead. There is room for it. Returns the place after it.
///
/// # Errors
/// As `read_word`, and `Form` with the context's place if it may not come after these.
fn read_context<S: Source>(
    source: &mut S,
    place: u64,
    contexts: &mut Vec<(u32, Frame)>,
) -> Result<u64, CertFault>
    requires parents { HaveParents contexts.old.items }
    requires room { vec_len contexts.old < vec_capacity contexts.old }
    ensures reads { ReadsOneMore context_at contexts.old.items contexts.new.items place result
        (S.remaining source.old) (S.remaining source.new) }
    ensures follows { OnOk result ((x : Context) → contexts.new.items ≡ contexts.old.items ++ x ∷ []
        → may_follow_after contexts.old.items x ≡ true) }
    ensures beginning { ConsumesBeginning (S.remaining source.old) (S.remaining source.new) }
    ensures stopped { StopsWhole (context_at contexts.old.items) place result
        (S.remaining source.old) (S.remaining source.new) }
    ensures failures { CountsRead result (S.failures source.old) (S.failures source.new) }
    ensures memory { IfErr result (λ fault. ¬ IsOutOfMemory fault) }
{
    let ahead = source.ahead();
    if let Some((context, rest)) = take_context(ahead)
        && may_follow(contexts, &context)
    {
        let width = ahead.len() - rest.len();
        contexts.push_reserved(context);
        source.skip(width);
        return Ok(place.saturating_add(width as u64));
    }
    let (context, after) = read_numbers(source, place, contexts)?;
    contexts.push_reserved(context);
    Ok(after)
}

/// Reads how many contexts a section has besides the main one.
///
/// # Errors
/// As `read_word`, and `Form` with the number's place if it is too great for the form.
fn read_count<S: Source>(source: &mut S, place: u64, form: Form) -> Result<(u16, u64), CertFault>
    ensures reads { ReadsBy (context_count_at form) place result
        (S.remaining source.old) (S.remaining source.new) }
    ensures few { IfOk result (λ r. r.0 ≤ most_contexts form) }
    ensures beginning { ConsumesBeginning (S.remaining source.old) (S.remaining source.new) }
    ensures stopped { StopsWhole (context_count_at form) place result
        (S.remaining source.old) (S.remaining source.new) }
    ensures failures { CountsRead result (S.failures source.old) (S.failures source.new) }
    ensures memory { IfErr result (λ fault. ¬ IsOutOfMemory fault) }
{
    let (count, at) = read_word(source, place)?;
    if count > form.most_contexts() {
        return Err(CertFault::Form(place));
    }
    Ok((count, at))
}

/// Reads this many contexts.
///
/// # Errors
/// As `decode`.
fn read_context_list<S: Source>(
    alloc: Global,
    source: &mut S,
    place: u64,
    count: u16,
) -> Result<(Vec<(u32, Frame)>, u64), CertFault>
    ensures reads { ReadsAs (λ v. v.items) (list_at context_at [] count) place result
        (S.remaining source.old) (S.remaining source.new) }
    ensures few { IfOk result (λ r. length r.0.items ≤ count) }
    ensures contexts { IfOk result (λ r. AreContexts r.0.items) }
    ensures beginning { ConsumesBeginning (S.remaining source.old) (S.remaining source.new) }
    ensures stopped { StopsWhole (list_at context_at [] count) place result
        (S.remaining source.old) (S.remaining source.new) }
    ensures failures { CountsRead result (S.failures source.old) (S.failures source.new) }
{
    let mut contexts = Vec::new(alloc);
    let mut at = place;
    'contexts: for _ in 0..count {
        contexts.reserve(1)?;
        at = read_context(source, at, &mut contexts)?;
    }
    Ok((contexts, at))
}

/// Reads the contexts of a section.
///
/// # Errors
/// As `decode`.
#[tactic(auto, unfolding(crate::specs::Reading::contexts_at))]
pub(crate) fn read_contexts<S: Source>(
    alloc: Global,
    source: &mut S,
    place: u64,
    form: Form,
) -> Result<(Vec<(u32, Frame)>, u64), CertFault>
    ensures reads { ReadsAs (λ v. v.items) (contexts_at form) place result
        (S.remaining source.old) (S.remaining source.new) }
    ensures few { IfOk result (λ r. length r.0.items ≤ most_contexts form) }
    ensures contexts { IfOk result (λ r. AreContexts r.0.items) }
    ensures beginning { ConsumesBeginning (S.remaining source.old) (S.remaining source.new) }
    ensures stopped { StopsWhole (contexts_at form) place result
        (S.remaining source.old) (S.remaining source.new) }
    ensures failures { CountsRead result (S.failures source.old) (S.failures source.new) }
{
    let (count, at) = read_count(source, place, form)?;
    read_context_list(alloc, source, at, count)
}

/// Makes a builder with these contexts, by their numbers, and without a state, reusing an empty
/// builder's memory.
///
/// # Errors
/// If memory runs out.
pub(crate) fn builder_of(spare: Builder, contexts: &[(u32, Frame)]) -> Result<Builder, AllocError>
    requires spare { IsEmptyBuilder spare }
    requires contexts { AreContexts contexts.now }
    requires few { length contexts.now ≤ 65534 }
    ensures contexts { IfOk result (λ builder. builder.contexts ≡ frames_of contexts.now) }
    ensures states { IfOk result (λ builder. builder.states ≡ []) }
    ensures finished { IfOk result (λ builder. IsFinished builder) }
{
    let mut builder = spare;
    for (parent, frame) in contexts {
        match builder.add_context(*parent, *frame) {
            Ok(_) => {}
            Err(StepFault::OutOfMemory(error)) => return Err(error),
            // No context comes twice, and there are fewer than 65,535 so far.
            Err(StepFault::Refused(_)) => unreachable!(),
        }
    }
    Ok(builder)
}
