//! Cases that are many: each budget, each failed call, each byte at each value.

use crate::calls::{AMPLE, Room, call, told_of_check, told_of_font};
use anyhow::{Result, anyhow, ensure};
use hintcheck_fonts::Budget;
use std::alloc::Global;
use std::fmt::Write;
use tt_cases::context::Context;
use tt_cases::files::next_held;
use tt_cases::words::{Words, number_of};
use tt_test_fixtures::streams::ALL;

/// Whether what is told within a budget of `most` points is what should be, where `points` are
/// needed for what is told without a bound.
fn is_within(is: &str, told: &str, budget: &Budget, most: u64, points: u64) -> bool {
    if most < points {
        let is_told = is.starts_with("fault 46 budget") && !is.ends_with("other bytes");
        return is_told && budget.made() == most && budget.is_exceeded();
    }
    is == told && budget.made() == points && !budget.is_exceeded()
}

/// `within CALL FILES`: how many points a call makes without a bound, and what it tells. With each
/// bound from 0 to one more it tells the same, or the budget's fault where it needs more points.
pub(crate) fn within(context: &Context<'_>, words: &mut Words<'_>) -> Result<String> {
    let alloc = context.rt.alloc();
    let kind = words.next()?;
    let names = words.rest(alloc)?;
    let mut unlimited = Budget::unlimited();
    let told = call(context, kind, &names, AMPLE, &mut unlimited)?;
    let points = unlimited.made();
    for most in 0..=points.saturating_add(1) {
        let mut budget = Budget::of(most);
        let is = call(context, kind, &names, AMPLE, &mut budget)?;
        if !is_within(is.as_str(), told.as_str(), &budget, most, points) {
            return Ok(format!(in alloc; "{points} points, {told}, but within {most} {is}")?);
        }
    }
    Ok(format!(in alloc; "{points} points, {told}")?)
}

/// Takes the words of a call's files, up to `then`.
fn files_of<'a>(alloc: Global, words: &mut Words<'a>) -> Result<Vec<&'a str>> {
    let mut names = Vec::new(alloc);
    for _ in 0..words.len() {
        if words.is_empty() || words.take_word("then") {
            break;
        }
        names.push(words.next()?)?;
    }
    Ok(names)
}

/// Adds what a call within a budget tells, and how much of the budget is left.
fn show_call(
    context: &Context<'_>,
    text: &mut String,
    words: &mut Words<'_>,
    room: Room,
    budget: &mut Budget,
) -> Result<()> {
    let kind = words.next()?;
    let names = files_of(context.rt.alloc(), words)?;
    let told = call(context, kind, &names, room, budget)?;
    let mark = if budget.is_exceeded() { "!" } else { "" };
    write!(text, "{told} [{}{mark}] ", budget.made())?;
    Ok(())
}

/// `budget MOST CALL FILES then CALL FILES ..`: what calls tell within one budget, one after the
/// other, each with how many points of it are made then, and `!` where it is exceeded. With
/// `reads=9`, the call of a reader after 9 others fails, with `writes=9` that of a writer, and what
/// is written is compared with 9 bytes: a byte is read or written a call.
pub(crate) fn budgeted(context: &Context<'_>, words: &mut Words<'_>) -> Result<String> {
    let room = Room {
        reads: words.number("reads", ALL)?,
        writes: words.number("writes", ALL)?,
        ..AMPLE
    };
    let mut budget = Budget::of(number_of(words.next()?)?);
    let mut text = String::new(context.rt.alloc());
    for _ in 0..words.len() {
        if words.is_empty() {
            break;
        }
        show_call(context, &mut text, words, room, &mut budget)?;
    }
    Ok(text)
}

/// Returns what a call tells where a call of a reader, or of a writer, after so many others fails;
/// the same where the call of the writer takes nothing.
fn told_of_failure(
    context: &Context<'_>,
    side: &str,
    kind: &str,
    names: &[&str],
    calls: usize,
) -> Result<String> {
    if side == "reads" {
        let room = Room {
            reads: calls,
            ..AMPLE
        };
        return call(context, kind, names, room, &mut Budget::unlimited());
    }
    let failing = Room {
        writes: calls,
        ..AMPLE
    };
    let told = call(context, kind, names, failing, &mut Budget::unlimited())?;
    let taking = Room {
        takes_nothing: true,
        ..failing
    };
    let other = call(context, kind, names, taking, &mut Budget::unlimited())?;
    ensure!(
        told.as_str() == other.as_str(),
        "{told}, but {other} where nothing is taken"
    );
    Ok(told)
}

/// Whether a failed call is told, after a beginning of what is to be written.
fn is_failure(told: &str) -> bool {
    match told.strip_prefix("fault 44 read") {
        Some(likeness) => likeness != ", other bytes",
        None => told == "fault 45 write, same",
    }
}

/// `failing reads CALL FILES`, `failing writes CALL FILES`: how many bytes are read or written, one a
/// call, before it makes no difference that the next call fails, and what is told then. Up to there
/// each failed call is told, after a beginning of what is to be written.
pub(crate) fn failing(context: &Context<'_>, words: &mut Words<'_>) -> Result<String> {
    let alloc = context.rt.alloc();
    let (side, kind) = (words.next()?, words.next()?);
    let names = words.rest(alloc)?;
    for calls in 0..ALL {
        let told = told_of_failure(context, side, kind, &names, calls)?;
        if !is_failure(told.as_str()) {
            return Ok(format!(in alloc; "{calls} calls, {told}")?);
        }
    }
    Err(anyhow!("too many calls"))
}

/// Whether something told is a verdict, or a fault 1 to 8 or 43.
fn is_answer(told: &str) -> bool {
    match told.strip_prefix("fault ") {
        Some(fault) => {
            fault.starts_with("43 ") || matches!(fault.as_bytes(), [b'1'..=b'8', b' ', ..])
        }
        None => true,
    }
}

/// Whether the check of a font by a certificate has an answer, and accepts only where the verdict
/// does, which tells this.
fn is_checked(alloc: Global, font: &[u8], certificate: &[u8], verdict: &str) -> Result<bool> {
    let check = told_of_check(alloc, font, certificate, AMPLE, &mut Budget::unlimited())?;
    let is_same = !check.ends_with("good") || verdict.ends_with("good");
    Ok(is_answer(check.as_str()) && is_same)
}

/// Whether that is so, and the verdict has an answer.
fn is_answered(alloc: Global, font: &[u8], certificate: &[u8]) -> Result<bool> {
    let verdict = told_of_font(alloc, font, &mut Budget::unlimited())?;
    Ok(is_answer(verdict.as_str()) && is_checked(alloc, font, certificate, verdict.as_str())?)
}

/// Whether that is so with each value of the font's byte at this place.
fn is_font_answered(alloc: Global, font: &[u8], certificate: &[u8], place: usize) -> Result<bool> {
    let mut changed = Vec::from_slice(alloc, font)?;
    for value in 0..=255 {
        if let Some(byte) = changed.get_mut(place) {
            *byte = value;
        }
        if !is_answered(alloc, &changed, certificate)? {
            return Ok(false);
        }
    }
    Ok(true)
}

/// Whether the check is right with each value of the certificate's byte at this place.
fn is_certificate_answered(
    alloc: Global,
    font: &[u8],
    certificate: &[u8],
    verdict: &str,
    place: usize,
) -> Result<bool> {
    let mut changed = Vec::from_slice(alloc, certificate)?;
    for value in 0..=255 {
        if let Some(byte) = changed.get_mut(place) {
            *byte = value;
        }
        if !is_checked(alloc, font, &changed, verdict)? {
            return Ok(false);
        }
    }
    Ok(true)
}

/// `answered FONT CERT`: whether the verdict on a font and its check by a certificate have an answer
/// for each beginning of the font, and with each byte of either at each value.
pub(crate) fn answered(context: &Context<'_>, words: &mut Words<'_>) -> Result<String> {
    let alloc = context.rt.alloc();
    let font = next_held(context, words)?;
    let certificate = next_held(context, words)?;
    for length in 0..font.len() {
        if !is_answered(alloc, &font[..length], &certificate)?
            || !is_font_answered(alloc, &font, &certificate, length)?
        {
            return Ok(format!(in alloc; "not the font at {length}")?);
        }
    }
    let verdict = told_of_font(alloc, &font, &mut Budget::unlimited())?;
    for place in 0..certificate.len() {
        if !is_certificate_answered(alloc, &font, &certificate, verdict.as_str(), place)? {
            return Ok(format!(in alloc; "not the certificate at {place}")?);
        }
    }
    Ok(String::from_str(alloc, "each")?)
}
