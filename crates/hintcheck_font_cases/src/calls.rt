//! The library's calls on one glyph program, on fonts and on certificates.

use crate::faults::{Fault, fault_text};
use crate::sessions::refused_in_session;
use anyhow::{Result, bail, ensure};
use hintcheck_certificates::{
    UpgradeFault, check_font, check_font_within, find_font, find_font_within, upgrade,
};
use hintcheck_fonts::{
    Budget, Refused, Verdict, bare, bare_within, read_font, verdict, verdict_symbolic,
    verdict_within,
};
use std::alloc::Global;
use std::fmt::Write;
use std::fs;
use tt_cases::context::Context;
use tt_cases::files::{font_of, held, likeness, maxp, next_held};
use tt_cases::words::{Words, bytes_of};
use tt_stream::{Bytes, Counted};
use tt_test_fixtures::streams::{ALL, Steps, Taker};

/// Returns how many programs there are, and that all are good, or each that is refused with the
/// reason's number and the place.
fn programs_text(alloc: Global, programs: u32, refused: &[Refused]) -> Result<String> {
    if refused.is_empty() {
        return Ok(format!(in alloc; "{programs} good")?);
    }
    let mut text = format!(in alloc; "{programs}")?;
    let mut divider = ':';
    for one in refused {
        let (name, number, place) = (one.program, one.reason.number(), one.place);
        write!(text, "{divider} {name} {number} at {place}")?;
        divider = ',';
    }
    Ok(text)
}

/// Returns what an answer tells: the verdict, or the fault.
fn told_of<F: Fault + Drop>(alloc: Global, answer: Result<Verdict, F>) -> Result<String> {
    match answer {
        Ok(verdict) => {
            let refused = verdict.refused();
            ensure!(verdict.accepted() == refused.is_empty(), "another verdict");
            programs_text(alloc, verdict.programs(), refused)
        }
        Err(fault) => fault_text(alloc, &fault),
    }
}

/// `bare PROGRAM`, or `bare maxp=TABLE`: the verdict on one glyph program, within the context's
/// limits or those of the table.
pub(crate) fn judge_bare(context: &Context<'_>, words: &mut Words<'_>) -> Result<String> {
    let alloc = context.rt.alloc();
    let table = match words.take("maxp") {
        Some(digits) => bytes_of(alloc, digits)?,
        None => maxp(context, 1)?,
    };
    let program = match words.first() {
        Some(_) => bytes_of(alloc, words.next()?)?,
        None => Vec::new(alloc),
    };
    ensure!(program.len() <= 65_535, "a glyph's program is too long");
    let (cvt, points, contours) = (context.cvt, context.points, context.contours);
    told_of(alloc, bare(alloc, &table, cvt, points, contours, &program))
}

/// Returns what the verdict on one glyph program within a budget tells, whose bytes are the word, by
/// the context's limits.
fn told_of_glyph(context: &Context<'_>, digits: &str, budget: &mut Budget) -> Result<String> {
    let alloc = context.rt.alloc();
    let table = maxp(context, 1)?;
    let program = bytes_of(alloc, digits)?;
    ensure!(program.len() <= 65_535, "a glyph's program is too long");
    let (cvt, points, contours) = (context.cvt, context.points, context.contours);
    let answer = bare_within(alloc, &table, cvt, points, contours, &program, budget);
    told_of(alloc, answer)
}

/// `profiles f=FONT p=CVT g=GLYPH..`: the verdict on a font of these programs, and the one by the
/// symbolic profile.
pub(crate) fn judge_by_both(context: &Context<'_>, words: &mut Words<'_>) -> Result<String> {
    let alloc = context.rt.alloc();
    let font = font_of(context, words)?;
    let strict = told_of(alloc, verdict(alloc, &font))?;
    let symbolic = told_of(alloc, verdict_symbolic(alloc, &font))?;
    Ok(format!(in alloc; "{strict} / {symbolic}")?)
}

/// Returns what the verdict on a font tells.
pub(crate) fn told_of_font(alloc: Global, font: &[u8], budget: &mut Budget) -> Result<String> {
    told_of(alloc, verdict_within(alloc, font, budget))
}

/// How many calls of a reader and of a writer there may be before one fails, and whether that of a
/// writer takes nothing in place of failing. Where one fails, a byte is read or written a call.
#[derive(Clone, Copy)]
pub(crate) struct Room {
    pub(crate) reads: usize,
    pub(crate) writes: usize,
    pub(crate) takes_nothing: bool,
}

/// No call fails.
pub(crate) const AMPLE: Room = Room {
    reads: ALL,
    writes: ALL,
    takes_nothing: false,
};

/// Returns how many bytes a call reads or writes, of which there may be so many before one fails.
fn step_of(calls: usize) -> usize {
    if calls < ALL { 1 } else { ALL }
}

impl Room {
    /// Returns the reader of these bytes.
    fn reader<'a>(&self, bytes: &'a [u8]) -> Steps<'a> {
        Steps {
            bytes,
            step: step_of(self.reads),
            calls: self.reads,
        }
    }

    /// Returns the writer.
    fn writer(&self, alloc: Global) -> Taker {
        Taker {
            takes_nothing: self.takes_nothing,
            ..Taker::new(alloc, step_of(self.writes), self.writes)
        }
    }

    /// Returns as many of the bytes that are to be written as may be.
    fn wanted<'a>(&self, bytes: &'a [u8]) -> &'a [u8] {
        bytes.get(..self.writes).unwrap_or(bytes)
    }
}

/// Returns what the check of a font by a certificate tells, for which there is so much room.
pub(crate) fn told_of_check(
    alloc: Global,
    font: &[u8],
    certificate: &[u8],
    room: Room,
    budget: &mut Budget,
) -> Result<String> {
    let mut source = Counted::new(room.reader(certificate));
    told_of(alloc, check_font_within(alloc, font, &mut source, budget))
}

/// Returns what the search for a font's certificate tells, for which there is so much room, and how
/// what is written compares with this one.
fn told_of_search(
    alloc: Global,
    font: &[u8],
    want: &[u8],
    room: Room,
    budget: &mut Budget,
) -> Result<String> {
    let mut sink = Counted::new(room.writer(alloc));
    let told = told_of(alloc, find_font_within(alloc, font, &mut sink, budget))?;
    let likeness = likeness(&sink.into_inner().bytes, room.wanted(want));
    Ok(format!(in alloc; "{told}, {likeness}")?)
}

/// `found FONT CERT`: what the search for a font's certificate tells, which is written into a file;
/// the check by it tells the same.
pub(crate) fn found(context: &Context<'_>, words: &mut Words<'_>) -> Result<String> {
    let alloc = context.rt.alloc();
    let font = next_held(context, words)?;
    let mut sink = Counted::new(Vec::new(alloc));
    let told = told_of(alloc, find_font(alloc, &font, &mut sink))?;
    let certificate = sink.into_inner();
    let checked = told_of(
        alloc,
        check_font(alloc, &font, &mut Bytes::new(&certificate)),
    )?;
    ensure!(told.as_str() == checked.as_str(), "{told}, but {checked}");
    fs::write(context.rt, words.next()?, &certificate)?;
    Ok(told)
}

/// Returns what the upgrade of an old certificate tells, for which there is so much room, and what
/// is written.
fn upgraded(alloc: Global, old: &[u8], room: Room) -> (Result<u32, UpgradeFault>, Vec<u8>) {
    let mut source = Counted::new(room.reader(old));
    let mut sink = Counted::new(room.writer(alloc));
    let told = upgrade(alloc, &mut source, &mut sink);
    (told, sink.into_inner().bytes)
}

/// Returns how many sections an old certificate has, and how what its upgrade writes compares with
/// the one that is wanted. Where a read failed, that is what is written where the old certificate
/// ends there.
fn told_of_upgrade(alloc: Global, old: &[u8], want: &[u8], room: Room) -> Result<String> {
    let (answer, written) = upgraded(alloc, old, room);
    if let Err(UpgradeFault::Read) = answer {
        let cut = old.get(..room.reads).unwrap_or(old);
        let (_, of_cut) = upgraded(alloc, cut, AMPLE);
        ensure!(written.as_slice() == of_cut.as_slice(), "another beginning");
    }
    let told = match answer {
        Ok(sections) => format!(in alloc; "{sections} sections")?,
        Err(fault) => fault_text(alloc, &fault)?,
    };
    let likeness = likeness(&written, room.wanted(want));
    Ok(format!(in alloc; "{told}, {likeness}")?)
}

/// Returns what a session of a font tells, as its check tells it.
fn told_of_session(alloc: Global, file: &[u8], certificate: Steps<'_>) -> Result<String> {
    let font = read_font(alloc, file)?;
    let programs = u32::from(font.glyph_count()) + 2;
    match refused_in_session(alloc, &font, certificate) {
        Ok(refused) => programs_text(alloc, programs, refused.as_slice()),
        Err(fault) => fault_text(alloc, &fault),
    }
}

/// Calls the library with files: `verdict FONT`, `check_font FONT CERT`, `session FONT CERT`,
/// `find_font FONT WANT` and `upgrade OLD WANT`, with the certificate that is to be written, where a
/// reader and a writer have so much room; or with a program, `bare PROGRAM`.
pub(crate) fn call(
    context: &Context<'_>,
    kind: &str,
    names: &[&str],
    room: Room,
    budget: &mut Budget,
) -> Result<String> {
    let alloc = context.rt.alloc();
    let [first, others @ ..] = names else {
        bail!("no call of no file");
    };
    if kind == "bare" {
        return told_of_glyph(context, first, budget);
    }
    let first = held(context, first)?;
    let [other] = others else {
        ensure!(
            kind == "verdict" && others.is_empty(),
            "no call {kind} of these files"
        );
        return told_of_font(alloc, &first, budget);
    };
    let other = held(context, other)?;
    match kind {
        "check_font" => told_of_check(alloc, &first, &other, room, budget),
        "session" => told_of_session(alloc, &first, room.reader(&other)),
        "find_font" => told_of_search(alloc, &first, &other, room, budget),
        "upgrade" => told_of_upgrade(alloc, &first, &other, room),
        _ => bail!("no call {kind} of two files"),
    }
}
