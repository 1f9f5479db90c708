//! Cases of certificate files: their headers, their sections, each rule broken once, and what is
//! written.

use crate::builders::{show_contexts, show_states};
use crate::context::Context;
use crate::files::pieces_of;
use crate::words::{Words, number_of};
use anyhow::{Result, anyhow, bail, ensure};
use std::alloc::{AllocError, Global};
use tt_cert::{
    CertFault, Form, NEWEST_FORM, Name, Source, decode, encode, read_end, read_header, write_header,
};
use tt_family::Certificate;
use tt_stream::{Buffered, Bytes, Counted, read_all};
use tt_test_fixtures::streams::{ALL, Steps, Taker};

/// What is read from bytes.
#[derive(Clone, Copy)]
enum Reading {
    /// A section in a form.
    Section(Form),
    /// A section in a form, read ahead.
    Ahead(Form),
    /// A whole file.
    File,
    /// A file's header.
    Header,
    /// The end of a file, at a place.
    End(u64),
}

/// Returns how long something is, and how many bytes are left after it, if any are.
fn end_text(alloc: Global, length: u64, left: usize) -> Result<String, AllocError> {
    if left == 0 {
        return format!(in alloc; "ends at {length}");
    }
    format!(in alloc; "ends at {length}, {left} left")
}

/// Reads a section from a place on, and returns how many bytes it has.
fn section_length<S: Source>(
    alloc: Global,
    source: &mut S,
    start: u64,
    form: Form,
) -> Result<u64, CertFault> {
    let (_, _, after) = decode(alloc, source, start, form.number())?;
    Ok(after.wrapping_sub(start))
}

/// Reads a file, its header, its sections and its end, and returns how many bytes it has.
fn file_length<S: Source>(alloc: Global, source: &mut S) -> Result<u64, CertFault> {
    let (form, sections) = read_header(source)?;
    let mut place = 10;
    for _ in 0..sections {
        let (_, _, after) = decode(alloc, source, place, form)?;
        place = after;
    }
    read_end(source, place)?;
    Ok(place)
}

/// Reads, a section from a place on, and returns what is told.
fn told_of(
    alloc: Global,
    reading: Reading,
    steps: Steps<'_>,
    start: u64,
) -> Result<String, CertFault> {
    let mut source = Counted::new(steps);
    let told = match reading {
        Reading::Section(form) => {
            let length = section_length(alloc, &mut source, start, form)?;
            end_text(alloc, length, source.into_inner().bytes.len())
        }
        Reading::Ahead(form) => {
            let mut source = Buffered::new(alloc, source)?;
            let length = section_length(alloc, &mut source, start, form)?;
            let rest = read_all(alloc, &mut source).map_err(|_| CertFault::Read)?;
            end_text(alloc, length, rest.len())
        }
        Reading::File => end_text(alloc, file_length(alloc, &mut source)?, 0),
        Reading::Header => {
            let (form, sections) = read_header(&mut source)?;
            format!(in alloc; "form {form}, {sections} sections")
        }
        Reading::End(place) => {
            read_end(&mut source, place)?;
            String::from_str(alloc, "end")
        }
    };
    Ok(told?)
}

/// Returns what reading tells, of a section from a place on, from which places are counted then.
fn told_by(
    alloc: Global,
    reading: Reading,
    steps: Steps<'_>,
    start: u64,
) -> Result<String, AllocError> {
    let start = match reading {
        Reading::Section(_) => start,
        _ => 0,
    };
    match told_of(alloc, reading, steps, start) {
        Ok(told) => Ok(told),
        Err(CertFault::Form(place)) => format!(in alloc; "43 at {}", place.wrapping_sub(start)),
        Err(CertFault::Read) => String::from_str(alloc, FAILED),
        Err(CertFault::Write) => String::from_str(alloc, "45"),
        Err(CertFault::OutOfMemory(_)) => String::from_str(alloc, "9"),
    }
}

/// What is told of a failed read.
const FAILED: &str = "44";

/// How many bytes a call gives, and where a section begins.
const WAYS: [(usize, u64); 6] = [(1000, 0), (1000, 1000), (1, 0), (2, 7), (3, 0), (5, 0)];

/// The same where a section is read ahead.
const WAYS_AHEAD: [(usize, u64); 3] = [(1, 0), (7, 0), (1000, 0)];

/// More ways to read a section ahead, up to as many bytes a call as there are.
const LONG_WAYS: [(usize, u64); 3] = [(1000, 0), (262_144, 0), (ALL, 0)];

/// Returns what reading bytes tells in each of these ways: the same, and the same as was told
/// before, if anything was.
fn told_in_ways(
    alloc: Global,
    reading: Reading,
    bytes: &[u8],
    calls: usize,
    ways: &[(usize, u64)],
    before: String,
) -> Result<String, AllocError> {
    let mut told = before;
    for &(step, start) in ways {
        let next = told_by(alloc, reading, Steps { bytes, step, calls }, start)?;
        if !told.is_empty() && told.as_str() != next.as_str() {
            return format!(in alloc; "{told}, but {next} by {step} from {start}");
        }
        told = next;
    }
    Ok(told)
}

/// Returns what reading bytes tells: the same however many a call gives, wherever a section begins,
/// ahead too, where no call fails, and as was told before.
fn told_alike(
    alloc: Global,
    reading: Reading,
    bytes: &[u8],
    calls: usize,
    before: String,
) -> Result<String, AllocError> {
    let told = told_in_ways(alloc, reading, bytes, calls, &WAYS, before)?;
    match reading {
        Reading::Section(form) if calls == ALL => {
            told_in_ways(alloc, Reading::Ahead(form), bytes, calls, &WAYS_AHEAD, told)
        }
        _ => Ok(told),
    }
}

/// Returns what two ways of reading bytes tell, which is the same.
fn told_by_both(
    alloc: Global,
    [reading, other]: [Reading; 2],
    bytes: &[u8],
    calls: usize,
) -> Result<String, AllocError> {
    let told = told_alike(alloc, reading, bytes, calls, String::new(alloc))?;
    told_alike(alloc, other, bytes, calls, told)
}

/// Returns the form that the words give, if they do.
fn form_of(words: &mut Words<'_>) -> Result<Option<Form>> {
    match words.take("form") {
        None => Ok(None),
        Some("1") => Ok(Some(Form::One)),
        Some("2") => Ok(Some(Form::Two)),
        Some("3") => Ok(Some(Form::Three)),
        Some("4") => Ok(Some(Form::Four)),
        Some(form) => bail!("no form {form}"),
    }
}

/// Takes what is read: `section`, in the forms 3 and 4 or in that of `form=1`, `whole`, a file,
/// `header`, or `end PLACE`. Returns it twice where it is one.
fn readings_of(kind: &str, words: &mut Words<'_>) -> Result<[Reading; 2]> {
    match kind {
        "section" => match form_of(words)? {
            Some(form) => Ok([Reading::Section(form); 2]),
            None => Ok([Reading::Section(Form::Three), Reading::Section(Form::Four)]),
        },
        "whole" => Ok([Reading::File; 2]),
        "header" => Ok([Reading::Header; 2]),
        "end" => Ok([Reading::End(words.next_number()?); 2]),
        _ => bail!("nothing that is read is called {kind}"),
    }
}

/// Takes the number of a unit and the `=` after it.
fn changed_unit(context: &Context<'_>, words: &mut Words<'_>) -> Result<usize> {
    let number = words.next_number()?;
    ensure!(words.take_word("="), "= is missing");
    ensure!(number < context.units.len(), "no such unit");
    Ok(number)
}

/// Takes the bytes that the words say: all units, those with one changed, `unit 3 = 0002`, or the
/// words' own.
fn bytes_said(context: &Context<'_>, words: &mut Words<'_>) -> Result<Vec<u8>> {
    let changed = if words.take_word("unit") {
        changed_unit(context, words)?
    } else if words.take_word("units") {
        usize::MAX
    } else {
        return pieces_of(context, words);
    };
    let other = pieces_of(context, words)?;
    let mut bytes = Vec::new(context.rt.alloc());
    for (number, unit) in context.units.iter().enumerate() {
        bytes.extend_from_slice(if number == changed { &other } else { unit })?;
    }
    Ok(bytes)
}

/// `section BYTES`, `whole BYTES`, `header BYTES`, `end PLACE BYTES`: what reading tells, where the
/// call after `calls=0` others fails; with `from=9` that of a section which begins there alone.
pub(crate) fn told(context: &Context<'_>, kind: &str, words: &mut Words<'_>) -> Result<String> {
    let alloc = context.rt.alloc();
    let calls = words.number("calls", ALL)?;
    let start = words.take("from");
    let [reading, other] = readings_of(kind, words)?;
    let bytes = bytes_said(context, words)?;
    if let Some(start) = start {
        let steps = Steps {
            bytes: &bytes,
            step: ALL,
            calls,
        };
        return Ok(told_by(alloc, other, steps, number_of(start)?)?);
    }
    Ok(told_by_both(alloc, [reading, other], &bytes, calls)?)
}

/// Returns what reading a byte a call tells, where the call after so many others fails; ahead too,
/// if a section is read, where that is a failed read.
fn told_of_calls(
    alloc: Global,
    reading: Reading,
    bytes: &[u8],
    calls: usize,
) -> Result<String, AllocError> {
    let step = 1;
    let told = told_by(alloc, reading, Steps { bytes, step, calls }, 0)?;
    match reading {
        Reading::Section(form) if told.as_str() == FAILED => {
            told_by(alloc, Reading::Ahead(form), Steps { bytes, step, calls }, 0)
        }
        _ => Ok(told),
    }
}

/// `calls section BYTES` and the like: how many bytes are read, one a call, before another failed
/// call makes no difference, and what they tell then. Each one before tells a failed read.
pub(crate) fn calls(context: &Context<'_>, words: &mut Words<'_>) -> Result<String> {
    let alloc = context.rt.alloc();
    let [_, reading] = readings_of(words.next()?, words)?;
    let bytes = bytes_said(context, words)?;
    for calls in 0..ALL {
        let told = told_of_calls(alloc, reading, &bytes, calls)?;
        if told.as_str() != FAILED {
            return Ok(format!(in alloc; "{calls} calls, {told}")?);
        }
    }
    Err(anyhow!("too many calls"))
}

/// `ahead BYTES`: what reading a section ahead tells, up to as many bytes a call as there are.
pub(crate) fn ahead(context: &Context<'_>, words: &mut Words<'_>) -> Result<String> {
    let bytes = bytes_said(context, words)?;
    let alloc = context.rt.alloc();
    let reading = Reading::Ahead(Form::Four);
    Ok(told_in_ways(alloc, reading, &bytes, ALL, &LONG_WAYS, String::new(alloc))?)
}

/// `cuts section BYTES` and the like: whether each beginning of the bytes tells that it is cut
/// short, at its end.
pub(crate) fn cuts(context: &Context<'_>, words: &mut Words<'_>) -> Result<String> {
    let alloc = context.rt.alloc();
    let readings = readings_of(words.next()?, words)?;
    let bytes = bytes_said(context, words)?;
    for length in 0..bytes.len() {
        let told = told_by_both(alloc, readings, &bytes[..length], ALL)?;
        let want = format!(in alloc; "43 at {length}")?;
        if told.as_str() != want.as_str() {
            return Ok(format!(in alloc; "{told} after {length}")?);
        }
    }
    Ok(format!(in alloc; "43 at the end of each of {}", bytes.len())?)
}

/// `content BYTES`: whose section it is, how long, what is left, and its contexts and states.
pub(crate) fn content(context: &Context<'_>, words: &mut Words<'_>) -> Result<String> {
    let alloc = context.rt.alloc();
    let form = form_of(words)?.unwrap_or(Form::Four);
    let bytes = bytes_said(context, words)?;
    let mut source = Bytes::new(&bytes);
    let (name, family, after) = decode(alloc, &mut source, 100, form.number())?;
    let end = end_text(alloc, after.wrapping_sub(100), source.ahead().len())?;
    let mut text = format!(in alloc; "{name} {end}")?;
    show_contexts(alloc, &mut text, family.builder(), "\n| call ")?;
    show_states(alloc, &mut text, family.builder(), "\n| ")?;
    Ok(text)
}

/// What is written.
#[derive(Clone, Copy)]
enum Writing<'a> {
    /// The section of a program with this name and this family.
    Section(Name, &'a Certificate),
    /// The header of a file with so many sections.
    Header(u32),
}

/// Writes it to this writer: what is told, and what was taken.
fn written_to(
    alloc: Global,
    writing: Writing<'_>,
    taker: Taker,
) -> (Result<(), CertFault>, Vec<u8>) {
    let mut sink = Counted::new(taker);
    let told = match writing {
        Writing::Section(name, family) => encode(alloc, name, family, &mut sink),
        Writing::Header(sections) => write_header(NEWEST_FORM, sections, &mut sink),
    };
    (told, sink.into_inner().bytes)
}

/// Whether a failed write is told, and a beginning of the bytes was taken, as long as it should be,
/// where the writer takes a byte a call, and the one after so many others fails or takes nothing.
fn is_failure_told(
    alloc: Global,
    writing: Writing<'_>,
    want: &[u8],
    calls: usize,
    takes_nothing: bool,
) -> bool {
    let taker = Taker {
        takes_nothing,
        ..Taker::new(alloc, 1, calls)
    };
    let (told, taken) = written_to(alloc, writing, taker);
    matches!(told, Err(CertFault::Write)) && want.get(..calls) == Some(taken.as_slice())
}

/// Returns how many calls of a writer are made before one fails, untold, where these bytes are
/// written; nothing where each is told.
fn untold_call(alloc: Global, writing: Writing<'_>, want: &[u8]) -> Option<usize> {
    for calls in 0..want.len() {
        if !is_failure_told(alloc, writing, want, calls, false)
            || !is_failure_told(alloc, writing, want, calls, true)
        {
            return Some(calls);
        }
    }
    None
}

/// Returns whether these bytes are written, and each failed call of the writer is told.
fn writing_text(alloc: Global, writing: Writing<'_>, want: &[u8]) -> Result<String, AllocError> {
    for step in [ALL, 1] {
        let (told, bytes) = written_to(alloc, writing, Taker::new(alloc, step, ALL));
        if told.is_err() || bytes.as_slice() != want {
            return format!(in alloc; "other bytes by {step}");
        }
    }
    match untold_call(alloc, writing, want) {
        Some(calls) => format!(in alloc; "another answer after {calls}"),
        None => String::from_str(alloc, "same"),
    }
}

/// `written BYTES as BYTES`: whether the section is written as these bytes, and each failed call of
/// the writer is told.
pub(crate) fn written(context: &Context<'_>, words: &mut Words<'_>) -> Result<String> {
    let alloc = context.rt.alloc();
    let form = form_of(words)?.unwrap_or(Form::Four);
    let bytes = bytes_said(context, words)?;
    ensure!(words.take_word("as"), "as is missing");
    let want = bytes_said(context, words)?;
    let (name, family, _) = decode(alloc, &mut Bytes::new(&bytes), 0, form.number())?;
    Ok(writing_text(alloc, Writing::Section(name, &family), &want)?)
}

/// `head SECTIONS`: the header that is written. Each failed call of the writer is told.
pub(crate) fn head(context: &Context<'_>, words: &mut Words<'_>) -> Result<String> {
    let alloc = context.rt.alloc();
    let header = Writing::Header(words.next_number()?);
    let (told, bytes) = written_to(alloc, header, Taker::new(alloc, 4, ALL));
    told?;
    if let Some(calls) = untold_call(alloc, header, &bytes) {
        bail!("another answer after {calls}");
    }
    Ok(hex::encode_upper(alloc, &bytes)?)
}
