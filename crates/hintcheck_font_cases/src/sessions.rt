//! Sessions: the programs of a font checked one by one.

ghost use Rattle.hintcheck_certificates.specs.FindingSessions.{IsForFinding};
ghost use Rattle.hintcheck_certificates.specs.Sessions.{IsForChecking};

use crate::faults::{Fault, fault_text};
use anyhow::Result;
use hintcheck_certificates::{CheckFontFault, FindFontFault, Outcome, Session};
use hintcheck_fonts::{Budget, Refused, read_font};
use std::alloc::Global;
use std::fmt::Write;
use tt_cases::context::Context;
use tt_cases::files::{likeness, next_held};
use tt_cases::words::{Words, number_of};
use tt_cert::{NEWEST_FORM, encode, write_header};
use tt_find::Found;
use tt_font::Font;
use tt_stream::{Bytes, Counted, Source};
use tt_test_fixtures::streams::Steps;

/// What a call answers that finds a program.
type Answer = Result<Option<(Outcome, Option<Found>)>, FindFontFault>;

/// Where sections are written.
type Sections = Counted<Vec<u8>>;

/// Returns what a call tells: the name of a program that is accepted, the line of one that is
/// refused, or that none is left.
fn told_of_next(alloc: Global, next: Option<Outcome>) -> Result<String> {
    let Some(outcome) = next else {
        return Ok(String::from_str(alloc, "none")?);
    };
    match outcome.refused {
        None => Ok(format!(in alloc; "{}", outcome.program)?),
        Some(refused) => Ok(format!(in alloc; "{refused}")?),
    }
}

/// Returns the program of a font that the calls of a session tell is refused, if one does, up to the
/// end.
pub(crate) fn refused_in_session(
    alloc: Global,
    font: &Font<'_>,
    certificate: Steps<'_>,
) -> Result<Option<Refused>, CheckFontFault> {
    let mut source = Counted::new(certificate);
    let mut session = Session::new(font);
    let mut refused = None;
    for _ in 0..u32::from(font.glyph_count()) + 3 {
        match session.check_next(alloc, &mut source)? {
            Some(outcome) if outcome.refused.is_some() => refused = outcome.refused,
            Some(_) => {}
            None => return Ok(refused),
        }
    }
    Ok(refused)
}

/// Returns what a call answers, as text.
fn told_of_answer<F: Fault + Drop>(
    alloc: Global,
    answer: Result<Option<Outcome>, F>,
) -> Result<String> {
    match answer {
        Ok(next) => told_of_next(alloc, next),
        Err(fault) => fault_text(alloc, &fault),
    }
}

/// Returns the budget that a word tells: so many points, or with `=` the one before.
fn budget_of(word: &str, before: Budget) -> Result<Budget> {
    if word == "=" {
        return Ok(before);
    }
    Ok(Budget::of(number_of(word)?))
}

/// `session FONT CERT BUDGET..`: what the calls tell, each within a budget of so many points, or with
/// `=` within that of the call before. In brackets how many points of the budget are made then, with
/// `!` where that is exceeded, and how many bytes of the certificate are left.
pub(crate) fn session(context: &Context<'_>, words: &mut Words<'_>) -> Result<String> {
    let alloc = context.rt.alloc();
    let file = next_held(context, words)?;
    let certificate = next_held(context, words)?;
    let font = read_font(alloc, &file)?;
    session_on(alloc, &font, &certificate, words)
}

/// Returns what the calls on a font and its certificate tell. The session is owned here, where
/// nothing else can fail: each place where it may be dropped has a long proof.
fn session_on(
    alloc: Global,
    font: &Font<'_>,
    certificate: &[u8],
    words: &mut Words<'_>,
) -> Result<String> {
    let mut session = Session::new(font);
    told_by_checks(alloc, &mut session, certificate, words)
}

/// Returns what the calls of a session tell that check the programs by a certificate.
fn told_by_checks(
    alloc: Global,
    session: &mut Session<'_>,
    certificate: &[u8],
    words: &mut Words<'_>,
) -> Result<String>
    requires { IsForChecking session.old }
{
    let mut source = Bytes::new(certificate);
    let mut budget = Budget::unlimited();
    let mut text = String::new(alloc);
    for _ in 0..words.len() {
        budget = budget_of(words.next()?, budget)?;
        add_check(alloc, &mut text, session, &mut source, &mut budget)?;
    }
    Ok(text)
}

/// Adds what the next call tells that checks a program by a certificate.
fn add_check(
    alloc: Global,
    text: &mut String,
    session: &mut Session<'_>,
    source: &mut Bytes<'_>,
    budget: &mut Budget,
) -> Result<()>
    requires { IsForChecking session.old }
    ensures { IsForChecking session.new }
{
    let told = told_of_answer(alloc, session.check_next_within(alloc, source, budget))?;
    let mark = if budget.is_exceeded() { "!" } else { "" };
    write!(
        text,
        "{told} [{}{mark} {}] ",
        budget.made(),
        source.ahead().len()
    )?;
    Ok(())
}

/// Returns the first refused program of a font by its certificate, of which nothing is read after
/// that one's section; none where each is accepted.
fn first_refused<S: Source>(
    alloc: Global,
    font: &Font<'_>,
    source: &mut S,
) -> Result<Option<Refused>, CheckFontFault> {
    let mut session = Session::new(font);
    for _ in 0..u32::from(font.glyph_count()) + 3 {
        let Some(outcome) = session.check_next(alloc, source)? else {
            return Ok(None);
        };
        if outcome.refused.is_some() {
            return Ok(outcome.refused);
        }
    }
    Ok(None)
}

/// `first FONT CERT`: the first refused program of a font by its certificate, and how many bytes of
/// that aren't read.
pub(crate) fn first(context: &Context<'_>, words: &mut Words<'_>) -> Result<String> {
    let alloc = context.rt.alloc();
    let file = next_held(context, words)?;
    let certificate = next_held(context, words)?;
    let font = read_font(alloc, &file)?;
    let mut source = Bytes::new(&certificate);
    let told = match first_refused(alloc, &font, &mut source) {
        Ok(None) => String::from_str(alloc, "none")?,
        Ok(Some(refused)) => format!(in alloc; "{refused}")?,
        Err(fault) => fault_text(alloc, &fault)?,
    };
    Ok(format!(in alloc; "{told}, {} left", source.ahead().len())?)
}

/// Returns what a call answers that finds a program, whose section is written.
fn told_of_found(alloc: Global, answer: Answer, sink: &mut Sections) -> Result<String> {
    match answer {
        Ok(Some((outcome, found))) => {
            if let Some(found) = found {
                encode(alloc, outcome.program, &found.certificate, sink)?;
            }
            told_of_next(alloc, Some(outcome))
        }
        Ok(None) => told_of_next(alloc, None),
        Err(fault) => fault_text(alloc, &fault),
    }
}

/// `search FONT WANT BUDGET..`: what the calls tell that find the programs one by one, each within a
/// budget as of `session`, or with `-` without one, and how their sections after a header compare
/// with a certificate.
pub(crate) fn search(context: &Context<'_>, words: &mut Words<'_>) -> Result<String> {
    let alloc = context.rt.alloc();
    let file = next_held(context, words)?;
    let want = next_held(context, words)?;
    let font = read_font(alloc, &file)?;
    search_on(alloc, &font, &want, words)
}

/// Returns what the calls that find a font's programs tell, and how their sections compare. The
/// session is owned here, as in `session_on`.
fn search_on(alloc: Global, font: &Font<'_>, want: &[u8], words: &mut Words<'_>) -> Result<String> {
    let sections = u32::from(font.glyph_count()) + 2;
    let mut session = Session::new(font);
    told_by_searches(alloc, &mut session, sections, want, words)
}

/// Returns what the calls of a session tell that find so many programs, and how the sections
/// compare.
fn told_by_searches(
    alloc: Global,
    session: &mut Session<'_>,
    sections: u32,
    want: &[u8],
    words: &mut Words<'_>,
) -> Result<String>
    requires { IsForFinding session.old }
{
    let mut sink = Counted::new(Vec::new(alloc));
    write_header(NEWEST_FORM, sections, &mut sink)?;
    let mut budget = Budget::unlimited();
    let mut text = String::new(alloc);
    for _ in 0..words.len() {
        let word = words.next()?;
        add_search(alloc, &mut text, session, &mut sink, word, &mut budget)?;
    }
    text.push_str(likeness(&sink.into_inner(), want))?;
    Ok(text)
}

/// Adds what the next call tells that finds a program, whose section is written. It is given the
/// budget that a word tells, or none where that is `-`.
fn add_search(
    alloc: Global,
    text: &mut String,
    session: &mut Session<'_>,
    sink: &mut Sections,
    word: &str,
    budget: &mut Budget,
) -> Result<()>
    requires { IsForFinding session.old }
    ensures { IsForFinding session.new }
{
    let answer = if word == "-" {
        session.find_next(alloc)
    } else {
        *budget = budget_of(word, *budget)?;
        session.find_next_within(alloc, budget)
    };
    let told = told_of_found(alloc, answer, sink)?;
    write!(text, "{told} ")?;
    Ok(())
}
