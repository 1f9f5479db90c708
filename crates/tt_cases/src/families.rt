//! Cases of families: their check, and the search for the least one.

ghost use Rattle.tt_setting.specs.Entries.{Ascends};
ghost use Rattle.tt_setting.specs.Settings.{setting_of};
ghost use Rattle.tt_abs.specs.StateFlow.{FunctionsFit};

use crate::builders::show_contexts;
use crate::context::Context;
use crate::places::{calls_of, frame_text, refusal_text};
use crate::programs::{Programs, bytes_given, cut_all};
use crate::states::state_from;
use crate::words::{Words, body_of, number_of, pair_of};
use anyhow::{Context as _, Result, bail, ensure};
use std::alloc::Global;
use tt_abs::{Kind, Setting, StepFault};
use tt_code::Frame;
use tt_family::{Budget, Builder, Certificate, check, check_full};
use tt_find::{Found, explore, find};
use tt_test_fixtures::families::{add, join};

/// The most contexts that a word may say.
const MOST: u32 = 65_535;

/// How many points are listed before they are only counted.
const MOST_LISTED: u32 = 20;

/// Adds the contexts of a word: `0:3>7` below context 0. Whether there may be so many.
pub(crate) fn add_contexts(builder: &mut Builder, word: &str) -> Result<bool> {
    let (parent, calls) = pair_of(word, ':')?;
    let parent = number_of(parent)?;
    ensure!(parent < builder.contexts(), "no such context");
    let (first, last) = calls_of(calls)?;
    for turn in first.turn..=last.min(MOST) {
        match add(builder, parent, Frame { turn, ..first }) {
            Ok(_) => {}
            Err(StepFault::Refused(_)) => return Ok(false),
            Err(StepFault::OutOfMemory(_)) => bail!("no memory for a context"),
        }
    }
    Ok(true)
}

/// Joins the next state, which begins with these functions, at its point, `1:3`; or in each of the
/// contexts of `1-9:3`.
fn put_state(
    alloc: Global,
    builder: &mut Builder,
    words: &mut Words<'_>,
    start: &[(u16, u32)],
) -> Result<()>
    requires { Ascends start.now }
{
    let (contexts, offset) = pair_of(words.next()?, ':')?;
    let (first, last) = contexts.split_once('-').unwrap_or((contexts, contexts));
    let (first, last): (u32, u32) = (number_of(first)?, number_of(last)?);
    let offset = number_of(offset)?;
    let state = state_from(alloc, words, start)?;
    for context in first..=last.min(MOST) {
        let joined = join(builder, context, offset, &state);
        ensure!(joined.is_ok(), "a state that can't be joined");
    }
    Ok(())
}

/// Adds what the words say to a family: its contexts, each after `call`, and its states.
fn add_all(
    alloc: Global,
    builder: &mut Builder,
    words: &mut Words<'_>,
    start: &[(u16, u32)],
) -> Result<()>
    requires { Ascends start.now }
{
    for _ in 0..MOST {
        if words.is_empty() {
            break;
        }
        if words.take_word("call") {
            ensure!(add_contexts(builder, words.next()?)?, "too many contexts");
        } else {
            put_state(alloc, builder, words, start)?;
        }
    }
    Ok(())
}

/// Returns the family that the words say.
fn family_of(alloc: Global, words: &mut Words<'_>, start: &[(u16, u32)]) -> Result<Certificate>
    requires { Ascends start.now }
{
    let mut builder = Builder::new(alloc);
    add_all(alloc, &mut builder, words, start)?;
    builder.finish().ok().context("no memory for the family")
}

/// Adds the points of the states that a family lists; where there are many, how many.
fn show_points(text: &mut String, family: &Certificate) -> Result<()> {
    if family.points() > MOST_LISTED {
        return Ok(write!(text, " {} points", family.points())?);
    }
    let mut states = family.states();
    for _ in 0..family.points() {
        if let Some((context, offset, _)) = states.take_first() {
            write!(text, " {context}:{offset}")?;
        }
    }
    Ok(())
}

/// Returns how large a family is that was found, and which of its states are listed; also why it
/// isn't good, if it isn't.
fn found_text(alloc: Global, setting: &Setting<'_>, found: &Found, points: u32) -> Result<String>
    requires { Ascends setting.now.start.now }
{
    let family = &found.certificate;
    let mut text = format!(in alloc; "contexts {} points {points}", family.contexts())?;
    write!(text, " updates {} listed", found.updates)?;
    show_points(&mut text, family)?;
    if let Err(refusal) = check(alloc, setting, family) {
        write!(text, ", checked {}", refusal_text(alloc, &refusal)?)?;
    }
    Ok(text)
}

/// Returns how large the least family is, and which of its states are listed.
fn find_text(alloc: Global, setting: &Setting<'_>) -> Result<String>
    requires ascends { Ascends setting.now.start.now }
    requires fits { FunctionsFit (setting_of setting.now) setting.now.start.now }
{
    let points = explore(alloc, setting, &mut Budget::unlimited())?
        .found
        .certificate
        .points();
    match find(alloc, setting) {
        Ok(found) => found_text(alloc, setting, &found, points),
        Err(refusal) => Ok(refusal_text(alloc, &refusal)?),
    }
}

/// Returns which states a search lists, and why it ends, where the program is refused.
fn explore_text(alloc: Global, setting: &Setting<'_>) -> Result<String>
    requires ascends { Ascends setting.now.start.now }
    requires fits { FunctionsFit (setting_of setting.now) setting.now.start.now }
{
    let explored = explore(alloc, setting, &mut Budget::unlimited())?;
    let mut text = String::from_str(alloc, "listed")?;
    show_points(&mut text, &explored.found.certificate)?;
    if let Some(refusal) = &explored.fault {
        write!(text, ", {}", refusal_text(alloc, refusal)?)?;
    }
    Ok(text)
}

/// Returns what is told of a program in a setting. For a check the words say the family, which
/// lists all of its states where the check is to be `full`.
fn told(alloc: Global, setting: &Setting<'_>, words: &mut Words<'_>, kind: &str) -> Result<String>
    requires ascends { Ascends setting.now.start.now }
    requires fits { FunctionsFit (setting_of setting.now) setting.now.start.now }
{
    match kind {
        "find" => return find_text(alloc, setting),
        "explore" => return explore_text(alloc, setting),
        _ => {}
    }
    let family = family_of(alloc, words, setting.start)?;
    let checked = match kind {
        "full" => check_full(alloc, setting, &family),
        _ => check(alloc, setting, &family),
    };
    let text = match checked {
        Ok(()) => String::from_str(alloc, "good"),
        Err(refusal) => refusal_text(alloc, &refusal),
    };
    Ok(text?)
}

/// Returns what is told of a program of this kind, without functions, or with function 0, where the
/// words give its body.
fn told_of_program(
    context: &Context<'_>,
    programs: &Programs<'_>,
    program: Kind,
    words: &mut Words<'_>,
    kind: &str,
) -> Result<String> {
    let main = match program {
        Kind::Font => &programs.font,
        Kind::Cvt => &programs.prep,
        Kind::Glyph { .. } => &programs.glyph,
    };
    let setting = Setting {
        limits: context.limits,
        cvt: u32::from(context.cvt),
        kind: program,
        main,
        font: &programs.font,
        prep: &programs.prep,
        start: &[],
    };
    let alloc = context.rt.alloc();
    ensure!(context.limits.functions > 0, "no function may be defined");
    match words.take("start") {
        Some(body) => {
            let start = [(0, body_of(body)?)];
            let setting = Setting {
                start: &start,
                ..setting
            };
            told(alloc, &setting, words, kind)
        }
        None => told(alloc, &setting, words, kind),
    }
}

/// `full PROGRAMS FAMILY` and `sparse PROGRAMS FAMILY`: what the check of a family tells, and that
/// of one which may leave states out. `find PROGRAMS`: how many contexts and points the least family
/// has, how many updates made it, and which states are listed; or why there is none. `explore
/// PROGRAMS`: which states are known, and why there is no least family, where that is so. Of the
/// programs `f=`, `p=` and `g=` the last one that is given is looked at; it starts with function 0
/// where `start=` gives its body.
pub(crate) fn told_of(context: &Context<'_>, kind: &str, words: &mut Words<'_>) -> Result<String> {
    let program = match (words.has("g"), words.has("p")) {
        (true, _) => context.glyph(),
        (false, true) => Kind::Cvt,
        (false, false) => Kind::Font,
    };
    let alloc = context.rt.alloc();
    let bytes = bytes_given(alloc, words)?;
    let programs = cut_all(alloc, &bytes.font, &bytes.prep, &bytes.glyph)?;
    told_of_program(context, &programs, program, words, kind)
}

/// Adds the calls that are open in a context of a family, the outermost first.
fn show_frames(alloc: Global, text: &mut String, family: &Certificate, number: u32) -> Result<()> {
    ensure!(number < family.contexts(), "no such context");
    text.push_str(" calls")?;
    let frames = family.builder().frames(alloc, number)?;
    for frame in &frames {
        write!(text, " {}", frame_text(alloc, frame)?)?;
    }
    Ok(())
}

/// Adds the functions that a family knows where the program ends, if it has a state there.
fn show_end(text: &mut String, family: &Certificate, end: u32) -> Result<()> {
    match family.end_functions(end) {
        Some(functions) => write!(text, " {} functions at the end", functions.len())?,
        None => text.push_str(" no end")?,
    }
    Ok(())
}

/// Adds how many cells the stack of a family's state has, if there is one at this point, `1:3`.
fn show_depth(text: &mut String, family: &Certificate, point: &str) -> Result<()> {
    let (context, offset) = pair_of(point, ':')?;
    match family.state(number_of(context)?, number_of(offset)?) {
        Some(state) => write!(text, " depth {}", state.depth())?,
        None => text.push_str(" no state")?,
    }
    Ok(())
}

/// Returns the contexts and the points of a family, and what else is asked for.
fn family_text(
    alloc: Global,
    family: &Certificate,
    calls: Option<&str>,
    depth: Option<&str>,
    end: Option<&str>,
) -> Result<String> {
    let mut text = String::from_str(alloc, "contexts")?;
    show_contexts(alloc, &mut text, family.builder(), " ")?;
    text.push_str(" points")?;
    show_points(&mut text, family)?;
    if let Some(number) = calls {
        show_frames(alloc, &mut text, family, number_of(number)?)?;
    }
    if let Some(point) = depth {
        show_depth(&mut text, family, point)?;
    }
    if let Some(end) = end {
        show_end(&mut text, family, number_of(end)?)?;
    }
    Ok(text)
}

/// `family FAMILY`: the contexts and the points of a finished family, in its order; with `calls=3`
/// the calls of context 3, with `depth=3:7` how many cells the stack of its state at offset 7 has,
/// with `end=9` how many functions are known where a program of 9 bytes ends.
pub(crate) fn family(context: &Context<'_>, words: &mut Words<'_>) -> Result<String> {
    let alloc = context.rt.alloc();
    let (calls, depth, end) = (words.take("calls"), words.take("depth"), words.take("end"));
    let family = family_of(alloc, words, &[])?;
    family_text(alloc, &family, calls, depth, end)
}
