//! Cases of the builder of families: what it takes, and what it holds then.

use crate::context::Context;
use crate::families::add_contexts;
use crate::places::frame_text;
use crate::states::{plain_text, state_from};
use crate::words::{Words, number_of, pair_of};
use anyhow::{Context as _, Result, bail, ensure};
use std::alloc::Global;
use std::mem;
use tt_abs::{Failed, State, StepFault};
use tt_family::Builder;
use tt_test_fixtures::families::join;

/// Joins the next state at its point, and returns what is told.
fn put(alloc: Global, builder: &mut Builder, words: &mut Words<'_>) -> Result<&'static str> {
    let (context, offset) = pair_of(words.next()?, ':')?;
    let (context, offset) = (number_of(context)?, number_of(offset)?);
    let state = state_from(alloc, words, &[])?;
    match join(builder, context, offset, &state) {
        Ok(true) => Ok(" changed"),
        Ok(false) => Ok(" same"),
        Err(StepFault::Refused(Failed::OtherDepth { .. })) => Ok(" 38"),
        Err(_) => bail!("a state that can't be joined"),
    }
}

/// Finishes a builder's family, and goes on in its memory.
fn finish(alloc: Global, builder: &mut Builder) -> Result<()> {
    let whole = mem::replace(builder, Builder::new(alloc));
    let family = whole.finish().ok().context("no memory for the family")?;
    *builder = family.into_builder();
    Ok(())
}

/// Takes the next step: `call 0:5>7` adds a context, unless there are too many, `put 0:7 STATE` joins
/// a state, `clear` clears the builder, and `finish` finishes the family and goes on in its memory.
fn step(
    alloc: Global,
    builder: &mut Builder,
    words: &mut Words<'_>,
    text: &mut String,
) -> Result<()> {
    match words.next()? {
        "call" => {
            if !add_contexts(builder, words.next()?)? {
                text.push_str(" 39")?;
            }
        }
        "put" => text.push_str(put(alloc, builder, words)?)?,
        "clear" => builder.clear(),
        "finish" => finish(alloc, builder)?,
        word => bail!("no step of a builder is called {word}"),
    }
    Ok(())
}

/// Adds the contexts of a builder, each with this before it.
pub(crate) fn show_contexts(
    alloc: Global,
    text: &mut String,
    builder: &Builder,
    before: &str,
) -> Result<()> {
    for number in 1..builder.contexts() {
        if let Some((parent, frame)) = builder.context(number) {
            write!(text, "{before}{parent}:{}", frame_text(alloc, &frame)?)?;
        }
    }
    Ok(())
}

/// Ensures that a builder has this state at this point, and none there beyond its last context.
fn ensure_at(builder: &Builder, context: u32, offset: u32, state: &State) -> Result<()> {
    let found = builder.state(context, offset);
    ensure!(
        found.is_some_and(|found| found.is_same(state)),
        "another state at {context}:{offset}"
    );
    let beyond = builder.state(builder.contexts(), offset);
    ensure!(beyond.is_none(), "a state beyond the contexts");
    Ok(())
}

/// Adds the states of a builder and their points, each with this before it.
pub(crate) fn show_states(
    alloc: Global,
    text: &mut String,
    builder: &Builder,
    before: &str,
) -> Result<()> {
    let mut states = builder.states();
    for _ in 0..builder.points() {
        if let Some((context, offset, state)) = states.take_first() {
            ensure_at(builder, context, offset, state)?;
            write!(
                text,
                "{before}{context}:{offset} {}",
                plain_text(alloc, state)?
            )?;
        }
    }
    Ok(())
}

/// `builder STEPS`: what each put tells, and then the contexts and the states that are held.
pub(crate) fn builder(context: &Context<'_>, words: &mut Words<'_>) -> Result<String> {
    let alloc = context.rt.alloc();
    let mut builder = Builder::new(alloc);
    let mut text = String::from_str(alloc, "puts")?;
    for _ in 0..words.len() {
        if words.is_empty() {
            break;
        }
        step(alloc, &mut builder, words, &mut text)?;
    }
    text.push_str(" contexts")?;
    show_contexts(alloc, &mut text, &builder, " ")?;
    write!(text, " points {}", builder.points())?;
    show_states(alloc, &mut text, &builder, " ")?;
    Ok(text)
}
