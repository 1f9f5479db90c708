//! The kinds of cases, each a function from the words of a line to the answer.

use crate::context::Context;
use crate::lengths::lengths;
use crate::words::Words;
use crate::{
    builders, families, files, fonts, names, orders, programs, sections, stacks, steps, symbolic,
};
use anyhow::{Result, ensure};

/// The kinds of cases that a program has beside these.
pub trait Kinds {
    /// Returns the answer to a case of this kind.
    fn answer(&self, context: &Context<'_>, kind: &str, words: &mut Words<'_>) -> Result<String>;
}

/// Returns the answer to a case on programs and what is known in them, or else of a program's kinds.
fn answer_on_programs<K: Kinds>(
    kinds: &K,
    context: &Context<'_>,
    kind: &str,
    words: &mut Words<'_>,
) -> Result<String> {
    match kind {
        "state" => orders::state(context, words),
        "order" => orders::order(context, words),
        "join" => orders::join(context, words),
        "stack" => stacks::stack(context, words),
        "share" => stacks::share(context, words),
        "cut" => programs::cut_text(context, words),
        "at" => programs::at(context, words),
        "step" => steps::step(context, words),
        "full" | "sparse" | "find" | "explore" => families::told_of(context, kind, words),
        "builder" => builders::builder(context, words),
        "family" => families::family(context, words),
        "symbolic" => symbolic::symbolic(context, words),
        "turns" => symbolic::turns(context, words),
        "kept" => symbolic::kept(context, words),
        _ => kinds.answer(context, kind, words),
    }
}

/// Returns the answer to a case on certificates, font files or other files, or else of another kind.
fn answer_of_kind<K: Kinds>(
    kinds: &K,
    context: &Context<'_>,
    kind: &str,
    words: &mut Words<'_>,
) -> Result<String> {
    match kind {
        "section" | "whole" | "header" | "end" => sections::told(context, kind, words),
        "cuts" => sections::cuts(context, words),
        "calls" => sections::calls(context, words),
        "ahead" => sections::ahead(context, words),
        "content" => sections::content(context, words),
        "written" => sections::written(context, words),
        "head" => sections::head(context, words),
        "read" => fonts::read(context, words),
        "limits_of" => fonts::limits_of(context, words),
        "name" => names::name(context, words),
        "named" => names::named(context, words),
        "compare" => files::compare(context, words),
        "size" => files::size(context, words),
        _ => answer_on_programs(kinds, context, kind, words),
    }
}

/// Returns the answer to words of which the first says the kind, but not `lengths`.
pub(crate) fn answer_once<K: Kinds>(
    kinds: &K,
    context: &Context<'_>,
    words: &mut Words<'_>,
) -> Result<String> {
    let kind = words.next()?;
    let answer = answer_of_kind(kinds, context, kind, words)?;
    ensure!(words.is_empty(), "a word too many");
    Ok(answer)
}

/// Returns the answer to words of which the first says the kind.
pub(crate) fn answer<K: Kinds>(
    kinds: &K,
    context: &Context<'_>,
    words: &mut Words<'_>,
) -> Result<String> {
    if words.take_word("lengths") {
        return lengths(kinds, context, words);
    }
    answer_once(kinds, context, words)
}
