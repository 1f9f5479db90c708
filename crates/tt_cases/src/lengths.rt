//! Cases on each beginning of a file.

use crate::context::Context;
use crate::files::next_held;
use crate::kinds::{Kinds, answer_once};
use crate::words::Words;
use anyhow::Result;
use std::fs;

/// Returns what a case on the file `cut` tells while that has `length` bytes, with `N` for this
/// number where it is that of a byte.
fn told_of_cut<K: Kinds>(
    kinds: &K,
    context: &Context<'_>,
    asked: &[&str],
    length: usize,
) -> Result<String> {
    let alloc = context.rt.alloc();
    let mut words = Words::listed(alloc, asked)?;
    let told = answer_once(kinds, context, &mut words)?;
    let phrase = format!(in alloc; "at byte {length}")?;
    match told.split_once(phrase.as_str()) {
        Some((before, after)) => Ok(format!(in alloc; "{before}at byte N{after}")?),
        None => Ok(told),
    }
}

/// `lengths NAME KIND WORDS`: what a case on the file `cut` tells, where that is a beginning of the
/// named file, of each length below its own.
pub(crate) fn lengths<K: Kinds>(
    kinds: &K,
    context: &Context<'_>,
    words: &mut Words<'_>,
) -> Result<String> {
    let alloc = context.rt.alloc();
    let bytes = next_held(context, words)?;
    let asked = words.rest(alloc)?;
    let mut told = String::new(alloc);
    for length in 0..bytes.len() {
        fs::write(context.rt, "cut", &bytes[..length])?;
        let is = told_of_cut(kinds, context, &asked, length)?;
        if length > 0 && is.as_str() != told.as_str() {
            return Ok(format!(in alloc; "{told}, but at {length} {is}")?);
        }
        told = is;
    }
    Ok(told)
}
