//! The command: words, and what is printed.

use anyhow::Result;
use hintcheck::command;
use std::alloc::Global;
use std::str;
use tt_cases::context::Context;
use tt_cases::files::maxp;
use tt_cases::words::{Words, bytes_of};
use tt_stream::Counted;

/// Returns the letter of a word for the command that a letter of a case stands for: `_` a space, and
/// `^` a line feed.
fn letter_of(letter: char) -> char {
    match letter {
        '_' => ' ',
        '^' => '\n',
        letter => letter,
    }
}

/// Returns the word for the command that a word of a case stands for: `''` an empty one, `MAXP` the
/// digits of the `maxp` table of the context's limits, `18*65` the digits of 65 bytes, and in other
/// words `_` a space and `^` a line feed.
pub(crate) fn spelled(context: &Context<'_>, word: &str) -> Result<String> {
    let alloc = context.rt.alloc();
    if word == "MAXP" {
        return Ok(hex::encode(alloc, maxp(context, 1)?)?);
    }
    if word.contains('*') {
        return Ok(hex::encode(alloc, bytes_of(alloc, word)?)?);
    }
    let mut text = String::new(alloc);
    for letter in word.chars().filter(|c| *c != '\'') {
        text.push(letter_of(letter))?;
    }
    Ok(text)
}

/// Returns the program's name, and the words for the command that all words of a case stand for.
pub(crate) fn spelled_all(context: &Context<'_>, words: &mut Words<'_>) -> Result<Vec<String>> {
    let alloc = context.rt.alloc();
    let mut spellings = Vec::new(alloc);
    spellings.push(String::from_str(alloc, "hintcheck")?)?;
    for word in words.rest(alloc)? {
        spellings.push(spelled(context, word)?)?;
    }
    Ok(spellings)
}

/// Adds the lines of what was printed, each after a mark.
fn push_lines(text: &mut String, mark: char, printed: &str) -> Result<()> {
    if printed.is_empty() {
        return Ok(());
    }
    for line in printed.strip_suffix('\n').unwrap_or(printed).split('\n') {
        text.push('\n')?;
        text.push(mark)?;
        if !line.is_empty() {
            text.push(' ')?;
        }
        text.push_str(line)?;
    }
    if !printed.ends_with('\n') {
        text.push_str(" (without an end of line)")?;
    }
    Ok(())
}

/// Returns the text of a status and of what was printed.
fn told_of_run(alloc: Global, status: u8, out: &[u8], err: &[u8]) -> Result<String> {
    let mut text = format!(in alloc; "{status}")?;
    if !out.is_empty() && !err.is_empty() {
        text.push_str(" on both outputs")?;
    }
    push_lines(&mut text, '|', str::from_utf8(out)?)?;
    push_lines(&mut text, '!', str::from_utf8(err)?)?;
    Ok(text)
}

/// `run WORDS`: the exit status of the command, and what it prints.
pub(crate) fn run(context: &Context<'_>, words: &mut Words<'_>) -> Result<String> {
    let alloc = context.rt.alloc();
    let spellings = spelled_all(context, words)?;
    let texts: Vec<&str> = spellings.iter().map(|word| word.as_str()).collect(alloc)?;
    let mut out = Counted::new(Vec::new(alloc));
    let mut err = Counted::new(Vec::new(alloc));
    let status = command(context.rt, &texts, &mut out, &mut err);
    told_of_run(alloc, status, &out.into_inner(), &err.into_inner())
}
