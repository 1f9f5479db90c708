//! A file of cases, in blocks: a line that says what is asked for, and the lines of its answer.

use anyhow::{Result, anyhow};
use std::alloc::Global;

/// A line, and the lines of its answer that follow it.
#[derive(Drop)]
pub(crate) struct Block<'a> {
    /// Where the line stands in the file, from 1.
    pub(crate) number: usize,
    /// The line before `->`.
    pub(crate) asked: &'a str,
    /// What stands after `->` in it, if there is one.
    pub(crate) answer: Option<&'a str>,
    /// The lines that follow it, each begun with `|` or `!`.
    pub(crate) lines: Vec<&'a str>,
}

/// Returns what stands before a comment after ` #`.
fn before_comment(line: &str) -> &str {
    match line.split_once(" #") {
        Some((text, _)) => text.trim_end(),
        None => line.trim_end(),
    }
}

/// Returns the block that a line begins. Without an answer it may end with a comment.
fn block_of(alloc: Global, number: usize, line: &str) -> Block<'_> {
    let (asked, answer) = match line.split_once("->") {
        Some((asked, answer)) => (asked.trim_end(), Some(answer.trim())),
        None => (before_comment(line), None),
    };
    Block {
        number,
        asked,
        answer,
        lines: Vec::new(alloc),
    }
}

/// Adds a line of an answer to the last block.
fn add_answer<'a>(blocks: &mut Vec<Block<'a>>, number: usize, line: &'a str) -> Result<()> {
    match blocks.last_mut() {
        Some(block) => Ok(block.lines.push(line.trim_end())?),
        None => Err(anyhow!("{number}: an answer to nothing")),
    }
}

/// Adds a line to the blocks: to the last one, if it is a line of an answer. Blank lines and lines
/// that begin with `#` are passed over.
fn add_line<'a>(
    alloc: Global,
    blocks: &mut Vec<Block<'a>>,
    number: usize,
    line: &'a str,
) -> Result<()> {
    let first = line.trim_start();
    if first.is_empty() || first.starts_with('#') {
        return Ok(());
    }
    match line.as_bytes() {
        [b'|' | b'!', ..] => add_answer(blocks, number, line),
        _ => Ok(blocks.push(block_of(alloc, number, line))?),
    }
}

/// Returns the blocks of a file.
pub(crate) fn blocks_of(alloc: Global, text: &str) -> Result<Vec<Block<'_>>> {
    let mut blocks = Vec::new(alloc);
    for (place, line) in text.lines().enumerate() {
        add_line(alloc, &mut blocks, place.saturating_add(1), line)?;
    }
    Ok(blocks)
}
