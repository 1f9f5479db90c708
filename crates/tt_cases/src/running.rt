//! Cases are run, and their answers are compared with those that are wanted.

use crate::blocks::{Block, blocks_of};
use crate::context::Context;
use crate::kinds::{Kinds, answer};
use crate::words::Words;
use anyhow::{Result, ensure};
use std::alloc::Global;
use std::process::ExitCode;
use std::{env, fs};

/// How many cases were run, and how many of them failed or couldn't be read.
#[derive(Clone, Copy, Default)]
struct Tally {
    cases: u32,
    failed: u32,
}

impl Tally {
    fn add(&mut self, other: Tally) {
        self.cases = self.cases.saturating_add(other.cases);
        self.failed = self.failed.saturating_add(other.failed);
    }

    /// Counts a case.
    fn count(&mut self, has_failed: bool) {
        let failed = u32::from(has_failed);
        self.add(Tally { cases: 1, failed });
    }
}

/// Returns the answer that a block wants: what stands after its `->`, of which the part from `|` or
/// `!` on is a line of its own, and its lines.
fn wanted(alloc: Global, answer: &str, lines: &[&str]) -> Result<String> {
    let mut text = match (answer.split_once(" | "), answer.split_once(" ! ")) {
        (Some((first, line)), _) => format!(in alloc; "{first}\n| {line}")?,
        (None, Some((first, line))) => format!(in alloc; "{first}\n! {line}")?,
        (None, None) => String::from_str(alloc, answer)?,
    };
    for line in lines {
        text.push_str("\n")?;
        text.push_str(line)?;
    }
    Ok(text)
}

/// Whether an answer is the wanted one, in which `...` stands for any text.
fn fits(want: &str, is: &str) -> bool {
    let Some((first, others)) = want.split_once("...") else {
        return want == is;
    };
    let Some(mut rest) = is.strip_prefix(first) else {
        return false;
    };
    let mut last = others;
    for piece in others.split("...") {
        let Some((_, after)) = rest.split_once(piece) else {
            return false;
        };
        rest = after;
        last = piece;
    }
    is.ends_with(last)
}

/// Runs a case; whether it has passed. A difference is printed.
fn run_case<K: Kinds>(
    kinds: &K,
    context: &Context<'_>,
    block: &Block<'_>,
    want: &str,
) -> Result<bool> {
    let alloc = context.rt.alloc();
    let beginning = if is_row(block) { context.beginning } else { "" };
    let mut words = Words::of(alloc, beginning, block.asked)?;
    let want = wanted(alloc, want, &block.lines)?;
    let is = answer(kinds, context, &mut words)?;
    let is = is.trim_end();
    let has_passed = fits(want.as_str(), is);
    if !has_passed {
        println!(context.rt; "{}:{}: wanted {want}, is {is}", context.file, block.number)?;
    }
    Ok(has_passed)
}

/// Whether a block is a row.
fn is_row(block: &Block<'_>) -> bool {
    block.asked.starts_with(' ')
}

/// Takes a line without an answer: it changes the context, or begins the rows that follow it.
fn take_setup<'a>(context: &mut Context<'a>, block: &Block<'a>, has_rows: bool) -> Result<()> {
    ensure!(block.lines.is_empty(), "an answer to nothing");
    ensure!(!is_row(block), "a row without an answer");
    let mut words = Words::of(context.rt.alloc(), "", block.asked)?;
    if context.set_up(&mut words)? {
        ensure!(words.is_empty(), "a word too many");
    } else {
        ensure!(has_rows, "neither a case nor followed by rows");
        context.beginning = block.asked;
    }
    Ok(())
}

/// Runs a block. It has rows where one follows.
fn run_block<'a, K: Kinds>(
    kinds: &K,
    context: &mut Context<'a>,
    tally: &mut Tally,
    block: &Block<'a>,
    has_rows: bool,
) -> Result<()> {
    match block.answer {
        Some(want) => tally.count(!run_case(kinds, context, block, want)?),
        None => take_setup(context, block, has_rows)?,
    }
    Ok(())
}

/// Runs the cases of a file. A line that can't be read is told, and has failed.
fn run_text<K: Kinds>(kinds: &K, rt: &HostRuntime, file: &str, text: &str) -> Result<Tally> {
    let mut context = Context::new(rt, file);
    let mut tally = Tally::default();
    let blocks = blocks_of(rt.alloc(), text)?;
    for (place, block) in blocks.iter().enumerate() {
        let has_rows = blocks.get(place.saturating_add(1)).is_some_and(is_row);
        if let Err(error) = run_block(kinds, &mut context, &mut tally, block, has_rows) {
            println!(rt; "{file}:{}: can't be read: {error}", block.number)?;
            tally.count(true);
        }
    }
    Ok(tally)
}

/// Runs the cases of a file, and prints how many there are.
fn run_file<K: Kinds>(kinds: &K, rt: &HostRuntime, file: &str) -> Result<Tally> {
    let text = fs::read_to_string(rt, file)?;
    let tally = run_text(kinds, rt, file, text.as_str())?;
    println!(rt; "{file}: {} cases", tally.cases)?;
    Ok(tally)
}

/// Runs the cases in the files that the words of the program name, of these kinds and of this
/// crate's. Prints each difference, and how many cases there were; the exit status tells whether one
/// has failed.
pub fn run_files<K: Kinds>(kinds: &K, rt: &HostRuntime) -> Result<ExitCode> {
    let words: Vec<String> = env::args(rt)?.collect(rt.alloc())?;
    let mut all = Tally::default();
    for file in words.get(1..).unwrap_or(&[]) {
        all.add(run_file(kinds, rt, file.as_str())?);
    }
    println!(rt; "{} cases, {} failed", all.cases, all.failed)?;
    Ok(ExitCode::from(u8::from(all.failed > 0)))
}
