//! Cases of stacks: what changes leave of one, and what two share.

use crate::context::Context;
use crate::states::Shown;
use crate::words::Words;
use anyhow::{Context as _, Result, bail, ensure};
use std::alloc::{AllocError, Global};
use tt_abs::{Cell, Stack};

/// Pushes cells, one at a time.
fn push_each(stack: &mut Stack, cells: &[Cell]) -> Result<(), AllocError> {
    for cell in cells {
        stack.push(*cell)?;
    }
    Ok(())
}

/// Removes the cell under so many others.
fn remove(stack: &mut Stack, others: usize) -> Result<()> {
    ensure!(others < stack.len(), "no such cell");
    stack.remove(others);
    Ok(())
}

/// Makes the next change: `push [..]`, a cell at a time, `cells [..]`, at once, `bytes HEX` and
/// `words HEX`, `remove N`, the cell under N others, `cut N`, from the top, or `clear`.
fn change(alloc: Global, stack: &mut Stack, words: &mut Words<'_>) -> Result<()> {
    match words.next()? {
        "push" => push_each(stack, &words.stack(alloc)?)?,
        "cells" => stack.push_cells(&words.stack(alloc)?)?,
        "bytes" => stack.push_bytes(&words.next_bytes(alloc)?)?,
        "words" => stack.push_words(&words.next_bytes(alloc)?)?,
        "remove" => remove(stack, words.next_number()?)?,
        "cut" => stack.cut(words.next_number()?),
        "clear" => stack.clear(),
        word => bail!("no change of a stack is called {word}"),
    }
    Ok(())
}

/// Returns what an empty stack becomes by the changes up to `|`.
fn stack_of(alloc: Global, words: &mut Words<'_>) -> Result<Stack> {
    let mut stack = Stack::new(alloc);
    for _ in 0..words.len() {
        if words.is_empty() || words.take_word("|") {
            break;
        }
        change(alloc, &mut stack, words)?;
    }
    Ok(stack)
}

/// Returns the cells of a stack, counted from below and from above.
fn stack_text(alloc: Global, stack: &Stack) -> Result<String> {
    let depth = stack.len();
    let mut text = String::from_str(alloc, "[")?;
    for place in 0..depth {
        let cell = stack.above(place).context("a cell is missing")?;
        let others = depth.saturating_sub(place).saturating_sub(1);
        ensure!(stack.under(others) == Some(cell), "another cell");
        let divider = if place > 0 { " " } else { "" };
        write!(text, "{divider}{}", Shown(cell))?;
    }
    let is_end = stack.above(depth).is_none() && stack.under(depth).is_none();
    ensure!(is_end, "a cell too many");
    text.push(']')?;
    Ok(text)
}

/// `stack CHANGES`: the cells that an empty stack has then, counted from below and from above.
pub(crate) fn stack(context: &Context<'_>, words: &mut Words<'_>) -> Result<String> {
    let alloc = context.rt.alloc();
    stack_text(alloc, &stack_of(alloc, words)?)
}

/// `share COUNT CHANGES | CHANGES`: whether two stacks, each by its changes, have that many cells at
/// the bottom, and the same ones.
pub(crate) fn share(context: &Context<'_>, words: &mut Words<'_>) -> Result<String> {
    let alloc = context.rt.alloc();
    let count = words.next_number()?;
    let one = stack_of(alloc, words)?;
    let other = stack_of(alloc, words)?;
    let is_shared = one.shares_bottom(&other, count);
    Ok(String::from_str(alloc, if is_shared { "yes" } else { "no" })?)
}
