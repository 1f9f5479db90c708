//! What fonts need of each number.

use crate::faults::fault_text;
use anyhow::Result;
use hintcheck_fonts::Request;
use hintcheck_needs::{Asked, Need, needs_in};
use std::alloc::Global;
use std::fmt::Write;
use tt_cases::context::Context;
use tt_cases::files::font_of;
use tt_cases::words::{Words, number_of};
use tt_family::Budget;

/// Returns what a font needs of the numbers that are asked for, without those of which it needs
/// none where all are.
fn told_of_needs(alloc: Global, needs: &[Need], asked: Asked) -> Result<String> {
    let mut text = String::new(alloc);
    let mut divider = "";
    for need in needs {
        if asked == Asked::All && need.enough == 0 {
            continue;
        }
        write!(text, "{divider}{} {}", need.bound.name(), need.least)?;
        if need.least < need.enough {
            write!(text, " to {}", need.enough)?;
        }
        write!(text, " of {}", need.declared)?;
        divider = ", ";
    }
    if text.is_empty() {
        text.push_str("nothing")?;
    }
    Ok(text)
}

/// `needs f=FONT p=CVT g=GLYPH..`: what a font of these programs needs by the strict profile, which
/// makes as many points at most as `points=` says; with `steps=` by the symbolic one, whose search
/// makes as many steps at most for each verdict. With `refused` only those numbers are asked for
/// that a refused program passes.
pub(crate) fn needs(context: &Context<'_>, words: &mut Words<'_>) -> Result<String> {
    let alloc = context.rt.alloc();
    let asked = if words.take_word("refused") {
        Asked::Refused
    } else {
        Asked::All
    };
    let request = match words.take("steps") {
        Some(steps) => Request::Symbolic {
            steps: number_of(steps)?,
        },
        None => Request::Strict,
    };
    let mut points = Budget::of(words.number("points", u64::MAX)?);
    let font = font_of(context, words)?;
    match needs_in(alloc, &font, request, asked, &mut points) {
        Ok(needs) => told_of_needs(alloc, &needs, asked),
        Err(fault) => fault_text(alloc, &fault),
    }
}
