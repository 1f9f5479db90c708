//! Cases of states: what their calls tell, how they compare, and what a join makes of them.

ghost use Rattle.std.specs.Prelude.{IfOk};
ghost use Rattle.tt_abs.specs.States.{state_order};

use crate::context::Context;
use crate::states::{plain_text, state_of};
use crate::words::Words;
use anyhow::{Result, ensure};
use std::alloc::Global;
use tt_abs::{Order, State};

/// `state STATE`: what the state tells.
pub(crate) fn state(context: &Context<'_>, words: &mut Words<'_>) -> Result<String> {
    let alloc = context.rt.alloc();
    let state = state_of(alloc, words)?;
    plain_text(alloc, &state)
}

/// Returns how one state compares with another.
fn relation(one: &State, other: &State) -> &'static str {
    match (one.below(other), other.below(one), one.is_same(other)) {
        (true, true, true) => "same",
        (true, false, false) => "below",
        (false, true, false) => "above",
        (false, false, false) => "apart",
        _ => "no order",
    }
}

/// Returns the state that the words say after `|`.
fn other_of(alloc: Global, words: &mut Words<'_>) -> Result<State>
    ensures { IfOk result (λ state. state_order.InRange state) }
{
    ensure!(words.take_word("|"), "| is missing");
    state_of(alloc, words)
}

/// `order STATE | STATE`: how the one compares with the other, and whether the functions are the
/// same.
pub(crate) fn order(context: &Context<'_>, words: &mut Words<'_>) -> Result<String> {
    let alloc = context.rt.alloc();
    let one = state_of(alloc, words)?;
    let other = other_of(alloc, words)?;
    let functions = if one.has_same_functions(&other) {
        ""
    } else {
        ", other functions"
    };
    Ok(format!(in alloc; "{}{functions}", relation(&one, &other))?)
}

/// Joins a state with another twice, and returns what is told.
fn joined(one: &mut State, other: &State) -> &'static str
    requires one { state_order.InRange one.old }
    requires other { state_order.InRange other.now }
{
    let Ok(first) = one.join(other) else {
        return "38";
    };
    match (first, one.join(other)) {
        (true, Ok(false)) => "changed",
        (false, Ok(false)) => "unchanged",
        _ => "changed again",
    }
}

/// `join STATE | STATE`: how the one compared with the other, what the join tells, how it compares
/// afterwards, and the state.
pub(crate) fn join(context: &Context<'_>, words: &mut Words<'_>) -> Result<String> {
    let alloc = context.rt.alloc();
    let mut one = state_of(alloc, words)?;
    let other = other_of(alloc, words)?;
    let before = relation(&one, &other);
    let told = joined(&mut one, &other);
    let after = relation(&one, &other);
    let state = plain_text(alloc, &one)?;
    Ok(format!(in alloc; "{before}, {told}, {after} {state}")?)
}
