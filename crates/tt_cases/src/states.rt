//! States as text: `[1 2 ?] rp0=1 zp0=? loop=2 f3=40 s1=7`.

ghost use Rattle.std.specs.Prelude.{IfOk};
ghost use Rattle.tt_abs.specs.States.{state_order};

use crate::places::body_text;
use crate::words::{Words, body_of, cell_of, number_of, zone_of};
use anyhow::{Result, anyhow, ensure};
use std::alloc::Global;
use std::fmt;
use tt_abs::Cell::Known;
use tt_abs::{Cell, Order, State, ZoneCell};

/// How many cells a stack may have.
const MOST_CELLS: usize = 100;

/// How many words may change a state.
const MOST: usize = 65_535;

/// Puts the cells of a stack on that of a state.
fn push_stack(state: &mut State, words: &mut Words<'_>, alloc: Global) -> Result<()>
    requires { state_order.InRange state.old }
    ensures { IfOk result (λ _. state_order.InRange state.new) }
{
    let cells = words.stack(alloc)?;
    ensure!(
        cells.len() <= MOST_CELLS && state.depth() <= MOST_CELLS,
        "a stack that is too deep"
    );
    state.push_cells(&cells)?;
    Ok(())
}

/// Sets what a list or a register has at an index; whether there is one of this name.
fn set_entry(state: &mut State, name: &str, index: u16, value: &str) -> Result<bool>
    requires { state_order.InRange state.old }
    ensures { IfOk result (λ _. state_order.InRange state.new) }
{
    match (name, index) {
        ("s", _) => state.set_storage(index, cell_of(value)?)?,
        ("f", _) => state.define(index, body_of(value)?)?,
        ("rp", 0..=2) => state.set_rp(usize::from(index), cell_of(value)?),
        ("zp", 0..=2) => state.set_zone(usize::from(index), zone_of(value)?),
        _ => return Ok(false),
    }
    Ok(true)
}

/// Returns the list or the kind of register that a name such as `rp0` begins with, and the index.
fn entry_of(name: &str) -> Option<(&'static str, &str)> {
    for list in ["rp", "zp", "s", "f"] {
        if let Some(index) = name.strip_prefix(list) {
            return Some((list, index));
        }
    }
    None
}

/// Sets what has a name such as `rp0`, `loop` or `s12`; whether anything has.
fn set(state: &mut State, name: &str, value: &str) -> Result<bool>
    requires { state_order.InRange state.old }
    ensures { IfOk result (λ _. state_order.InRange state.new) }
{
    if name == "loop" {
        state.set_loop(cell_of(value)?);
        return Ok(true);
    }
    match entry_of(name) {
        Some((list, index)) => set_entry(state, list, number_of(index)?, value),
        None => Ok(false),
    }
}

/// Makes one change that words say: a stack is pushed, or something set; whether they say one.
fn change(state: &mut State, words: &mut Words<'_>, alloc: Global) -> Result<bool>
    requires { state_order.InRange state.old }
    ensures { IfOk result (λ _. state_order.InRange state.new) }
{
    let Some(word) = words.first() else {
        return Ok(false);
    };
    if word.starts_with('[') {
        push_stack(state, words, alloc)?;
        return Ok(true);
    }
    let Some((name, value)) = word.split_once('=') else {
        return Ok(false);
    };
    let is_set = set(state, name, value)?;
    if is_set {
        words.next()?;
    }
    Ok(is_set)
}

/// Makes all changes that the next words say.
fn change_all(state: &mut State, words: &mut Words<'_>, alloc: Global) -> Result<()>
    requires { state_order.InRange state.old }
    ensures { IfOk result (λ _. state_order.InRange state.new) }
{
    for _ in 0..MOST {
        if !change(state, words, alloc)? {
            return Ok(());
        }
    }
    Err(anyhow!("too many changes"))
}

/// Returns the state that begins with these functions, with the changes that the next words say.
pub(crate) fn state_from(
    alloc: Global,
    words: &mut Words<'_>,
    start: &[(u16, u32)],
) -> Result<State>
    ensures { IfOk result (λ state. state_order.InRange state) }
{
    let mut state = State::start(alloc, start)?;
    change_all(&mut state, words, alloc)?;
    Ok(state)
}

/// Makes a state a copy of itself over the state that the next words say.
fn copy_over(alloc: Global, state: &mut State, words: &mut Words<'_>) -> Result<()>
    requires { state_order.InRange state.old }
    ensures { IfOk result (λ _. state_order.InRange state.new) }
{
    let mut other = state_from(alloc, words, &[])?;
    other.copy_from(state)?;
    *state = other;
    Ok(())
}

/// Changes a state by the next words: `copy`, `over STATE`, a copy over another state, `join STATE`,
/// or `then`, and by the changes that follow; whether there is one of these.
fn change_next(alloc: Global, state: &mut State, words: &mut Words<'_>) -> Result<bool>
    requires { state_order.InRange state.old }
    ensures { IfOk result (λ _. state_order.InRange state.new) }
{
    if words.take_word("copy") {
        *state = state.copy()?;
    } else if words.take_word("over") {
        copy_over(alloc, state, words)?;
    } else if words.take_word("join") {
        state.join(&state_from(alloc, words, &[])?)?;
    } else if !words.take_word("then") {
        return Ok(false);
    }
    change_all(state, words, alloc)?;
    Ok(true)
}

/// Returns the state that the next words say.
pub(crate) fn state_of(alloc: Global, words: &mut Words<'_>) -> Result<State>
    ensures { IfOk result (λ state. state_order.InRange state) }
{
    let mut state = state_from(alloc, words, &[])?;
    for _ in 0..MOST {
        if !change_next(alloc, &mut state, words)? {
            return Ok(state);
        }
    }
    Err(anyhow!("too many changes"))
}

/// A cell as text.
#[derive(Clone, Copy)]
pub(crate) struct Shown(pub(crate) Cell);

impl fmt::Display for Shown {
    fn fmt<W: fmt::Write>(&self, f: &mut fmt::Formatter<W>) -> fmt::Result {
        match self.0 {
            Known(number) => write!(f, "{number}"),
            Cell::Unknown => f.write_str("?"),
        }
    }
}

/// Returns a zone's text.
fn zone_text(zone: ZoneCell) -> &'static str {
    match zone {
        ZoneCell::Zero => "0",
        ZoneCell::One => "1",
        ZoneCell::Either => "?",
    }
}

/// Returns the state with which every program starts, each part of which is set here.
fn usual(alloc: Global) -> Result<State> {
    let mut state = State::start(alloc, &[])?;
    for number in 0..3 {
        state.set_rp(number, Known(0));
        state.set_zone(number, ZoneCell::One);
    }
    state.set_loop(Known(1));
    Ok(state)
}

/// Adds a state's stack, the bottom first.
fn show_stack(text: &mut String, state: &State) -> Result<()> {
    text.push('[')?;
    for place in 0..state.depth() {
        if place > 0 {
            text.push(' ')?;
        }
        match state.cell(place) {
            Some(cell) => write!(text, "{}", Shown(cell))?,
            None => text.push('!')?,
        }
    }
    text.push(']')?;
    Ok(())
}

/// Adds what is known of the graphics state, where that isn't what was known before.
fn show_graphics(text: &mut String, state: &State, before: &State) -> Result<()> {
    for number in 0..3 {
        if state.rp(number) != before.rp(number) {
            write!(text, " rp{number}={}", Shown(state.rp(number)))?;
        }
    }
    for number in 0..3 {
        if state.zone(number) != before.zone(number) {
            write!(text, " zp{number}={}", zone_text(state.zone(number)))?;
        }
    }
    if state.loop_cell() != before.loop_cell() {
        write!(text, " loop={}", Shown(state.loop_cell()))?;
    }
    Ok(())
}

/// Adds the functions that are known, where they weren't before.
fn show_functions(alloc: Global, text: &mut String, state: &State, before: &State) -> Result<()> {
    for function in state.functions() {
        if !before.functions().contains(function) {
            write!(text, " f{}={}", function.0, body_text(alloc, function.1)?)?;
        }
    }
    let known = state.functions();
    for (number, _) in before.functions() {
        if !known.iter().any(|function| function.0 == *number) {
            write!(text, " f{number}=?")?;
        }
    }
    Ok(())
}

/// Adds the storage cells that are known, where they weren't before, and those that no longer are.
fn show_storage(text: &mut String, state: &State, before: &State) -> Result<()> {
    for (index, number) in state.stored() {
        if before.storage(*index) != Known(*number) {
            write!(text, " s{index}={number}")?;
        }
    }
    for (index, _) in before.stored() {
        if state.storage(*index) == Cell::Unknown {
            write!(text, " s{index}=?")?;
        }
    }
    Ok(())
}

/// Returns a state's stack, and what else isn't as where a program starts.
pub(crate) fn plain_text(alloc: Global, state: &State) -> Result<String> {
    let before = usual(alloc)?;
    state_text(alloc, state, &before)
}

/// Returns a state's stack, and what else isn't as it was before.
pub(crate) fn state_text(alloc: Global, state: &State, before: &State) -> Result<String> {
    let mut text = String::new(alloc);
    show_stack(&mut text, state)?;
    show_graphics(&mut text, state, before)?;
    show_functions(alloc, &mut text, state, before)?;
    show_storage(&mut text, state, before)?;
    Ok(text)
}
