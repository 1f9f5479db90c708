//! Cases of instructions: where they lead, and what they make of what is known.

ghost use Rattle.std.specs.Prelude.{◌≡◌, false};
ghost use Rattle.tt_abs.specs.Covers.{has_body_twice};
ghost use Rattle.tt_setting.specs.Settings.{frames_of};
ghost use Rattle.tt_abs.specs.States.{state_order};

use crate::context::Context;
use crate::places::{frame_of, frame_text, refusal_text};
use crate::programs::cut;
use crate::states::{state_of, state_text};
use crate::words::{Words, body_of};
use anyhow::{Result, ensure};
use std::alloc::{AllocError, Global};
use tt_abs::{Move, Point, Setting, State, Successor, Successors, transfer};
use tt_code::Frame;

/// Returns where a move leads.
fn way_text(alloc: Global, way: &Move) -> Result<String, AllocError> {
    match way {
        Move::To(offset) => format!(in alloc; "to {offset}"),
        Move::Enter(frame) => format!(in alloc; "enter {}", frame_text(alloc, frame)?),
        Move::NextTurn => String::from_str(alloc, "next turn"),
        Move::Return => String::from_str(alloc, "return"),
    }
}

/// Returns where a successor leads, and what has changed there.
fn successor_text(alloc: Global, next: &Successor, before: &State) -> Result<String> {
    let way = way_text(alloc, &next.way)?;
    let state = state_text(alloc, &next.state, before)?;
    Ok(format!(in alloc; "{way} {state}")?)
}

/// Returns what an instruction tells at a point, if one starts there.
fn told(alloc: Global, setting: &Setting<'_>, point: &Point<'_>, state: &State) -> Result<String>
    requires in_range { state_order.InRange state.now }
    requires once { has_body_twice (frames_of point.now) ≡ false }
{
    ensure!(setting.starts(point, point.offset), "no instruction there");
    match transfer(setting, point, state) {
        Ok(Successors::One(next)) => successor_text(alloc, &next, state),
        Ok(Successors::Two(next, other)) => {
            let one = successor_text(alloc, &next, state)?;
            let other = successor_text(alloc, &other, state)?;
            Ok(format!(in alloc; "{one} or {other}")?)
        }
        Err(refusal) => Ok(refusal_text(alloc, &refusal)?),
    }
}

/// Returns the same of the bytes of a font program and of a glyph program, to whose instruction
/// control comes in a call, or in the main program.
fn told_of_bytes(
    context: &Context<'_>,
    font: &[u8],
    main: &[u8],
    call: Option<Frame>,
    offset: u32,
    state: &State,
) -> Result<String>
    requires { state_order.InRange state.now }
{
    let alloc = context.rt.alloc();
    let font = cut(alloc, font)?;
    let main = cut(alloc, main)?;
    let setting = Setting {
        limits: context.limits,
        cvt: u32::from(context.cvt),
        kind: context.glyph(),
        main: &main,
        font: &font,
        prep: &font,
        start: &[],
    };
    let frames = call.as_slice();
    told(alloc, &setting, &Point { frames, offset }, state)
}

/// `step PROGRAM STATE`, with `at=OFFSET`, `in=CALL`, `f=FONT_PROGRAM`, `start=BODY`: where the
/// instruction leads, the stack there, and what else has changed; or why it is refused.
pub(crate) fn step(context: &Context<'_>, words: &mut Words<'_>) -> Result<String> {
    let alloc = context.rt.alloc();
    let offset = words.number("at", 0)?;
    let call = words.take("in").map(frame_of).transpose()?;
    let function = words.take("start");
    let font = words.bytes(alloc, "f")?;
    let main = words.next_bytes(alloc)?;
    let mut state = state_of(alloc, words)?;
    if let Some(body) = function {
        state.define(0, body_of(body)?)?;
    }
    told_of_bytes(context, &font, &main, call, offset, &state)
}
