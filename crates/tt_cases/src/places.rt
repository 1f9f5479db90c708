//! Places as text: an offset, `3` in the main program, `f:3` in the font program, `p:3` in the CVT
//! program; calls, `9>3` from 9 to the body at 3, `9>3*2/4` in turn 2 of 4.

use crate::words::{body_of, number_of, pair_of};
use anyhow::Result;
use std::alloc::{AllocError, Global};
use tt_abs::setting::body_offset;
use tt_abs::{Refusal, Spot};
use tt_code::Frame;

/// Returns a body's text.
pub(crate) fn body_text(alloc: Global, body: u32) -> Result<String, AllocError> {
    let offset = body_offset(body);
    if offset == body {
        return format!(in alloc; "{offset}");
    }
    format!(in alloc; "p:{offset}")
}

/// Returns a call's text.
pub(crate) fn frame_text(alloc: Global, frame: &Frame) -> Result<String, AllocError> {
    let body = body_text(alloc, frame.body)?;
    if frame.turn == 1 && frame.count == 1 {
        return format!(in alloc; "{}>{body}", frame.call);
    }
    format!(in alloc; "{}>{body}*{}/{}", frame.call, frame.turn, frame.count)
}

/// Returns the call that a text says, and the last of its turns that are meant: the same one, or
/// that of `9>3*1-4/5`.
pub(crate) fn calls_of(text: &str) -> Result<(Frame, u32)> {
    let (call, called) = pair_of(text, '>')?;
    let (body, turns) = called.split_once('*').unwrap_or((called, "1/1"));
    let (turns, count) = pair_of(turns, '/')?;
    let (first, last) = turns.split_once('-').unwrap_or((turns, turns));
    let frame = Frame {
        body: body_of(body)?,
        call: number_of(call)?,
        turn: number_of(first)?,
        count: number_of(count)?,
    };
    Ok((frame, number_of(last)?))
}

/// Returns the call that a text says.
pub(crate) fn frame_of(text: &str) -> Result<Frame> {
    let (frame, _) = calls_of(text)?;
    Ok(frame)
}

/// Returns a refusal's text, as `26 at f:3`.
pub(crate) fn refusal_text(alloc: Global, refusal: &Refusal) -> Result<String, AllocError> {
    let (spot, offset, reason) = match refusal {
        Refusal::Refused {
            spot,
            offset,
            failed,
        } => (*spot, *offset, failed.reason()),
        Refusal::Exhausted(_) => return String::from_str(alloc, "9"),
    };
    let program = match spot {
        Spot::Main => "",
        Spot::Font => "f:",
        Spot::Prep => "p:",
    };
    format!(in alloc; "{} at {program}{offset}", reason.number())
}
