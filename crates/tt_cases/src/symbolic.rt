//! Cases of the check by symbolic states.

use crate::context::Context;
use crate::listed_states::Listed;
use crate::programs::{Programs, bytes_given, cut_all};
use crate::words::{Words, number_of};
use anyhow::Result;
use std::alloc::{AllocError, Global};
use std::mem;
use tt_abs::{Kind, Refusal, Setting};
use tt_symbolic::kept::{Kept, NOTHING_KEPT};
use tt_symbolic_check::{Pool, Start, check, start_state};
use tt_symbolic_state::{Cell, OpenCall, Range, State};

/// How many moves a walk may have.
const MOVES: u64 = 10_000;

/// How many numbers the range of a symbol may have that a comparison splits, where no states are
/// listed: a comparison splits the range of any symbol.
const WIDE: i64 = 1 << 33;

/// How many it may have where states are listed.
const SMALL: i64 = 1 << 16;

/// Returns the text of what a check tells.
fn told_text<T: Drop>(alloc: Global, told: Result<T, Refusal>) -> Result<String, AllocError> {
    let number = match told {
        Ok(_) => return String::from_str(alloc, "good"),
        Err(Refusal::Refused { failed, .. }) => failed.reason().number(),
        Err(Refusal::Exhausted(_)) => 9,
    };
    format!(in alloc; "{number}")
}

/// Checks a program from a start, and returns what is known at the last of its ends.
fn end_of(alloc: Global, setting: &Setting<'_>, start: Start) -> Result<Start, Refusal> {
    let mut guide = Listed::new(alloc, setting, &[], WIDE);
    let mut pool = Pool::new(alloc);
    let starts = [start];
    let ends = check(
        alloc,
        &mut pool,
        setting,
        &NOTHING_KEPT,
        &starts,
        &mut guide,
        MOVES,
    )?;
    match ends.last() {
        Some(end) => Ok(Start::after(alloc, end)?),
        None => Ok(Start::unknown(alloc)),
    }
}

/// Checks a font program, and returns what is known at the last of its ends: only the functions.
fn functions_after(alloc: Global, setting: &Setting<'_>) -> Result<Start, Refusal> {
    let mut end = end_of(alloc, setting, Start::unknown(alloc))?;
    let mut start = Start::unknown(alloc);
    mem::swap(&mut start.functions, &mut end.functions);
    Ok(start)
}

/// Returns the setting of the font program, which starts with no function.
fn font_setting<'a>(context: &Context<'_>, programs: &'a Programs<'a>) -> Setting<'a> {
    Setting {
        limits: context.limits,
        cvt: u32::from(context.cvt),
        kind: Kind::Font,
        main: &programs.font,
        font: &programs.font,
        prep: &programs.font,
        start: &[],
    }
}

/// Returns the setting of the CVT program of the same font.
fn cvt_setting<'a>(for_font: Setting<'a>, programs: &'a Programs<'a>) -> Setting<'a> {
    Setting {
        kind: Kind::Cvt,
        main: &programs.prep,
        prep: &programs.prep,
        ..for_font
    }
}

/// Returns the setting of the glyph program of the same font.
fn glyph_setting<'a>(
    context: &Context<'_>,
    for_cvt: Setting<'a>,
    programs: &'a Programs<'a>,
) -> Setting<'a> {
    Setting {
        kind: Kind::Glyph {
            points: context.points,
            contours: context.contours,
        },
        main: &programs.glyph,
        ..for_cvt
    }
}

/// Checks programs one after the other, each from what is known at the end of the one before; of
/// the font program's end only the functions.
fn check_all(context: &Context<'_>, programs: &Programs<'_>) -> Result<Start, Refusal> {
    let alloc = context.rt.alloc();
    let for_font = font_setting(context, programs);
    let for_cvt = cvt_setting(for_font, programs);
    let for_glyph = glyph_setting(context, for_cvt, programs);
    let first = functions_after(alloc, &for_font)?;
    let second = end_of(alloc, &for_cvt, first)?;
    end_of(alloc, &for_glyph, second)
}

/// `symbolic f=FONT p=CVT g=GLYPH`: what the check of the glyph program tells, where no states are
/// listed.
pub(crate) fn symbolic(context: &Context<'_>, words: &mut Words<'_>) -> Result<String> {
    let alloc = context.rt.alloc();
    let bytes = bytes_given(alloc, words)?;
    let programs = cut_all(alloc, &bytes.font, &bytes.prep, &bytes.glyph)?;
    Ok(told_text(alloc, check_all(context, &programs))?)
}

/// Checks a glyph program by listed states, where these entries are kept.
fn check_glyph(
    context: &Context<'_>,
    font: &[u8],
    glyph: &[u8],
    starts: &[Start],
    kept: &Kept<'_>,
    listed: &[State],
) -> Result<String> {
    let alloc = context.rt.alloc();
    let programs = cut_all(alloc, font, &[], glyph)?;
    let for_cvt = cvt_setting(font_setting(context, &programs), &programs);
    let setting = glyph_setting(context, for_cvt, &programs);
    let mut guide = Listed::new(alloc, &setting, listed, SMALL);
    let mut pool = Pool::new(alloc);
    let told = check(alloc, &mut pool, &setting, kept, starts, &mut guide, MOVES);
    Ok(told_text(alloc, told)?)
}

/// Returns the start at which only function 0 is known, which has its body at 3.
fn start_with_function(alloc: Global) -> Result<Start> {
    let mut start = Start::unknown(alloc);
    start.functions.put(0, 3)?;
    Ok(start)
}

/// Puts a state into the body at 3, after a call at 3, as the words say.
fn put_in_body(state: &mut State, words: &mut Words<'_>) -> Result<()> {
    state.offset = 3;
    let left = Cell {
        symbol: 0,
        factor: words.number("factor", 1)?,
        offset: 0,
    };
    if !words.take_word("uncalled") {
        state.calls.push(OpenCall {
            body: 3,
            call: 3,
            left,
        })?;
    }
    if !words.take_word("unranged") {
        state.ranges.push(Range {
            low: words.number("low", 0)?,
            high: words.number("high", 0)?,
        })?;
    }
    Ok(())
}

/// Returns the state in the body at 3 of the font program, after a call at 3 of the glyph program,
/// of which as many turns are left as a symbol says, times a factor.
fn in_body(alloc: Global, words: &mut Words<'_>) -> Result<State> {
    let start = start_with_function(alloc)?;
    let mut state = start_state(alloc, &start)?;
    put_in_body(&mut state, words)?;
    Ok(state)
}

/// `turns low=0 high=9 factor=1`: whether MPPEM, PUSHB 0, LOOPCALL of an empty function is checked
/// by a listed state within the loop, in which as many turns are left as a symbol of this range
/// says, times the factor. `uncalled`: it is in no call; `unranged`: the symbol has no range.
pub(crate) fn turns(context: &Context<'_>, words: &mut Words<'_>) -> Result<String> {
    let alloc = context.rt.alloc();
    let listed = [in_body(alloc, words)?];
    let starts = [start_with_function(alloc)?];
    let (font, glyph) = ([0xb0, 0x00, 0x2c, 0x2d], [0x4b, 0xb0, 0x00, 0x2a]);
    check_glyph(context, &font, &glyph, &starts, &NOTHING_KEPT, &listed)
}

/// `kept storage=1 g=GLYPH`, `kept control=2 g=GLYPH`: what the check of a program tells that has to
/// leave a storage cell or a control value as it is.
pub(crate) fn kept(context: &Context<'_>, words: &mut Words<'_>) -> Result<String> {
    let alloc = context.rt.alloc();
    let glyph = words.bytes(alloc, "g")?;
    let storage = words.take("storage").map(number_of).transpose()?;
    let control = words.take("control").map(number_of).transpose()?;
    let kept = Kept {
        storage: storage.as_slice(),
        controls: control.as_slice(),
    };
    let starts = [Start::unknown(alloc)];
    check_glyph(context, &[], &glyph, &starts, &kept, &[])
}
