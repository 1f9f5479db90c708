//! Faults that the programs of known makers have: the signs by which they are recognised, and what to
//! do about them in the maker's terms.

use crate::explored_program::code_of;
use crate::instruction_text::{Sought, is_sought};
use tt_code::{Limits, Program, Reason};
use tt_setting::{Setting, Spot};
use tt_symbolic_check::Site;

/// A program that writes hints, whose font programs begin alike.
#[derive(Clone, Copy)]
enum Maker {
    Ttfautohint,
    FontForge,
}

/// How font programs of ttfautohint begin.
const TTFAUTOHINT: &[Sought] = &[
    Sought::Push("PUSHB", 0),
    Sought::Plain("FDEF"),
    Sought::Plain("DUP"),
    Sought::Push("PUSHB", 0),
    Sought::Plain("NEQ"),
    Sought::Plain("IF"),
    Sought::Plain("RCVT"),
    Sought::Plain("EIF"),
    Sought::Plain("DUP"),
    Sought::Plain("DUP"),
];

/// How font programs of FontForge begin.
const FONTFORGE: &[Sought] = &[
    Sought::Push("PUSHB", 0),
    Sought::Plain("FDEF"),
    Sought::Push("PUSHB", 0),
    Sought::Plain("SZP0"),
    Sought::Plain("MPPEM"),
];

/// What to do where ttfautohint looks for widths of stems which a style doesn't have.
const NO_WIDTHS: &str =
    "run ttfautohint again with -f and a script of which the font has letters, as \
    -f latn: its function looks here for a width of stems, and glyphs of no known script have a \
    style without one. With -S ttfautohint 1.8.3 hints no glyph at all.";

/// What to do where ttfautohint counts control values which a style doesn't have.
const WRONG_COUNT: &str =
    "hint the font again by a newer ttfautohint, with -f and a script of which the \
    font has letters, as -f latn: the CVT program of this one counts 255 control values of a style \
    that has none.";

/// What to do where ttfautohint stores more widths of stems than there is room for.
const NO_ROOM: &str =
    "hint the font again by ttfautohint 1.8.3 or newer, or raise maxStorage in maxp to \
    the number that `hintcheck scan --needs` tells: this one stores widths of stems here, more than \
    it has declared cells for.";

/// What to do where ttfautohint has declared nothing.
const NO_LIMITS: &str =
    "take the hints out by `ttfautohint --dehint`: ttfautohint has hinted no glyph \
    of this font, and left zeros in maxp, to which its font program doesn't keep. Or raise these, to \
    the numbers that `hintcheck scan --needs` tells.";

/// What to do where FontForge's function 20 ends.
const FUNCTION_20: &str =
    "ask again with --symbolic: FontForge's function 20 leaves a number on the \
    stack where pixels aren't square, and that profile follows both ways, each by itself.";

/// The instructions around the place of a refusal by which a fault of a maker is recognised.
#[derive(Clone, Copy)]
struct Sign {
    maker: Maker,
    /// For which reasons the program is refused: one of these two.
    reasons: [Reason; 2],
    /// These instructions.
    instructions: &'static [Sought],
    /// How many bytes of them are before the place.
    before: u32,
    /// What to do.
    advice: &'static str,
}

/// A control value, scaled, is the index of another one.
const INDEX_FROM_VALUE: &[Sought] = &[
    Sought::Plain("RS"),
    Sought::Plain("RCVT"),
    Sought::Plain("MUL"),
    Sought::Plain("RCVT"),
];

/// A loop over widths, which begins at such an index.
const LOOP_OVER_WIDTHS: &[Sought] = &[
    Sought::Plain("DUP"),
    Sought::Plain("RCVT"),
    Sought::Plain("DUP"),
    Sought::Push("PUSHB", 4),
    Sought::Plain("CINDEX"),
    Sought::Plain("SUB"),
    Sought::Plain("ABS"),
    Sought::Plain("DUP"),
];

/// A loop that scales control values.
const LOOP_THAT_SCALES: &[Sought] = &[
    Sought::Plain("DUP"),
    Sought::Plain("DUP"),
    Sought::Plain("RCVT"),
    Sought::Plain("DUP"),
    Sought::Push("PUSHB", 11),
    Sought::Plain("RS"),
    Sought::Plain("MUL"),
    Sought::Push("PUSHW", 1024),
    Sought::Plain("DIV"),
];

/// The width of a stem is stored.
const WIDTH_STORED: &[Sought] = &[
    Sought::Plain("DUP"),
    Sought::Plain("ABS"),
    Sought::Push("PUSHB", 22),
    Sought::Plain("RS"),
    Sought::Plain("SWAP"),
    Sought::Plain("WS"),
];

/// The width of a stem is stored by another function.
const OTHER_WIDTH_STORED: &[Sought] = &[
    Sought::Plain("DUP"),
    Sought::Push("PUSHB", 2),
    Sought::Plain("RS"),
    Sought::Plain("SWAP"),
    Sought::Plain("WS"),
];

/// Where two ways of function 20 meet.
const END_OF_FUNCTION_20: &[Sought] = &[
    Sought::Push("PUSHB", 25),
    Sought::Plain("NEG"),
    Sought::Plain("JMPR"),
    Sought::Plain("POP"),
    Sought::Plain("EIF"),
    Sought::Plain("ELSE"),
    Sought::Plain("POP"),
    Sought::Plain("POP"),
    Sought::Plain("EIF"),
    Sought::Plain("ENDF"),
];

/// The signs of the faults that are known.
const SIGNS: &[Sign] = &[
    Sign {
        maker: Maker::Ttfautohint,
        reasons: [Reason::UnknownOperand, Reason::Cvt],
        instructions: INDEX_FROM_VALUE,
        before: 3,
        advice: NO_WIDTHS,
    },
    Sign {
        maker: Maker::Ttfautohint,
        reasons: [Reason::UnknownOperand, Reason::Cvt],
        instructions: LOOP_OVER_WIDTHS,
        before: 1,
        advice: NO_WIDTHS,
    },
    Sign {
        maker: Maker::Ttfautohint,
        reasons: [Reason::Cvt, Reason::Cvt],
        instructions: LOOP_THAT_SCALES,
        before: 2,
        advice: WRONG_COUNT,
    },
    Sign {
        maker: Maker::Ttfautohint,
        reasons: [Reason::Storage, Reason::Storage],
        instructions: WIDTH_STORED,
        before: 6,
        advice: NO_ROOM,
    },
    Sign {
        maker: Maker::Ttfautohint,
        reasons: [Reason::Storage, Reason::Storage],
        instructions: OTHER_WIDTH_STORED,
        before: 5,
        advice: NO_ROOM,
    },
    Sign {
        maker: Maker::FontForge,
        reasons: [Reason::DepthMismatch, Reason::DepthMismatch],
        instructions: END_OF_FUNCTION_20,
        before: 10,
        advice: FUNCTION_20,
    },
];

/// Returns the offset after the instruction at an offset of a program, if it is this one.
fn after(program: &Program<'_>, offset: u32, sought: Sought) -> Option<u32> {
    let found = program.at(offset)?.bytes();
    if !is_sought(found, sought) {
        return None;
    }
    offset.checked_add(u32::try_from(found.len()).ok()?)
}

/// Whether a program has these instructions, and no others between them, from an offset on.
fn has_at(program: &Program<'_>, offset: u32, instructions: &[Sought]) -> bool {
    let mut at = offset;
    for sought in instructions {
        let Some(next) = after(program, at, *sought) else {
            return false;
        };
        at = next;
    }
    true
}

/// Whether a font program begins as those of this maker do.
fn is_by(maker: Maker, font: &Program<'_>) -> bool {
    let beginning = match maker {
        Maker::Ttfautohint => TTFAUTOHINT,
        Maker::FontForge => FONTFORGE,
    };
    has_at(font, 0, beginning)
}

/// Whether a program that is refused for this reason at a site has the sign.
fn has_sign(sign: &Sign, setting: &Setting<'_>, site: Site, reason: Reason) -> bool {
    let Some(start) = site.offset.checked_sub(sign.before) else {
        return false;
    };
    let [one, other] = sign.reasons;
    (reason == one || reason == other)
        && is_by(sign.maker, setting.font)
        && has_at(code_of(setting, site.spot), start, sign.instructions)
}

/// Whether a font declares no room at all for its programs.
fn is_without_room(limits: Limits) -> bool {
    limits.stack == 0 && limits.storage == 0 && limits.twilight == 0
}

/// Returns what to do in the maker's terms about a program that is refused for this reason at a site,
/// where the sign of a maker's fault is there.
pub(crate) fn makers_advice(
    setting: &Setting<'_>,
    site: Site,
    reason: Reason,
) -> Option<&'static str> {
    if is_without_room(setting.limits) && is_by(Maker::Ttfautohint, setting.font) {
        return matches!(reason, Reason::Overflow | Reason::Storage).then_some(NO_LIMITS);
    }
    for sign in SIGNS {
        if has_sign(sign, setting, site, reason) {
            return Some(sign.advice);
        }
    }
    None
}
