//! Programs that are cut, and the setting in which small ones run.

use std::alloc::Global;
use tt_abs::Kind;
use tt_code::{Limits, Program};

/// The limits of the small fonts: those of `fonts::MAXP`.
pub const LIMITS: Limits = Limits {
    storage: 4,
    functions: 2,
    stack: 8,
    program_size: 64,
    zones: 2,
    twilight: 4,
};

/// The glyph of the small fonts, with 4 points and 1 contour.
pub const GLYPH: Kind = Kind::Glyph {
    points: 4,
    contours: 1,
};

/// FDEF 0: POP; ENDF.
pub const POPPING: [u8; 5] = [0xb0, 0x00, 0x2c, 0x21, 0x2d];

/// Returns a program of less than 100 bytes, cut; nothing where it can't be cut, or memory ran out.
pub fn cut<'a>(alloc: Global, bytes: &'a [u8]) -> Option<Program<'a>> {
    if bytes.len() >= 100 {
        return None;
    }
    Program::cut(alloc, bytes).ok()
}
