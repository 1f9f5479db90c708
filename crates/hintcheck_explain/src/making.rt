//! How an instruction comes to make a number of which nothing is known.

use tt_code::kinds::Pushed;
use tt_code::{Effect, Refinement, entry, refinement};

/// Whether the symbolic profile computes the number that the instruction with this code makes, and
/// the strict one doesn't: MAX, MIN, MUL, DIV, FLOOR and CEILING.
fn is_computed_by_symbols(code: u8) -> bool {
    match refinement(code) {
        Refinement::Greatest
        | Refinement::Least
        | Refinement::Product
        | Refinement::Quotient
        | Refinement::Floor
        | Refinement::Ceiling => true,
        Refinement::ReadsControl
        | Refinement::WritesControl
        | Refinement::ChangesControl
        | Refinement::ChangesControls
        | Refinement::Ordinary => false,
    }
}

/// Returns how the instruction with this code makes a number, as the strict profile sees it.
pub(crate) fn making_by_strict(code: u8) -> &'static str {
    if refinement(code) == Refinement::ReadsControl {
        "reads it, a control value, which this profile doesn't follow: --symbolic does."
    } else if is_computed_by_symbols(code) {
        "computes it, which this profile doesn't follow: --symbolic does."
    } else {
        making(code)
    }
}

/// Returns how the instruction with this code makes a number.
fn making(code: u8) -> &'static str {
    match entry(code) {
        Effect::Arithmetic(_) => "computes it, of numbers that aren't all known.",
        _ if is_computed_by_symbols(code) => "computes it, of numbers that aren't all known.",
        _ => "makes it, which gives a number that isn't known before the program runs.",
    }
}

/// Returns how the instruction with this code makes a number, as the symbolic profile sees it, in a
/// glyph program or in another one.
pub(crate) fn making_by_symbolic(code: u8, is_glyph: bool) -> &'static str {
    match entry(code) {
        Effect::Plain(row) => match row.pushes {
            [Pushed::Stored(_)] => unwritten(is_glyph),
            _ if refinement(code) == Refinement::ReadsControl => unwritten(is_glyph),
            _ => making(code),
        },
        _ => making(code),
    }
}

/// Returns how RS and RCVT make a number, in a glyph program or in another one.
fn unwritten(is_glyph: bool) -> &'static str {
    if is_glyph {
        "reads it, and what is there isn't known: it isn't written before, and the CVT program \
        leaves nothing known there, or a glyph program writes there."
    } else {
        "reads it, and what is there isn't known: it isn't written before."
    }
}
