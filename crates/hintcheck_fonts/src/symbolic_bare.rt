//! The verdict on one program by symbolic states.

ghost use Rattle.std.specs.Prelude.{◌≡◌, ◌≤◌, ◌<◌, ◌^◌, ◌⊎◌, [], IfErr, IfOk, None, OnOk, Some, length, slice_get};
ghost use Rattle.std.specs.List.{All};
ghost use Rattle.tt_font.specs.Conditions.{maxp_fault};
ghost use Rattle.tt_font.specs.Reading.{GlyphData, font_around, glyph_data};
ghost use Rattle.hintcheck_programs.specs.BarePrograms.{IsMemory, bare_font, glyph_with};
ghost use Rattle.hintcheck_programs.specs.FontPrograms.{IsFontInRange, font_of};
ghost use Rattle.hintcheck_fonts.specs.SymbolicRefusals.{IsRefusedAlone};
ghost use Rattle.hintcheck_fonts.specs.SymbolicVerdicts.{IsSafeAlone};

use crate::symbolic_check::SymbolicCheck;
use crate::symbolic_verdict::USUAL_STEPS;
use hintcheck_programs::bare_program::refused_glyph;
use hintcheck_programs::font::list_outcome;
use hintcheck_programs::programs::refused as refused_outcome;
use hintcheck_programs::report::{Name, Refused, Verdict};
use std::alloc::{AllocError, Global};
use tt_abs::Exhausted;
use tt_code::Limits;
use tt_family::Budget;
use tt_font::{Font, FontFault, GlyphPart, read_maxp};

/// Returns the first glyph program, `g0`, if this judge refuses it: that of a font whose font
/// program and CVT program are empty. These are judged before it, and where one of them is refused,
/// that is told of the glyph program.
///
/// # Errors
/// What ended the work without an answer.
fn refused_after_empty(
    alloc: Global,
    font: &Font<'_>,
    judge: &mut SymbolicCheck,
) -> Result<Vec<Refused>, Exhausted>
    requires { IsFontInRange font.now }
    ensures safe { (g : GlyphData) → slice_get font.now.glyphs 0 ≡ Some g
        → IfOk result (λ refused. refused.items ≡ [] → IsSafeAlone (font_of font.now [] []) g) }
    ensures one { (g : GlyphData) → slice_get font.now.glyphs 0 ≡ Some g
        → IfOk result (λ refused. length refused.items ≤ 1) }
    ensures told { (g : GlyphData) → slice_get font.now.glyphs 0 ≡ Some g
        → IfOk result (λ refused. All (IsRefusedAlone g) refused.items) }
{
    if let Err(fault) = judge.pass_empty(alloc, font) {
        let outcome = refused_outcome(Name::Glyph(0), fault)?;
        let mut refused = Vec::new(alloc);
        list_outcome(&mut refused, outcome)?;
        return Ok(refused);
    }
    refused_glyph(alloc, font, judge, &mut Budget::unlimited())
}

/// Returns the only program, `g0`, if it is refused: that of the glyph of a font whose font program
/// and CVT program are empty.
fn refused_programs(
    alloc: Global,
    limits: Limits,
    cvt: u16,
    glyph: GlyphPart<'_>,
    steps: u64,
) -> Result<Vec<Refused>, Exhausted>
    requires { length glyph.program.now < 2 ^ 31 }
    ensures safe { let g : GlyphData = glyph_data glyph.entry in IfOk result (λ refused.
        refused.items ≡ [] → IsSafeAlone (font_of (font_around limits cvt g) [] []) g) }
    ensures one { IfOk result (λ refused. length refused.items ≤ 1) }
    ensures told { IfOk result (λ refused.
        All (IsRefusedAlone (glyph_data glyph.entry)) refused.items) }
{
    let font = Font::around(alloc, limits, u32::from(cvt), glyph)?;
    font.range_facts();
    let mut judge = SymbolicCheck::new(alloc, steps);
    refused_after_empty(alloc, &font, &mut judge)
}

/// Returns the verdict on one glyph program by symbolic states, `g0`, of at most 65,535 bytes, in a
/// font whose font program and CVT program are empty: against the limits of a `maxp` table, a number
/// of control values, and how many points (without the four phantom points) and contours the glyph
/// has. That the program is refused says only that this search found no way to accept it.
///
/// # Errors
/// The faults of `read_maxp`; `OutOfMemory`.
pub fn bare_symbolic(
    alloc: Global,
    maxp: &[u8],
    cvt: u16,
    points: u16,
    contours: u16,
    program: &[u8],
) -> Result<Verdict, FontFault>
    requires { length program.now ≤ 65535 }
    ensures accepted { let glyph : GlyphData = glyph_with points contours program.now in
        IfOk result (λ v. v.refused ≡ [] → IsSafeAlone (bare_font maxp.now cvt glyph) glyph) }
    ensures one { IfOk result (λ v. (v.programs ≡ 1) × (length v.refused ≤ 1)) }
    ensures told { let glyph : GlyphData = glyph_with points contours program.now in
        IfOk result (λ v. All (IsRefusedAlone glyph) v.refused) }
    ensures fields { OnOk result (maxp_fault maxp.now ≡ None) }
    ensures faults { IfErr result
        (λ e. (maxp_fault maxp.now ≡ Some e) ⊎ (IsMemory e × (maxp_fault maxp.now ≡ None))) }
{
    bare_symbolic_within(alloc, maxp, cvt, points, contours, program, USUAL_STEPS)
}

/// Returns the verdict on one glyph program as `bare_symbolic` does, where the search makes at most
/// so many steps, as `verdict_symbolic_within` does. Where they are too few the program is refused as
/// `TooManySteps`.
///
/// # Errors
/// As `bare_symbolic`.
pub fn bare_symbolic_within(
    alloc: Global,
    maxp: &[u8],
    cvt: u16,
    points: u16,
    contours: u16,
    program: &[u8],
    steps: u64,
) -> Result<Verdict, FontFault>
    requires { length program.now ≤ 65535 }
    ensures accepted { let glyph : GlyphData = glyph_with points contours program.now in
        IfOk result (λ v. v.refused ≡ [] → IsSafeAlone (bare_font maxp.now cvt glyph) glyph) }
    ensures one { IfOk result (λ v. (v.programs ≡ 1) × (length v.refused ≤ 1)) }
    ensures told { let glyph : GlyphData = glyph_with points contours program.now in
        IfOk result (λ v. All (IsRefusedAlone glyph) v.refused) }
    ensures fields { OnOk result (maxp_fault maxp.now ≡ None) }
    ensures faults { IfErr result
        (λ e. (maxp_fault maxp.now ≡ Some e) ⊎ (IsMemory e × (maxp_fault maxp.now ≡ None))) }
{
    let limits = read_maxp(maxp)?;
    let glyph = GlyphPart {
        points,
        contours,
        program,
    };
    match refused_programs(alloc, limits, cvt, glyph, steps) {
        Ok(refused) => Ok(Verdict::new(1, refused)),
        Err(_) => Err(FontFault::OutOfMemory(AllocError)),
    }
}
