//! The verdict on one program.

ghost use Rattle.std.specs.Prelude.{◌≡◌, ◌≤◌, ◌<◌, ◌^◌, ◌⊎◌, ◌↔◌, [], All, IfErr, IfOk, None, OnOk, Some, length, slice_get};
ghost use Rattle.hintcheck_programs.specs.BudgetAnswers.{BareTellsTableFault, VerdictTellsBudget};
ghost use Rattle.hintcheck_programs.specs.FontPrograms.{IsFontInRange, IsSafeGlyph, font_of, glyph_subject};
ghost use Rattle.hintcheck_programs.specs.BarePrograms.{IsJudged, IsMemory, bare_font, bare_subject, glyph_with};
ghost use Rattle.hintcheck_programs.specs.Programs.{HasGoodFamily, IsRefusal};
ghost use Rattle.hintcheck_programs.specs.Representation.ProgramOrder.{IsJudgedBy};
ghost use Rattle.tt_setting.specs.Budgets.{EndTellsBudget, Spends};
ghost use Rattle.tt_font.specs.Reading.{GlyphData, font_around, glyph_data};
ghost use Rattle.tt_font.specs.Conditions.{maxp_fault};

use crate::finding::Finding;
use crate::font::list_outcome;
use crate::judge::Judge;
use crate::program::Search;
use crate::programs::Programs;
use crate::report::{Refused, Verdict};
use hintcheck_report::AnswerFault;
use std::alloc::Global;
use tt_abs::Exhausted;
use tt_code::Limits;
use tt_family::Budget;
use tt_font::{Font, FontFault, GlyphPart, read_maxp};

/// Returns the first glyph program, `g0`, if this judge refuses it: that of a font whose font
/// program and CVT program are empty.
///
/// # Errors
/// What ended the work without an answer.
pub fn refused_glyph<J: Judge<Known = (u16, u32)>>(
    alloc: Global,
    font: &Font<'_>,
    judge: &mut J,
    budget: &mut Budget,
) -> Result<Vec<Refused>, Exhausted>
    requires range { IsFontInRange font.now }
    requires start { J.CanStart font.now.limits [] }
    ensures judged { (g : GlyphData) → slice_get font.now.glyphs 0 ≡ Some g
        → IfOk result (λ refused. IsJudgedBy
        (J.Accepts judge.new (glyph_subject (font_of font.now [] []) [] 0 g) [])
        (J.Refuses judge.new (glyph_subject (font_of font.now [] []) [] 0 g) [])
        refused.items) }
    ensures keeps { J.KeepsForGlyphs judge.old judge.new }
    ensures spends { Spends budget.old budget.new }
    ensures budget { EndTellsBudget budget.old budget.new result }
{
    let mut programs = Programs::after_empty(alloc, font)?;
    let mut refused = Vec::new(alloc);
    if let Some(outcome) = programs.judge_next(alloc, judge, budget)? {
        list_outcome(&mut refused, outcome)?;
    }
    Ok(refused)
}

/// Returns the only program, `g0`, if it is refused: that of the glyph of a font whose font program
/// and CVT program are empty.
fn refused_programs(
    alloc: Global,
    limits: Limits,
    cvt: u16,
    glyph: GlyphPart<'_>,
    budget: &mut Budget,
) -> Result<Vec<Refused>, Exhausted>
    requires { length glyph.program.now < 2 ^ 31 }
    ensures judged { let g : GlyphData = glyph_data glyph.entry in IfOk result (λ refused. IsJudged
        (glyph_subject (font_of (font_around limits cvt g) [] []) [] 0 g) refused.items) }
    ensures spends { Spends budget.old budget.new }
    ensures budget { EndTellsBudget budget.old budget.new result }
{
    let font = Font::around(alloc, limits, u32::from(cvt), glyph)?;
    font.range_facts();
    let mut judge = Finding::new(alloc, Search::Verdict);
    refused_glyph(alloc, &font, &mut judge, budget)
}

/// Returns the verdict on one glyph program, `g0`, of at most 65,535 bytes, in a font whose font
/// program and CVT program are empty: against the limits of a `maxp` table, a number of control
/// values, and how many points (without the four phantom points) and contours the glyph has.
///
/// # Errors
/// The faults of `read_maxp`; `OutOfMemory`.
pub fn bare(
    alloc: Global,
    maxp: &[u8],
    cvt: u16,
    points: u16,
    contours: u16,
    program: &[u8],
) -> Result<Verdict, FontFault>
    requires { length program.now ≤ 65535 }
    ensures accepted { let glyph : GlyphData = glyph_with points contours program.now in
        IfOk result (λ v. v.refused ≡ [] → IsSafeGlyph (bare_font maxp.now cvt glyph) glyph) }
    ensures exact { let glyph : GlyphData = glyph_with points contours program.now in
        IfOk result (λ v. v.refused ≡ [] ↔ HasGoodFamily (bare_subject maxp.now cvt glyph)) }
    ensures refused { let glyph : GlyphData = glyph_with points contours program.now in
        IfOk result (λ v. All (IsRefusal (bare_subject maxp.now cvt glyph)) v.refused) }
    ensures one { IfOk result (λ v. (v.programs ≡ 1) × (length v.refused ≤ 1)) }
    ensures fields { OnOk result (maxp_fault maxp.now ≡ None) }
    ensures faults { IfErr result
        (λ e. (maxp_fault maxp.now ≡ Some e) ⊎ (IsMemory e × (maxp_fault maxp.now ≡ None))) }
{
    let mut budget = Budget::unlimited();
    match bare_within(alloc, maxp, cvt, points, contours, program, &mut budget) {
        Ok(verdict) => Ok(verdict),
        // No program has so many points.
        Err(fault) => Err(fault.into_font_fault()),
    }
}

/// Returns the verdict on one glyph program, as `bare` does, and makes at most as many points as
/// the budget allows, as `verdict_within` does.
///
/// # Errors
/// `Font` with the fault of the `maxp` table; `Exhausted` where memory ran out, and where more points
/// were to be made than the budget allows, in this call or in an earlier one.
pub fn bare_within(
    alloc: Global,
    maxp: &[u8],
    cvt: u16,
    points: u16,
    contours: u16,
    program: &[u8],
    budget: &mut Budget,
) -> Result<Verdict, AnswerFault>
    requires { length program.now ≤ 65535 }
    ensures accepted { let glyph : GlyphData = glyph_with points contours program.now in
        IfOk result (λ v. v.refused ≡ [] → IsSafeGlyph (bare_font maxp.now cvt glyph) glyph) }
    ensures exact { let glyph : GlyphData = glyph_with points contours program.now in
        IfOk result (λ v. v.refused ≡ [] ↔ HasGoodFamily (bare_subject maxp.now cvt glyph)) }
    ensures refused { let glyph : GlyphData = glyph_with points contours program.now in
        IfOk result (λ v. All (IsRefusal (bare_subject maxp.now cvt glyph)) v.refused) }
    ensures one { IfOk result (λ v. (v.programs ≡ 1) × (length v.refused ≤ 1)) }
    ensures faults { BareTellsTableFault budget.old (maxp_fault maxp.now) result }
    // What it costs: at most as many points as the budget has left. A verdict or out of memory
    // comes only where that was enough, and the end of the budget only where it wasn't.
    ensures spends { Spends budget.old budget.new }
    ensures budget { VerdictTellsBudget budget.new result }
{
    if budget.is_exceeded() {
        return Err(AnswerFault::Exhausted(Exhausted::Budget));
    }
    let limits = read_maxp(maxp)?;
    let glyph = GlyphPart {
        points,
        contours,
        program,
    };
    let refused = refused_programs(alloc, limits, cvt, glyph, budget)?;
    Ok(Verdict::new(1, refused))
}
