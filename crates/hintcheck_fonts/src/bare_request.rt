//! The verdict on one glyph program by both profiles.

ghost use Rattle.std.specs.Prelude.{◌≡◌, ◌≤◌, ◌⊎◌, [], All, IfOk, IfSome, None, length};
ghost use Rattle.tt_setting.specs.Budgets.{IsExceeded, Spends};
ghost use Rattle.tt_font.specs.Conditions.{maxp_fault};
ghost use Rattle.tt_font.specs.Reading.{GlyphData};
ghost use Rattle.hintcheck_programs.specs.BarePrograms.{bare_font, bare_subject, glyph_with};
ghost use Rattle.hintcheck_programs.specs.BudgetAnswers.{BareTellsTableFault, VerdictTellsBudget};
ghost use Rattle.hintcheck_programs.specs.FontPrograms.{IsSafeGlyph};
ghost use Rattle.hintcheck_programs.specs.Programs.{HasGoodFamily};
ghost use Rattle.hintcheck_fonts.specs.Requests.{IsByEither, IsSafeAsked};
ghost use Rattle.hintcheck_fonts.specs.SymbolicRefusals.{IsRefusedAlone};

use crate::request::{Judged, Request, if_accepted};
use crate::symbolic_bare::bare_symbolic_within;
use hintcheck_programs::bare_within;
use hintcheck_programs::report::Verdict;
use hintcheck_report::AnswerFault;
use std::alloc::Global;
use tt_abs::Exhausted;
use tt_family::Budget;

/// Returns the strict verdict on one glyph program where it accepts the program, as `bare_within`
/// returns it. Nothing is returned where it refuses the program, and where this call was to make more
/// points than the budget allows.
///
/// # Errors
/// `Font` with the fault of the `maxp` table; `Exhausted` where memory ran out, and where the budget
/// was exceeded before this call.
fn bare_accepted_within(
    alloc: Global,
    maxp: &[u8],
    cvt: u16,
    points: u16,
    contours: u16,
    program: &[u8],
    budget: &mut Budget,
) -> Result<Option<Verdict>, AnswerFault>
    requires { length program.now ≤ 65535 }
    ensures accepted { let glyph : GlyphData = glyph_with points contours program.now in
        IfOk result (λ found. IfSome found (λ v. IsSafeGlyph (bare_font maxp.now cvt glyph) glyph
        × (v.programs ≡ 1) × (v.refused ≡ []))) }
    ensures none { let glyph : GlyphData = glyph_with points contours program.now in
        IfOk result (λ found. found ≡ None
        → (HasGoodFamily (bare_subject maxp.now cvt glyph) → ⊥) ⊎ IsExceeded budget.new) }
    ensures faults { BareTellsTableFault budget.old (maxp_fault maxp.now) result }
    ensures spends { Spends budget.old budget.new }
    ensures budget { VerdictTellsBudget budget.old result }
{
    if budget.is_exceeded() {
        return Err(AnswerFault::Exhausted(Exhausted::Budget));
    }
    match bare_within(alloc, maxp, cvt, points, contours, program, budget) {
        Ok(verdict) => Ok(if_accepted(verdict)),
        Err(AnswerFault::Exhausted(Exhausted::Budget)) => Ok(None),
        Err(fault) => Err(fault),
    }
}

/// Returns the strict verdict on one glyph program, `g0`, of at most 65,535 bytes, as `bare_within`
/// does, where it accepts the program within the budget; otherwise the symbolic one, as
/// `bare_symbolic_within` does, whose search makes at most so many steps. What is returned says whose
/// verdict it is.
///
/// # Errors
/// `Font` with the fault of the `maxp` table; `Exhausted` where memory ran out, and where the budget
/// was exceeded before this call. A budget that this call exceeds is no error.
pub fn bare_by_both(
    alloc: Global,
    maxp: &[u8],
    cvt: u16,
    points: u16,
    contours: u16,
    program: &[u8],
    steps: u64,
    budget: &mut Budget,
) -> Result<Judged, AnswerFault>
    requires { length program.now ≤ 65535 }
    ensures accepted { let glyph : GlyphData = glyph_with points contours program.now in
        IfOk result (λ j. j.verdict.refused ≡ []
        → IsSafeAsked j.by (bare_font maxp.now cvt glyph) glyph) }
    ensures either { IfOk result (λ j. IsByEither steps j.by) }
    ensures strict { IfOk result (λ j. j.by ≡ Request.Strict → j.verdict.refused ≡ []) }
    // The strict profile doesn't accept the program where the verdict is the symbolic one's: the
    // program has no good family, or this call was to make more points than may be.
    ensures symbolic { let glyph : GlyphData = glyph_with points contours program.now in
        IfOk result (λ j. j.by ≡ Request.Symbolic steps
        → (HasGoodFamily (bare_subject maxp.now cvt glyph) → ⊥) ⊎ IsExceeded budget.new) }
    ensures one { IfOk result (λ j. (j.verdict.programs ≡ 1) × (length j.verdict.refused ≤ 1)) }
    ensures told { let glyph : GlyphData = glyph_with points contours program.now in
        IfOk result (λ j. All (IsRefusedAlone glyph) j.verdict.refused) }
    ensures faults { BareTellsTableFault budget.old (maxp_fault maxp.now) result }
    ensures spends { Spends budget.old budget.new }
    ensures budget { VerdictTellsBudget budget.old result }
{
    let found = bare_accepted_within(alloc, maxp, cvt, points, contours, program, budget)?;
    if let Some(verdict) = found {
        return Ok(Judged {
            by: Request::Strict,
            verdict,
        });
    }
    let verdict = bare_symbolic_within(alloc, maxp, cvt, points, contours, program, steps)?;
    Ok(Judged {
        by: Request::Symbolic { steps },
        verdict,
    })
}
