//! The verdict on a font by the profile that is asked for, or by both.

ghost use Rattle.std.specs.Prelude.{◌≡◌, ◌≢◌, ◌⊎◌, ℕ, [], IfOk, IfSome, None};
ghost use Rattle.tt_setting.specs.Budgets.{EndTellsBudget, IsExceeded, Spends};
ghost use Rattle.tt_font.specs.FileFaults.{font_fault};
ghost use Rattle.hintcheck_programs.specs.BudgetAnswers.{VerdictTellsBudget, VerdictTellsFontFault};
ghost use Rattle.hintcheck_programs.specs.FontPrograms.{judgement_on};
ghost use Rattle.hintcheck_fonts.specs.FontAnswers.{HoldRefusedFont, IsVerdictOn};
ghost use Rattle.hintcheck_fonts.specs.Requests.{GivesVerdict, IsByEither, IsVerdictAsked};

use crate::symbolic_check::SymbolicCheck;
use crate::symbolic_verdict::{refused_programs, verdict_symbolic_within};
use hintcheck_programs::font::{self, read_font};
use hintcheck_programs::report::{Refused, Verdict};
use hintcheck_report::AnswerFault;
use std::alloc::Global;
use tt_abs::Exhausted;
use tt_family::Budget;
use tt_font::Font;

/// By which profile a font is judged, and how much may be done for it.
#[derive(Clone, Copy)]
pub enum Request {
    /// The strict profile, without further premises. How many points may be made is said by a
    /// budget, which goes from font to font.
    Strict,
    /// The symbolic profile, which follows values that are computed, and whose acceptances have
    /// further premises.
    Symbolic {
        /// How many steps the search makes at most for a font.
        steps: u64,
    },
}

/// Judges the programs of a font as is asked: returns the refused ones, in their order.
///
/// # Errors
/// `Memory` where memory runs out; `Budget`, by the strict profile alone, where more points were to
/// be made than the budget allows.
pub fn refused_by(
    alloc: Global,
    font: &Font<'_>,
    request: Request,
    points: &mut Budget,
) -> Result<Vec<Refused>, Exhausted>
    ensures verdict { IfOk result (λ refused.
        GivesVerdict request font.now (judgement_on font.now refused.items)) }
    ensures spends { Spends points.old points.new }
    ensures budget { EndTellsBudget points.old points.new result }
{
    font.range_facts();
    match request {
        Request::Strict => font::refused_programs(alloc, font, points),
        Request::Symbolic { steps } => {
            let mut judge = SymbolicCheck::new(alloc, steps);
            Ok(refused_programs(alloc, font, &mut judge)?)
        }
    }
}

/// Returns the verdict on the programs of a font file by the profile that is asked for: as
/// `verdict_within` does, or as `verdict_symbolic_within` does, for which no points are made.
///
/// # Errors
/// `Font` with the faults of `Font::read`; `Exhausted` where memory ran out, and where more points
/// were to be made than the budget allows, in this call or in an earlier one.
pub fn verdict_by(
    alloc: Global,
    font: &[u8],
    request: Request,
    points: &mut Budget,
) -> Result<Verdict, AnswerFault>
    ensures given { IfOk result (IsVerdictAsked request font.now) }
    ensures faults { VerdictTellsFontFault (font_fault font.now) result }
    ensures spends { Spends points.old points.new }
    ensures unspent { (steps : ℕ) → request ≡ Request.Symbolic steps → points.new ≡ points.old }
    ensures budget { VerdictTellsBudget points.new result }
{
    match request {
        Request::Strict => font::verdict_within(alloc, font, points),
        Request::Symbolic { steps } => {
            if points.is_exceeded() {
                return Err(AnswerFault::Exhausted(Exhausted::Budget));
            }
            Ok(verdict_symbolic_within(alloc, font, steps)?)
        }
    }
}

/// A verdict, and whose it is, where both profiles may be asked.
#[derive(Drop)]
pub struct Judged {
    /// The request that the verdict answers: `Strict` only where it refuses no program.
    pub by: Request,
    /// The verdict.
    pub verdict: Verdict,
}

/// Returns a verdict that refuses no program, and nothing in the place of any other one.
pub(crate) fn if_accepted(verdict: Verdict) -> Option<Verdict>
    ensures given { IfSome result (λ v. (v ≡ verdict) × (v.refused ≡ [])) }
    ensures none { result ≡ None → verdict.refused ≢ [] }
{
    if verdict.accepted() {
        Some(verdict)
    } else {
        None
    }
}

/// Returns the strict verdict on the programs of a font file where it accepts them all, as
/// `verdict_within` returns it. Nothing is returned where it refuses a program, and where this call
/// was to make more points than the budget allows.
///
/// # Errors
/// `Font` with the faults of `Font::read`; `Exhausted` where memory ran out, and where the budget was
/// exceeded before this call.
pub fn accepted_within(
    alloc: Global,
    font: &[u8],
    points: &mut Budget,
) -> Result<Option<Verdict>, AnswerFault>
    ensures given { IfOk result (λ found. IfSome found (λ v.
        IsVerdictOn font.now v × (v.refused ≡ []))) }
    ensures none { IfOk result (λ found. found ≡ None
        → HoldRefusedFont font.now ⊎ IsExceeded points.new) }
    ensures faults { VerdictTellsFontFault (font_fault font.now) result }
    ensures spends { Spends points.old points.new }
    ensures budget { VerdictTellsBudget points.old result }
{
    if points.is_exceeded() {
        return Err(AnswerFault::Exhausted(Exhausted::Budget));
    }
    let read = read_font(alloc, font)?;
    let programs = u32::from(read.glyph_count()) + 2;
    match font::refused_programs(alloc, &read, points) {
        Ok(refused) => Ok(if_accepted(Verdict::new(programs, refused))),
        Err(Exhausted::Budget) => Ok(None),
        Err(Exhausted::Memory) => Err(AnswerFault::Exhausted(Exhausted::Memory)),
    }
}

/// Returns the strict verdict on the programs of a font file where it accepts them all within these
/// points, and otherwise the verdict of the symbolic profile, whose search makes at most so many
/// steps. What is returned says whose verdict it is.
///
/// # Errors
/// `Font` with the faults of `Font::read`; `Exhausted` where memory ran out, and where the budget was
/// exceeded before this call. A budget that this call exceeds is no error.
pub fn verdict_by_both(
    alloc: Global,
    font: &[u8],
    steps: u64,
    points: &mut Budget,
) -> Result<Judged, AnswerFault>
    ensures given { IfOk result (λ j. IsVerdictAsked j.by font.now j.verdict) }
    ensures either { IfOk result (λ j. IsByEither steps j.by) }
    ensures strict { IfOk result (λ j. j.by ≡ Request.Strict → j.verdict.refused ≡ []) }
    // The strict profile doesn't accept the font where the verdict is the symbolic one's: it refuses
    // a program, or this call was to make more points than may be.
    ensures symbolic { IfOk result (λ j. j.by ≡ Request.Symbolic steps
        → HoldRefusedFont font.now ⊎ IsExceeded points.new) }
    ensures faults { VerdictTellsFontFault (font_fault font.now) result }
    ensures spends { Spends points.old points.new }
    ensures budget { VerdictTellsBudget points.old result }
{
    if let Some(verdict) = accepted_within(alloc, font, points)? {
        return Ok(Judged {
            by: Request::Strict,
            verdict,
        });
    }
    let verdict = verdict_symbolic_within(alloc, font, steps)?;
    Ok(Judged {
        by: Request::Symbolic { steps },
        verdict,
    })
}
