//! Fonts in the bytes of a file, and the verdicts on them: where there is none, the fault tells what
//! the file holds instead, as far as it is known.

ghost use Rattle.std.specs.Prelude.{IfErr, IfOk};
ghost use Rattle.tt_font.specs.FileFaults.{font_fault};
ghost use Rattle.tt_font.specs.Reading.{Reads};
ghost use Rattle.hintcheck.specs.Commands.{IsNoWriteFault};
ghost use Rattle.hintcheck.specs.CommandFaults.{IsFaultOfFontFile};
ghost use Rattle.hintcheck.specs.MeansSafe.{IsRequestOf, IsVerdictBy};
ghost use Rattle.hintcheck_programs.specs.BudgetAnswers.{IsNotExceeded, VerdictTellsFontFault};
ghost use Rattle.hintcheck_programs.specs.FontPrograms.{IsFontInRange};

use crate::commands::faults::CommandFault;
use hintcheck_fonts::symbolic_verdict::USUAL_STEPS;
use hintcheck_fonts::{Judged, Request, verdict_by, verdict_by_both};
use hintcheck_programs::font::read_font;
use hintcheck_report::AnswerFault;
use hintcheck_words::Profile;
use std::alloc::Global;
use tt_abs::Exhausted;
use tt_family::Budget;
use tt_font::Font;

/// Returns a budget of this many steps, or of as many as it takes.
pub(crate) fn budget_of(max_steps: Option<u64>) -> Budget
    ensures { IsNotExceeded result }
{
    match max_steps {
        Some(most) => Budget::of(most),
        None => Budget::unlimited(),
    }
}

/// Reads a font, as `read_font` does.
///
/// # Errors
/// The faults of `Font::read`.
pub(crate) fn font_in<'a>(alloc: Global, bytes: &'a [u8]) -> Result<Font<'a>, CommandFault>
    ensures reads { IfOk result (λ font. Reads bytes.entry.now font) }
    ensures range { IfOk result (λ font. IsFontInRange font) }
    ensures unwritten { IfErr result IsNoWriteFault }
    ensures faults { IfErr result IsFaultOfFontFile }
{
    match read_font(alloc, bytes) {
        Ok(font) => Ok(font),
        Err(fault) => Err(CommandFault::of_font(fault, bytes)),
    }
}

/// Judges the font in these bytes by the profile that is asked for: by both, the strict verdict is
/// told where it accepts the font within the budget, and otherwise the symbolic one.
///
/// # Errors
/// `Font` with the faults of `Font::read`; `Exhausted` where memory ran out, and by the strict profile
/// alone where more steps were to be made than the budget allows.
fn judge(
    alloc: Global,
    bytes: &[u8],
    profile: Profile,
    budget: &mut Budget,
) -> Result<Judged, AnswerFault>
    requires { IsNotExceeded budget.old }
    ensures given { IfOk result (λ j. IsVerdictBy profile j.by bytes.now j.verdict) }
    ensures faults { VerdictTellsFontFault (font_fault bytes.now) result }
{
    let steps = profile.max_steps().unwrap_or(USUAL_STEPS);
    let by = match profile {
        Profile::Strict { .. } => Request::Strict,
        Profile::Symbolic { .. } => Request::Symbolic { steps },
        Profile::Both { .. } => return verdict_by_both(alloc, bytes, steps, budget),
    };
    let verdict = verdict_by(alloc, bytes, by, budget)?;
    Ok(Judged { by, verdict })
}

/// Returns by which of the profiles that are asked for the font in these bytes is explained: the one
/// whose verdict is told.
///
/// # Errors
/// By both profiles those of `judged_font`; otherwise none.
pub(crate) fn told_by(
    alloc: Global,
    bytes: &[u8],
    profile: Profile,
) -> Result<Request, CommandFault>
    ensures asked { IfOk result (IsRequestOf profile) }
    ensures unwritten { IfErr result IsNoWriteFault }
{
    match profile {
        Profile::Strict { .. } => Ok(Request::Strict),
        Profile::Symbolic { max_steps } => Ok(Request::Symbolic {
            steps: max_steps.unwrap_or(USUAL_STEPS),
        }),
        Profile::Both { .. } => Ok(judged_font(alloc, bytes, profile)?.by),
    }
}

/// Returns the verdict on the font in these bytes by the profile that is asked for, and whose it is. Each
/// profile makes at most as many steps as are asked for.
///
/// # Errors
/// The faults of `Font::read`; `OutOfMemory`; `Budget`.
pub(crate) fn judged_font(
    alloc: Global,
    bytes: &[u8],
    profile: Profile,
) -> Result<Judged, CommandFault>
    ensures given { IfOk result (λ j. IsVerdictBy profile j.by bytes.now j.verdict) }
    ensures unwritten { IfErr result IsNoWriteFault }
    ensures faults { IfErr result IsFaultOfFontFile }
{
    let mut budget = budget_of(profile.max_steps());
    match judge(alloc, bytes, profile, &mut budget) {
        Ok(judged) => Ok(judged),
        Err(AnswerFault::Exhausted(Exhausted::Budget)) => Err(CommandFault::Budget),
        Err(fault) => Err(CommandFault::of_font(fault.into_font_fault(), bytes)),
    }
}
