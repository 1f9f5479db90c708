//! The verdict on a font by symbolic states.

ghost use Rattle.std.specs.Prelude.{◌≡◌, IfOk, true};
ghost use Rattle.tt_font.specs.Conditions.{TestsWithMemory};
ghost use Rattle.tt_font.specs.FileFaults.{font_fault};
ghost use Rattle.tt_font.specs.Reading.{FontData, Reads};
ghost use Rattle.hintcheck_programs.specs.FontPrograms.{IsFontInRange, judgement_on};
ghost use Rattle.hintcheck_fonts.specs.Representation.SymbolicChecks.{MayWriteKept};
ghost use Rattle.hintcheck_fonts.specs.SymbolicVerdicts.{IsSymbolicVerdict};

use crate::symbolic_check::SymbolicCheck;
use hintcheck_programs::font::{list_outcome, read_font};
use hintcheck_programs::programs::Programs;
use hintcheck_programs::report::{Name, Outcome, Refused, Verdict};
use std::alloc::{AllocError, Global};
use tt_code::Reason;
use tt_family::Budget;
use tt_font::{Font, FontFault};

/// How often the glyph programs are taken up again at most, because one of them may write what they
/// start with.
const MOST_TAKEN_UP_AGAIN: u32 = 40;

/// How many steps the search of a font usually makes at most, for all its programs together.
pub const USUAL_STEPS: u64 = 1_000_000_000;

/// Whether it is a glyph program that may write what glyph programs start with.
fn may_write_kept(outcome: Outcome) -> bool
    ensures { result ≡ true → MayWriteKept outcome.program outcome.refused }
{
    match (outcome.program, outcome.refused) {
        (Name::Glyph(_), Some(refused)) => matches!(refused.reason, Reason::KeptEntry),
        _ => false,
    }
}

/// Judges the programs of a font by symbolic states, one after the other: returns the refused ones,
/// in their order. All glyph programs are judged from the same starts: where one may write what these
/// list, they are taken up again from others.
///
/// # Errors
/// If memory runs out.
pub fn refused_programs(
    alloc: Global,
    font: &Font<'_>,
    judge: &mut SymbolicCheck,
) -> Result<Vec<Refused>, AllocError>
    requires { IsFontInRange font.now }
    ensures { IfOk result (λ refused. IsSymbolicVerdict font.now
        (judgement_on font.now refused.items)) }
{
    let mut programs = Programs::new(font);
    let mut again = 0;
    let mut refused = Vec::new(alloc);
    loop {
        // A search by steps makes no points, so that only memory ends it.
        let outcome = match programs.judge_next(alloc, judge, &mut Budget::unlimited()) {
            Ok(Some(outcome)) => outcome,
            Ok(None) => return Ok(refused),
            Err(_) => return Err(AllocError),
        };
        if may_write_kept(outcome) && again < MOST_TAKEN_UP_AGAIN {
            again += 1;
            programs.skip_to(Name::Glyph(0));
            judge.start_glyphs(alloc)?;
            refused.clear();
            continue;
        }
        list_outcome(&mut refused, outcome)?;
    }
}

/// Returns the verdict on the programs of a font file by symbolic states: on the font program, then
/// on the CVT program, then on each glyph program. They follow values that `verdict` gives up, so
/// that far more fonts are accepted; but what is promised is about a machine that keeps control
/// values, and whose arithmetic is fixed where `verdict`'s is left open. A refused font program or CVT
/// program ends the verdict; a refused glyph program doesn't. That a program is refused says only
/// that this search found no way to accept it. The search makes at most 20,000,000 steps for a
/// program and 1,000,000,000 for a font.
///
/// # Errors
/// The faults of `Font::read`; `OutOfMemory`.
pub fn verdict_symbolic(alloc: Global, font: &[u8]) -> Result<Verdict, FontFault>
    ensures exact { IfOk result (λ v. (d : FontData) × Reads font.now d × IsSymbolicVerdict d v) }
    ensures faults { TestsWithMemory (font_fault font.now) result }
{
    verdict_symbolic_within(alloc, font, USUAL_STEPS)
}

/// Returns the verdict as `verdict_symbolic` does, where the search makes at most so many steps for
/// the font: a step carries a state over an instruction. A program for which the steps that are left
/// are too few is refused as `TooManySteps`, and so is each after it that needs a step.
///
/// # Errors
/// As `verdict_symbolic`.
pub fn verdict_symbolic_within(alloc: Global, font: &[u8], steps: u64) -> Result<Verdict, FontFault>
    ensures exact { IfOk result (λ v. (d : FontData) × Reads font.now d × IsSymbolicVerdict d v) }
    ensures faults { TestsWithMemory (font_fault font.now) result }
{
    let mut judge = SymbolicCheck::new(alloc, steps);
    verdict_symbolic_by(alloc, font, &mut judge)
}

/// Returns the verdict as `verdict_symbolic_within` does, by this judge, which may make as many steps
/// as it has left. Afterwards the judge tells how many it has made (`SymbolicCheck::steps`).
///
/// # Errors
/// As `verdict_symbolic`.
pub fn verdict_symbolic_by(
    alloc: Global,
    font: &[u8],
    judge: &mut SymbolicCheck,
) -> Result<Verdict, FontFault>
    ensures exact { IfOk result (λ v. (d : FontData) × Reads font.now d × IsSymbolicVerdict d v) }
    ensures faults { TestsWithMemory (font_fault font.now) result }
{
    let read = read_font(alloc, font)?;
    match refused_programs(alloc, &read, judge) {
        Ok(refused) => Ok(Verdict::new(u32::from(read.glyph_count()) + 2, refused)),
        Err(_) => Err(FontFault::OutOfMemory(AllocError)),
    }
}
