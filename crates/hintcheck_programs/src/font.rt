//! The verdict on a font.

ghost use Rattle.std.specs.Prelude.{◌≡◌, [], IfOk, OnOk};
ghost use Rattle.tt_setting.specs.Budgets.{EndTellsBudget, Spends};
ghost use Rattle.tt_font.specs.Conditions.{TestsWithMemory};
ghost use Rattle.tt_font.specs.FileFaults.{font_fault};
ghost use Rattle.tt_font.specs.Reading.{FontData, Reads};
ghost use Rattle.hintcheck_programs.specs.BudgetAnswers.{VerdictTellsBudget, VerdictTellsFontFault};
ghost use Rattle.hintcheck_programs.specs.FontPrograms.{IsFontInRange, IsSafeFont, IsVerdict, judgement_on};
ghost use Rattle.hintcheck_programs.specs.Representation.FontVerdicts.{ListsOutcome};

use crate::finding::Finding;
use crate::program::Search;
use crate::programs::Programs;
use crate::report::{Outcome, Refused, Verdict};
use hintcheck_report::AnswerFault;
use std::alloc::{AllocError, Global};
use tt_abs::Exhausted;
use tt_family::Budget;
use tt_font::{Font, FontFault};

/// Adds the outcome's program to the list of the refused ones, if it is refused.
pub fn list_outcome(refused: &mut Vec<Refused>, outcome: Outcome) -> Result<(), AllocError>
    ensures { OnOk result (ListsOutcome refused.old.items outcome.refused refused.new.items) }
{
    if let Some(one) = outcome.refused {
        refused.push(one)?;
    }
    Ok(())
}

/// Judges the programs of a font, one after the other, each in the memory of those before: returns
/// the refused ones, in their order.
///
/// # Errors
/// What ended the work without an answer: memory ran out, or more points were to be made than the
/// budget allows.
pub fn refused_programs(
    alloc: Global,
    font: &Font<'_>,
    budget: &mut Budget,
) -> Result<Vec<Refused>, Exhausted>
    requires { IsFontInRange font.now }
    ensures refused { IfOk result (λ refused.
        IsVerdict font.now (judgement_on font.now refused.items)) }
    ensures spends { Spends budget.old budget.new }
    ensures budget { EndTellsBudget budget.old budget.new result }
{
    let mut programs = Programs::new(font);
    let mut judge = Finding::new(alloc, Search::Verdict);
    let mut refused = Vec::new(alloc);
    while let Some(outcome) = programs.judge_next(alloc, &mut judge, budget)? {
        list_outcome(&mut refused, outcome)?;
    }
    Ok(refused)
}

/// Reads a font. Each of its programs has fewer than 2^31 bytes, and the greatest depth of its
/// stack is a number of 16 bits.
///
/// # Errors
/// The faults of `Font::read`.
pub fn read_font<'a>(alloc: Global, bytes: &'a [u8]) -> Result<Font<'a>, FontFault>
    ensures reads { IfOk result (λ font. Reads bytes.entry.now font) }
    ensures range { IfOk result (λ font. IsFontInRange font) }
    ensures faults { TestsWithMemory (font_fault bytes.entry.now) result }
{
    let font = Font::read(alloc, bytes)?;
    font.range_facts();
    Ok(font)
}

/// Returns the verdict on the programs of a font file: on the font program, then on the CVT
/// program, then on each glyph program. The CVT program starts with the functions that are known
/// where the font program ends, and a glyph program with those that are known where the CVT program
/// ends. A refused font program or CVT program ends the verdict; a refused glyph program doesn't.
///
/// # Errors
/// The faults of `Font::read`; `OutOfMemory`.
pub fn verdict(alloc: Global, font: &[u8]) -> Result<Verdict, FontFault>
    ensures exact { IfOk result (λ v. (d : FontData) × Reads font.now d × IsVerdict d v
        × (v.refused ≡ [] → IsSafeFont d)) }
    ensures faults { TestsWithMemory (font_fault font.now) result }
{
    match verdict_within(alloc, font, &mut Budget::unlimited()) {
        Ok(verdict) => Ok(verdict),
        // No font has so many points.
        Err(fault) => Err(fault.into_font_fault()),
    }
}

/// Returns the verdict on the programs of a font file, as `verdict` does, and makes at most as many
/// points as the budget allows: one point is made each time that a state is carried on, to find a
/// family or to check it.
///
/// # Errors
/// `Font` with the faults of `Font::read`; `Exhausted` where memory ran out, and where more points
/// were to be made than the budget allows, in this call or in an earlier one.
pub fn verdict_within(
    alloc: Global,
    font: &[u8],
    budget: &mut Budget,
) -> Result<Verdict, AnswerFault>
    ensures exact { IfOk result (λ v. (d : FontData) × Reads font.now d × IsVerdict d v
        × (v.refused ≡ [] → IsSafeFont d)) }
    ensures faults { VerdictTellsFontFault (font_fault font.now) result }
    // What it costs: at most as many points as the budget has left. A verdict or out of memory
    // comes only where that was enough, and the end of the budget only where it wasn't.
    ensures spends { Spends budget.old budget.new }
    ensures budget { VerdictTellsBudget budget.new result }
{
    if budget.is_exceeded() {
        return Err(AnswerFault::Exhausted(Exhausted::Budget));
    }
    let read = read_font(alloc, font)?;
    let refused = refused_programs(alloc, &read, budget)?;
    Ok(Verdict::new(u32::from(read.glyph_count()) + 2, refused))
}
