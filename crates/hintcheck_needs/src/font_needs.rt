//! What a font needs of the numbers that are asked for, and what it declares.

ghost use Rattle.std.specs.Prelude.{◌≡◌, IfOk, OnOk, ◌++◌, ◌∷◌, [], map};
ghost use Rattle.std.specs.List.{All};
ghost use Rattle.tt_setting.specs.Budgets.{EndTellsBudget, Spends};
ghost use Rattle.tt_font.specs.FileFaults.{font_fault};
ghost use Rattle.tt_font.specs.Reading.{FontData, Reads};
ghost use Rattle.hintcheck_programs.specs.BudgetAnswers.{VerdictTellsBudget, VerdictTellsFontFault};
ghost use Rattle.hintcheck_needs.specs.Needs.{AreNeeds, IsNeed};

use crate::asked::{Asked, asked_bounds};
use crate::numbers::raise_numbers;
use crate::search::range_of;
use crate::trial::{Aim, judge};
use hintcheck_fonts::{Request, read_font};
use hintcheck_report::{AnswerFault, Bound};
use std::alloc::{AllocError, Global};
use tt_abs::Exhausted;
use tt_family::Budget;
use tt_font::Font;

/// How many times the steps of the first verdict, with the greatest numbers, all verdicts may take.
const TIMES: u64 = 10;

/// How many steps they may take however few the first one takes.
const FEW_STEPS: u64 = 1_000_000;

/// What a font needs of one number, and what it declares.
#[derive(Clone, Copy)]
pub struct Need {
    /// Which number it is.
    pub bound: Bound,
    /// The number before this one, if there is one, isn't enough.
    pub least: u16,
    /// A number that is enough: the least one, where both are the same.
    pub enough: u16,
    /// The number that the font has.
    pub declared: u32,
}

/// Returns how many steps are left for further verdicts after the first one.
fn steps_left(first: u64) -> u64 {
    let all = first.saturating_mul(TIMES).max(FEW_STEPS);
    all.saturating_sub(first)
}

/// Adds what a font needs of one number.
fn list_need(needs: &mut Vec<Need>, need: Need) -> Result<(), AllocError>
    ensures { OnOk result (needs.new.items ≡ needs.old.items ++ (need ∷ [])) }
{
    needs.push(need)?;
    Ok(())
}

/// Returns what a font needs of these numbers, in their order. The numbers that weren't searched
/// for share the steps that are left alike.
///
/// # Errors
/// Those of `judge`.
fn needs_of(
    alloc: Global,
    font: &mut Font<'_>,
    request: Request,
    bounds: &[Bound],
    points: &mut Budget,
) -> Result<Vec<Need>, Exhausted>
    ensures bounds { IfOk result (λ needs. map (λ need. need.bound) needs.items ≡ bounds.now) }
    ensures each { IfOk result (λ needs. All (λ need. IsNeed request font.old need) needs.items) }
    ensures spends { Spends points.old points.new }
    ensures budget { EndTellsBudget points.old points.new result }
{
    let limits = font.limits();
    let cvt_count = font.cvt_count();
    raise_numbers(font);
    let first = judge(alloc, font, request, u64::MAX, points)?;
    let aim = Aim {
        request,
        refused: first.refused.as_slice(),
    };
    let mut left = steps_left(first.steps);
    let mut needs = Vec::new(alloc);
    for (told, &bound) in bounds.iter().enumerate() {
        let declared = bound.declared(limits, cvt_count);
        let near = declared.min(65_535) as u16;
        let share = left / (bounds.len() - told) as u64;
        let mut rest = share;
        let range = range_of(alloc, font, aim, bound, near, &mut rest, points)?;
        left = left.saturating_sub(share.saturating_sub(rest));
        let need = Need {
            bound,
            least: range.least,
            enough: range.enough,
            declared,
        };
        list_need(&mut needs, need)?;
    }
    Ok(needs)
}

/// Reads a font file and returns what it needs of each number that is asked for, in the order of
/// `Bound`. A number is enough where a verdict with it refuses the same programs, at the same
/// places for the same reasons, as one with 65,535, while all other numbers are 65,535.
///
/// By the symbolic profile the verdicts with other numbers take at most ten times as many steps
/// together as the first one, with the greatest numbers, or 1,000,000 where that is more. Where
/// these are used up, `least` and `enough` are a range that is left. By the strict profile they are
/// the same.
///
/// # Errors
/// `Font` with the faults of `Font::read`; `Exhausted` where memory ran out, and where more points
/// were to be made than the budget allows, for all verdicts together or in an earlier call.
pub fn needs_in(
    alloc: Global,
    bytes: &[u8],
    request: Request,
    asked: Asked,
    points: &mut Budget,
) -> Result<Vec<Need>, AnswerFault>
    ensures needs { IfOk result (λ needs.
        (d : FontData) × Reads bytes.now d × AreNeeds request d asked needs.items) }
    ensures faults { VerdictTellsFontFault (font_fault bytes.now) result }
    ensures spends { Spends points.old points.new }
    ensures budget { VerdictTellsBudget points.new result }
{
    if points.is_exceeded() {
        return Err(AnswerFault::Exhausted(Exhausted::Budget));
    }
    let mut font = read_font(alloc, bytes)?;
    let bounds = asked_bounds(alloc, &font, request, asked, points)?;
    if bounds.is_empty() {
        return Ok(Vec::new(alloc));
    }
    Ok(needs_of(alloc, &mut font, request, &bounds, points)?)
}
