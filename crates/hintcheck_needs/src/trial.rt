//! Verdicts on a font with other numbers in place of its own.

ghost use Rattle.std.specs.Prelude.{◌≡◌, ◌↔◌, IfOk, IsTrue, false};
ghost use Rattle.tt_setting.specs.Budgets.{EndTellsBudget, Spends};
ghost use Rattle.hintcheck_needs.specs.Needs.{Refuses, with_number};
ghost use Rattle.hintcheck_needs.specs.Representation.Trials.{Tells};

use crate::numbers::replace_number;
use hintcheck_fonts::SymbolicCheck;
use hintcheck_fonts::request::Request;
use hintcheck_fonts::symbolic_verdict::refused_programs;
use hintcheck_programs::font;
use hintcheck_report::{Bound, Refused};
use std::alloc::Global;
use tt_abs::Exhausted;
use tt_code::Reason;
use tt_family::Budget;
use tt_font::Font;

/// A verdict on a font.
#[derive(Drop)]
pub(crate) struct Trial {
    /// The programs that it refuses, in their order.
    pub(crate) refused: Vec<Refused>,
    /// How many steps the search made for it: none by the strict profile.
    pub(crate) steps: u64,
    /// Whether the search made all steps that were left, and might have made more.
    is_cut: bool,
}

/// What a verdict with another number tells.
#[derive(Clone, Copy, PartialEq, Eq)]
pub(crate) enum Told {
    /// It refuses the programs that it is to refuse, each at the same place for the same reason.
    Same,
    /// It refuses others, or at other places, or for other reasons.
    Others,
    /// The steps that were left may have been too few.
    Nothing,
}

/// What verdicts with other numbers are asked.
#[derive(Clone, Copy)]
pub(crate) struct Aim<'r> {
    /// By which profile they are made, and how many steps each may take.
    pub(crate) request: Request,
    /// The programs that they are to refuse.
    pub(crate) refused: &'r [Refused],
}

/// Whether these reasons are the same.
fn is_same_reason(one: Reason, other: Reason) -> bool
    ensures { IsTrue result ↔ (one ≡ other) }
{
    one == other
}

/// Whether this is the same program, refused at the same place for the same reason.
fn is_same(one: Refused, other: Refused) -> bool
    ensures { IsTrue result ↔ (one ≡ other) }
{
    one.program == other.program
        && one.place == other.place
        && is_same_reason(one.reason, other.reason)
}

/// Whether these are the same programs in the same order, each refused at the same place for the
/// same reason.
fn are_same(some: &[Refused], others: &[Refused]) -> bool
    ensures { IsTrue result ↔ (some.now ≡ others.now) }
{
    if some.len() != others.len() {
        return false;
    }
    for (one, other) in some.iter().zip(others) {
        if !is_same(*one, *other) {
            return false;
        }
    }
    true
}

/// Judges the programs of a font as is asked, with so many steps left for the search.
///
/// # Errors
/// `Memory` where memory runs out; `Budget`, by the strict profile alone, where more points were to
/// be made than the budget allows.
pub(crate) fn judge(
    alloc: Global,
    font: &Font<'_>,
    request: Request,
    left: u64,
    points: &mut Budget,
) -> Result<Trial, Exhausted>
    ensures refused { IfOk result (λ trial. Refuses request font.now trial.refused.items) }
    ensures whole { request ≡ Request.Strict → IfOk result (λ trial. trial.is_cut ≡ false) }
    ensures spends { Spends points.old points.new }
    ensures budget { EndTellsBudget points.old points.new result }
{
    font.range_facts();
    match request {
        Request::Strict => Ok(Trial {
            refused: font::refused_programs(alloc, font, points)?,
            steps: 0,
            is_cut: false,
        }),
        Request::Symbolic { steps } => {
            let mut judge = SymbolicCheck::new(alloc, steps.min(left));
            let refused = refused_programs(alloc, font, &mut judge)?;
            let made = judge.steps();
            Ok(Trial {
                refused,
                steps: made,
                is_cut: left < steps && left <= made,
            })
        }
    }
}

/// Returns what a verdict with this number in place of the font's own tells, and takes the steps
/// that the search made for it from those that are left.
///
/// # Errors
/// Those of `judge`. The font is as it was.
pub(crate) fn tells(
    alloc: Global,
    font: &mut Font<'_>,
    aim: Aim<'_>,
    bound: Bound,
    number: u16,
    left: &mut u64,
    points: &mut Budget,
) -> Result<Told, Exhausted>
    ensures told { IfOk result (Tells aim.entry.request (with_number font.old bound number)
        aim.entry.refused.now) }
    ensures kept { font.new ≡ font.old }
    ensures spends { Spends points.old points.new }
    ensures budget { EndTellsBudget points.old points.new result }
{
    let limits = font.limits();
    let cvt_count = font.cvt_count();
    replace_number(font, bound, number);
    let judged = judge(alloc, font, aim.request, *left, points);
    font.set_limits(limits, cvt_count);
    let trial = judged?;
    *left = left.saturating_sub(trial.steps);
    if trial.is_cut {
        return Ok(Told::Nothing);
    }
    if are_same(&trial.refused, aim.refused) {
        Ok(Told::Same)
    } else {
        Ok(Told::Others)
    }
}
