//! The search for the least number that is enough.

ghost use Rattle.std.specs.Prelude.{◌≡◌, ◌<◌, ◌≤◌, IfOk};
ghost use Rattle.tt_setting.specs.Budgets.{EndTellsBudget, Spends};
ghost use Rattle.hintcheck_needs.specs.Needs.{IsEnoughFrom, Refuses, greatest_number, with_number};

use crate::trial::{Aim, Told, tells};
use hintcheck_fonts::Request;
use hintcheck_report::Bound;
use std::alloc::Global;
use tt_abs::Exhausted;
use tt_family::Budget;
use tt_font::Font;

/// Numbers of which one is the least that is enough, as far as verdicts tell.
#[derive(Clone, Copy, PartialEq, Eq)]
pub(crate) struct Range {
    /// The number before it, if there is one, isn't enough.
    pub(crate) least: u16,
    /// It is enough, and at least as great.
    pub(crate) enough: u16,
}

/// Returns which number of a range is tried, after so many others: 0 first, then the one that the
/// font declares, or the nearest to it. Verdicts with too small a number mostly end early, so those
/// after it come from below: twice the least, up to the middle.
fn next_number(range: Range, tried: u32, declared: u16) -> u16
    requires { range.least < range.enough }
    ensures least { range.least ≤ result }
    ensures most { result < range.enough }
{
    let last = range.enough - 1;
    match tried {
        0 => range.least,
        1 => declared.max(range.least).min(last),
        _ => {
            let middle = range.least + (range.enough - range.least) / 2;
            range.least.saturating_mul(2).min(middle)
        }
    }
}

/// Searches for the least number that is enough for a font, where with the greatest one a verdict
/// refuses the programs that it is to refuse: until the range has one number, or until the steps
/// that are left are too few.
///
/// # Errors
/// Those of `judge`. The font is as it was.
pub(crate) fn range_of(
    alloc: Global,
    font: &mut Font<'_>,
    aim: Aim<'_>,
    bound: Bound,
    declared: u16,
    left: &mut u64,
    points: &mut Budget,
) -> Result<Range, Exhausted>
    requires { Refuses aim.request (with_number font.old bound greatest_number) aim.refused.now }
    ensures range { IfOk result (λ range. IsEnoughFrom aim.entry.request font.old bound
        aim.entry.refused.now range.least range.enough) }
    ensures exact { aim.entry.request ≡ Request.Strict
        → IfOk result (λ range. range.least ≡ range.enough) }
    ensures kept { font.new ≡ font.old }
    ensures spends { Spends points.old points.new }
    ensures budget { EndTellsBudget points.old points.new result }
{
    let mut range = Range {
        least: 0,
        enough: u16::MAX,
    };
    let mut tried: u32 = 0;
    while range.least < range.enough {
        let number = next_number(range, tried, declared);
        match tells(alloc, font, aim, bound, number, left, points)? {
            Told::Same => range.enough = number,
            Told::Others => range.least = number + 1,
            Told::Nothing => return Ok(range),
        }
        tried = tried.saturating_add(1);
    }
    Ok(range)
}
