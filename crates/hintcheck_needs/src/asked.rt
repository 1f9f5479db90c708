//! Which numbers of a font are asked for.

ghost use Rattle.std.specs.Prelude.{◌≡◌, IfOk};
ghost use Rattle.std.specs.List.{filter};
ghost use Rattle.tt_setting.specs.Budgets.{EndTellsBudget, Spends};
ghost use Rattle.hintcheck_needs.specs.Needs.{AreAsked, all_bounds, is_passed, reason_for};

use hintcheck_fonts::request::{Request, refused_by};
use hintcheck_report::{Bound, Refused};
use std::alloc::{AllocError, Global};
use tt_abs::Exhausted;
use tt_code::Reason;
use tt_family::Budget;
use tt_font::Font;

/// Which numbers of a font are asked for.
#[derive(Clone, Copy, PartialEq, Eq)]
pub enum Asked {
    /// Those that a program passes: the verdict on the font, with its own numbers, refuses it for
    /// the reason that names the number.
    Refused,
    /// All of them.
    All,
}

/// The numbers, in the order in which they are told.
const BOUNDS: &[Bound] = &[
    Bound::StackElements,
    Bound::Storage,
    Bound::FunctionDefs,
    Bound::ControlValues,
    Bound::TwilightPoints,
    Bound::Zones,
    Bound::SizeOfInstructions,
];

/// Returns the reason for which a program is refused that passes the number.
fn reason_for(bound: Bound) -> Reason
    ensures { result ≡ reason_for bound }
{
    match bound {
        Bound::StackElements => Reason::Overflow,
        Bound::Storage => Reason::Storage,
        Bound::FunctionDefs => Reason::Function,
        Bound::ControlValues => Reason::Cvt,
        Bound::TwilightPoints => Reason::Point,
        Bound::Zones => Reason::Zone,
        Bound::SizeOfInstructions => Reason::ProgramTooLong,
    }
}

/// Whether one of these programs is refused for the reason that names the number.
fn is_passed(refused: &[Refused], bound: Bound) -> bool
    ensures { result ≡ is_passed refused.now bound }
{
    let number = reason_for(bound).number();
    refused.iter().any(|one| one.reason.number() == number)
}

/// Returns the numbers that one of these programs passes, in their order.
///
/// # Errors
/// If memory runs out.
fn passed_bounds(alloc: Global, refused: &[Refused]) -> Result<Vec<Bound>, AllocError>
    ensures { IfOk result (λ bounds.
        bounds.items ≡ filter (λ bound. is_passed refused.now bound) all_bounds) }
{
    let all = BOUNDS.iter().copied();
    all.filter(|bound| is_passed(refused, *bound))
        .collect(alloc)
}

/// Returns the numbers that are asked for, in their order. For those that are passed it makes a
/// verdict on the font with its own numbers.
///
/// # Errors
/// Those of `refused_by`.
pub(crate) fn asked_bounds(
    alloc: Global,
    font: &Font<'_>,
    request: Request,
    asked: Asked,
    points: &mut Budget,
) -> Result<Vec<Bound>, Exhausted>
    ensures asked { IfOk result (λ bounds. AreAsked request font.now asked bounds.items) }
    ensures spends { Spends points.old points.new }
    ensures budget { EndTellsBudget points.old points.new result }
{
    match asked {
        Asked::All => Ok(Vec::from_slice(alloc, BOUNDS)?),
        Asked::Refused => {
            let refused = refused_by(alloc, font, request, points)?;
            Ok(passed_bounds(alloc, &refused)?)
        }
    }
}
