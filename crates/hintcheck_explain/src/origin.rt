//! Where a number comes from that isn't known.

use crate::arrivals::{START, Ways};
use crate::element::Element;
use crate::provenance::kept_before;
use crate::stepping::{StepOutcome, outcome_at};
use crate::view::View;
use std::alloc::AllocError;
use tt_abs::State;
use tt_family::PointKey;

/// How many numbers at points are looked at, at most.
const MOST_LOOKS: usize = 1000;

/// A number at a point that isn't known there.
#[derive(Clone, Copy, PartialEq, Eq)]
pub(crate) struct Traced {
    pub point: PointKey,
    pub element: Element,
}

/// What one way to a point brings of a number: from where the way comes, and the number after the
/// instruction there, if it is known.
#[derive(Clone, Copy)]
pub(crate) struct Brought {
    pub from: PointKey,
    pub number: Option<i32>,
}

/// Where a number comes from that isn't known at a point: from the instruction that makes it, from
/// ways that meet with different numbers, or from the program's start.
#[derive(Clone, Copy)]
pub(crate) enum CellOrigin {
    /// The instruction at this point makes it.
    Made(PointKey),
    /// Of the ways that meet at this point one brings a known number, and another a different one
    /// or one that isn't known.
    Joined {
        at: PointKey,
        first: Brought,
        second: Brought,
    },
    /// The program starts with it.
    Start(Element),
    /// The search doesn't tell.
    Lost,
}

/// Notes a number, if it wasn't noted before, and if fewer than `MOST_LOOKS` were.
fn note(numbers: &mut Vec<Traced>, number: Traced) -> Result<(), AllocError> {
    if numbers.len() < MOST_LOOKS && !numbers.as_slice().contains(&number) {
        numbers.push(number)?;
    }
    Ok(())
}

/// Returns the number that the instruction at a point brings, if it is known, and where it was kept
/// before.
fn brought_from(
    ways: Ways<'_>,
    next: &mut State,
    from: PointKey,
    element: Element,
) -> Result<Option<(Option<i32>, Option<Element>)>, AllocError> {
    let subject = ways.subject;
    let (Some(state), Some(instruction)) = (subject.state(from), subject.instruction_at(from))
    else {
        return Ok(None);
    };
    match outcome_at(subject, from, state, next)? {
        StepOutcome::Goes(_) => Ok(Some((
            View::Strict(next).number(element),
            kept_before(View::Strict(state), &instruction, element),
        ))),
        _ => Ok(None),
    }
}

/// Looks at the ways that come to a point. Returns where the number comes from, if that is clear.
/// Notes where a known number meets one that isn't known, the first time.
fn look_back(
    ways: Ways<'_>,
    next: &mut State,
    numbers: &mut Vec<Traced>,
    mixed: &mut CellOrigin,
    traced: Traced,
) -> Result<Option<CellOrigin>, AllocError> {
    let at = traced.point;
    let mut known: Option<Brought> = None;
    let mut unknown = None;
    for edge in ways.edges {
        let from = edge.from;
        if edge.to != at {
            continue;
        }
        let Some((number, kept)) = brought_from(ways, next, from, traced.element)? else {
            continue;
        };
        let second = Brought { from, number };
        match (number, known, kept) {
            (Some(_), Some(first), _) if first.number != number => {
                return Ok(Some(CellOrigin::Joined { at, first, second }));
            }
            (Some(_), ..) => known = Some(second),
            (None, _, None) => return Ok(Some(CellOrigin::Made(from))),
            (None, _, Some(element)) => {
                unknown = Some(second);
                let point = from;
                note(numbers, Traced { point, element })?;
            }
        }
    }
    if let (CellOrigin::Lost, Some(first), Some(second)) = (*mixed, known, unknown) {
        *mixed = CellOrigin::Joined { at, first, second };
    }
    Ok(start_of(traced))
}

/// Returns the origin of a number with which the program starts.
fn start_of(traced: Traced) -> Option<CellOrigin> {
    match traced.element {
        Element::Storage(_) if traced.point == START => Some(CellOrigin::Start(traced.element)),
        _ => None,
    }
}

/// Returns where a number comes from that isn't known at a point, as far as the states tell. The
/// numbers are those that are to be looked at, and those that were.
///
/// # Errors
/// If memory runs out.
pub(crate) fn origin_of(
    ways: Ways<'_>,
    next: &mut State,
    numbers: &mut Vec<Traced>,
    number: Traced,
) -> Result<CellOrigin, AllocError> {
    let mut mixed = CellOrigin::Lost;
    note(numbers, number)?;
    for index in 0..MOST_LOOKS {
        let Some(traced) = numbers.get(index).copied() else {
            break;
        };
        if let Some(origin) = look_back(ways, next, numbers, &mut mixed, traced)? {
            return Ok(origin);
        }
    }
    Ok(mixed)
}
