//! How a state is covered at the places to which it goes, or added there.

ghost use Rattle.std.specs.Prelude.{◌≡◌, ◌<◌, IfErr, IfOk, IsTrue, Some, length};
ghost use Rattle.tt_family.specs.Checks.{FitOffsetsBefore, HasNextTurn, NamesGap};
ghost use Rattle.tt_family.specs.Contents.{family_of};
ghost use Rattle.tt_family.specs.Puts.{place_of};
ghost use Rattle.tt_setting.specs.Refusals.{IsOfNoBudget};
ghost use Rattle.tt_family.specs.Representation.Cursors.{AreMadeMet, IsEntry, IsMadeMet, IsMetBy, IsPastStart, IsUnlisted, IsUnlistedAfter, IsWalk, MayTurn, NamesFirstGapMade, NamesGapMade, calls_of, coverage_of_both, place_of_way as place_of_move, point_of};

use crate::certificate::Certificate;
use crate::cursor::{Cursor, is_coming, is_coming_after};
use crate::landing::look_up_successor;
use tt_abs::{Move, Moves, Order, State};
use tt_code::Reason;
use tt_setting::{Failed, Refusal, StepFault};

/// How a state is covered at a place to which it goes, or added there.
#[derive(Clone, Copy)]
pub(crate) enum Coverage {
    /// By the next listed state of the walk, which is the same.
    Next,
    /// By a state of the certificate that covers it.
    Listed,
    /// By none: it is added there.
    Added,
}

/// Combines two coverages: `Added` if either is `Added`, otherwise the first.
fn both_coverages(first: Coverage, second: Coverage) -> Coverage
    ensures { result ≡ coverage_of_both first second }
{
    match first {
        Coverage::Added => Coverage::Added,
        _ => match second {
            Coverage::Added => Coverage::Added,
            _ => first,
        },
    }
}

/// Returns how a state is covered at an offset of a context; the caller says whether it may be left
/// out there. Nothing is looked up where the next listed state is at this place and is the same, or
/// where the state may be left out and the next listed state comes after the place.
///
/// # Errors
/// `MissingPoint` where the certificate has no state there, and none may be left out; `NotCovered`
/// where it has one that doesn't cover this one.
pub(crate) fn check_covered(
    certificate: &Certificate,
    next: Option<(u32, u32, &State)>,
    context: u32,
    offset: u32,
    state: &State,
    may_be_left_out: bool,
) -> Result<Coverage, Refusal>
    requires there { context < length certificate.now.contexts }
    requires next { IsEntry certificate.now next }
    requires unlisted { IsTrue may_be_left_out → IsUnlisted certificate.now next context offset }
    ensures met { IfOk result (IsMetBy (family_of certificate.now) (IsTrue may_be_left_out)
        next.entry (place_of certificate.now context offset) state.now) }
    ensures gap { IfErr result (NamesGap (family_of certificate.now) (IsTrue may_be_left_out)
        (place_of certificate.now context offset) state.now) }
    ensures within { IfErr result IsOfNoBudget }
{
    certificate.order_facts();
    if may_be_left_out && is_coming_after(next, context, offset) {
        return Ok(Coverage::Added);
    }
    if is_coming(next, context, offset, state) {
        return Ok(Coverage::Next);
    }
    match certificate.state(context, offset) {
        None => {
            if may_be_left_out {
                Ok(Coverage::Added)
            } else {
                let fault = StepFault::Refused(Failed::Only(Reason::MissingPoint));
                Err(certificate.builder().refused(context, offset, fault))
            }
        }
        Some(above) => {
            if state.below(above) {
                Ok(Coverage::Listed)
            } else {
                let fault = StepFault::Refused(Failed::Only(Reason::NotCovered));
                Err(certificate.builder().refused(context, offset, fault))
            }
        }
    }
}

/// Returns how the walk's state is covered at an offset of the walk's context. `after` is the
/// offset at which it may be left out, if there is one.
///
/// # Errors
/// As `check_covered`.
fn check_offset(
    certificate: &Certificate,
    walk: &Cursor<'_>,
    offset: u32,
    after: Option<u32>,
) -> Result<Coverage, Refusal>
    requires walk { IsWalk certificate.now walk.now }
    requires unlisted { IsUnlistedAfter certificate.now walk.now after }
    ensures met { IfOk result (IsMetBy (family_of certificate.now) (after ≡ Some offset)
        walk.now.next (point_of certificate.now walk.now offset) walk.now.made) }
    ensures gap { IfErr result (NamesGap (family_of certificate.now) (after ≡ Some offset)
        (point_of certificate.now walk.now offset) walk.now.made) }
    ensures within { IfErr result IsOfNoBudget }
{
    check_covered(
        certificate,
        walk.next,
        walk.context,
        offset,
        &walk.made,
        after == Some(offset),
    )
}

/// Returns how the walk's state is covered at the place to which a move leads from the walk's
/// context. `after` is the offset at which it may be left out, if there is one.
///
/// # Errors
/// As `check_covered`, and `MissingPoint` where the certificate can't have a state at the place to
/// which the move leads.
fn check_successor(
    certificate: &Certificate,
    walk: &Cursor<'_>,
    way: Move,
    after: Option<u32>,
) -> Result<Coverage, Refusal>
    requires walk { IsWalk certificate.now walk.now }
    requires fit { FitOffsetsBefore certificate.now walk.now.context }
    requires turn { way ≡ Move.NextTurn → HasNextTurn (calls_of certificate.now walk.now) }
    requires unlisted { IsUnlistedAfter certificate.now walk.now after }
    requires forward { IsPastStart after }
    ensures met { IfOk result
        (IsMadeMet certificate.now walk.now after (place_of_move certificate.now walk.now way)) }
    ensures gap { IfErr result
        (NamesGapMade certificate.now walk.now after (place_of_move certificate.now walk.now way)) }
    ensures within { IfErr result IsOfNoBudget }
{
    if let Move::To(offset) = way {
        return check_offset(certificate, walk, offset, after);
    }
    match look_up_successor(certificate, walk.context, way) {
        Ok((context, offset)) => {
            check_covered(certificate, walk.next, context, offset, &walk.made, false)
        }
        Err(fault) => Err(fault),
    }
}

/// Returns how the walk's state is covered at all places to which moves lead from the walk's
/// context. `after` is the offset at which it may be left out, if there is one.
///
/// # Errors
/// `MissingPoint` or `NotCovered` for the first of these places at which it isn't covered and may
/// not be left out.
pub(crate) fn check_successors(
    certificate: &Certificate,
    walk: &Cursor<'_>,
    moves: Moves,
    after: Option<u32>,
) -> Result<Coverage, Refusal>
    requires walk { IsWalk certificate.now walk.now }
    requires fit { FitOffsetsBefore certificate.now walk.now.context }
    requires turn { MayTurn (calls_of certificate.now walk.now) moves }
    requires unlisted { IsUnlistedAfter certificate.now walk.now after }
    requires forward { IsPastStart after }
    ensures met { IfOk result (AreMadeMet certificate.now walk.now after moves) }
    ensures gap { IfErr result (NamesFirstGapMade certificate.now walk.now after moves) }
    ensures within { IfErr result IsOfNoBudget }
{
    let mut met = match check_successor(certificate, walk, moves.first(), after) {
        Ok(met) => met,
        Err(fault) => return Err(fault),
    };
    let mut index = 1;
    while let Some(way) = moves.get(index) {
        match check_successor(certificate, walk, way, after) {
            Ok(other) => met = both_coverages(met, other),
            Err(fault) => return Err(fault),
        }
        index += 1;
    }
    Ok(met)
}
