//! Explains why a program is refused.

ghost use Rattle.hintcheck_explain.specs.Faults.{TellsFailure};

use crate::arrivals::{Arrival, Ways, WaysTo, add_edges};
use crate::cause::{By, tell_cause, tell_cause_of_program};
use crate::details::Details;
use crate::element::Element;
use crate::excerpt::Excerpt;
use crate::explored_program::ExploredProgram;
use crate::knowledge::Calls;
use crate::origin::{Traced, origin_of};
use crate::origin_text::OriginText;
use crate::reached::tell_known;
use crate::route::{Route, add_route};
use crate::scene::Scene;
use crate::stepping::{StepOutcome, outcome_at};
use crate::view::View;
use hintcheck_report::AnswerFault;
use std::alloc::AllocError;
use tt_abs::State;
use tt_code::Reason;
use tt_family::PointKey;
use tt_setting::Failed;
use tt_stream::Sink;
use tt_symbolic_check::Site;

/// Where a program is refused, what is known there, and how two ways meet there with stacks of
/// different depths, if that is why.
#[derive(Clone, Copy)]
struct Case<'a> {
    point: PointKey,
    state: &'a State,
    meeting: Option<(Arrival, Arrival)>,
}

/// Returns the case at a point where this is known, if it is there that this test fails.
fn case_at<'a>(
    ways: Ways<'_>,
    next: &mut State,
    point: PointKey,
    state: &'a State,
    failed: Failed,
) -> Result<Option<Case<'a>>, AllocError> {
    let (is_here, meeting) = match failed {
        Failed::OtherDepth { depth } => {
            let other = usize::try_from(depth).unwrap_or(usize::MAX);
            let meeting = ways.meeting(point, state.depth(), other);
            (meeting.is_some(), meeting)
        }
        _ => match outcome_at(ways.subject, point, state, next)? {
            StepOutcome::Refused(found) => (found == failed, None),
            StepOutcome::Goes(_) => (failed.reason() == Reason::TooManyContexts, None),
            StepOutcome::Ends => (false, None),
        },
    };
    Ok(is_here.then_some(Case {
        point,
        state,
        meeting,
    }))
}

/// Returns the point of a site where this test fails, with what is known there.
fn case_of<'a>(
    ways: Ways<'a>,
    next: &mut State,
    site: Site,
    failed: Failed,
) -> Result<Option<Case<'a>>, AllocError> {
    let subject = ways.subject;
    for context in 0..subject.certificate.contexts() {
        let point = (context, site.offset);
        if subject.spot(context) != site.spot {
            continue;
        }
        let Some(state) = subject.state(point) else {
            continue;
        };
        let case = case_at(ways, next, point, state, failed)?;
        if case.is_some() {
            return Ok(case);
        }
    }
    Ok(None)
}

/// Prints where a number comes from that isn't known.
fn tell_origin<O: Sink>(
    ways: Ways<'_>,
    next: &mut State,
    traced: Traced,
    out: &mut O,
) -> Result<(), AnswerFault>
    ensures failures { TellsFailure result (O.failures out.old) (O.failures out.new) }
{
    let subject = ways.subject;
    let mut numbers = Vec::new(subject.alloc);
    let origin = origin_of(ways, next, &mut numbers, traced)?;
    let text = OriginText { subject, origin };
    writeln!(out, "Where the number comes from: {text}")?;
    Ok(())
}

/// Prints one route to a point.
fn tell_route<O: Sink>(ways: Ways<'_>, point: PointKey, out: &mut O) -> Result<(), AnswerFault>
    ensures failures { TellsFailure result (O.failures out.old) (O.failures out.new) }
{
    let mut branches = Vec::new(ways.subject.alloc);
    add_route(&mut branches, ways, point)?;
    let route = Route {
        ways,
        point,
        branches: branches.as_slice(),
    };
    writeln!(out, "{route}")?;
    Ok(())
}

/// Prints why a program is refused in this case, which the details tell in numbers, what is known there,
/// and how the program comes there: one route to the place, or to each of the two from where stacks of different depths come.
fn tell_case<O: Sink>(
    ways: Ways<'_>,
    next: &mut State,
    case: Case<'_>,
    failed: Failed,
    details: &mut Details,
    out: &mut O,
) -> Result<(), AnswerFault>
    ensures failures { TellsFailure result (O.failures out.old) (O.failures out.new) }
{
    let subject = ways.subject;
    let point = case.point;
    let scene = Scene::at(
        subject.setting,
        subject.site(point),
        View::Strict(case.state),
    );
    let frames = subject.frames(point.0)?;
    let calls = Calls::Strict(frames.as_slice());
    *details = Details::of(subject.alloc, subject.name, &scene, failed, calls)?;
    tell_cause(scene, failed, case.meeting, out)?;
    if let Some(element) = Element::unknown(failed, case.state.depth()) {
        tell_origin(ways, next, Traced { point, element }, out)?;
    }
    tell_known(subject, point, case.state, out)?;
    let ways_here = WaysTo(ways, point);
    writeln!(out, "{ways_here}")?;
    let Some((one, other)) = case.meeting else {
        return tell_route(ways, point, out);
    };
    tell_route(ways, one.point, out)?;
    tell_route(ways, other.point, out)
}

/// Prints why a program is refused at a site, and the instructions around it.
fn tell_refusal_at<O: Sink>(
    ways: Ways<'_>,
    next: &mut State,
    site: Site,
    failed: Failed,
    details: &mut Details,
    out: &mut O,
) -> Result<(), AnswerFault>
    ensures failures { TellsFailure result (O.failures out.old) (O.failures out.new) }
{
    let subject = ways.subject;
    match case_of(ways, next, site, failed)? {
        Some(case) => tell_case(ways, next, case, failed, details, out)?,
        None => tell_cause_of_program(subject.setting, site, failed.reason(), By::Strict, out)?,
    }
    let listing = Excerpt::at(subject.name, subject.setting, site);
    writeln!(out, "{listing}")?;
    Ok(())
}

/// Explains why a program is refused at a site, and in the details in numbers: with what is known there,
/// where the search has a state.
///
/// # Errors
/// `Print` where the text wasn't printed; `Exhausted`. No other comes.
pub(crate) fn tell_refusal<O: Sink>(
    subject: &ExploredProgram<'_>,
    site: Site,
    failed: Failed,
    details: &mut Details,
    out: &mut O,
) -> Result<(), AnswerFault>
    ensures failures { TellsFailure result (O.failures out.old) (O.failures out.new) }
{
    let mut next = State::start(subject.alloc, &[])?;
    let mut edges = Vec::new(subject.alloc);
    add_edges(&mut edges, subject, &mut next)?;
    let ways = Ways {
        subject,
        edges: edges.as_slice(),
    };
    tell_refusal_at(ways, &mut next, site, failed, details, out)
}
