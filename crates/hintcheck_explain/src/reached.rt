//! What is known at a place of a program, in each of its contexts.

ghost use Rattle.hintcheck_explain.specs.Faults.{TellsFailure};

use crate::effect_text::tell_effect;
use crate::explored_program::ExploredProgram;
use crate::knowledge::{Calls, Knowledge};
use crate::legend::Legend;
use crate::scene::Scene;
use crate::view::View;
use hintcheck_report::{AnswerFault, Place};
use tt_abs::State;
use tt_family::PointKey;
use tt_stream::Sink;

/// How many contexts of a place are printed.
const SHOWN_CONTEXTS: u32 = 16;

/// Prints the calls that are open at a point where this is known, and what is known there.
///
/// # Errors
/// `Print` where the text wasn't printed; `Exhausted`. No other comes.
pub(crate) fn tell_known<O: Sink>(
    subject: &ExploredProgram<'_>,
    point: PointKey,
    state: &State,
    out: &mut O,
) -> Result<(), AnswerFault>
    ensures failures { TellsFailure result (O.failures out.old) (O.failures out.new) }
{
    let frames = subject.frames(point.0)?;
    let legend = Legend::new(subject.alloc, &[]);
    let known = Knowledge {
        program: subject.name,
        setting: subject.setting,
        calls: Calls::Strict(frames.as_slice()),
        view: View::Strict(state),
        legend: &legend,
    };
    writeln!(out, "{known}")?;
    Ok(())
}

/// Returns the first point of a place, in a context from this one on, to which the program comes,
/// with the state there.
fn next_point<'a>(
    subject: &ExploredProgram<'a>,
    place: Place,
    from: u32,
) -> Option<(PointKey, &'a State)> {
    for context in from..subject.certificate.contexts() {
        let point = (context, place.offset);
        if subject.place(point) == place {
            if let Some(state) = subject.state(point) {
                return Some((point, state));
            }
        }
    }
    None
}

/// Prints what is known at a place in each of the first contexts in which the program comes to it,
/// and whether there are more of these; or that there is none.
///
/// # Errors
/// `Print` where the text wasn't printed; `Exhausted`. No other comes.
pub(crate) fn tell_contexts<O: Sink>(
    subject: &ExploredProgram<'_>,
    place: Place,
    out: &mut O,
) -> Result<(), AnswerFault>
    ensures failures { TellsFailure result (O.failures out.old) (O.failures out.new) }
{
    let mut from = 0;
    for shown in 0..SHOWN_CONTEXTS {
        let Some((point, state)) = next_point(subject, place, from) else {
            break;
        };
        let scene = Scene::at(subject.setting, subject.site(point), View::Strict(state));
        tell_effect(scene, out)?;
        tell_known(subject, point, state, out)?;
        from = point.0.saturating_add(1);
    }
    let more = next_point(subject, place, from).is_some();
    if from == 0 {
        writeln!(out, "No run that was followed comes to {place}.")?;
    } else if more {
        writeln!(out, "More lists of open calls come here.")?;
    }
    Ok(())
}
