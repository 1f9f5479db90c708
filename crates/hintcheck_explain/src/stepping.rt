//! What an instruction makes of what is known at its place.

use crate::explored_program::ExploredProgram;
use std::alloc::AllocError;
use tt_abs::{Moves, State, step_at};
use tt_family::PointKey;
use tt_setting::{Failed, Point, StepFault};

/// What comes of the instruction at a point.
#[derive(Clone, Copy)]
pub(crate) enum StepOutcome {
    /// None is there: it is the main program's end.
    Ends,
    /// The program goes on.
    Goes(Moves),
    /// The instruction is refused.
    Refused(Failed),
}

/// Returns what comes of the instruction at a point. Where the program goes on, `next` is then what is
/// known after it.
///
/// # Errors
/// If memory runs out.
pub(crate) fn outcome_at(
    subject: &ExploredProgram<'_>,
    point: PointKey,
    state: &State,
    next: &mut State,
) -> Result<StepOutcome, AllocError> {
    let (context, offset) = point;
    next.copy_from(state)?;
    let frames = subject.frames(context)?;
    let here = Point {
        frames: frames.as_slice(),
        offset,
    };
    if subject.setting.is_end(&here, offset) {
        return Ok(StepOutcome::Ends);
    }
    match step_at(subject.setting, &here, next) {
        Ok(step) => Ok(StepOutcome::Goes(step.moves)),
        Err(StepFault::Refused(failed)) => Ok(StepOutcome::Refused(failed)),
        Err(StepFault::OutOfMemory(error)) => Err(error),
    }
}
