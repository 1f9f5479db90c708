//! Prints what a refusal means by either profile: why, its class, and what to do.

ghost use Rattle.tt_stream.specs.Streams.{CountsPrintFailure};

use crate::arrivals::Arrival;
use crate::certainty::class_at;
use crate::describing::{Why, reason_text};
use crate::effect_text::tell_effect;
use crate::makers::makers_advice;
use crate::meaning::{ADVICE_ON_RANGE, Advice, advice_of, advice_on_strict, class_of, class_text};
use crate::scene::Scene;
use crate::view::View;
use std::fmt;
use tt_code::Reason;
use tt_setting::{Failed, Setting};
use tt_stream::{PrintFailed, Sink};
use tt_symbolic_check::Site;

/// Why a program is refused of which nothing is known at a place.
#[derive(Clone, Copy)]
struct WhyProgram<'a> {
    setting: &'a Setting<'a>,
    reason: Reason,
}

impl fmt::Display for WhyProgram<'_> {
    fn fmt<W: fmt::Write>(&self, f: &mut fmt::Formatter<W>) -> fmt::Result {
        match self.reason {
            Reason::ProgramTooLong => write!(
                f,
                "The program has {} bytes, and maxSizeOfInstructions is {}.",
                self.setting.main.len(),
                self.setting.limits.program_size
            ),
            reason => f.write_str(reason_text(reason)),
        }
    }
}

/// By which profile a program is refused.
#[derive(Clone, Copy)]
pub(crate) enum By {
    Strict,
    Symbolic,
}

/// Returns what to do about a program that this profile refuses for this reason at a site: first in the
/// terms of the maker of its font program, if the fault is a known one; or, in the strict profile, to
/// ask the other one, which comes before the maker's where a number isn't known.
fn advice_at(
    setting: &Setting<'_>,
    site: Site,
    reason: Reason,
    by: By,
    general: &'static str,
) -> Advice {
    let first = match by {
        By::Strict if reason == Reason::UnknownOperand => advice_on_strict(reason),
        By::Strict => makers_advice(setting, site, reason).or(advice_on_strict(reason)),
        By::Symbolic => makers_advice(setting, site, reason),
    };
    Advice { first, general }
}

/// Prints why a program is refused at a site for this reason, its class and what to do, where nothing is
/// known there.
pub(crate) fn tell_cause_of_program<O: Sink>(
    setting: &Setting<'_>,
    site: Site,
    reason: Reason,
    by: By,
    out: &mut O,
) -> Result<(), PrintFailed>
    ensures failures { CountsPrintFailure result (O.failures out.old) (O.failures out.new) }
{
    let why = WhyProgram { setting, reason };
    let class = reason.class();
    let kind = class_text(reason, class);
    let general = advice_of(reason, class, "");
    let advice = advice_at(setting, site, reason, by, general);
    writeln!(out, "Why: {why}\nClass: {kind}\n{advice}")
}

/// Prints why a program is refused at a place, since this test fails there, or two ways meet; the
/// class of the reason; what to do; and what the instruction there takes and pushes, if one is there.
pub(crate) fn tell_cause<O: Sink>(
    scene: Scene<'_>,
    failed: Failed,
    meeting: Option<(Arrival, Arrival)>,
    out: &mut O,
) -> Result<(), PrintFailed>
    ensures failures { CountsPrintFailure result (O.failures out.old) (O.failures out.new) }
{
    let why = Why {
        scene,
        failed,
        meeting,
    };
    let reason = failed.reason();
    let kind = class_at(&scene, failed);
    let general = match scene.range(failed) {
        Some(_) => ADVICE_ON_RANGE,
        None => advice_of(reason, class_of(failed), scene.name()),
    };
    let by = match scene.view {
        View::Strict(_) => By::Strict,
        View::Symbolic(_) => By::Symbolic,
    };
    let advice = advice_at(scene.setting, scene.site, reason, by, general);
    writeln!(out, "Why: {why}\nClass: {kind}\n{advice}")?;
    tell_effect(scene, out)
}
