//! How much of a limit of the font a refused program needs, as far as searches with a greater one
//! tell.

ghost use Rattle.std.specs.Prelude.{◌≡◌, ◌≤◌};
ghost use Rattle.tt_setting.specs.Entries.{Ascends};
ghost use Rattle.tt_setting.specs.Settings.{setting_of};
ghost use Rattle.tt_abs.specs.StateFlow.{FunctionsFit};
ghost use Rattle.hintcheck_explain.specs.Faults.{TellsFailure};

use hintcheck_report::{AnswerFault, Bound, Place};
use std::alloc::Global;
use tt_code::Reason;
use tt_find::explore;
use tt_setting::{Budget, Exhausted, Failed, Name, Refusal, Setting, ZoneCell};
use tt_stream::Sink;

/// How many searches find the least number of 16 bits.
const SEARCHES: usize = 16;

/// Returns the limit that a program passes of which this test fails, if it can be raised.
fn limit_of(failed: Failed) -> Option<Bound> {
    match failed {
        Failed::NoFunction { .. } => Some(Bound::FunctionDefs),
        // The twilight zone is there where maxZones is at least 2.
        Failed::NoZone { number: 0 } => Some(Bound::Zones),
        Failed::NoPoint {
            zone: ZoneCell::Zero,
            ..
        }
        | Failed::NoReferencePoint {
            zone: ZoneCell::Zero,
            ..
        } => Some(Bound::TwilightPoints),
        _ => match failed.reason() {
            Reason::Overflow => Some(Bound::StackElements),
            Reason::Storage => Some(Bound::Storage),
            Reason::Cvt => Some(Bound::ControlValues),
            _ => None,
        },
    }
}

/// Returns what the limit is called in a sentence.
fn words_for(limit: Bound) -> &'static str {
    match limit {
        Bound::ControlValues => "the number of control values",
        _ => limit.name(),
    }
}

/// Returns the number of the limit that the font declares, as far as it has 16 bits.
fn declared(setting: &Setting<'_>, limit: Bound) -> u16
    ensures { limit ≡ Bound.FunctionDefs → setting.now.limits.functions ≤ result }
{
    limit.declared(setting.limits, setting.cvt).min(65_535) as u16
}

/// Returns why the program is refused where the limit has this number, or the one that the font
/// declares where that is greater.
fn fault_with(
    alloc: Global,
    setting: &Setting<'_>,
    limit: Bound,
    number: u16,
    budget: &mut Budget,
) -> Result<Option<Refusal>, Exhausted>
    requires ascends { Ascends setting.now.start.now }
    requires fits { FunctionsFit (setting_of setting.now) setting.now.start.now }
{
    let number = number.max(declared(setting, limit));
    let raised = Setting {
        limits: limit.limits_with(setting.limits, number),
        cvt: limit.cvt_count_with(setting.cvt, number),
        ..*setting
    };
    Ok(explore(alloc, &raised, budget)?.into_fault())
}

/// Returns the least number of the limit with which the program is accepted, where it is with the
/// greatest one, and isn't with its own.
fn least_number(
    alloc: Global,
    setting: &Setting<'_>,
    limit: Bound,
    budget: &mut Budget,
) -> Result<u16, Exhausted>
    requires ascends { Ascends setting.now.start.now }
    requires fits { FunctionsFit (setting_of setting.now) setting.now.start.now }
{
    let mut refused = declared(setting, limit);
    let mut accepted = u16::MAX;
    for _ in 0..SEARCHES {
        let between = accepted.saturating_sub(refused) / 2;
        if between == 0 {
            break;
        }
        let middle = refused.saturating_add(between);
        match fault_with(alloc, setting, limit, middle, budget)? {
            None => accepted = middle,
            Some(_) => refused = middle,
        }
    }
    Ok(accepted)
}

/// Prints how much of a limit the program of this name needs of which this test fails, if it passes
/// one.
pub(crate) fn tell_needs<O: Sink>(
    alloc: Global,
    setting: &Setting<'_>,
    program: Name,
    failed: Failed,
    budget: &mut Budget,
    out: &mut O,
) -> Result<(), AnswerFault>
    requires ascends { Ascends setting.now.start.now }
    requires fits { FunctionsFit (setting_of setting.now) setting.now.start.now }
    ensures failures { TellsFailure result (O.failures out.old) (O.failures out.new) }
{
    let Some(limit) = limit_of(failed) else {
        return Ok(());
    };
    let name = words_for(limit);
    match fault_with(alloc, setting, limit, u16::MAX, budget)? {
        None => {
            let least = least_number(alloc, setting, limit, budget)?;
            writeln!(
                out,
                "What it needs: it is accepted where {name} is at least {least}."
            )?;
            Ok(())
        }
        Some(
            Refusal::Refused {
                spot,
                offset,
                failed,
            },
        ) => {
            let place = Place::at(program, spot, offset);
            let reason = failed.reason();
            let number = reason.number();
            writeln!(
                out,
                "What it needs: however great {name} is, it is refused at {place}: {number} {reason}."
            )?;
            Ok(())
        }
        Some(Refusal::Exhausted(by)) => Err(AnswerFault::Exhausted(by)),
    }
}
