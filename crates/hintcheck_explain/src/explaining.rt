//! Explains a program that could be cut and is structured.

ghost use Rattle.std.specs.Prelude.{IfOk};
ghost use Rattle.tt_setting.specs.Entries.{Ascends};
ghost use Rattle.tt_setting.specs.Settings.{setting_of};
ghost use Rattle.tt_abs.specs.StateFlow.{FunctionsFit};
ghost use Rattle.hintcheck_explain.specs.Faults.{IsAnsweredFor, TellsFailure};

use crate::accepted::tell_accepted;
use crate::asked::{Asked, Explained, place_of};
use crate::details::Details;
use crate::excerpt::Excerpt;
use crate::explored_program::ExploredProgram;
use crate::needs::tell_needs;
use crate::reached::tell_contexts;
use crate::refusal::tell_refusal;
use hintcheck_report::{AnswerFault, Refused};
use std::alloc::Global;
use tt_find::explore;
use tt_setting::{Budget, Refusal, Setting};
use tt_stream::Sink;
use tt_symbolic_check::Site;

/// Prints what is known at a site of the subject, and the instructions around it.
fn tell_site<O: Sink>(
    subject: &ExploredProgram<'_>,
    site: Site,
    out: &mut O,
) -> Result<(), AnswerFault>
    ensures failures { TellsFailure result (O.failures out.old) (O.failures out.new) }
{
    let place = place_of(subject.name, site);
    let listing = Excerpt::at(subject.name, subject.setting, site);
    writeln!(out, "What is known at {place}:")?;
    tell_contexts(subject, place, out)?;
    writeln!(out, "{listing}")?;
    Ok(())
}

/// Explains a program that could be cut and is structured: how much it takes, or why it is refused.
/// Where a site is asked for, it tells what is known there, and of a refusal only its place and its
/// reason. The details tell a refusal in numbers, where no site is asked for. At most as many points are
/// made as the budget allows.
///
/// # Errors
/// `Print` where the text wasn't printed; `Exhausted`. No other comes.
pub fn explain<O: Sink>(
    alloc: Global,
    setting: &Setting<'_>,
    asked: Asked,
    budget: &mut Budget,
    details: &mut Details,
    out: &mut O,
) -> Result<Explained, AnswerFault>
    requires ascends { Ascends setting.now.start.now }
    requires fits { FunctionsFit (setting_of setting.now) setting.now.start.now }
    ensures answered { IfOk result (IsAnsweredFor setting.now asked.program) }
    ensures failures { TellsFailure result (O.failures out.old) (O.failures out.new) }
{
    let explored = explore(alloc, setting, budget)?;
    let subject = ExploredProgram {
        alloc,
        name: asked.program,
        setting: &*setting,
        certificate: &explored.found.certificate,
    };
    match explored.fault {
        None => {
            tell_accepted(&subject, out)?;
            if let Some(site) = asked.site {
                tell_site(&subject, site, out)?;
            }
            Ok(Explained::Accepted)
        }
        Some(
            Refusal::Refused {
                spot,
                offset,
                failed,
            },
        ) => {
            let refused = Refused::at(asked.program, spot, offset, failed.reason());
            writeln!(out, "{refused}")?;
            match asked.site {
                Some(site) => tell_site(&subject, site, out)?,
                None => {
                    tell_refusal(&subject, Site { spot, offset }, failed, details, out)?;
                    tell_needs(alloc, setting, asked.program, failed, budget, out)?;
                }
            }
            Ok(Explained::Refused(refused))
        }
        Some(Refusal::Exhausted(by)) => Err(AnswerFault::Exhausted(by)),
    }
}
