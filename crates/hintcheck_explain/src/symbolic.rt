//! Explains what the symbolic profile answers for a program that could be cut and is structured.

ghost use Rattle.tt_stream.specs.Streams.{CountsPrintFailure};
ghost use Rattle.hintcheck_explain.specs.Faults.{TellsFailure};

use crate::accepted::count_instructions;
use crate::asked::{Asked, place_of};
use crate::cause::{By, tell_cause, tell_cause_of_program};
use crate::details::Details;
use crate::effect_text::tell_effect;
use crate::element::Element;
use crate::excerpt::Excerpt;
use crate::knowledge::{Calls, Knowledge};
use crate::legend::Legend;
use crate::origin_text::SymbolOriginText;
use crate::scene::Scene;
use crate::view::View;
use hintcheck_report::{AnswerFault, Refused};
use std::alloc::Global;
use tt_setting::{Failed, Name, Setting, Spot};
use tt_stream::{PrintFailed, Sink};
use tt_symbolic_check::{Insight, KnownState, RefusedState, Site};

/// A program that is explained: its name, what it is checked against, and what the search tells of
/// it.
#[derive(Clone, Copy)]
struct Searched<'a> {
    alloc: Global,
    name: Name,
    setting: &'a Setting<'a>,
    insight: Option<&'a Insight>,
}

impl<'a> Searched<'a> {
    /// Returns the state that is refused, if the search tells it.
    fn refused(&self) -> Option<&'a RefusedState> {
        self.insight?.refused.as_ref()
    }
}

/// Prints how much an accepted program takes.
fn tell_accepted<O: Sink>(searched: Searched<'_>, out: &mut O) -> Result<(), PrintFailed>
    ensures failures { CountsPrintFailure result (O.failures out.old) (O.failures out.new) }
{
    let name = searched.name;
    let instructions = count_instructions(searched.setting.main);
    writeln!(
        out,
        "accepted {name} (symbolic)\nInstructions: {instructions}"
    )?;
    let Some(insight) = searched.insight else {
        return Ok(());
    };
    let depth = insight.depth;
    let most = searched.setting.limits.stack;
    let steps = insight.steps;
    let heads = insight.heads;
    writeln!(
        out,
        "Greatest depth of the stack: {depth} of at most {most} (maxStackElements)\n\
        Steps of the search: {steps}\nHeads of loops: {heads}"
    )
}

/// Returns where a state of the search is, and what is known there.
fn scene_of<'a>(searched: Searched<'a>, known: &'a KnownState) -> Scene<'a> {
    let state = &known.state;
    Scene::at(searched.setting, Site::of(state), View::Symbolic(state))
}

/// Prints the open calls of a state of the search, and what is known in it.
fn tell_known<O: Sink>(
    searched: Searched<'_>,
    known: &KnownState,
    out: &mut O,
) -> Result<(), AnswerFault>
    ensures failures { TellsFailure result (O.failures out.old) (O.failures out.new) }
{
    let state = &known.state;
    let mut legend = Legend::new(searched.alloc, state.ranges.as_slice());
    legend.add(searched.alloc, state)?;
    let text = Knowledge {
        program: searched.name,
        setting: searched.setting,
        calls: Calls::Symbolic(state.calls.as_slice()),
        view: View::Symbolic(state),
        legend: &legend,
    };
    writeln!(out, "{text}")?;
    Ok(())
}

/// Prints what the first states know that came to the site that is asked for.
fn tell_states<O: Sink>(
    searched: Searched<'_>,
    seen: &[KnownState],
    out: &mut O,
) -> Result<(), AnswerFault>
    ensures failures { TellsFailure result (O.failures out.old) (O.failures out.new) }
{
    for known in seen {
        tell_effect(scene_of(searched, known), out)?;
        tell_known(searched, known, out)?;
    }
    Ok(())
}

/// Prints what is known at a site, and the instructions around it.
fn tell_site<O: Sink>(searched: Searched<'_>, site: Site, out: &mut O) -> Result<(), AnswerFault>
    ensures failures { TellsFailure result (O.failures out.old) (O.failures out.new) }
{
    let place = place_of(searched.name, site);
    let listing = Excerpt::at(searched.name, searched.setting, site);
    writeln!(out, "What is known at {place}:")?;
    match searched.insight {
        Some(insight) if insight.seen.is_empty() => {
            writeln!(out, "No run that was followed comes to {place}.")?;
        }
        Some(insight) => {
            tell_states(searched, insight.seen.as_slice(), out)?;
            if insight.has_more {
                writeln!(out, "More states come here.")?;
            }
        }
        None => writeln!(out, "The program wasn't followed to an answer.")?,
    }
    writeln!(out, "{listing}")?;
    Ok(())
}

/// Prints where a number comes from that isn't known well enough, if that is why this test fails.
fn tell_origin<O: Sink>(
    searched: Searched<'_>,
    known: &KnownState,
    failed: Failed,
    out: &mut O,
) -> Result<(), PrintFailed>
    ensures failures { CountsPrintFailure result (O.failures out.old) (O.failures out.new) }
{
    let view = View::Symbolic(&known.state);
    let Some(element) = Element::unknown(failed, view.depth()) else {
        return Ok(());
    };
    let Some(origin) = known.origin(view.cell(element)) else {
        return Ok(());
    };
    let text = SymbolOriginText {
        program: searched.name,
        setting: searched.setting,
        origin,
    };
    writeln!(out, "Where the number comes from: {text}")
}

/// Prints why a program is refused in this state, since this test fails, which the details tell in
/// numbers, and what is known there.
fn tell_case<O: Sink>(
    searched: Searched<'_>,
    known: &KnownState,
    failed: Failed,
    details: &mut Details,
    out: &mut O,
) -> Result<(), AnswerFault>
    ensures failures { TellsFailure result (O.failures out.old) (O.failures out.new) }
{
    let scene = scene_of(searched, known);
    let calls = Calls::Symbolic(known.state.calls.as_slice());
    *details = Details::of(searched.alloc, searched.name, &scene, failed, calls)?;
    tell_cause(scene, failed, None, out)?;
    tell_origin(searched, known, failed, out)?;
    tell_known(searched, known, out)
}

/// Returns the site of a refusal of the program of this name.
fn site_of(program: Name, refused: Refused) -> Site {
    let place = refused.place;
    let spot = match place.program {
        called if called == program => Spot::Main,
        Name::Font => Spot::Font,
        Name::Cvt => Spot::Prep,
        Name::Glyph(_) => Spot::Main,
    };
    Site {
        spot,
        offset: place.offset,
    }
}

/// Prints why a program is refused; where the search tells the state that is refused, what is known
/// there; and the instructions around the place.
fn tell_refusal<O: Sink>(
    searched: Searched<'_>,
    refused: Refused,
    details: &mut Details,
    out: &mut O,
) -> Result<(), AnswerFault>
    ensures failures { TellsFailure result (O.failures out.old) (O.failures out.new) }
{
    let reason = refused.reason;
    let site = site_of(searched.name, refused);
    match searched.refused() {
        Some(state) if state.failed.reason() == reason => {
            tell_case(searched, &state.known, state.failed, details, out)?;
        }
        Some(state) => tell_case(searched, &state.known, Failed::Only(reason), details, out)?,
        None => tell_cause_of_program(searched.setting, site, reason, By::Symbolic, out)?,
    }
    let listing = Excerpt::at(searched.name, searched.setting, site);
    writeln!(out, "{listing}")?;
    Ok(())
}

/// Explains what the symbolic profile answers for a program that could be cut and is structured: how
/// much an accepted one takes, or why it is refused. Where a site is asked for, it tells what the
/// search knows there, and of a refusal only its place and its reason. The details tell a refusal in
/// numbers, where no site is asked for.
///
/// # Errors
/// `Print` where the text wasn't printed; `Exhausted`. No other comes.
pub fn explain_symbolic<O: Sink>(
    alloc: Global,
    setting: &Setting<'_>,
    asked: Asked,
    refused: Option<Refused>,
    insight: Option<&Insight>,
    details: &mut Details,
    out: &mut O,
) -> Result<(), AnswerFault>
    ensures failures { TellsFailure result (O.failures out.old) (O.failures out.new) }
{
    let searched = Searched {
        alloc,
        name: asked.program,
        setting,
        insight,
    };
    match refused {
        Some(refused) => writeln!(out, "{refused}")?,
        None => tell_accepted(searched, out)?,
    }
    match (asked.site, refused) {
        (Some(site), _) => tell_site(searched, site, out),
        (None, Some(refused)) => tell_refusal(searched, refused, details, out),
        (None, None) => Ok(()),
    }
}
