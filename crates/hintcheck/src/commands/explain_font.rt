//! The subcommand `explain` without a program: why programs of a font file are refused, by cause, and
//! the first one of the most frequent cause, explained.

ghost use Rattle.std.specs.Prelude.{◌≡◌, ◌≤◌, ℕ, IfErr, IfOk, List, None, Option};
ghost use Rattle.hintcheck_words.specs.Requests.{explain};
ghost use Rattle.hintcheck.specs.Representation.Answers.{IsAnswered};
ghost use Rattle.hintcheck.specs.Commands.{IsNoWriteFault, TellsFailure};
ghost use Rattle.hintcheck.specs.MeansSafe.{HoldRefusedBy, HoldSafeBy};

use super::cause_lines::causes_text;
use super::faults::CommandFault;
use super::font_bytes::named_font;
use super::verdict_lines::print_last_line;
use super::{ACCEPTED, REFUSED};
use crate::causes::causes_of;
use crate::explanation::{ProgramRequest, explain_word};
use crate::font_file::{budget_of, judged_font};
use hintcheck_explain::Details;
use hintcheck_fonts::{Judged, Request};
use hintcheck_programs::report::Name;
use hintcheck_words::ExplainOptions;
use std::alloc::Global;
use std::rt::Files;
use tt_family::Budget;
use tt_stream::{Counted, Sink, write_all};

/// Returns the explanation of the font's program of this name, a refused one.
///
/// # Errors
/// `OutOfMemory`; `Budget`.
fn explanation_of(
    alloc: Global,
    font: &[u8],
    called: Name,
    by: Request,
    points: &mut Budget,
) -> Result<Vec<u8>, CommandFault>
    ensures { IfErr result IsNoWriteFault }
{
    let word = format!(in alloc; "{called}")?;
    let request = ProgramRequest {
        word: &word,
        site: None,
        by,
    };
    let mut details = Details::none(alloc);
    let mut text = Counted::new(Vec::new(alloc));
    match explain_word(alloc, font, request, points, &mut details, &mut text) {
        Ok(_) => Ok(text.into_inner()),
        Err(CommandFault::Budget) => Err(CommandFault::Budget),
        // The font was read before, the name is one of its programs', and the text is kept in
        // memory: so that is what ran out.
        Err(_) => Err(CommandFault::OutOfMemory),
    }
}

/// Prints for which causes programs of the font in these bytes are refused, and after an empty line the
/// explanation of the first program of the most frequent one; or that all are accepted. Returns the
/// exit status.
#[tactic(auto, using(crate::proofs::ScanLemmas::safe_by, crate::proofs::ScanLemmas::refused_by))]
fn explain_within<O: Sink>(
    alloc: Global,
    font: &[u8],
    options: ExplainOptions,
    out: &mut O,
) -> Result<u8, CommandFault>
    ensures status { IfOk result (λ status. status ≤ 1) }
    ensures safe { IfOk result (λ status. status ≡ 0 → HoldSafeBy options.profile font.now) }
    ensures refused { IfOk result (λ status. status ≡ 1 → HoldRefusedBy options.profile font.now) }
    ensures failures { TellsFailure result (O.failures out.old) (O.failures out.new) }
{
    let Judged { by, verdict } = judged_font(alloc, font, options.profile)?;
    if verdict.accepted() {
        print_last_line(out, &verdict, by)?;
        return Ok(ACCEPTED);
    }
    let causes = causes_of(alloc, verdict.refused())?;
    let lines = causes_text(alloc, font, &causes)?;
    write!(out, "{lines}")?;
    if let Some(cause) = causes.first() {
        let mut points = budget_of(options.profile.max_steps());
        let explanation = explanation_of(alloc, font, cause.first.program, by, &mut points)?;
        writeln!(out)?;
        let Ok(()) = write_all(out, &explanation) else {
            return Err(CommandFault::Write);
        };
    }
    Ok(REFUSED)
}

/// Prints for which causes programs of the font in the file with this name are refused, the most
/// frequent cause first, and after an empty line the explanation of the first program of that one; or,
/// where all are accepted, the last line of the verdict. Returns the exit status: 0 where all are
/// accepted, 1 where one is refused. The search for the verdict and that for the explanation each make
/// at most as many steps as the profile says.
///
/// # Errors
/// Those of `named_font`; the faults of `Font::read`; `Write` exactly where a write to `out` failed;
/// `OutOfMemory`; `Budget`, by the strict profile alone, where steps are bounded and more were to be made.
pub(super) fn explain_of_font<R: Files + AllocGlobal, O: Sink>(
    rt: &R,
    name: &str,
    options: ExplainOptions,
    out: &mut O,
) -> Result<u8, CommandFault>
    ensures answer { (place : Option (List ℕ)) → IfOk result (λ status.
        IsAnswered (explain name.now None place options) status
        (O.contents out.old) (O.contents out.new)) }
    ensures failures { TellsFailure result (O.failures out.old) (O.failures out.new) }
{
    let font = named_font(rt, name, options.faces, options.max_bytes)?;
    explain_within(rt.alloc(), &font.bytes, options, out)
}
