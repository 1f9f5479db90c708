//! The subcommand `explain` with a program: one program of a font file, explained in lines or in an
//! object of JSON.

ghost use Rattle.std.specs.Prelude.{ℕ, IfErr, IfOk, List};
ghost use Rattle.hintcheck.specs.Representation.Answers.{IsExplained};
ghost use Rattle.hintcheck.specs.Commands.{IsNoWriteFault, TellsFailure};
ghost use Rattle.hintcheck.specs.MeansSafe.{HoldExplainedBy, IsRequestOf};

use super::faults::CommandFault;
use super::font_bytes::{FontBytes, named_font};
use super::font_label::FontLabel;
use super::json_objects::{
    json_text, name_of_request, print_beginning, print_fault_object, refused_object,
};
use crate::explanation::{ProgramRequest, exit_status, explain_word};
use crate::font_file::{budget_of, told_by};
use hintcheck_explain::{Details, Explained, Site};
use hintcheck_fonts::Request;
use hintcheck_words::{ExplainOptions, Format};
use std::alloc::{AllocError, Global};
use std::rt::Files;
use tt_stream::{Counted, Sink};

/// Which program of a font file is explained, and how.
#[derive(Clone, Copy)]
pub(super) struct ExplainRequest<'a> {
    /// The word that names the program.
    pub word: &'a str,
    /// Where what is known is asked for, if it is.
    pub site: Option<Site>,
    /// How it is explained.
    pub options: ExplainOptions,
}

/// Explains one program of the font file with this name in lines, and returns the exit status.
fn explain_in_lines<R: Files + AllocGlobal, O: Sink>(
    rt: &R,
    name: &str,
    request: ExplainRequest<'_>,
    out: &mut O,
) -> Result<u8, CommandFault>
    ensures status { IfOk result
        (IsExplained request.entry.options.profile request.entry.word.now) }
    ensures failures { TellsFailure result (O.failures out.old) (O.failures out.new) }
{
    let ExplainRequest {
        word,
        site,
        options,
    } = request;
    let font = named_font(rt, name, options.faces, options.max_bytes)?;
    let by = told_by(rt.alloc(), &font.bytes, options.profile)?;
    let mut points = budget_of(options.profile.max_steps());
    let program = ProgramRequest { word, site, by };
    let mut details = Details::none(rt.alloc());
    let explained = explain_word(
        rt.alloc(),
        &font.bytes,
        program,
        &mut points,
        &mut details,
        out,
    )?;
    Ok(exit_status(explained))
}

/// An explanation that was printed to memory.
#[derive(Drop)]
struct Explanation {
    /// The number of the font's face, where its file is a collection.
    face: Option<u32>,
    /// Whether the program is accepted.
    explained: Explained,
    /// What was asked of the verdict.
    by: Request,
    /// The member of its object that tells the refused program; nothing if none is refused.
    refused: String,
    /// The lines.
    text: String,
}

/// Returns the fault of an explanation that is printed to memory: where a write fails, memory ran
/// out.
fn of_memory(fault: CommandFault) -> CommandFault
    ensures { IsNoWriteFault result }
{
    match fault {
        CommandFault::Write => CommandFault::OutOfMemory,
        fault => fault,
    }
}

/// Returns the member of an object that tells the refused program of the font in these bytes, with these
/// details; nothing if none is refused.
fn refused_member(
    alloc: Global,
    font: &[u8],
    explained: Explained,
    details: &Details,
) -> Result<String, AllocError> {
    match explained {
        Explained::Accepted => Ok(String::new(alloc)),
        Explained::Refused(refused) => {
            let object = refused_object(alloc, font, &refused, details)?;
            format!(in alloc; "\"refused\":{object},")
        }
    }
}

/// Explains one program of the font file with this name, in memory.
///
/// # Errors
/// As `explain_in_lines`, but never `Write`.
fn explanation_of<R: Files + AllocGlobal>(
    rt: &R,
    name: &str,
    request: ExplainRequest<'_>,
) -> Result<Explanation, CommandFault>
    ensures asked { IfOk result (λ e. IsRequestOf request.entry.options.profile e.by) }
    ensures answered { IfOk result (λ e. (bytes : List ℕ)
        × HoldExplainedBy e.by bytes request.entry.word.now e.explained) }
    ensures unwritten { IfErr result IsNoWriteFault }
{
    let alloc = rt.alloc();
    let ExplainRequest {
        word,
        site,
        options,
    } = request;
    let FontBytes { bytes, face } = named_font(rt, name, options.faces, options.max_bytes)?;
    let by = told_by(alloc, &bytes, options.profile)?;
    let mut points = budget_of(options.profile.max_steps());
    let mut sink = Counted::new(Vec::new(alloc));
    let program = ProgramRequest { word, site, by };
    let mut details = Details::none(alloc);
    let explained = match explain_word(
        alloc,
        &bytes,
        program,
        &mut points,
        &mut details,
        &mut sink,
    ) {
        Ok(explained) => explained,
        Err(fault) => return Err(of_memory(fault)),
    };
    let Ok(text) = String::from_utf8(sink.into_inner()) else {
        return Err(CommandFault::Text);
    };
    Ok(Explanation {
        face,
        explained,
        by,
        refused: refused_member(alloc, &bytes, explained, &details)?,
        text,
    })
}

/// Prints the object of the explanation of a program of the font file with this name.
fn print_explanation<O: Sink>(
    alloc: Global,
    out: &mut O,
    name: &str,
    word: &str,
    told: &Explanation,
) -> Result<(), CommandFault>
    ensures failures { TellsFailure result (O.failures out.old) (O.failures out.new) }
{
    let word = json_text(alloc, &word)?;
    let texts: Vec<&str> = told.text.lines().collect(alloc)?;
    let lines = json_text(alloc, &texts)?;
    let label = FontLabel {
        file: name,
        face: told.face,
    };
    let status = exit_status(told.explained);
    print_beginning(alloc, out, label, name_of_request(told.by), status)?;
    let refused = &told.refused;
    writeln!(out, "\"program\":{word},{refused}\"lines\":{lines}}}")?;
    Ok(())
}

/// Explains one program of the font file with this name in an object, and returns the exit status.
fn explain_in_object<R: Files + AllocGlobal, O: Sink>(
    rt: &R,
    name: &str,
    request: ExplainRequest<'_>,
    out: &mut O,
) -> Result<u8, CommandFault>
    ensures status { IfOk result
        (IsExplained request.entry.options.profile request.entry.word.now) }
    ensures failures { TellsFailure result (O.failures out.old) (O.failures out.new) }
{
    match explanation_of(rt, name, request) {
        Ok(told) => {
            print_explanation(rt.alloc(), out, name, request.word, &told)?;
            Ok(exit_status(told.explained))
        }
        Err(fault) if fault.is_of_font_file() => {
            let label = FontLabel::of_file(name);
            print_fault_object(rt.alloc(), out, label, &fault, request.options.profile)?;
            Ok(fault.status())
        }
        Err(fault) => Err(fault),
    }
}

/// Explains one program of the font file with this name, in the form that is asked for, and returns
/// the exit status: 0 accepted; 1 refused, or not checked since one before it is refused; 2 or 3 that of
/// the font file's fault, where an object tells one.
///
/// # Errors
/// In lines those of `named_font` and of `explain_word`; for an object `ProgramName` and `OffsetWord`, `OutOfMemory` where memory ran out at
/// the object, and `Write` exactly where a write to `out` failed.
pub(super) fn explain_of_file<R: Files + AllocGlobal, O: Sink>(
    rt: &R,
    name: &str,
    request: ExplainRequest<'_>,
    out: &mut O,
) -> Result<u8, CommandFault>
    ensures status { IfOk result
        (IsExplained request.entry.options.profile request.entry.word.now) }
    ensures failures { TellsFailure result (O.failures out.old) (O.failures out.new) }
{
    match request.options.format {
        Format::Json => explain_in_object(rt, name, request, out),
        _ => explain_in_lines(rt, name, request, out),
    }
}
