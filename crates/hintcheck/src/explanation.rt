//! One program of a font, explained.

ghost use Rattle.std.specs.Prelude.{◌≡◌, ◌≤◌, IfErr, IfOk, IfSome, None, OnOk, Some, is_some, true};
ghost use Rattle.tt_setting.specs.Entries.{Ascends};
ghost use Rattle.tt_setting.specs.Settings.{setting_of};
ghost use Rattle.tt_abs.specs.StateFlow.{FunctionsFit};
ghost use Rattle.hintcheck.specs.Commands.{IsNoWriteFault, TellsFailure};
ghost use Rattle.hintcheck.specs.Explanations.{IsAnswered, IsRefusedIn, IsReportOf, TellsProgram, status_of_explained};
ghost use Rattle.hintcheck_programs.specs.FontPrograms.{IsFontInRange};
ghost use Rattle.hintcheck.specs.Listing.{program_in};
ghost use Rattle.hintcheck.specs.MeansSafe.{HoldExplainedBy};
ghost use Rattle.hintcheck_programs.specs.ProgramVerdicts.{IsSubjectOf, with_start};
ghost use Rattle.hintcheck_programs.specs.Programs.{Subject};
ghost use Rattle.hintcheck_programs.specs.Stages.{at_start};
ghost use Rattle.hintcheck_programs.specs.declared.report.Outcome.{Outcome as AnyOutcome};
ghost use Rattle.hintcheck_programs.specs.Representation.ProgramOrder.{IsNext, next_program, stage_of, start_at};
ghost use Rattle.hintcheck_programs.specs.Representation.FontVerdicts.{IsAt, KeepsKnown};

use crate::asked_site::check_site;
use crate::commands::faults::CommandFault;
use crate::font_file::font_in;
use crate::instruction_list::named_program;
use crate::symbolic_explanation::explain_symbolically;
use hintcheck_explain::{Asked, Details, Explained, Site, explain, explain_unread};
use hintcheck_fonts::Request;
use hintcheck_programs::finding::Finding;
use hintcheck_programs::program::{Search, cut};
use hintcheck_programs::programs::{FontPrograms, Next, Programs};
use hintcheck_programs::report::{Name, Outcome, Refused};
use std::alloc::{AllocError, Global};
use tt_abs::{Refusal, Setting};
use tt_family::Budget;
use tt_font::Font;
use tt_stream::Sink;

/// Explains a program in its setting, and returns whether it is accepted.
fn explain_in<O: Sink>(
    alloc: Global,
    setting: &Setting<'_>,
    asked: Asked,
    budget: &mut Budget,
    details: &mut Details,
    out: &mut O,
) -> Result<Explained, CommandFault>
    requires ascends { Ascends setting.now.start.now }
    requires fits { FunctionsFit (setting_of setting.now) setting.now.start.now }
    ensures answered { (x : Subject) → IsSubjectOf x setting.now → x.name ≡ asked.program
        → IfOk result (IsAnswered x) }
    ensures failures { TellsFailure result (O.failures out.old) (O.failures out.new) }
{
    setting.range_facts();
    Ok(explain(alloc, setting, asked, budget, details, out)?)
}

/// Explains why these bytes can't be cut or aren't structured, as the fault tells, and returns what
/// is reported of it.
pub(crate) fn explain_uncut<O: Sink>(
    asked: Asked,
    bytes: &[u8],
    fault: Refusal,
    out: &mut O,
) -> Result<Refused, CommandFault>
    ensures refused { IfOk result (IsReportOf asked.program fault) }
    ensures failures { TellsFailure result (O.failures out.old) (O.failures out.new) }
{
    match fault {
        Refusal::Refused {
            spot,
            offset,
            failed,
        } => {
            let reason = failed.reason();
            explain_unread(asked, bytes, offset, reason, out)?;
            Ok(Refused::at(asked.program, spot, offset, reason))
        }
        Refusal::Exhausted(_) => Err(CommandFault::OutOfMemory),
    }
}

/// Prints the explanation of the program that is next, and returns whether it is accepted.
fn tell_next<O: Sink>(
    alloc: Global,
    programs: &FontPrograms<'_>,
    next: Next<'_>,
    site: Option<Site>,
    budget: &mut Budget,
    details: &mut Details,
    out: &mut O,
) -> Result<Explained, CommandFault>
    requires next { IsNext programs.now.font.now (stage_of programs.now) next }
    requires known { KeepsKnown programs.now.font.now (stage_of programs.now) }
    ensures answered { (x : Subject)
        → next_program programs.now.font.now (stage_of programs.now) ≡ Some x → IfOk result
        (IsAnswered (with_start x (start_at (stage_of programs.now)))) }
    ensures failures { TellsFailure result (O.failures out.old) (O.failures out.new) }
{
    let asked = Asked {
        program: next.name,
        site,
    };
    match cut(alloc, next.bytes) {
        Ok(program) => {
            let started = Setting {
                start: programs.start(),
                ..programs.setting(next.kind, &program)
            };
            explain_in(alloc, &started, asked, budget, details, out)
        }
        Err(fault) => {
            let refused = explain_uncut(asked, next.bytes, fault, out)?;
            Ok(Explained::Refused(refused))
        }
    }
}

/// Returns the exit status of a program that was explained.
pub(crate) fn exit_status(explained: Explained) -> u8
    ensures status { result ≡ status_of_explained explained }
    ensures few { result ≤ 1 }
{
    match explained {
        Explained::Accepted => 0,
        Explained::Refused(_) => 1,
    }
}

/// Returns what a program that ends the verdict is called.
fn called(program: Name) -> &'static str {
    match program {
        Name::Font => "font program",
        Name::Cvt => "cvt program",
        Name::Glyph(_) => "glyph program",
    }
}

/// Prints that a program isn't checked, since this one before it is refused.
pub(crate) fn tell_unchecked<O: Sink>(
    refused: Refused,
    out: &mut O,
) -> Result<Explained, CommandFault>
    ensures refused { IfOk result (λ explained. explained ≡ Explained.Refused refused) }
    ensures failures { TellsFailure result (O.failures out.old) (O.failures out.new) }
{
    let program = called(refused.program);
    writeln!(out, "not checked: the {program} is refused\n{refused}")?;
    Ok(Explained::Refused(refused))
}

/// Returns how an outcome refuses its program, if there is one and it does.
fn refused_by(outcome: Option<Outcome>) -> Option<Refused>
    ensures some { (o : AnyOutcome) → outcome ≡ Some o → result ≡ o.refused }
    ensures none { outcome ≡ None → result ≡ None }
{
    match outcome {
        Some(one) => one.refused,
        None => None,
    }
}

/// Judges the programs on which the one of this name depends, which is then the next one: returns
/// the refused one among them, if one is.
///
/// # Errors
/// `OutOfMemory`; `Budget`.
fn refused_before<'a>(
    alloc: Global,
    programs: &mut FontPrograms<'a>,
    judge: &mut Finding,
    called: Name,
    budget: &mut Budget,
) -> Result<Option<Refused>, CommandFault>
    requires range { IsFontInRange programs.old.font.now }
    requires start { stage_of programs.old ≡ at_start }
    requires there { is_some (program_in programs.old.font.now called) ≡ true }
    ensures font { programs.new.font ≡ programs.old.font }
    ensures refused { IfOk result
        (λ refused. IfSome refused (IsRefusedIn programs.new.font.now called)) }
    ensures there { IfOk result (λ refused. refused ≡ None
        → IsAt programs.new.font.now called (stage_of programs.new)) }
    ensures unwritten { IfErr result IsNoWriteFault }
{
    while !programs.is_at(called) {
        let outcome = programs.judge_next(alloc, judge, budget)?;
        if let Some(refused) = refused_by(outcome) {
            return Ok(Some(refused));
        }
    }
    programs.skip_to(called);
    Ok(None)
}

/// Judges the programs up to the one of this name, explains it, and returns whether it is accepted.
fn explain_judged<'a, O: Sink>(
    alloc: Global,
    programs: &mut FontPrograms<'a>,
    judge: &mut Finding,
    called: Name,
    site: Option<Site>,
    budget: &mut Budget,
    details: &mut Details,
    out: &mut O,
) -> Result<Explained, CommandFault>
    requires range { IsFontInRange programs.old.font.now }
    requires start { stage_of programs.old ≡ at_start }
    requires there { is_some (program_in programs.old.font.now called) ≡ true }
    ensures tells { IfOk result (TellsProgram programs.old.font.now called) }
    ensures failures { TellsFailure result (O.failures out.old) (O.failures out.new) }
{
    if let Some(refused) = refused_before(alloc, programs, judge, called, budget)? {
        return tell_unchecked(refused, out);
    }
    let next = programs.next().unwrap();
    tell_next(alloc, programs, next, site, budget, details, out)
}

/// Explains the font's program of this name, and returns whether it is accepted.
fn explain_named<O: Sink>(
    alloc: Global,
    font: &Font<'_>,
    called: Name,
    site: Option<Site>,
    budget: &mut Budget,
    details: &mut Details,
    out: &mut O,
) -> Result<Explained, CommandFault>
    requires range { IsFontInRange font.now }
    requires there { is_some (program_in font.now called) ≡ true }
    ensures tells { IfOk result (TellsProgram font.now called) }
    ensures failures { TellsFailure result (O.failures out.old) (O.failures out.new) }
{
    let mut programs = Programs::new(font);
    let mut judge = Finding::new(alloc, Search::Verdict);
    explain_judged(
        alloc,
        &mut programs,
        &mut judge,
        called,
        site,
        budget,
        details,
        out,
    )
}

/// Which program of a font is explained, and by which profile.
#[derive(Clone, Copy)]
pub(crate) struct ProgramRequest<'a> {
    /// The word that names the program.
    pub word: &'a str,
    /// Where what is known is asked for, if it is.
    pub site: Option<Site>,
    /// What is asked of the verdict.
    pub by: Request,
}

/// Explains one program of the font in these bytes, the one that the word names, by the profile that
/// is asked for, and returns whether it is accepted; where it isn't checked since the font program or
/// the CVT program is refused, how that one is refused. With a site the explanation tells what is known
/// there: at an instruction of the program, or of the font program or the CVT program where this
/// program calls a function that one defines. By the strict profile at most as many steps are made as
/// the budget allows: also for the programs before the named one, and for the searches with greater
/// limits by which a refused one is explained. By the symbolic one a program is refused for which the
/// steps that the request allows are too few. The details tell a refusal in numbers, where no site is
/// asked for and something is known at its place.
///
/// # Errors
/// The faults of `Font::read`; `ProgramName` where the word is the name of none of the font's
/// programs; `OffsetWord` where no instruction begins at the site, whether or not the program is
/// checked or comes there; `Write` exactly where a write to `out` failed; `OutOfMemory`; `Budget`.
pub(crate) fn explain_word<O: Sink>(
    alloc: Global,
    font: &[u8],
    request: ProgramRequest<'_>,
    points: &mut Budget,
    details: &mut Details,
    out: &mut O,
) -> Result<Explained, CommandFault>
    ensures answered { IfOk result
        (HoldExplainedBy request.entry.by font.now request.entry.word.now) }
    ensures failures { TellsFailure result (O.failures out.old) (O.failures out.new) }
{
    let ProgramRequest { word, site, by } = request;
    let read = font_in(alloc, font)?;
    let Some(named) = named_program(alloc, font, &read, word)? else {
        return Err(CommandFault::ProgramName);
    };
    check_site(&read, named.bytes, site)?;
    match by {
        Request::Strict => explain_named(alloc, &read, named.name, site, points, details, out),
        Request::Symbolic { steps } => {
            explain_symbolically(alloc, &read, named, site, steps, details, out)
        }
    }
}
