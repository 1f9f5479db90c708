//! The lines of a scan: a font's label, and the verdict on it.

ghost use Rattle.std.specs.Prelude.{◌≡◌, ◌++◌, codes, flat_map, OnOk};
ghost use Rattle.std.specs.Io.KnownBytes.{Appends};
ghost use Rattle.tt_code.specs.Refusals.{class_of};
ghost use Rattle.tt_stream.specs.Streams.{CountsPrintFailure};
ghost use Rattle.hintcheck.specs.FontLabels.{face_text};
ghost use Rattle.hintcheck.specs.RefusalClasses.{class_text, number_of_class};
ghost use Rattle.hintcheck.specs.Representation.ScannedFiles.{label_of};
ghost use Rattle.hintcheck.specs.Scans.{answer_text, counts_text, judged as judged_so, line_of, shown_byte};
ghost use Rattle.hintcheck.specs.Texts.{profile_text};

use super::font_label::FontLabel;
use super::shown_names::print_shown;
use super::verdict_lines::end_of_profile;
use hintcheck_fonts::{Judged, Request};
use hintcheck_programs::report::{Name, Refused, Verdict};
use std::fmt;
use tt_code::{Reason, ReasonClass};
use tt_stream::{PrintFailed, Sink};

/// Returns how many of the refused programs have a reason of this class.
fn count_of(refused: &[Refused], class: ReasonClass) -> usize
    ensures { result ≡ number_of_class class refused.now }
{
    let mut count = 0;
    for program in refused {
        if program.reason.class() == class {
            count += 1;
        }
    }
    count
}

/// Returns the reason's class in words.
pub(super) fn text_of_class(reason: Reason) -> &'static str
    ensures { result.now ≡ class_text (class_of reason) }
{
    match reason.class() {
        ReasonClass::PossibleFault => "possible fault",
        ReasonClass::Undecided => "undecided",
        ReasonClass::LeftOut => "left out",
        ReasonClass::Certificate => "certificate",
    }
}

/// How many programs are refused for what the analysis leaves out by choice, if some are.
#[derive(Clone, Copy)]
struct LeftOut {
    count: usize,
}

impl fmt::Display for LeftOut {
    ghost use Rattle.std.specs.Prelude.{Some};
    ghost use Rattle.hintcheck.specs.Scans.{left_out_text};

    ghost output = { λ programs. Some (left_out_text programs.count) };

    fn fmt<W: fmt::Write>(&self, f: &mut fmt::Formatter<W>) -> fmt::Result {
        let count = self.count;
        if count == 0 {
            return Ok(());
        }
        write!(f, ", {count} left out")
    }
}

/// Prints the end of the line of a font of which glyph programs are refused, with how many of them
/// are refused by this profile as a possible fault, as undecided, and as left out by choice.
fn print_counts<O: Sink>(
    out: &mut O,
    programs: u32,
    refused: &[Refused],
    by: Request,
) -> Result<(), PrintFailed>
    ensures written { OnOk result (Appends (O.contents out.old) (O.contents out.new)
        (codes ": refused: "
        ++ ((counts_text programs refused.now ++ profile_text by) ++ codes "\n"))) }
    ensures failures { CountsPrintFailure result (O.failures out.old) (O.failures out.new) }
{
    let count = refused.len();
    let possible = count_of(refused, ReasonClass::PossibleFault);
    let undecided = count_of(refused, ReasonClass::Undecided);
    let left = count_of(refused, ReasonClass::LeftOut);
    let left_out = LeftOut { count: left };
    let end = end_of_profile(by);
    writeln!(
        out,
        ": refused: {count} of {programs} programs ({possible} possible faults, {undecided} undecided{left_out}){end}"
    )
}

/// Prints what follows a font's label in its line: its verdict.
fn print_answer<O: Sink>(out: &mut O, verdict: &Verdict, by: Request) -> Result<(), PrintFailed>
    ensures written { OnOk result (Appends (O.contents out.old) (O.contents out.new)
        (answer_text (judged_so by verdict.now))) }
    ensures failures { CountsPrintFailure result (O.failures out.old) (O.failures out.new) }
{
    let programs = verdict.programs();
    let end = end_of_profile(by);
    let Some(first) = verdict.refused().first() else {
        return writeln!(out, ": accepted: {programs} programs{end}");
    };
    let class = text_of_class(first.reason);
    match first.program {
        Name::Font => writeln!(out, ": refused: font program ({class}){end}"),
        Name::Cvt => writeln!(out, ": refused: cvt program ({class}){end}"),
        Name::Glyph(_) => print_counts(out, programs, verdict.refused(), by),
    }
}

/// Prints what a font file is called, with the control bytes of its name by their digits.
fn print_label<O: Sink>(out: &mut O, label: FontLabel<'_>) -> Result<(), PrintFailed>
    ensures written { OnOk result (Appends (O.contents out.old) (O.contents out.new)
        (flat_map shown_byte label.entry.file.now ++ face_text label.entry.face)) }
    ensures failures { CountsPrintFailure result (O.failures out.old) (O.failures out.new) }
{
    print_shown(out, label.file)?;
    match label.face {
        Some(number) => write!(out, "#{number}"),
        None => Ok(()),
    }
}

/// Prints how the line of a font file without a verdict begins: what is before its fault.
pub(super) fn print_unread<O: Sink>(out: &mut O, label: FontLabel<'_>) -> Result<(), PrintFailed>
    ensures written { OnOk result (Appends (O.contents out.old) (O.contents out.new)
        ((flat_map shown_byte label.entry.file.now ++ face_text label.entry.face)
        ++ codes ": fault: ")) }
    ensures failures { CountsPrintFailure result (O.failures out.old) (O.failures out.new) }
{
    print_label(out, label)?;
    write!(out, ": fault: ")
}

/// Prints the line of a font.
pub(super) fn print_line<O: Sink>(
    out: &mut O,
    label: FontLabel<'_>,
    judged: &Judged,
) -> Result<(), PrintFailed>
    ensures written { OnOk result (Appends (O.contents out.old) (O.contents out.new)
        (line_of (label_of label.entry) (judged_so judged.now.by judged.now.verdict))) }
    ensures failures { CountsPrintFailure result (O.failures out.old) (O.failures out.new) }
{
    print_label(out, label)?;
    print_answer(out, &judged.verdict, judged.by)
}
