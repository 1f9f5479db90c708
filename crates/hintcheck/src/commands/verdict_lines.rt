//! The lines of a verdict.

ghost use Rattle.std.specs.Prelude.{◌≡◌, ◌≢◌, ◌≤◌, ◌<◌, IfErr, IfOk, Ok, OnOk, []};
ghost use Rattle.std.specs.Io.KnownBytes.{Appends};
ghost use Rattle.tt_stream.specs.Streams.{CountsPrintFailure};
ghost use Rattle.hintcheck.specs.Commands.{TellsFailure};
ghost use Rattle.hintcheck.specs.CommandFaults.{IsFaultOfPrinting};
ghost use Rattle.hintcheck.specs.Texts.{end_line, profile_text, told_text, verdict_text};

use super::faults::CommandFault;
use super::{ACCEPTED, REFUSED};
use hintcheck_fonts::{Judged, Request};
use hintcheck_programs::report::{Name, Verdict};
use tt_stream::{PrintFailed, Sink};

/// Returns what a line that tells a verdict says of the profile by which it was asked for.
pub(super) fn end_of_profile(by: Request) -> &'static str
    ensures { result.now ≡ profile_text by }
{
    match by {
        Request::Strict => "",
        Request::Symbolic { .. } => " (symbolic)",
    }
}

/// Prints a verdict: a line for each refused program, and a last line.
fn print_verdict<O: Sink>(out: &mut O, verdict: &Verdict, by: Request) -> Result<(), PrintFailed>
    ensures written { OnOk result
        (Appends (O.contents out.old) (O.contents out.new) (verdict_text by verdict.now)) }
    ensures failures { CountsPrintFailure result (O.failures out.old) (O.failures out.new) }
{
    for refused in verdict.refused() {
        writeln!(out, "{refused}")?;
    }
    print_last_line(out, verdict, by)
}

/// Prints the last line of a verdict.
pub(super) fn print_last_line<O: Sink>(
    out: &mut O,
    verdict: &Verdict,
    by: Request,
) -> Result<(), PrintFailed>
    ensures written { OnOk result (Appends (O.contents out.old) (O.contents out.new)
        (end_line by verdict.now.programs verdict.now.refused)) }
    ensures failures { CountsPrintFailure result (O.failures out.old) (O.failures out.new) }
{
    let programs = verdict.programs();
    let count = verdict.refused().len();
    let end = end_of_profile(by);
    let Some(first) = verdict.refused().first() else {
        return writeln!(out, "accepted: {programs} programs{end}");
    };
    match first.program {
        Name::Font => writeln!(out, "refused: font program{end}"),
        Name::Cvt => writeln!(out, "refused: cvt program{end}"),
        Name::Glyph(_) => writeln!(out, "refused: {count} of {programs} programs{end}"),
    }
}

/// Prints a verdict, or its last line alone, and returns the exit status.
pub(super) fn tell_verdict<O: Sink>(
    out: &mut O,
    judged: Judged,
    is_last: bool,
) -> Result<u8, CommandFault>
    ensures status { IfOk result (λ status. status ≤ 1) }
    ensures accepted { IfOk result (λ status. status ≡ 0 → judged.verdict.refused ≡ []) }
    ensures refused { IfOk result (λ status. status ≡ 1 → judged.verdict.refused ≢ []) }
    ensures written { OnOk result (Appends (O.contents out.old) (O.contents out.new)
        (told_text is_last judged.by judged.verdict)) }
    ensures failures { TellsFailure result (O.failures out.old) (O.failures out.new) }
    ensures faults { IfErr result IsFaultOfPrinting }
{
    let Judged { by, verdict } = judged;
    if is_last {
        print_last_line(out, &verdict, by)?;
    } else {
        print_verdict(out, &verdict, by)?;
    }
    Ok(if verdict.accepted() {
        ACCEPTED
    } else {
        REFUSED
    })
}
