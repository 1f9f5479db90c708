//! The subcommand `find`: the verdict on a font file, and its certificate.

ghost use Rattle.std.specs.Prelude.{◌≡◌, IfErr, IfOk, []};
ghost use Rattle.hintcheck_certificates.specs.CertificateTexts.{IsPassingCertificate, WritesText};
ghost use Rattle.hintcheck_words.specs.Requests.{find};
ghost use Rattle.hintcheck.specs.Representation.Answers.{IsNoVerdictFor, IsVerdictFor};
ghost use Rattle.hintcheck.specs.Commands.{IsNoWriteFault};
ghost use Rattle.hintcheck.specs.CommandFaults.{IsFaultOfCertifying};
ghost use Rattle.hintcheck_programs.specs.FontPrograms.{IsFontInRange, IsVerdict};

use super::faults::CommandFault;
use super::files::{ROOM, file_numbers, is_same_file, write_rest};
use super::font_bytes::named_font;
use crate::font_file::{budget_of, font_in};
use hintcheck_certificates::certificate::find_programs;
use hintcheck_fonts::{Judged, Request};
use hintcheck_programs::report::Verdict;
use hintcheck_words::CertificateOptions;
use std::alloc::Global;
use std::fs;
use std::io::{BufWriter, Write};
use std::rt::Files;
use tt_font::Font;
use tt_stream::Counted;

/// Returns the verdict on a font, and the file, to which the font's certificate is written where no
/// program is refused. At most this many steps are made, where they are bounded.
fn verdict_to_file<F: Write + Drop>(
    alloc: Global,
    font: &Font<'_>,
    file: F,
    max_steps: Option<u64>,
) -> Result<(Verdict, F), CommandFault>
    requires { IsFontInRange font.now }
    ensures exact { IfOk result (λ r. IsVerdict font.now r.0) }
    ensures written { IfOk result (λ r. r.0.refused ≡ []
        → WritesText (F.contents file) (F.contents r.1) (IsPassingCertificate font.now)) }
    ensures unwritten { IfErr result IsNoWriteFault }
    ensures faults { IfErr result IsFaultOfCertifying }
{
    let Ok(file) = BufWriter::with_capacity(alloc, ROOM, file) else {
        return Err(CommandFault::OutOfMemory);
    };
    let mut sink = Counted::new(file);
    let verdict = find_programs(alloc, font, &mut sink, &mut budget_of(max_steps))?;
    let file = write_rest(sink.into_inner())?;
    Ok((verdict, file))
}

/// Returns the verdict on the font file with the first name, and writes its certificate to the file
/// with the second where no program is refused. That file is made or emptied once the first was
/// read as a font. It is a fault if both are one file, as far as that can be known.
pub(super) fn find_verdict<R: Files + AllocGlobal>(
    rt: &R,
    font: &str,
    certificate: &str,
    options: CertificateOptions,
) -> Result<Judged, CommandFault>
    ensures given { IfOk result (λ j.
        IsVerdictFor (find font.now certificate.now options) j.by j.verdict) }
    ensures faults { IfErr result (IsNoVerdictFor (find font.now certificate.now options)) }
{
    if font == certificate || is_same_file(file_numbers(rt, font), file_numbers(rt, certificate)) {
        return Err(CommandFault::CertificateWord);
    }
    let held = named_font(rt, font, options.faces, options.max_bytes)?;
    let font = font_in(rt.alloc(), &held.bytes)?;
    let Ok(file) = fs::create(rt, certificate) else {
        return Err(CommandFault::File);
    };
    let (verdict, _file) = verdict_to_file(rt.alloc(), &font, file, options.max_steps)?;
    Ok(Judged {
        by: Request::Strict,
        verdict,
    })
}
