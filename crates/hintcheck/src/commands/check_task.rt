//! The subcommand `check`: the verdict on a font file by its certificate.

ghost use Rattle.std.specs.Prelude.{◌≡◌, ◌+◌, IfErr, IfOk, length, []};
ghost use Rattle.hintcheck_words.specs.Requests.{check};
ghost use Rattle.hintcheck.specs.Representation.Answers.{IsNoVerdictFor, IsVerdictFor};
ghost use Rattle.hintcheck.specs.Commands.{IsNoWriteFault};
ghost use Rattle.hintcheck.specs.CommandFaults.{IsFaultOfChecking};
ghost use Rattle.hintcheck_programs.specs.FontPrograms.{IsFontInRange, IsSafeFont};

use super::faults::{CommandFault, FileWord};
use super::files::{of_certificate, opened};
use super::font_bytes::named_font;
use crate::font_file::{budget_of, font_in};
use hintcheck_certificates::font_check::check_read_font;
use hintcheck_fonts::{Judged, Request};
use hintcheck_programs::report::Verdict;
use hintcheck_words::CertificateOptions;
use std::alloc::Global;
use std::io::Read;
use std::rt::Files;
use tt_font::Font;
use tt_stream::{Buffered, Counted};

/// Returns the verdict on a font by the certificate that is left in the file, and makes at most
/// this many steps, where they are bounded.
fn verdict_by_file<F: Read + Drop>(
    alloc: Global,
    font: &Font<'_>,
    file: F,
    max_steps: Option<u64>,
) -> Result<Verdict, CommandFault>
    requires { IsFontInRange font.now }
    ensures safe { IfOk result (λ verdict. verdict.refused ≡ [] → IsSafeFont font.now) }
    ensures programs { IfOk result (λ verdict. verdict.programs ≡ length font.now.glyphs + 2) }
    ensures unwritten { IfErr result IsNoWriteFault }
    ensures faults { IfErr result IsFaultOfChecking }
{
    let mut source = Buffered::new(alloc, Counted::new(file))?;
    Ok(check_read_font(alloc, font, &mut source, &mut budget_of(max_steps))?)
}

/// Returns the verdict on the font file with the first name by the certificate in the file with the
/// second, which is opened once the first was read as a font.
pub(super) fn check_verdict<R: Files + AllocGlobal>(
    rt: &R,
    font: &str,
    certificate: &str,
    options: CertificateOptions,
) -> Result<Judged, CommandFault>
    ensures given { IfOk result (λ j.
        IsVerdictFor (check font.now certificate.now options) j.by j.verdict) }
    ensures faults { IfErr result (IsNoVerdictFor (check font.now certificate.now options)) }
{
    let held = named_font(rt, font, options.faces, options.max_bytes)?;
    let font = font_in(rt.alloc(), &held.bytes)?;
    let file = opened(rt, certificate, FileWord::Certificate)?;
    let file = file.take(options.max_bytes);
    match verdict_by_file(rt.alloc(), &font, file, options.max_steps) {
        Ok(verdict) => Ok(Judged {
            by: Request::Strict,
            verdict,
        }),
        Err(fault) => Err(of_certificate(rt, certificate, fault)),
    }
}
