//! The subcommand `verdict`: the verdict on a font file.

ghost use Rattle.std.specs.Prelude.{ℕ, IfErr, IfOk, List};
ghost use Rattle.hintcheck.specs.Commands.{IsNoWriteFault};
ghost use Rattle.hintcheck.specs.CommandFaults.{IsFaultOfFontFile};
ghost use Rattle.hintcheck.specs.MeansSafe.{IsVerdictBy};

use super::faults::CommandFault;
use super::font_bytes::named_font;
use crate::font_file::judged_font;
use hintcheck_fonts::Judged;
use hintcheck_words::VerdictOptions;
use std::rt::Files;

/// Returns the verdict that is asked for on the font in the file with this name.
pub(super) fn file_verdict<R: Files + AllocGlobal>(
    rt: &R,
    name: &str,
    options: VerdictOptions,
) -> Result<Judged, CommandFault>
    ensures given { IfOk result (λ j. (bytes : List ℕ)
        × IsVerdictBy options.profile j.by bytes j.verdict) }
    ensures unwritten { IfErr result IsNoWriteFault }
    ensures faults { IfErr result IsFaultOfFontFile }
{
    let font = named_font(rt, name, options.faces, options.max_bytes)?;
    judged_font(rt.alloc(), &font.bytes, options.profile)
}
