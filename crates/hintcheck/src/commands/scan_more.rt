//! What a scan tells of a font after its line: causes, needs, and refused programs that aren't known.

ghost use Rattle.std.specs.Prelude.{IfErr};
ghost use Rattle.hintcheck.specs.Commands.{IsNoWriteFault};

use super::cause_lines::{Called, causes_text};
use super::faults::CommandFault;
use super::font_label::FontLabel;
use super::need_lines::needs_text;
use super::scan_task::ScannedFont;
use super::shown_names::Shown;
use crate::causes::causes_of;
use hintcheck_programs::report::Refused;
use hintcheck_words::ScanOptions;
use std::alloc::{AllocError, Global};
use tt_names::GlyphNames;

/// Returns the line of a refused program that isn't known.
fn new_line(
    alloc: Global,
    names: &GlyphNames<'_>,
    label: FontLabel<'_>,
    refused: &Refused,
) -> Result<String, AllocError> {
    let number = refused.reason.number();
    let program = Called::of(names, refused.program);
    let place = refused.place;
    let label = Shown(label);
    format!(in alloc; "  new: {number} {program} at {place} {label}\n")
}

/// Returns the lines of the refused programs that aren't known.
fn new_lines(
    alloc: Global,
    font: ScannedFont<'_>,
    unknown: &[Refused],
) -> Result<String, AllocError> {
    let names = GlyphNames::of(alloc, font.bytes)?;
    let mut text = String::new(alloc);
    for refused in unknown {
        text.push_str(&new_line(alloc, &names, font.label, refused)?)?;
    }
    Ok(text)
}

/// Returns the lines after the line of a font, of which these refused programs aren't known.
///
/// # Errors
/// `OutOfMemory`.
pub(super) fn more_text(
    alloc: Global,
    font: ScannedFont<'_>,
    options: ScanOptions,
    unknown: &[Refused],
) -> Result<String, CommandFault>
    ensures { IfErr result IsNoWriteFault }
{
    let mut text = new_lines(alloc, font, unknown)?;
    if options.has_causes {
        let causes = causes_of(alloc, font.judged.verdict.refused())?;
        text.push_str(&causes_text(alloc, font.bytes, &causes)?)?;
    }
    text.push_str(&needs_text(alloc, font.bytes, font.judged.by, options.needs)?)?;
    Ok(text)
}
