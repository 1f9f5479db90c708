//! Which refused programs of a scan are known: those whose lines a file holds; and the files that hold
//! such lines.

ghost use Rattle.std.specs.Prelude.{◌≡◌, ◌<◌, IfErr, IfOk, None, length, option_map, string_bytes};
ghost use Rattle.hintcheck.specs.Commands.{IsNoWriteFault};
ghost use Rattle.hintcheck.specs.KnownRefusals.{named_line, refusal_line};
ghost use Rattle.hintcheck.specs.Representation.Known.{are_alone, is_known_by};
ghost use Rattle.hintcheck.specs.Representation.ScannedFiles.{label_of};
ghost use Rattle.hintcheck.specs.declared.commands.known_refusals.Known.TheVariants.{Nothing};

use super::faults::{CommandFault, FileWord};
use super::files::{file_bytes, file_numbers, is_same_file};
use super::font_label::FontLabel;
use crate::glyph_names::called;
use crate::instruction_list::{read_name, read_number};
use hintcheck_programs::report::Refused;
use hintcheck_words::{AskedNeeds, Format, ScanOptions};
use std::alloc::{AllocError, Global};
use std::collections::HashSet;
use std::fs;
use std::io::Write;
use std::rt::Files;
use tt_names::GlyphNames;
use tt_stream::{Counted, write_all};

/// Returns the line of a refused program of the font file with this label, by the program's name, without
/// its end.
pub(super) fn line_of(
    alloc: Global,
    label: FontLabel<'_>,
    refused: &Refused,
) -> Result<String, AllocError>
    ensures { IfOk result (λ line.
        string_bytes line ≡ refusal_line (label_of label.entry) refused.now) }
{
    let number = refused.reason.number();
    let program = refused.program;
    format!(in alloc; "{number} {program} {label}")
}

/// Returns the line of a refused program of the font file with this label by the name of its glyph, which
/// a slash precedes, without its end, if the font has a name for it.
pub(super) fn named_line_of(
    alloc: Global,
    label: FontLabel<'_>,
    names: &GlyphNames<'_>,
    refused: &Refused,
) -> Result<Option<String>, AllocError>
    ensures { IfOk result (λ line. option_map (λ s. string_bytes s) line
        ≡ named_line (label_of label.entry) names.now.post.now refused.now) }
{
    let Some(name) = called(names, refused.program) else {
        return Ok(None);
    };
    let number = refused.reason.number();
    let line = format!(in alloc; "{number} /{name} {label}")?;
    Ok(Some(line))
}

/// Whether the word names a program, or after a slash what can be a glyph.
fn names_program(word: &str) -> bool {
    match word.strip_prefix("/") {
        Some(name) => !name.is_empty() && name.bytes().all(|byte| byte.is_ascii_graphic()),
        None => read_name(word).is_some(),
    }
}

/// Whether the text is a line of known refusals: the number of a reason, the name of a program, or of its
/// glyph after a slash, and that of a font file, with a space between these.
fn names_refusal(line: &str) -> bool {
    let Some((number, rest)) = line.split_once(' ') else {
        return false;
    };
    let Some((program, _font)) = rest.split_once(' ') else {
        return false;
    };
    read_number(number).is_some() && names_program(program)
}

/// Returns the text of the line, if it names a refusal.
fn refusal_text(line: &[u8]) -> Option<&str> {
    let text = str::from_utf8(line).ok()?;
    names_refusal(text).then_some(text)
}

/// Returns the first line of the bytes, without its end, and the bytes after its end.
fn first_line(bytes: &[u8]) -> (&[u8], &[u8])
    ensures { 0 < length bytes.now → length result.1.now < length bytes.now }
{
    match bytes.iter().position(|byte| *byte == b'\n') {
        Some(end) => (&bytes[..end], &bytes[end + 1..]),
        None => (bytes, &[]),
    }
}

/// Puts the line with this number, which names a refusal, among the lines.
///
/// # Errors
/// `KnownLine` where it names none; `OutOfMemory`.
fn add_line(
    alloc: Global,
    lines: &mut HashSet<String>,
    line: &[u8],
    number: u64,
) -> Result<(), CommandFault>
    ensures { IfErr result IsNoWriteFault }
{
    let Some(text) = refusal_text(line) else {
        return Err(CommandFault::KnownLine(number));
    };
    match lines.insert(String::from_str(alloc, text)?) {
        Ok(_) => Ok(()),
        Err(_) => Err(CommandFault::OutOfMemory),
    }
}

/// Returns the lines of the bytes, each of which names a refusal.
///
/// # Errors
/// `KnownLine` for the first line that names none; `OutOfMemory`.
fn lines_in(alloc: Global, bytes: &[u8]) -> Result<HashSet<String>, CommandFault>
    ensures { IfErr result IsNoWriteFault }
{
    let mut lines = HashSet::new(alloc);
    let mut number: u64 = 0;
    let mut rest = bytes;
    while !rest.is_empty() {
        let (line, after) = first_line(rest);
        number = number.saturating_add(1);
        add_line(alloc, &mut lines, line, number)?;
        rest = after;
    }
    Ok(lines)
}

/// Checks that the font file with this name can be in a scan that reads or writes this file of known
/// refusals.
fn check_name<R: Files>(rt: &R, font: &str, file: &str) -> Result<(), CommandFault>
    ensures { IfErr result IsNoWriteFault }
{
    if font == file || is_same_file(file_numbers(rt, font), file_numbers(rt, file)) {
        return Err(CommandFault::ExpectedWord);
    }
    if font.contains('\n') {
        return Err(CommandFault::FontWord);
    }
    Ok(())
}

/// Checks that the font files with these names can be in a scan that reads or writes this file of known
/// refusals.
///
/// # Errors
/// `ExpectedWord` where the file is one of the font files, as far as that can be known; `FontWord` where
/// a font file has a line feed in its name, since no line can hold it.
pub(super) fn check_names<R: Files>(
    rt: &R,
    fonts: &[String],
    file: &str,
) -> Result<(), CommandFault>
    ensures { IfErr result IsNoWriteFault }
{
    for font in fonts {
        check_name(rt, font, file)?;
    }
    Ok(())
}

/// Writes the text to the file, and returns whether that was done.
fn is_written<F: Write + Drop>(file: F, text: &str) -> bool {
    let mut sink = Counted::new(file);
    write_all(&mut sink, text.as_bytes()).is_ok() && sink.into_inner().flush().is_ok()
}

/// Makes the file with this name, and writes the text to it.
///
/// # Errors
/// `File` where the file can't be made or written.
pub(super) fn write_file<R: Files>(rt: &R, name: &str, text: &str) -> Result<(), CommandFault>
    ensures { IfErr result IsNoWriteFault }
{
    let Ok(file) = fs::create(rt, name) else {
        return Err(CommandFault::File);
    };
    if is_written(file, text) {
        Ok(())
    } else {
        Err(CommandFault::File)
    }
}

/// Returns the lines of the file of known refusals with this name, with which these font files are
/// scanned.
///
/// # Errors
/// Those of `check_names`; `KnownLine` for the first line that names no refusal; `Unopened`, `TooLong`,
/// `Read` and `OutOfMemory`.
fn lines_of_file<R: Files + AllocGlobal>(
    rt: &R,
    fonts: &[String],
    file: &str,
    max_bytes: u64,
) -> Result<HashSet<String>, CommandFault>
    ensures { IfErr result IsNoWriteFault }
{
    check_names(rt, fonts, file)?;
    let held = file_bytes(rt, file, FileWord::Known, max_bytes)?;
    lines_in(rt.alloc(), &held)
}

/// Which refused programs of a scan are known.
#[derive(Drop)]
pub(super) enum Known {
    /// None: no file of known refusals is named.
    Nothing,
    /// Those whose lines the file holds.
    Lines(HashSet<String>),
}

impl Known {
    /// Returns which refused programs of these font files are known, by the file with this name, if one
    /// is named.
    ///
    /// # Errors
    /// Those of `lines_of_file`.
    pub(super) fn of<R: Files + AllocGlobal>(
        rt: &R,
        fonts: &[String],
        file: Option<&str>,
        max_bytes: u64,
    ) -> Result<Known, CommandFault>
        ensures none { IfOk result (λ known. file.entry ≡ None → known ≡ Nothing) }
        ensures given { IfOk result (λ known. known ≡ Nothing → file.entry ≡ None) }
        ensures unwritten { IfErr result IsNoWriteFault }
    {
        match file {
            Some(file) => Ok(Known::Lines(lines_of_file(rt, fonts, file, max_bytes)?)),
            None => Ok(Known::Nothing),
        }
    }

    /// Whether the refused program with this line is known.
    pub(super) fn has(&self, line: &str) -> bool
        ensures { result ≡ is_known_by self.now line.now }
    {
        match self {
            Known::Nothing => false,
            Known::Lines(lines) => lines.contains(line),
        }
    }

    /// Returns how many lines of known refusals there are, if a file of them is named.
    pub(super) fn count(&self) -> Option<usize> {
        match self {
            Known::Nothing => None,
            Known::Lines(lines) => Some(lines.len()),
        }
    }

    /// Whether lines alone are printed of a font in a scan with these options.
    pub(super) fn are_alone(&self, options: ScanOptions) -> bool
        ensures { result ≡ are_alone options self.now }
    {
        match self {
            Known::Nothing => {
                options.format == Format::Lines
                    && !options.has_causes
                    && options.needs == AskedNeeds::None
            }
            Known::Lines(_) => false,
        }
    }
}
