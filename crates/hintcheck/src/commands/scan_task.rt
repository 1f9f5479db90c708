//! The subcommand `scan`: the verdicts on font files, a line or an object for each.

ghost use Rattle.std.specs.Prelude.{◌≡◌, ◌++◌, ◌∷◌, ◌≤◌, ◌||◌, [], false, IfErr, IfOk, map, not, OnOk, option_map, string_bytes};
ghost use Rattle.std.specs.List.{list_any};
ghost use Rattle.tt_names.specs.Post.{post_of};
ghost use Rattle.hintcheck_words.specs.declared.words.Format.TheVariants.{Lines};
ghost use Rattle.hintcheck_words.specs.Requests.{scan, texts_spelled};
ghost use Rattle.hintcheck.specs.Representation.Answers.{IsAnswered};
ghost use Rattle.hintcheck.specs.Commands.{IsNoWriteFault, TellsFailure};
ghost use Rattle.hintcheck.specs.CommandFaults.{IsFaultOfFontFile};
ghost use Rattle.hintcheck.specs.KnownRefusals.{fails_for, is_unknown};
ghost use Rattle.hintcheck.specs.Representation.Known.{are_alone, is_listed_by};
ghost use Rattle.hintcheck.specs.Representation.ScannedFiles.{ScansFile, ScansFiles, ScansLabels, label_of};
ghost use Rattle.hintcheck.specs.ScannedNames.{HoldsOfLabels, shown_names};
ghost use Rattle.hintcheck.specs.Scans.{PrintsScanning, TellsFont, is_silent as is_silent_of, judged as judged_so, names_none, status_of_refused, unread};

use super::faults::{CommandFault, FileWord, WholeFault};
use super::files::file_bytes;
use super::font_bytes::font_in_file;
use super::font_label::FontLabel;
use super::json_objects::{print_fault_object, print_verdict_object};
use super::known_refusals::{
    Known, check_names, line_of as refusal_line_of, named_line_of, write_file,
};
use super::listed_names::listed_names;
use super::scan_lines::{print_line, print_unread};
use super::scan_more::more_text;
use super::scan_summary::{Tally, tell_summary};
use super::{ACCEPTED, REFUSED};
use crate::font_file::judged_font;
use hintcheck_fonts::Judged;
use hintcheck_programs::report::{Refused, Verdict};
use hintcheck_words::{Faces, FailOn, FontWords, Format, ScanOptions, ScanTexts};
use std::alloc::{AllocError, Global};
use std::rt::Files;
use tt_code::ReasonClass;
use tt_collection::{Collection, is_collection};
use tt_names::GlyphNames;
use tt_stream::Sink;

/// How the font files of a scan are checked and told, and which refused programs are known.
#[derive(Clone, Copy)]
pub(super) struct Plan<'a> {
    options: ScanOptions,
    known: &'a Known,
}

/// A font file that was judged: what it is called, its bytes, and the verdict.
#[derive(Clone, Copy)]
pub(super) struct ScannedFont<'a> {
    pub label: FontLabel<'a>,
    pub bytes: &'a [u8],
    pub judged: &'a Judged,
}

/// Whether a scan fails for the refused program.
fn does_count(refused: &Refused, fail_on: Option<FailOn>) -> bool
    ensures { result ≡ fails_for fail_on refused.now }
{
    match fail_on {
        Some(FailOn::Possible) => refused.reason.class() == ReasonClass::PossibleFault,
        _ => true,
    }
}

/// Returns the exit status of a verdict: 1 where the scan fails for one of its refused programs.
fn verdict_status(verdict: &Verdict, fail_on: Option<FailOn>) -> u8
    ensures { result ≡ status_of_refused (fails_for fail_on) verdict.now.refused }
{
    let mut status = ACCEPTED;
    for refused in verdict.refused() {
        if does_count(refused, fail_on) {
            status = REFUSED;
        }
    }
    status
}

/// Whether the refused program of a font counts, and isn't known, by its name or by that of its glyph.
/// One that is known is counted, and the line of one that counts is kept where lines are to be written.
fn note_program(
    alloc: Global,
    font: ScannedFont<'_>,
    names: &GlyphNames<'_>,
    refused: &Refused,
    plan: Plan<'_>,
    tally: &mut Tally,
) -> Result<bool, CommandFault>
    requires { names.now.post.now ≡ post_of font.bytes.now }
    ensures unknown { IfOk result (λ unknown. unknown ≡ is_unknown plan.entry.options.fail_on
        (is_listed_by plan.entry.known.now) (label_of font.entry.label) font.entry.bytes.now
        refused.now) }
    ensures unwritten { IfErr result IsNoWriteFault }
{
    if !does_count(refused, plan.options.fail_on) {
        return Ok(false);
    }
    let line = refusal_line_of(alloc, font.label, refused)?;
    tally.add_line(&line)?;
    if plan.known.has(&line) {
        tally.count_known(line)?;
        return Ok(false);
    }
    let Some(named) = named_line_of(alloc, font.label, names, refused)? else {
        return Ok(true);
    };
    if !plan.known.has(&named) {
        return Ok(true);
    }
    tally.count_known(named)?;
    Ok(false)
}

/// Adds a refused program to others.
///
/// # Errors
/// If memory runs out.
fn add_refused(others: &mut Vec<Refused>, refused: Refused) -> Result<(), AllocError>
    ensures { OnOk result (others.new.items ≡ others.old.items ++ refused ∷ []) }
{
    Ok(others.push(refused)?)
}

/// Adds the refused program of a font to others, if it counts and isn't known.
fn add_unknown(
    alloc: Global,
    font: ScannedFont<'_>,
    names: &GlyphNames<'_>,
    refused: &Refused,
    plan: Plan<'_>,
    tally: &mut Tally,
    others: &mut Vec<Refused>,
) -> Result<(), CommandFault>
    requires { names.now.post.now ≡ post_of font.bytes.now }
    ensures some { OnOk result (not (names_none others.new.items)
        ≡ (not (names_none others.old.items) || is_unknown plan.entry.options.fail_on
        (is_listed_by plan.entry.known.now) (label_of font.entry.label) font.entry.bytes.now
        refused.now)) }
    ensures unwritten { IfErr result IsNoWriteFault }
{
    if !note_program(alloc, font, names, refused, plan, tally)? {
        return Ok(());
    }
    Ok(add_refused(others, *refused)?)
}

/// Returns the refused programs of a font that count and aren't known.
fn unknown_of(
    alloc: Global,
    font: ScannedFont<'_>,
    plan: Plan<'_>,
    tally: &mut Tally,
) -> Result<Vec<Refused>, CommandFault>
    ensures some { IfOk result (λ unknown. not (names_none unknown.items)
        ≡ list_any (is_unknown plan.entry.options.fail_on (is_listed_by plan.entry.known.now)
        (label_of font.entry.label) font.entry.bytes.now) font.entry.judged.now.verdict.refused) }
    ensures unwritten { IfErr result IsNoWriteFault }
{
    let names = GlyphNames::of(alloc, font.bytes)?;
    let mut unknown = Vec::new(alloc);
    for refused in font.judged.verdict.refused() {
        add_unknown(alloc, font, &names, refused, plan, tally, &mut unknown)?;
    }
    Ok(unknown)
}

/// What a scan notes of a verdict.
#[derive(Drop)]
struct Noted {
    /// The exit status: 1 where a refused program counts that isn't known.
    status: u8,
    /// These programs, where a file of known refusals is named.
    unknown: Vec<Refused>,
}

/// Notes the verdict on a font.
fn note_verdict(
    alloc: Global,
    font: ScannedFont<'_>,
    plan: Plan<'_>,
    tally: &mut Tally,
) -> Result<Noted, CommandFault>
    ensures status { IfOk result (λ noted. noted.status
        ≡ status_of_refused (is_unknown plan.entry.options.fail_on
        (is_listed_by plan.entry.known.now) (label_of font.entry.label) font.entry.bytes.now)
        font.entry.judged.now.verdict.refused) }
    ensures unwritten { IfErr result IsNoWriteFault }
{
    let verdict = &font.judged.verdict;
    tally.count_verdict(verdict.accepted());
    if let Known::Nothing = plan.known
        && !tally.keeps_lines()
    {
        return Ok(Noted {
            status: verdict_status(verdict, plan.options.fail_on),
            unknown: Vec::new(alloc),
        });
    }
    let unknown = unknown_of(alloc, font, plan, tally)?;
    let status = if unknown.is_empty() {
        ACCEPTED
    } else {
        REFUSED
    };
    Ok(Noted { status, unknown })
}

/// Whether nothing is printed of a font with this verdict: in a quiet scan, of one that is accepted.
fn is_silent(judged: &Judged, options: ScanOptions) -> bool
    ensures { result ≡ is_silent_of options (judged_so judged.now.by judged.now.verdict) }
{
    options.is_quiet && judged.verdict.accepted()
}

/// Prints the line of a font, and after it what more is asked for; of these refused programs it is told
/// that they aren't known.
fn tell_lines<O: Sink>(
    alloc: Global,
    out: &mut O,
    font: ScannedFont<'_>,
    unknown: &[Refused],
    plan: Plan<'_>,
) -> Result<(), CommandFault>
    requires lines { plan.options.format ≡ Lines }
    requires loud { is_silent_of plan.options
        (judged_so font.judged.now.by font.judged.now.verdict) ≡ false }
    ensures written { OnOk result (TellsFont plan.entry.options
        (are_alone plan.entry.options plan.entry.known.now) (label_of font.entry.label)
        (judged_so font.entry.judged.now.by font.entry.judged.now.verdict)
        (O.contents out.old) (O.contents out.new)) }
    ensures failures { TellsFailure result (O.failures out.old) (O.failures out.new) }
{
    print_line(out, font.label, font.judged)?;
    if plan.known.are_alone(plan.options) {
        return Ok(());
    }
    let told = if plan.known.count().is_some() {
        unknown
    } else {
        &[]
    };
    let more = more_text(alloc, font, plan.options, told)?;
    Ok(write!(out, "{more}")?)
}

/// Prints what is asked for of a font file, of which these refused programs aren't known.
fn tell_judged<O: Sink>(
    alloc: Global,
    out: &mut O,
    font: ScannedFont<'_>,
    unknown: &[Refused],
    plan: Plan<'_>,
) -> Result<(), CommandFault>
    ensures written { OnOk result (TellsFont plan.entry.options
        (are_alone plan.entry.options plan.entry.known.now) (label_of font.entry.label)
        (judged_so font.entry.judged.now.by font.entry.judged.now.verdict)
        (O.contents out.old) (O.contents out.new)) }
    ensures failures { TellsFailure result (O.failures out.old) (O.failures out.new) }
{
    if is_silent(font.judged, plan.options) {
        return Ok(());
    }
    match plan.options.format {
        Format::Lines => tell_lines(alloc, out, font, unknown, plan),
        Format::Json => {
            let status = verdict_status(&font.judged.verdict, plan.options.fail_on);
            print_verdict_object(alloc, out, font, plan.options, status)
        }
    }
}

/// Prints the fault of the font file with this label.
fn tell_unread<O: Sink>(
    alloc: Global,
    out: &mut O,
    label: FontLabel<'_>,
    fault: &CommandFault,
    plan: Plan<'_>,
) -> Result<(), CommandFault>
    ensures written { OnOk result (TellsFont plan.entry.options
        (are_alone plan.entry.options plan.entry.known.now) (label_of label.entry)
        (unread fault.now) (O.contents out.old) (O.contents out.new)) }
    ensures failures { TellsFailure result (O.failures out.old) (O.failures out.new) }
{
    if let Format::Json = plan.options.format {
        return print_fault_object(alloc, out, label, fault, plan.options.profile);
    }
    let whole = WholeFault(fault);
    print_unread(out, label)?;
    writeln!(out, "{whole}")?;
    Ok(())
}

/// Prints and counts the fault of the font file with this label, and returns its exit status.
fn scan_unread<O: Sink>(
    alloc: Global,
    label: FontLabel<'_>,
    fault: &CommandFault,
    plan: Plan<'_>,
    tally: &mut Tally,
    out: &mut O,
) -> Result<u8, CommandFault>
    requires { IsFaultOfFontFile fault.now }
    ensures printed { IfOk result (λ status. ScansLabels plan.entry (label_of label.entry ∷ [])
        status (O.contents out.old) (O.contents out.new)) }
    ensures failures { TellsFailure result (O.failures out.old) (O.failures out.new) }
{
    tell_unread(alloc, out, label, fault, plan)?;
    tally.count_fault();
    Ok(fault.status())
}

/// Judges the font file with this label and these bytes, prints what is told of it, counts it and its
/// known refusals, and returns its exit status: that of its verdict, or of the fault.
fn scan_font<O: Sink>(
    alloc: Global,
    label: FontLabel<'_>,
    bytes: &[u8],
    plan: Plan<'_>,
    tally: &mut Tally,
    out: &mut O,
) -> Result<u8, CommandFault>
    ensures printed { IfOk result (λ status. ScansLabels plan.entry (label_of label.entry ∷ [])
        status (O.contents out.old) (O.contents out.new)) }
    ensures failures { TellsFailure result (O.failures out.old) (O.failures out.new) }
{
    let judged = match judged_font(alloc, bytes, plan.options.profile) {
        Ok(judged) => judged,
        Err(fault) => return scan_unread(alloc, label, &fault, plan, tally, out),
    };
    let font = ScannedFont {
        label,
        bytes,
        judged: &judged,
    };
    let noted = note_verdict(alloc, font, plan, tally)?;
    tell_judged(alloc, out, font, &noted.unknown, plan)?;
    Ok(noted.status)
}

/// Scans the face of this number of a collection, which has this name, as `scan_font` does.
fn scan_face<O: Sink>(
    alloc: Global,
    collection: &Collection<'_>,
    label: FontLabel<'_>,
    number: u32,
    plan: Plan<'_>,
    tally: &mut Tally,
    out: &mut O,
) -> Result<u8, CommandFault>
    ensures printed { IfOk result (λ status. ScansLabels plan.entry (label_of label.entry ∷ [])
        status (O.contents out.old) (O.contents out.new)) }
    ensures failures { TellsFailure result (O.failures out.old) (O.failures out.new) }
{
    match collection.face(alloc, number) {
        Ok(font) => scan_font(alloc, label, &font, plan, tally, out),
        Err(fault) => {
            let fault = CommandFault::from(fault);
            scan_unread(alloc, label, &fault, plan, tally, out)
        }
    }
}

/// Scans each face of a collection, which has this name, and returns the greatest exit status.
fn scan_faces<O: Sink>(
    alloc: Global,
    collection: &Collection<'_>,
    name: &str,
    plan: Plan<'_>,
    tally: &mut Tally,
    out: &mut O,
) -> Result<u8, CommandFault>
    ensures printed { IfOk result (λ status. ScansFile plan.entry name.now status
        (O.contents out.old) (O.contents out.new)) }
    ensures failures { TellsFailure result (O.failures out.old) (O.failures out.new) }
{
    let mut greatest = ACCEPTED;
    for number in 0..collection.face_count() {
        let label = FontLabel {
            file: name,
            face: Some(number),
        };
        let status = scan_face(alloc, collection, label, number, plan, tally, out)?;
        greatest = greatest.max(status);
    }
    Ok(greatest)
}

/// Scans each face of the collection in the file with this name and these bytes.
fn scan_collection<O: Sink>(
    alloc: Global,
    bytes: &[u8],
    name: &str,
    plan: Plan<'_>,
    tally: &mut Tally,
    out: &mut O,
) -> Result<u8, CommandFault>
    ensures printed { IfOk result (λ status. ScansFile plan.entry name.now status
        (O.contents out.old) (O.contents out.new)) }
    ensures failures { TellsFailure result (O.failures out.old) (O.failures out.new) }
{
    match Collection::read(bytes) {
        Ok(collection) => scan_faces(alloc, &collection, name, plan, tally, out),
        Err(fault) => {
            let fault = CommandFault::from(fault);
            let label = FontLabel::of_file(name);
            scan_unread(alloc, label, &fault, plan, tally, out)
        }
    }
}

/// Scans what the file with this name and these bytes has: itself, the face of it that is asked for, or
/// each one.
fn scan_bytes<O: Sink>(
    alloc: Global,
    bytes: Vec<u8>,
    name: &str,
    plan: Plan<'_>,
    tally: &mut Tally,
    out: &mut O,
) -> Result<u8, CommandFault>
    ensures printed { IfOk result (λ status. ScansFile plan.entry name.now status
        (O.contents out.old) (O.contents out.new)) }
    ensures failures { TellsFailure result (O.failures out.old) (O.failures out.new) }
{
    if plan.options.faces == Faces::All && is_collection(&bytes) {
        return scan_collection(alloc, &bytes, name, plan, tally, out);
    }
    match font_in_file(alloc, bytes, plan.options.faces) {
        Ok(font) => {
            let label = FontLabel {
                file: name,
                face: font.face,
            };
            scan_font(alloc, label, &font.bytes, plan, tally, out)
        }
        Err(fault) => {
            let label = FontLabel::of_file(name);
            scan_unread(alloc, label, &fault, plan, tally, out)
        }
    }
}

/// Scans the font file `font`, which is told by this name.
fn scan_file<R: Files + AllocGlobal, O: Sink>(
    rt: &R,
    font: &str,
    name: &str,
    plan: Plan<'_>,
    tally: &mut Tally,
    out: &mut O,
) -> Result<u8, CommandFault>
    ensures printed { IfOk result (λ status. ScansFile plan.entry name.now status
        (O.contents out.old) (O.contents out.new)) }
    ensures failures { TellsFailure result (O.failures out.old) (O.failures out.new) }
{
    match file_bytes(rt, font, FileWord::Font, plan.options.max_bytes) {
        Ok(bytes) => scan_bytes(rt.alloc(), bytes, name, plan, tally, out),
        Err(fault) => {
            let label = FontLabel::of_file(name);
            scan_unread(rt.alloc(), label, &fault, plan, tally, out)
        }
    }
}

/// Scans the font file `font`, which is told by this other name.
///
/// # Errors
/// `FontWord` where the other name has a line feed, and lines of known refusals are read or written: no
/// line can hold it; those of `scan_file`.
fn scan_renamed<R: Files + AllocGlobal, O: Sink>(
    rt: &R,
    font: &str,
    name: &str,
    plan: Plan<'_>,
    tally: &mut Tally,
    out: &mut O,
) -> Result<u8, CommandFault>
    ensures printed { IfOk result (λ status. ScansFile plan.entry name.now status
        (O.contents out.old) (O.contents out.new)) }
    ensures failures { TellsFailure result (O.failures out.old) (O.failures out.new) }
{
    let has_lines = tally.keeps_lines() || plan.known.count().is_some();
    if has_lines && name.contains('\n') {
        return Err(CommandFault::FontWord);
    }
    scan_file(rt, font, name, plan, tally, out)
}

/// Scans each of the font files with these names, and returns the greatest exit status.
fn scan_all<R: Files + AllocGlobal, O: Sink>(
    rt: &R,
    fonts: &[String],
    plan: Plan<'_>,
    tally: &mut Tally,
    out: &mut O,
) -> Result<u8, CommandFault>
    ensures printed { IfOk result (λ status. ScansFiles plan.entry
        (map (λ s. string_bytes s) fonts.now) status (O.contents out.old) (O.contents out.new)) }
    ensures failures { TellsFailure result (O.failures out.old) (O.failures out.new) }
{
    let mut greatest = ACCEPTED;
    for font in fonts {
        let status = scan_file(rt, font, font, plan, tally, out)?;
        greatest = greatest.max(status);
    }
    Ok(greatest)
}

/// Scans the font files with these names; where another name is given, the only one by that.
///
/// # Errors
/// `NameWord` where another name is given, and there isn't one font file; those of `scan_renamed`.
fn scan_shown<R: Files + AllocGlobal, O: Sink>(
    rt: &R,
    fonts: &[String],
    name: Option<&str>,
    plan: Plan<'_>,
    tally: &mut Tally,
    out: &mut O,
) -> Result<u8, CommandFault>
    ensures printed { IfOk result (λ status. ScansFiles plan.entry
        (shown_names (option_map (λ n. n.now) name.entry) (map (λ s. string_bytes s) fonts.now)) status
        (O.contents out.old) (O.contents out.new)) }
    ensures failures { TellsFailure result (O.failures out.old) (O.failures out.new) }
{
    match (name, fonts) {
        (None, _) => scan_all(rt, fonts, plan, tally, out),
        (Some(name), [font]) => scan_renamed(rt, font, name, plan, tally, out),
        (Some(_), _) => Err(CommandFault::NameWord),
    }
}

/// Returns the text, if there is one.
fn text_in(text: &Option<String>) -> Option<&str>
    ensures { option_map (λ text. text.now) result
        ≡ option_map (λ s. string_bytes s) text.now }
{
    match text {
        Some(text) => Some(text.as_str()),
        None => None,
    }
}

/// Scans the font files with these names, which are told as `scan_shown` does, tells to `err` how many
/// came to which end, and writes the lines of refused programs to the file that is named for them.
///
/// # Errors
/// Those of `scan_shown`, and after them `File` where that file can't be written.
fn scan_planned<R: Files + AllocGlobal, O: Sink, E: Sink>(
    rt: &R,
    fonts: &[String],
    texts: &ScanTexts,
    plan: Plan<'_>,
    out: &mut O,
    err: &mut E,
) -> Result<u8, CommandFault>
    ensures printed { IfOk result (λ status. ScansFiles plan.entry
        (shown_names (texts_spelled texts.now).name (map (λ s. string_bytes s) fonts.now)) status
        (O.contents out.old) (O.contents out.new)) }
    ensures failures { TellsFailure result (O.failures out.old) (O.failures out.new) }
    ensures untold { E.failures err.old ≤ E.failures err.new }
{
    let written = text_in(&texts.written);
    let mut tally = Tally::new(rt.alloc(), written.is_some());
    let status = scan_shown(rt, fonts, text_in(&texts.name), plan, &mut tally, out)?;
    tell_summary(err, &tally, plan.known.count(), plan.options.format);
    if let Some(file) = written {
        write_file(rt, file, tally.lines())?;
    }
    Ok(status)
}

/// Prints a line or an object for each of the font files with these names, or each face, with what more
/// is asked for, and to `err` a line that counts them, except in the form JSON; returns the greatest
/// exit status of them: 0 where the scan fails for no program, 1 where it fails for one, and more where
/// a font file has a fault. It doesn't fail for the refused programs that the file of known refusals
/// holds, if one is named. The lines of all for which it would fail without that file are written to
/// another file, if one is named. That the counts can't be printed is not told.
///
/// # Errors
/// `ClassWord` where the word for which programs the scan is to fail names none, and nothing is
/// printed then, nor for the faults of `Known::of`, of `check_names` and of `scan_shown`; `Write`
/// exactly where a write to `out` failed; `OutOfMemory` where memory ran out at what is told of a font;
/// after the last line, `File` where the other file can't be written.
fn scan_fonts<R: Files + AllocGlobal, O: Sink, E: Sink>(
    rt: &R,
    fonts: &[String],
    options: ScanOptions,
    texts: &ScanTexts,
    out: &mut O,
    err: &mut E,
) -> Result<u8, CommandFault>
    ensures printed { IfOk result (λ status. HoldsOfLabels
        (shown_names (texts_spelled texts.now).name (map (λ s. string_bytes s) fonts.now))
        (λ labels. PrintsScanning options labels (texts_spelled texts.now).expected
        status (O.contents out.old) (O.contents out.new))) }
    ensures failures { TellsFailure result (O.failures out.old) (O.failures out.new) }
    ensures untold { E.failures err.old ≤ E.failures err.new }
{
    if options.fail_on.is_none() {
        return Err(CommandFault::ClassWord);
    }
    let written = text_in(&texts.written);
    if let Some(file) = written {
        check_names(rt, fonts, file)?;
    }
    let known = Known::of(rt, fonts, text_in(&texts.expected), options.max_bytes)?;
    let plan = Plan {
        options,
        known: &known,
    };
    scan_planned(rt, fonts, texts, plan, out, err)
}

/// Scans the font files that these words name, or of which they name lists, as `scan_fonts` does.
///
/// # Errors
/// Before anything is printed `Unopened`, `TooLong`, `Read` or `OutOfMemory` where a list can't be read;
/// those of `scan_fonts`.
pub(super) fn scan_words<R: Files + AllocGlobal, O: Sink, E: Sink>(
    rt: &R,
    words: &[String],
    options: ScanOptions,
    texts: &ScanTexts,
    out: &mut O,
    err: &mut E,
) -> Result<u8, CommandFault>
    ensures answer { IfOk result (λ status. IsAnswered (scan
        (map (λ s. string_bytes s) words.now) options (texts_spelled texts.now))
        status (O.contents out.old) (O.contents out.new)) }
    ensures failures { TellsFailure result (O.failures out.old) (O.failures out.new) }
    ensures untold { E.failures err.old ≤ E.failures err.new }
{
    let ending = match options.words {
        FontWords::Fonts => return scan_fonts(rt, words, options, texts, out, err),
        FontWords::Lines => b'\n',
        FontWords::Nuls => 0,
    };
    let fonts = listed_names(rt, words, ending, options.max_bytes)?;
    scan_fonts(rt, &fonts, options, texts, out, err)
}
