//! Objects of JSON (RFC 8259), one in a line: the answers of a scan, and parts of explanations.

ghost use Rattle.std.specs.Prelude.{◌≡◌, IfOk, OnOk, string_bytes};
ghost use Rattle.std.specs.Io.KnownBytes.{Appends};
ghost use Rattle.json.specs.Print.{quoted};
ghost use Rattle.tt_stream.specs.Streams.{AppendsOnly, CountsPrintFailure};
ghost use Rattle.hintcheck.specs.Commands.{TellsFailure, status_of};
ghost use Rattle.hintcheck.specs.JsonObjects.{beginning, profile_name, request_name};
ghost use Rattle.hintcheck.specs.Representation.ScannedFiles.{label_of};
ghost use Rattle.hintcheck_explain.specs.Texts.{WritesFirst};

use super::cause_lines::causes_member;
use super::faults::{CommandFault, WholeFault};
use super::font_label::FontLabel;
use super::need_lines::needs_member;
use super::scan_lines::text_of_class;
use super::scan_task::ScannedFont;
use crate::glyph_names::called;
use hintcheck_explain::{Details, OpenedCall, Operand};
use hintcheck_fonts::Request;
use hintcheck_programs::report::{Name, Refused};
use hintcheck_words::{Profile, ScanOptions};
use serde::{Described, Serialize, Serializer};
use serde_json::Value;
use std::alloc::{AllocError, Global};
use std::fmt;
use tt_code::Reason;
use tt_names::GlyphNames;
use tt_stream::Sink;

/// A value that is written as a string, in its own words.
#[derive(Drop)]
pub(super) struct Shown<T>(pub T);

impl<T> Described for Shown<T> {}

impl<T: fmt::Display> Serialize for Shown<T> {
    fn serialize<S: Serializer>(&self, out: &mut S) -> Result<(), S::Error> {
        out.collect_str(&self.0)
    }
}

/// A refused program, as an object tells it.
#[derive(Drop, Serialize)]
struct RefusedObject<'a> {
    program: Shown<Name>,
    /// The name that the font has for the program's glyph, if it has one.
    #[serde(skip_serializing_if = "Option::is_none")]
    glyph: Option<&'a str>,
    /// The program that holds the place.
    place: Shown<Name>,
    offset: u32,
    /// The reason's number.
    reason: u8,
    name: Shown<Reason>,
    class: &'a str,
    /// That a run which comes to the place is sure to fail there; only in explanations, as the members
    /// after it.
    #[serde(skip_serializing_if = "Option::is_none")]
    certain: Option<bool>,
    /// The number with which a test fails, if it is one.
    #[serde(skip_serializing_if = "Option::is_none")]
    operand: Option<OperandObject>,
    /// The calls that are open at the place, the outermost first.
    #[serde(skip_serializing_if = "Option::is_none")]
    calls: Option<Vec<CallObject>>,
}

/// A number with which a test fails, as an object tells it.
#[derive(Drop, Serialize)]
struct OperandObject {
    kind: &'static str,
    /// The number, where it is known.
    #[serde(skip_serializing_if = "Option::is_none")]
    number: Option<i64>,
    /// The least and the greatest number that it may be, where only these are known.
    #[serde(skip_serializing_if = "Option::is_none")]
    least: Option<i64>,
    #[serde(skip_serializing_if = "Option::is_none")]
    greatest: Option<i64>,
    #[serde(skip_serializing_if = "Option::is_none")]
    zone: Option<&'static str>,
    /// How many there are of what it numbers.
    #[serde(skip_serializing_if = "Option::is_none")]
    count: Option<u32>,
}

/// An open call, as an object tells it.
#[derive(Drop, Serialize)]
struct CallObject {
    /// The program that holds the call, and its offset.
    place: Shown<Name>,
    offset: u32,
    #[serde(skip_serializing_if = "Option::is_none")]
    function: Option<u16>,
    /// The program that holds the function's body, and where that begins.
    body: Shown<Name>,
    start: u32,
}

/// The fault of a font file, as an object tells it.
#[derive(Drop, Serialize)]
struct FaultObject {
    number: u8,
    text: String,
}

/// Returns a value as JSON.
///
/// # Errors
/// If memory runs out.
pub(super) fn json_text<T: Serialize>(alloc: Global, value: &T) -> Result<String, AllocError> {
    match serde_json::to_string(alloc, value) {
        Ok(text) => Ok(text),
        // Nothing else can go wrong with numbers and texts.
        Err(_) => Err(AllocError),
    }
}

/// Returns a text as JSON has it, in quotes.
fn quoted_text(alloc: Global, text: &str) -> Result<String, AllocError>
    ensures { IfOk result (λ s. string_bytes s ≡ quoted text.now) }
{
    let copy = String::from_str(alloc, text)?;
    Value::String(copy).to_string(alloc)
}

/// Returns the profile that is asked for, in a word.
pub(super) fn name_of_profile(profile: Profile) -> &'static str
    ensures { result.now ≡ profile_name profile }
{
    match profile {
        Profile::Strict { .. } => "strict",
        Profile::Symbolic { .. } => "symbolic",
        Profile::Both { .. } => "both",
    }
}

/// Returns the profile whose verdict it is, in a word.
pub(super) fn name_of_request(by: Request) -> &'static str
    ensures { result.now ≡ request_name by }
{
    match by {
        Request::Strict => "strict",
        Request::Symbolic { .. } => "symbolic",
    }
}

/// The member that tells the number of a face, where there is one, with a comma before it.
#[derive(Clone, Copy)]
struct FaceMember {
    face: Option<u32>,
}

impl fmt::Display for FaceMember {
    ghost use Rattle.std.specs.Prelude.{Some};
    ghost use Rattle.hintcheck.specs.JsonObjects.{face_member};

    ghost output = { λ member. Some (face_member member.face) };

    fn fmt<W: fmt::Write>(&self, f: &mut fmt::Formatter<W>) -> fmt::Result {
        match self.face {
            Some(number) => write!(f, ",\"face\":{number}"),
            None => Ok(()),
        }
    }
}

/// Prints how the object of a font file begins: the tool, the label, the profile in a word, and the exit
/// status.
pub(super) fn print_beginning<O: Sink>(
    alloc: Global,
    out: &mut O,
    label: FontLabel<'_>,
    profile: &str,
    status: u8,
) -> Result<(), CommandFault>
    ensures written { OnOk result (Appends (O.contents out.old) (O.contents out.new)
        (beginning (label_of label.entry) profile.now status)) }
    ensures failures { TellsFailure result (O.failures out.old) (O.failures out.new) }
{
    let file = quoted_text(alloc, label.file)?;
    let face = FaceMember { face: label.face };
    write!(
        out,
        "{{\"version\":1,\"tool\":{{\"name\":\"hintcheck\",\"version\":\"0.9.0\"}},\"file\":{file}{face},\"profile\":\"{profile}\",\"status\":{status},"
    )?;
    Ok(())
}

/// Returns a refused program as an object tells it, with the name that the font has for its glyph.
fn refused_as<'a>(names: &GlyphNames<'a>, refused: &Refused) -> RefusedObject<'a> {
    RefusedObject {
        program: Shown(refused.program),
        glyph: called(names, refused.program),
        place: Shown(refused.place.program),
        offset: refused.place.offset,
        reason: refused.reason.number(),
        name: Shown(refused.reason),
        class: text_of_class(refused.reason),
        certain: None,
        operand: None,
        calls: None,
    }
}

/// Returns the object of a refused program, with the name that the font has for its glyph.
fn object_of(
    alloc: Global,
    names: &GlyphNames<'_>,
    refused: &Refused,
) -> Result<String, AllocError> {
    json_text(alloc, &refused_as(names, refused))
}

/// Returns an operand as an object tells it.
fn operand_as(operand: Operand) -> OperandObject {
    let known = operand.range.filter(|(least, greatest)| least == greatest);
    let unsure = operand.range.filter(|(least, greatest)| least < greatest);
    OperandObject {
        kind: operand.kind,
        number: known.map(|range| range.0),
        least: unsure.map(|range| range.0),
        greatest: unsure.map(|range| range.1),
        zone: operand.zone,
        count: operand.count,
    }
}

/// Returns open calls as objects tell them, if there are some.
fn calls_as(alloc: Global, calls: &[OpenedCall]) -> Result<Option<Vec<CallObject>>, AllocError> {
    if calls.is_empty() {
        return Ok(None);
    }
    let mut objects = Vec::new(alloc);
    for call in calls {
        objects.push(CallObject {
            place: Shown(call.at.program),
            offset: call.at.offset,
            function: call.function,
            body: Shown(call.body.program),
            start: call.body.offset,
        })?;
    }
    Ok(Some(objects))
}

/// Returns the object of a refused program of the font in these bytes, with these details.
pub(super) fn refused_object(
    alloc: Global,
    font: &[u8],
    refused: &Refused,
    details: &Details,
) -> Result<String, AllocError> {
    let names = GlyphNames::of(alloc, font)?;
    let object = RefusedObject {
        certain: details.is_certain.then_some(true),
        operand: details.operand.map(operand_as),
        calls: calls_as(alloc, &details.calls)?,
        ..refused_as(&names, refused)
    };
    json_text(alloc, &object)
}

/// Prints the objects of refused programs of the font in these bytes, with commas between them.
fn print_refused<O: Sink>(
    alloc: Global,
    out: &mut O,
    font: &[u8],
    refused: &[Refused],
) -> Result<(), CommandFault>
    ensures kept { OnOk result (AppendsOnly (O.contents out.old) (O.contents out.new)) }
    ensures failures { TellsFailure result (O.failures out.old) (O.failures out.new) }
{
    let names = GlyphNames::of(alloc, font)?;
    let mut is_first = true;
    for one in refused {
        let object = object_of(alloc, &names, one)?;
        let comma = if is_first { "" } else { "," };
        write!(out, "{comma}{object}")?;
        is_first = false;
    }
    Ok(())
}

/// Returns the members of an object that tell what more is asked for of a font, each with a comma before
/// it.
fn more_members(
    alloc: Global,
    font: ScannedFont<'_>,
    options: ScanOptions,
) -> Result<String, AllocError> {
    let mut text = String::new(alloc);
    if options.has_causes {
        text.push_str(&causes_member(alloc, font.judged.verdict.refused())?)?;
    }
    text.push_str(&needs_member(alloc, font.bytes, font.judged.by, options.needs)?)?;
    Ok(text)
}

/// Prints the object of a font file, whose verdict gives this exit status.
pub(super) fn print_verdict_object<O: Sink>(
    alloc: Global,
    out: &mut O,
    font: ScannedFont<'_>,
    options: ScanOptions,
    status: u8,
) -> Result<(), CommandFault>
    ensures written { OnOk result (WritesFirst (beginning (label_of font.entry.label)
        (request_name font.entry.judged.now.by) status)
        (O.contents out.old) (O.contents out.new)) }
    ensures failures { TellsFailure result (O.failures out.old) (O.failures out.new) }
{
    let verdict = &font.judged.verdict;
    let programs = verdict.programs();
    let more = more_members(alloc, font, options)?;
    print_beginning(
        alloc,
        out,
        font.label,
        name_of_request(font.judged.by),
        status,
    )?;
    write!(out, "\"programs\":{programs},\"refused\":[")?;
    print_refused(alloc, out, font.bytes, verdict.refused())?;
    writeln!(out, "]{more}}}")?;
    Ok(())
}

/// Returns the number of the fault, if a font file can have it.
fn fault_number(fault: &CommandFault) -> Option<u8> {
    match fault {
        CommandFault::Font(font, _) => Some(font.number()),
        CommandFault::Collection(collection) => Some(collection.number()),
        CommandFault::ManyFaces(_) => Some(16),
        CommandFault::Unopened(..) | CommandFault::TooLong(..) | CommandFault::Read => Some(44),
        CommandFault::OutOfMemory => Some(9),
        CommandFault::Budget => Some(46),
        _ => None,
    }
}

/// Returns the number and the text of the fault, if a font file can have it.
fn fault_object(alloc: Global, fault: &CommandFault) -> Result<Option<FaultObject>, AllocError> {
    let Some(number) = fault_number(fault) else {
        return Ok(None);
    };
    let whole = format!(in alloc; "{}", WholeFault(fault))?;
    // The number is a member of its own.
    let text = match whole.split_once(' ') {
        Some((_number, text)) => String::from_str(alloc, text)?,
        None => whole,
    };
    Ok(Some(FaultObject { number, text }))
}

/// Returns the number and the text of the fault as JSON, or `null` where a font file can't have it.
fn fault_text(alloc: Global, fault: &CommandFault) -> Result<String, AllocError> {
    json_text(alloc, &fault_object(alloc, fault)?)
}

/// Prints the object of a font file with this fault, for which a verdict of this profile was asked.
pub(super) fn print_fault_object<O: Sink>(
    alloc: Global,
    out: &mut O,
    label: FontLabel<'_>,
    fault: &CommandFault,
    profile: Profile,
) -> Result<(), CommandFault>
    ensures written { OnOk result (WritesFirst (beginning (label_of label.entry)
        (profile_name profile) (status_of fault.now)) (O.contents out.old) (O.contents out.new)) }
    ensures failures { TellsFailure result (O.failures out.old) (O.failures out.new) }
{
    let told = fault_text(alloc, fault)?;
    print_beginning(alloc, out, label, name_of_profile(profile), fault.status())?;
    writeln!(out, "\"fault\":{told}}}")?;
    Ok(())
}
