//! The instructions of one program of a font, a line for each.

ghost use Rattle.std.specs.Prelude.{◌≡◌, ◌≢◌, ◌↔◌, ℕ, ◌++◌, ◌<◌, ◌≤◌, ◌^◌, List, IfErr, IfNone, IfOk, IfSome, IsTrue, OnOk, Some, length, option_map};
ghost use Rattle.std.specs.Fmt.{decimal};
ghost use Rattle.std.specs.Io.KnownBytes.{Appends};
ghost use Rattle.std.specs.List.{AllByRecursion};
ghost use Rattle.tt_code.specs.Cut.{IsInstruction};
ghost use Rattle.tt_stream.specs.Streams.{CountsPrintFailure};
ghost use Rattle.hintcheck.specs.Commands.{TellsFailure};
ghost use Rattle.hintcheck.specs.Listing.{Calls, CannotBeListed, HoldListedProgram, HoldToldProgram, HoldUnlistedProgram, IsListed, IsNameOf, IsOf16Bits, IsPlain, Names, TellsUnlisted, last_line, line_of, lines_of, program_in, refused_in, shown_name};
ghost use Rattle.tt_setting.specs.Names.{text_of};

use crate::commands::faults::CommandFault;
use crate::font_file::font_in;
use crate::pushed_numbers::print_numbers;
use hintcheck_programs::program::cut;
use hintcheck_programs::report::{Name, Place, Refused};
use hintcheck_words::Detail;
use std::alloc::{AllocError, Global};
use std::fmt;
use tt_abs::Refusal;
use tt_code::{Instr, Program, Reason, name};
use tt_font::Font;
use tt_names::GlyphNames;
use tt_stream::{PrintFailed, Sink};

/// The exit status where the program is listed.
const LISTED: u8 = 0;

/// The exit status where the program can't be cut or isn't structured.
const UNLISTED: u8 = 1;

/// Whether the text has no plus sign in front, and no zero there except as its only digit.
fn is_plain(text: &[u8]) -> bool
    ensures { IsTrue result ↔ IsPlain text.now }
{
    match text {
        [b'+', ..] => false,
        [b'0', ..] => text.len() == 1,
        _ => true,
    }
}

/// Returns the number of 32 bits that the text spells in decimal digits, with no sign and no
/// needless zero in front, if it spells one.
pub(crate) fn read_decimal(text: &str) -> Option<u32>
    ensures read { IfSome result (λ number. text.now ≡ decimal number) }
    ensures range { IfSome result (λ number. number < 2 ^ 32) }
    ensures each { (number : ℕ) → number < 2 ^ 32 → text.now ≡ decimal number
        → result ≡ Some number }
{
    if !is_plain(text.as_bytes()) {
        return None;
    }
    text.parse::<u32>().ok()
}

/// Returns the number of 16 bits that the text spells likewise, if it spells one.
pub(crate) fn read_number(text: &str) -> Option<u16>
    ensures read { IfSome result (λ number. text.now ≡ decimal number) }
    ensures range { IfSome result (λ number. number < 2 ^ 16) }
    ensures each { (number : ℕ) → number < 2 ^ 16 → text.now ≡ decimal number
        → result ≡ Some number }
{
    u16::try_from(read_decimal(text)?).ok()
}

/// Returns the number of the glyph whose program's name the word spells, if it spells one's.
fn read_glyph(word: &str) -> Option<u16>
    ensures read { IfSome result (λ number. word.now ≡ text_of (Name.Glyph number)) }
    ensures range { IfSome result (λ number. number < 2 ^ 16) }
    ensures each { (number : ℕ) → number < 2 ^ 16 → word.now ≡ text_of (Name.Glyph number)
        → result ≡ Some number }
{
    read_number(word.strip_prefix("g")?)
}

/// Returns the program's name that the word spells, as names are printed, if it spells one.
pub(crate) fn read_name(word: &str) -> Option<Name>
    ensures read { IfSome result (λ name. word.now ≡ text_of name) }
    ensures range { IfSome result IsOf16Bits }
    ensures each { (name : Name) → IsOf16Bits name → word.now ≡ text_of name → result ≡ Some name }
{
    match word {
        "f" => Some(Name::Font),
        "p" => Some(Name::Cvt),
        _ => Some(Name::Glyph(read_glyph(word)?)),
    }
}

/// Returns the program that the word names, as names are printed or by the table that holds it, if it
/// names one.
fn named_by(word: &str) -> Option<Name>
    ensures read { IfSome result (IsNameOf word.now) }
    ensures range { IfSome result IsOf16Bits }
    ensures each { (name : Name) → IsOf16Bits name → IsNameOf word.now name
        → result ≡ Some name }
{
    match word {
        "fpgm" => Some(Name::Font),
        "prep" => Some(Name::Cvt),
        _ => read_name(word),
    }
}

/// Returns the bytes of the font's program of this name, if the font has it.
fn program_of<'a>(font: &Font<'a>, name: Name) -> Option<&'a [u8]>
    ensures { option_map (λ program. program.now) result ≡ program_in font.now name }
{
    match name {
        Name::Font => Some(font.fpgm()),
        Name::Cvt => Some(font.prep()),
        Name::Glyph(id) => font.glyph(id).map(|glyph| glyph.program),
    }
}

/// A program of a font.
#[derive(Clone, Copy)]
pub(crate) struct Named<'a> {
    pub(crate) name: Name,
    pub(crate) bytes: &'a [u8],
}

/// Returns the name of the program that the word means in the font in these bytes, if it means one:
/// the one whose name it is, or else the first glyph's that has this name.
fn meant_program(alloc: Global, bytes: &[u8], word: &str) -> Result<Option<Name>, AllocError>
    ensures { IfOk result (λ meant. IfSome meant (Calls bytes.now word.now)) }
{
    if let Some(name) = named_by(word) {
        return Ok(Some(name));
    }
    let names = GlyphNames::of(alloc, bytes)?;
    Ok(names.glyph_named(word).map(Name::Glyph))
}

/// Returns the program that the word calls, of the font that was read from these bytes, if there is
/// one.
///
/// # Errors
/// If memory runs out.
pub(crate) fn named_program<'a>(
    alloc: Global,
    bytes: &[u8],
    font: &Font<'a>,
    word: &str,
) -> Result<Option<Named<'a>>, AllocError>
    ensures there { IfOk result (λ found. IfSome found
        (λ named. Names bytes.now word.now font.now named.bytes.now)) }
    ensures text { IfOk result (λ found. IfSome found
        (λ named. Calls bytes.now word.now named.name)) }
    ensures program { IfOk result (λ found. IfSome found
        (λ named. program_in font.now named.name ≡ Some named.bytes.now)) }
{
    let Some(name) = meant_program(alloc, bytes, word)? else {
        return Ok(None);
    };
    let Some(bytes) = program_of(font, name) else {
        return Ok(None);
    };
    Ok(Some(Named { name, bytes }))
}

/// Bytes, two hexadecimal digits for each.
#[derive(Drop)]
pub(crate) struct Digits<'a>(pub &'a [u8]);

impl fmt::Display for Digits<'_> {
    ghost use Rattle.std.specs.Prelude.{Some};
    ghost use Rattle.hintcheck.specs.Listing.{hex_digits};

    ghost output = { λ digits. Some (hex_digits digits.0.now) };

    fn fmt<W: fmt::Write>(&self, f: &mut fmt::Formatter<W>) -> fmt::Result {
        for &byte in self.0 {
            write!(f, "{byte:02x}")?;
        }
        Ok(())
    }
}

/// Returns the name of the instruction's code, `?` where it has none.
fn name_of(instruction: &Instr<'_>) -> &'static str
    ensures { result.now ≡ shown_name instruction.now }
{
    match name(instruction.code()) {
        Some(name) => name,
        None => "?",
    }
}

/// Prints an instruction's line: its offset, its bytes, its name, and where they are asked for the
/// numbers that it pushes.
fn print_instruction<O: Sink>(
    out: &mut O,
    detail: Detail,
    offset: u32,
    instruction: &Instr<'_>,
) -> Result<(), PrintFailed>
    ensures written { OnOk result (Appends (O.contents out.old) (O.contents out.new)
        (line_of detail offset instruction.now)) }
    ensures failures { CountsPrintFailure result (O.failures out.old) (O.failures out.new) }
{
    let digits = Digits(instruction.bytes());
    let name = name_of(instruction);
    write!(out, "{offset}: {digits} {name}")?;
    print_numbers(out, detail, instruction)?;
    writeln!(out)
}

/// Prints the line after those of the instructions.
fn print_last_line<O: Sink>(out: &mut O, program: &Program<'_>) -> Result<(), PrintFailed>
    ensures written { OnOk result
        (Appends (O.contents out.old) (O.contents out.new) (last_line program.now)) }
    ensures failures { CountsPrintFailure result (O.failures out.old) (O.failures out.new) }
{
    let length = program.len();
    writeln!(out, "end: {length}")
}

/// Prints a line for each instruction, one after the other, and a last line with the program's
/// length.
fn print_program<O: Sink>(
    out: &mut O,
    detail: Detail,
    program: &Program<'_>,
) -> Result<(), PrintFailed>
    requires { AllByRecursion IsInstruction program.now }
    ensures written { OnOk result (Appends (O.contents out.old) (O.contents out.new)
        (lines_of detail 0 program.now ++ last_line program.now)) }
    ensures failures { CountsPrintFailure result (O.failures out.old) (O.failures out.new) }
{
    let _length = program.len();
    let mut offset = 0;
    while let Some(instruction) = program.at(offset) {
        print_instruction(out, detail, offset, &instruction)?;
        offset += instruction.len();
    }
    print_last_line(out, program)
}

/// Returns the program of this name as refused at this offset of its own bytes.
fn refused_at(program: Name, offset: u32, reason: Reason) -> Refused
    ensures { result ≡ refused_in program offset reason }
{
    Refused {
        program,
        place: Place { program, offset },
        reason,
    }
}

/// Lists the program, or prints the line of its refusal, and returns the exit status.
fn list_named<O: Sink>(
    alloc: Global,
    named: Named<'_>,
    detail: Detail,
    out: &mut O,
) -> Result<u8, CommandFault>
    requires { length named.bytes.now < 2 ^ 31 }
    ensures status { IfOk result (λ status. status ≤ 1) }
    ensures listed { IfOk result (λ status. status ≡ 0
        → IsListed detail named.entry.bytes.now (O.contents out.old) (O.contents out.new)) }
    ensures unlisted { IfOk result (λ status. status ≡ 1 → CannotBeListed named.entry.bytes.now) }
    ensures told { IfOk result (λ status. status ≡ 1 → TellsUnlisted named.entry.name
        named.entry.bytes.now (O.contents out.old) (O.contents out.new)) }
    ensures failures { TellsFailure result (O.failures out.old) (O.failures out.new) }
{
    match cut(alloc, named.bytes) {
        Ok(program) => {
            print_program(out, detail, &program)?;
            Ok(LISTED)
        }
        Err(Refusal::Refused { offset, failed, .. }) => {
            let refused = refused_at(named.name, offset, failed.reason());
            writeln!(out, "{refused}")?;
            Ok(UNLISTED)
        }
        Err(Refusal::Exhausted(_)) => Err(CommandFault::OutOfMemory),
    }
}

/// Lists one program of the font in these bytes, the one that the word names, with this detail, and
/// returns the exit status: 0 listed, 1 where the program can't be cut or isn't structured, which
/// one line reports. Printing takes no memory.
///
/// # Errors
/// The faults of `Font::read`; `ProgramName` where the word is the name of none of the font's
/// programs; `Write` exactly where a write to `out` failed; `OutOfMemory`.
pub(crate) fn list_program<O: Sink>(
    alloc: Global,
    font: &[u8],
    word: &str,
    detail: Detail,
    out: &mut O,
) -> Result<u8, CommandFault>
    ensures status { IfOk result (λ status. status ≤ 1) }
    ensures listed { IfOk result (λ status. status ≡ 0
        → HoldListedProgram detail font.now word.now (O.contents out.old) (O.contents out.new)) }
    ensures unlisted { IfOk result (λ status. status ≡ 1 → HoldUnlistedProgram font.now word.now) }
    ensures told { IfOk result (λ status. status ≡ 1
        → HoldToldProgram font.now word.now (O.contents out.old) (O.contents out.new)) }
    ensures failures { TellsFailure result (O.failures out.old) (O.failures out.new) }
{
    let read = font_in(alloc, font)?;
    read.range_facts();
    match named_program(alloc, font, &read, word)? {
        Some(named) => list_named(alloc, named, detail, out),
        None => Err(CommandFault::ProgramName),
    }
}
