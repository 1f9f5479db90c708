//! The numbers that a push instruction pushes, as they are listed.

ghost use Rattle.std.specs.Prelude.{◌≡◌, flat_map, map, OnOk, pos};
ghost use Rattle.std.specs.Io.KnownBytes.{Appends};
ghost use Rattle.tt_code.specs.Computing.{numbers_in, word_number, words};
ghost use Rattle.tt_stream.specs.Streams.{CountsPrintFailure};
ghost use Rattle.hintcheck.specs.Listing.{numbers_of, shown_numbers, spaced};

use hintcheck_words::Detail;
use tt_code::kinds::{Effect, Push};
use tt_code::{Instr, entry};
use tt_stream::{PrintFailed, Sink};

/// Returns the signed number of a word of two bytes.
fn word_of(high: u8, low: u8) -> i32
    ensures { result ≡ word_number high low }
{
    let number = 256 * i32::from(high) + i32::from(low);
    if high < 128 { number } else { number - 65536 }
}

/// Prints a number after a space.
#[tactic(auto, unfolding(crate::specs::Listing::spaced))]
fn print_number<O: Sink>(out: &mut O, number: i32) -> Result<(), PrintFailed>
    ensures written { OnOk result
        (Appends (O.contents out.old) (O.contents out.new) (spaced number)) }
    ensures failures { CountsPrintFailure result (O.failures out.old) (O.failures out.new) }
{
    write!(out, " {number}")
}

/// Prints the signed number of a word of two bytes after a space.
fn print_word<O: Sink>(out: &mut O, high: u8, low: u8) -> Result<(), PrintFailed>
    ensures written { OnOk result (Appends (O.contents out.old) (O.contents out.new)
        (spaced (word_number high low))) }
    ensures failures { CountsPrintFailure result (O.failures out.old) (O.failures out.new) }
{
    print_number(out, word_of(high, low))
}

/// Prints the numbers of bytes, one after the other.
fn print_bytes<O: Sink>(out: &mut O, bytes: &[u8]) -> Result<(), PrintFailed>
    ensures written { OnOk result (Appends (O.contents out.old) (O.contents out.new)
        (flat_map spaced (map pos bytes.now))) }
    ensures failures { CountsPrintFailure result (O.failures out.old) (O.failures out.new) }
{
    for byte in bytes {
        print_number(out, i32::from(*byte))?;
    }
    Ok(())
}

/// Prints the numbers of words of two bytes, one after the other.
fn print_words<O: Sink>(out: &mut O, bytes: &[u8]) -> Result<(), PrintFailed>
    ensures written { OnOk result (Appends (O.contents out.old) (O.contents out.new)
        (flat_map spaced (words bytes.now))) }
    ensures failures { CountsPrintFailure result (O.failures out.old) (O.failures out.new) }
{
    let mut rest = bytes;
    while let [high, low, after @ ..] = rest {
        print_word(out, *high, *low)?;
        rest = after;
    }
    Ok(())
}

/// Prints the numbers that the data of a push instruction spell.
fn print_data<O: Sink>(out: &mut O, push: Push, bytes: &[u8]) -> Result<(), PrintFailed>
    ensures written { OnOk result (Appends (O.contents out.old) (O.contents out.new)
        (flat_map spaced (numbers_in push bytes.now))) }
    ensures failures { CountsPrintFailure result (O.failures out.old) (O.failures out.new) }
{
    match push {
        Push::CountedBytes => print_bytes(out, bytes),
        Push::Bytes(_) => print_bytes(out, bytes),
        Push::CountedWords => print_words(out, bytes),
        Push::Words(_) => print_words(out, bytes),
    }
}

/// Prints the numbers that an instruction pushes, none where it is no push instruction.
fn print_pushed<O: Sink>(out: &mut O, instruction: &Instr<'_>) -> Result<(), PrintFailed>
    ensures written { OnOk result (Appends (O.contents out.old) (O.contents out.new)
        (flat_map spaced (numbers_of instruction.now))) }
    ensures failures { CountsPrintFailure result (O.failures out.old) (O.failures out.new) }
{
    match entry(instruction.code()) {
        Effect::Push(push) => print_data(out, *push, instruction.data()),
        _ => Ok(()),
    }
}

/// Prints what a line of this detail tells after the instruction's name.
pub(crate) fn print_numbers<O: Sink>(
    out: &mut O,
    detail: Detail,
    instruction: &Instr<'_>,
) -> Result<(), PrintFailed>
    ensures written { OnOk result (Appends (O.contents out.old) (O.contents out.new)
        (shown_numbers detail instruction.now)) }
    ensures failures { CountsPrintFailure result (O.failures out.old) (O.failures out.new) }
{
    match detail {
        Detail::Names => Ok(()),
        Detail::Numbers => print_pushed(out, instruction),
    }
}
