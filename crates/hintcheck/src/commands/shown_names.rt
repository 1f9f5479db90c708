//! The names of files as lines show them.

ghost use Rattle.std.specs.Prelude.{flat_map, OnOk};
ghost use Rattle.std.specs.Io.KnownBytes.{Appends};
ghost use Rattle.tt_stream.specs.Streams.{CountsPrintFailure};
ghost use Rattle.hintcheck.specs.Scans.{shown_byte};

use super::font_label::FontLabel;
use crate::instruction_list::Digits;
use std::fmt;
use tt_stream::{PrintFailed, Sink, write_all};

/// Prints a byte of a name: a control byte by its digits.
fn print_byte<O: Sink>(out: &mut O, byte: u8) -> Result<(), PrintFailed>
    ensures written { OnOk result
        (Appends (O.contents out.old) (O.contents out.new) (shown_byte byte)) }
    ensures failures { CountsPrintFailure result (O.failures out.old) (O.failures out.new) }
{
    let bytes = [byte];
    if byte.is_ascii_control() {
        return write!(out, "\\x{}", Digits(&bytes));
    }
    match write_all(out, &bytes) {
        Ok(()) => Ok(()),
        Err(_) => Err(PrintFailed::Write),
    }
}

/// Prints the bytes of a name.
fn print_bytes<O: Sink>(out: &mut O, name: &[u8]) -> Result<(), PrintFailed>
    ensures written { OnOk result (Appends (O.contents out.old) (O.contents out.new)
        (flat_map shown_byte name.now)) }
    ensures failures { CountsPrintFailure result (O.failures out.old) (O.failures out.new) }
{
    for byte in name {
        print_byte(out, *byte)?;
    }
    Ok(())
}

/// Prints the name of a file, with its control bytes as `\x0a`, so that no name ends a line.
pub(super) fn print_shown<O: Sink>(out: &mut O, name: &str) -> Result<(), PrintFailed>
    ensures written { OnOk result (Appends (O.contents out.old) (O.contents out.new)
        (flat_map shown_byte name.now)) }
    ensures failures { CountsPrintFailure result (O.failures out.old) (O.failures out.new) }
{
    print_bytes(out, name.as_bytes())
}

/// A letter of a name, a control byte by its digits.
#[derive(Clone, Copy)]
struct ShownLetter(char);

impl fmt::Display for ShownLetter {
    fn fmt<W: fmt::Write>(&self, f: &mut fmt::Formatter<W>) -> fmt::Result {
        let letter = self.0;
        match u8::try_from(letter) {
            Ok(byte) if byte.is_ascii_control() => write!(f, "\\x{}", Digits(&[byte])),
            _ => write!(f, "{letter}"),
        }
    }
}

/// What a font file is called in a line that no definition tells: its control bytes are told as `\x0a`.
#[derive(Clone, Copy)]
pub(super) struct Shown<'a>(pub FontLabel<'a>);

impl fmt::Display for Shown<'_> {
    fn fmt<W: fmt::Write>(&self, f: &mut fmt::Formatter<W>) -> fmt::Result {
        for letter in self.0.file.chars() {
            write!(f, "{}", ShownLetter(letter))?;
        }
        match self.0.face {
            Some(number) => write!(f, "#{number}"),
            None => Ok(()),
        }
    }
}
