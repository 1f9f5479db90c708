//! The names of font files that other files list, each ended by a line feed or by a NUL.

ghost use Rattle.std.specs.Prelude.{IfErr};
ghost use Rattle.hintcheck.specs.Commands.{IsNoWriteFault};

use super::faults::{CommandFault, FileWord};
use super::files::file_bytes;
use std::alloc::{AllocError, Global};
use std::fmt;
use std::rt::Files;

/// The file that `-` stands for: the standard input.
const STANDARD_INPUT: &str = "/dev/stdin";

/// Returns the name of the file that a word names.
fn list_called(word: &str) -> &str {
    if word == "-" { STANDARD_INPUT } else { word }
}

/// A name that isn't UTF-8, as its line tells it: the bytes that aren't printed by their digits, and at
/// the end a NUL. No file's name has one, so that no file is found by this text: not even one that has
/// the digits in its name.
#[derive(Clone, Copy)]
struct OtherName<'a>(&'a [u8]);

impl fmt::Display for OtherName<'_> {
    fn fmt<W: fmt::Write>(&self, f: &mut fmt::Formatter<W>) -> fmt::Result {
        for &byte in self.0 {
            if byte.is_ascii_graphic() || byte == b' ' {
                write!(f, "{}", char::from(byte))?;
            } else {
                write!(f, "\\x{byte:02x}")?;
            }
        }
        f.write_str("\0")
    }
}

/// Returns a listed name as a text.
fn text_of(alloc: Global, name: &[u8]) -> Result<String, AllocError> {
    match str::from_utf8(name) {
        Ok(text) => String::from_str(alloc, text),
        Err(_) => match format!(in alloc; "{}", OtherName(name)) {
            Ok(text) => Ok(text),
            Err(_) => Err(AllocError),
        },
    }
}

/// Adds the names that these bytes list to the others, each up to this byte; an empty one is none.
fn add_names(
    alloc: Global,
    names: &mut Vec<String>,
    bytes: &[u8],
    ending: u8,
) -> Result<(), AllocError> {
    let mut start = 0;
    for end in 0..bytes.len() + 1 {
        if end < bytes.len() && bytes[end] != ending {
            continue;
        }
        if start < end {
            names.push(text_of(alloc, &bytes[start..end])?)?;
        }
        start = end + 1;
    }
    Ok(())
}

/// Returns the names of font files that the files with these names list, each up to this byte.
///
/// # Errors
/// `Unopened`, `TooLong` and `Read` where one of them can't be opened or read; `OutOfMemory`.
pub(super) fn listed_names<R: Files + AllocGlobal>(
    rt: &R,
    lists: &[String],
    ending: u8,
    max_bytes: u64,
) -> Result<Vec<String>, CommandFault>
    ensures { IfErr result IsNoWriteFault }
{
    let alloc = rt.alloc();
    let mut names = Vec::new(alloc);
    for (number, list) in lists.iter().enumerate() {
        let word = FileWord::List(number);
        let bytes = file_bytes(rt, list_called(list), word, max_bytes)?;
        add_names(alloc, &mut names, &bytes, ending)?;
    }
    Ok(names)
}
