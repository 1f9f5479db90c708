//! Printing to a sink without allocating: a text is rendered a window at a time.

ghost use Rattle.std.specs.Prelude.{◌≡◌, ◌≤◌, [], length, take, drop, IfSome, IfErr, OnOk, IfOk, OnErr};
ghost use Rattle.tt_stream.specs.Streams.{AppendsText, AppendsBeginningOfText, AppendsOnly, CountsPrintFailure};
ghost use Rattle.tt_stream.specs.declared.text.TheConstants.{ROOM};
ghost use Rattle.tt_stream.specs.Representation.Windows.{Part, TakesPiece};

use crate::{Sink, WriteFailed, write_all};
use std::fmt;
use std::fmt::{Display, Formatter};
use std::marker::Model;
use thiserror::Error;

/// How many bytes of a text are rendered at a time.
const ROOM: usize = 256;

/// Why a value wasn't printed.
#[derive(Clone, Copy, Debug, PartialEq, Eq, Error)]
pub enum PrintFailed {
    /// A write failed.
    #[error("write")]
    Write,
    /// The value's own `Display` failed, or its text was too long to count.
    #[error("format")]
    Format,
}

impl From<WriteFailed> for PrintFailed {
    ghost use Rattle.tt_stream.specs.declared.text.PrintFailed.TheVariants.{Write};

    ghost from_gives = { λ _ e. e ≡ Write };

    fn from(_failed: WriteFailed) -> PrintFailed {
        PrintFailed::Write
    }
}

/// The part of a text after the bytes that are skipped, as far as there is room.
#[derive(Drop)]
struct Window {
    /// The room for the part.
    bytes: [u8; ROOM],
    /// How many bytes are in it.
    len: usize,
    /// How many bytes of the text are still to be skipped.
    skip: usize,
}

impl Model for Window {
    ghost Value = { Part };

    ghost view = { λ w. record { skip = w.skip; kept = take w.len w.bytes } };

    ghost invariant = { λ w. w.len ≤ ROOM };
}

impl Window {
    /// Makes the window after the first `skip` bytes of a text, with nothing in it yet.
    fn new(skip: usize) -> Window
        ensures skip { result.skip ≡ skip }
        ensures empty { result.kept ≡ [] }
    {
        Window {
            bytes: [0; ROOM],
            len: 0,
            skip,
        }
    }

    /// Returns the bytes that are in the window.
    fn as_bytes(&self) -> &[u8]
        ensures { result.now ≡ self.now.kept }
    {
        &self.bytes[..self.len]
    }
}

impl fmt::Write for Window {
    ghost write_str_gives = { TakesPiece ROOM };

    fn write_str(&mut self, s: &str) -> fmt::Result {
        let bytes = s.as_bytes();
        let skipped = self.skip.min(bytes.len());
        let rest = &bytes[skipped..];
        let count = rest.len().min(ROOM - self.len);
        let end = self.len + count;
        self.bytes[self.len..end].copy_from_slice(&rest[..count]);
        self.len = end;
        self.skip -= skipped;
        Ok(())
    }
}

/// Renders the part of the value's text that the window after its first `skip` bytes shows.
///
/// # Errors
/// `Format` if the value's own `Display` fails.
fn render<D: Display>(value: &D, skip: usize) -> Result<Window, PrintFailed>
    ensures text { IfOk result (λ w.
        IfSome (D.output value.now) (λ text. w.kept ≡ take ROOM (drop skip text))) }
    ensures failed { IfErr result (λ e. e ≡ PrintFailed.Format) }
{
    let mut formatter = Formatter::new(Window::new(skip));
    match formatter.write(value) {
        Ok(()) => Ok(formatter.into_inner()),
        Err(_) => Err(PrintFailed::Format),
    }
}

/// Writes the value's text.
///
/// # Errors
/// `Write` if a write fails, `Format` if the value's own `Display` fails or its text has 2^64 - 256
/// bytes or more; then a beginning of the text was written.
pub fn print<W: Sink, D: Display>(sink: &mut W, value: &D) -> Result<(), PrintFailed>
    ensures written { OnOk result
        (AppendsText (D.output value.now) (W.contents sink.old) (W.contents sink.new)) }
    ensures beginning { OnErr result
        (AppendsBeginningOfText (D.output value.now) (W.contents sink.old) (W.contents sink.new)) }
    ensures kept { AppendsOnly (W.contents sink.old) (W.contents sink.new) }
    ensures failures { CountsPrintFailure result (W.failures sink.old) (W.failures sink.new) }
{
    let mut skip = 0usize;
    while let Some(next) = skip.checked_add(ROOM) {
        let window = render(value, skip)?;
        write_all(sink, window.as_bytes())?;
        if window.as_bytes().len() < ROOM {
            return Ok(());
        }
        skip = next;
    }
    Err(PrintFailed::Format)
}
