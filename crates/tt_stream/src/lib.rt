//! Readers and writers whose failed calls are counted. Only contracts see the count.
#![tactic(auto)]

ghost use Rattle.std.specs.Prelude.{◌≡◌, ℕ, ◌+◌, ◌<◌, ◌≤◌, List, [], Option, drop, length, take, IfOk, IfSome, OnErr, OnOk};
ghost use Rattle.std.specs.Io.{ReadsAtMost, StartsWith, WritesAtMost};
ghost use Rattle.std.specs.Io.KnownBytes.{Consumes, ReadConsumes, WriteAppends, Appends};
ghost use Rattle.tt_stream.specs.Reads.{GivesAhead};
ghost use Rattle.tt_stream.specs.Streams.{AppendsBeginning, AppendsBeginningOfText, AppendsOnly, AppendsText, CountsFailure, CountsPrintFailure, Tally};

mod buffered;
mod bytes;
mod reads;
mod text;
mod ticks;

pub use buffered::Buffered;
pub use bytes::Bytes;
pub use reads::{ReadFault, read_all, read_full};
use std::fmt::Display;
use std::io::{Read, Write};
use std::marker::Model;
pub use text::{PrintFailed, print};
use thiserror::Error;
use ticks::Ticks;

/// How many bytes are read at a time where they are skipped by reading them.
const SKIPPED: usize = 64;

/// A read failed.
#[derive(Clone, Copy, Debug, PartialEq, Eq, Error)]
#[error("read")]
pub struct ReadFailed;

/// A write failed, or took no byte though there was one.
#[derive(Clone, Copy, Debug, PartialEq, Eq, Error)]
#[error("write")]
pub struct WriteFailed;

/// What bytes are read from.
pub trait Source {
    /// The bytes that are left, if they are known.
    ghost remaining: { Self → Option (List ℕ) };

    /// How many calls have failed.
    ghost failures: { Self → ℕ };

    /// The bytes that are read ahead: the first of those that are left, which are given without a
    /// call that can fail. There are none unless an implementor says which.
    ghost read_ahead: { Self → List ℕ } = { λ _. [] };

    /// Reads some bytes into the front of `buf` and returns how many: 0 only at the end, or where
    /// `buf` has no room.
    ///
    /// # Errors
    /// If the read fails; then no byte was read.
    fn read(&mut self, buf: &mut [u8]) -> Result<usize, ReadFailed>
        ensures bound { ReadsAtMost result buf.new }
        ensures bytes { ReadConsumes (remaining self.old) (remaining self.new) result buf.new }
        ensures ahead { GivesAhead result (read_ahead self.old) (read_ahead self.new) buf.new }
        ensures failures { CountsFailure result (failures self.old) (failures self.new) };

    /// Returns the first of the bytes that are read ahead, with which those that are left begin.
    /// By default it shows none of them.
    fn ahead(&self) -> &[u8]
        ensures value { StartsWith (read_ahead self.now) result.now }
        ensures front { IfSome (remaining self.now) (λ bytes. StartsWith bytes result.now) }
    {
        &[]
    }

    /// Takes the first `count` of the bytes that are read ahead. By default it reads them, and no
    /// such read fails.
    fn skip(&mut self, count: usize)
        requires { count ≤ length (read_ahead self.old) }
        ensures bytes { Consumes (remaining self.old) (remaining self.new)
            (take count (read_ahead self.old)) }
        ensures ahead { read_ahead self.new ≡ drop count (read_ahead self.old) }
        ensures failures { failures self.new ≡ failures self.old }
    {
        let mut left = count;
        while left > 0 {
            let mut bytes = [0; SKIPPED];
            let room = left.min(SKIPPED);
            let Ok(taken) = self.read(&mut bytes[..room]) else {
                unreachable!()
            };
            left -= taken;
        }
    }
}

/// What bytes are written to.
pub trait Sink {
    /// The bytes that it holds, if they are known.
    ghost contents: { Self → Option (List ℕ) };

    /// How many calls have failed.
    ghost failures: { Self → ℕ };

    /// Takes some bytes from the front of `buf`, at least one where there is one, and returns how
    /// many.
    ///
    /// # Errors
    /// If the write fails; then no byte was taken.
    fn write(&mut self, buf: &[u8]) -> Result<usize, WriteFailed>
        ensures bound { WritesAtMost result buf.now }
        ensures progress { IfOk result (λ n. 0 < length buf.now → 0 < n) }
        ensures bytes { WriteAppends (contents self.old) (contents self.new) result buf.now }
        ensures failures { CountsFailure result (failures self.old) (failures self.new) };

    /// Writes the text without allocating. `write!` and `writeln!` call it.
    ///
    /// # Errors
    /// If a write fails, or the text can't be rendered (`PrintFailed`); then a beginning of the
    /// text was written.
    final fn write_fmt<D: Display + Drop>(&mut self, text: D) -> Result<(), PrintFailed>
    where
        Self: Sized,
        ensures written { OnOk result
            (AppendsText (D.output text) (contents self.old) (contents self.new)) }
        ensures beginning { OnErr result
            (AppendsBeginningOfText (D.output text) (contents self.old) (contents self.new)) }
        ensures kept { AppendsOnly (contents self.old) (contents self.new) }
        ensures failures { CountsPrintFailure result (failures self.old) (failures self.new) }
    {
        print(self, &text)
    }
}

/// A reader or a writer of the standard library whose failed calls are counted. The count takes
/// no memory: only contracts see it.
#[derive(Drop)]
pub struct Counted<T> {
    /// The reader or writer.
    inner: T,
    /// A tick for each call that has failed.
    failures: Ticks,
}

impl<T> Model for Counted<T> {
    ghost Value = { Tally T };

    ghost view = { λ c. record { inner = c.inner; failures = c.failures } };
}

impl<T> Counted<T> {
    /// Wraps the reader or writer. None of its calls has failed so far.
    pub fn new(inner: T) -> Self
        ensures inner { result.inner ≡ inner }
        ensures failures { result.failures ≡ 0 }
    {
        Counted {
            inner,
            failures: Ticks::none(),
        }
    }

    /// Returns the reader or writer.
    pub fn into_inner(self) -> T
        ensures { result ≡ self.inner }
    {
        let Counted { inner, failures: _ } = self;
        inner
    }
}

impl<R: Read> Source for Counted<R> {
    ghost remaining = { λ c. R.remaining c.inner };

    ghost failures = { λ c. c.failures };

    fn read(&mut self, buf: &mut [u8]) -> Result<usize, ReadFailed> {
        match self.inner.read(buf) {
            Ok(count) => Ok(count),
            Err(_) => {
                self.failures.tick();
                Err(ReadFailed)
            }
        }
    }
}

impl<W: Write> Sink for Counted<W> {
    ghost contents = { λ c. W.contents c.inner };

    ghost failures = { λ c. c.failures };

    fn write(&mut self, buf: &[u8]) -> Result<usize, WriteFailed> {
        match self.inner.write(buf) {
            Ok(count) if count > 0 || buf.is_empty() => Ok(count),
            _ => {
                self.failures.tick();
                Err(WriteFailed)
            }
        }
    }
}

/// Writes all of the bytes.
///
/// # Errors
/// If a write fails; then a beginning of the bytes was written.
pub fn write_all<W: Sink>(sink: &mut W, bytes: &[u8]) -> Result<(), WriteFailed>
    ensures written { OnOk result (Appends (W.contents sink.old) (W.contents sink.new) bytes.now) }
    ensures beginning { OnErr result
        (AppendsBeginning (W.contents sink.old) (W.contents sink.new) bytes.now) }
    ensures failures { CountsFailure result (W.failures sink.old) (W.failures sink.new) }
{
    let mut at = 0;
    while at < bytes.len() {
        at += sink.write(&bytes[at..])?;
    }
    Ok(())
}
