//! A source that reads many bytes at a time from another one, and keeps them until they are asked
//! for.

ghost use Rattle.std.specs.Prelude.{◌≡◌, ◌≢◌, ◌≤◌, ◌<◌, [], drop, length, slice_range, vec_len, IfOk, OnErr, OnOk};
ghost use Rattle.std.specs.Io.KnownBytes.{IsAtEnd, Keeps, prepend_known};
ghost use Rattle.tt_stream.specs.Reads.{ReadAhead, Refills};
ghost use Rattle.tt_stream.specs.Streams.{CountsFailure};

use crate::{ReadFailed, Source};
use std::alloc::{AllocError, Global};
use std::marker::Model;

/// How many bytes are read ahead at a time.
const ROOM: usize = 262_144;

/// A source that reads many bytes at a time from another one, and keeps them until they are asked
/// for. That one is called only where bytes are asked for and none are kept, and then once.
#[derive(Drop)]
pub struct Buffered<S> {
    /// The source below.
    source: S,
    /// The room for bytes that are read ahead.
    bytes: Vec<u8>,
    /// Where the bytes that are ahead begin.
    at: usize,
    /// Where the bytes that are ahead end.
    end: usize,
}

impl<S> Model for Buffered<S> {
    ghost Value = { ReadAhead S };

    ghost view = { λ b. record {
      source = b.source;
      ahead = slice_range b.bytes.items b.at b.end;
    } };

    ghost invariant = { λ b. (b.at ≤ b.end) × ((b.end ≤ vec_len b.bytes) × (0 < vec_len b.bytes)) };
}

impl<S: Source> Buffered<S> {
    /// Makes a source that reads from `source`, with nothing read ahead.
    ///
    /// # Errors
    /// If memory runs out; then `source` is dropped.
    pub fn new(alloc: Global, source: S) -> Result<Buffered<S>, AllocError>
    where
        S: Drop,
        ensures source { IfOk result (λ b. b.source ≡ source) }
        ensures ahead { IfOk result (λ b. b.ahead ≡ []) }
    {
        let mut bytes = Vec::with_capacity(alloc, ROOM)?;
        bytes.resize(ROOM, 0)?;
        Ok(Buffered {
            source,
            bytes,
            at: 0,
            end: 0,
        })
    }

    /// Reads ahead, where nothing is read ahead so far.
    ///
    /// # Errors
    /// If the read fails; then nothing is read ahead.
    fn refill(&mut self) -> Result<(), ReadFailed>
        requires { self.old.ahead ≡ [] }
        ensures { Refills result
            (S.remaining self.old.source) (S.remaining self.new.source)
            (S.failures self.old.source) (S.failures self.new.source) self.new.ahead }
    {
        self.at = 0;
        self.end = 0;
        self.end = self.source.read(&mut self.bytes)?;
        Ok(())
    }

    /// Makes sure that something is read ahead, if anything is left.
    ///
    /// # Errors
    /// If a read fails.
    fn fill(&mut self) -> Result<(), ReadFailed>
        ensures bytes { Keeps
            (prepend_known self.old.ahead (S.remaining self.old.source))
            (prepend_known self.new.ahead (S.remaining self.new.source)) }
        ensures at_end { OnOk result (self.new.ahead ≡ [] → IsAtEnd (S.remaining self.new.source)) }
        ensures same { self.old.ahead ≢ [] → self.new ≡ self.old }
        ensures asked { OnErr result (self.old.ahead ≡ []) }
        ensures failures { CountsFailure result
            (S.failures self.old.source) (S.failures self.new.source) }
    {
        if self.ahead().is_empty() {
            return self.refill();
        }
        Ok(())
    }

    /// Drops the first `count` bytes that were read ahead.
    fn drop_front(&mut self, count: usize)
        requires { count ≤ length self.old.ahead }
        ensures source { self.new.source ≡ self.old.source }
        ensures ahead { self.new.ahead ≡ drop count self.old.ahead }
    {
        self.at += count;
    }
}

impl<S: Source> Source for Buffered<S> {
    ghost remaining = { λ b. prepend_known b.ahead (S.remaining b.source) };

    ghost failures = { λ b. S.failures b.source };

    ghost read_ahead = { λ b. b.ahead };

    fn read(&mut self, buf: &mut [u8]) -> Result<usize, ReadFailed> {
        if buf.is_empty() {
            return Ok(0);
        }
        self.fill()?;
        let ahead = self.ahead();
        let count = buf.len().min(ahead.len());
        buf[..count].copy_from_slice(&ahead[..count]);
        self.drop_front(count);
        Ok(count)
    }

    fn ahead(&self) -> &[u8]
        ensures all { result.now ≡ self.now.ahead }
    {
        &self.bytes[self.at..self.end]
    }

    fn skip(&mut self, count: usize) {
        self.drop_front(count);
    }
}
