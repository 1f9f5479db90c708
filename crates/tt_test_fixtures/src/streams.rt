//! Readers and writers that pass little at a time, or fail.

use std::alloc::Global;
use std::io;
use std::io::{ErrorKind, Write};

/// More bytes or calls than there ever are.
pub const ALL: usize = 1_000_000;

/// Gives no more than `step` bytes a call. Only the call after `calls` others fails: a caller that
/// asks again gets more.
#[derive(Drop)]
pub struct Steps<'a> {
    pub bytes: &'a [u8],
    pub step: usize,
    pub calls: usize,
}

impl io::Read for Steps<'_> {
    fn read(&mut self, buf: &mut [u8]) -> io::Result<usize> {
        if self.calls == 0 {
            self.calls = ALL;
            return Err(io::Error::from(ErrorKind::UnexpectedEof));
        }
        self.calls -= 1;
        let count = self.step.min(self.bytes.len()).min(buf.len());
        let (front, rest) = self.bytes.split_at(count);
        buf[..count].copy_from_slice(front);
        self.bytes = rest;
        Ok(count)
    }
}

/// Takes no more than `step` bytes a call. Only the call after `calls` others fails, or takes
/// nothing: a caller that asks again can write more.
#[derive(Drop)]
pub struct Taker {
    pub bytes: Vec<u8>,
    pub step: usize,
    pub calls: usize,
    pub takes_nothing: bool,
}

impl Taker {
    /// Makes the writer that has no byte yet.
    pub fn new(alloc: Global, step: usize, calls: usize) -> Taker {
        Taker {
            bytes: Vec::new(alloc),
            step,
            calls,
            takes_nothing: false,
        }
    }
}

impl Write for Taker {
    fn write(&mut self, buf: &[u8]) -> io::Result<usize> {
        if self.calls == 0 {
            self.calls = ALL;
            if self.takes_nothing {
                return Ok(0);
            }
            return Err(io::Error::from(ErrorKind::StorageFull));
        }
        self.calls -= 1;
        let count = self.step.min(buf.len());
        self.bytes.extend_from_slice(&buf[..count])?;
        Ok(count)
    }

    fn flush(&mut self) -> io::Result<()> {
        Ok(())
    }
}
