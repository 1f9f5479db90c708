//! Bytes in memory as a source.

ghost use Rattle.std.specs.Prelude.{◌≡◌};

use crate::{ReadFailed, Source};
use std::marker::Model;

/// Bytes in memory as a source: all that are left are read ahead, and no call fails.
#[derive(Drop)]
pub struct Bytes<'a> {
    /// The bytes that are left.
    left: &'a [u8],
}

impl<'a> Model for Bytes<'a> {
    ghost use Rattle.std.specs.Prelude.{List, ℕ};

    ghost Value = { List ℕ };

    ghost view = { λ b. b.left.now };
}

impl<'a> Bytes<'a> {
    /// Makes a source of which these bytes are left.
    pub fn new(bytes: &'a [u8]) -> Bytes<'a>
        ensures { result ≡ bytes.now }
    {
        Bytes { left: bytes }
    }
}

impl Source for Bytes<'_> {
    ghost use Rattle.std.specs.Prelude.{Some};

    ghost remaining = { λ b. Some b };

    ghost failures = { λ _. 0 };

    ghost read_ahead = { λ b. b };

    fn read(&mut self, buf: &mut [u8]) -> Result<usize, ReadFailed> {
        let count = self.left.len().min(buf.len());
        let (front, rest) = self.left.split_at(count);
        buf[..count].copy_from_slice(front);
        self.left = rest;
        Ok(count)
    }

    fn ahead(&self) -> &[u8]
        ensures all { result.now ≡ self.now }
    {
        self.left
    }

    fn skip(&mut self, count: usize) {
        self.left = &self.left[count..];
    }
}
