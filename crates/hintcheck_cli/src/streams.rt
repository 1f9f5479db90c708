//! The program's own streams: where nobody reads the standard output any more, nothing is said of
//! it.

use std::cell::Cell;
use std::io;
use std::io::{ErrorKind, Write};

/// The standard output, which notes that nobody reads it any more.
#[derive(Drop)]
pub(crate) struct Noting<'a, W> {
    pub(crate) inner: W,
    /// Whether a write has failed since nobody reads it any more.
    pub(crate) is_closed: &'a Cell<bool>,
}

impl<W: Write> Write for Noting<'_, W> {
    ghost contents = { λ s. W.contents s.inner };

    fn write(&mut self, buf: &[u8]) -> io::Result<usize> {
        match self.inner.write(buf) {
            Ok(count) => Ok(count),
            Err(error) => {
                if error.kind() == ErrorKind::BrokenPipe {
                    self.is_closed.set(true);
                }
                Err(error)
            }
        }
    }

    fn flush(&mut self) -> io::Result<()> {
        self.inner.flush()
    }
}

/// The error output, to which nothing is written once nobody reads the standard output.
#[derive(Drop)]
pub(crate) struct Quiet<'a, W> {
    pub(crate) inner: W,
    /// Whether nobody reads the standard output any more.
    pub(crate) is_closed: &'a Cell<bool>,
}

impl<W: Write> Write for Quiet<'_, W> {
    fn write(&mut self, buf: &[u8]) -> io::Result<usize> {
        if self.is_closed.get() {
            return Ok(buf.len());
        }
        self.inner.write(buf)
    }

    fn flush(&mut self) -> io::Result<()> {
        self.inner.flush()
    }
}
