//! A writer that keeps nothing back.

use std::io;
use std::io::Write;

/// A writer that sends on at once what it takes, where the inner one may keep bytes for later.
#[derive(Drop)]
pub(crate) struct Prompt<W> {
    inner: W,
}

impl<W> Prompt<W> {
    /// Sends on to `inner`.
    pub(crate) fn new(inner: W) -> Self {
        Prompt { inner }
    }
}

impl<W: Write> Write for Prompt<W> {
    fn write(&mut self, bytes: &[u8]) -> io::Result<usize> {
        let count = self.inner.write(bytes)?;
        self.inner.flush()?;
        Ok(count)
    }

    fn flush(&mut self) -> io::Result<()> {
        self.inner.flush()
    }
}
