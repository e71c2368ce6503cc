//! The output, which may go to the terminal of the reports.

use crate::reports::CLEAR;
use crate::screen::Screen;
use std::io;
use std::io::Write;

/// A writer of the output. Where it goes to the terminal of the reports, the line of progress is
/// cleared before it.
#[derive(Drop)]
pub(crate) struct Beside<'s, W> {
    inner: W,
    screen: &'s Screen,
}

impl<'s, W> Beside<'s, W> {
    /// Writes to `inner`.
    pub(crate) fn new(screen: &'s Screen, inner: W) -> Self {
        Beside { inner, screen }
    }
}

impl<W: Write> Write for Beside<'_, W> {
    fn write(&mut self, bytes: &[u8]) -> io::Result<usize> {
        if !self.screen.has_output() {
            return self.inner.write(bytes);
        }
        if self.screen.take_shown() {
            self.inner.write_all(CLEAR)?;
        }
        let count = self.inner.write(bytes)?;
        self.screen.note_output(&bytes[..count]);
        Ok(count)
    }

    fn flush(&mut self) -> io::Result<()> {
        self.inner.flush()
    }
}
