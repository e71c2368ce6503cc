//! What is written on standard error: a line for each thing that is wrong, and a line of progress.

use crate::screen::Screen;
use std::io;
use std::io::Write;

/// How many bytes are worked on between two lines of progress.
const STEP: u64 = 1 << 20;

/// Goes to the line's start, and clears the line.
pub(crate) const CLEAR: &[u8] = b"\r\x1b[K";

/// Writes reports. Where they go to a terminal, a line of progress is shown for each further [`STEP`]
/// of bytes, over the one before, and is cleared before a report. Where the writer fails, lines are
/// lost.
#[derive(Drop)]
pub struct Reports<'s, E> {
    errors: &'s mut E,
    screen: &'s Screen,
    messages: u64,
    bytes: u64,
    // how many bytes were worked on since the last line
    since: u64,
}

impl<'s, E: Write> Reports<'s, E> {
    /// Nothing was reported or counted.
    pub fn new(screen: &'s Screen, errors: &'s mut E) -> Self {
        Reports {
            errors,
            screen,
            messages: 0,
            bytes: 0,
            since: 0,
        }
    }

    /// Counts bytes that were read.
    pub fn count_bytes(&mut self, count: usize) {
        self.bytes = self.bytes.saturating_add(count as u64);
        self.work(count);
    }

    /// Counts a message that was done.
    pub fn count_message(&mut self) {
        self.messages = self.messages.saturating_add(1);
    }

    /// Notes that so many bytes were worked on, and shows how far the work is where that is enough.
    pub fn work(&mut self, count: usize) {
        self.since = self.since.saturating_add(count as u64);
        if self.since >= STEP {
            self.since = 0;
            self.show();
        }
    }

    /// Clears the line of progress.
    pub fn clear(&mut self) {
        if self.screen.take_shown() {
            let _written = self.errors.write_all(CLEAR);
        }
    }

    /// Shows how far the work is.
    fn show(&mut self) {
        if self.screen.is_free() {
            let (messages, mib) = (self.messages, self.bytes >> 20);
            let _written = write!(self.errors, "\r{messages} messages, {mib} MiB");
            self.screen.show();
        }
    }
}

impl<E: Write> Write for Reports<'_, E> {
    fn write(&mut self, bytes: &[u8]) -> io::Result<usize> {
        self.clear();
        self.errors.write(bytes)
    }

    fn flush(&mut self) -> io::Result<()> {
        self.errors.flush()
    }
}
