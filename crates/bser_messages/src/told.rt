//! A message's header, and why a message was not reported whole.
ghost use Rattle.std.specs.Prelude.{◌≡◌, ◌+◌, ◌-◌, ◌^◌, min};

use crate::description::Description;
use std::fmt;

/// The content of a message's header.
#[derive(Debug, Clone, Copy, PartialEq, Eq)]
pub struct Header {
    /// The capabilities that the message asks for, one bit each.
    pub capabilities: u32,
    /// How many bytes the header itself has: where the body starts.
    pub start: usize,
    /// How many bytes the body has.
    pub len: usize,
}

impl Header {
    /// Returns how many bytes the message has, its header and its body, at most `usize::MAX`.
    pub fn message_length(&self) -> usize
        ensures { result ≡ min (self.now.start + self.now.len) (2 ^ 64 - 1) }
    {
        self.start.saturating_add(self.len)
    }
}

/// Why a message was not reported whole.
#[derive(Debug, Drop)]
pub enum Reason {
    /// The builder wanted no more.
    Stopped {
        /// How many bytes of the message were taken then: where the event ends at which it did.
        place: usize,
    },
    /// The message, the memory or the reader failed.
    Failed(Description),
}

/// An error of reporting a message to a builder, and what its caller needs to go on after it.
///
/// It prints as one line without an end.
#[derive(Debug, Drop)]
pub struct TellError {
    /// Why the message was not reported whole.
    pub reason: Reason,
    /// The message's header, where it was taken: `None` only where the header itself failed.
    pub header: Option<Header>,
    /// How many bytes the reader gave from the start of the message on, at most `usize::MAX`; the
    /// bytes of a slice.
    pub given: usize,
}

impl fmt::Display for TellError {
    fn fmt<W: fmt::Write>(&self, f: &mut fmt::Formatter<W>) -> fmt::Result {
        match &self.reason {
            Reason::Stopped { place } => write!(f, "stopped by the builder, at byte {place}"),
            Reason::Failed(description) => write!(f, "{description}"),
        }
    }
}
