//! The kind of a message.

/// The kind of a message.
#[derive(Debug, Clone, Copy, PartialEq, Eq)]
pub enum MessageKind {
    /// The answer to the outstanding request.
    Answer,
    /// The server's error, in the place of the answer.
    Error,
    /// A message that no request asked for.
    Event(EventKind),
}

/// The kind of an event: a message that no request asked for.
#[derive(Debug, Clone, Copy, PartialEq, Eq)]
pub enum EventKind {
    /// A [`Log`](crate::log::Log).
    Log,
    /// A [`StateEntered`](crate::state::StateEntered).
    StateEntered,
    /// A [`StateLeft`](crate::state::StateLeft).
    StateLeft,
    /// A [`Canceled`](crate::subscription::Canceled).
    Canceled,
    /// A [`FilesChanged`](crate::subscription::FilesChanged).
    Files,
    /// None of these.
    Other,
}
