//! How much a client takes and keeps.

/// How much a client takes and keeps.
#[derive(Debug, Clone, Copy, PartialEq, Eq)]
pub struct Bounds {
    /// The bytes of a message's body.
    pub message_bytes: usize,
    /// How many unsolicited messages are kept.
    pub kept_messages: usize,
    /// The bytes of all messages that are kept.
    pub kept_bytes: usize,
}
