//! The messages of a recorded session, as a list has them.
use crate::columns::columns;
use std::alloc::{AllocError, Global};

/// A recorded message of a server.
#[derive(Debug, Clone, Copy, PartialEq, Eq)]
pub struct SentMessage {
    /// Its number in the session.
    pub number: u32,
    /// The number of its connection.
    pub connection: usize,
    /// Where it begins in the stream.
    pub start: usize,
    /// Where it ends.
    pub end: usize,
    /// Whether nobody asked for it.
    pub is_unsolicited: bool,
    /// Whether it lists files.
    pub lists_files: bool,
}

impl SentMessage {
    /// Takes a line apart at its tabs. What is no number is 0.
    fn parse(line: &str) -> Self {
        let [number, connection, start, len, kind, lists, ..] = columns(line, "\t");
        let start: usize = start.parse().unwrap_or(0);
        SentMessage {
            number: number.parse().unwrap_or(0),
            connection: connection.parse().unwrap_or(0),
            start,
            end: start.saturating_add(len.parse().unwrap_or(0)),
            is_unsolicited: kind == "unsolicited",
            lists_files: lists == "files",
        }
    }

    /// The message, where it lies in the stream, and else nothing.
    pub fn bytes<'s>(&self, stream: &'s [u8]) -> &'s [u8] {
        stream.get(self.start..self.end).unwrap_or(&[])
    }
}

/// The messages of the list.
pub fn sent_messages(alloc: Global, list: &str) -> Result<Vec<SentMessage>, AllocError> {
    let mut messages = Vec::new(alloc);
    for line in list.lines() {
        messages.push(SentMessage::parse(line))?;
    }
    Ok(messages)
}
