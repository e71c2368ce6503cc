//! Messages that are refused, and how each has to be described.
use crate::columns::columns;
use hex::FromHexError;
use std::alloc::Global;

/// A refused message, and what a line of a list says of it.
#[derive(Drop)]
pub struct RefusedMessage<'a> {
    /// What the message shows.
    pub name: &'a str,
    /// The name of the type that it is read as.
    pub kind: &'a str,
    /// The message.
    pub message: Vec<u8>,
    words: &'a str,
    /// The field that has to be named, or `-`.
    pub field: &'a str,
    place: usize,
    /// The path that has to be named.
    pub path: &'a str,
}

impl<'a> RefusedMessage<'a> {
    /// Takes a line apart at its tabs. A place that is no number is 0.
    pub fn parse(alloc: Global, line: &'a str) -> Result<Self, FromHexError> {
        let [name, kind, message, words, field, _, _, place, path] = columns(line, "\t");
        Ok(RefusedMessage {
            name,
            kind,
            message: hex::decode(alloc, message)?,
            words,
            field,
            place: place.parse().unwrap_or(0),
            path,
        })
    }

    /// Whether the text has the words that it has to have, and the place is the one that has to be.
    pub fn is_described(&self, text: &str, place: usize) -> bool {
        has_words(text, self.words) && place == self.place
    }
}

/// Whether the text has these words, or those behind an `or`.
pub fn has_words(text: &str, words: &str) -> bool {
    match words.split_once(", or ") {
        Some((first, second)) => text.contains(first) || text.contains(second),
        None => text.contains(words),
    }
}
