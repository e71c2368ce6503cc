//! A line of a list of messages.
use crate::printed::{is_borrowed, is_owned};
use anyhow::Result;
use bser_vectors::columns::columns;
use std::alloc::Global;

/// A message, and how it is printed.
#[derive(Clone, Copy)]
pub struct PrintedMessage<'a> {
    /// The message's name.
    pub name: &'a str,
    /// The message, in hexadecimal digits.
    pub message: &'a str,
    /// The type that an answer is read as, or `-` of what is no answer.
    pub answer: &'a str,
    owned: &'a str,
    borrowed: &'a str,
}

impl<'a> PrintedMessage<'a> {
    /// Takes a line apart.
    pub fn parse(line: &'a str) -> Self {
        let [name, message, answer, owned, borrowed, ..] = columns(line, "\t");
        PrintedMessage {
            name,
            message,
            answer,
            owned,
            borrowed,
        }
    }

    /// The first thing that is not as the line says.
    pub fn first_mismatch(&self, alloc: Global) -> Result<Option<&'static str>> {
        let message = hex::decode(alloc, self.message)?;
        if !is_owned(alloc, &message, self.answer, self.owned)? {
            return Ok(Some("another value, owned"));
        }
        if !is_borrowed(alloc, &message, self.answer, self.borrowed)? {
            return Ok(Some("another value, borrowed"));
        }
        Ok(None)
    }
}
