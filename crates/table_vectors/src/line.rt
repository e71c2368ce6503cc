//! One line of a list of messages.
use crate::kinds::compare;
use crate::ways::Sample;
use crate::written::compare_written;
use anyhow::Result;
use bser_vectors::columns::columns;
use std::alloc::Global;

/// A message, and what the list says of it.
#[derive(Drop)]
pub struct ListedMessage<'a> {
    /// The name of the type that it is read as, or what the message is in a list of values.
    pub name: &'a str,
    /// Whether it is accepted.
    pub accepted: bool,
    message: Vec<u8>,
    answer: &'a str,
    taken: usize,
    canonical: &'a str,
    compact: &'a str,
}

impl<'a> ListedMessage<'a> {
    /// Takes a line apart at its tabs.
    pub fn parse(alloc: Global, line: &'a str) -> Result<Self> {
        let [
            name,
            message,
            verdict,
            answer,
            taken,
            _nodes,
            _depth,
            canonical,
            compact,
        ] = columns(line, "\t");
        Ok(ListedMessage {
            name,
            accepted: verdict == "ok",
            answer,
            taken: taken.parse()?,
            canonical,
            compact,
            message: hex::decode(alloc, message)?,
        })
    }

    /// Whether reading, and in a list of values writing, is as the list says.
    pub fn compare(&self, alloc: Global, of_values: bool) -> Result<()> {
        let sample = Sample {
            message: &self.message,
            levels: 128,
            answer: self.answer,
            taken: self.taken,
        };
        compare(alloc, if of_values { "Value" } else { self.name }, &sample)?;
        if of_values && self.accepted {
            compare_written(alloc, self.answer, self.canonical, self.compact)?;
        }
        Ok(())
    }
}
