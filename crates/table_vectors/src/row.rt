//! One row of a list of cases.
use crate::kinds::compare;
use crate::ways::{Compared, Sample};
use anyhow::{Result, ensure};
use bser_vectors::columns::columns;
use std::alloc::Global;

/// A case by its name, and what the list says of it.
#[derive(Drop)]
pub struct CaseRow<'a> {
    /// What the case shows.
    pub name: &'a str,
    /// The names of the types that the message is read as.
    pub kinds: &'a str,
    /// The notation of the answer.
    pub answer: String,
    levels: usize,
    bytes: Vec<u8>,
    /// How many of the bytes are the message.
    taken: usize,
    /// Whether each front of the message is answered so, and not the message.
    of_fronts: bool,
}

impl<'a> CaseRow<'a> {
    /// Takes a row apart.
    pub fn parse(alloc: Global, row: &'a str) -> Result<Self> {
        let [name, kinds, levels, message, answer, ..] = columns(row, " | ");
        ensure!(!answer.is_empty(), "too few columns");
        let levels = levels.parse::<usize>()?;
        let of_fronts = answer.strip_prefix("each front ");
        let answer = text_of(alloc, of_fronts.unwrap_or(answer))?;
        let (message, after) = message.split_once(" / ").unwrap_or((message, ""));
        let mut digits = repeated(alloc, message)?;
        let taken = digits.len() / 2;
        digits.push_str(repeated(alloc, after)?.as_str())?;
        Ok(CaseRow {
            name,
            kinds,
            levels,
            bytes: hex::decode(alloc, digits.as_str())?,
            taken,
            of_fronts: of_fronts.is_some(),
            answer,
        })
    }

    /// Whether the type of this name is answered as the row says.
    pub fn compare(&self, alloc: Global, kind: &str) -> Compared {
        let bytes = self.bytes.as_slice();
        if !self.of_fronts {
            return compare(alloc, kind, &self.sample(bytes));
        }
        for len in 0..bytes.len() {
            compare(alloc, kind, &self.sample(&bytes[..len]))?;
        }
        Ok(())
    }

    /// What is expected of reading the bytes.
    fn sample<'b>(&'b self, message: &'b [u8]) -> Sample<'b> {
        Sample {
            message,
            levels: self.levels,
            answer: self.answer.as_str(),
            taken: self.taken,
        }
    }
}

/// The answer that a column says: the column itself, or the parts behind `parts `.
fn text_of(alloc: Global, column: &str) -> Result<String> {
    match column.strip_prefix("parts ") {
        Some(parts) => repeated(alloc, parts),
        None => Ok(String::from_str(alloc, column)?),
    }
}

/// The parts without blanks. A part with `..` and a number behind it is repeated so often.
fn repeated(alloc: Global, parts: &str) -> Result<String> {
    let mut text = String::new(alloc);
    for part in parts.split_whitespace() {
        let (piece, times) = part.split_once("..").unwrap_or((part, "1"));
        for _ in 0..times.parse::<u32>()? {
            text.push_str(piece)?;
        }
    }
    Ok(text)
}
