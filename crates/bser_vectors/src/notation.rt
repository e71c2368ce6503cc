//! A short notation for answers, in which tables of expected answers are written.
//!
//! A value is `n` null, `t` or `f`, `i` and decimal digits, `r` and the 16 hexadecimal digits of a
//! real's bits, `b` (byte string) or `s` (text) and hexadecimal digits, `[..]` an array, or
//! `{key:..}` an object with its keys in hexadecimal digits, in rising order. Digits are in lower
//! case. Each value has one text. What is read as other types has the notation of [`crate::shown`].
//!
//! A refusal of reading is `E1`, a kind and a byte; `C` and the place of the complaint, from 1;
//! `E3` and a kind; `E4` and the counts expected and read; `E5` and the two bytes of another magic;
//! `E6` and the source's cause; or `E11` for want of memory. Any other is `another refusal`.
mod parser;
mod refusals;
pub mod writer;

use crate::notation::parser::spelled_value;
pub use crate::notation::refusals::code;
use crate::notation::writer::NotationWriter;
use crate::shown::Shown;
use bser_format::errors::Error;
use bser_value::value::Value;
use hex::FromHexError;
use std::alloc::{AllocError, AllocFailed, Global};

/// Why a text is no value in the notation.
#[derive(Debug, Drop, thiserror::Error)]
pub enum NotationError {
    /// The text is not in the notation.
    #[error("no value in the notation")]
    Malformed,
    /// A growth was refused.
    #[error("out of memory")]
    OutOfMemory,
}

impl From<AllocError> for NotationError {
    fn from(_error: AllocError) -> Self {
        NotationError::OutOfMemory
    }
}

impl<T: Drop> From<AllocFailed<T>> for NotationError {
    fn from(_error: AllocFailed<T>) -> Self {
        NotationError::OutOfMemory
    }
}

impl From<FromHexError> for NotationError {
    fn from(error: FromHexError) -> Self {
        match error {
            FromHexError::OutOfMemory => NotationError::OutOfMemory,
            _ => NotationError::Malformed,
        }
    }
}

/// The notation of the value.
pub fn notation_of<T: Shown>(alloc: Global, value: &T) -> Result<String, AllocError> {
    let mut text = NotationWriter::new(alloc);
    value.put(&mut text);
    text.end()
}

/// The notation of the answer: of the value, or of the refusal.
pub fn answer_text<T: Shown>(
    alloc: Global,
    answer: &Result<T, Error>,
) -> Result<String, AllocError> {
    match answer {
        Ok(value) => notation_of(alloc, value),
        Err(error) => code(alloc, error),
    }
}

/// The value whose notation is the text.
///
/// Refused as `Malformed` where the text is not the notation of the value that it spells, as with
/// another order of an object's keys, or spells none.
pub fn parse_value(alloc: Global, text: &str) -> Result<Value, NotationError> {
    let value = spelled_value(alloc, text)?;
    if notation_of(alloc, &value)?.as_str() == text {
        Ok(value)
    } else {
        Err(NotationError::Malformed)
    }
}
