//! The ways of reading a message.
use anyhow::Result;
use bser_serde::ReadError;
use bser_vectors::devices::{Plan, PlannedReader};
use bser_vectors::notation::notation_of;
use bser_vectors::shown::Shown;
use serde_bser::describe::Description;
use serde_bser::device::Watched;
use serde_bser::document::Document;
use serde_bser::tell::{Limits, Reason};
use serde_bser::{de, describe};
use std::alloc::Global;

/// How a message is answered.
#[derive(Debug, PartialEq, Drop)]
pub enum Answered {
    /// It is read as the value of this notation.
    Value(String),
    /// It is refused so, at this place.
    Refused { words: String, place: usize },
}

/// By a list, from a slice.
pub fn by_slice<'de, T: de::Deserialize<&'de [u8]> + Shown>(
    alloc: Global,
    message: &'de [u8],
) -> Result<Answered> {
    described(alloc, describe::from_slice::<T>(alloc, message))
}

/// By a list, from a reader of so many bytes a call.
pub fn by_reader<T: de::DeserializeOwned + Shown>(
    alloc: Global,
    message: &[u8],
    most: usize,
) -> Result<Answered> {
    let mut reader = Watched::new(PlannedReader::new(message, Plan::pieces(most)));
    described(alloc, describe::from_reader::<_, T>(alloc, &mut reader))
}

/// By a derive, from a slice.
pub fn by_derive<'de, T: serde::Deserialize<'de> + Shown>(
    alloc: Global,
    message: &'de [u8],
) -> Result<Answered> {
    derived(alloc, bser_serde::from_slice::<T>(alloc, message))
}

/// By a derive, from a reader of so many bytes a call.
pub fn by_derive_from_reader<T: serde::DeserializeOwned + Shown>(
    alloc: Global,
    message: &[u8],
    most: usize,
) -> Result<Answered> {
    let mut reader = Watched::new(PlannedReader::new(message, Plan::pieces(most)));
    derived(alloc, bser_serde::from_reader::<_, T>(alloc, &mut reader))
}

/// As a document that is told.
pub fn told(alloc: Global, message: &[u8]) -> Result<Answered> {
    match Document::from_slice(alloc, Limits::new(), message) {
        Ok(document) => Ok(Answered::Value(notation_of(alloc, &document)?)),
        Err(untold) => match untold.reason {
            Reason::Failed(description) => refused(alloc, &description),
            Reason::Stopped { place } => Ok(Answered::Refused {
                words: String::from_str(alloc, "stopped")?,
                place,
            }),
        },
    }
}

/// What a list read.
fn described<T: Shown + Drop>(alloc: Global, read: Result<T, Description>) -> Result<Answered> {
    match read {
        Ok(value) => Ok(Answered::Value(notation_of(alloc, &value)?)),
        Err(description) => refused(alloc, &description),
    }
}

/// What a derive read.
fn derived<T: Shown + Drop>(alloc: Global, read: Result<T, ReadError>) -> Result<Answered> {
    match read {
        Ok(value) => Ok(Answered::Value(notation_of(alloc, &value)?)),
        Err(ReadError::Malformed(description)) => refused(alloc, &description),
        Err(ReadError::Misfit(misfit)) => Ok(Answered::Refused {
            words: misfit.to_string(alloc)?,
            place: misfit.place,
        }),
        Err(other) => Ok(Answered::Refused {
            words: other.to_string(alloc)?,
            place: 0,
        }),
    }
}

/// A refusal that is described.
fn refused(alloc: Global, description: &Description) -> Result<Answered> {
    Ok(Answered::Refused {
        words: description.to_string(alloc)?,
        place: description.place(),
    })
}
