//! The ways of reading one message as a type.
use anyhow::Result;
use bser_serde::{ReadError, from_reader, from_slice, to_vec};
use bser_vectors::devices::{Plan, PlannedReader};
use bser_vectors::notation::notation_of;
use bser_vectors::shown::Shown;
use serde::{Deserialize, DeserializeOwned, Serialize};
use serde_bser::de::Ignored;
use serde_bser::describe;
use serde_bser::device::Watched;
use std::alloc::Global;

/// How a message was answered.
#[derive(PartialEq, Drop)]
pub enum Answered {
    /// It was read as the value of this notation.
    Value(String),
    /// It is malformed, by this description.
    Malformed(String),
    /// It is well-formed, and the type does not read it, by this description.
    Misfit(String),
}

/// How a reading was answered.
fn answer_of<T: Shown + Drop>(alloc: Global, read: Result<T, ReadError>) -> Result<Answered> {
    Ok(match read {
        Ok(value) => Answered::Value(notation_of(alloc, &value)?),
        Err(ReadError::Misfit(misfit)) => Answered::Misfit(misfit.to_string(alloc)?),
        Err(refusal) => Answered::Malformed(refusal.to_string(alloc)?),
    })
}

/// How the message is answered from a slice.
pub fn by_slice<'de, T: Deserialize<'de> + Shown>(
    alloc: Global,
    message: &'de [u8],
) -> Result<Answered> {
    answer_of(alloc, from_slice::<T>(alloc, message))
}

/// How the message is answered from a reader of a few bytes a call.
pub fn by_reader<T: DeserializeOwned + Shown>(alloc: Global, message: &[u8]) -> Result<Answered> {
    let mut reader = Watched::new(PlannedReader::new(message, Plan::pieces(3)));
    answer_of(alloc, from_reader::<_, T>(alloc, &mut reader))
}

/// How the message is refused where it is passed over, if it is.
pub fn refused_by_ignored(alloc: Global, message: &[u8]) -> Result<Option<String>> {
    match describe::from_slice::<Ignored>(alloc, message) {
        Ok(_) => Ok(None),
        Err(description) => Ok(Some(description.to_string(alloc)?)),
    }
}

/// Whether the value is read back from the message that is written for it.
pub fn is_returned<T: DeserializeOwned + Serialize + Shown>(
    alloc: Global,
    message: &[u8],
) -> Result<bool> {
    let mut reader = Watched::new(message);
    let Ok(value) = from_reader::<_, T>(alloc, &mut reader) else {
        return Ok(true);
    };
    let written = to_vec(alloc, &value)?;
    let mut again = Watched::new(written.as_slice());
    let first = answer_of(alloc, Ok(value))?;
    Ok(answer_of(alloc, from_reader::<_, T>(alloc, &mut again))? == first)
}
