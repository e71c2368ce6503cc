//! Why no value was read.
ghost use Rattle.bser_serde.specs.Refusals.{IsUntold};

use crate::misfit::Misfit;
use serde_bser::describe::Description;
use serde_bser::errors::Error;
use serde_bser::tell::{Reason, TellError};
use std::fmt;

/// Why no value was read.
///
/// It prints as one line without an end.
#[derive(Debug, Drop)]
pub enum ReadError {
    /// No well-formed message comes, or the reader failed. The description tells the first fault.
    Malformed(Description),
    /// A well-formed message comes, which the type does not read.
    Misfit(Misfit),
    /// The message has so many bytes, and more follow it in its frame.
    BytesLeft(usize),
    /// The reader has no byte left.
    Ended,
    /// An allocation failed.
    OutOfMemory,
}

impl fmt::Display for ReadError {
    fn fmt<W: fmt::Write>(&self, f: &mut fmt::Formatter<W>) -> fmt::Result {
        match self {
            ReadError::Malformed(description) => write!(f, "{description}"),
            ReadError::Misfit(misfit) => write!(f, "{misfit}"),
            ReadError::BytesLeft(taken) => write!(f, "a message of {taken} bytes, and more follow"),
            ReadError::Ended => f.write_str("no message is left"),
            ReadError::OutOfMemory => f.write_str("out of memory"),
        }
    }
}

impl std::error::Error for ReadError {}

/// Why a message was not told whole.
pub(crate) fn refusal_of(untold: TellError) -> ReadError
    ensures { IsUntold untold result }
{
    match untold.reason {
        Reason::Failed(description) => match description.cause() {
            Error::OutOfMemory => ReadError::OutOfMemory,
            _ => ReadError::Malformed(description),
        },
        Reason::Stopped { place: _ } => ReadError::OutOfMemory,
    }
}
