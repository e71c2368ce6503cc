//! Why an input is not read, and what to do then.

use bser_format::errors::{Error, ReadCause};
use bser_messages::told::{Reason, TellError};
use std::io::ErrorKind;
use std::{fmt, io};

/// Why an input is not read. It prints as one line without an end.
#[derive(Debug, Clone, Copy)]
pub enum InputError<'a> {
    /// It has no byte.
    Empty,
    /// Opening or reading it failed.
    Fault(&'a io::Error),
}

impl fmt::Display for InputError<'_> {
    fn fmt<W: fmt::Write>(&self, f: &mut fmt::Formatter<W>) -> fmt::Result {
        match self {
            InputError::Empty => f.write_str("it is empty: see whether what writes it failed"),
            InputError::Fault(fault) if fault.kind() == ErrorKind::IsADirectory => {
                f.write_str("it is a folder: name the files in it")
            }
            InputError::Fault(fault) => write!(f, "{fault}"),
        }
    }
}

/// The fault of a reader that is a folder.
pub(crate) fn folder_fault(untold: &TellError) -> Option<&io::Error> {
    match cause_of(untold)? {
        Error::DeReaderError {
            source: ReadCause::Reader(fault),
        } if fault.kind() == ErrorKind::IsADirectory => Some(fault),
        _ => None,
    }
}

/// Whether a message is one of version 1.
pub(crate) fn is_first_version(untold: &TellError) -> bool {
    match cause_of(untold) {
        Some(Error::DeInvalidMagic { magic }) => magic[0] == 0 && magic[1] == 1,
        _ => false,
    }
}

/// The error that a message was not told for.
fn cause_of(untold: &TellError) -> Option<&Error> {
    match &untold.reason {
        Reason::Failed(description) => Some(description.cause()),
        Reason::Stopped { place: _ } => None,
    }
}
