//! Each test makes a few growths. Where all are granted its call gives the right answer. Run with one
//! of them refused, the call answers want of memory and leaves what it should, and the test then
//! answers that refusal as its own.
mod reading;
mod rewriting;
mod strings;
mod values;
mod writing;

use bser_vectors::devices::{Plan, PlannedWriter};
use serde_bser::device::Watched;
use serde_bser::errors::Error;
use std::alloc::{AllocError, Global};
use std::io::ErrorKind;
use std::process::Abort;
use std::test::Fail;

type Tested = std::result::Result<(), Fail>;

/// Whether memory was refused, to the writer or to what calls it.
fn is_want_of_memory(error: &Error) -> bool {
    match error {
        Error::OutOfMemory => true,
        Error::Io(fault) => fault.kind() == ErrorKind::OutOfMemory,
        _ => false,
    }
}

/// Checks that the refusal is a want of memory, and answers it.
fn wanted(rt: &impl Abort, error: Error) -> Tested {
    assert!(rt; is_want_of_memory(&error), "{error}");
    Err(Fail::from(error))
}

/// Checks that memory was refused, that what was written is a beginning of the message, and answers
/// the refusal.
fn wanted_after(rt: &impl Abort, error: Error, written: &[u8], message: &[u8]) -> Tested {
    assert!(rt; message.starts_with(written), "{written:?}");
    wanted(rt, error)
}

/// Checks that the bytes are those expected.
fn check_bytes(rt: &impl Abort, found: &[u8], expected: &[u8]) -> Tested {
    assert_eq!(rt; found, expected);
    Ok(())
}

/// Checks that the text was made and is the one expected, or answers the refusal.
fn check_text(rt: &impl Abort, made: Result<String, AllocError>, expected: &str) -> Tested {
    assert_eq!(rt; made?.as_str(), expected);
    Ok(())
}

/// A writer that takes at most so many bytes a call.
fn taking(alloc: Global, most: usize) -> Watched<PlannedWriter> {
    Watched::new(PlannedWriter::new(alloc, Plan::pieces(most)))
}

/// Checks the answer to writing the message, and what the writer has of it.
fn check_written(
    rt: &impl Abort,
    answer: Result<(), Error>,
    writer: &Watched<PlannedWriter>,
    message: &[u8],
) -> Tested {
    let taken = writer.get_ref().taken.as_slice();
    match answer {
        Ok(()) => check_bytes(rt, taken, message),
        Err(error) => wanted_after(rt, error, taken, message),
    }
}
