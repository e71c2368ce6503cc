//! Several kinds of messages from a reader, within limits.
use serde_bser::de::{Ignored, Limits, from_slice_limited};
use serde_bser::device::Source;
use serde_bser::errors::{Error, ReadCause, Result};
use serde_bser::stream::ReaderMessages;
use serde_bser::value::Value;
use std::alloc::Global;

/// Prints what kind each message of the reader is, up to the end of its stream.
pub fn print_events<S: Source + Drop>(rt: &HostRuntime, reader: S) -> Result<()> {
    let limits = Limits {
        levels: 128,
        bytes: 1_000_000,
    };
    let mut messages = ReaderMessages::with_limits(rt.alloc(), limits, reader);
    for _ in 0..u64::MAX {
        match messages.next_message::<Value>() {
            Ok(Some(message)) => println!(rt; "{}", kind_of(&message))?,
            Ok(None) => break,
            Err(error) => return print_end(rt, error),
        }
    }
    Ok(())
}

/// Prints that the stream is cut, or hands on another error.
fn print_end(rt: &HostRuntime, error: Error) -> Result<()> {
    match error {
        Error::DeReaderError {
            source: ReadCause::Eof,
        } => {
            println!(rt; "the stream ends inside a message")?;
            Ok(())
        }
        other => Err(other),
    }
}

/// What a message is, by the keys that it has.
pub fn kind_of(message: &Value) -> &'static str {
    if message.get("error").is_some() {
        "an error of the server"
    } else if message.get("subscription").is_some() {
        "files of a subscription"
    } else if message.get("log").is_some() {
        "a line of the log"
    } else {
        "an answer"
    }
}

/// Whether the slice begins with a message whose body has at most 100 bytes.
pub fn is_short(alloc: Global, bytes: &[u8]) -> bool {
    let limits = Limits {
        levels: 128,
        bytes: 100,
    };
    from_slice_limited::<Ignored>(alloc, limits, bytes).is_ok()
}
