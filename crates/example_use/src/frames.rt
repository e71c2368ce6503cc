//! A client's stream: answers, the server's errors and what nobody asked for, from one reader.
use crate::document::small_value;
use crate::events::kind_of;
use crate::replies::{Reply, ServerError, print_reply};
use serde_bser::de::Limits;
use serde_bser::describe::Description;
use serde_bser::device::Source;
use serde_bser::errors::Result;
use serde_bser::stream::Frames;

/// Prints the messages of the reader, up to the end of its stream.
pub fn print_frames<S: Source + Drop>(rt: &HostRuntime, reader: S) -> Result<()> {
    let limits = Limits {
        levels: 128,
        bytes: 1_000_000,
    };
    let mut frames = Frames::with_limits(rt.alloc(), limits, reader);
    for _ in 0..u64::MAX {
        match frames.next_frame() {
            Ok(true) => print_frame(rt, &frames)?,
            Ok(false) => break,
            Err(error) => {
                println!(rt; "at byte {}: {error}", frames.position())?;
                break;
            }
        }
    }
    Ok(())
}

/// Prints what the frame is: an answer, the server's error in its place, or another message.
fn print_frame<S: Source>(rt: &HostRuntime, frames: &Frames<S>) -> Result<()> {
    match frames.read::<ServerError>() {
        Ok(failure) => {
            println!(rt; "error of the server: {}", failure.error)?;
            Ok(())
        }
        Err(_error) => match frames.read::<Reply>() {
            Ok(reply) => print_reply(rt, &reply),
            Err(error) => print_other(rt, frames, &error),
        },
    }
}

/// Prints what the frame is that is no answer for this reason, where it is not too large.
fn print_other<S: Source>(rt: &HostRuntime, frames: &Frames<S>, error: &Description) -> Result<()> {
    match small_value(rt.alloc(), frames.frame())? {
        Some(message) => println!(rt; "{}", kind_of(&message))?,
        None => println!(rt; "a large message")?,
    }
    println!(rt;
        "the message at byte {} is no answer: {error}",
        frames.position()
    )?;
    Ok(())
}
