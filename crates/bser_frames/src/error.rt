//! Why there is no next message.

use bser_format::errors::Error;
use bser_messages::description::Description;
use std::{fmt, io};

/// Why there is no next frame. Nothing is lost: the next call goes on with what came.
///
/// It prints as one line without an end.
#[derive(Debug, Drop)]
pub enum FrameError {
    /// The stream ended inside a message.
    Cut {
        /// How many bytes of the message came, at least one.
        have: usize,
        /// How many bytes the message has, or at least has where its header is not whole.
        want: usize,
    },
    /// What came begins no message: the error of
    /// [`message_length`](bser_messages::length::message_length).
    Header(Error),
    /// The header announces a longer body than the limit of bytes. Its header came, and no more.
    TooLong {
        /// How many bytes the body has.
        announced: usize,
        /// How many bytes are taken at most.
        most: usize,
    },
    /// The reader answered an error, an interruption too.
    Reader(io::Error),
    /// The buffer could not grow.
    OutOfMemory,
}

impl fmt::Display for FrameError {
    fn fmt<W: fmt::Write>(&self, f: &mut fmt::Formatter<W>) -> fmt::Result {
        match self {
            FrameError::Cut { have, want } => {
                write!(
                    f,
                    "the stream ends after {have} bytes of a message of {want} or more"
                )
            }
            FrameError::Header(error) => write!(f, "no message: {error}"),
            FrameError::TooLong { announced, most } => write!(
                f,
                "{announced} bytes announced, and at most {most} are taken"
            ),
            FrameError::Reader(fault) => write!(f, "reader fault: {fault}"),
            FrameError::OutOfMemory => f.write_str("out of memory"),
        }
    }
}

/// Why the next message was not read as a value.
///
/// It prints as one line without an end.
#[derive(Debug, Drop)]
pub enum MessageError {
    /// There is no next frame. Nothing is lost.
    Frame(FrameError),
    /// The frame was taken, and is not read as the type. It may be read as another.
    Message(Description),
}

impl fmt::Display for MessageError {
    fn fmt<W: fmt::Write>(&self, f: &mut fmt::Formatter<W>) -> fmt::Result {
        match self {
            MessageError::Frame(error) => write!(f, "{error}"),
            MessageError::Message(description) => write!(f, "{description}"),
        }
    }
}
