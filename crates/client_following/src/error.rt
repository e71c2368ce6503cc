//! Why changes are no longer followed.

use serde_bser::bytestring::ByteString;
use std::io;
use std::str::Utf8Error;
use thiserror::Error;
use watchman_client::errors::ClientError;

/// Why changes are no longer followed.
#[derive(Debug, Error, Drop)]
pub(crate) enum FollowError {
    /// A call of the client failed.
    #[error("{0}")]
    Client(#[from] ClientError),
    /// The log was not written.
    #[error("the log was not written: {0}")]
    Log(#[from] io::Error),
    /// A clock is no text.
    #[error("a clock is no text: {0}")]
    Clock(#[from] Utf8Error),
    /// A file has no name.
    #[error("a file has no name")]
    Nameless,
    /// The server cannot do what is needed.
    #[error("the server lacks {0}")]
    Lacks(&'static str),
    /// The stream ended behind a whole message, as where the server was stopped.
    #[error("the server ended the stream")]
    Ended,
    /// The subscription of this name has ended.
    #[error("{0} is canceled: its root is no longer watched")]
    Canceled(ByteString),
}
