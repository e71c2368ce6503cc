//! Why a server is no longer followed.

use serde_bser::bytestring::ByteString;
use thiserror::Error;
use watchman_client::errors::ClientError;
use watchman_sqlite::error::{IndexError, ServerErrorText};

/// Why a server is no longer followed.
#[derive(Debug, Drop, Error)]
pub(crate) enum FollowError {
    /// The index cannot be used, or a message cannot be read or is not of this index.
    #[error("{0}")]
    Index(#[from] IndexError),
    /// A call of the client failed.
    #[error("{0}")]
    Client(#[from] ClientError),
    /// The stream ended behind a whole message.
    #[error("the server ended the stream")]
    Ended,
    /// The subscription of this name ended.
    #[error("the server ended the subscription {0}: its root is no longer watched")]
    Canceled(ByteString),
    /// The server told an error.
    #[error("error of the server: {0}")]
    Server(ServerErrorText),
    /// The answer to a query lists no files, or does not join.
    #[error("the answer of the server does not tell what changed since the last clock")]
    NoAnswer,
    /// A gap stays, however often it is asked.
    #[error("the answers of the server do not tell what changed up to {0}")]
    Untold(ByteString),
}
