//! Why a call of a client failed.
ghost use Rattle.std.specs.Prelude.{◌≡◌};
ghost use Rattle.watchman_client.specs.Failures.{ends, fails, may_be_sent};

use crate::answer_error::AnswerError;
use bser_format::bytestring::ByteString;
use bser_format::errors::Error as BserError;
use bser_frames::error::FrameError;
use thiserror::Error;

/// Why a call of a client failed.
#[derive(Debug, Error, Drop)]
pub enum ClientError {
    /// A request is outstanding, so no other was sent.
    #[error("a request is outstanding")]
    Outstanding,
    /// No request is outstanding, so nothing was read.
    #[error("no request is outstanding")]
    NoRequest,
    /// An earlier call failed for good. Nothing was sent or read.
    #[error("an earlier call failed")]
    Failed,
    /// The stream ended before the answer, behind a whole message.
    #[error("the stream ended before the answer")]
    Ended,
    /// The next message is the answer that is due. It is left for [`answer`](crate::client::Client::answer).
    #[error("the next message is the answer that is due")]
    AnswerDue,
    /// The next message is an answer, and no request is outstanding. The client fails for good.
    #[error("an answer came, and no request is outstanding")]
    Unwanted,
    /// The next message is unsolicited and there is no room to keep it. It is left, and
    /// [`next_unsolicited`](crate::client::Client::next_unsolicited) makes room.
    #[error("no room is left to keep a message")]
    Full,
    /// No memory was left. Nothing is lost.
    #[error("out of memory")]
    Memory,
    /// There is no next message, for this reason. Nothing is lost where it is the reader's own
    /// answer or memory; else the client fails for good.
    #[error("{0}")]
    Frame(FrameError),
    /// The request was not sent, for this reason. The client fails for good where a beginning of
    /// it may have been sent.
    #[error("the request was not sent: {0}")]
    Request(BserError),
    /// The answer was taken, and is the server's error with this text.
    #[error("error of the server: {0}")]
    Server(ByteString),
    /// The answer was taken, and cannot be read as the type, for this reason.
    #[error("the answer was not read: {0}")]
    Answer(AnswerError),
}

/// Returns whether the error makes a client fail for good.
pub fn fails(error: &ClientError) -> bool
    ensures { result ≡ fails error.now }
{
    match error {
        ClientError::Frame(FrameError::Reader(_) | FrameError::OutOfMemory) => false,
        ClientError::Frame(_) | ClientError::Unwanted => true,
        _ => false,
    }
}

/// Returns whether no message comes behind the error: the client fails for good, or has failed.
pub fn ends(error: &ClientError) -> bool
    ensures { result ≡ ends error.now }
{
    match error {
        ClientError::Failed => true,
        _ => fails(error),
    }
}

/// Returns whether a beginning of a message may have been sent before this error.
pub fn may_be_sent(error: &BserError) -> bool
    ensures { result ≡ may_be_sent error.now }
{
    matches!(error, BserError::Io(_) | BserError::OutOfMemory)
}
