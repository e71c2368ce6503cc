//! Reading an answer as a value, or as the server's error.
ghost use Rattle.std.specs.Prelude.{IfOk, IfErr, OnOk};
ghost use Rattle.bser_deserializer.specs.declared.deserializer.TheConstants.{LEVELS};
ghost use Rattle.bser_messages.specs.Messages.{BeginsWith};
ghost use Rattle.watchman_client.specs.Failures.{IsToldError, Unread};
ghost use Rattle.watchman_client.specs.Kinds.{TellsNoError};
ghost use Rattle.watchman_client.specs.Requests.{ReadsOwned, UnreadOwned};

use crate::answer_error::AnswerError;
use crate::errors::ClientError;
use crate::kinds::error_of;
use bser_deserializer::deserializer::LEVELS;
use bser_frames::owned::read_owned;
use bser_messages::described::from_slice;
use bser_types::deserialize::{Deserialize, DeserializeOwned};
use std::alloc::Global;

/// Fails where the message reports an error.
pub(crate) fn refuse_error(alloc: Global, message: &[u8]) -> Result<(), ClientError>
    ensures none { OnOk result (TellsNoError message.now) }
    ensures told { IfErr result (λ e. IsToldError e message.now) }
{
    match error_of(alloc, message) {
        Ok(None) => Ok(()),
        Ok(Some(error)) => Err(ClientError::Server(error)),
        Err(_) => Err(ClientError::Memory),
    }
}

/// Reads a value from an answer, of at most 128 levels, with parts borrowed from it.
///
/// Fails with [`ClientError::Server`] where the answer is an object that has an `error`, whatever else
/// it has; else with [`ClientError::Answer`] where it cannot be read as the type; and with
/// [`ClientError::Memory`].
pub fn read_answer<'m, T: Deserialize<&'m [u8]>>(
    alloc: Global,
    message: &'m [u8],
) -> Result<T, ClientError>
    ensures found { IfOk result (BeginsWith LEVELS T.reads T.holds message.now) }
    ensures none { OnOk result (TellsNoError message.now) }
    ensures refused { IfErr result (Unread T.Shape message.now) }
{
    refuse_error(alloc, message)?;
    read_value(alloc, message)
}

/// Reads a value from a message that reports no error, with parts borrowed from it.
pub(crate) fn read_value<'m, T: Deserialize<&'m [u8]>>(
    alloc: Global,
    message: &'m [u8],
) -> Result<T, ClientError>
    ensures found { IfOk result (BeginsWith LEVELS T.reads T.holds message.now) }
    ensures refused { IfErr result (Unread T.Shape message.now) }
{
    match from_slice(alloc, message) {
        Ok(value) => Ok(value),
        Err(description) => {
            let error = AnswerError::find(alloc, description, message);
            Err(ClientError::Answer(error))
        }
    }
}

/// Reads a value that borrows nothing from an answer, of at most 128 levels.
///
/// Fails as [`read_answer`] does. What cannot be read is the error of a reader that has these bytes.
pub fn read_owned_answer<T: DeserializeOwned>(
    alloc: Global,
    message: &[u8],
) -> Result<T, ClientError>
    ensures found { IfOk result (ReadsOwned T.Shape message.now) }
    ensures refused { IfErr result (UnreadOwned T.Shape message.now) }
{
    refuse_error(alloc, message)?;
    read_owned_value(alloc, message)
}

/// Reads a value that borrows nothing from a message that reports no error.
pub(crate) fn read_owned_value<T: DeserializeOwned>(
    alloc: Global,
    message: &[u8],
) -> Result<T, ClientError>
    requires { TellsNoError message.now }
    ensures found { IfOk result (ReadsOwned T.Shape message.now) }
    ensures refused { IfErr result (UnreadOwned T.Shape message.now) }
{
    match read_owned(alloc, LEVELS, message) {
        Ok(value) => Ok(value),
        Err(description) => {
            let error = AnswerError::find(alloc, description, message);
            Err(ClientError::Answer(error))
        }
    }
}
