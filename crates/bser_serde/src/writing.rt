//! Whole messages that are written.
ghost use Rattle.std.specs.Prelude.{OnOk, IfOk, IfErr};
ghost use Rattle.bser_ser.specs.Message.{IsNoFault};
ghost use Rattle.bser_draft.specs.Written.{IsLeastMessage};
ghost use Rattle.bser_serde.specs.Written.{WroteLeast, Unwritten};

use crate::writer::message_of;
use bser_ser::push_all;
use serde::Serialize;
use serde_bser::device::Sink;
use serde_bser::errors::{Error, Result};
use std::alloc::Global;

/// The message of a value: one well-formed message of at most 128 levels, without templates, each
/// integer, length and count in its least width.
///
/// The error says why the value has none. An unsigned integer above `i64::MAX` is `SerU64TooBig`. A
/// key that is no text and a flattened value that is no object are a `SerCustom`, and more levels
/// are `DeRecursionLimitExceeded`. Where a `Serialize` on the way gives another count than it has
/// items, that is `SerCustom` `ValueOpen`.
pub fn to_vec<T: Serialize>(alloc: Global, value: &T) -> Result<Vec<u8>>
    ensures written { IfOk result (λ message. IsLeastMessage message.items) }
    ensures err { IfErr result IsNoFault }
{
    match message_of(alloc, value) {
        Ok(message) => Ok(message),
        Err(Error::Io(_fault)) => Err(Error::OutOfMemory),
        Err(error) => Err(error),
    }
}

/// Writes the message of a value, as [`to_vec`] makes it.
///
/// Where the value has no message the writer has taken nothing. Where the writer fails, the error is
/// `Io`, and it has taken a beginning of the message.
pub fn to_writer<W: Sink, T: Serialize>(alloc: Global, writer: &mut W, value: &T) -> Result<()>
    ensures written { OnOk result (WroteLeast W.Sink writer.old writer.new) }
    ensures err { IfErr result (Unwritten W.Sink writer.old writer.new) }
{
    let message = to_vec(alloc, value)?;
    match push_all(writer, &message) {
        Ok(()) => Ok(()),
        Err(fault) => Err(Error::Io(fault)),
    }
}
