//! Reading the message at the start of a slice, under limits of levels and of bytes.
ghost use Rattle.std.specs.Prelude.{◌≤◌, length, Some, IfOk, IfErr};
ghost use Rattle.bser_deserializer.specs.declared.deserializer.TheConstants.{MOST_LEVELS};
ghost use Rattle.bser_messages.specs.Limited.{BeginsInLimits, FrontFails};
ghost use Rattle.bser_messages.specs.Messages.{HeadFirst};
ghost use Rattle.bser_messages.specs.Streams.{FrontRead};

use crate::limited::read_limited;
use crate::limits::Limits;
use bser_deserializer::deserializer::Deserializer;
use bser_format::errors::Result;
use bser_source::read::DeRead;
use bser_source::slice_read::SliceRead;
use bser_types::deserialize::Deserialize;
use std::alloc::Global;

/// Reads a value from the message at the start of `bytes`, within these limits.
///
/// As [`from_slice_within`](crate::message::from_slice_within), with one error more: a
/// header that announces a body of more than `limits.bytes` bytes is [`Error::DeTooLong`]. Nothing
/// of such a body is looked at, and no memory is taken for it.
pub fn from_slice_limited<'de, T: Deserialize<&'de [u8]>>(
    alloc: Global,
    limits: Limits,
    bytes: &'de [u8],
) -> Result<T>
    requires { limits.levels ≤ MOST_LEVELS }
    ensures found { IfOk result (BeginsInLimits limits T.Shape bytes.now) }
    ensures refused { IfErr result (FrontFails limits T.Shape bytes.now) }
    ensures head { HeadFirst (Some bytes.now) result }
{
    let (value, _length) = front_message(alloc, limits, bytes)?;
    Ok(value)
}

/// Reads a value from the message at the start of `bytes`, and returns the message's length.
pub(crate) fn front_message<'de, T: Deserialize<&'de [u8]>>(
    alloc: Global,
    limits: Limits,
    bytes: &'de [u8],
) -> Result<(T, usize)>
    requires { limits.levels ≤ MOST_LEVELS }
    ensures within { IfOk result (λ answer. answer.1 ≤ length bytes.now) }
    ensures found { IfOk result (FrontRead limits T.Shape bytes.now) }
    ensures refused { IfErr result (FrontFails limits T.Shape bytes.now) }
    ensures head { HeadFirst (Some bytes.now) result }
{
    let mut from = Deserializer::unread(alloc, SliceRead::new(bytes));
    let value = read_limited(alloc, limits, &mut from)?;
    Ok((value, from.into_inner().read_count()))
}
