//! The size of a message with its templates written out, without making its value.
ghost use Rattle.std.specs.Prelude.{refl, Some, None, IfOk, IfErr, OnErr, ◌≤◌};
ghost use Rattle.bser_deserializer.specs.Reading.{owned};
ghost use Rattle.bser_deserializer.specs.declared.deserializer.TheConstants.{LEVELS, MOST_LEVELS};
ghost use Rattle.bser_messages.specs.Messages.{HeadFirst};
ghost use Rattle.bser_messages.specs.MessageSizes.{
  MessageSize,
  MessageSizeWithin,
  SizeRefused,
  SizeRefusedWithin,
  asking_size,
};
ghost use Rattle.bser_messages.specs.Sizes.{HoldsTreeSize, reads_size};

use crate::limited_slice::from_slice_limited;
use crate::limits::Limits;
use crate::message::from_slice;
use crate::sizing::Sizing;
use bser_bunser::refusal::Answer;
use bser_deserializer::deserializer::Deserializer;
use bser_format::errors::Result;
use bser_source::read::DeRead;
use bser_source::reference::LendsText;
use bser_types::deserialize::{Deserialize, OwnedShape, Shape};
use std::alloc::Global;

/// The size of a value with each template in it written out as an array of objects.
///
/// It is read in place of the value, for a quarter more instructions than skipping it, and nothing
/// of the value is kept. A `Value` has at most as many values, bytes of keys and levels: equal keys
/// of an object are one in it.
#[derive(Debug, Clone, Copy, PartialEq, Eq)]
pub struct Size {
    /// How many values there are, containers and the rows of templates among them. A skipped field
    /// is a null. At most `u64::MAX`.
    pub values: u64,
    /// How many bytes the keys of all objects have together, equal keys counted each time, and a
    /// template's keys once for each row. At most `u64::MAX`.
    pub key_bytes: u64,
    /// How deep containers nest: 0 for a scalar or a string. A template counts as its array, and
    /// where it has rows as the objects in it too. At most `usize::MAX`.
    pub depth: usize,
}

impl Shape for Size {
    ghost reads = { reads_size };

    ghost holds = { HoldsTreeSize };

    ghost needs = { owned };

    ghost asks = { Some asking_size };

    ghost plain = { None };
}

/// Any value is read, as [`Ignored`](bser_types::impls::Ignored) is, with the same errors.
impl<L: LendsText> Deserialize<L> for Size {
    fn deserialize<R: DeRead<Lent = L>>(alloc: Global, from: &mut Deserializer<R>) -> Answer<Size> {
        let mut sizing = Sizing::new(alloc);
        from.read_any(&mut sizing)?;
        Ok(sizing.into_size())
    }
}

impl OwnedShape for Size {
    ghost owned = { refl };
}

/// Returns the size of the message at the start of `bytes`, of at most 128 levels. What follows the
/// message is ignored.
///
/// Fails where no prefix of `bytes` is a message whose keys are all UTF-8. The error is that of
/// skipping the message: the first one in the order of reading, or [`Error::OutOfMemory`], which
/// comes only after the message's header.
///
/// [`Error::OutOfMemory`]: bser_format::errors::Error::OutOfMemory
pub fn size_of(alloc: Global, bytes: &[u8]) -> Result<Size>
    ensures found { IfOk result (MessageSize LEVELS bytes.now) }
    ensures refused { IfErr result (SizeRefused LEVELS bytes.now) }
    ensures head { HeadFirst (Some bytes.now) result }
{
    from_slice(alloc, bytes)
}

/// Returns the size of the message at the start of `bytes`, within these limits.
///
/// As [`size_of`], with `limits.levels` for 128, and with one error more: a header that announces a
/// body of more than `limits.bytes` bytes is [`Error::DeTooLong`].
///
/// [`Error::DeTooLong`]: bser_format::errors::Error::DeTooLong
pub fn size_of_limited(alloc: Global, limits: Limits, bytes: &[u8]) -> Result<Size>
    requires { limits.levels ≤ MOST_LEVELS }
    ensures found { IfOk result (MessageSizeWithin limits bytes.now) }
    ensures refused { IfErr result (SizeRefusedWithin limits bytes.now) }
    ensures head { HeadFirst (Some bytes.now) result }
{
    from_slice_limited(alloc, limits, bytes)
}
