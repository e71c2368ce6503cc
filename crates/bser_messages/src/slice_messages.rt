//! The messages of a slice, one after the other.
ghost use Rattle.std.specs.Prelude.{◌≡◌, ◌≢◌, ◌≤◌, ◌+◌, [], length, Some, IfOk, IfErr, IfNone, OnErr};
ghost use Rattle.bser_deserializer.specs.declared.deserializer.TheConstants.{LEVELS, MOST_LEVELS};
ghost use Rattle.bser_messages.specs.Limited.{any_length};
ghost use Rattle.bser_messages.specs.Messages.{HeadFirst};
ghost use Rattle.bser_messages.specs.Slices.{rest_of, GivesPart, RefusesPart};

use crate::limited_slice::front_message;
use crate::limits::Limits;
use bser_format::errors::Result;
use bser_types::deserialize::Deserialize;
use std::alloc::Global;
use std::marker::Model;

/// Reads the messages of a slice one after the other, with parts borrowed from it.
#[derive(Drop)]
pub struct SliceMessages<'de> {
    alloc: Global,
    limits: Limits,
    bytes: &'de [u8],
    taken: usize,
    ghost levels: { limits.levels ≤ MOST_LEVELS },
    ghost within: { taken ≤ length bytes.now },
}

impl<'de> Model for SliceMessages<'de> {
    ghost use Rattle.bser_messages.specs.Slices.{SliceStream};

    ghost Value = { SliceStream };

    ghost view = { λ s. record { limits = s.limits; whole = s.bytes.now; taken = s.taken } };
}

impl<'de> SliceMessages<'de> {
    /// Reads from the start of `bytes`, messages of at most 128 levels.
    pub fn new(alloc: Global, bytes: &'de [u8]) -> Self
        ensures levels { result.limits.levels ≡ LEVELS }
        ensures bytes { result.limits.bytes ≡ any_length }
        ensures whole { result.whole ≡ bytes.entry.now }
        ensures taken { result.taken ≡ 0 }
    {
        Self::with_limits(alloc, Limits::new(), bytes)
    }

    /// Reads from the start of `bytes`, messages within these limits.
    pub fn with_limits(alloc: Global, limits: Limits, bytes: &'de [u8]) -> Self
        requires { limits.levels ≤ MOST_LEVELS }
        ensures limits { result.limits ≡ limits }
        ensures whole { result.whole ≡ bytes.entry.now }
        ensures taken { result.taken ≡ 0 }
    {
        SliceMessages {
            alloc,
            limits,
            bytes,
            taken: 0,
        }
    }

    /// Reads a value from the next message, or answers `None` where no byte is left.
    ///
    /// Fails as [`from_slice_limited`](crate::limited_slice::from_slice_limited) does. An error takes
    /// nothing, so [`Self::rest`] begins with the message that failed, which the next call reads
    /// again, perhaps as another type.
    pub fn next_message<T: Deserialize<&'de [u8]>>(&mut self) -> Result<Option<T>>
        ensures found { IfOk result (GivesPart T.Shape self.old self.new) }
        ensures refused { IfErr result (RefusesPart T.Shape self.old) }
        ensures head { HeadFirst (Some (rest_of self.old)) result }
        ensures ended { IfOk result (λ a. IfNone a (self.new.taken ≡ self.old.taken)) }
        ensures some { OnErr result (rest_of self.old ≢ []) }
        ensures stays { OnErr result (self.new.taken ≡ self.old.taken) }
        ensures whole { self.new.whole ≡ self.old.whole }
        ensures limits { self.new.limits ≡ self.old.limits }
    {
        let left: &'de [u8] = &self.bytes[self.taken..];
        if left.is_empty() {
            return Ok(None);
        }
        let (value, length) = front_message(self.alloc, self.limits, left)?;
        self.taken += length;
        Ok(Some(value))
    }

    /// Returns the bytes after the messages that were taken.
    pub fn rest(&self) -> &'de [u8]
        ensures { result.now ≡ rest_of self.now }
    {
        &self.bytes[self.taken..]
    }

    /// Returns how many bytes the messages have that were taken: the place of the next one in the
    /// slice.
    pub fn taken(&self) -> usize
        ensures value { result ≡ self.now.taken }
        ensures within { result + length (rest_of self.now) ≡ length self.now.whole }
    {
        self.taken
    }
}
