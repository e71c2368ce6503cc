//! The messages of a reader, one after the other, as bytes.
ghost use Rattle.std.specs.Prelude.{◌≡◌, ◌≤◌, ◌+◌, [], max, true, false, length, Some, IfOk, IfErr, OnOk, OnErr};
ghost use Rattle.std.specs.Io.KnownBytes.{Keeps};
ghost use Rattle.bser_deserializer.specs.declared.deserializer.TheConstants.{LEVELS, MOST_LEVELS};
ghost use Rattle.bser_messages.specs.Limited.{any_length};
ghost use Rattle.bser_messages.specs.Messages.{BeginsWith, HeadFirst, SliceRefused, SparesMemory};
ghost use Rattle.bser_messages.specs.Descriptions.{LiesWithin, caused};
ghost use Rattle.bser_frames.specs.Headers.{IsDue};
ghost use Rattle.bser_frames.specs.Stops.{Stops, failures_after};
ghost use Rattle.bser_frames.specs.declared.buffer.TheConstants.{STEP};

use crate::buffer::Buffer;
use crate::error::{FrameError, MessageError};
use crate::owned::read_owned;
use crate::pulling::pull_frame;
use bser_messages::described::from_slice_within;
use bser_messages::description::Description;
use bser_messages::limits::Limits;
use bser_source::device::Source;
use bser_types::deserialize::{Deserialize, DeserializeOwned};
use std::alloc::Global;
use std::marker::Model;

/// Takes the messages of a reader one after the other, as bytes.
///
/// A frame is the whole message that its header announces, whatever its body holds, so no length
/// inside the body reaches past it, and any type is read from it, as often as wanted. The reader is
/// asked for no byte past the announced end. Memory is taken as bytes come, at most 65,536 bytes
/// ahead, and kept for the next message.
///
/// An error loses nothing: what came of a message is kept. After an error of the reader, without
/// memory and after `Cut` the next call goes on with it; after `Header` and `TooLong` it gives that
/// error again.
#[derive(Drop)]
pub struct Frames<S> {
    alloc: Global,
    limits: Limits,
    reader: S,
    buffer: Buffer,
    taken: bool,
    position: u64,
    ghost levels: { limits.levels ≤ MOST_LEVELS },
    ghost due: { taken ≡ false → IsDue limits.bytes buffer.bytes },
}

impl<S> Model for Frames<S> {
    ghost use Rattle.bser_frames.specs.Stream.{Stream};

    ghost Value = { Stream S };

    ghost view = { λ f. record {
      reader = f.reader;
      limits = f.limits;
      frame = f.buffer.bytes;
      taken = f.taken;
      position = f.position;
      room = f.buffer.room;
    } };
}

impl<S: Source> Frames<S> {
    ghost use Rattle.bser_frames.specs.Messages.{GivesMessage, RefusesMessage, read_answer};
    ghost use Rattle.bser_frames.specs.Stream.{IsNextFrame, due_of, left, next_position};

    /// Takes from the reader's next byte on, messages of any length, which are read with at most
    /// 128 levels. Nothing is taken yet.
    pub fn new(alloc: Global, reader: S) -> Self
        ensures levels { result.limits.levels ≡ LEVELS }
        ensures bytes { result.limits.bytes ≡ any_length }
        ensures left { left S.remaining result ≡ S.remaining reader }
        ensures reader { result.reader ≡ reader }
        ensures position { next_position result ≡ 0 }
        ensures frame { result.frame ≡ [] }
        ensures room { result.room ≡ 0 }
    {
        Self::with_limits(alloc, Limits::new(), reader)
    }

    /// Takes from the reader's next byte on, messages whose bodies have at most `limits.bytes`
    /// bytes, which are read with at most `limits.levels` levels. Nothing is taken yet.
    pub fn with_limits(alloc: Global, limits: Limits, reader: S) -> Self
        requires { limits.levels ≤ MOST_LEVELS }
        ensures limits { result.limits ≡ limits }
        ensures left { left S.remaining result ≡ S.remaining reader }
        ensures reader { result.reader ≡ reader }
        ensures position { next_position result ≡ 0 }
        ensures frame { result.frame ≡ [] }
        ensures room { result.room ≡ 0 }
    {
        Frames {
            alloc,
            limits,
            reader,
            buffer: Buffer::new(alloc),
            taken: true,
            position: 0,
        }
    }

    /// Takes the next message, or answers false where no byte is left.
    ///
    /// After false it may be called again, where the reader may give more. The errors are those of
    /// [`FrameError`]. After an error [`Self::frame`] is what came of the message.
    #[tactic(auto, using(crate::proofs::Nexts::kept, crate::proofs::Nexts::next_found))]
    pub fn next_frame(&mut self) -> Result<bool, FrameError>
        ensures found { IfOk result (λ whole. IsNextFrame self.old.limits.bytes whole
            (left S.remaining self.old) (left S.remaining self.new) self.new.frame) }
        ensures kept { OnOk result
            (S.failures self.new.reader ≡ S.failures self.old.reader) }
        ensures refused { IfErr result (λ e. Stops self.old.limits.bytes e
            self.new.frame (S.remaining self.new.reader)) }
        ensures failures { IfErr result (λ e. S.failures self.new.reader
            ≡ failures_after e (S.failures self.old.reader)) }
        ensures stays { OnErr result
            (Keeps (left S.remaining self.old) (left S.remaining self.new)) }
        ensures taken { IfOk result (λ whole. self.new.taken ≡ whole) }
        ensures due { OnErr result (self.new.taken ≡ false) }
        ensures position { self.new.position ≡ next_position self.old }
        ensures limits { self.new.limits ≡ self.old.limits }
        ensures ahead { self.new.room ≤ max self.old.room (length self.new.frame + STEP) }
    {
        self.pass();
        match pull_frame(
            self.alloc,
            self.limits.bytes,
            &mut self.reader,
            &mut self.buffer,
        ) {
            Ok(whole) => {
                self.taken = whole;
                Ok(whole)
            }
            Err(error) => Err(error),
        }
    }

    /// Drops the message that was taken.
    #[tactic(auto, using(crate::proofs::Dues::nothing_due))]
    fn pass(&mut self)
        ensures taken { self.new.taken ≡ false }
        ensures frame { self.new.frame ≡ due_of self.old }
        ensures position { self.new.position ≡ next_position self.old }
        ensures reader { self.new.reader ≡ self.old.reader }
        ensures limits { self.new.limits ≡ self.old.limits }
        ensures room { self.new.room ≡ self.old.room }
    {
        if self.taken {
            self.position = self.position.saturating_add(self.buffer.len() as u64);
            self.buffer.clear();
            self.taken = false;
        }
    }

    /// Returns the bytes of the message that was taken last; after an error, what came of the one
    /// that is due.
    pub fn frame(&self) -> &[u8]
        ensures { result.now ≡ self.now.frame }
    {
        self.buffer.as_slice()
    }

    /// Returns how many bytes of the reader lie before [`Self::frame`], at most `u64::MAX`.
    ///
    /// Its sum with the place of a [`Description`] is where in the stream the error is.
    pub fn position(&self) -> u64
        ensures { result ≡ self.now.position }
    {
        self.position
    }

    /// Reads a value from the frame, with parts borrowed from it.
    ///
    /// As [`from_slice_within`], with the limit of levels that was given.
    pub fn read<'f, T: Deserialize<&'f [u8]>>(&'f self) -> Result<T, Description>
        ensures found { IfOk (caused result)
            (BeginsWith self.now.limits.levels T.reads T.holds self.now.frame) }
        ensures refused { IfErr (caused result)
            (SliceRefused self.now.limits.levels T.Shape self.now.frame) }
        ensures head { HeadFirst (Some self.now.frame) (caused result) }
        ensures place { IfErr result (LiesWithin (length self.now.frame)) }
    {
        from_slice_within(self.alloc, self.limits.levels, self.buffer.as_slice())
    }

    /// Takes the next message and reads a value from it, which borrows nothing, or answers `None`
    /// where no byte is left.
    ///
    /// After a [`MessageError::Message`] the frame was taken, and [`Self::read`] may read it as
    /// another type.
    pub fn next_message<T: DeserializeOwned>(&mut self) -> Result<Option<T>, MessageError>
        ensures found { IfOk result (GivesMessage T.Shape S.Source self.old self.new) }
        ensures refused { IfErr result (RefusesMessage T.Shape S.Source self.old self.new) }
        ensures memory { SparesMemory T.needs (read_answer result) }
        ensures head { HeadFirst (Some self.new.frame) (read_answer result) }
        ensures kept { OnOk result
            (S.failures self.new.reader ≡ S.failures self.old.reader) }
        ensures position { self.new.position ≡ next_position self.old }
        ensures limits { self.new.limits ≡ self.old.limits }
        ensures ahead { self.new.room ≤ max self.old.room (length self.new.frame + STEP) }
    {
        match self.next_frame() {
            Ok(true) => match read_owned(self.alloc, self.limits.levels, self.buffer.as_slice()) {
                Ok(value) => Ok(Some(value)),
                Err(description) => Err(MessageError::Message(description)),
            },
            Ok(false) => Ok(None),
            Err(error) => Err(MessageError::Frame(error)),
        }
    }

    /// Returns the limits of each message.
    pub fn limits(&self) -> Limits
        ensures { result ≡ self.now.limits }
    {
        self.limits
    }

    /// Returns the reader.
    pub fn get_ref(&self) -> &S
        ensures { result.now ≡ self.now.reader }
    {
        &self.reader
    }

    /// Gives the reader back. What came of a message that is due is lost.
    pub fn into_inner(self) -> S
        ensures { result ≡ self.reader }
    {
        let Frames { reader, .. } = self;
        reader
    }
}
