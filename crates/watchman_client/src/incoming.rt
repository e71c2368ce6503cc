//! The messages of a reader, with one of them in hand.
ghost use Rattle.std.specs.Prelude.{◌≡◌, true, false, IfOk, IfErr};
ghost use Rattle.std.specs.Io.KnownBytes.{Consumes, IsAtEnd, Keeps};
ghost use Rattle.watchman_client.specs.Kinds.{IsWhole};

use bser_frames::error::FrameError;
use bser_frames::frames::Frames;
use bser_messages::limits::Limits;
use bser_source::device::Source;
use std::alloc::Global;
use std::marker::Model;

/// The messages of a reader, of which the next may be looked at before it is taken.
#[derive(Drop)]
pub(crate) struct Incoming<S> {
    frames: Frames<S>,
    held: bool,
    ghost whole: { held ≡ true → IsWhole frames.frame },
}

impl<S> Model for Incoming<S> {
    ghost use Rattle.watchman_client.specs.Views.{Hand};

    ghost Value = { Hand S };

    ghost view = { λ i. record { stream = i.frames; held = i.held } };
}

impl<S: Source> Incoming<S> {
    ghost use Rattle.watchman_client.specs.Views.{StopsHere, left_of};

    /// Reads from the reader's next byte on, messages whose bodies have at most so many bytes.
    pub(crate) fn new(alloc: Global, most: usize, reader: S) -> Self
        ensures left { left_of S.remaining result ≡ S.remaining reader }
        ensures held { result.held ≡ false }
        ensures limits { result.stream.limits.bytes ≡ most }
    {
        let limits = Limits {
            bytes: most,
            ..Limits::new()
        };
        Incoming {
            frames: Frames::with_limits(alloc, limits, reader),
            held: false,
        }
    }

    /// Has the next message in hand, or answers `false` where no byte is left.
    pub(crate) fn reach(&mut self) -> Result<bool, FrameError>
        ensures kept { Keeps (left_of S.remaining self.old) (left_of S.remaining self.new) }
        ensures held { IfOk result (λ there. self.new.held ≡ there) }
        ensures frame { IfOk result (λ there. there ≡ true → IsWhole self.new.stream.frame) }
        ensures end { IfOk result (λ there. there ≡ false
            → IsAtEnd (left_of S.remaining self.new)) }
        ensures refused { IfErr result (StopsHere S.remaining self.new) }
        ensures limits { self.new.stream.limits ≡ self.old.stream.limits }
    {
        if self.held {
            return Ok(true);
        }
        match self.frames.next_frame() {
            Ok(there) => {
                self.held = there;
                Ok(there)
            }
            Err(error) => Err(error),
        }
    }

    /// The message that was read last.
    pub(crate) fn frame(&self) -> &[u8]
        ensures { result.now ≡ self.now.stream.frame }
    {
        self.frames.frame()
    }

    /// The reader.
    pub(crate) fn get_ref(&self) -> &S
        ensures { result.now ≡ self.now.stream.reader }
    {
        self.frames.get_ref()
    }

    /// Lets the message in hand go. It stays what was read last, until the next is read.
    pub(crate) fn release(&mut self)
        requires { self.old.held ≡ true }
        ensures taken { Consumes (left_of S.remaining self.old) (left_of S.remaining self.new)
            self.old.stream.frame }
        ensures held { self.new.held ≡ false }
        ensures stream { self.new.stream ≡ self.old.stream }
        ensures limits { self.new.stream.limits ≡ self.old.stream.limits }
    {
        self.held = false;
    }
}
