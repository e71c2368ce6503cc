//! The messages of a reader, one after the other.
ghost use Rattle.std.specs.Prelude.{◌≡◌, ◌≤◌, true, false, IfOk, IfErr, OnOk, OnErr};
ghost use Rattle.bser_deserializer.specs.declared.deserializer.TheConstants.{LEVELS, MOST_LEVELS};
ghost use Rattle.bser_messages.specs.Limited.{any_length};
ghost use Rattle.bser_messages.specs.Messages.{HeadFirst, Same, SparesMemory};

use crate::limits::Limits;
use crate::next::restarted_message;
use bser_format::errors::{Error, ReadCause, Result};
use bser_source::device::Source;
use bser_source::io_read::IoRead;
use bser_types::deserialize::DeserializeOwned;
use std::alloc::Global;

/// Reads the messages of a reader one after the other, through one window that is made once.
///
/// After an error nothing is known of where the reader is in a message, so each later call answers
/// [`ReadCause::Failed`].
#[derive(Drop)]
pub struct ReaderMessages<S> {
    alloc: Global,
    limits: Limits,
    read: IoRead<S>,
    taken: u64,
    failed: bool,
    ghost levels: { limits.levels ≤ MOST_LEVELS },
}

impl<S: Source> ReaderMessages<S> {
    ghost use Rattle.bser_messages.specs.Readers.{reader_limits, reader_of, reader_taken, reader_failed, Gives, Counts, RefusesFirst, RefusesLater};

    /// Reads from the reader's next byte on, messages of at most 128 levels. Nothing is read yet.
    pub fn new(alloc: Global, reader: S) -> Self
        ensures levels { (reader_limits result).levels ≡ LEVELS }
        ensures bytes { (reader_limits result).bytes ≡ any_length }
        ensures reader { reader_of result ≡ reader }
        ensures taken { reader_taken result ≡ 0 }
        ensures failed { reader_failed result ≡ false }
    {
        Self::with_limits(alloc, Limits::new(), reader)
    }

    /// Reads from the reader's next byte on, messages within these limits. Nothing is read yet.
    pub fn with_limits(alloc: Global, limits: Limits, reader: S) -> Self
        requires { limits.levels ≤ MOST_LEVELS }
        ensures limits { reader_limits result ≡ limits }
        ensures reader { reader_of result ≡ reader }
        ensures taken { reader_taken result ≡ 0 }
        ensures failed { reader_failed result ≡ false }
    {
        ReaderMessages {
            alloc,
            limits,
            read: IoRead::new(reader),
            taken: 0,
            failed: false,
        }
    }

    /// Reads a value from the next message, or answers `None` where no byte is left.
    ///
    /// Fails as [`next_message_limited`](crate::next::next_message_limited) does, and after an
    /// error with [`ReadCause::Failed`], without a call of the reader. After `None` it may be
    /// called again, where the reader may give more.
    pub fn next_message<T: DeserializeOwned>(&mut self) -> Result<Option<T>>
        ensures found { IfOk result (Gives T.Shape S.Source self.old self.new) }
        ensures kept { OnOk result
            (Same S.failures (reader_of self.old) (reader_of self.new)) }
        ensures counted { IfOk result (Counts self.old self.new) }
        ensures works { OnOk result (reader_failed self.old ≡ false) }
        ensures working { OnOk result (reader_failed self.new ≡ false) }
        ensures refused { IfErr result (RefusesFirst T.Shape S.Source self.old self.new) }
        ensures again { IfErr result (RefusesLater self.old self.new) }
        ensures failed { OnErr result (reader_failed self.new ≡ true) }
        ensures stays { OnErr result (reader_taken self.new ≡ reader_taken self.old) }
        ensures limits { reader_limits self.new ≡ reader_limits self.old }
        ensures memory { SparesMemory T.needs result }
        ensures head { HeadFirst (S.remaining (reader_of self.old)) result }
    {
        if self.failed {
            return Err(Error::de_reader_error(ReadCause::Failed));
        }
        match restarted_message(self.alloc, self.limits, &mut self.read) {
            Ok(Some(value)) => {
                self.taken = self.taken.saturating_add(1);
                Ok(Some(value))
            }
            Ok(None) => Ok(None),
            Err(error) => {
                self.failed = true;
                Err(error)
            }
        }
    }

    /// Returns how many messages were taken, up to `u64::MAX`.
    pub fn taken(&self) -> u64
        ensures { result ≡ reader_taken self.now }
    {
        self.taken
    }

    /// Returns whether a call failed, so that each later one does.
    pub fn is_failed(&self) -> bool
        ensures { result ≡ reader_failed self.now }
    {
        self.failed
    }

    /// Returns the reader.
    pub fn get_ref(&self) -> &S
        ensures { result.now ≡ reader_of self.now }
    {
        self.read.get_ref()
    }

    /// Gives the reader back. Where no call failed it is at the start of the next message.
    pub fn into_inner(self) -> S
        ensures { result ≡ reader_of self }
    {
        let ReaderMessages { read, .. } = self;
        read.into_inner()
    }
}
