//! The deserializer: what is left of a message, and what is expected.
ghost use Rattle.std.specs.Prelude.{IsTrue, ◌≡◌, ◌≢◌, ◌≤◌, ◌-◌, ◌^◌, min, pos, true, false, IfOk, IfErr, OnOk, OnErr};
ghost use Rattle.bser_format.specs.Errors.{error_of};
ghost use Rattle.bser_format.specs.Expected.{nothing_due};
ghost use Rattle.bser_format.specs.Named as named;
ghost use Rattle.bser_source.specs.Refusal.{EndsShort};
ghost use Rattle.bser_source.specs.Window.{Peeks};
ghost use Rattle.bser_bunser.specs.Names.{Names};
ghost use Rattle.bser_bunser.specs.Refusal.{ShortOf};
ghost use Rattle.bser_deserializer.specs.Calls.{Keeps, HasFailed, RefusesBegin, complained};
ghost use Rattle.bser_deserializer.specs.State.{Begins, IsAtEnd, IsUnread, refused, with_source};
ghost use Rattle.bser_deserializer.specs.declared.deserializer.TheConstants.{LEVELS, MOST_LEVELS};

pub use crate::due::Due;
use crate::note::Note;
use bser_bunser::bunser::{Bunser, PduInfo};
use bser_bunser::refusal::{Answer, Refused};
use bser_format::errors::{Complaint, Error, ReadCause, Result};
use bser_source::read::DeRead;
use bser_source::reference::Lending;
use std::alloc::Global;
use std::marker::Model;

/// How deep a message may nest where no limit is given.
pub const LEVELS: usize = 128;

/// How deep a message may nest at most, whatever limit is given.
pub const MOST_LEVELS: usize = 1024;

/// Reads one message.
///
/// The calls of a message's parts answer [`Refused`], which has no content: the error is kept, and
/// [`Deserializer::take_refusal`] gives it. After an error each later call that can fail answers
/// [`ReadCause::Failed`].
#[derive(Drop)]
pub struct Deserializer<R: DeRead> {
    pub(crate) alloc: Global,
    pub(crate) bunser: Bunser<R>,
    pub(crate) info: PduInfo,
    pub(crate) due: Due,
    // the place of the key that is expected, where that is a row's
    pub(crate) place: usize,
    pub(crate) levels: usize,
    pub(crate) opened: usize,
    // the keys of the innermost open template, and those of the templates around it
    pub(crate) keys: Vec<<R::Lent as Lending>::Kept>,
    pub(crate) outer: Vec<Vec<<R::Lent as Lending>::Kept>>,
    // what is noted beside the first error
    pub(crate) note: Note,
}

impl<R: DeRead> Model for Deserializer<R> {
    ghost use Rattle.bser_deserializer.specs.Seen.{Seen};

    ghost Value = { Seen };

    ghost use Rattle.bser_deserializer.specs.View.{seen_of};

    ghost view = { seen_of R.Lent.kept };
}

impl<R: DeRead + Drop> Deserializer<R> {
    /// Takes the header of a message, whose value is expected then, with 128 levels.
    ///
    /// Fails as [`Bunser::read_pdu`] does.
    pub fn new(alloc: Global, read: R) -> Result<Self>
        ensures ok { IfOk result (λ d. Begins LEVELS (R.window read) d.state) }
        ensures refused { IfErr result (λ e. RefusesBegin e (R.window read)) }
    {
        Self::with_limit(alloc, LEVELS, read)
    }

    /// Takes the header of a message, whose value is expected then, with `limit` levels.
    ///
    /// Fails as [`Bunser::read_pdu`] does.
    pub fn with_limit(alloc: Global, limit: usize, read: R) -> Result<Self>
        requires { limit ≤ MOST_LEVELS }
        ensures ok { IfOk result (λ d. Begins limit (R.window read) d.state) }
        ensures refused { IfErr result (λ e. RefusesBegin e (R.window read)) }
    {
        let mut from = Self::unread(alloc, read);
        match from.read_head(limit) {
            Ok(()) => Ok(from),
            Err(Refused) => Err(from.take_refusal()),
        }
    }
}

impl<R: DeRead> Deserializer<R> {
    ghost use Rattle.bser_deserializer.specs.View.{not_at_end};

    /// Reads from the source's next byte on. Before the header is read nothing is expected, and the
    /// length and the start of the body are 0.
    #[inline(always)]
    pub fn unread(alloc: Global, read: R) -> Self
        ensures source { result.state.source ≡ R.window read }
        ensures due { result.state.due ≡ nothing_due }
        ensures len { result.state.len ≡ pos 0 }
        ensures start { result.state.start ≡ pos 0 }
        ensures unread { IsUnread result.state }
        ensures refusal { result.refusal ≡ error_of ReadCause.Failed }
    {
        Deserializer {
            alloc,
            bunser: Bunser::new(alloc, read),
            info: PduInfo {
                bser_capabilities: 0,
                len: 0,
                start: 0,
            },
            due: Due::Nothing,
            place: 0,
            levels: 0,
            opened: 0,
            keys: Vec::new(alloc),
            outer: Vec::new(alloc),
            note: Note::NONE,
        }
    }

    /// Buffers the source's next byte, and takes none, whatever is expected.
    ///
    /// Fails as [`Bunser::peek`] does.
    pub fn peek(&mut self) -> Result<u8>
        ensures ok { IfOk result (Peeks self.old.state.source self.new.state.source) }
        ensures state { OnOk result
            (self.new.state ≡ with_source self.old.state self.new.state.source) }
        ensures err { IfErr result (λ e.
            ShortOf 1 e self.old.state.source self.new.state.source) }
        ensures end { IfErr result (λ e. e ≡ error_of ReadCause.Eof
            → EndsShort 1 self.old.state.source self.new.state.source) }
        ensures memory { IfErr result (λ e. e ≢ Error.OutOfMemory) }
    {
        self.bunser.peek()
    }

    /// Takes the header of a message, whose value is expected then, with `limit` levels.
    ///
    /// Fails as [`Bunser::read_pdu`] does.
    pub fn read_head(&mut self, limit: usize) -> Answer<()>
        requires { IsUnread self.old.state }
        ensures ok { OnOk result (Begins limit self.old.state.source self.new.state) }
        ensures kept { OnOk result (Keeps self.old self.new) }
        ensures err { OnErr result (HasFailed self.old self.new) }
        ensures names { OnErr result (Names named.head self.new.refusal self.old.state.source) }
        ensures memory { OnErr result (self.new.refusal ≢ Error.OutOfMemory) }
    {
        self.info = self.bunser.read_head()?;
        self.due = Due::Node;
        self.levels = limit;
        Ok(())
    }

    /// Makes all calls from now on fail, and keeps the error, which [`Deserializer::take_refusal`]
    /// gives.
    ///
    /// A type fails so for what it does not read.
    #[cold]
    #[inline(never)]
    pub fn refuse(&mut self, reason: Error) -> Refused
        ensures reason { self.new.refusal ≡ reason }
        ensures state { self.new.state ≡ refused self.old.state }
        ensures note { self.new.note ≡ self.old.note }
    {
        self.bunser.refuse(reason)
    }

    /// Fails with this complaint, or with [`ReadCause::Failed`] after an earlier error.
    #[cold]
    #[inline(never)]
    pub fn complain(&mut self, complaint: Complaint) -> Refused
        ensures reason { self.new.refusal ≡ complained complaint self.old }
        ensures state { self.new.state ≡ refused self.old.state }
        ensures note { self.new.note ≡ self.old.note }
        ensures memory { self.new.refusal ≢ Error.OutOfMemory }
    {
        if self.bunser.is_failed() {
            return self
                .bunser
                .refuse(Error::de_reader_error(ReadCause::Failed));
        }
        self.bunser.refuse(Error::de_custom(complaint))
    }

    /// Takes the last error, as [`Bunser::take_refusal`] does.
    #[cold]
    #[inline(never)]
    pub fn take_refusal(&mut self) -> Error
        ensures reason { result ≡ self.old.refusal }
        ensures taken { self.new.refusal ≡ error_of ReadCause.Failed }
        ensures state { self.new.state ≡ self.old.state }
    {
        self.bunser.take_refusal()
    }

    /// Checks that the value was read to its end, and that the body ended where it was to.
    ///
    /// The error is [`Complaint::ValueOpen`] where a value is expected or a container is open,
    /// [`ReadCause::Failed`] after an earlier error, and else that of [`Bunser::end`]. An error
    /// changes nothing.
    pub fn end(&self) -> Result<()>
        ensures ok { OnOk result (IsAtEnd self.now.state) }
        ensures working { OnOk result (self.now.state.source.failed ≡ false) }
        ensures err { OnErr result (IsAtEnd self.now.state → IsTrue self.now.state.source.failed) }
        ensures name { IfErr result (λ e. e ≡ not_at_end self.now.state) }
        ensures memory { IfErr result (λ e. e ≢ Error.OutOfMemory) }
    {
        if self.bunser.is_failed() {
            return Err(Error::de_reader_error(ReadCause::Failed));
        }
        if self.is_due() || self.opened != 0 {
            return Err(Error::de_custom(Complaint::ValueOpen));
        }
        self.bunser.end(&self.info)
    }

    /// Returns the allocator that its constructor was given.
    #[inline(always)]
    pub fn allocator(&self) -> Global {
        self.alloc
    }

    /// Whether anything is expected.
    pub(crate) fn is_due(&self) -> bool
        ensures none { result ≡ false → self.now.state.due ≡ nothing_due }
        ensures some { result ≡ true → self.now.state.due ≢ nothing_due }
    {
        match self.due {
            Due::Nothing => false,
            Due::Name => self.place < self.keys.len(),
            _ => true,
        }
    }

    /// Returns the capabilities that the message's header gives.
    pub fn capabilities(&self) -> u32
        ensures { result ≡ self.now.state.capabilities }
    {
        self.info.bser_capabilities
    }

    /// Returns the length of the message's body in bytes, as its header announces it, or 0 before
    /// the header is read.
    pub fn body_length(&self) -> i64
        ensures { result ≡ self.now.state.len }
    {
        self.info.len
    }

    /// Returns how many bytes were taken, at most `i64::MAX`. Bytes that are only buffered are not
    /// counted. After an error it stays as it was then.
    pub fn read_count(&self) -> i64
        ensures { result ≡ pos (min self.now.state.source.count (2 ^ 63 - 1)) }
    {
        self.bunser.read_count()
    }

    /// Returns how many bytes were taken. Bytes that are only buffered are not counted.
    #[inline(always)]
    pub fn taken(&self) -> usize
        ensures { result ≡ self.now.state.source.count }
    {
        self.bunser.taken()
    }

    /// Returns where the body of the message began, by the count of bytes taken; 0 before the
    /// header is read.
    pub fn start(&self) -> i64
        ensures { result ≡ self.now.state.start }
    {
        self.info.start
    }

    /// Returns how many containers are open. A template that is read as an array of objects counts
    /// as that array, and its row as an object.
    pub fn opened(&self) -> usize
        ensures { result ≡ self.now.state.opened }
    {
        self.opened
    }

    /// Gives the byte source back, as far as it was read.
    #[inline(always)]
    pub fn into_inner(self) -> R
        ensures { R.window result ≡ self.state.source }
    {
        let Deserializer { bunser, .. } = self;
        bunser.into_inner()
    }
}
