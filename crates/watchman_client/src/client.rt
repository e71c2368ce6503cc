//! A client over a reader and a writer.
ghost use Rattle.std.specs.Prelude.{◌≡◌, ◌≤◌, ◌<◌, ◌-◌, ◌||◌, ◌↔◌, IsTrue, [], ◌∷◌, true, false, length, Some, None, OnOk, OnErr, IfOk, IfErr};
ghost use Rattle.std.specs.List.{concat};
ghost use Rattle.std.specs.Io.KnownBytes.{IsAtEnd, Keeps};
ghost use Rattle.bser_deserializer.specs.declared.deserializer.TheConstants.{LEVELS};
ghost use Rattle.bser_messages.specs.Messages.{BeginsWith};
ghost use Rattle.bser_ser.specs.Message.{Missed, Wrote};
ghost use Rattle.watchman_client.specs.Failures.{fails, Hinders, IsToldError, Unread, Unsent};
ghost use Rattle.watchman_client.specs.Kinds.{TellsNoError};
ghost use Rattle.watchman_client.specs.Requests.{ReadsOwned, UnreadOwned};
ghost use Rattle.watchman_client.specs.Steps.{Asks, GivesAnswer, GivesNothing, GivesUnsolicited};
ghost use Rattle.watchman_client.specs.Views.{view_of, room_of, HasNext, StaysWithin};

use crate::bounds::Bounds;
use crate::errors::{ClientError, fails, may_be_sent};
use crate::incoming::Incoming;
use crate::kept::{Kept, QueueError};
use crate::next::{NextMessage, next_kind};
use crate::reading::{read_owned_value, read_value, refuse_error};
use bser_ser::Serialize;
use bser_ser::message::serialize_to;
use bser_source::device::{Sink, Source};
use bser_types::deserialize::{Deserialize, DeserializeOwned};
use std::alloc::Global;
use std::marker::Model;

/// A client of Watchman over any reader and writer.
///
/// One request is outstanding at a time. A message of the server is unsolicited where it is an object
/// whose `unilateral` is true, and every other message is the answer to the outstanding request.
#[derive(Drop)]
pub struct Client<S, W> {
    alloc: Global,
    bounds: Bounds,
    incoming: Incoming<S>,
    writer: W,
    kept: Kept,
    // the message that was given last, where it was a kept one
    taken: Option<Vec<u8>>,
    // whether the message that was given last is known to report no error
    errorless: bool,
    waiting: bool,
    failed: bool,
    ghost told: { errorless ≡ true → TellsNoError
        (elim taken [ Some m ↦ m.items | None ↦ incoming.stream.frame ]) },
}

impl<S, W> Model for Client<S, W> {
    ghost use Rattle.std.specs.Prelude.{Some, None};
    ghost use Rattle.watchman_client.specs.Kept.{IsWithin};
    ghost use Rattle.watchman_client.specs.Views.{Connection};

    ghost Value = { Connection S W };

    ghost view = { λ c. record {
      incoming = c.incoming;
      kept = c.kept;
      bounds = c.bounds;
      writer = c.writer;
      waiting = c.waiting;
      failed = c.failed;
      message = elim c.taken [ Some m ↦ m.items | None ↦ c.incoming.stream.frame ];
    } };

    ghost invariant = { λ c. IsWithin c.bounds c.kept };
}

impl<S: Source, W: Sink> Client<S, W> {
    /// Makes a client that has sent nothing, and that reads from the reader's next byte on.
    pub fn new(alloc: Global, bounds: Bounds, reader: S, writer: W) -> Self
        ensures left { (view_of S.remaining result).left ≡ S.remaining reader }
        ensures kept { result.kept ≡ [] }
        ensures waiting { result.waiting ≡ false }
        ensures failed { result.failed ≡ false }
        ensures writer { result.writer ≡ writer }
        ensures bounds { result.bounds ≡ bounds }
        ensures limits { result.incoming.stream.limits.bytes ≡ bounds.message_bytes }
    {
        Client {
            alloc,
            bounds,
            incoming: Incoming::new(alloc, bounds.message_bytes, reader),
            writer,
            kept: Kept::new(alloc),
            taken: None,
            errorless: false,
            waiting: false,
            failed: false,
        }
    }

    /// Sends the request's message, whose answer is outstanding from then on.
    ///
    /// Fails with [`ClientError::Outstanding`] where one is outstanding already, with
    /// [`ClientError::Failed`] after a call that failed for good, and with
    /// [`ClientError::Request`] where the message cannot be written. Nothing is read.
    pub fn send<T: Serialize>(&mut self, request: &T) -> Result<(), ClientError>
        ensures asked { OnOk result (Asks (view_of S.remaining self.old)
            (view_of S.remaining self.new)) }
        ensures sent { OnOk result (Wrote W.Sink (T.meaning request.now)
            self.old.writer self.new.writer) }
        ensures refused { IfErr result (Unsent S.remaining W.Sink (T.meaning request.now)
            self.old self.new) }
        ensures within { StaysWithin self.old self.new }
    {
        if self.has_failed() {
            return Err(ClientError::Failed);
        }
        if self.is_waiting() {
            return Err(ClientError::Outstanding);
        }
        match serialize_to(self.alloc, &mut self.writer, request) {
            Ok(()) => {
                self.waiting = true;
                Ok(())
            }
            Err(error) => {
                self.failed = may_be_sent(&error);
                Err(ClientError::Request(error))
            }
        }
    }

    /// Takes the answer to the outstanding request. [`message`](Self::message) lends its bytes, until
    /// the next call that reads. Unsolicited messages before it are kept in their order.
    ///
    /// Fails with [`ClientError::NoRequest`], [`ClientError::Failed`], [`ClientError::Ended`],
    /// [`ClientError::Full`], [`ClientError::Memory`] and [`ClientError::Frame`]. The request
    /// stays outstanding, and the next call goes on with the message at which this one stopped.
    pub fn answer(&mut self) -> Result<(), ClientError>
        ensures given { OnOk result (GivesAnswer (view_of S.remaining self.old)
            (view_of S.remaining self.new)) }
        ensures nothing { OnErr result (GivesNothing (view_of S.remaining self.old)
            (view_of S.remaining self.new)) }
        ensures refused { IfErr result (λ e. Hinders S.remaining e self.new) }
        ensures failed { IfErr result (λ e. self.new.failed ≡ (self.old.failed || fails e)) }
        ensures writer { self.new.writer ≡ self.old.writer }
        ensures within { StaysWithin self.old self.new }
    {
        let answer = self.take_answer();
        if let Err(error) = &answer {
            self.failed = self.failed || fails(error);
        }
        answer
    }

    /// Takes the next unsolicited message, a kept one before those of the stream, or answers `false`
    /// where the stream ended behind a whole message. [`message`](Self::message) lends its bytes,
    /// until the next call that reads.
    ///
    /// Kept ones are given after a call that failed for good too. Then it fails with
    /// [`ClientError::Failed`]; and with [`ClientError::AnswerDue`], [`ClientError::Unwanted`],
    /// [`ClientError::Memory`] and [`ClientError::Frame`].
    pub fn next_unsolicited(&mut self) -> Result<bool, ClientError>
        ensures given { IfOk result (λ b. b ≡ true → GivesUnsolicited
            (view_of S.remaining self.old) (view_of S.remaining self.new)) }
        ensures none { IfOk result (λ b. b ≡ false → GivesNothing
            (view_of S.remaining self.old) (view_of S.remaining self.new)) }
        ensures end { IfOk result (λ b. b ≡ false → IsAtEnd
            (view_of S.remaining self.new).left) }
        ensures spent { IfOk result (λ b. b ≡ false → self.new.kept ≡ []) }
        ensures nothing { OnErr result (GivesNothing (view_of S.remaining self.old)
            (view_of S.remaining self.new)) }
        ensures refused { IfErr result (λ e. Hinders S.remaining e self.new) }
        ensures working { OnOk result (self.new.failed ≡ self.old.failed) }
        ensures failed { IfErr result (λ e. self.new.failed ≡ (self.old.failed || fails e)) }
        ensures writer { self.new.writer ≡ self.old.writer }
        ensures within { StaysWithin self.old self.new }
    {
        let given = self.take_unsolicited();
        if let Err(error) = &given {
            self.failed = self.failed || fails(error);
        }
        given
    }

    /// Returns the bytes of the message that was given last.
    pub fn message(&self) -> &[u8]
        ensures { result.now ≡ self.now.message }
    {
        match &self.taken {
            Some(message) => message.as_slice(),
            None => self.incoming.frame(),
        }
    }

    /// Reads the message that was given last as a value, with parts borrowed from it.
    ///
    /// As [`read_answer`](crate::reading::read_answer): [`ClientError::Server`] is an error of the
    /// server's, and the client goes on.
    pub fn read<'m, T: Deserialize<&'m [u8]>>(&'m self) -> Result<T, ClientError>
        ensures found { IfOk result (BeginsWith LEVELS T.reads T.holds self.now.message) }
        ensures none { OnOk result (TellsNoError self.now.message) }
        ensures refused { IfErr result (Unread T.Shape self.now.message) }
    {
        self.refuse_error()?;
        read_value(self.alloc, self.message())
    }

    /// Reads the message that was given last as a value that borrows nothing.
    ///
    /// As [`read_owned_answer`](crate::reading::read_owned_answer): after [`ClientError::Server`] the
    /// client goes on.
    pub fn read_owned<T: DeserializeOwned>(&self) -> Result<T, ClientError>
        ensures found { IfOk result (ReadsOwned T.Shape self.now.message) }
        ensures refused { IfErr result (UnreadOwned T.Shape self.now.message) }
    {
        self.refuse_error()?;
        read_owned_value(self.alloc, self.message())
    }

    /// Fails where the message that was given last reports an error.
    fn refuse_error(&self) -> Result<(), ClientError>
        ensures none { OnOk result (TellsNoError self.now.message) }
        ensures told { IfErr result (λ e. IsToldError e self.now.message) }
    {
        if self.errorless {
            return Ok(());
        }
        refuse_error(self.alloc, self.message())
    }

    /// Returns whether a request is outstanding.
    pub fn is_waiting(&self) -> bool
        ensures { result ≡ self.now.waiting }
    {
        self.waiting
    }

    /// Returns whether a call failed for good.
    pub fn has_failed(&self) -> bool
        ensures { result ≡ self.now.failed }
    {
        self.failed
    }

    /// Returns whether unsolicited messages are kept: [`next_unsolicited`](Self::next_unsolicited)
    /// gives them before it reads.
    pub fn has_kept(&self) -> bool
        ensures { IsTrue result ↔ (0 < length self.now.kept) }
    {
        self.kept.len() > 0
    }

    /// Returns the reader.
    pub fn get_ref(&self) -> &S
        ensures { result.now ≡ self.now.incoming.stream.reader }
    {
        self.incoming.get_ref()
    }

    /// Takes the answer to the outstanding request.
    fn take_answer(&mut self) -> Result<(), ClientError>
        ensures given { OnOk result (GivesAnswer (view_of S.remaining self.old)
            (view_of S.remaining self.new)) }
        ensures nothing { OnErr result (GivesNothing (view_of S.remaining self.old)
            (view_of S.remaining self.new)) }
        ensures refused { IfErr result (λ e. Hinders S.remaining e self.new) }
        ensures failed { self.new.failed ≡ self.old.failed }
        ensures writer { self.new.writer ≡ self.old.writer }
        ensures within { StaysWithin self.old self.new }
    {
        if self.failed {
            return Err(ClientError::Failed);
        }
        if !self.waiting {
            return Err(ClientError::NoRequest);
        }
        while self.keep_next()? {}
        self.incoming.release();
        self.waiting = false;
        self.taken = None;
        self.errorless = false;
        Ok(())
    }

    /// Keeps the next message, which is unsolicited, or answers `false` where it is the answer, which
    /// is in hand then.
    fn keep_next(&mut self) -> Result<bool, ClientError>
        ensures nothing { GivesNothing (view_of S.remaining self.old)
            (view_of S.remaining self.new) }
        ensures answer { IfOk result (λ b. b ≡ false → HasNext false self.new.incoming) }
        ensures fewer { IfOk result (λ b. b ≡ true → room_of self.new < room_of self.old) }
        ensures refused { IfErr result (λ e. Hinders S.remaining e self.new) }
        ensures failed { self.new.failed ≡ self.old.failed }
        ensures writer { self.new.writer ≡ self.old.writer }
        ensures within { StaysWithin self.old self.new }
    {
        self.errorless = false;
        match next_kind(self.alloc, &mut self.incoming, true)? {
            NextMessage::End => Err(ClientError::Ended),
            NextMessage::Answer => Ok(false),
            NextMessage::Unsolicited { .. } => match self
                .kept
                .push(self.bounds, self.incoming.frame())
            {
                Ok(()) => {
                    self.incoming.release();
                    Ok(true)
                }
                Err(QueueError::Full) => Err(ClientError::Full),
                Err(QueueError::Memory) => Err(ClientError::Memory),
            },
        }
    }

    /// Takes the next unsolicited message.
    fn take_unsolicited(&mut self) -> Result<bool, ClientError>
        ensures given { IfOk result (λ b. b ≡ true → GivesUnsolicited
            (view_of S.remaining self.old) (view_of S.remaining self.new)) }
        ensures none { IfOk result (λ b. b ≡ false → GivesNothing
            (view_of S.remaining self.old) (view_of S.remaining self.new)) }
        ensures end { IfOk result (λ b. b ≡ false → IsAtEnd
            (view_of S.remaining self.new).left) }
        ensures spent { IfOk result (λ b. b ≡ false → self.new.kept ≡ []) }
        ensures nothing { OnErr result (GivesNothing (view_of S.remaining self.old)
            (view_of S.remaining self.new)) }
        ensures refused { IfErr result (λ e. Hinders S.remaining e self.new) }
        ensures failed { self.new.failed ≡ self.old.failed }
        ensures writer { self.new.writer ≡ self.old.writer }
        ensures within { StaysWithin self.old self.new }
    {
        self.errorless = false;
        if let Some(message) = self.kept.pop() {
            self.taken = Some(message);
            return Ok(true);
        }
        if self.failed {
            return Err(ClientError::Failed);
        }
        match next_kind(self.alloc, &mut self.incoming, false)? {
            NextMessage::End => Ok(false),
            NextMessage::Answer if self.waiting => Err(ClientError::AnswerDue),
            NextMessage::Answer => Err(ClientError::Unwanted),
            NextMessage::Unsolicited { errorless } => {
                self.incoming.release();
                self.taken = None;
                self.errorless = errorless;
                Ok(true)
            }
        }
    }
}
