//! A serializer: pieces on their way to a writer.
ghost use Rattle.std.specs.Prelude.{◌≡◌, ◌≤◌, [], ◌++◌, length, OnOk, OnErr, IfOk, IfErr, IsTrue, if◌then◌else◌};
ghost use Rattle.bser_format.specs.declared.errors.Error.TheVariants.{OutOfMemory, Io};
ghost use Rattle.bser_ser.specs.Sent.{Sent, Refused, NotPut, Finishes, IsFlushed, IsNew, KeepsReason, writer_of, pending_of, refusal_of};
ghost use Rattle.bser_ser.specs.declared.serializer.TheConstants.{MOST_PENDING};

use crate::pending::send;
use bser_source::device::Sink;
use std::alloc::Global;
use std::io;
use std::result::Result;

/// More pending bytes than these are sent before a put.
pub const MOST_PENDING: usize = 4096;

/// Collects the pieces that are put, and sends them to a writer.
///
/// What the writer took, followed by what is pending, is at each time the pieces put so far. A put
/// sends first where more than 4096 bytes are pending, so that at most 4096 bytes and its own piece
/// are pending after it.
#[derive(Drop)]
pub struct Serializer<W> {
    pub(crate) writer: W,
    pub(crate) pending: Vec<u8>,
    /// The writer's error, where the last failure was one.
    pub(crate) fault: Option<io::Error>,
}

/// A put failed, and its serializer keeps the error: [`Parts::refusal`](crate::Parts::refusal).
#[derive(Debug, Clone, Copy)]
pub struct PutRefused;

impl<W> Serializer<W> {
    /// Writes to `writer`; nothing is pending, and no header of a message is put.
    pub fn new(alloc: Global, writer: W) -> Self
        ensures { IsNew result writer }
    {
        Serializer {
            writer,
            pending: Vec::new(alloc),
            fault: None,
        }
    }

    /// Gives the writer back. What is pending is dropped, and is not sent.
    pub fn into_writer(self) -> W
        ensures { result ≡ writer_of self }
    {
        let Serializer {
            writer,
            pending: _,
            fault: _,
        } = self;
        writer
    }
}

impl<W: Sink> Serializer<W> {
    /// Sends all that is pending. The writer's own `flush` is not called.
    ///
    /// An error of the writer is given back, an interruption too, and a writer that takes nothing
    /// gives an error of kind `WriteZero`. The next call goes on at the first byte that the writer
    /// has not taken.
    pub fn flush(&mut self) -> io::Result<()>
        ensures ok { OnOk result (Sent W.Sink self.old self.new []) }
        ensures all { OnOk result (IsFlushed self.new) }
        ensures err { IfErr result (λ e. Refused W.Sink self.old self.new [] (Io e)) }
        ensures reason { KeepsReason self.old self.new }
    {
        send(&mut self.writer, &mut self.pending)
    }

    /// Sends all that is pending and gives the writer back.
    ///
    /// The errors are those of [`flush`](Serializer::flush); the writer is then dropped.
    pub fn finish(self) -> io::Result<W>
    where
        W: Drop,
        ensures ok { IfOk result (λ w. Finishes W.Sink self w) }
        ensures err { IfErr result (λ e. (dropped : Serializer W)
            × Refused W.Sink self dropped [] (Io e)) }
    {
        match self.try_finish() {
            Ok(writer) => Ok(writer),
            Err((_, fault)) => Err(fault),
        }
    }

    /// Sends all that is pending and gives the writer back.
    ///
    /// The errors are those of [`flush`](Serializer::flush); the serializer is then given back, and
    /// can go on.
    pub fn try_finish(self) -> Result<W, (Self, io::Error)>
        ensures ok { IfOk result (λ w. Finishes W.Sink self w) }
        ensures err { IfErr result (λ e. Refused W.Sink self e.0 [] (Io e.1)) }
        ensures reason { IfErr result (λ e. KeepsReason self e.0) }
    {
        let mut whole = self;
        match whole.flush() {
            Ok(()) => Ok(whole.into_writer()),
            Err(fault) => Err((whole, fault)),
        }
    }

    /// Sends where more than [`MOST_PENDING`] bytes are pending.
    #[inline(always)]
    pub(crate) fn make_room(&mut self) -> Result<(), PutRefused>
        ensures ok { OnOk result (Sent W.Sink self.old self.new []) }
        ensures room { OnOk result (length (pending_of self.new) ≤ MOST_PENDING) }
        ensures err { OnErr result (NotPut W.Sink self.old self.new) }
    {
        if self.pending.len() > MOST_PENDING {
            return self.send_now();
        }
        Ok(())
    }

    /// Sends all that is pending, and keeps the writer's error.
    #[cold]
    fn send_now(&mut self) -> Result<(), PutRefused>
        ensures ok { OnOk result (Sent W.Sink self.old self.new []) }
        ensures all { OnOk result (IsFlushed self.new) }
        ensures err { OnErr result (NotPut W.Sink self.old self.new) }
    {
        match self.flush() {
            Ok(()) => Ok(()),
            Err(fault) => {
                self.fault = Some(fault);
                Err(PutRefused)
            }
        }
    }

    /// Keeps out of memory as the error.
    #[cold]
    pub(crate) fn out_of_memory(&mut self) -> PutRefused
        ensures writer { writer_of self.new ≡ writer_of self.old }
        ensures pending { pending_of self.new ≡ pending_of self.old }
        ensures reason { refusal_of self.new ≡ OutOfMemory }
    {
        self.fault = None;
        PutRefused
    }

    /// Tells the writer that at most so many bytes follow, and makes room for those of them that will
    /// be pending.
    pub(crate) fn expect(&mut self, most: usize)
        ensures { Sent W.Sink self.old self.new [] }
    {
        self.writer.expect(most);
        if !self.is_taken_at_once(&[], &[]) {
            let _ = self.pending.reserve(most.min(MOST_PENDING));
        }
    }

    /// Gives the writer both parts of a piece, if nothing is pending and it takes them at once.
    #[inline(always)]
    pub(crate) fn is_taken_at_once(&mut self, front: &[u8], back: &[u8]) -> bool
        ensures sent { Sent W.Sink self.old self.new
            (if result then front.now ++ back.now else []) }
        ensures all { IsTrue result → IsFlushed self.new }
    {
        self.pending.is_empty() && self.writer.take_at_once(front, back)
    }
}
