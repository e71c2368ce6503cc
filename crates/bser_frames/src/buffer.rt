//! A buffer that a reader fills.
ghost use Rattle.std.specs.Prelude.{◌≡◌, ◌≤◌, ◌<◌, ◌+◌, ◌^◌, [], max, true, false, length, drop, take, IfOk, IfErr, OnErr, OnOk};
ghost use Rattle.std.specs.Io.KnownBytes.{Consumes, IsAtEnd, Keeps};
ghost use Rattle.bser_source.specs.Device.{PullCounts};
ghost use Rattle.bser_source.specs.Pull.{Reads};
ghost use Rattle.bser_frames.specs.Stops.{IsFault, failures_after};
ghost use Rattle.bser_frames.specs.declared.buffer.TheConstants.{STEP};

use crate::error::FrameError;
use bser_source::device::Source;
use std::alloc::Global;
use std::io;
use std::marker::Model;

/// How far a buffer is grown ahead of what came.
pub(crate) const STEP: usize = 65_536;

/// Bytes that a reader gave, and room for more, which is kept.
#[derive(Drop)]
pub(crate) struct Buffer {
    bytes: Vec<u8>,
    len: usize,
    ghost within: { len ≤ length bytes.items },
}

impl Model for Buffer {
    ghost use Rattle.std.specs.Prelude.{length, take};
    ghost use Rattle.bser_frames.specs.Held.{Held};

    ghost Value = { Held };

    ghost view = { λ b. record { bytes = take b.len b.bytes.items; room = length b.bytes.items } };
}

impl Buffer {
    /// Holds nothing, and has room for nothing.
    pub(crate) fn new(alloc: Global) -> Self
        ensures bytes { result.bytes ≡ [] }
        ensures room { result.room ≡ 0 }
    {
        Buffer {
            bytes: Vec::new(alloc),
            len: 0,
        }
    }

    /// How many bytes it holds.
    pub(crate) fn len(&self) -> usize
        ensures { result ≡ length self.now.bytes }
    {
        self.len
    }

    /// The bytes.
    pub(crate) fn as_slice(&self) -> &[u8]
        ensures { result.now ≡ self.now.bytes }
    {
        &self.bytes[..self.len]
    }

    /// Drops the bytes, and keeps the room.
    pub(crate) fn clear(&mut self)
        ensures bytes { self.new.bytes ≡ [] }
        ensures room { self.new.room ≡ self.old.room }
    {
        self.len = 0;
    }

    /// Has room for one byte more, and at most for as many as one step.
    fn make_room(&mut self) -> Result<(), FrameError>
        ensures bytes { self.new.bytes ≡ self.old.bytes }
        ensures room { OnOk result (length self.new.bytes < self.new.room) }
        ensures ahead { self.new.room ≤ max self.old.room (length self.new.bytes + STEP) }
        ensures fault { IfErr result (λ e. e ≡ FrameError.OutOfMemory) }
    {
        if self.len < self.bytes.len() {
            return Ok(());
        }
        match self.len.checked_add(STEP) {
            Some(room) => {
                if self.bytes.resize(room, 0).is_err() {
                    return Err(FrameError::OutOfMemory);
                }
                Ok(())
            }
            None => Err(FrameError::OutOfMemory),
        }
    }

    /// Adds what one read of at most `want` bytes gives, and returns how many came.
    pub(crate) fn pull<S: Source>(
        &mut self,
        reader: &mut S,
        want: usize,
    ) -> Result<usize, FrameError>
        requires some { 0 < want }
        ensures came { Reads (S.remaining reader.old) (S.remaining reader.new)
            self.old.bytes self.new.bytes }
        ensures count { IfOk result (λ n. length self.new.bytes ≡ length self.old.bytes + n) }
        ensures fits { IfOk result (λ n. n ≤ want) }
        ensures end { IfOk result (λ n. n ≡ 0 → IsAtEnd (S.remaining reader.new)) }
        ensures ahead { self.new.room ≤ max self.old.room (length self.new.bytes + STEP) }
        ensures kept { OnOk result (S.failures reader.new ≡ S.failures reader.old) }
        ensures same { OnErr result (self.new.bytes ≡ self.old.bytes) }
        ensures fault { IfErr result IsFault }
        ensures failures { IfErr result (λ e.
            S.failures reader.new ≡ failures_after e (S.failures reader.old)) }
    {
        self.make_room()?;
        let room = want.min(self.bytes.len() - self.len);
        match pull_at(reader, self.bytes.as_mut_slice(), self.len, room) {
            Ok(n) => {
                self.len += n;
                Ok(n)
            }
            Err(fault) => Err(FrameError::Reader(fault)),
        }
    }
}

/// Reads some of `want` bytes to place `at` on.
fn pull_at<S: Source>(reader: &mut S, buf: &mut [u8], at: usize, want: usize) -> io::Result<usize>
    requires some { 0 < want }
    requires room { at + want ≤ length buf.old }
    ensures front { take at buf.new ≡ take at buf.old }
    ensures fits { IfOk result (λ n. n ≤ want) }
    ensures ok { IfOk result (λ n.
        Consumes (S.remaining reader.old) (S.remaining reader.new) (take n (drop at buf.new))) }
    ensures end { IfOk result (λ n. n ≡ 0 → IsAtEnd (S.remaining reader.new)) }
    ensures err { OnErr result (Keeps (S.remaining reader.old) (S.remaining reader.new)) }
    ensures failures { PullCounts (S.failures reader.old) (S.failures reader.new) result }
{
    reader.pull(&mut buf[at..at + want])
}
