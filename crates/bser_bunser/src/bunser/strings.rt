//! Lengths, and as many bytes.
ghost use Rattle.std.specs.Prelude.{◌≡◌, ◌<◌, ◌^◌, pos, length, IfOk, IfErr, IfSome, IfNone, OnOk, OnErr};
ghost use Rattle.bser_source.specs.Refs.{bytes_of, is_lent};
ghost use Rattle.bser_format.specs.Clauses.{after_a_refusal};
ghost use Rattle.bser_format.specs.Named.{complain, front, size, count, string};
ghost use Rattle.bser_bunser.specs.Calls.{Takes, TakesSome, TakesInt, TakesLent, HasLength, TakesCounted, Keeps, Closes, HasFailed, LacksBytes, LacksCopy, NamedBy, NamesCopy, NamedOrMemory, FailsShort, FailsBy, FailsInPlace};
ghost use Rattle.bser_bunser.specs.Names.{Names, natural_of, bytes_after};
ghost use Rattle.bser_bunser.specs.Refusal.{BytesRefused};

use crate::bunser::Bunser;
use crate::prefix::short_length;
use crate::refusal::{Answer, Refused};
use bser_format::errors::{Complaint, Error, ReadCause, Result};
use bser_source::read::{DeRead, WINDOW, count_octets};
use bser_source::reference::{Lending, Reference};
use std::alloc::Global;

impl<R: DeRead> Bunser<R> {
    /// Takes `len` bytes, and keeps none.
    ///
    /// It takes no memory, however great `len` is: over a reader it takes 4096 bytes at a time. The
    /// errors are those of [`Self::fill`] for `len` bytes, of which some may have been taken then.
    #[inline(always)]
    pub fn pass(&mut self, len: usize) -> Answer<()>
        ensures ok { OnOk result (TakesSome len self.old self.new) }
        ensures kept { OnOk result (Keeps self.old self.new) }
        ensures refused { OnErr result (FailsShort len self.old self.new) }
    {
        if 0 < len && len <= count_octets(self.read.buffered()) {
            self.read.consume(len);
            return Ok(());
        }
        self.pass_slowly(len)
    }

    /// Takes `len` bytes, those buffered first, and keeps none.
    #[inline(never)]
    fn pass_slowly(&mut self, len: usize) -> Answer<()>
        ensures ok { OnOk result (TakesSome len self.old self.new) }
        ensures kept { OnOk result (Keeps self.old self.new) }
        ensures refused { OnErr result (FailsShort len self.old self.new) }
    {
        if self.read.is_failed() {
            return Err(self.refuse_cause(ReadCause::Failed));
        }
        let ahead = len.min(count_octets(self.read.buffered()));
        self.read.consume(ahead);
        let mut left = len - ahead;
        while left > 0 {
            let step = left.min(WINDOW);
            self.fill(step)?;
            self.read.consume(step);
            left -= step;
        }
        Ok(())
    }

    /// Takes `len` bytes, and lends them from the input where the source does, or else copies them
    /// to `scratch` in place of what it held.
    ///
    /// The errors are those of [`Self::fill`] for `len` bytes, and [`Error::OutOfMemory`] where the
    /// scratch did not grow. Its length grows at most 65,536 bytes ahead of the bytes that arrived.
    #[inline(always)]
    pub fn bytes<'s>(
        &mut self,
        len: usize,
        scratch: &'s mut Vec<u8>,
    ) -> Answer<Reference<'s, R::Lent>>
        ensures length { IfOk result (HasLength R.Lent.bytes len) }
        ensures lent { IfOk result (λ r. is_lent r ≡ self.old.window.lends) }
        ensures source { IfOk result (λ r. is_lent r ≡ R.Lent.lends) }
        ensures ok { IfOk result (TakesLent R.Lent.bytes self.old self.new) }
        ensures kept { OnOk result (Keeps self.old self.new) }
        ensures err { OnErr result (LacksBytes len self.old self.new) }
        ensures names { OnErr result (NamedBy (front len) self.old self.new) }
    {
        if len == 0 || len > count_octets(self.read.buffered()) {
            return self.bytes_slowly(len, scratch);
        }
        match self.read.lend(len) {
            Some(bytes) => {
                self.read.consume(len);
                Ok(Reference::Borrowed(bytes))
            }
            None => {
                scratch.clear();
                if scratch
                    .extend_from_slice(&self.read.buffered()[..len])
                    .is_err()
                {
                    return Err(self.refuse_cause(ReadCause::Memory));
                }
                self.read.consume(len);
                Ok(Reference::Copied(scratch.as_slice()))
            }
        }
    }

    /// Takes `len` bytes, more than are buffered, to `scratch` in place of what it held.
    ///
    /// The errors are those of [`Self::bytes`]. A source that lends has no more than it buffered.
    #[cold]
    #[inline(never)]
    pub fn gather(&mut self, len: usize, scratch: &mut Vec<u8>) -> Answer<()>
        requires { length self.old.window.buffered < len }
        ensures length { OnOk result (length scratch.new.items ≡ len) }
        ensures ok { OnOk result (Takes scratch.new.items self.old self.new) }
        ensures kept { OnOk result (Keeps self.old self.new) }
        ensures err { OnErr result (LacksBytes len self.old self.new) }
        ensures names { OnErr result (NamedBy (front len) self.old self.new) }
    {
        match self.read.gather(len, scratch) {
            Ok(()) => Ok(()),
            Err(cause) => Err(self.refuse_cause(cause)),
        }
    }

    /// Takes `len` bytes as a copy.
    ///
    /// The errors are those of [`Self::fill`] for `len` bytes, and [`Error::OutOfMemory`] where the
    /// copy did not grow. It grows at most 65,536 bytes ahead of the bytes that arrived.
    #[inline(always)]
    pub fn copy(&mut self, alloc: Global, len: usize) -> Answer<Vec<u8>>
        ensures length { IfOk result (λ c. length c.items ≡ len) }
        ensures ok { IfOk result (λ c. Takes c.items self.old self.new) }
        ensures kept { OnOk result (Keeps self.old self.new) }
        ensures err { OnErr result (LacksCopy len self.old self.new) }
        ensures names { OnErr result (NamesCopy len self.old self.new) }
    {
        if len == 0 || len > count_octets(self.read.buffered()) {
            return self.copy_slowly(alloc, len);
        }
        let Ok(mut copy) = Vec::with_capacity(alloc, len) else {
            return Err(self.refuse_growth());
        };
        if copy
            .extend_from_slice(&self.read.buffered()[..len])
            .is_err()
        {
            return Err(self.refuse_growth());
        }
        self.read.consume(len);
        Ok(copy)
    }

    /// Takes `len` bytes, more than are buffered or none, as a copy.
    #[cold]
    #[inline(never)]
    fn copy_slowly(&mut self, alloc: Global, len: usize) -> Answer<Vec<u8>>
        requires { (0 < len) → length self.old.window.buffered < len }
        ensures length { IfOk result (λ c. length c.items ≡ len) }
        ensures ok { IfOk result (λ c. Takes c.items self.old self.new) }
        ensures kept { OnOk result (Keeps self.old self.new) }
        ensures err { OnErr result (LacksCopy len self.old self.new) }
        ensures names { OnErr result (NamesCopy len self.old self.new) }
    {
        let mut copy = Vec::new(alloc);
        if self.read.is_failed() {
            return Err(self.refuse_cause(ReadCause::Failed));
        }
        if len == 0 {
            return Ok(copy);
        }
        match self.read.gather(len, &mut copy) {
            Ok(()) => Ok(copy),
            Err(cause) => Err(self.refuse_cause(cause)),
        }
    }

    /// Fails, since there is no memory.
    #[cold]
    #[inline(never)]
    fn refuse_growth(&mut self) -> Refused
        ensures reason { self.new.refusal ≡ Error.OutOfMemory }
        ensures state { Closes self.old self.new }
    {
        self.refuse(Error::OutOfMemory)
    }

    /// Takes `len` bytes by a call of the source.
    #[cold]
    #[inline(never)]
    fn bytes_slowly<'s>(
        &mut self,
        len: usize,
        scratch: &'s mut Vec<u8>,
    ) -> Answer<Reference<'s, R::Lent>>
        ensures length { IfOk result (HasLength R.Lent.bytes len) }
        ensures lent { IfOk result (λ r. is_lent r ≡ self.old.window.lends) }
        ensures source { IfOk result (λ r. is_lent r ≡ R.Lent.lends) }
        ensures ok { IfOk result (TakesLent R.Lent.bytes self.old self.new) }
        ensures kept { OnOk result (Keeps self.old self.new) }
        ensures err { OnErr result (LacksBytes len self.old self.new) }
        ensures names { OnErr result (NamedBy (front len) self.old self.new) }
    {
        match self.read.next_bytes(len, scratch) {
            Ok(bytes) => Ok(bytes),
            Err(cause) => Err(self.refuse_cause(cause)),
        }
    }

    /// Takes `len` bytes, and lends them from the input where the source does, or else copies them
    /// to `scratch` in place of what it held.
    ///
    /// A negative `len` is the message [`Complaint::NegativeLength`]. The other errors are those of
    /// [`Self::fill`] for `len` bytes, and [`Error::OutOfMemory`] where the scratch did not grow.
    /// Its length grows at most 65,536 bytes ahead of the bytes that arrived.
    #[inline(always)]
    pub fn read_bytes<'s>(
        &mut self,
        len: i64,
        scratch: &'s mut Vec<u8>,
    ) -> Result<Reference<'s, R::Lent>>
        ensures length { IfOk result (λ r. pos (length (bytes_of R.Lent.bytes r)) ≡ len) }
        ensures lent { IfOk result (λ r. is_lent r ≡ self.old.window.lends) }
        ensures ok { IfOk result (TakesLent R.Lent.bytes self.old self.new) }
        ensures kept { OnOk result (Keeps self.old self.new) }
        ensures err { IfErr result (λ e. BytesRefused len e self.old.window self.new.window) }
        ensures names { IfErr result (λ e. Names (bytes_after len) e self.old.window) }
    {
        if len < 0 {
            return Err(self.refuse_length());
        }
        match self.bytes(len as usize, scratch) {
            Ok(bytes) => Ok(bytes),
            Err(Refused) => Err(self.take_refusal()),
        }
    }

    /// Fails, for a length below 0.
    #[cold]
    #[inline(never)]
    fn refuse_length(&mut self) -> Error
        ensures answer { result ≡ after_a_refusal self.old.window.failed
            (complain Complaint.NegativeLength) }
        ensures state { Closes self.old self.new }
    {
        let failed = self.read.is_failed();
        self.read.close();
        if failed {
            Error::de_reader_error(ReadCause::Failed)
        } else {
            Error::de_custom(Complaint::NegativeLength)
        }
    }

    /// Takes an integer of 0 or more, with this complaint of another.
    #[inline(always)]
    fn natural(&mut self, complaint: Complaint) -> Answer<usize>
        ensures ok { IfOk result (λ n. TakesInt (pos n) self.old self.new) }
        ensures fits { IfOk result (λ n. n < 2 ^ 63) }
        ensures kept { OnOk result (Keeps self.old self.new) }
        ensures refused { OnErr result (FailsBy (natural_of complaint) self.old self.new) }
        ensures place { OnErr result (FailsInPlace self.old self.new) }
    {
        let number = self.int()?;
        if number < 0 {
            return Err(self.refuse(Error::de_custom(complaint)));
        }
        Ok(number as usize)
    }

    /// Takes a length: an integer of 0 or more.
    ///
    /// Another byte than an integer's tag is [`Error::DeInvalidStartByte`] of kind
    /// [`bser_format::errors::Kind::Integer`], and an integer below 0 the message
    /// [`Complaint::NegativeLength`]. The other errors are those of [`Self::fill`] for the bytes
    /// wanted.
    #[inline(always)]
    pub fn length(&mut self) -> Answer<usize>
        ensures ok { IfOk result (λ n. TakesInt (pos n) self.old self.new) }
        ensures fits { IfOk result (λ n. n < 2 ^ 63) }
        ensures kept { OnOk result (Keeps self.old self.new) }
        ensures refused { OnErr result (FailsBy size self.old self.new) }
        ensures place { OnErr result (FailsInPlace self.old self.new) }
    {
        match self.buffered_length() {
            Some(len) => Ok(len),
            None => self.length_slowly(),
        }
    }

    /// Takes a length of one byte, where it is buffered. Else it is `None`, and nothing is taken.
    #[inline(always)]
    fn buffered_length(&mut self) -> Option<usize>
        ensures some { IfSome result (λ n. TakesInt (pos n) self.old self.new) }
        ensures fits { IfSome result (λ n. n < 2 ^ 63) }
        ensures none { IfNone result (self.new.window ≡ self.old.window) }
        ensures kept { Keeps self.old self.new }
    {
        let len = short_length(self.read.buffered())?;
        self.read.consume(2);
        Some(len)
    }

    /// Takes a length of any width.
    #[inline(never)]
    fn length_slowly(&mut self) -> Answer<usize>
        ensures ok { IfOk result (λ n. TakesInt (pos n) self.old self.new) }
        ensures fits { IfOk result (λ n. n < 2 ^ 63) }
        ensures kept { OnOk result (Keeps self.old self.new) }
        ensures refused { OnErr result (FailsBy size self.old self.new) }
        ensures place { OnErr result (FailsInPlace self.old self.new) }
    {
        self.natural(Complaint::NegativeLength)
    }

    /// Takes a count: an integer of 0 or more.
    ///
    /// Another byte than an integer's tag is [`Error::DeInvalidStartByte`] of kind
    /// [`bser_format::errors::Kind::Integer`], and an integer below 0 the message
    /// [`Complaint::NegativeCount`]. The other errors are those of [`Self::fill`] for the bytes
    /// wanted.
    #[inline(always)]
    pub fn count(&mut self) -> Answer<usize>
        ensures ok { IfOk result (λ n. TakesInt (pos n) self.old self.new) }
        ensures fits { IfOk result (λ n. n < 2 ^ 63) }
        ensures kept { OnOk result (Keeps self.old self.new) }
        ensures refused { OnErr result (FailsBy count self.old self.new) }
        ensures place { OnErr result (FailsInPlace self.old self.new) }
    {
        self.natural(Complaint::NegativeCount)
    }

    /// Takes the length and the bytes of a string, of which the tag was taken, and lends the bytes
    /// or copies them as [`Self::bytes`] does. They need not be UTF-8.
    ///
    /// Another byte than an integer's tag is [`Error::DeInvalidStartByte`] of kind
    /// [`bser_format::errors::Kind::Integer`], and a length below 0 the message
    /// [`Complaint::NegativeLength`]. The other errors are those of [`Self::fill`] for the bytes
    /// wanted, and [`Error::OutOfMemory`] where the scratch did not grow.
    #[inline(always)]
    pub fn next_string<'s>(&mut self, scratch: &'s mut Vec<u8>) -> Answer<Reference<'s, R::Lent>>
        ensures lent { IfOk result (λ r. is_lent r ≡ self.old.window.lends) }
        ensures source { IfOk result (λ r. is_lent r ≡ R.Lent.lends) }
        ensures ok { IfOk result (λ r. TakesCounted (bytes_of R.Lent.bytes r) self.old self.new) }
        ensures kept { OnOk result (Keeps self.old self.new) }
        ensures err { OnErr result (HasFailed self.old self.new) }
        ensures names { OnErr result (NamedBy string self.old self.new) }
    {
        let len = self.length()?;
        self.bytes(len, scratch)
    }

    /// Takes the length and the bytes of a string, of which the tag was taken, as a copy. They need
    /// not be UTF-8.
    ///
    /// The errors are those of [`Self::length`] and of [`Self::copy`].
    #[inline(always)]
    pub fn next_copy(&mut self, alloc: Global) -> Answer<Vec<u8>>
        ensures ok { IfOk result (λ c. TakesCounted c.items self.old self.new) }
        ensures kept { OnOk result (Keeps self.old self.new) }
        ensures err { OnErr result (HasFailed self.old self.new) }
        ensures names { OnErr result (NamedOrMemory string self.old self.new) }
    {
        let len = self.length()?;
        self.copy(alloc, len)
    }
}
