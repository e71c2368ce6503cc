//! Numbers of a width that the caller knows.
ghost use Rattle.std.specs.Prelude.{◌<◌, length, IfOk, IfErr, OnErr, OnOk};
ghost use Rattle.std.specs.Int.{w8, w16, w32, w64};
ghost use Rattle.bser_format.specs.Named.{front};
ghost use Rattle.bser_bunser.specs.Calls.{TakesNumber, TakesBits, Keeps, FailsShort, AnswersShort};

use crate::bunser::Bunser;
use crate::refusal::{Answer, Refused};
use bser_format::errors::{Error, Result};
use bser_source::read::DeRead;
use byteorder::{ByteOrder, LittleEndian};

impl<R: DeRead> Bunser<R> {
    /// Takes the first buffered byte without looking at it, and then a byte, as an i8.
    ///
    /// It wants a buffered byte, which a [`Self::peek`] that succeeds gives. The errors are those
    /// of [`Self::fill`] for 2 bytes.
    pub fn next_i8(&mut self) -> Result<i8>
        requires { 0 < length self.old.window.buffered }
        ensures ok { IfOk result (λ v. TakesNumber w8 v self.old self.new) }
        ensures kept { OnOk result (Keeps self.old self.new) }
        ensures refused { IfErr result (AnswersShort 2 self.old self.new) }
    {
        match self.front::<2>() {
            Ok(bytes) => Ok(bytes[1].cast_signed()),
            Err(Refused) => Err(self.take_refusal()),
        }
    }

    /// Takes the first buffered byte without looking at it, and then 2 bytes, the lowest first, as
    /// an i16.
    ///
    /// It wants a buffered byte, which a [`Self::peek`] that succeeds gives. The errors are those
    /// of [`Self::fill`] for 3 bytes.
    pub fn next_i16(&mut self) -> Result<i16>
        requires { 0 < length self.old.window.buffered }
        ensures ok { IfOk result (λ v. TakesNumber w16 v self.old self.new) }
        ensures kept { OnOk result (Keeps self.old self.new) }
        ensures refused { IfErr result (AnswersShort 3 self.old self.new) }
    {
        match self.front::<3>() {
            Ok(bytes) => Ok(LittleEndian::read_i16(&bytes[1..])),
            Err(Refused) => Err(self.take_refusal()),
        }
    }

    /// Takes the first buffered byte without looking at it, and then 4 bytes, the lowest first, as
    /// an i32.
    ///
    /// It wants a buffered byte, which a [`Self::peek`] that succeeds gives. The errors are those
    /// of [`Self::fill`] for 5 bytes.
    pub fn next_i32(&mut self) -> Result<i32>
        requires { 0 < length self.old.window.buffered }
        ensures ok { IfOk result (λ v. TakesNumber w32 v self.old self.new) }
        ensures kept { OnOk result (Keeps self.old self.new) }
        ensures refused { IfErr result (AnswersShort 5 self.old self.new) }
    {
        match self.front::<5>() {
            Ok(bytes) => Ok(LittleEndian::read_i32(&bytes[1..])),
            Err(Refused) => Err(self.take_refusal()),
        }
    }

    /// Takes the first buffered byte without looking at it, and then 8 bytes, the lowest first, as
    /// an i64.
    ///
    /// It wants a buffered byte, which a [`Self::peek`] that succeeds gives. The errors are those
    /// of [`Self::fill`] for 9 bytes.
    pub fn next_i64(&mut self) -> Result<i64>
        requires { 0 < length self.old.window.buffered }
        ensures ok { IfOk result (λ v. TakesNumber w64 v self.old self.new) }
        ensures kept { OnOk result (Keeps self.old self.new) }
        ensures refused { IfErr result (AnswersShort 9 self.old self.new) }
    {
        match self.front::<9>() {
            Ok(bytes) => Ok(LittleEndian::read_i64(&bytes[1..])),
            Err(Refused) => Err(self.take_refusal()),
        }
    }

    /// Takes the first buffered byte without looking at it, and then 8 bytes, the lowest first, as
    /// the bits of a real.
    ///
    /// It wants a buffered byte, which a [`Self::peek`] that succeeds gives. The errors are those
    /// of [`Self::fill`] for 9 bytes.
    pub fn next_f64(&mut self) -> Result<u64>
        requires { 0 < length self.old.window.buffered }
        ensures ok { IfOk result (λ n. TakesBits n self.old self.new) }
        ensures kept { OnOk result (Keeps self.old self.new) }
        ensures refused { IfErr result (AnswersShort 9 self.old self.new) }
    {
        match self.next_bits() {
            Ok(bits) => Ok(bits),
            Err(Refused) => Err(self.take_refusal()),
        }
    }

    /// Takes the first buffered byte without looking at it, and then 8 bytes, the lowest first, as
    /// the bits of a real.
    ///
    /// It wants a buffered byte. The errors are those of [`Self::fill`] for 9 bytes.
    #[inline(always)]
    pub fn next_bits(&mut self) -> Answer<u64>
        requires { 0 < length self.old.window.buffered }
        ensures ok { IfOk result (λ n. TakesBits n self.old self.new) }
        ensures kept { OnOk result (Keeps self.old self.new) }
        ensures refused { OnErr result (FailsShort 9 self.old self.new) }
    {
        let bytes = self.front::<9>()?;
        Ok(LittleEndian::read_u64(&bytes[1..]))
    }
}
