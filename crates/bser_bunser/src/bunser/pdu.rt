//! The header of a message, and where its body ends.
ghost use Rattle.std.specs.Prelude.{◌≡◌, ◌-◌, ◌∷◌, [], false, IfOk, IfErr, OnOk, OnErr};
ghost use Rattle.std.specs.Int.{w32, to_le_bytes};
ghost use Rattle.bser_format.specs.Clauses.{after_a_refusal};
ghost use Rattle.bser_format.specs.Named.{front, magic, head};
ghost use Rattle.bser_source.specs.Window.{Expects};
ghost use Rattle.bser_bunser.specs.Calls.{bytes_taken, Takes, TakesHead, Keeps, FailsShort, FailsBy, AnswersBy};
ghost use Rattle.bser_bunser.specs.Refusal.{end_refusal};
ghost use Rattle.bser_bunser.specs.Tagged.{EndsAt};

use crate::bunser::Bunser;
use crate::refusal::{Answer, Refused};
use bser_format::errors::{Complaint, Error, ReadCause, Result};
use bser_source::read::DeRead;
use byteorder::{ByteOrder, LittleEndian};

/// The content of a message's header, and where its body begins.
#[derive(Clone, Copy)]
pub struct PduInfo {
    /// The capabilities that the message asks for, one bit each.
    pub bser_capabilities: u32,
    /// The length of the body, in bytes.
    pub len: i64,
    /// How many bytes had been taken when the body began, at most `i64::MAX`.
    pub start: i64,
}

/// As many bytes as the shortest header has.
const SHORTEST: usize = 8;

impl<R: DeRead> Bunser<R> {
    /// Checks that the body ended where its header says, by the count of the source itself.
    ///
    /// A negative start or length is the message [`Complaint::NegativeLength`], a sum of both above
    /// `i64::MAX` is [`Complaint::CountTooGreat`], and another count of bytes than that sum is
    /// [`Error::DeEof`]. After an earlier error it is [`ReadCause::Failed`], whatever the count. An
    /// error changes nothing.
    pub fn end(&self, pdu_info: &PduInfo) -> Result<()>
        ensures ok { OnOk result (EndsAt pdu_info.now.start pdu_info.now.len
            self.now.window.count) }
        ensures working { OnOk result (self.now.window.failed ≡ false) }
        ensures cause { IfErr result (λ e. e ≡
            after_a_refusal self.now.window.failed
            (end_refusal pdu_info.now.start pdu_info.now.len
            self.now.window.count)) }
        ensures err { self.now.window.failed ≡ false → OnErr result
            (EndsAt pdu_info.now.start pdu_info.now.len
            self.now.window.count → ⊥) }
    {
        if self.is_failed() {
            return Err(Error::de_reader_error(ReadCause::Failed));
        }
        if pdu_info.start < 0 || pdu_info.len < 0 {
            return Err(Error::de_custom(Complaint::NegativeLength));
        }
        let Some(sum) = pdu_info.start.checked_add(pdu_info.len) else {
            return Err(Error::de_custom(Complaint::CountTooGreat));
        };
        let expected = sum as usize;
        let read = self.read.read_count();
        if read != expected {
            return Err(Error::DeEof { expected, read });
        }
        Ok(())
    }

    /// Takes the two bytes that begin a message.
    fn read_magic(&mut self) -> Answer<()>
        ensures ok { OnOk result (Takes (0x00 ∷ 0x02 ∷ []) self.old self.new) }
        ensures kept { OnOk result (Keeps self.old self.new) }
        ensures refused { OnErr result (FailsBy magic self.old self.new) }
    {
        let magic = self.front::<2>()?;
        if magic[0] != 0 || magic[1] != 2 {
            return Err(self.refuse(Error::DeInvalidMagic { magic }));
        }
        Ok(())
    }

    /// Takes the four bytes of the capabilities, the lowest first.
    fn read_capabilities(&mut self) -> Answer<u32>
        ensures ok { IfOk result (λ c. Takes (to_le_bytes w32 c) self.old self.new) }
        ensures kept { OnOk result (Keeps self.old self.new) }
        ensures refused { OnErr result (FailsShort 4 self.old self.new) }
    {
        let bytes = self.front::<4>()?;
        Ok(LittleEndian::read_u32(&bytes))
    }

    /// Lets the source buffer what it reads, within the next `n` bytes.
    fn announce(&mut self, n: usize)
        ensures window { Expects self.old.window self.new.window n }
        ensures kept { Keeps self.old self.new }
    {
        self.read.expect(n);
    }

    /// Takes the header of a message, and announces the length of its body to the source.
    ///
    /// The errors are those of [`Self::read_pdu`].
    fn take_head(&mut self) -> Answer<PduInfo>
        ensures ok { IfOk result (λ info. TakesHead info self.old self.new) }
        ensures start { IfOk result (λ i. i.start ≡ bytes_taken self.new) }
        ensures kept { OnOk result (Keeps self.old self.new) }
        ensures refused { OnErr result (FailsBy head self.old self.new) }
    {
        self.read_magic()?;
        let bser_capabilities = self.read_capabilities()?;
        let len = self.length()?;
        self.announce(len);
        Ok(PduInfo {
            bser_capabilities,
            len: len as i64,
            start: self.read_count(),
        })
    }

    /// Takes the header of a message, and announces the length of its body to the source.
    ///
    /// As many bytes as each header has are announced before it is read: over a reader most headers
    /// take one read. The errors are those of [`Self::read_pdu`].
    pub fn read_head(&mut self) -> Answer<PduInfo>
        ensures ok { IfOk result (λ info. TakesHead info self.old self.new) }
        ensures start { IfOk result (λ i. i.start ≡ bytes_taken self.new) }
        ensures kept { OnOk result (Keeps self.old self.new) }
        ensures refused { OnErr result (FailsBy head self.old self.new) }
    {
        self.announce(SHORTEST);
        self.take_head()
    }

    /// Takes the header of a message, and announces the length of its body to the source.
    ///
    /// Other bytes than `00 02` at the start are [`Error::DeInvalidMagic`], a length without an
    /// integer's tag is [`Error::DeInvalidStartByte`] of kind
    /// [`bser_format::errors::Kind::Integer`], and a negative one the message
    /// [`Complaint::NegativeLength`]. A header that is cut short fails as [`Self::fill`] does.
    pub fn read_pdu(&mut self) -> Result<PduInfo>
        ensures ok { IfOk result (λ info. TakesHead info self.old self.new) }
        ensures start { IfOk result (λ i. i.start ≡ bytes_taken self.new) }
        ensures kept { OnOk result (Keeps self.old self.new) }
        ensures refused { IfErr result (AnswersBy head self.old self.new) }
    {
        match self.read_head() {
            Ok(info) => Ok(info),
            Err(Refused) => Err(self.take_refusal()),
        }
    }
}
