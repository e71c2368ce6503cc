//! Byte sources.
ghost use Rattle.std.specs.Prelude.{◌≡◌, ◌≢◌, ◌≤◌, ◌<◌, ◌∷◌, [], true, false, length, take, MatchOption, IfOk, IfErr, OnOk};
ghost use Rattle.std.specs.Int.{w32, to_le_bytes};
ghost use Rattle.bser_source.specs.Refs.{bytes_of, is_lent};
ghost use Rattle.bser_source.specs.declared.read.TheConstants.{WINDOW};
ghost use Rattle.bser_source.specs.Window.{Window, AreOctets, Filled, Peeks, Took, Expects, consumed, closed};
ghost use Rattle.bser_source.specs.Refusal.{EndsShort, Refused};

use crate::reference::{Lending, Reference};
use bser_format::errors::ReadCause;
use byteorder::{ByteOrder, LittleEndian};

/// The number in four bytes, the lowest first.
fn little_u32(bytes: &[u8]) -> u32
    requires { length bytes.now ≡ 4 }
    ensures { to_le_bytes w32 result ≡ bytes.now }
{
    LittleEndian::read_u32(bytes)
}

/// Returns how many bytes these are.
#[inline(always)]
pub fn count_octets(bytes: &[u8]) -> usize
    ensures len { result ≡ length bytes.now }
    ensures octets { AreOctets bytes.now }
{
    bytes.len()
}

/// How many bytes [`DeRead::fill`] buffers at most.
pub const WINDOW: usize = 4096;

/// A source of a message's bytes, with a window on those left, as std's `BufRead` has.
///
/// What is buffered is taken without an error. An error of a source that lends changes nothing. A
/// source that copies answers [`ReadCause::Failed`] to each call after an error. No call here
/// answers [`ReadCause::Utf8`].
pub trait DeRead {
    /// What the source lends from its input.
    type Lent: Lending;

    ghost window: { Self → Window };

    /// Returns the buffered bytes: the first of those left.
    fn buffered<'s>(&'s self) -> &'s [u8]
        ensures { result.now ≡ (window self.now).buffered };

    /// Buffers `n` bytes, [`WINDOW`] at most.
    ///
    /// Where fewer are left it is [`ReadCause::Eof`]. A source that copies also answers
    /// [`ReadCause::Reader`] for an error of its reader, and [`ReadCause::Failed`] after an error,
    /// or where the count of bytes would pass the greatest `usize`. It takes no memory.
    fn fill(&mut self, n: usize) -> Result<(), ReadCause>
        requires some { 0 < n }
        requires fits { n ≤ WINDOW }
        ensures ok { OnOk result (Filled n (window self.old) (window self.new)) }
        ensures err { IfErr result (λ e. Refused e (window self.old) (window self.new) n) }
        ensures end { IfErr result (λ e. e ≡ ReadCause.Eof
            → EndsShort n (window self.old) (window self.new)) }
        ensures memory { IfErr result (λ e. e ≢ ReadCause.Memory) };

    /// Takes the first `n` buffered bytes.
    fn consume(&mut self, n: usize)
        requires { n ≤ length (window self.old).buffered }
        ensures { window self.new ≡ consumed n (window self.old) };

    /// Lends the first `n` buffered bytes, and takes none. None where the source copies.
    fn lend(&self, n: usize) -> Option<Self::Lent>
        requires { n ≤ length (Self.window self.now).buffered }
        ensures { MatchOption result ((Self.window self.now).lends ≡ false) (λ r.
            (Self.Lent.bytes r ≡ take n (Self.window self.now).buffered)
            × ((Self.window self.now).lends ≡ true)) };

    /// Takes `len` bytes, more than are buffered, to `scratch` in place of what it held.
    ///
    /// The errors are those of `fill`, and [`ReadCause::Memory`] where the scratch did not grow. A
    /// source that lends has buffered all that is left, so it answers [`ReadCause::Eof`]. The
    /// scratch grows at most 65,536 bytes ahead of the bytes that arrived, whatever `len` is.
    fn gather(&mut self, len: usize, scratch: &mut Vec<u8>) -> Result<(), ReadCause>
        requires { length (window self.old).buffered < len }
        ensures length { OnOk result (length scratch.new.items ≡ len) }
        ensures copied { OnOk result ((window self.old).lends ≡ false) }
        ensures ok { OnOk result (Took (window self.old) (window self.new) scratch.new.items) }
        ensures err { IfErr result (λ e. Refused e (window self.old) (window self.new) len) };

    /// Announces that `n` bytes follow: the source may take as many from its device ahead of the
    /// calls.
    ///
    /// All else stays as it is, and an announcement of fewer bytes than are still left of an
    /// earlier one changes nothing. It takes no memory.
    fn expect(&mut self, n: usize)
        ensures { Expects (window self.old) (window self.new) n };

    /// Makes all calls from now on fail.
    fn close(&mut self)
        ensures { window self.new ≡ closed (window self.old) };

    /// Returns how many bytes were taken. Buffered bytes are not counted.
    fn read_count(&self) -> usize
        ensures { result ≡ (window self.now).count };

    /// Returns whether each later call that can fail does.
    fn is_failed(&self) -> bool
        ensures { result ≡ (window self.now).failed };

    // where all calls fail nothing is buffered
    ghost refuses: { (r : Self) → (window r).failed ≡ true → (window r).buffered ≡ [] };

    // it lends what is read, or copies it, throughout
    ghost lending: { (r : Self) → (window r).lends ≡ Self.Lent.lends };

    /// Buffers the next byte, and takes none.
    ///
    /// The errors are those of `fill` for one byte.
    final fn peek(&mut self) -> Result<u8, ReadCause>
        ensures ok { IfOk result (λ b. Peeks (window self.old) (window self.new) b) }
        ensures err { IfErr result (λ e. Refused e (window self.old) (window self.new) 1) }
        ensures end { IfErr result (λ e. e ≡ ReadCause.Eof
            → EndsShort 1 (window self.old) (window self.new)) }
        ensures memory { IfErr result (λ e. e ≢ ReadCause.Memory) }
    {
        self.fill(1)?;
        Ok(self.buffered()[0])
    }

    /// Takes the next byte.
    ///
    /// The errors are those of `fill` for one byte.
    final fn next(&mut self) -> Result<u8, ReadCause>
        ensures ok { IfOk result (λ b. Took (window self.old) (window self.new) (b ∷ [])) }
        ensures err { IfErr result (λ e. Refused e (window self.old) (window self.new) 1) }
        ensures memory { IfErr result (λ e. e ≢ ReadCause.Memory) }
    {
        let byte = self.peek()?;
        self.consume(1);
        Ok(byte)
    }

    /// Takes the first buffered byte. It wants one, which a `peek` that succeeds gives.
    final fn discard(&mut self)
        requires { 0 < length (window self.old).buffered }
        ensures { window self.new ≡ consumed 1 (window self.old) }
    {
        self.consume(1);
    }

    /// Takes `len` bytes, and lends them, or else copies them to `scratch` in place of what it
    /// held.
    ///
    /// The errors are those of `gather`.
    final fn next_bytes<'s>(
        &mut self,
        len: usize,
        scratch: &'s mut Vec<u8>,
    ) -> Result<Reference<'s, Self::Lent>, ReadCause>
        ensures length { IfOk result (λ r. length (bytes_of Self.Lent.bytes r) ≡ len) }
        ensures lent { IfOk result (λ r. is_lent r ≡ (Self.window self.old).lends) }
        ensures ok { IfOk result (λ r.
            Took (Self.window self.old) (Self.window self.new) (bytes_of Self.Lent.bytes r)) }
        ensures err { IfErr result (λ e.
            Refused e (Self.window self.old) (Self.window self.new) len) }
    {
        if len > count_octets(self.buffered()) {
            if len > WINDOW {
                self.gather(len, scratch)?;
                return Ok(Reference::Copied(scratch.as_slice()));
            }
            self.fill(len)?;
        } else if len == 0 && self.is_failed() {
            return Err(ReadCause::Failed);
        }
        match self.lend(len) {
            Some(bytes) => {
                self.consume(len);
                Ok(Reference::Borrowed(bytes))
            }
            None => {
                scratch.clear();
                if scratch.extend_from_slice(&self.buffered()[..len]).is_err() {
                    self.close();
                    return Err(ReadCause::Memory);
                }
                self.consume(len);
                Ok(Reference::Copied(scratch.as_slice()))
            }
        }
    }

    /// Takes four bytes by `next_bytes`, and gives their number, the lowest first.
    ///
    /// The errors are those of `next_bytes`.
    final fn next_u32(&mut self, scratch: &mut Vec<u8>) -> Result<u32, ReadCause>
        ensures ok { IfOk result (λ n.
            Took (window self.old) (window self.new) (to_le_bytes w32 n)) }
        ensures err { IfErr result (λ e. Refused e (window self.old) (window self.new) 4) }
    {
        let bytes = self.next_bytes(4, scratch)?;
        Ok(little_u32(bytes.get_ref()))
    }
}
