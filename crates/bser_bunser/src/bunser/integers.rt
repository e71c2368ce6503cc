//! Integers of any width.
ghost use Rattle.std.specs.Prelude.{◌≡◌, ◌≢◌, IfOk, IfErr, IfSome, IfNone, OnErr, OnOk};
ghost use Rattle.bser_format.specs.Named.{int};
ghost use Rattle.bser_bunser.specs.Calls.{TakesInt, LooksFor, Keeps, HasFailed, IsCutShort, FailsBy, FailsInPlace, AnswersBy, AnswersInPlace};

use crate::bunser::Bunser;
use crate::prefix::{Look, Prefix, int_prefix};
use crate::refusal::{Answer, Refused};
use bser_format::errors::{Error, Kind, Result};
use bser_source::read::{DeRead, count_octets};

/// As many bytes as the longest integer has: its tag, and eight.
const LONGEST: usize = 9;

impl<R: DeRead> Bunser<R> {
    /// Takes an integer of any width. At another tag nothing is taken, and it is
    /// [`Look::Unexpected`] with [`Unexpected::Tag`].
    ///
    /// An integer that is cut short, or none at all, fails as [`Self::fill`] does.
    #[inline(always)]
    pub fn next_int(&mut self) -> Answer<Look<i64>>
        ensures ok { IfOk result (λ l. LooksFor l self.old self.new) }
        ensures kept { OnOk result (Keeps self.old self.new) }
        ensures err { OnErr result (HasFailed self.old self.new) }
        ensures names { OnErr result (IsCutShort self.old self.new) }
        ensures memory { OnErr result (self.new.refusal ≢ Error.OutOfMemory) }
    {
        match self.buffered_int() {
            Some(number) => Ok(Look::Taken(number)),
            None => self.next_int_slowly(),
        }
    }

    /// Takes an integer, where as many bytes are buffered as the longest one has. Else it is `None`,
    /// and nothing is taken.
    #[inline(always)]
    pub fn buffered_int(&mut self) -> Option<i64>
        ensures some { IfSome result (λ v. TakesInt v self.old self.new) }
        ensures none { IfNone result (self.new.window ≡ self.old.window) }
        ensures kept { Keeps self.old self.new }
    {
        let bytes = self.read.buffered();
        if count_octets(bytes) < LONGEST {
            return None;
        }
        match int_prefix(bytes) {
            Prefix::Found { value, len } => {
                self.read.consume(len);
                Some(value)
            }
            _ => None,
        }
    }

    /// Takes an integer of any width, and buffers its bytes before.
    #[cold]
    #[inline(never)]
    fn next_int_slowly(&mut self) -> Answer<Look<i64>>
        ensures ok { IfOk result (λ l. LooksFor l self.old self.new) }
        ensures kept { OnOk result (Keeps self.old self.new) }
        ensures err { OnErr result (HasFailed self.old self.new) }
        ensures names { OnErr result (IsCutShort self.old self.new) }
        ensures memory { OnErr result (self.new.refusal ≢ Error.OutOfMemory) }
    {
        loop {
            match int_prefix(self.read.buffered()) {
                Prefix::Found { value, len } => {
                    self.read.consume(len);
                    return Ok(Look::Taken(value));
                }
                Prefix::Short { need } => self.fill_slowly(need)?,
                Prefix::Unexpected(why) => return Ok(Look::Unexpected(why)),
            }
        }
    }

    /// Takes an integer of any width.
    ///
    /// The errors are those of [`Self::check_next_int`].
    #[inline(always)]
    pub(crate) fn int(&mut self) -> Answer<i64>
        ensures ok { IfOk result (λ v. TakesInt v self.old self.new) }
        ensures kept { OnOk result (Keeps self.old self.new) }
        ensures refused { OnErr result (FailsBy int self.old self.new) }
        ensures place { OnErr result (FailsInPlace self.old self.new) }
    {
        match self.buffered_int() {
            Some(number) => Ok(number),
            None => self.int_slowly(),
        }
    }

    /// Takes an integer of any width, and buffers its bytes before.
    #[cold]
    #[inline(never)]
    fn int_slowly(&mut self) -> Answer<i64>
        ensures ok { IfOk result (λ v. TakesInt v self.old self.new) }
        ensures kept { OnOk result (Keeps self.old self.new) }
        ensures refused { OnErr result (FailsBy int self.old self.new) }
        ensures place { OnErr result (FailsInPlace self.old self.new) }
    {
        match self.next_int_slowly()? {
            Look::Taken(number) => Ok(number),
            Look::Unexpected(why) => Err(self.refuse_unexpected(Kind::Integer, why)),
        }
    }

    /// Takes an integer of any width.
    ///
    /// Another tag is [`Error::DeInvalidStartByte`] of kind [`Kind::Integer`], with that tag. An
    /// integer that is cut short, or none at all, fails as [`Self::fill`] does.
    #[inline(always)]
    pub fn check_next_int(&mut self) -> Result<i64>
        ensures ok { IfOk result (λ v. TakesInt v self.old self.new) }
        ensures kept { OnOk result (Keeps self.old self.new) }
        ensures refused { IfErr result (AnswersBy int self.old self.new) }
        ensures place { IfErr result (AnswersInPlace self.old self.new) }
    {
        match self.int() {
            Ok(number) => Ok(number),
            Err(Refused) => Err(self.take_refusal()),
        }
    }
}
