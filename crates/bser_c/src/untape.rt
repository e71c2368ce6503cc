//! The message of a tape.
ghost use Rattle.std.specs.Prelude.{◌≡◌, ◌≤◌, ◌<◌, ◌+◌, ◌^◌, ◌++◌, ℕ, true, Some, IfOk, IfErr, IfSome, IfNone, OnOk, length, take, drop};
ghost use Rattle.bser_deserializer.specs.declared.deserializer.TheConstants.{LEVELS};
ghost use Rattle.bser_c.specs.Fronts.{Puts};
ghost use Rattle.bser_c.specs.Parts.{header_of, part};
ghost use Rattle.bser_c.specs.Puts.{PutsAll, PutsPart};
ghost use Rattle.bser_c.specs.Tape.{HasTape};
ghost use Rattle.bser_c.specs.Untaped.{AgreeUpTo, AreToldBy, LiesIn, RefusesTape, RefusesWords, untaped_by};
ghost use Rattle.bser_c.specs.declared.untape.TapeError.TheVariants.{Memory};

use crate::comparing::TapeComparison;
use crate::direct::tell_whole;
use crate::front::Front;
use crate::measure::{size_of, size_of_count};
use crate::tags::{BYTES_KEY, CLOSE, KEY, ROWS};
use bser_format::errors::Error;
use bser_format::header::{
    BSER_ARRAY, BSER_BYTESTRING, BSER_FALSE, BSER_INT64, BSER_NULL, BSER_OBJECT, BSER_REAL,
    BSER_SKIP, BSER_TEMPLATE, BSER_TRUE, BSER_UTF8STRING, HEADER_START,
};
use bser_messages::limits::Limits;
use bser_messages::telling;
use bser_messages::told::Reason;
use std::alloc::Global;

/// Why a tape has no message.
#[derive(Debug, Clone, Copy, PartialEq, Eq)]
pub enum TapeError {
    /// The words are no tape.
    Invalid {
        /// How many words lie before those that are wrong.
        at: usize,
    },
    /// The message has more bytes than there is room for.
    TooLong {
        /// How many bytes it has, and so how many are wanted.
        size: usize,
    },
    /// An allocation failed.
    Memory,
}

/// Writes the message of a tape whose strings are in `strings` to the front of `out`, and returns
/// how many bytes it has. It has no capabilities. Integers and counts are in their least width, and
/// all else as the tape spells it, templates too.
///
/// A tape nests at most 128 levels, and has no words after its value. The message is read again and
/// compared with the tape before this answers. After an error `out` holds nothing of use.
#[tactic(auto, using(crate::proofs::Untapes::refused_words, crate::proofs::Untapes::refused_compared))]
pub fn message_of(
    alloc: Global,
    words: &[u64],
    strings: &[u8],
    out: &mut [u8],
) -> Result<usize, TapeError>
    ensures made { IfOk result (λ n. HasTape LEVELS strings.now 0 (take n out.new) words.now) }
    ensures fits { IfOk result (λ size. size ≤ length out.new) }
    ensures place { IfErr result (LiesIn (length words.now) (length out.old)) }
    ensures refused { IfErr result (RefusesTape strings.now words.now) }
{
    let size = write(words, strings, out)?;
    compare(alloc, words, strings, &out[..size])?;
    Ok(size)
}

/// Writes what the words mean, and returns how many bytes that are. It may be no message.
#[tactic(auto, using(crate::proofs::Untapes::told_size, crate::proofs::Untapes::written))]
fn write(words: &[u64], strings: &[u8], out: &mut [u8]) -> Result<usize, TapeError>
    ensures told { IfOk result (λ n. AreToldBy strings.now words.now (take n out.new)) }
    ensures fits { IfOk result (λ size. size ≤ length out.new) }
    ensures place { IfErr result (LiesIn (length words.now) (length out.old)) }
    ensures refused { IfErr result (RefusesWords strings.now words.now) }
{
    let body = match size_of(words, strings) {
        Ok(body) => body,
        Err(at) => return Err(TapeError::Invalid { at }),
    };
    let size = (HEADER_START.len() + size_of_count(body as u64)).saturating_add(body);
    if size > out.len() {
        return Err(TapeError::TooLong { size });
    }
    let mut front = Front::new(out);
    match put_all(body, words, strings, &mut front) {
        Ok(()) => Ok(front.len()),
        Err(at) => Err(TapeError::Invalid { at }),
    }
}

/// Puts the header of a body of this length, and what the words mean. The error is how many words
/// lie before those that are wrong.
fn put_all(body: usize, words: &[u64], strings: &[u8], front: &mut Front<'_>) -> Result<(), usize>
    requires { body < 2 ^ 63 }
    ensures told { PutsAll body words.now strings.now front.old front.new result }
    ensures place { IfErr result (λ at. at ≤ length words.now) }
{
    let Some(()) = put_header(body, front) else {
        return Err(0);
    };
    for i in 0..words.len() / 2 {
        let at = 2 * i;
        let Some(()) = put_part(words[at], words[at + 1], strings, front) else {
            return Err(at);
        };
    }
    Ok(())
}

/// Puts the magic, no capabilities, and the length of the body.
#[tactic(auto, using(crate::proofs::Puts::puts_both, crate::proofs::Puts::full_first))]
fn put_header(body: usize, front: &mut Front<'_>) -> Option<()>
    requires { body < 2 ^ 63 }
    ensures { Puts front.old front.new (header_of body) result }
{
    front.put(&HEADER_START)?;
    front.put_count(body)
}

/// Puts what two words mean, or answers none where they mean nothing.
#[inline(always)]
#[tactic(auto, using(crate::proofs::Puts::puts_both, crate::proofs::Puts::full_first))]
fn put_part(first: u64, second: u64, strings: &[u8], front: &mut Front<'_>) -> Option<()>
    ensures { PutsPart (part strings.now first second) front.old front.new result }
{
    let count = (first / 256) as usize;
    match (first % 256) as u8 {
        tag @ (BSER_NULL | BSER_TRUE | BSER_FALSE | BSER_SKIP) => front.put(&[tag]),
        BSER_INT64 => front.put_integer(second.cast_signed()),
        BSER_REAL => front.put_tagged(BSER_REAL, &second.to_le_bytes()),
        BSER_BYTESTRING | BYTES_KEY => {
            front.put_string(BSER_BYTESTRING, string_at(strings, count, second)?)
        }
        BSER_UTF8STRING | KEY => {
            front.put_string(BSER_UTF8STRING, string_at(strings, count, second)?)
        }
        tag @ (BSER_ARRAY | BSER_OBJECT) => front.put_head(tag, count),
        BSER_TEMPLATE => {
            front.put(&[BSER_TEMPLATE])?;
            front.put_head(BSER_ARRAY, count)
        }
        ROWS => front.put_count(count),
        CLOSE => front.put(&[]),
        _ => None,
    }
}

/// The string of so many bytes that begins there.
#[inline(always)]
fn string_at(strings: &[u8], len: usize, at: u64) -> Option<&[u8]>
    ensures some { IfSome result (λ s. s.now ≡ take len (drop at strings.now)) }
    ensures len { IfSome result (λ s. length s.now ≡ len) }
    ensures within { IfSome result (λ _. at + len ≤ length strings.now) }
    ensures none { IfNone result (length strings.now < at + len) }
{
    let at = at as usize;
    let end = at.checked_add(len)?;
    if end > strings.len() {
        return None;
    }
    Some(&strings[at..end])
}

/// Tells the message, and compares it with the tape.
fn compare(alloc: Global, words: &[u64], strings: &[u8], message: &[u8]) -> Result<(), TapeError>
    ensures has { OnOk result (HasTape LEVELS strings.now 0 message.now words.now) }
    ensures refused { HasTape LEVELS strings.now 0 message.now words.now
        → IfErr result (λ e. e ≡ Memory) }
    ensures place { (room : ℕ) → IfErr result (LiesIn (length words.now) room) }
    ensures agreed { IfErr result (AgreeUpTo strings.now words.now) }
{
    if is_told(words, strings, message) {
        return Ok(());
    }
    compare_slowly(alloc, words, strings, message)
}

/// Whether the message is well-formed and has this tape, as a rule. False says nothing of them.
#[inline(always)]
fn is_told(words: &[u64], strings: &[u8], message: &[u8]) -> bool
    ensures { result ≡ true → HasTape LEVELS strings.now 0 message.now words.now }
{
    let mut compared = TapeComparison::new(words, strings);
    match tell_whole(message, &mut compared) {
        Some(header) => compared.is_same(header, message.len()),
        None => false,
    }
}

/// The same for any message.
#[cold]
#[inline(never)]
fn compare_slowly(
    alloc: Global,
    words: &[u64],
    strings: &[u8],
    message: &[u8],
) -> Result<(), TapeError>
    ensures has { OnOk result (HasTape LEVELS strings.now 0 message.now words.now) }
    ensures refused { HasTape LEVELS strings.now 0 message.now words.now
        → IfErr result (λ e. e ≡ Memory) }
    ensures place { (room : ℕ) → IfErr result (LiesIn (length words.now) room) }
    ensures agreed { IfErr result (AgreeUpTo strings.now words.now) }
{
    let mut compared = TapeComparison::new(words, strings);
    let answer = telling::from_slice(alloc, Limits::new(), message, &mut compared);
    let at = compared.place().min(words.len());
    match answer {
        Ok(header) if compared.is_same(header, message.len()) => Ok(()),
        Ok(_header) => Err(TapeError::Invalid { at }),
        Err(untold) => match untold.reason {
            Reason::Failed(description) => Err(of_error(description.cause(), at)),
            Reason::Stopped { place: _ } => Err(TapeError::Invalid { at }),
        },
    }
}

/// Why the message that the words gave was not read back, before whose error so many words agreed.
fn of_error(error: &Error, at: usize) -> TapeError
    ensures { result ≡ untaped_by error.now at }
{
    match error {
        Error::OutOfMemory => TapeError::Memory,
        _ => TapeError::Invalid { at },
    }
}
