//! The tape of a message.
ghost use Rattle.std.specs.Prelude.{◌≡◌, ◌≤◌, ◌+◌, ◌-◌, ◌^◌, min, false, length, take, IfOk, IfErr, IfSome};
ghost use Rattle.bser_deserializer.specs.declared.deserializer.TheConstants.{LEVELS};
ghost use Rattle.bser_messages.specs.Limited.{usual_limits};
ghost use Rattle.bser_messages.specs.Told.{IsReasonWithin, SliceUntold};
ghost use Rattle.bser_c.specs.Tape.{BeginsWithTape, HasTapeOf};

use crate::direct::tell_whole;
use crate::writing::Tape;
use bser_messages::limits::Limits;
use bser_messages::telling;
use bser_messages::told::{Header, TellError};
use std::alloc::Global;

/// What is known of a message beside its tape.
#[derive(Debug, Clone, Copy, PartialEq, Eq)]
pub struct Taped {
    /// The capabilities that the message asks for, one bit each.
    pub capabilities: u32,
    /// How many bytes the message has.
    pub size: usize,
    /// How many words its tape has.
    pub len: usize,
}

/// Writes the tape of the message at the start of `bytes`, of at most 128 levels, to the front of
/// `words`. What follows the message is ignored.
///
/// Where the tape has more words than there is room for, `words` holds nothing of use. The error is
/// the first one in the order of reading, or out of memory for the containers that are open.
pub fn tape_of(alloc: Global, bytes: &[u8], words: &mut [u64]) -> Result<Taped, TellError>
    ensures found { IfOk result (λ t. t.len ≤ length words.new
        → BeginsWithTape LEVELS bytes.now t.capabilities t.size (take t.len words.new)) }
    ensures wanted { IfOk result (λ t. HasTapeOf LEVELS bytes.now t.len) }
    ensures failed { IfErr result (λ e. SliceUntold usual_limits false bytes.now e.reason) }
    ensures place { IfErr result (λ e. IsReasonWithin (length bytes.now) e.reason) }
{
    match whole_tape(bytes, words) {
        Some(taped) => Ok(taped),
        None => tape_slowly(alloc, bytes, words),
    }
}

/// The tape of a message that is well-formed, as a rule. None says nothing of the bytes.
#[inline(always)]
fn whole_tape(bytes: &[u8], words: &mut [u64]) -> Option<Taped>
    ensures found { IfSome result (λ t. t.len ≤ length words.new
        → BeginsWithTape LEVELS bytes.now t.capabilities t.size (take t.len words.new)) }
    ensures wanted { IfSome result (λ t. HasTapeOf LEVELS bytes.now t.len) }
{
    let mut tape = Tape::new(words);
    let header = tell_whole(bytes, &mut tape)?;
    let Tape { words: _words, len } = tape;
    Some(taped_of(header, len))
}

/// The tape of any message.
#[cold]
#[inline(never)]
fn tape_slowly(alloc: Global, bytes: &[u8], words: &mut [u64]) -> Result<Taped, TellError>
    ensures found { IfOk result (λ t. t.len ≤ length words.new
        → BeginsWithTape LEVELS bytes.now t.capabilities t.size (take t.len words.new)) }
    ensures wanted { IfOk result (λ t. HasTapeOf LEVELS bytes.now t.len) }
    ensures failed { IfErr result (λ e. SliceUntold usual_limits false bytes.now e.reason) }
    ensures place { IfErr result (λ e. IsReasonWithin (length bytes.now) e.reason) }
{
    let mut tape = Tape::new(words);
    let answer = telling::from_slice(alloc, Limits::new(), bytes, &mut tape);
    let Tape { words: _words, len } = tape;
    match answer {
        Ok(header) => Ok(taped_of(header, len)),
        Err(untold) => Err(untold),
    }
}

/// What is known of a message with this header, beside its tape of so many words.
#[inline(always)]
fn taped_of(header: Header, len: usize) -> Taped
    ensures capabilities { result.capabilities ≡ header.capabilities }
    ensures size { result.size ≡ min (header.start + header.len) (2 ^ 64 - 1) }
    ensures len { result.len ≡ len }
{
    Taped {
        capabilities: header.capabilities,
        size: header.message_length(),
        len,
    }
}
