//! One whole message pulled from a reader to a buffer.
ghost use Rattle.std.specs.Prelude.{◌≡◌, ◌≤◌, ◌<◌, ◌+◌, ◌^◌, [], max, true, false, length, IfOk, IfErr, IfSome, IfNone, OnOk};
ghost use Rattle.std.specs.Io.KnownBytes.{IsAtEnd};
ghost use Rattle.bser_source.specs.Pull.{Reads};
ghost use Rattle.bser_frames.specs.Headers.{IsDue};
ghost use Rattle.bser_frames.specs.Stops.{IsFault, Stops, failures_after};
ghost use Rattle.bser_frames.specs.Stream.{IsFrameWithin};
ghost use Rattle.bser_messages.specs.Lengths.{HasLength};
ghost use Rattle.bser_frames.specs.declared.buffer.TheConstants.{STEP};

use crate::buffer::Buffer;
use crate::error::FrameError;
use crate::header::header_length;
use bser_messages::length::message_length;
use bser_source::device::Source;
use std::alloc::Global;

/// Pulls until the buffer holds `len` bytes, or the reader ends, and returns whether it holds them.
#[tactic(auto, using(crate::proofs::Additions::reads_then, crate::proofs::Additions::reads_nothing))]
fn pull_until<S: Source>(
    reader: &mut S,
    buffer: &mut Buffer,
    len: usize,
) -> Result<bool, FrameError>
    requires within { length buffer.old.bytes ≤ len }
    ensures came { Reads (S.remaining reader.old) (S.remaining reader.new)
        buffer.old.bytes buffer.new.bytes }
    ensures short { length buffer.new.bytes ≤ len }
    ensures whole { IfOk result (λ b. b ≡ true → length buffer.new.bytes ≡ len) }
    ensures end { IfOk result (λ b. b ≡ false → IsAtEnd (S.remaining reader.new)) }
    ensures cut { IfOk result (λ b. b ≡ false → length buffer.new.bytes < len) }
    ensures ahead { buffer.new.room ≤ max buffer.old.room (length buffer.new.bytes + STEP) }
    ensures kept { OnOk result (S.failures reader.new ≡ S.failures reader.old) }
    ensures fault { IfErr result IsFault }
    ensures failures { IfErr result (λ e.
        S.failures reader.new ≡ failures_after e (S.failures reader.old)) }
{
    while buffer.len() < len {
        if buffer.pull(reader, len - buffer.len())? == 0 {
            return Ok(false);
        }
    }
    Ok(true)
}

/// Pulls until the message's header is whole, and returns the message's length, or `None` where the
/// reader ends before the first byte.
#[tactic(auto, using(crate::proofs::Additions::reads_then, crate::proofs::Additions::reads_nothing))]
fn pull_header<S: Source>(
    alloc: Global,
    most: usize,
    reader: &mut S,
    buffer: &mut Buffer,
) -> Result<Option<usize>, FrameError>
    requires due { IsDue most buffer.old.bytes }
    ensures came { Reads (S.remaining reader.old) (S.remaining reader.new)
        buffer.old.bytes buffer.new.bytes }
    ensures due { IsDue most buffer.new.bytes }
    ensures whole { IfOk result (λ a. IfSome a (HasLength buffer.new.bytes)) }
    ensures fits { IfOk result (λ a. IfSome a (λ n. n < 2 ^ 63)) }
    ensures nothing { IfOk result (λ a. IfNone a (buffer.new.bytes ≡ [])) }
    ensures end { IfOk result (λ a. IfNone a (IsAtEnd (S.remaining reader.new))) }
    ensures ahead { buffer.new.room ≤ max buffer.old.room (length buffer.new.bytes + STEP) }
    ensures kept { OnOk result (S.failures reader.new ≡ S.failures reader.old) }
    ensures err { IfErr result (λ e.
        Stops most e buffer.new.bytes (S.remaining reader.new)) }
    ensures failures { IfErr result (λ e.
        S.failures reader.new ≡ failures_after e (S.failures reader.old)) }
{
    loop {
        match message_length(alloc, buffer.as_slice()) {
            Ok(Some(length)) => return Ok(Some(length)),
            Ok(None) => {}
            Err(error) => return Err(FrameError::Header(error)),
        }
        let have = buffer.len();
        let want = header_length(buffer.as_slice());
        if buffer.pull(reader, want - have)? == 0 {
            if have == 0 {
                return Ok(None);
            }
            return Err(FrameError::Cut { have, want });
        }
    }
}

/// Pulls until the message is whole, or returns false where the reader ended before its first byte.
pub(crate) fn pull_frame<S: Source>(
    alloc: Global,
    most: usize,
    reader: &mut S,
    buffer: &mut Buffer,
) -> Result<bool, FrameError>
    requires due { IsDue most buffer.old.bytes }
    ensures came { Reads (S.remaining reader.old) (S.remaining reader.new)
        buffer.old.bytes buffer.new.bytes }
    ensures due { IsDue most buffer.new.bytes }
    ensures whole { IfOk result (λ b. b ≡ true → IsFrameWithin most buffer.new.bytes) }
    ensures nothing { IfOk result (λ b. b ≡ false → buffer.new.bytes ≡ []) }
    ensures end { IfOk result (λ b. b ≡ false → IsAtEnd (S.remaining reader.new)) }
    ensures ahead { buffer.new.room ≤ max buffer.old.room (length buffer.new.bytes + STEP) }
    ensures kept { OnOk result (S.failures reader.new ≡ S.failures reader.old) }
    ensures err { IfErr result (λ e.
        Stops most e buffer.new.bytes (S.remaining reader.new)) }
    ensures failures { IfErr result (λ e.
        S.failures reader.new ≡ failures_after e (S.failures reader.old)) }
{
    let length = match pull_header(alloc, most, reader, buffer)? {
        Some(length) => length,
        None => return Ok(false),
    };
    let announced = length - header_length(buffer.as_slice());
    if announced > most {
        return Err(FrameError::TooLong { announced, most });
    }
    if pull_until(reader, buffer, length)? {
        return Ok(true);
    }
    Err(FrameError::Cut {
        have: buffer.len(),
        want: length,
    })
}
