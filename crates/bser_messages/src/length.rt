//! How long a message is, by its first bytes.
ghost use Rattle.std.specs.Prelude.{◌≡◌, ◌≤◌, ◌<◌, ◌^◌, IfOk, IfErr, IfSome, IfNone};
ghost use Rattle.bser_format.specs.Named.{head, refuses, eof};
ghost use Rattle.bser_messages.specs.Lengths.{HasLength, IsLengthOfEach, RefusesLength};

use bser_bunser::bunser::Bunser;
use bser_format::errors::{Complaint, Error, ReadCause, Result};
use bser_source::slice_read::SliceRead;
use std::alloc::Global;

/// Returns the length in bytes of the message that begins with `bytes`, its header and its body. It
/// is at most `i64::MAX`, and `None` where the header is not whole yet. What follows the message is
/// ignored.
///
/// A header has at most 15 bytes. The errors are those of [`Bunser::read_pdu`], and the message
/// [`Complaint::CountTooGreat`] where header and body together have more than `i64::MAX` bytes.
/// Nothing of the body is looked at.
pub fn message_length(alloc: Global, bytes: &[u8]) -> Result<Option<usize>>
    ensures whole { IfOk result (λ answer. IfSome answer (HasLength bytes.now)) }
    ensures each { IfOk result (λ answer. IfSome answer (IsLengthOfEach bytes.now)) }
    ensures fits { IfOk result (λ answer. IfSome answer (λ n. n < 2 ^ 63)) }
    ensures cut { IfOk result (λ answer. IfNone answer (head bytes.now ≡ refuses eof)) }
    ensures refused { IfErr result (RefusesLength bytes.now) }
{
    match Bunser::new(alloc, SliceRead::new(bytes)).read_pdu() {
        Ok(info) => {
            let length = info.start as usize + info.len as usize;
            if length > i64::MAX as usize {
                return Err(Error::de_custom(Complaint::CountTooGreat));
            }
            Ok(Some(length))
        }
        Err(
            Error::DeReaderError {
                source: ReadCause::Eof,
            },
        ) => Ok(None),
        Err(error) => Err(error),
    }
}
