//! What the first bytes of a message announce.
ghost use Rattle.std.specs.Prelude.{◌≡◌};
ghost use Rattle.bser_frames.specs.Headers.{IsHeaderLength};

use bser_bunser::prefix::{Prefix, length_prefix};

/// How many bytes are before the length of the body: the magic and the capabilities.
const BEFORE_LENGTH: usize = 6;

/// How many bytes a header has at least.
const LEAST_HEADER: usize = 8;

/// How many bytes the header has, as far as its first bytes show: its length, where it is whole,
/// and else as many as it has at least.
#[tactic(auto, using(crate::proofs::HeaderLengths::few_bytes, crate::proofs::HeaderLengths::short_length))]
pub(crate) fn header_length(bytes: &[u8]) -> usize
    ensures { IsHeaderLength bytes.now result }
{
    if bytes.len() < BEFORE_LENGTH {
        return LEAST_HEADER;
    }
    match length_prefix(&bytes[BEFORE_LENGTH..]) {
        Prefix::Found { value: _, len } => BEFORE_LENGTH + len,
        Prefix::Short { need } => LEAST_HEADER.max(BEFORE_LENGTH + need),
        Prefix::Unexpected(_) => LEAST_HEADER,
    }
}
