//! Bytes as text, where they may be no text.
ghost use Rattle.std.specs.Prelude.{◌≡◌, IfOk, string_bytes};
ghost use Rattle.bser_format.specs.Escaped.{escaped, IsEscaped};

use crate::bytestring::ByteString;
use std::alloc::{AllocError, Global};

/// Returns bytes as a text for people, as `ByteString::as_escaped_string` does. A character in
/// UTF-8 stays, and each other byte is `\x` and two lowercase hexadecimal digits.
///
/// It is the call for bytes that are lent, as a name that was read as a `&[u8]`. They are copied on
/// the way. The error is that there is no memory for the copy or the text.
pub fn escaped_bytes(alloc: Global, bytes: &[u8]) -> Result<String, AllocError>
    ensures text { IfOk result (λ text. string_bytes text ≡ escaped bytes.now) }
    ensures cut { IfOk result (λ text. IsEscaped bytes.now (string_bytes text)) }
{
    ByteString::from_vec(Vec::from_slice(alloc, bytes)?).as_escaped_string(alloc)
}
