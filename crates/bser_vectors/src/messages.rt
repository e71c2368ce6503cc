//! Worked messages that tests of several crates read and write.
use std::alloc::{AllocError, Global};

/// Null.
pub const NULL: &[u8] = b"\x00\x02\0\0\0\0\x03\x01\x0a";

/// The number 5.
pub const FIVE: &[u8] = b"\x00\x02\0\0\0\0\x03\x02\x03\x05";

/// The real next to pi.
pub const PI: &[u8] = b"\x00\x02\0\0\0\0\x03\x09\x07\x18\x2d\x44\x54\xfb\x21\x09\x40";

/// The text Tom.
pub const TOM: &[u8] = b"\x00\x02\0\0\0\0\x03\x06\x0d\x03\x03Tom";

/// An object with the key "b" of 1, and then "a" of 2.
pub const FALLING_KEYS: &[u8] =
    b"\x00\x02\0\0\0\0\x03\x0f\x01\x03\x02\x0d\x03\x01b\x03\x01\x0d\x03\x01a\x03\x02";

/// An array of the number 7 and the text x.
pub const PAIR: &[u8] = b"\x00\x02\0\0\0\0\x03\x09\x00\x03\x02\x03\x07\x0d\x03\x01x";

/// Two rows over the keys "abc", "def" and "ghi", with a null in the first row, and a skipped field
/// in the second.
pub const ROWS: &[u8] =
    b"\x00\x02\0\0\0\0\x05\x28\0\0\0\x0b\x00\x03\x03\x02\x03\x03abc\x02\x03\x03def\x02\x03\x03ghi\x03\x02\x03\x7b\x02\x03\x03bar\x0a\x04\xc8\x01\x0c\x04\x15\x03";

/// The rows in the notation.
pub const ROWS_NOTATION: &str =
    "[{616263:i123,646566:b626172,676869:n},{616263:i456,646566:n,676869:i789}]";

/// The canonical message of the rows.
pub const CANONICAL_ROWS: &[u8] =
    b"\x00\x02\0\0\0\0\x03\x3d\x00\x03\x02\x01\x03\x03\x0d\x03\x03abc\x03\x7b\x0d\x03\x03def\x02\x03\x03bar\x0d\x03\x03ghi\x0a\x01\x03\x03\x0d\x03\x03abc\x04\xc8\x01\x0d\x03\x03def\x0a\x0d\x03\x03ghi\x04\x15\x03";

/// The compact message of the rows: the keys under the tag of texts, and no skip.
pub const COMPACT_ROWS: &[u8] =
    b"\x00\x02\0\0\0\0\x03\x28\x0b\x00\x03\x03\x0d\x03\x03abc\x0d\x03\x03def\x0d\x03\x03ghi\x03\x02\x03\x7b\x02\x03\x03bar\x0a\x04\xc8\x01\x0a\x04\x15\x03";

/// Two rows of one field each, which are templates of two rows, in the notation.
pub const NESTED_ROWS_NOTATION: &str = "[{61:[{62:i1},{62:i2}]},{61:[{62:i3},{62:i4}]}]";

/// The compact message of the nested rows.
pub const NESTED_ROWS: &[u8] =
    b"\x00\x02\0\0\0\0\x03\x26\x0b\x00\x03\x01\x0d\x03\x01a\x03\x02\x0b\x00\x03\x01\x0d\x03\x01b\x03\x02\x03\x01\x03\x02\x0b\x00\x03\x01\x0d\x03\x01b\x03\x02\x03\x03\x03\x04";

/// An array in an array, so many levels deep, with nothing in the innermost one.
pub fn nested_arrays(alloc: Global, levels: u16) -> Result<Vec<u8>, AllocError> {
    let [low, high] = levels.saturating_mul(3).to_le_bytes();
    let mut message = Vec::from_slice(alloc, b"\x00\x02\0\0\0\0\x04")?;
    message.extend_from_slice(&[low, high])?;
    for level in 1..levels.saturating_add(1) {
        message.extend_from_slice(&[0x00, 0x03, u8::from(level < levels)])?;
    }
    Ok(message)
}
