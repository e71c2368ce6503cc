//! Strings in quotes, and reals.

use bser_format::real::write_real;
use std::fmt;

/// The bytes of a byte string in quotes: as a text where they are one. Else each byte that is no
/// printable character of ASCII is `\x` and two hexadecimal digits, with a `b` before the quotes.
#[derive(Clone, Copy)]
pub struct Quoted<'a>(pub &'a [u8]);

impl fmt::Display for Quoted<'_> {
    fn fmt<W: fmt::Write>(&self, f: &mut fmt::Formatter<W>) -> fmt::Result {
        match std::str::from_utf8(self.0) {
            Ok(text) => write!(f, "{text:?}"),
            Err(_) => write_bytes(self.0, f),
        }
    }
}

fn write_bytes<W: fmt::Write>(bytes: &[u8], f: &mut fmt::Formatter<W>) -> fmt::Result {
    f.write_str("b\"")?;
    for byte in bytes {
        match *byte {
            b'"' => f.write_str("\\\"")?,
            b'\\' => f.write_str("\\\\")?,
            b' '..=b'~' => f.write_char(*byte as char)?,
            other => write!(f, "\\x{other:02x}")?,
        }
    }
    f.write_str("\"")
}

/// A real by its bits, as a `Value` prints it.
#[derive(Clone, Copy)]
pub(crate) struct Real(pub(crate) u64);

impl fmt::Display for Real {
    fn fmt<W: fmt::Write>(&self, f: &mut fmt::Formatter<W>) -> fmt::Result {
        write_real(self.0, f)
    }
}
