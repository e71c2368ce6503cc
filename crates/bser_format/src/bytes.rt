//! Byte strings as JSON.
ghost use Rattle.std.specs.Fmt.{WritesOnOk};
ghost use Rattle.bser_format.specs.MarkedText.{bytes_text};

use crate::marked::write_marked;
use crate::quoted::write_quoted;
use std::fmt;

/// Writes bytes that are UTF-8 as `write_quoted` writes a text, and others as
/// `{"$bytes": "61ff"}`, with two lowercase hexadecimal digits a byte.
pub fn write_bytes<W: fmt::Write>(bytes: &[u8], f: &mut fmt::Formatter<W>) -> fmt::Result
    ensures { WritesOnOk W.write_str_gives f.old result (bytes_text bytes.now) f.new }
{
    match std::str::from_utf8(bytes) {
        Ok(text) => write_quoted(text, f),
        Err(_) => write_marked("$bytes", bytes, f),
    }
}
