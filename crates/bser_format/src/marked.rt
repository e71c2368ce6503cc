//! What JSON cannot say, as an object with one key that begins with a dollar sign.
ghost use Rattle.std.specs.Prelude.{◌≡◌, ◌<◌, encode_utf8_all};
ghost use Rattle.std.specs.Fmt.{WritesOnOk};
ghost use Rattle.std.specs.Char.{digit_char};
ghost use Rattle.bser_format.specs.MarkedText.{hex_byte, hex_text, marked_text};

use std::fmt;

/// Writes an object with this one key, whose value are the bytes in hexadecimal:
/// `{"$bytes": "61ff"}`.
pub(crate) fn write_marked<W: fmt::Write>(
    key: &str,
    bytes: &[u8],
    f: &mut fmt::Formatter<W>,
) -> fmt::Result
    ensures { WritesOnOk W.write_str_gives f.old result (marked_text key.now bytes.now) f.new }
{
    f.write_str("{\"")?;
    f.write_str(key)?;
    f.write_str("\": \"")?;
    write_hex(bytes, f)?;
    f.write_str("\"}")
}

/// Writes two lowercase hexadecimal digits a byte.
fn write_hex<W: fmt::Write>(bytes: &[u8], f: &mut fmt::Formatter<W>) -> fmt::Result
    ensures { WritesOnOk W.write_str_gives f.old result (hex_text bytes.now) f.new }
{
    for byte in bytes {
        write_byte(*byte, f)?;
    }
    Ok(())
}

fn write_byte<W: fmt::Write>(byte: u8, f: &mut fmt::Formatter<W>) -> fmt::Result
    ensures { WritesOnOk W.write_str_gives f.old result (encode_utf8_all (hex_byte byte)) f.new }
{
    f.write_char(hex_digit(byte / 16))?;
    f.write_char(hex_digit(byte % 16))
}

/// The lowercase hexadecimal digit of this value.
pub(crate) fn hex_digit(value: u8) -> char
    requires { value < 16 }
    ensures { result ≡ digit_char value }
{
    if value < 10 {
        char::from(b'0' + value)
    } else {
        char::from(b'a' - 10 + value)
    }
}
