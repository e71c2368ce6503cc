//! Texts in double quotes, as JSON writes them.
ghost use Rattle.std.specs.Prelude.{◌<◌, encode_utf8_all};
ghost use Rattle.std.specs.Fmt.{WritesOnOk};
ghost use Rattle.bser_format.specs.QuotedText.{control_code, json_escape, between_quotes};
ghost use Rattle.bser_format.specs.QuotedText.{quoted_text, mark_before, quoted_key};

use crate::marked::hex_digit;
use std::fmt;

/// Writes the text in double quotes. A quote, a backslash, a backspace, a tab, a newline, a form
/// feed and a carriage return are `\"`, `\\`, `\b`, `\t`, `\n`, `\f` and `\r`, every other
/// character below the space is `\u00` and two lowercase hexadecimal digits, and all others stay.
pub fn write_quoted<W: fmt::Write>(text: &str, f: &mut fmt::Formatter<W>) -> fmt::Result
    ensures { WritesOnOk W.write_str_gives f.old result (quoted_text text.now) f.new }
{
    f.write_str("\"")?;
    write_characters(text, f)?;
    f.write_str("\"")
}

/// Writes the key of an object as `write_quoted` does, and before a key that begins with a dollar
/// sign one more: so `$bytes` and `$real` are the keys of what JSON cannot say, and of nothing else.
pub fn write_key<W: fmt::Write>(key: &str, f: &mut fmt::Formatter<W>) -> fmt::Result
    ensures { WritesOnOk W.write_str_gives f.old result (quoted_key key.now) f.new }
{
    f.write_str("\"")?;
    write_mark(key.as_bytes().first().copied(), f)?;
    write_characters(key, f)?;
    f.write_str("\"")
}

/// Writes a dollar sign where the next byte is one.
fn write_mark<W: fmt::Write>(next: Option<u8>, f: &mut fmt::Formatter<W>) -> fmt::Result
    ensures { WritesOnOk W.write_str_gives f.old result (mark_before next) f.new }
{
    match next {
        Some(b'$') => f.write_str("$"),
        _ => Ok(()),
    }
}

fn write_characters<W: fmt::Write>(text: &str, f: &mut fmt::Formatter<W>) -> fmt::Result
    ensures { WritesOnOk W.write_str_gives f.old result (between_quotes text.now) f.new }
{
    for c in text.chars() {
        write_escaped(c, f)?;
    }
    Ok(())
}

fn write_escaped<W: fmt::Write>(c: char, f: &mut fmt::Formatter<W>) -> fmt::Result
    ensures { WritesOnOk W.write_str_gives f.old result (encode_utf8_all (json_escape c)) f.new }
{
    match c {
        '"' => f.write_str("\\\""),
        '\\' => f.write_str("\\\\"),
        '\u{8}' => f.write_str("\\b"),
        '\t' => f.write_str("\\t"),
        '\n' => f.write_str("\\n"),
        '\u{c}' => f.write_str("\\f"),
        '\r' => f.write_str("\\r"),
        _ if c < ' ' => write_control(c as u8, f),
        _ => f.write_char(c),
    }
}

fn write_control<W: fmt::Write>(code: u8, f: &mut fmt::Formatter<W>) -> fmt::Result
    requires { code < 0x20 }
    ensures { WritesOnOk W.write_str_gives f.old result
        (encode_utf8_all (control_code code)) f.new }
{
    f.write_str("\\u00")?;
    f.write_char(hex_digit(code / 16))?;
    f.write_char(hex_digit(code % 16))
}
