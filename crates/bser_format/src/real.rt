//! Reals, of which a message gives the 64 bits.
ghost use Rattle.std.specs.Prelude.{◌≡◌};
ghost use Rattle.bser_format.specs.RealText.{float_of, bits_of, finite, has_point_or_e, IsNumberText, IsRealText};
ghost use Rattle.bser_format.specs.SomeText.{WritesSomeOnOk};

use crate::marked::write_marked;
use std::fmt::{self, Write};

/// The bits of a real without its sign.
const MAGNITUDE: u64 = 0x8000_0000_0000_0000;

/// The bits of infinity, above which there are NaNs alone.
const INFINITY: u64 = 0x7ff0_0000_0000_0000;

/// Room for each text that std prints of a number with a point or an exponent: a sign, 17 digits and
/// an exponent take 24 bytes.
const ROOM: usize = 32;

/// Returns the number with these bits, or `None` for a NaN, of which `f64::from_bits` makes no
/// float.
pub fn float_of(bits: u64) -> Option<f64>
    ensures { result ≡ float_of bits }
{
    if bits % MAGNITUDE > INFINITY {
        None
    } else {
        Some(f64::from_bits(bits))
    }
}

/// Returns the bits of this number, or `None` for a NaN, whose bits are not known.
pub fn bits_of(number: f64) -> Option<u64>
    ensures { result ≡ bits_of number }
{
    if number.is_nan() {
        None
    } else {
        Some(number.to_bits())
    }
}

/// Writes a finite number as `{:?}` of an `f64` does, with a point or an exponent: `1.0`, `1e300`. The
/// text reads back as the number. An infinity and a NaN are `{"$real": "7ff8000000000000"}`, by their
/// bits.
pub fn write_real<W: Write>(bits: u64, f: &mut fmt::Formatter<W>) -> fmt::Result
    ensures { WritesSomeOnOk W.write_str_gives f.old result (IsRealText bits) f.new }
{
    match finite(bits) {
        Some(number) => write_number(bits, number, f),
        None => write_marked("$real", &bits.to_be_bytes(), f),
    }
}

/// Whether a number's text has a point or an exponent, as that of an integer never has.
pub fn has_point_or_e(text: &[u8]) -> bool
    ensures { result ≡ has_point_or_e text.now }
{
    for byte in text {
        if matches!(*byte, b'.' | b'e' | b'E') {
            return true;
        }
    }
    false
}

/// Writes the number with these bits. Std promises nothing of the text that it prints, so that text is
/// looked at and read back before it is written.
fn write_number<W: Write>(bits: u64, number: f64, f: &mut fmt::Formatter<W>) -> fmt::Result
    ensures { WritesSomeOnOk W.write_str_gives f.old result (IsNumberText bits) f.new }
{
    let mut printed = Printed {
        bytes: [0; ROOM],
        len: 0,
    };
    write!(printed, "{number:?}")?;
    let bytes = printed.bytes.get(..printed.len).ok_or(fmt::Error)?;
    let text = str::from_utf8(bytes).map_err(|_| fmt::Error)?;
    let read = text.parse::<f64>().map_err(|_| fmt::Error)?;
    if bits_of(read) == Some(bits) && has_point_or_e(bytes) {
        f.write_str(text)
    } else {
        Err(fmt::Error)
    }
}

/// What was printed of a number.
#[derive(Drop)]
struct Printed {
    bytes: [u8; ROOM],
    len: usize,
}

impl Write for Printed {
    fn write_str(&mut self, text: &str) -> fmt::Result {
        let end = self.len.checked_add(text.len()).ok_or(fmt::Error)?;
        let room = self.bytes.get_mut(self.len..end).ok_or(fmt::Error)?;
        room.copy_from_slice(text.as_bytes());
        self.len = end;
        Ok(())
    }
}

/// The number with these bits, or `None` for an infinity and a NaN.
fn finite(bits: u64) -> Option<f64>
    ensures { result ≡ finite bits }
{
    if bits % MAGNITUDE == INFINITY {
        None
    } else {
        float_of(bits)
    }
}
