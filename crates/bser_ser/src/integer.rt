//! The least spelling of an integer.
ghost use Rattle.std.specs.Prelude.{◌≡◌, ◌≤◌, length, take};
ghost use Rattle.bser_format.specs.Canonical.{least_integer, is_within as within};
ghost use Rattle.bser_ser.specs.declared.integer.TheConstants.{LONGEST};

use bser_format::header::{BSER_INT8, BSER_INT16, BSER_INT32, BSER_INT64};
use byteorder::{ByteOrder, LittleEndian};

/// The most bytes that an integer takes: its tag and eight bytes.
pub const LONGEST: usize = 9;

/// Writes the least spelling of `v` to the start of `buf`, and answers how many bytes it takes.
#[inline]
pub fn spell(buf: &mut [u8], v: i64) -> usize
    requires { LONGEST ≤ length buf.old }
    ensures least { 2 ≤ result }
    ensures bound { result ≤ LONGEST }
    ensures spelled { take result buf.new ≡ least_integer v }
{
    if is_within(0x80, v) {
        buf[0] = BSER_INT8;
        buf[1] = (v as i8).cast_unsigned();
        return 2;
    }
    if is_within(0x8000, v) {
        buf[0] = BSER_INT16;
        LittleEndian::write_i16(&mut buf[1..], v as i16);
        return 3;
    }
    if is_within(0x8000_0000, v) {
        buf[0] = BSER_INT32;
        LittleEndian::write_i32(&mut buf[1..], v as i32);
        return 5;
    }
    buf[0] = BSER_INT64;
    LittleEndian::write_i64(&mut buf[1..], v);
    LONGEST
}

/// Whether v is at least -limit and below it.
fn is_within(limit: u64, v: i64) -> bool
    ensures { result ≡ within limit v }
{
    if v < 0 {
        ((-(v + 1)) as u64) < limit
    } else {
        (v as u64) < limit
    }
}
