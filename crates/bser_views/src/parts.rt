//! The parts of a line, put as bytes.
ghost use Rattle.std.specs.Prelude.{◌≤◌, ◌+◌, IsTrue, length};
ghost use Rattle.std.specs.Bool.{OnTrue};
ghost use Rattle.std.specs.Float.{float_is_finite};

use crate::quoted::{Quoted, Real};
use bser_format::real::float_of;
use itoa::{Buffer, Integer, write_digits};
use std::io;
use std::io::Write;

/// How many bytes the columns before the indentation take at most: two numbers of up to 20 digits, a
/// tag and the spaces around them.
const INDENT: usize = 46;

/// How many levels of the indentation are put with the columns.
const LEVELS: usize = 9;

/// How many multiples of 2^-25 one is.
const STEPS: f64 = 33554432.0;

/// The number from which on each real is whole, 2^52. A sum of a smaller one with it is rounded to a
/// whole number.
const WHOLE: f64 = 4503599627370496.0;

/// Puts where a part stands: the offset of its first byte, its tag if it has one, how many bytes it
/// has, and two spaces for each level.
#[inline(always)]
pub(crate) fn put_columns<W: Write>(
    out: &mut W,
    offset: u64,
    tag: Option<u8>,
    width: usize,
    levels: usize,
) -> io::Result<()> {
    let mut line = [b' '; INDENT + 2 * LEVELS];
    let width_at = put_digits(&mut line, width as u64, INDENT - 2).min(INDENT - 8);
    let tag_at = width_at - 3;
    if let Some(tag) = tag {
        line[tag_at] = hexadecimal(tag >> 4);
        line[tag_at + 1] = hexadecimal(tag & 15);
    }
    let start = put_digits(&mut line, offset, tag_at - 1).min(tag_at - 9);
    out.write_all(&line[start..INDENT + 2 * levels.min(LEVELS)])?;
    put_levels(out, levels.saturating_sub(LEVELS))
}

/// Puts the digits of a number up to the place `end`, and answers where they begin.
#[tactic(auto, using(crate::proofs::Digits::digits_fit))]
#[inline(always)]
pub(crate) fn put_digits(line: &mut [u8], number: u64, end: usize) -> usize
    requires room { 20 ≤ end }
    requires within { end ≤ length line.old }
    ensures begin { end ≤ result + 20 }
    ensures some { result ≤ end }
{
    write_digits(number, line, end)
}

/// A hexadecimal digit.
#[inline(always)]
fn hexadecimal(digit: u8) -> u8
    requires { digit ≤ 15 }
{
    if digit < 10 {
        b'0' + digit
    } else {
        b'a' + (digit - 10)
    }
}

/// Puts two spaces for each level.
#[inline(always)]
pub(crate) fn put_levels<W: Write>(out: &mut W, levels: usize) -> io::Result<()> {
    for _ in 0..levels {
        out.write_all(b"  ")?;
    }
    Ok(())
}

/// Puts a number, and a line's end.
#[inline(always)]
pub(crate) fn put_number<W: Write, I: Integer>(out: &mut W, number: I) -> io::Result<()> {
    let mut buffer = Buffer::new();
    out.write_all(buffer.format(number).as_bytes())?;
    out.write_all(b"\n")
}

/// Puts a real by its bits, as [`Real`] prints it, and a line's end.
#[inline(always)]
pub(crate) fn put_real<W: Write>(out: &mut W, bits: u64) -> io::Result<()> {
    match float_of(bits) {
        Some(number) if is_printed_alike(number) => {
            let mut buffer = ryu::Buffer::new();
            out.write_all(buffer.format_finite(number).as_bytes())?;
            out.write_all(b"\n")
        }
        _ => writeln!(out, "{}", Real(bits)),
    }
}

/// Whether the number is finite, and `ryu` prints it as `{:?}` does.
///
/// From 1e-5 on to 1e-4 only `{:?}` puts an exponent. Of two shortest texts that are as near, it takes
/// the greater, and `ryu` the even one. A number between two such texts has at most 18 decimal
/// digits, so it is below 1e16 and a multiple of 2^-25.
#[inline(always)]
fn is_printed_alike(number: f64) -> bool
    ensures { OnTrue result (IsTrue (float_is_finite number)) }
{
    let size = number.abs();
    let is_laid_out_alike = size < 1e-5 || size >= 1e-4;
    let steps = size * STEPS;
    let is_multiple = steps >= WHOLE || steps + WHOLE - WHOLE == steps;
    let is_between_texts = size < 1e16 && is_multiple;
    number.is_finite() && is_laid_out_alike && !is_between_texts
}

/// Puts bytes in quotes, as [`Quoted`] prints them, and a line's end.
#[inline(always)]
pub(crate) fn put_quoted<W: Write>(out: &mut W, bytes: &[u8]) -> io::Result<()> {
    if !bytes.iter().all(|byte| stands_for_itself(*byte)) {
        return writeln!(out, "{}", Quoted(bytes));
    }
    out.write_all(b"\"")?;
    out.write_all(bytes)?;
    out.write_all(b"\"\n")
}

/// Whether the byte is a character of ASCII that is printed in quotes as it is.
#[inline(always)]
fn stands_for_itself(byte: u8) -> bool {
    matches!(byte, b' '..=b'~') && byte != b'"' && byte != b'\\'
}
