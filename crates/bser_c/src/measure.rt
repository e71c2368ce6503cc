//! How many bytes a tape has in a message.
ghost use Rattle.std.specs.Prelude.{◌≡◌, ◌≤◌, length, IfOk, IfErr, None, option_map};
ghost use Rattle.bser_format.specs.Canonical.{is_within as within, least_count, least_integer};
ghost use Rattle.bser_c.specs.Parts.{TellSize, part, parts};
ghost use Rattle.bser_c.specs.Untaped.{MeanNothingAt};

use crate::tags::{BYTES_KEY, CLOSE, KEY, ROWS};
use bser_format::header::{
    BSER_ARRAY, BSER_BYTESTRING, BSER_FALSE, BSER_INT64, BSER_NULL, BSER_OBJECT, BSER_REAL,
    BSER_SKIP, BSER_TEMPLATE, BSER_TRUE, BSER_UTF8STRING,
};

/// How many bytes the words have in a message, beside its header, at most `usize::MAX`; or how many
/// words lie before two that mean nothing.
pub(crate) fn size_of(words: &[u64], strings: &[u8]) -> Result<usize, usize>
    ensures told { IfOk result (TellSize strings.now words.now) }
    ensures none { IfErr result (λ _. parts strings.now words.now ≡ None) }
    ensures there { IfErr result (MeanNothingAt strings.now words.now) }
    ensures place { IfErr result (λ at. at ≤ length words.now) }
{
    let mut size = 0usize;
    for i in 0..words.len() / 2 {
        let at = 2 * i;
        match size_of_part(words[at], words[at + 1], strings) {
            Some(part) => size = size.saturating_add(part),
            None => return Err(at),
        }
    }
    Ok(size)
}

/// How many bytes the part has that two words mean, or none where they mean nothing, or a string
/// that ends behind the strings.
#[inline(always)]
fn size_of_part(first: u64, second: u64, strings: &[u8]) -> Option<usize>
    ensures { result ≡ option_map length (part strings.now first second) }
{
    let count = first / 256;
    match (first % 256) as u8 {
        BSER_NULL | BSER_TRUE | BSER_FALSE | BSER_SKIP => Some(1),
        BSER_INT64 => Some(size_of_integer(second.cast_signed())),
        BSER_REAL => Some(9),
        BSER_BYTESTRING | BSER_UTF8STRING | KEY | BYTES_KEY => {
            if second.checked_add(count)? > strings.len() as u64 {
                return None;
            }
            Some(
                size_of_count(count)
                    .saturating_add(count as usize)
                    .saturating_add(1),
            )
        }
        BSER_ARRAY | BSER_OBJECT => Some(1 + size_of_count(count)),
        BSER_TEMPLATE => Some(2 + size_of_count(count)),
        ROWS => Some(size_of_count(count)),
        CLOSE => Some(0),
        _ => None,
    }
}

/// How many bytes a count has as an integer.
#[inline(always)]
pub(crate) fn size_of_count(count: u64) -> usize
    ensures size { result ≡ length (least_count count) }
    ensures bound { result ≤ 9 }
{
    if count < 0x80 {
        2
    } else if count < 0x8000 {
        3
    } else if count < 0x8000_0000 {
        5
    } else {
        9
    }
}

/// How many bytes an integer has in its least width, with its tag.
#[inline(always)]
fn size_of_integer(v: i64) -> usize
    ensures size { result ≡ length (least_integer v) }
    ensures bound { result ≤ 9 }
{
    if is_within(0x80, v) {
        2
    } else if is_within(0x8000, v) {
        3
    } else if is_within(0x8000_0000, v) {
        5
    } else {
        9
    }
}

/// Whether v is at least -limit and below it.
#[inline(always)]
pub(crate) fn is_within(limit: u64, v: i64) -> bool
    ensures { result ≡ within limit v }
{
    let size = if v < 0 { -(v + 1) } else { v };
    (size as u64) < limit
}
