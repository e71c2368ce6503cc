//! Scalars and strings at the start of bytes, and what follows them.
ghost use Rattle.std.specs.Prelude.{◌≡◌, ◌<◌, ℕ, true, length, slice_index, IfSome};
ghost use Rattle.bser_format.specs.DueReaders.{is_key_tag};
ghost use Rattle.bser_format.specs.Named.{reads, with_text_keys};
ghost use Rattle.bser_format.specs.Tree.{integer};
ghost use Rattle.bser_serde_format.specs.Takes.{Cut, CutString, IsString, size_of_scalar};

use bser_bunser::prefix::{Prefix, int_prefix, is_key_tag};
use bser_events::fronts::{CountFront, count};
use bser_format::header::{BSER_INT8, BSER_UTF8STRING};
use bser_source::text::as_text;

/// The most bytes that a scalar has.
pub(crate) const LONGEST_SCALAR: usize = 9;

/// The fewest bytes that a string has with its tag and its length.
const SHORTEST_STRING: usize = 3;

/// How many bytes has a scalar with each tag, and a skipped field. 0 of all other tags.
const SIZES: [u8; 14] = [0, 0, 0, 2, 3, 5, 9, 9, 1, 1, 1, 0, 1, 0];

/// How many bytes has a scalar with this tag, or a skipped field. 0 of all other tags.
#[inline(always)]
pub(crate) fn scalar_size(tag: u8) -> usize
    ensures { result ≡ size_of_scalar tag }
{
    if tag > BSER_UTF8STRING {
        return 0;
    }
    usize::from(SIZES[usize::from(tag)])
}

/// What follows so many bytes, which are a string's. None where there are fewer, or a text is no
/// UTF-8.
#[inline(always)]
pub(crate) fn string(bytes: &[u8], is_text: bool, len: usize) -> Option<&[u8]>
    ensures { IfSome result (λ rest. Cut is_text len bytes.now rest.now) }
{
    if bytes.len() < len {
        return None;
    }
    if is_text && as_text(&bytes[..len]).is_none() {
        return None;
    }
    Some(&bytes[len..])
}

/// What follows a string behind its tag.
#[inline(always)]
pub(crate) fn counted_string(bytes: &[u8], is_text: bool) -> Option<&[u8]>
    ensures { IfSome result (λ rest. CutString is_text bytes.now rest.now) }
{
    let CountFront { count: len, rest } = count(bytes)?;
    string(rest, is_text, len)
}

/// An integer, and what follows it.
#[derive(Clone, Copy)]
pub(crate) struct Number<'b> {
    pub(crate) value: i64,
    pub(crate) rest: &'b [u8],
}

/// The integer that these bytes begin with, and what follows it. None where none is there.
#[inline(always)]
pub(crate) fn integer_at(bytes: &[u8]) -> Option<Number<'_>>
    ensures { IfSome result (λ n. (levels : ℕ)
        → with_text_keys levels bytes.now ≡ reads (integer n.value) n.rest.now) }
{
    match int_prefix(bytes) {
        Prefix::Found { value, len } => Some(Number {
            value,
            rest: &bytes[len..],
        }),
        _ => None,
    }
}

/// A string, and what follows it.
#[derive(Clone, Copy)]
pub(crate) struct Str<'b> {
    /// Whether it has the tag of a text. Nothing says that it is UTF-8.
    pub(crate) is_text: bool,
    pub(crate) string: &'b [u8],
    pub(crate) rest: &'b [u8],
}

/// The string that these bytes begin with, and what follows it. Most have a length of one byte.
#[inline(always)]
pub(crate) fn string_at(bytes: &[u8]) -> Option<Str<'_>>
    ensures { IfSome result (λ s. IsString s.is_text bytes.now s.string.now s.rest.now) }
{
    if bytes.len() < SHORTEST_STRING || !is_key_tag(bytes[0]) {
        return None;
    }
    if bytes[1] == BSER_INT8 {
        return string_behind(bytes);
    }
    any_string_behind(bytes)
}

/// The string behind its tag, whatever integer its length is.
#[inline(never)]
fn any_string_behind(bytes: &[u8]) -> Option<Str<'_>>
    requires some { 0 < length bytes.now }
    requires tag { is_key_tag (slice_index bytes.now 0) ≡ true }
    ensures { IfSome result (λ s. IsString s.is_text bytes.now s.string.now s.rest.now) }
{
    string_behind(bytes)
}

/// The string behind its tag.
#[inline(always)]
fn string_behind(bytes: &[u8]) -> Option<Str<'_>>
    requires some { 0 < length bytes.now }
    requires tag { is_key_tag (slice_index bytes.now 0) ≡ true }
    ensures { IfSome result (λ s. IsString s.is_text bytes.now s.string.now s.rest.now) }
{
    let CountFront { count: len, rest } = count(&bytes[1..])?;
    if rest.len() < len {
        return None;
    }
    Some(Str {
        is_text: bytes[0] == BSER_UTF8STRING,
        string: &rest[..len],
        rest: &rest[len..],
    })
}
