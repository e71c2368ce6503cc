//! What bytes begin with, as far as they go: an integer, a length or a token.
ghost use Rattle.std.specs.Prelude.{◌≡◌, ◌≤◌, ◌<◌, ◌+◌, ◌^◌, length, take, drop, slice_index, MatchOption, IfSome};
ghost use Rattle.std.specs.Int.{w8, w16, w32, w64, byte_len};
ghost use Rattle.bser_format.specs.Grammar.{IntSize, tag_of, width_of};
ghost use Rattle.bser_format.specs.DueReaders as due_readers;
ghost use Rattle.bser_bunser.specs.Prefixes.{NumberPrefix, BitsPrefix, IsIntPrefix, IsLengthPrefix};
ghost use Rattle.bser_bunser.specs.Faults.{Stands, IsFault};
ghost use Rattle.bser_bunser.specs.Tokens.{IsTokenPrefix, IsNoIntTag, IsCounted, IsTokenOf, fault_after};

use bser_format::header::{
    BSER_ARRAY, BSER_BYTESTRING, BSER_FALSE, BSER_INT8, BSER_INT16, BSER_INT32, BSER_INT64,
    BSER_NULL, BSER_OBJECT, BSER_REAL, BSER_SKIP, BSER_TEMPLATE, BSER_TRUE, BSER_UTF8STRING,
};
use byteorder::{ByteOrder, LittleEndian};

/// Why nothing that is wanted is at the start.
#[derive(Clone, Copy)]
pub enum Unexpected {
    /// This tag may not be there.
    Tag(u8),
    /// This byte is where a length or a count is expected, and is no integer's tag.
    Length(u8),
    /// A string's length below 0.
    NegativeLength,
    /// A count below 0, of an array's items or an object's entries.
    NegativeCount,
}

/// What bytes begin with.
#[derive(Clone, Copy)]
pub enum Prefix<T: Copy> {
    /// This, of so many bytes.
    Found {
        /// What was wanted.
        value: T,
        /// How many bytes spell it.
        len: usize,
    },
    /// There are too few bytes.
    Short {
        /// As many are needed at least.
        need: usize,
    },
    /// Nothing that is wanted.
    Unexpected(Unexpected),
}

/// What a look at what is wanted came to.
#[derive(Clone, Copy)]
pub enum Look<T: Copy> {
    /// This was taken.
    Taken(T),
    /// Nothing that is wanted is there, and nothing was taken.
    Unexpected(Unexpected),
}

/// The number in the first byte. None where there is no byte.
#[inline(always)]
fn i8_prefix(rest: &[u8]) -> Option<i8>
    ensures { MatchOption result (length rest.now < 1) (NumberPrefix w8 1 rest.now) }
{
    if rest.is_empty() {
        return None;
    }
    Some(rest[0].cast_signed())
}

/// The number in the first two bytes, the lowest first. None where there are fewer.
#[inline(always)]
fn i16_prefix(rest: &[u8]) -> Option<i16>
    ensures { MatchOption result (length rest.now < 2) (NumberPrefix w16 2 rest.now) }
{
    if rest.len() < 2 {
        return None;
    }
    Some(LittleEndian::read_i16(&rest[..2]))
}

/// The number in the first four bytes, the lowest first. None where there are fewer.
#[inline(always)]
fn i32_prefix(rest: &[u8]) -> Option<i32>
    ensures { MatchOption result (length rest.now < 4) (NumberPrefix w32 4 rest.now) }
{
    if rest.len() < 4 {
        return None;
    }
    Some(LittleEndian::read_i32(&rest[..4]))
}

/// The number in the first eight bytes, the lowest first. None where there are fewer.
#[inline(always)]
fn i64_prefix(rest: &[u8]) -> Option<i64>
    ensures { MatchOption result (length rest.now < 8) (NumberPrefix w64 8 rest.now) }
{
    if rest.len() < 8 {
        return None;
    }
    Some(LittleEndian::read_i64(&rest[..8]))
}

/// The bits in the first eight bytes, the lowest first. None where there are fewer.
#[inline(always)]
fn u64_prefix(rest: &[u8]) -> Option<u64>
    ensures { MatchOption result (length rest.now < 8) (BitsPrefix rest.now) }
{
    if rest.len() < 8 {
        return None;
    }
    Some(LittleEndian::read_u64(&rest[..8]))
}

/// Returns the integer at the start of these bytes: its tag, and 1, 2, 4 or 8 bytes, the lowest
/// first.
///
/// Another first byte is [`Unexpected::Tag`].
#[inline(always)]
pub fn int_prefix(bytes: &[u8]) -> Prefix<i64>
    ensures { IsIntPrefix bytes.now result }
{
    if bytes.is_empty() {
        return Prefix::Short { need: 1 };
    }
    let rest = &bytes[1..];
    match bytes[0] {
        BSER_INT8 => match i8_prefix(rest) {
            Some(number) => Prefix::Found {
                value: i64::from(number),
                len: 2,
            },
            None => Prefix::Short { need: 2 },
        },
        BSER_INT16 => match i16_prefix(rest) {
            Some(number) => Prefix::Found {
                value: i64::from(number),
                len: 3,
            },
            None => Prefix::Short { need: 3 },
        },
        BSER_INT32 => match i32_prefix(rest) {
            Some(number) => Prefix::Found {
                value: i64::from(number),
                len: 5,
            },
            None => Prefix::Short { need: 5 },
        },
        BSER_INT64 => match i64_prefix(rest) {
            Some(value) => Prefix::Found { value, len: 9 },
            None => Prefix::Short { need: 9 },
        },
        byte => Prefix::Unexpected(Unexpected::Tag(byte)),
    }
}

/// Returns the length at the start of these bytes: an integer of 0 or more.
///
/// Another first byte than an integer's tag is [`Unexpected::Length`], and an integer below 0
/// [`Unexpected::NegativeLength`].
#[inline(always)]
pub fn length_prefix(bytes: &[u8]) -> Prefix<usize>
    ensures { IsLengthPrefix bytes.now result }
{
    match int_prefix(bytes) {
        Prefix::Found { value, len } => {
            if value < 0 {
                return Prefix::Unexpected(Unexpected::NegativeLength);
            }
            Prefix::Found {
                value: value as usize,
                len,
            }
        }
        Prefix::Short { need } => Prefix::Short { need },
        Prefix::Unexpected(Unexpected::Tag(byte)) => {
            Prefix::Unexpected(Unexpected::Length(byte))
        }
        Prefix::Unexpected(why) => Prefix::Unexpected(why),
    }
}

/// The length at the start of these bytes, where it is an integer of one byte. None of another.
#[inline(always)]
pub(crate) fn short_length(bytes: &[u8]) -> Option<usize>
    ensures length { IfSome result (λ n. IsLengthPrefix bytes.now (Prefix.Found n 2)) }
    ensures short { IfSome result (λ n. n < 2 ^ 7) }
{
    if bytes.is_empty() || bytes[0] != BSER_INT8 {
        return None;
    }
    match i8_prefix(&bytes[1..]) {
        Some(number) if number >= 0 => Some(number as usize),
        _ => None,
    }
}

/// Returns whether a key may have this tag: a string's, of bytes or of a text.
#[inline(always)]
pub fn is_key_tag(tag: u8) -> bool
    ensures { result ≡ due_readers.is_key_tag tag }
{
    tag == BSER_BYTESTRING || tag == BSER_UTF8STRING
}

/// A piece of a message that is read at once: a scalar, or the head of a string or of a container.
#[derive(Clone, Copy)]
pub enum Token {
    /// Null.
    Null,
    /// A truth value.
    Bool(bool),
    /// A missing field of a row.
    Skip,
    /// An integer.
    Int(i64),
    /// The bits of a real.
    Real(u64),
    /// The head of a string, whose bytes follow.
    Str {
        /// Whether it has the tag of a text.
        is_text: bool,
        /// How many bytes follow.
        len: usize,
    },
    /// The head of an array.
    Array {
        /// How many items follow.
        len: usize,
    },
    /// The head of an object.
    Object {
        /// How many entries follow.
        len: usize,
    },
    /// The tag of a template.
    Template,
}

/// Returns the token at the start of these bytes.
///
/// A first byte that no token begins with is [`Unexpected::Tag`]. After the tag of a string, an
/// array or an object it is as for a length, but that a count below 0 is
/// [`Unexpected::NegativeCount`].
#[inline(always)]
pub fn token_prefix(bytes: &[u8]) -> Prefix<Token>
    ensures { IsTokenPrefix bytes.now result }
{
    match int_prefix(bytes) {
        Prefix::Found { value, len } => Prefix::Found {
            value: Token::Int(value),
            len,
        },
        Prefix::Short { need } => Prefix::Short { need },
        Prefix::Unexpected(_) => other_prefix(bytes),
    }
}

/// The token at the start of these bytes, which is no integer.
#[inline(always)]
fn other_prefix(bytes: &[u8]) -> Prefix<Token>
    requires some { 0 < length bytes.now }
    requires other { IsNoIntTag (slice_index bytes.now 0) }
    ensures { IsTokenPrefix bytes.now result }
{
    match bytes[0] {
        BSER_NULL => single(Token::Null),
        BSER_TRUE => single(Token::Bool(true)),
        BSER_FALSE => single(Token::Bool(false)),
        BSER_SKIP => single(Token::Skip),
        BSER_TEMPLATE => single(Token::Template),
        BSER_REAL => match u64_prefix(&bytes[1..]) {
            Some(bits) => Prefix::Found {
                value: Token::Real(bits),
                len: 9,
            },
            None => Prefix::Short { need: 9 },
        },
        BSER_BYTESTRING | BSER_UTF8STRING | BSER_ARRAY | BSER_OBJECT => counted_prefix(bytes),
        byte => Prefix::Unexpected(Unexpected::Tag(byte)),
    }
}

/// A token of one byte.
#[inline(always)]
fn single(value: Token) -> Prefix<Token>
    ensures { result ≡ Prefix.Found value 1 }
{
    Prefix::Found { value, len: 1 }
}

/// The head of a string or of a container.
#[inline(always)]
fn head(tag: u8, len: usize) -> Token
    requires { IsCounted tag }
    ensures { IsTokenOf tag len result }
{
    match tag {
        BSER_BYTESTRING => Token::Str {
            is_text: false,
            len,
        },
        BSER_UTF8STRING => Token::Str { is_text: true, len },
        BSER_ARRAY => Token::Array { len },
        _ => Token::Object { len },
    }
}

/// What is wrong after this tag, where this is wrong with a length: a container has a count.
#[cold]
#[inline(never)]
fn fault(tag: u8, why: Unexpected) -> Unexpected
    ensures { result ≡ fault_after tag why }
{
    match why {
        Unexpected::NegativeLength => {
            if tag == BSER_ARRAY || tag == BSER_OBJECT {
                return Unexpected::NegativeCount;
            }
            why
        }
        other => other,
    }
}

/// The token at the start of these bytes, which has a length or a count.
#[inline(always)]
fn counted_prefix(bytes: &[u8]) -> Prefix<Token>
    requires some { 0 < length bytes.now }
    requires counted { IsCounted (slice_index bytes.now 0) }
    ensures { IsTokenPrefix bytes.now result }
{
    match length_prefix(&bytes[1..]) {
        Prefix::Found { value, len } => Prefix::Found {
            value: head(bytes[0], value),
            len: 1 + len,
        },
        Prefix::Short { need } => Prefix::Short { need: 1 + need },
        Prefix::Unexpected(why) => Prefix::Unexpected(fault(bytes[0], why)),
    }
}

/// How many bytes an integer with this tag has.
fn int_len(tag: u8) -> usize
    ensures len { (s : IntSize) → tag_of s ≡ tag → result ≡ 1 + byte_len (width_of s) }
    ensures short { result ≤ 9 }
{
    match tag {
        BSER_INT8 => 2,
        BSER_INT16 => 3,
        BSER_INT32 => 5,
        _ => 9,
    }
}

/// How many of these bytes, which begin no token, are before what is wrong: the place of a byte
/// that may not be there is before it, and of an integer below 0 behind it.
#[cold]
#[inline(never)]
pub(crate) fn before_fault(why: Unexpected, bytes: &[u8]) -> usize
    requires { Stands why bytes.now }
    ensures within { result ≤ length bytes.now }
    ensures fault { IsFault why (take result bytes.now) (drop result bytes.now) }
{
    match why {
        Unexpected::Tag(_) => 0,
        Unexpected::Length(_) => 1,
        _ => 1 + int_len(bytes[1]),
    }
}
