//! What is wrong with a JSON text, and where.
ghost use Rattle.std.specs.Prelude.{◌≡◌, ◌≤◌, count_by, length, false, IfOk};
ghost use Rattle.json.specs.Word.{is_space};
ghost use Rattle.bser_from_json.specs.Lines.{around, behind_bytes, begins_character, place_in};
ghost use Rattle.bser_from_json.specs.Places.{begins_a_literal, begins_high, begins_lone, begins_low, begins_pair, first_fault, is_hex, is_high, is_low, lacks_a_digit, string_fault, word_fault};

use json::is_number;
use memchr::memchr;
use std::alloc::{AllocError, Global};
use std::fmt;

/// Why a text is not taken.
#[derive(Debug, Clone, Copy, PartialEq, Eq)]
pub enum JsonFault {
    NotUtf8,
    NotJson,
    EndsEarly,
    LoneSurrogate,
    ControlCharacter,
    NotANumber,
    IntegerTooGreat,
    RealTooGreat,
    EqualKeys,
    UnknownMark,
    WrongBytes,
    WrongReal,
    MarkWithMembers,
    TooDeep,
}

impl fmt::Display for JsonFault {
    fn fmt<W: fmt::Write>(&self, f: &mut fmt::Formatter<W>) -> fmt::Result {
        f.write_str(match self {
            JsonFault::NotUtf8 => "not UTF-8",
            JsonFault::NotJson => "not JSON",
            JsonFault::EndsEarly => "the text ends early",
            JsonFault::LoneSurrogate => "a lone surrogate",
            JsonFault::ControlCharacter => "a control character in a string",
            JsonFault::NotANumber => "NaN and infinity are not JSON",
            JsonFault::IntegerTooGreat => "an integer that 64 bits with a sign do not hold",
            JsonFault::RealTooGreat => "a number beyond the greatest real",
            JsonFault::EqualKeys => "a key that the object has already",
            JsonFault::UnknownMark =>
                "a key with one $, and neither {\"$bytes\":..} nor {\"$real\":..}",
            JsonFault::WrongBytes =>
                "bytes that are not an even number of hexadecimal digits in a string",
            JsonFault::WrongReal => "a real that is not sixteen hexadecimal digits in a string",
            JsonFault::MarkWithMembers => "a member beside $bytes or $real, which stand alone",
            JsonFault::TooDeep => "more than 128 levels",
        })
    }
}

/// A place in a text, from line 1 and column 1 on. A column is a character.
#[derive(Debug, Clone, Copy, PartialEq, Eq)]
pub struct Place {
    pub line: usize,
    pub column: usize,
}

/// The place of the byte that so many stand before.
pub fn place_of(text: &[u8], offset: usize) -> Place
    ensures { result ≡ place_in text.now offset }
{
    Place::START.after(&text[..offset.min(text.len())])
}

impl Place {
    /// The first of a text.
    pub(crate) const START: Place = Place { line: 1, column: 1 };

    /// The place behind bytes that begin here.
    pub(crate) fn after(self, bytes: &[u8]) -> Place
        ensures { result ≡ behind_bytes self bytes.now }
    {
        let mut place = self;
        let mut rest = bytes;
        while let Some(end) = memchr(b'\n', rest) {
            place = Place {
                line: place.line.saturating_add(1),
                column: 1,
            };
            let (_line, behind) = rest.split_at(end);
            rest = &behind[1..];
        }
        Place {
            line: place.line,
            column: place.column.saturating_add(characters(rest)),
        }
    }

    /// The place of a text that begins here, where in that text it is `inner`.
    pub(crate) fn around(self, inner: Place) -> Place
        ensures { result ≡ around self inner }
    {
        if inner.line > 1 {
            return Place {
                line: self.line.saturating_add(inner.line - 1),
                column: inner.column,
            };
        }
        Place {
            line: self.line,
            column: self.column.saturating_add(inner.column.saturating_sub(1)),
        }
    }
}

/// How many characters the bytes have, or would have as UTF-8.
fn characters(bytes: &[u8]) -> usize
    ensures { result ≡ count_by begins_character bytes.now }
{
    let mut count = 0;
    for byte in bytes {
        if !matches!(*byte, 0x80..=0xbf) {
            count += 1;
        }
    }
    count
}

impl fmt::Display for Place {
    fn fmt<W: fmt::Write>(&self, f: &mut fmt::Formatter<W>) -> fmt::Result {
        write!(f, "line {}, column {}", self.line, self.column)
    }
}

/// How many bytes of blanks begin here.
pub(crate) fn blanks(bytes: &[u8]) -> usize
    ensures { result ≤ length bytes.now }
{
    for at in 0..bytes.len() {
        if !is_blank(bytes[at]) {
            return at;
        }
    }
    bytes.len()
}

/// Whether JSON passes over the byte between tokens.
pub(crate) fn is_blank(byte: u8) -> bool
    ensures { result ≡ is_space byte }
{
    matches!(byte, b' ' | b'\t' | b'\n' | b'\r')
}

/// Why no token begins here, where the text ends behind these bytes.
pub(crate) fn fault_of(alloc: Global, rest: &[u8]) -> Result<JsonFault, AllocError>
    ensures { IfOk result (λ fault. fault ≡ first_fault rest.now) }
{
    let Some((first, behind)) = rest.split_first() else {
        return Ok(JsonFault::EndsEarly);
    };
    if rest.starts_with(b"NaN") || rest.starts_with(b"Infinity") || rest.starts_with(b"-Infinity") {
        return Ok(JsonFault::NotANumber);
    }
    if *first == b'"' {
        return Ok(string_fault(behind));
    }
    word_fault(alloc, rest)
}

/// Why a word is none.
fn word_fault(alloc: Global, rest: &[u8]) -> Result<JsonFault, AllocError>
    ensures { IfOk result (λ fault. fault ≡ word_fault rest.now) }
{
    if begins_a_literal(rest) || lacks_a_digit(alloc, rest)? {
        return Ok(JsonFault::EndsEarly);
    }
    Ok(JsonFault::NotJson)
}

/// Whether `true`, `false` or `null` begins with these bytes.
fn begins_a_literal(rest: &[u8]) -> bool
    ensures { result ≡ begins_a_literal rest.now }
{
    b"true".starts_with(rest) || b"false".starts_with(rest) || b"null".starts_with(rest)
}

/// Whether these bytes are a number, but for a digit at its end.
fn lacks_a_digit(alloc: Global, rest: &[u8]) -> Result<bool, AllocError>
    ensures { IfOk result (λ lacks. lacks ≡ lacks_a_digit rest.now) }
{
    match std::str::from_utf8(rest) {
        Ok(text) => {
            let mut number = String::from_str(alloc, text)?;
            number.push_str("0")?;
            Ok(is_number(number.as_str()))
        }
        Err(_) => Ok(false),
    }
}

/// Why a string is none, of which this stands behind its first quote.
fn string_fault(rest: &[u8]) -> JsonFault
    ensures { result ≡ string_fault false false rest.now }
{
    let mut rest = rest;
    let mut is_escaped = false;
    // behind the first half of a pair of surrogates
    let mut is_paired = false;
    'bytes: while let Some((byte, behind)) = rest.split_first() {
        if is_escaped && begins_lone(is_paired, rest) {
            return JsonFault::LoneSurrogate;
        }
        if !is_escaped && *byte == b'"' {
            return JsonFault::NotJson;
        }
        if !is_escaped && *byte < b' ' {
            return JsonFault::ControlCharacter;
        }
        is_paired = if is_escaped {
            begins_high(rest)
        } else {
            is_paired
        };
        is_escaped = !is_escaped && *byte == b'\\';
        rest = behind;
    }
    JsonFault::EndsEarly
}

/// Whether these bytes, behind a backslash, are a half of a pair of surrogates without the other.
fn begins_lone(is_paired: bool, bytes: &[u8]) -> bool
    ensures { result ≡ begins_lone is_paired bytes.now }
{
    begins_high(bytes) && !begins_pair(bytes) || begins_low(bytes) && !is_paired
}

/// Whether these bytes, behind a backslash, are both halves of a pair of surrogates.
fn begins_pair(bytes: &[u8]) -> bool
    ensures { result ≡ begins_pair bytes.now }
{
    match bytes {
        [_, _, _, _, _, b'\\', behind @ ..] => begins_high(bytes) && begins_low(behind),
        _ => false,
    }
}

/// Whether these bytes, behind a backslash, are the first half of a pair of surrogates.
fn begins_high(bytes: &[u8]) -> bool
    ensures { result ≡ begins_high bytes.now }
{
    match bytes {
        [b'u', b'd' | b'D', half, third, fourth, ..] => is_high(*half)
            && is_hex(*third)
            && is_hex(*fourth),
        _ => false,
    }
}

/// Whether these bytes, behind a backslash, are the second half of a pair of surrogates.
fn begins_low(bytes: &[u8]) -> bool
    ensures { result ≡ begins_low bytes.now }
{
    match bytes {
        [b'u', b'd' | b'D', half, third, fourth, ..] => is_low(*half)
            && is_hex(*third)
            && is_hex(*fourth),
        _ => false,
    }
}

/// Whether the digit is the second of the first half of a pair of surrogates.
fn is_high(digit: u8) -> bool
    ensures { result ≡ is_high digit }
{
    matches!(digit, b'8' | b'9' | b'a' | b'b' | b'A' | b'B')
}

/// Whether the digit is the second of the second half of a pair of surrogates.
fn is_low(digit: u8) -> bool
    ensures { result ≡ is_low digit }
{
    matches!(digit, b'c'..=b'f' | b'C'..=b'F')
}

/// Whether the byte is a hexadecimal digit.
fn is_hex(byte: u8) -> bool
    ensures { result ≡ is_hex byte }
{
    byte.is_ascii_hexdigit()
}

/// Why there is no value.
#[derive(Debug, Clone, Copy, PartialEq, Eq)]
pub enum JsonError {
    /// The text is not taken, for what begins at this place.
    Text { fault: JsonFault, place: Place },
    /// There is no memory.
    OutOfMemory,
}

impl fmt::Display for JsonError {
    fn fmt<W: fmt::Write>(&self, f: &mut fmt::Formatter<W>) -> fmt::Result {
        match self {
            JsonError::Text { fault, place } => write!(f, "{place}: {fault}"),
            JsonError::OutOfMemory => f.write_str("out of memory"),
        }
    }
}

impl From<AllocError> for JsonError {
    ghost use Rattle.bser_from_json.specs.declared.fault.JsonError.TheVariants.{OutOfMemory};
    ghost use Rattle.std.specs.Prelude.{◌≡◌};

    ghost from_gives = { λ _ e. e ≡ OutOfMemory };

    fn from(_error: AllocError) -> Self {
        JsonError::OutOfMemory
    }
}
