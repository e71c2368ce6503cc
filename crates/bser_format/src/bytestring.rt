//! Byte strings: bytes that are text by convention, in no promised encoding.
ghost use Rattle.std.specs.Prelude.{◌≡◌, ◌↔◌, ◌%◌, ◌++◌, nat_eq, refl, chars, flat_map};
ghost use Rattle.std.specs.Prelude.{string_bytes, encode_utf8_all, IsUtf8, Some, IsOk, OnOk, IfOk};
ghost use Rattle.std.specs.Prelude.{IfErr};
ghost use Rattle.std.specs.Ordering.{nat_cmp};
ghost use Rattle.std.specs.Hash as fed;
ghost use Rattle.std.specs.Cmp.Lexicographic.{pointwise, slice_cmp, nat_list_eq_equiv};
ghost use Rattle.std.specs.Cmp.Lexicographic.{nat_list_cmp_total, texts_ties, texts_po};
ghost use Rattle.std.specs.Hash.{items_Alike, same_Alike};
ghost use Rattle.std.specs.Cmp.{partial_equiv_from_equiv, unsigned_Decides};
ghost use Rattle.std.specs.Fmt.{WritesOnOk};
ghost use Rattle.std.specs.Char.{digit_char};
ghost use Rattle.std.specs.Char.Escape.{escape_default};
ghost use Rattle.bser_format.specs.ByteStrings.{overwritten, escape_by, quoted_byte};
ghost use Rattle.bser_format.specs.Escaped.{quoted, escaped_byte, escaped, IsEscaped, escape_debug};
ghost use Rattle.bser_format.specs.Escaped.{display_text, debug_text};

use crate::marked::hex_digit;
use std::alloc::{AllocError, Global};
use std::cmp::Ordering;
use std::fmt;
use std::hash::{Hash, Hasher};
use std::marker::Model;

/// The bytes of a BSER byte string, as of a file name. They are UTF-8 by convention alone.
/// Equality, order and hash go by the bytes.
#[derive(Drop)]
pub struct ByteString {
    bytes: Vec<u8>,
}

impl Model for ByteString {
    ghost use Rattle.std.specs.Prelude.{ℕ, List};

    ghost Value = { List ℕ };

    ghost view = { λ s. s.bytes.items };
}

impl ByteString {
    ghost use Rattle.std.specs.Borrow.{Lends, Array, sem, u8};
    ghost use Rattle.bser_format.specs.contracts.bytestring.ByteString.{the_row};

    /// Makes a byte string of the bytes, which are not copied.
    pub fn from_vec(bytes: Vec<u8>) -> Self
        ensures { result ≡ bytes.items }
    {
        Self { bytes }
    }

    /// Makes a byte string of the text's bytes, which are not copied.
    pub fn from_string(text: String) -> Self
        ensures { result ≡ string_bytes text }
    {
        Self {
            bytes: text.into_bytes(),
        }
    }

    /// Copies the text's bytes. The error is that there is no memory for them.
    pub fn from_text(alloc: Global, text: &str) -> Result<Self, AllocError>
        ensures { IfOk result (λ copy. copy ≡ text.now) }
    {
        Ok(Self {
            bytes: Vec::from_slice(alloc, text.as_bytes())?,
        })
    }

    /// Returns the bytes.
    pub fn as_bytes(&self) -> &[u8]
        ensures { result.now ≡ self.now }
    {
        self.bytes.as_slice()
    }

    /// Returns the bytes, to be changed in place. Their number stays.
    pub fn as_mut_bytes(&mut self) -> &mut [u8]
        ensures* writes_back { sem 𝓛 (Lends the_row (Array u8 0) self.entry result
            (overwritten self.old)) }
        ensures value { result.now ≡ self.old }
    {
        self.bytes.as_mut_slice()
    }

    /// Returns the bytes without copying them.
    pub fn into_bytes(self) -> Vec<u8>
        ensures { result.items ≡ self }
    {
        let Self { bytes } = self;
        bytes
    }

    /// Returns the bytes as a text without copying them. The error, where they are not UTF-8, is
    /// the byte string unchanged.
    pub fn into_string(self) -> Result<String, ByteString>
        ensures ok { IfOk result (λ text. string_bytes text ≡ self) }
        ensures err { IfErr result (λ same. same ≡ self) }
        ensures utf8 { IsOk result ↔ IsUtf8 self }
    {
        match String::from_utf8(self.into_bytes()) {
            Ok(text) => Ok(text),
            Err(error) => Err(Self::from_vec(error.into_bytes())),
        }
    }

    /// Returns the bytes as a text for people to read. A character in UTF-8 stays, and each other
    /// byte is `\x` and two lowercase hexadecimal digits, also each byte of an incomplete character
    /// at the end. The error is that there is no memory for the text.
    pub fn as_escaped_string(&self, alloc: Global) -> Result<String, AllocError>
        ensures text { IfOk result (λ text. string_bytes text ≡ escaped self.now) }
        ensures cut { IfOk result (λ text. IsEscaped self.now (string_bytes text)) }
    {
        let bytes = self.as_bytes();
        let mut text = String::with_capacity(alloc, bytes.len())?;
        for chunk in bytes.utf8_chunks() {
            text.push_str(chunk.valid())?;
            push_escaped(&mut text, chunk.invalid())?;
        }
        Ok(text)
    }

    /// Copies the bytes into memory of this allocator. The error is that there is no memory for
    /// them.
    pub fn try_clone(&self, alloc: Global) -> Result<Self, AllocError>
        ensures { IfOk result (λ copy. copy ≡ self.now) }
    {
        Ok(Self {
            bytes: Vec::from_slice(alloc, self.as_bytes())?,
        })
    }
}

/// Copies the bytes. The error is that there is no memory for them.
impl Clone for ByteString {
    ghost is_clone = { λ s t. t ≡ s };

    fn clone(&self) -> Result<Self, AllocError> {
        self.try_clone(*self.bytes.allocator())
    }
}

impl From<Vec<u8>> for ByteString {
    ghost from_gives = { λ bytes s. s ≡ bytes.items };

    fn from(bytes: Vec<u8>) -> Self {
        Self::from_vec(bytes)
    }
}

impl From<String> for ByteString {
    ghost from_gives = { λ text s. s ≡ string_bytes text };

    fn from(text: String) -> Self {
        Self::from_string(text)
    }
}

impl PartialEq for ByteString {
    ghost eq = { pointwise nat_eq };

    ghost laws = { partial_equiv_from_equiv nat_list_eq_equiv };

    fn eq(&self, other: &Self) -> bool {
        self.as_bytes() == other.as_bytes()
    }
}

impl Eq for ByteString {
    ghost laws = { nat_list_eq_equiv };
}

impl PartialOrd for ByteString {
    ghost partial_cmp = { λ x y. Some (slice_cmp nat_cmp x y) };

    ghost laws = { texts_po };

    fn partial_cmp(&self, other: &Self) -> Option<Ordering> {
        Some(self.cmp(other))
    }
}

impl Ord for ByteString {
    ghost cmp = { slice_cmp nat_cmp };

    ghost total = { nat_list_cmp_total };

    ghost matches_partial_cmp = { λ x y. refl };

    ghost matches_eq = { texts_ties };

    fn cmp(&self, other: &Self) -> Ordering {
        self.as_bytes().cmp(&other.as_bytes())
    }
}

impl Hash for ByteString {
    ghost hash_input = { fed.slice fed.u8 };

    ghost respects_eq = { (items_Alike (same_Alike fed.u8 unsigned_Decides)).fed };

    fn hash<H: Hasher>(&self, state: &mut H) {
        self.as_bytes().hash(state);
    }
}

/// The escaped text in double quotes, with each of its characters escaped once more. A tab, a
/// carriage return, a newline, either quote and a backslash are `\t`, `\r`, `\n`, `\'`, `\"` and
/// `\\`, other printable ASCII stays, and every other character is `\u{..}` in lowercase
/// hexadecimal. Width and the like have no effect.
impl fmt::Display for ByteString {
    ghost output = { λ s. Some (display_text s) };

    fn fmt<W: fmt::Write>(&self, f: &mut fmt::Formatter<W>) -> fmt::Result {
        write_quoted(self.as_bytes(), NulForm::Code, f)
    }
}

/// As `{}`, but for NUL, which is `\0`.
impl fmt::Debug for ByteString {
    ghost debug_output = { λ s. Some (debug_text s) };

    fn fmt<W: fmt::Write>(&self, f: &mut fmt::Formatter<W>) -> fmt::Result {
        write_quoted(self.as_bytes(), NulForm::Short, f)
    }
}

/// How NUL is printed between the quotes: `\u{0}` or `\0`.
#[derive(Clone, Copy)]
enum NulForm {
    Code,
    Short,
}

/// The lowercase hexadecimal digit of the low four bits.
fn low_digit(byte: u8) -> char
    ensures { result ≡ digit_char (byte % 16) }
{
    hex_digit(byte % 16)
}

/// Appends each byte as `\x` and two digits.
fn push_escaped(text: &mut String, bytes: &[u8]) -> Result<(), AllocError>
    ensures { OnOk result (string_bytes text.new ≡ string_bytes text.old ++ encode_utf8_all
        (flat_map escaped_byte bytes.now)) }
{
    for byte in bytes {
        text.push_str("\\x")?;
        text.push(low_digit(*byte / 16))?;
        text.push(low_digit(*byte))?;
    }
    Ok(())
}

/// Writes the escaped bytes between double quotes.
fn write_quoted<W: fmt::Write>(bytes: &[u8], nul: NulForm, f: &mut fmt::Formatter<W>) -> fmt::Result
    ensures { WritesOnOk W.write_str_gives f.old result
        (encode_utf8_all (quoted (escape_by nul) bytes.now)) f.new }
{
    f.write_char('"')?;
    for chunk in bytes.utf8_chunks() {
        write_text(chunk.valid(), nul, f)?;
        write_stray(chunk.invalid(), f)?;
    }
    f.write_char('"')
}

/// Writes each character of the text in its escaped form.
fn write_text<W: fmt::Write>(text: &str, nul: NulForm, f: &mut fmt::Formatter<W>) -> fmt::Result
    ensures { WritesOnOk W.write_str_gives f.old result
        (encode_utf8_all (flat_map (escape_by nul) (chars text.now))) f.new }
{
    for c in text.chars() {
        write_char(c, nul, f)?;
    }
    Ok(())
}

/// Writes the character in its escaped form, NUL in the form that is asked for.
fn write_char<W: fmt::Write>(c: char, nul: NulForm, f: &mut fmt::Formatter<W>) -> fmt::Result
    ensures { WritesOnOk W.write_str_gives f.old result (encode_utf8_all (escape_by nul c)) f.new }
{
    match (c, nul) {
        ('\0', NulForm::Short) => f.write_str("\\0"),
        _ => write_default(c, f),
    }
}

/// Writes the character as std's `escape_default` gives it.
fn write_default<W: fmt::Write>(c: char, f: &mut fmt::Formatter<W>) -> fmt::Result
    ensures { WritesOnOk W.write_str_gives f.old result (encode_utf8_all (escape_default c)) f.new }
{
    for escaped in c.escape_default() {
        f.write_char(escaped)?;
    }
    Ok(())
}

/// Writes each byte as an escaped backslash, `x` and two digits.
fn write_stray<W: fmt::Write>(bytes: &[u8], f: &mut fmt::Formatter<W>) -> fmt::Result
    ensures { WritesOnOk W.write_str_gives f.old result
        (encode_utf8_all (flat_map quoted_byte bytes.now)) f.new }
{
    for byte in bytes {
        f.write_str("\\\\x")?;
        f.write_char(low_digit(*byte / 16))?;
        f.write_char(low_digit(*byte))?;
    }
    Ok(())
}
