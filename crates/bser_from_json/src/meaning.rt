//! What JSON's scalars stand for, and the marks and names that its keys are.
ghost use Rattle.std.specs.Prelude.{◌≡◌, ℕ, List, IfOk, option_map};
ghost use Rattle.json.specs.Reads.{token_of};
ghost use Rattle.bser_format.specs.Tree.{Tree};
ghost use Rattle.bser_value.specs.ValueView.{tree_of};
ghost use Rattle.bser_from_json.specs.Bodies.{AreNamed};
ghost use Rattle.bser_from_json.specs.Made.{integer_made, is_whole, digits_made, marked_made, mark_fault, mark_key, mark_of, name_of, new_name, number_made, string_made};
ghost use Rattle.bser_from_json.specs.Scalars.{IsMade, IsNamed};
ghost use Rattle.bser_from_json.specs.declared.meaning.Mark.TheVariants as marks;

use crate::body::EntrySpan;
use crate::fault::JsonFault;
use crate::reading::Strings;
use bser_format::bytestring::ByteString;
use bser_format::real::has_point_or_e;
use bser_value::value::Value;
use hex::{FromHex, FromHexError};
use json::Token;
use std::alloc::{AllocError, Global};
use std::collections::BTreeMap;

/// What an object of one member marks.
#[derive(Clone, Copy, Drop)]
pub enum Mark {
    /// `$bytes`: the bytes of a string that is no text, in hexadecimal digits.
    Bytes,
    /// `$real`: the bits of a real, in sixteen hexadecimal digits.
    Real,
}

impl Mark {
    /// Returns the key of the object that is this mark.
    pub fn key(self) -> &'static str
        ensures { result.now ≡ mark_key self }
    {
        match self {
            Mark::Bytes => "$bytes",
            Mark::Real => "$real",
        }
    }

    /// What the key marks, if it does.
    pub(crate) fn of(key: &str) -> Option<Mark>
        ensures { result ≡ mark_of key.now }
    {
        if key == Mark::Bytes.key() {
            Some(Mark::Bytes)
        } else if key == Mark::Real.key() {
            Some(Mark::Real)
        } else {
            None
        }
    }

    /// What a token is that it cannot mark.
    pub(crate) fn fault(self) -> JsonFault
        ensures { result ≡ mark_fault self }
    {
        match self {
            Mark::Bytes => JsonFault::WrongBytes,
            Mark::Real => JsonFault::WrongReal,
        }
    }

    /// The value of a token that is marked.
    pub(crate) fn value(self, alloc: Global, token: Token<'_>) -> Result<Option<Value>, AllocError>
        ensures { IfOk result (λ v.
            option_map tree_of v ≡ marked_made self (token_of token.entry)) }
    {
        let Token::String(digits) = token else {
            return Ok(None);
        };
        match self {
            Mark::Bytes => bytes_of(alloc, digits),
            Mark::Real => Ok(real_of(digits)),
        }
    }
}

/// The byte string whose bytes the digits are in hexadecimal.
fn bytes_of(alloc: Global, digits: &str) -> Result<Option<Value>, AllocError>
    ensures { IfOk result (λ v. option_map tree_of v ≡ digits_made marks.Bytes digits.now) }
{
    match hex::decode(alloc, digits.as_bytes()) {
        Ok(bytes) => Ok(Some(Value::ByteString(ByteString::from_vec(bytes)))),
        Err(FromHexError::OutOfMemory) => Err(AllocError),
        Err(_) => Ok(None),
    }
}

/// The real whose bits the digits are, in sixteen of hexadecimal.
fn real_of(digits: &str) -> Option<Value>
    ensures { option_map tree_of result ≡ digits_made marks.Real digits.now }
{
    match <[u8; 8] as FromHex>::from_hex(digits) {
        Ok(bytes) => Some(Value::Real(u64::from_be_bytes(bytes))),
        Err(_) => None,
    }
}

/// A string, under the tag that is asked for.
pub(crate) fn string_of(alloc: Global, strings: Strings, text: &str) -> Result<Value, AllocError>
    ensures { IfOk result (λ v. tree_of v ≡ string_made strings text.now) }
{
    match strings {
        Strings::Texts => Value::from_text(alloc, text),
        Strings::Bytes => {
            let bytes = Vec::from_slice(alloc, text.as_bytes())?;
            Ok(Value::ByteString(ByteString::from_vec(bytes)))
        }
    }
}

/// The integer or the real of a number's text. A number with a point or an exponent is a real, and
/// so is `-0`.
pub(crate) fn number_of(text: &str) -> Result<Value, JsonFault>
    ensures { IsMade result (number_made text.now) }
{
    if is_whole(text) {
        return integer_of(text);
    }
    match text.parse::<f64>() {
        Ok(real) if real.is_finite() => Ok(Value::Real(real.to_bits())),
        _ => Err(JsonFault::RealTooGreat),
    }
}

/// The integer of a number's text.
fn integer_of(text: &str) -> Result<Value, JsonFault>
    ensures { IsMade result (integer_made text.now) }
{
    match text.parse::<i64>() {
        Ok(number) => Ok(Value::Integer(number)),
        Err(_) => Err(JsonFault::IntegerTooGreat),
    }
}

/// Whether a number has no point and no exponent, and is not `-0`.
fn is_whole(text: &str) -> bool
    ensures { result ≡ is_whole text.now }
{
    text != "-0" && !has_point_or_e(text.as_bytes())
}

/// The name that a key stands for.
fn name_of(key: &str) -> Result<&str, JsonFault>
    ensures { IsNamed result (name_of key.now) }
{
    let Some(rest) = key.strip_prefix('$') else {
        return Ok(key);
    };
    if rest.starts_with('$') {
        return Ok(rest);
    }
    match Mark::of(key) {
        Some(_) => Err(JsonFault::MarkWithMembers),
        None => Err(JsonFault::UnknownMark),
    }
}

/// The name that a key stands for, which the entries do not have.
pub(crate) fn new_name<'k>(
    key: &'k str,
    entries: &BTreeMap<&'k str, EntrySpan>,
) -> Result<&'k str, JsonFault>
    ensures { (es : List (List ℕ × Tree)) → AreNamed entries.now.entries es
        → IsNamed result (new_name es (name_of key.now)) }
{
    let name = name_of(key)?;
    if entries.contains_key(&name) {
        return Err(JsonFault::EqualKeys);
    }
    Ok(name)
}
