//! What follows a well-formed value.
ghost use Rattle.std.specs.Prelude.{◌<◌, IfSome};
ghost use Rattle.bser_format.specs.Named.{many, text_of, entry_of, field_of, with_text_keys};
ghost use Rattle.bser_format.specs.declared.errors.Kind.TheVariants.{MapKey};
ghost use Rattle.bser_events.specs.Found.{value_rest, table_at};
ghost use Rattle.bser_events.specs.Takes.{Takes};

use crate::heads::{LONGEST_SCALAR, counted_string, scalar_size, string};
use bser_bunser::prefix::{Prefix, Token, is_key_tag, token_prefix};
use bser_events::fronts::{CountFront, count, key, keys};
use bser_format::header::{BSER_ARRAY, BSER_BYTESTRING, BSER_INT8, BSER_SKIP, BSER_UTF8STRING};

/// What follows the value that these bytes begin with. None where they begin with no well-formed
/// value, or with one of more levels.
#[cycle(value)]
#[inline(always)]
pub fn value(bytes: &[u8], levels: usize) -> Option<&[u8]>
    ensures { IfSome result (λ rest. Takes (with_text_keys levels) bytes.now rest.now) }
{
    match token_prefix(bytes) {
        Prefix::Found { value: token, len } => match token {
            Token::Null | Token::Bool(_) | Token::Int(_) | Token::Real(_) => Some(&bytes[len..]),
            Token::Str { is_text, len: size } => string(&bytes[len..], is_text, size),
            Token::Skip => None,
            _ => container(token, &bytes[len..], levels),
        },
        _ => None,
    }
}

/// What follows a container behind its token.
#[cycle(value)]
#[inline(never)]
fn container(token: Token, bytes: &[u8], levels: usize) -> Option<&[u8]>
    ensures { IfSome result (λ rest. (0 < levels)
        × Takes (value_rest levels token) bytes.now rest.now) }
{
    if levels == 0 {
        return None;
    }
    match token {
        Token::Array { len } => items(bytes, len, levels - 1),
        Token::Object { len } => entries(bytes, len, levels - 1),
        Token::Template => template(bytes, levels - 1),
        _ => None,
    }
}

/// What follows so many items.
#[cycle(value)]
fn items(bytes: &[u8], count: usize, levels: usize) -> Option<&[u8]>
    ensures { IfSome result (λ rest.
        Takes (many (with_text_keys levels) count) bytes.now rest.now) }
{
    let mut rest = bytes;
    for _ in 0..count {
        rest = value(rest, levels)?;
    }
    Some(rest)
}

/// What follows so many entries.
#[cycle(value)]
fn entries(bytes: &[u8], count: usize, levels: usize) -> Option<&[u8]>
    ensures { IfSome result (λ rest.
        Takes (many (entry_of (text_of MapKey) (with_text_keys levels)) count) bytes.now rest.now) }
{
    let mut rest = bytes;
    for _ in 0..count {
        rest = entry(rest, levels)?;
    }
    Some(rest)
}

/// What follows an entry.
#[cycle(value)]
#[inline(always)]
fn entry(bytes: &[u8], levels: usize) -> Option<&[u8]>
    ensures { IfSome result (λ rest.
        Takes (entry_of (text_of MapKey) (with_text_keys levels)) bytes.now rest.now) }
{
    let key = key(bytes)?;
    value(key.rest, levels)
}

/// What follows a template behind its token.
#[cycle(value)]
fn template(bytes: &[u8], levels: usize) -> Option<&[u8]>
    ensures { IfSome result (λ rest. Takes (table_at levels) bytes.now rest.now) }
{
    if levels == 0 || bytes.is_empty() || bytes[0] != BSER_ARRAY {
        return None;
    }
    let width = count(&bytes[1..])?;
    let rest = keys(width.rest, width.count)?;
    let CountFront { count: rows, rest } = count(rest)?;
    if width.count == 0 && rows != 0 {
        return None;
    }
    fields(rest, rows.checked_mul(width.count)?, levels)
}

/// What follows so many fields of rows.
#[cycle(value)]
pub(crate) fn fields(bytes: &[u8], count: usize, levels: usize) -> Option<&[u8]>
    ensures { IfSome result (λ rest.
        Takes (many (field_of (with_text_keys levels)) count) bytes.now rest.now) }
{
    let mut rest = bytes;
    for _ in 0..count {
        rest = field(rest, levels)?;
    }
    Some(rest)
}

/// What follows a field of a row.
///
/// Nearly all are scalars and short strings, which are told by their first bytes.
#[cycle(value)]
#[inline(always)]
fn field(bytes: &[u8], levels: usize) -> Option<&[u8]>
    ensures { IfSome result (λ rest. Takes (field_of (with_text_keys levels)) bytes.now rest.now) }
{
    if bytes.len() >= LONGEST_SCALAR {
        let size = scalar_size(bytes[0]);
        if size != 0 {
            return Some(&bytes[size..]);
        }
        if is_key_tag(bytes[0]) && bytes[1] == BSER_INT8 {
            return counted_string(&bytes[1..], bytes[0] == BSER_UTF8STRING);
        }
    }
    any_field(bytes, levels)
}

/// What follows a field, whatever it is, and also at the end of the bytes.
#[cycle(value)]
#[inline(never)]
fn any_field(bytes: &[u8], levels: usize) -> Option<&[u8]>
    ensures { IfSome result (λ rest. Takes (field_of (with_text_keys levels)) bytes.now rest.now) }
{
    if !bytes.is_empty() && bytes[0] == BSER_SKIP {
        return Some(&bytes[1..]);
    }
    value(bytes, levels)
}
