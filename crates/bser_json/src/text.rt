//! The bytes of a JSON text: what stands before a token, and the text of a token.
ghost use Rattle.std.specs.Prelude.{◌≡◌, ◌&&◌, ◌+◌, ◌*◌, ◌<◌, ◌≤◌, ◌∷◌, ◌++◌, ℕ, List, [], OnOk, cond, length, replicate};
ghost use Rattle.std.specs.Bool.{OnTrue};
ghost use Rattle.json.specs.Layout.{gap, is_value};
ghost use Rattle.json.specs.Print.{IsPrintable, escape, quoted, token_text};
ghost use Rattle.json.specs.Reads.{token_of};
ghost use Rattle.json.specs.Written.{PlainBetween};
ghost use Rattle.bser_json.specs.Printed.{gap_in, last_of};

use crate::printing::{Last, Layout};
use json::{Token, Writer};
use std::alloc::{AllocError, Global};
use std::simd::prelude::*;

/// How many levels are indented at once.
const LEVELS: usize = 32;

/// Two spaces for each of these levels.
const SPACES: [u8; 2 * LEVELS] = [b' '; 2 * LEVELS];

/// Puts what stands before a token: a comma where that is behind a value, and a gap.
#[inline(always)]
pub(crate) fn put_gap(
    text: &mut Vec<u8>,
    layout: Layout,
    last: Last,
    opens: bool,
    depth: usize,
) -> Result<(), AllocError>
    ensures { OnOk result (text.new.items
        ≡ text.old.items ++ (cond (is_value (last_of last) && opens) (44 ∷ []) []
        ++ gap_in layout (last_of last) opens depth)) }
{
    match layout {
        Layout::Line => put_comma(text, last, opens),
        Layout::Pretty => put_space(text, last, opens, depth),
    }
}

/// Puts a comma where the token opens behind a value.
#[inline(always)]
fn put_comma(text: &mut Vec<u8>, last: Last, opens: bool) -> Result<(), AllocError>
    ensures { OnOk result (text.new.items
        ≡ text.old.items ++ cond (is_value (last_of last) && opens) (44 ∷ []) []) }
{
    match last {
        Last::Value if opens => text.extend_from_slice(b","),
        _ => Ok(()),
    }
}

/// Puts a comma where the token opens behind a value, and the space or the line before it.
fn put_space(text: &mut Vec<u8>, last: Last, opens: bool, depth: usize) -> Result<(), AllocError>
    ensures { OnOk result (text.new.items
        ≡ text.old.items ++ (cond (is_value (last_of last) && opens) (44 ∷ []) []
        ++ gap (last_of last) opens depth)) }
{
    match last {
        Last::Nothing => Ok(()),
        Last::Key => text.extend_from_slice(b" "),
        Last::Bracket if !opens => Ok(()),
        Last::Bracket => put_line(text, b"\n", depth),
        Last::Value if opens => put_line(text, b",\n", depth),
        Last::Value => put_line(text, b"\n", depth),
    }
}

/// Puts these bytes, and two spaces for each level.
#[inline(always)]
fn put_line(text: &mut Vec<u8>, bytes: &[u8], levels: usize) -> Result<(), AllocError>
    ensures { OnOk result (text.new.items
        ≡ text.old.items ++ (bytes.now ++ replicate (2 * levels) 32)) }
{
    let few = levels.min(LEVELS);
    text.extend_from_slice(bytes)?;
    text.extend_from_slice(&SPACES[..2 * few])?;
    for _ in 0..levels - few {
        text.extend_from_slice(b"  ")?;
    }
    Ok(())
}

/// Puts the text of a token.
#[inline(always)]
pub(crate) fn put_token(
    text: &mut Vec<u8>,
    alloc: Global,
    token: Token<'_>,
) -> Result<(), AllocError>
    requires { IsPrintable (token_of token) }
    ensures { OnOk result (text.new.items ≡ text.old.items ++ token_text (token_of token.entry)) }
{
    match token {
        Token::BeginObject => text.extend_from_slice(b"{"),
        Token::EndObject => text.extend_from_slice(b"}"),
        Token::BeginArray => text.extend_from_slice(b"["),
        Token::EndArray => text.extend_from_slice(b"]"),
        Token::Key(name) => put_key(text, alloc, name),
        Token::String(string) => put_string(text, alloc, string),
        Token::Number(digits) => text.extend_from_slice(digits.as_bytes()),
        Token::Bool(true) => text.extend_from_slice(b"true"),
        Token::Bool(false) => text.extend_from_slice(b"false"),
        Token::Null => text.extend_from_slice(b"null"),
        Token::Bad => unreachable!(),
    }
}

/// Puts a key in quotes, and a colon.
fn put_key(text: &mut Vec<u8>, alloc: Global, name: &str) -> Result<(), AllocError>
    ensures { OnOk result (text.new.items ≡ text.old.items ++ (quoted name.now ++ 58 ∷ [])) }
{
    put_quoted(text, alloc, name, b"\":")
}

/// Puts a string in quotes.
fn put_string(text: &mut Vec<u8>, alloc: Global, string: &str) -> Result<(), AllocError>
    ensures { OnOk result (text.new.items ≡ text.old.items ++ quoted string.now) }
{
    put_quoted(text, alloc, string, b"\"")
}

/// Puts a quote, what stands for a string, and what closes it.
#[inline(always)]
fn put_quoted(
    text: &mut Vec<u8>,
    alloc: Global,
    string: &str,
    close: &[u8],
) -> Result<(), AllocError>
    ensures { OnOk result (text.new.items
        ≡ text.old.items ++ 34 ∷ (escape string.now ++ close.now)) }
{
    text.extend_from_slice(b"\"")?;
    put_escaped(text, alloc, string)?;
    text.extend_from_slice(close)
}

/// Puts what stands for a string between its quotes.
#[inline(always)]
pub(crate) fn put_escaped(text: &mut Vec<u8>, alloc: Global, string: &str) -> Result<(), AllocError>
    ensures { OnOk result (text.new.items ≡ text.old.items ++ escape string.now) }
{
    if is_plain(string.as_bytes()) {
        return text.extend_from_slice(string.as_bytes());
    }
    put_escapes(text, alloc, string)
}

/// Puts what stands for a string between its quotes, by the kit's writer.
#[cold]
#[inline(never)]
fn put_escapes(text: &mut Vec<u8>, alloc: Global, string: &str) -> Result<(), AllocError>
    ensures { OnOk result (text.new.items ≡ text.old.items ++ escape string.now) }
{
    let mut writer = Writer::new(Vec::new(alloc));
    writer.token(Token::String(string))?;
    let quoted = writer.into_inner();
    text.extend_from_slice(within_quotes(&quoted))
}

/// What stands between the quotes of a string.
fn within_quotes(text: &[u8]) -> &[u8]
    ensures { (s : List ℕ) → text.now ≡ 34 ∷ (s ++ 34 ∷ []) → result.now ≡ s }
{
    let end = text.len().saturating_sub(1);
    &text[end.min(1)..end]
}

/// Whether each byte stands for itself between quotes.
#[inline(always)]
fn is_plain(bytes: &[u8]) -> bool
    ensures { OnTrue result (escape bytes.now ≡ bytes.now) }
{
    if bytes.len() >= 16 {
        is_plain_by::<16>(bytes)
    } else if bytes.len() >= 4 {
        is_plain_by::<4>(bytes)
    } else {
        is_plain_each(bytes)
    }
}

/// The same of N bytes or more, N at a time. The last N are read though some of them were.
#[inline(always)]
fn is_plain_by<const N: usize>(bytes: &[u8]) -> bool
    requires { (0 < N) × (N ≤ 64) × (N ≤ length bytes.now) }
    ensures { OnTrue result (PlainBetween bytes.now 0 (length bytes.now)) }
{
    let last = bytes.len() - N;
    let mut at = 0;
    while at < last {
        if !is_plain_at::<N>(bytes, at) {
            return false;
        }
        at += N;
    }
    is_plain_at::<N>(bytes, last)
}

/// The same of the N bytes from a place on.
#[inline(always)]
fn is_plain_at<const N: usize>(bytes: &[u8], at: usize) -> bool
    requires { (at + N ≤ length bytes.now) × (N ≤ 64) }
    ensures { OnTrue result (PlainBetween bytes.now at (at + N)) }
{
    let lanes = Simd::<u8, N>::from_slice(&bytes[at..]);
    (lanes.simd_eq(Simd::splat(b'"'))
        | lanes.simd_eq(Simd::splat(b'\\'))
        | lanes.simd_lt(Simd::splat(b' '))).to_bitmask()
        == 0
}

/// The same of few bytes.
#[inline(always)]
fn is_plain_each(bytes: &[u8]) -> bool
    ensures { OnTrue result (PlainBetween bytes.now 0 (length bytes.now)) }
{
    for &byte in bytes {
        if byte == b'"' || byte == b'\\' || byte < b' ' {
            return false;
        }
    }
    true
}
