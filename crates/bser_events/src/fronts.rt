//! Counts, texts and keys at the start of bytes, and what follows them.
ghost use Rattle.std.specs.Prelude.{◌≡◌, IfSome};
ghost use Rattle.bser_format.specs.Named.{reads};
ghost use Rattle.bser_format.specs.declared.errors.Complaint.{Complaint};
ghost use Rattle.bser_events.specs.Found.{keys_at};
ghost use Rattle.bser_events.specs.Takes.{Takes, CutsText, ReadsKey, counting};

use bser_bunser::prefix::{Prefix, Token, length_prefix, token_prefix};
use bser_source::text::as_text;

/// A count, and what follows it.
#[derive(Clone, Copy)]
pub struct CountFront<'b> {
    /// The count.
    pub count: usize,
    /// What follows it.
    pub rest: &'b [u8],
}

/// Returns the count that these bytes begin with, and what follows it. None where no count is
/// there.
#[inline(always)]
pub fn count(bytes: &[u8]) -> Option<CountFront<'_>>
    ensures { IfSome result (λ n. (c : Complaint)
        → counting c bytes.now ≡ reads n.count n.rest.now) }
{
    match length_prefix(bytes) {
        Prefix::Found { value, len } => Some(CountFront {
            count: value,
            rest: &bytes[len..],
        }),
        _ => None,
    }
}

/// A text, and what follows it.
#[derive(Clone, Copy)]
pub struct Taken<'b> {
    /// The text.
    pub text: &'b str,
    /// What follows it.
    pub rest: &'b [u8],
}

/// So many bytes, which are UTF-8, and what follows them. None where there are fewer, or they are
/// no UTF-8.
#[inline(always)]
pub fn text(bytes: &[u8], len: usize) -> Option<Taken<'_>>
    ensures { IfSome result (λ t. CutsText len bytes.now t.text.now t.rest.now) }
{
    if bytes.len() < len {
        return None;
    }
    let text = as_text(&bytes[..len])?;
    Some(Taken {
        text,
        rest: &bytes[len..],
    })
}

/// Returns the key that these bytes begin with, which is UTF-8 under either tag, and what follows
/// it.
#[inline(always)]
pub fn key(bytes: &[u8]) -> Option<Taken<'_>>
    ensures { IfSome result (λ t. ReadsKey bytes.now t.text.now t.rest.now) }
{
    match token_prefix(bytes) {
        Prefix::Found {
            value: Token::Str {
                is_text: _,
                len: size,
            },
            len,
        } => text(&bytes[len..], size),
        _ => None,
    }
}

/// Returns what follows so many keys of a template.
pub fn keys(bytes: &[u8], count: usize) -> Option<&[u8]>
    ensures { IfSome result (λ rest. Takes (keys_at count) bytes.now rest.now) }
{
    let mut rest = bytes;
    for _ in 0..count {
        rest = key(rest)?.rest;
    }
    Some(rest)
}
