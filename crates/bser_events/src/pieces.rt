//! Pieces of a value that are buffered whole.
ghost use Rattle.std.specs.Prelude.{◌≡◌, ◌≢◌, ◌+◌, ⊤, take, MatchBool, MatchOption};
ghost use Rattle.bser_events.specs.Places.{counted, Marked, place_at};
ghost use Rattle.bser_events.specs.Told.{told};
ghost use Rattle.bser_events.specs.Pieces.{
  DueInFront,
  IsDueString,
  IsDueScalar,
  IsScalar,
  IsNoScalar,
  IsFirst,
};

use crate::event::{Event, Place};
use crate::frame::Part;
use bser_bunser::prefix::{Prefix, Token, token_prefix};
use bser_source::text::as_text;

/// A key, a scalar, a string or a skip.
#[derive(Clone, Copy)]
pub struct Piece<'s> {
    /// What is reported of it.
    pub event: Event<'s>,
    /// How many bytes it has.
    pub len: usize,
    /// Whether it is a string under the tag of a text.
    pub is_text: bool,
}

impl Piece<'_> {
    /// Its place, where so many bytes were taken before it.
    #[inline(always)]
    pub fn place(&self, start: usize) -> Place
        ensures { result ≡ place_at start (counted (start + self.now.len)) self.now.is_text }
    {
        Place {
            start,
            end: start.saturating_add(self.len),
            is_text: self.is_text,
        }
    }
}

/// Returns the piece that is expected, at the start of these bytes.
///
/// None where it is not there whole, or another thing is: a container, or an error.
#[inline(always)]
pub fn due_piece(due: Part, bytes: &[u8]) -> Option<Piece<'_>>
    ensures front { MatchOption result ⊤ (λ p. DueInFront due bytes.now p.len (told p.event)) }
    ensures mark { MatchOption result ⊤ (λ p.
        Marked p.is_text (told p.event) (take p.len bytes.now)) }
{
    let Prefix::Found { value, len } = token_prefix(bytes) else {
        return None;
    };
    let Token::Str { is_text, len: size } = value else {
        let event = due_scalar(due, value)?;
        return Some(Piece {
            event,
            len,
            is_text: false,
        });
    };
    let event = due_string(due, is_text, first(&bytes[len..], size)?)?;
    Some(Piece {
        event,
        len: len + size,
        is_text,
    })
}

/// What is reported of a string where this is expected. None where it is no text, and has to be
/// one.
#[inline(always)]
fn due_string(due: Part, is_text: bool, string: &[u8]) -> Option<Event<'_>>
    ensures { MatchOption result ⊤ (λ e. IsDueString due is_text string.now (told e)) }
{
    match due {
        Part::Entry => Some(Event::Key(as_text(string)?)),
        Part::Item | Part::Field => {
            if is_text {
                Some(Event::Text(as_text(string)?))
            } else {
                Some(Event::Bytes(string))
            }
        }
    }
}

/// What is reported of a scalar or of a skip where this is expected. None for another token.
#[inline(always)]
fn due_scalar(due: Part, token: Token) -> Option<Event<'static>>
    ensures { MatchOption result ⊤ (λ e. IsDueScalar due token (told e)) }
{
    match scalar(token) {
        Some(event) => match due {
            Part::Entry => None,
            Part::Item | Part::Field => Some(event),
        },
        None if is_skipped(due, token) => Some(Event::Skip),
        None => None,
    }
}

/// Returns whether a field is expected, and is missing.
#[inline(always)]
pub fn is_skipped(due: Part, token: Token) -> bool
    ensures { MatchBool result ((due ≡ Part.Field) × (token ≡ Token.Skip))
        (due ≡ Part.Field → token ≢ Token.Skip) }
{
    match due {
        Part::Field => match token {
            Token::Skip => true,
            _ => false,
        },
        Part::Item | Part::Entry => false,
    }
}

/// The first `n` of these bytes. None where there are fewer.
#[inline(always)]
fn first(bytes: &[u8], n: usize) -> Option<&[u8]>
    ensures { MatchOption result ⊤ (λ s. IsFirst n bytes.now s.now) }
{
    if bytes.len() < n {
        return None;
    }
    Some(&bytes[..n])
}

/// Returns what is reported of a scalar. None for another token.
#[inline(always)]
pub fn scalar(token: Token) -> Option<Event<'static>>
    ensures { MatchOption result (IsNoScalar token) (λ e. IsScalar token (told e)) }
{
    match token {
        Token::Null => Some(Event::Null),
        Token::Bool(value) => Some(Event::Bool(value)),
        Token::Int(number) => Some(Event::Int(number)),
        Token::Real(bits) => Some(Event::Real(bits)),
        _ => None,
    }
}
