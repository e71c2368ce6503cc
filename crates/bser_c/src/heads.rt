//! The first word of an event.
ghost use Rattle.std.specs.Prelude.{◌≡◌, true};
ghost use Rattle.bser_events.specs.Told.{told};
ghost use Rattle.bser_c.specs.Tape.{StandsAt, first_word, head_of};

use crate::tags::{BYTES_KEY, CLOSE, KEY, MOST_COUNT, ROWS};
use bser_events::event::Event;
use bser_format::header::{
    BSER_ARRAY, BSER_BYTESTRING, BSER_FALSE, BSER_INT64, BSER_NULL, BSER_OBJECT, BSER_REAL,
    BSER_SKIP, BSER_TEMPLATE, BSER_TRUE, BSER_UTF8STRING,
};

/// A tag, and a count above it.
#[inline(always)]
fn word(tag: u8, count: usize) -> u64
    ensures { result ≡ first_word tag count }
{
    (count as u64).min(MOST_COUNT) * 256 + u64::from(tag)
}

/// The first word of an event. A key is under the tag of a text, or of a byte string.
#[inline(always)]
pub(crate) fn head(event: Event<'_>, is_text: bool) -> u64
    ensures { result ≡ head_of is_text (told event.entry) }
{
    match event {
        Event::Null => word(BSER_NULL, 0),
        Event::Bool(true) => word(BSER_TRUE, 0),
        Event::Bool(false) => word(BSER_FALSE, 0),
        Event::Int(_) => word(BSER_INT64, 0),
        Event::Real(_) => word(BSER_REAL, 0),
        Event::Bytes(string) => word(BSER_BYTESTRING, string.len()),
        Event::Text(text) => word(BSER_UTF8STRING, text.len()),
        Event::Array { len } => word(BSER_ARRAY, len),
        Event::Object { len } => word(BSER_OBJECT, len),
        Event::Key(key) => {
            let tag = if is_text { KEY } else { BYTES_KEY };
            word(tag, key.len())
        }
        Event::Template { len } => word(BSER_TEMPLATE, len),
        Event::Rows { len } => word(ROWS, len),
        Event::Skip => word(BSER_SKIP, 0),
        Event::Close => word(CLOSE, 0),
    }
}

/// Whether these bytes are at this place.
#[inline(always)]
pub(crate) fn stands_at(input: &[u8], at: usize, string: &[u8]) -> bool
    ensures found { result ≡ true → StandsAt input.now at string.now }
    ensures other { StandsAt input.now at string.now → result ≡ true }
{
    if at > input.len() || string.len() > input.len() - at {
        return false;
    }
    &input[at..at + string.len()] == string
}
