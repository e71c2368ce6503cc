//! A builder that looks at the place of each event.
ghost use Rattle.std.specs.Prelude.{true};

use bser_events::builder::{Builder, Stop};
use bser_events::event::{Event, Place};
use bser_format::header::{
    BSER_ARRAY, BSER_BYTESTRING, BSER_FALSE, BSER_INT8, BSER_INT64, BSER_NULL, BSER_OBJECT,
    BSER_REAL, BSER_SKIP, BSER_TEMPLATE, BSER_TRUE, BSER_UTF8STRING,
};

/// Takes at most so many events of a message, and looks at their places.
#[derive(Drop)]
pub struct Witness<'m> {
    message: &'m [u8],
    most: usize,
    /// How many events were taken.
    pub taken: usize,
    /// Where the last event ended.
    pub end: usize,
    /// Whether each event began with its tag where the last one ended, and each string was right
    /// before its end.
    pub in_place: bool,
}

impl<'m> Witness<'m> {
    /// Takes at most `most` events of this message.
    pub fn new(message: &'m [u8], most: usize) -> Self {
        Witness {
            message,
            most,
            taken: 0,
            end: 0,
            in_place: true,
        }
    }

    /// Whether the event is at this place: its tag at the start, right behind the last event, and its
    /// string right before the end.
    fn is_at(&self, event: Event<'_>, place: Place) -> bool {
        let has_tag = match (event, self.message.get(place.start)) {
            (Event::Close, _) => place.start == place.end,
            (_, Some(tag)) => place.start < place.end && is_tag(event, place.is_text, *tag),
            (_, None) => false,
        };
        let follows = self.taken == 0 || place.start == self.end;
        let string = string_of(event);
        let start = place.end.saturating_sub(string.len());
        has_tag && follows && self.message.get(start..place.end) == Some(string)
    }
}

/// The bytes of a string or a key, and else none.
fn string_of<'s>(event: Event<'s>) -> &'s [u8] {
    match event {
        Event::Bytes(string) => string,
        Event::Text(string) | Event::Key(string) => string.as_bytes(),
        _ => b"",
    }
}

/// Whether the event has this tag, or its string that of a text.
fn is_tag(event: Event<'_>, is_text: bool, tag: u8) -> bool {
    match event {
        Event::Null => tag == BSER_NULL,
        Event::Bool(truth) => tag == if truth { BSER_TRUE } else { BSER_FALSE },
        Event::Int(_) | Event::Rows { .. } => BSER_INT8 <= tag && tag <= BSER_INT64,
        Event::Real(_) => tag == BSER_REAL,
        Event::Bytes(_) => tag == BSER_BYTESTRING && !is_text,
        Event::Text(_) => tag == BSER_UTF8STRING && is_text,
        Event::Key(_) => {
            tag == if is_text {
                BSER_UTF8STRING
            } else {
                BSER_BYTESTRING
            }
        }
        Event::Array { .. } => tag == BSER_ARRAY,
        Event::Object { .. } => tag == BSER_OBJECT,
        Event::Template { .. } => tag == BSER_TEMPLATE,
        Event::Skip => tag == BSER_SKIP,
        Event::Close => false,
    }
}

impl Builder for Witness<'_> {
    ghost takes = { λ _ _ _ _. Unit {0} };

    ghost stopped = { λ _ _ _ _ _. Unit {0} };

    ghost stops = { true };

    ghost asks = { true };

    ghost bytes = { true };

    fn wants_bytes(&self) -> bool {
        true
    }

    fn take(&mut self, event: Event<'_>, place: Place) -> Result<(), Stop> {
        if self.taken >= self.most {
            return Err(Stop::Asked);
        }
        self.in_place = self.in_place && self.is_at(event, place);
        self.taken = self.taken.saturating_add(1);
        self.end = place.end;
        Ok(())
    }

    fn bytes_passed(&mut self, _len: usize, _place: Place) -> Result<(), Stop> {
        Ok(())
    }
}
