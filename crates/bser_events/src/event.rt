//! What is found in a value, in the order of reading.
ghost use Rattle.std.specs.Prelude.{◌≡◌, ◌<◌, ◌-◌, Some, slice_get};
ghost use Rattle.bser_events.specs.Kinds.{kind_of, index_of, tag_of, count_of};
ghost use Rattle.bser_events.specs.Told.{told};

use bser_format::header::{
    BSER_ARRAY, BSER_BYTESTRING, BSER_FALSE, BSER_NULL, BSER_OBJECT, BSER_REAL, BSER_SKIP,
    BSER_TEMPLATE, BSER_TRUE, BSER_UTF8STRING, integer_tag,
};

/// The place of an event: how many bytes of the source were taken before it, and up to its end.
///
/// The events of a value follow each other with no gap: the first begins where reading was, and the
/// last ends where reading is.
///
/// The place of a container is that of its head. The head of a template is its tag, the tag of its
/// keys and their count; that of its rows is their count. The end of a container has no bytes.
#[derive(Debug, Clone, Copy, PartialEq, Eq)]
pub struct Place {
    /// How many bytes were taken before its first byte.
    pub start: usize,
    /// How many bytes were taken before what follows it, at least `start`.
    pub end: usize,
    /// Whether it is a string or a key, under the tag of a text.
    pub is_text: bool,
}

impl Place {
    /// Returns how many bytes the event has.
    #[inline]
    pub fn size(self) -> usize
        ensures { result ≡ self.end - self.start }
    {
        self.end.saturating_sub(self.start)
    }
}

/// A scalar, a string, or the beginning or the end of a container.
#[derive(Clone, Copy)]
pub enum Event<'s> {
    /// Null.
    Null,
    /// A truth value.
    Bool(bool),
    /// An integer.
    Int(i64),
    /// The bits of a real.
    Real(u64),
    /// A byte string.
    Bytes(&'s [u8]),
    /// A text.
    Text(&'s str),
    /// The beginning of an array.
    Array {
        /// How many items follow.
        len: usize,
    },
    /// The beginning of an object.
    Object {
        /// How many entries follow, each a key and a value.
        len: usize,
    },
    /// A key of an object or of a template.
    Key(&'s str),
    /// The beginning of a template.
    Template {
        /// How many keys follow, and then its rows.
        len: usize,
    },
    /// The rows of a template, after its keys.
    Rows {
        /// How many rows follow, each with a field for each key.
        len: usize,
    },
    /// A missing field of a row.
    Skip,
    /// The end of a container.
    Close,
}

/// The kind of an [`Event`], without its content.
#[derive(Debug, Clone, Copy, PartialEq, Eq)]
pub enum EventKind {
    /// Null.
    Null,
    /// A truth value.
    Bool,
    /// An integer.
    Int,
    /// A real.
    Real,
    /// A byte string.
    Bytes,
    /// A text.
    Text,
    /// The beginning of an array.
    Array,
    /// The beginning of an object.
    Object,
    /// A key of an object or of a template.
    Key,
    /// The beginning of a template.
    Template,
    /// The rows of a template.
    Rows,
    /// A missing field of a row.
    Skip,
    /// The end of a container.
    Close,
}

impl EventKind {
    /// How many kinds there are.
    pub const COUNT: usize = 13;

    /// All kinds, each at its [`index`](Self::index).
    pub const ALL: [EventKind; EventKind::COUNT] = [
        EventKind::Null,
        EventKind::Bool,
        EventKind::Int,
        EventKind::Real,
        EventKind::Bytes,
        EventKind::Text,
        EventKind::Array,
        EventKind::Object,
        EventKind::Key,
        EventKind::Template,
        EventKind::Rows,
        EventKind::Skip,
        EventKind::Close,
    ];

    /// Returns the kind's place in [`Self::ALL`].
    #[inline]
    pub fn index(self) -> usize
        ensures place { result ≡ index_of self }
        ensures within { result < EventKind.COUNT }
        ensures listed { slice_get EventKind.ALL result ≡ Some self }
    {
        self as usize
    }
}

impl Event<'_> {
    /// Returns the event's kind, without its content.
    #[inline]
    pub fn kind(&self) -> EventKind
        ensures { result ≡ kind_of (told self.now) }
    {
        match self {
            Event::Null => EventKind::Null,
            Event::Bool(_) => EventKind::Bool,
            Event::Int(_) => EventKind::Int,
            Event::Real(_) => EventKind::Real,
            Event::Bytes(_) => EventKind::Bytes,
            Event::Text(_) => EventKind::Text,
            Event::Array { len: _ } => EventKind::Array,
            Event::Object { len: _ } => EventKind::Object,
            Event::Key(_) => EventKind::Key,
            Event::Template { len: _ } => EventKind::Template,
            Event::Rows { len: _ } => EventKind::Rows,
            Event::Skip => EventKind::Skip,
            Event::Close => EventKind::Close,
        }
    }

    /// Returns the tag that the event begins with, if it is at this place. An integer's tag is that
    /// of the place's size, and a key's that of a text or of a byte string. The rows of a template
    /// and the end of a container have none.
    #[inline]
    pub fn tag(&self, place: Place) -> Option<u8>
        ensures { result ≡ tag_of (told self.now) place }
    {
        match self {
            Event::Null => Some(BSER_NULL),
            Event::Bool(true) => Some(BSER_TRUE),
            Event::Bool(false) => Some(BSER_FALSE),
            Event::Int(_) => Some(integer_tag(place.size().saturating_sub(1))),
            Event::Real(_) => Some(BSER_REAL),
            Event::Bytes(_) => Some(BSER_BYTESTRING),
            Event::Text(_) => Some(BSER_UTF8STRING),
            Event::Array { len: _ } => Some(BSER_ARRAY),
            Event::Object { len: _ } => Some(BSER_OBJECT),
            Event::Key(_) if place.is_text => Some(BSER_UTF8STRING),
            Event::Key(_) => Some(BSER_BYTESTRING),
            Event::Template { len: _ } => Some(BSER_TEMPLATE),
            Event::Skip => Some(BSER_SKIP),
            Event::Rows { len: _ } | Event::Close => None,
        }
    }

    /// Returns how many bytes a string or a key has, or how many items, entries, keys or rows
    /// follow, and 0 for all else.
    #[inline]
    pub fn count(&self) -> usize
        ensures { result ≡ count_of (told self.now) }
    {
        match self {
            Event::Bytes(string) => string.len(),
            Event::Text(string) | Event::Key(string) => string.len(),
            Event::Array { len }
            | Event::Object { len }
            | Event::Template { len }
            | Event::Rows { len } => *len,
            _ => 0,
        }
    }
}
