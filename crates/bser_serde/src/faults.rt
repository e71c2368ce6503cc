//! Errors of a walk, each with where it is.
use crate::misfit::Reason;
use bser_bunser::prefix::{Prefix, int_prefix};
use bser_format::header::{
    BSER_ARRAY, BSER_BYTESTRING, BSER_FALSE, BSER_INT8, BSER_INT16, BSER_INT32, BSER_INT64,
    BSER_OBJECT, BSER_REAL, BSER_TEMPLATE, BSER_TRUE, BSER_UTF8STRING,
};
use bser_messages::path::{Spot, Whole};
use bser_serde_format::naming::{Naming, Wrong};
use bser_serde_format::walk::{Ahead, StepError, Walk};
use serde_bser::describe::{FieldName, Wanted};
use serde_bser::document::Kind;
use std::alloc::Global;

/// What the type does not read, and where it is.
#[derive(Drop)]
pub(crate) struct Unread {
    pub(crate) reason: Reason,
    pub(crate) spot: Spot,
}

/// Why the message is not read. It is small, since each step answers with one or without.
#[derive(Drop)]
pub(crate) enum FormatError {
    Misfit(Box<Unread>),
    Memory,
}

/// What was read last.
#[derive(Clone, Copy, Drop)]
enum LastRead {
    /// What begins behind so many bytes.
    Part(usize),
    /// Nothing, where null is wanted and something else begins behind so many bytes.
    NoNull(usize),
    /// A container of so many levels, as a whole.
    Container(usize),
}

/// Names what a type does not read of a well-formed message, and where it is.
#[derive(Drop)]
pub(crate) struct Named<'m> {
    alloc: Global,
    message: &'m [u8],
    last: LastRead,
}

impl<'m> Named<'m> {
    /// Before the body of this message, which begins behind so many bytes.
    pub(crate) fn new(alloc: Global, message: &'m [u8], start: usize) -> Named<'m> {
        Named {
            alloc,
            message,
            last: LastRead::Part(start),
        }
    }

    /// The place before so many bytes.
    fn place(&self, left: usize) -> usize {
        self.message.len().saturating_sub(left)
    }

    /// The error for this reason, behind so many bytes.
    fn at(&self, place: usize, depth: usize, whole: Whole, reason: Reason) -> FormatError {
        let spot = Spot {
            place,
            depth,
            whole,
        };
        match Box::new(self.alloc, Unread { reason, spot }) {
            Ok(unread) => FormatError::Misfit(unread),
            Err(_) => FormatError::Memory,
        }
    }

    /// An error about what comes next.
    fn ahead(&self, ahead: Ahead, reason: Reason) -> FormatError {
        let whole = if ahead.is_row { Whole::Next } else { Whole::No };
        self.at(self.place(ahead.left), ahead.depth, whole, reason)
    }

    /// Another kind of value is wanted than the one that comes.
    fn stray(&self, ahead: Ahead, wanted: Wanted) -> FormatError {
        if ahead.left == 0 && !ahead.is_row {
            return FormatError::Memory;
        }
        let found = kind_of(ahead.tag);
        self.ahead(ahead, Reason::WrongType { wanted, found })
    }

    /// An error about what was read last. Where nothing was read since the walk went back, it is
    /// about what comes next.
    fn behind(&self, ahead: Ahead, reason: Reason) -> FormatError {
        let here = self.place(ahead.left);
        match self.last {
            LastRead::Container(levels) => {
                let depth = ahead.depth.saturating_add(levels);
                self.at(here, depth, Whole::Last, reason)
            }
            LastRead::Part(place) | LastRead::NoNull(place) if place != here => {
                self.at(place, ahead.depth, Whole::No, reason)
            }
            _ => self.ahead(ahead, reason),
        }
    }

    /// The value that was read last is none that the type holds.
    fn unheld(&self, ahead: Ahead) -> FormatError {
        if let LastRead::NoNull(_) = self.last {
            return self.stray(ahead, Wanted::Null);
        }
        let last = match self.last {
            LastRead::Part(place) if !ahead.is_row => self.message.get(place..).unwrap_or(&[]),
            _ => &[],
        };
        let reason = match int_prefix(last) {
            Prefix::Found { value, len: _ } => Reason::OutOfRange(value),
            _ if last.first() == Some(&BSER_BYTESTRING) => Reason::NotUtf8,
            _ => Reason::Invalid,
        };
        self.behind(ahead, reason)
    }

    /// The error where a step is not made.
    fn unmade(&self, ahead: Ahead, error: StepError) -> FormatError {
        match error {
            StepError::Truth => self.stray(ahead, Wanted::Truth),
            StepError::Integer => self.stray(ahead, Wanted::Integer),
            StepError::Real => self.stray(ahead, Wanted::Real),
            StepError::Text => self.stray(ahead, Wanted::Text),
            StepError::Array => self.stray(ahead, Wanted::Array),
            StepError::Object => self.stray(ahead, Wanted::Object),
            StepError::NotUtf8 => self.ahead(ahead, Reason::NotUtf8),
            StepError::Malformed => self.ahead(ahead, Reason::Invalid),
            StepError::Memory => FormatError::Memory,
        }
    }
}

impl<'m> Naming for Named<'m> {
    type Error = FormatError;

    const TAKES_MAPS: bool = true;

    #[inline(always)]
    fn passed(&mut self, left: usize) {
        self.last = LastRead::Part(self.place(left));
    }

    #[inline(always)]
    fn not_null(&mut self, left: usize) {
        self.last = LastRead::NoNull(self.place(left));
    }

    #[inline(always)]
    fn ended(&mut self, levels: usize) {
        self.last = LastRead::Container(levels);
    }

    #[cold]
    #[inline(never)]
    fn error(&self, walk: &Walk<'_>, wrong: Wrong<'_>) -> FormatError {
        let ahead = walk.ahead();
        match wrong {
            Wrong::Step(error) => self.unmade(ahead, error),
            // The object was closed, and the row was not.
            Wrong::Missing(name) => {
                let depth = ahead.depth.saturating_add(usize::from(!ahead.is_between));
                let reason = Reason::Missing(FieldName::new(name));
                self.at(self.place(ahead.left), depth, Whole::Last, reason)
            }
            Wrong::Repeated(name) => self.ahead(ahead, Reason::Repeated(FieldName::new(name))),
            Wrong::UnknownKey => self.ahead(ahead, Reason::UnknownField),
            Wrong::UnknownVariant => self.behind(ahead, Reason::UnknownVariant),
            Wrong::WrongLength => self.behind(ahead, Reason::WrongLength),
            Wrong::Unheld => self.unheld(ahead),
            Wrong::Invalid => self.behind(ahead, Reason::Invalid),
            Wrong::Custom(text) => self.behind(ahead, Reason::Custom(FieldName::new(text))),
        }
    }

    fn is_memory(&self, error: &FormatError) -> bool {
        matches!(error, FormatError::Memory)
    }
}

/// What kind of value has this tag.
fn kind_of(tag: u8) -> Kind {
    match tag {
        BSER_TRUE | BSER_FALSE => Kind::Bool,
        BSER_INT8 | BSER_INT16 | BSER_INT32 | BSER_INT64 => Kind::Integer,
        BSER_REAL => Kind::Real,
        BSER_BYTESTRING => Kind::Bytes,
        BSER_UTF8STRING => Kind::Text,
        BSER_ARRAY | BSER_TEMPLATE => Kind::Array,
        BSER_OBJECT => Kind::Object,
        _ => Kind::Null,
    }
}
