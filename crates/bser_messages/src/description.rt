//! The description of an error.
ghost use Rattle.std.specs.Prelude.{◌≡◌, option_map};
ghost use Rattle.bser_messages.specs.Descriptions.{at_most, before, cause_of, field_of, is_early_end, is_taken, note_of, place_in, place_of};

use crate::locating::Target;
use crate::progress::Progress;
pub use bser_deserializer::note::{FieldName, Finding, Note, Wanted};
use bser_format::errors::{Complaint, Error, Kind, Message, ReadCause};
use bser_format::header::{
    BSER_ARRAY, BSER_BYTESTRING, BSER_FALSE, BSER_INT8, BSER_INT64, BSER_NULL, BSER_OBJECT,
    BSER_REAL, BSER_SKIP, BSER_TEMPLATE, BSER_TRUE, BSER_UTF8STRING, HeaderByte,
};
use std::fmt;

/// An error of reading a message, for people: the cause, the field, what was found, and the place.
///
/// It prints as one line without an end. It takes no memory.
#[derive(Debug, Drop)]
pub struct Description {
    cause: Error,
    place: usize,
    // where the body began
    start: usize,
    // how many containers the type had opened
    pub(crate) opened: usize,
    note: Note,
}

/// Describes an error with this cause, after so much progress in an input of `len` bytes. An early
/// end is at the end of the input, and nothing is behind it. A value that the type does not take
/// begins at the place, and what is malformed is as far as it.
pub(crate) fn description_of(cause: Error, progress: Progress, len: usize) -> Description
    ensures cause { cause_of result ≡ cause }
    ensures place { place_of result ≡ place_in cause progress.note progress.count len }
    ensures note { note_of result ≡ progress.note }
{
    let place = if ends_early(&cause) {
        len
    } else {
        let behind = place_before(progress.note.begun, progress.count, len);
        behind.saturating_sub(usize::from(is_taken(&cause, &progress.note)))
    };
    Description {
        cause,
        place,
        start: usize::try_from(progress.start).unwrap_or(0),
        opened: progress.opened,
        note: progress.note,
    }
}

/// Whether the input ended before what was wanted.
fn ends_early(cause: &Error) -> bool
    ensures { result ≡ is_early_end cause.now }
{
    match cause {
        Error::DeReaderError {
            source: ReadCause::Eof,
        } => true,
        _ => false,
    }
}

/// Whether the last byte taken is wrong: a skip where any value is read, of which nothing is noted.
fn is_taken(cause: &Error, note: &Note) -> bool
    ensures { result ≡ is_taken cause.now note.now }
{
    match cause {
        Error::DeInvalidStartByte {
            kind: Kind::NextItem,
            byte: BSER_SKIP,
        } => note.finding.is_none(),
        _ => false,
    }
}

/// How many bytes come before what is wrong, where it was taken whole, or else were taken; and no
/// more than `len`.
fn place_before(begun: Option<usize>, count: i64, len: usize) -> usize
    ensures { result ≡ before begun count len }
{
    match begun {
        Some(begun) => begun.min(len),
        None => place_within(count, len),
    }
}

/// So many bytes, and no more than `len`.
fn place_within(count: i64, len: usize) -> usize
    ensures { result ≡ at_most count len }
{
    usize::try_from(count).unwrap_or(len).min(len)
}

impl Description {
    /// Returns the error itself: what a call without a description answers.
    pub fn cause(&self) -> &Error
        ensures { result.now ≡ cause_of self.now }
    {
        &self.cause
    }

    /// Gives the cause alone.
    pub fn into_cause(self) -> Error
        ensures { result ≡ cause_of self }
    {
        let Description { cause, .. } = self;
        cause
    }

    /// Returns the place of the error, as a number of bytes from the start of the message.
    ///
    /// They are those before the value that the type does not take. Of an array or an object with
    /// too few parts, or without a field, they are those up to its end; with too many, those before
    /// the part that is too many, and of a field that comes twice those before its second value. Of
    /// malformed bytes they are those before the byte that may not be there, or up to the end of the
    /// number, string or body that is refused. The place of an early end is the end of the input.
    ///
    /// Of an enum's name alone, where a payload is wanted, they are those up to its end, and of an
    /// enum's object of several entries those before the first entry.
    pub fn place(&self) -> usize
        ensures { result ≡ place_of self.now }
    {
        self.place
    }

    /// Which part of the message the error is about. `failed` is how many bytes lie before the error
    /// of a message that is malformed, where this one is.
    pub(crate) fn target(&self, failed: Option<usize>) -> Target<'_> {
        match (self.note.finding, &self.cause) {
            (Some(Finding::Missing | Finding::Repeated), _) => match self.field() {
                Some(name) => Target::Field(name),
                None => Target::Last,
            },
            (Some(Finding::Stray { .. }), _) => Target::Next,
            _ if self.note.begun.is_some() => Target::Next,
            (Some(_), _) => Target::Last,
            (None, Error::DeRecursionLimitExceeded { .. }) => Target::Innermost,
            (
                None,
                Error::DeCustom {
                    msg: Message::Fixed(Complaint::TooFewItems),
                },
            ) => Target::LastWhole,
            (
                None,
                Error::DeCustom {
                    msg: Message::Fixed(Complaint::ItemsLeft),
                },
            ) => Target::Next,
            (None, _) if failed == Some(self.place) => Target::Innermost,
            (None, _) => Target::Last,
        }
    }

    /// Returns what was found, where more is known than the cause says.
    pub fn finding(&self) -> Option<Finding>
        ensures { result ≡ (note_of self.now).finding }
    {
        self.note.finding
    }

    /// Returns the innermost field of a struct whose value is wrong, or that is missing or
    /// repeated. None where no field is to blame, as for an early end.
    pub fn field(&self) -> Option<&str>
        ensures { option_map (λ name. name.now) result ≡ field_of self.now }
    {
        match &self.cause {
            Error::DeReaderError {
                source: ReadCause::Utf8,
            }
            | Error::DeCustom { .. }
            | Error::DeInvalidStartByte { .. }
            | Error::DeRecursionLimitExceeded { .. } => match &self.note.field {
                Some(name) => Some(name.as_str()),
                None => None,
            },
            _ => None,
        }
    }
}

impl fmt::Display for Description {
    fn fmt<W: fmt::Write>(&self, f: &mut fmt::Formatter<W>) -> fmt::Result {
        if let Some(name) = self.field() {
            write!(f, "field \"{name}\": ")?;
        }
        write_cause(self, f)?;
        write!(f, ", at byte {}", self.place)
    }
}

/// Writes the cause in plain words.
fn write_cause<W: fmt::Write>(refusal: &Description, f: &mut fmt::Formatter<W>) -> fmt::Result {
    match &refusal.cause {
        Error::DeInvalidStartByte { kind, byte } => {
            write_byte(f, *byte)?;
            write!(f, " where {} is wanted", place_name(kind))
        }
        Error::DeCustom { msg } => write_message(f, msg, refusal.note.finding),
        Error::DeRecursionLimitExceeded { kind } => {
            write!(f, "recursion limit, {kind} nests too deep")
        }
        Error::DeEof { expected, read } => write!(
            f,
            "{} bytes announced, {} there",
            expected.saturating_sub(refusal.start),
            read.saturating_sub(refusal.start)
        ),
        Error::DeInvalidMagic { magic } => write_magic(f, magic),
        Error::DeTooLong { announced, most } => {
            write!(
                f,
                "{announced} bytes announced, and at most {most} are taken"
            )
        }
        Error::DeReaderError { source } => write_read_cause(f, source),
        Error::SerCustom { msg } => write_message(f, msg, None),
        Error::SerNeedSize { kind } => write!(f, "{kind} of unknown size"),
        Error::SerU64TooBig { v } => write!(f, "integer too big: {v}"),
        Error::Io(fault) => write!(f, "writer fault: {fault}"),
        Error::OutOfMemory => f.write_str("out of memory"),
    }
}

/// Writes why the source failed.
fn write_read_cause<W: fmt::Write>(f: &mut fmt::Formatter<W>, cause: &ReadCause) -> fmt::Result {
    match cause {
        ReadCause::Reader(fault) => write!(f, "reader fault: {fault}"),
        _ => write!(f, "{cause}"),
    }
}

/// Writes what was found, or else the message.
fn write_message<W: fmt::Write>(
    f: &mut fmt::Formatter<W>,
    message: &Message,
    finding: Option<Finding>,
) -> fmt::Result {
    match (message, finding) {
        (Message::Fixed(_), Some(finding)) => write_finding(f, finding),
        _ => write!(f, "{message}"),
    }
}

/// Writes what was found.
fn write_finding<W: fmt::Write>(f: &mut fmt::Formatter<W>, finding: Finding) -> fmt::Result {
    match finding {
        Finding::Stray { wanted, tag } => write!(
            f,
            "wrong type: {} where {} is wanted",
            found_name(tag),
            wanted_name(wanted)
        ),
        Finding::OutOfRange(number) => write!(f, "out of range: {number}"),
        Finding::Missing => f.write_str("missing"),
        Finding::Repeated => f.write_str("repeated"),
    }
}

/// Writes a byte by the tag that it is, or as an unknown one.
fn write_byte<W: fmt::Write>(f: &mut fmt::Formatter<W>, byte: u8) -> fmt::Result {
    if byte <= BSER_UTF8STRING {
        write!(f, "{}", HeaderByte(byte))
    } else {
        write!(f, "unknown byte {byte:#04x}")
    }
}

/// Writes what begins with other bytes than a message of this version does.
fn write_magic<W: fmt::Write>(f: &mut fmt::Formatter<W>, magic: &[u8; 2]) -> fmt::Result {
    if magic[0] == 0 && magic[1] == 1 {
        return f.write_str("BSER version 1, and version 2 is wanted (bser-v2)");
    }
    write!(
        f,
        "not BSER: a message begins with 00 02, and this with {:02x} {:02x}",
        magic[0], magic[1]
    )
}

/// What belongs in a place of this kind.
fn place_name(kind: &Kind) -> &'static str {
    match kind {
        Kind::NextItem => "a value",
        Kind::Integer => "a length or a count",
        Kind::MapKey => "an object's key",
        Kind::TemplateKeys => "a template's list of keys",
        Kind::TemplateKey => "a template's key",
        Kind::Array => "an array",
        Kind::Object => "an object",
        Kind::Template => "a template",
        Kind::Enum(_) => "an enum's variant",
        Kind::ObjectLikeEnum(_) => "the name of an enum's variant",
    }
}

/// The value of this tag.
fn found_name(tag: u8) -> &'static str {
    match tag {
        BSER_ARRAY => "an array",
        BSER_OBJECT => "an object",
        BSER_BYTESTRING => "a byte string",
        BSER_INT8..=BSER_INT64 => "an integer",
        BSER_REAL => "a real",
        BSER_TRUE => "true",
        BSER_FALSE => "false",
        BSER_NULL => "null",
        BSER_TEMPLATE => "a template",
        BSER_SKIP => "null",
        BSER_UTF8STRING => "a text",
        _ => "an unknown value",
    }
}

/// The value that is wanted.
fn wanted_name(wanted: Wanted) -> &'static str {
    match wanted {
        Wanted::Value => "a value",
        Wanted::Integer => "an integer",
        Wanted::Truth => "true or false",
        Wanted::Real => "a real",
        Wanted::Null => "null",
        Wanted::Text => "a text or a byte string",
        Wanted::Array => "an array",
        Wanted::Object => "an object",
    }
}
