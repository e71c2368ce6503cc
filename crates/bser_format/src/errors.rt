//! The errors of reading and of writing, with their texts.
ghost use Rattle.std.specs.Prelude.{◌≡◌, ◌≢◌, ◌≤◌, ◌++◌, List, ℕ, length, alloc_error};
ghost use Rattle.bser_format.specs.Errors.{error_of};
ghost use Rattle.bser_format.specs.declared.errors.Error.TheVariants.{OutOfMemory, Io};

mod name;

pub use crate::errors::name::EnumName;
use crate::header::HeaderByte;
use std::alloc::{AllocError, AllocFailed};
use std::{fmt, io};
use thiserror::Error;

/// The result of reading or of writing.
pub type Result<T> = std::result::Result<T, Error>;

/// What was found where another byte was wanted, or what nests too deep.
///
/// An enum's name is kept up to [`EnumName::CAPACITY`] bytes, so that an error takes no memory.
#[derive(Debug, Clone, Copy, PartialEq, Eq)]
pub enum Kind {
    /// A value: an unknown tag, or a skip outside a template's field.
    NextItem,
    /// A length, a count or the length of a message.
    Integer,
    /// An object's key.
    MapKey,
    /// A template's list of keys.
    TemplateKeys,
    /// One of a template's keys.
    TemplateKey,
    /// An array, or a template's list of keys.
    Array,
    /// An object.
    Object,
    /// A template.
    Template,
    /// An enum of this name.
    Enum(EnumName),
    /// An enum of this name that is spelled as an object.
    ObjectLikeEnum(EnumName),
}

impl fmt::Display for Kind {
    fn fmt<W: fmt::Write>(&self, f: &mut fmt::Formatter<W>) -> fmt::Result {
        match self {
            Kind::NextItem => f.write_str("next item"),
            Kind::Integer => f.write_str("integer"),
            Kind::MapKey => f.write_str("map key"),
            Kind::TemplateKeys => f.write_str("template keys"),
            Kind::TemplateKey => f.write_str("template key"),
            Kind::Array => f.write_str("array"),
            Kind::Object => f.write_str("object"),
            Kind::Template => f.write_str("template"),
            Kind::Enum(name) => write!(f, "enum '{name}'"),
            Kind::ObjectLikeEnum(name) => write!(f, "object-like enum '{name}'"),
        }
    }
}

/// What is wrong with the bytes, with a value or with the order of the calls.
#[derive(Debug, Clone, Copy, PartialEq, Eq)]
pub enum Complaint {
    /// A length below 0.
    NegativeLength,
    /// A count below 0.
    NegativeCount,
    /// A container is closed, or a tuple is full, and items are left.
    ItemsLeft,
    /// An item is wanted, and none is left.
    TooFewItems,
    /// A node of another type.
    WrongType,
    /// An integer that the type does not hold.
    IntegerOutOfRange,
    /// A template that has rows and no keys.
    RowsWithoutKeys,
    /// A type that borrows its bytes from the input, over a source that copies them.
    BorrowedFromCopying,
    /// A name that no variant has.
    UnknownVariant,
    /// An enum spelled as an object that has no entry, or more than one.
    EnumObjectEntries,
    /// A container that was not closed, or a value that was not read.
    ValueOpen,
    /// A length or a count above `i64::MAX`.
    CountTooGreat,
}

impl fmt::Display for Complaint {
    fn fmt<W: fmt::Write>(&self, f: &mut fmt::Formatter<W>) -> fmt::Result {
        f.write_str(match self {
            Complaint::NegativeLength => "negative length",
            Complaint::NegativeCount => "negative count",
            Complaint::ItemsLeft => "items left",
            Complaint::TooFewItems => "too few items",
            Complaint::WrongType => "wrong type",
            Complaint::IntegerOutOfRange => "integer out of range",
            Complaint::RowsWithoutKeys => "rows without keys",
            Complaint::BorrowedFromCopying => "borrowed value from a copying source",
            Complaint::UnknownVariant => "unknown variant",
            Complaint::EnumObjectEntries => "enum object must have one entry",
            Complaint::ValueOpen => "value still open",
            Complaint::CountTooGreat => "count too great",
        })
    }
}

/// A message: one of the fixed ones, or a text that a type of the user made.
#[derive(Debug, Drop)]
pub enum Message {
    /// One of the fixed messages.
    Fixed(Complaint),
    /// A text of its own.
    Made(String),
}

impl fmt::Display for Message {
    fn fmt<W: fmt::Write>(&self, f: &mut fmt::Formatter<W>) -> fmt::Result {
        match self {
            Message::Fixed(complaint) => write!(f, "{complaint}"),
            Message::Made(text) => write!(f, "{text}"),
        }
    }
}

/// The collection whose size was not given to a serializer.
#[derive(Debug, Clone, Copy, PartialEq, Eq)]
pub enum Collection {
    /// An array.
    Sequence,
    /// An object.
    Map,
}

impl fmt::Display for Collection {
    fn fmt<W: fmt::Write>(&self, f: &mut fmt::Formatter<W>) -> fmt::Result {
        f.write_str(match self {
            Collection::Sequence => "sequence",
            Collection::Map => "map",
        })
    }
}

/// Why a byte source failed.
#[derive(Debug, Drop, Error)]
pub enum ReadCause {
    /// Fewer bytes are left than the call wants.
    #[error("end of input")]
    Eof,
    /// The bytes of a text are not UTF-8.
    #[error("invalid UTF-8")]
    Utf8,
    /// The reader answered an error, an interruption too.
    #[error("reader fault")]
    Reader(io::Error),
    /// The scratch could not grow.
    #[error("out of memory")]
    Memory,
    /// An earlier call failed, or the count of bytes would overflow.
    #[error("failed before")]
    Failed,
}

/// Why reading or writing failed.
#[derive(Debug, Drop, Error)]
pub enum Error {
    /// Reading: this byte cannot begin a thing of this kind.
    #[error("while deserializing BSER: invalid start byte for {kind}: {shown}", shown = HeaderByte(*.byte))]
    DeInvalidStartByte { kind: Kind, byte: u8 },
    /// Reading: the message does not fit the format, the type or the order of the calls.
    #[error("error while deserializing BSER: {msg}")]
    DeCustom { msg: Message },
    /// Reading: a thing of this kind nests deeper than the limit.
    #[error("while deserializing BSER: recursion limit exceeded with {kind}")]
    DeRecursionLimitExceeded { kind: Kind },
    /// Reading: the body did not end where its announced length says.
    #[error("Expected {expected} bytes read, but only read {read} bytes")]
    DeEof { expected: usize, read: usize },
    /// Reading: the message does not begin with 00 02.
    #[error("Invalid magic header: {magic:?}")]
    DeInvalidMagic { magic: [u8; 2] },
    /// Reading: the header announces a longer body than the caller takes. Only the calls with a
    /// limit of bytes answer it.
    #[error("while deserializing BSER: body of {announced} bytes, and at most {most} are taken")]
    DeTooLong { announced: usize, most: usize },
    /// Reading: the byte source failed.
    #[error("reader error while deserializing")]
    DeReaderError { source: ReadCause },
    /// Writing: a value cannot be written.
    #[error("error while serializing BSER: {msg}")]
    SerCustom { msg: Message },
    /// Writing: the size of a collection was not given.
    #[error("while serializing BSER: need size of {kind}")]
    SerNeedSize { kind: Collection },
    /// Writing: an integer above `i64::MAX`.
    #[error("while serializing BSER: integer too big: {v}")]
    SerU64TooBig { v: u64 },
    /// The writer answered an error, or took nothing.
    #[error("IO Error")]
    Io(io::Error),
    /// An allocation failed.
    #[error("out of memory")]
    OutOfMemory,
}

impl From<AllocError> for Error {
    ghost from_gives = { λ _ e. e ≡ OutOfMemory };

    fn from(_error: AllocError) -> Self {
        Error::OutOfMemory
    }
}

impl<T: Drop> From<AllocFailed<T>> for Error {
    ghost from_gives = { λ _ e. e ≡ OutOfMemory };

    fn from(_error: AllocFailed<T>) -> Self {
        Error::OutOfMemory
    }
}

impl From<io::Error> for Error {
    ghost from_gives = { λ x e. e ≡ Io x };

    fn from(error: io::Error) -> Self {
        Error::Io(error)
    }
}

impl From<ReadCause> for Error {
    ghost from_gives = { λ c e. e ≡ error_of c };

    fn from(cause: ReadCause) -> Self {
        Error::de_reader_error(cause)
    }
}

impl Error {
    /// Returns the error for a byte source's cause: out of memory is [`Error::OutOfMemory`], and
    /// each other cause is inside [`Error::DeReaderError`].
    pub fn de_reader_error(cause: ReadCause) -> Self
        ensures { result ≡ error_of cause }
    {
        match cause {
            ReadCause::Memory => Error::OutOfMemory,
            other => Error::DeReaderError { source: other },
        }
    }

    /// Returns the error of reading with a fixed message.
    pub fn de_custom(complaint: Complaint) -> Self
        ensures { result ≡ Error.DeCustom (Message.Fixed complaint) }
    {
        Error::DeCustom {
            msg: Message::Fixed(complaint),
        }
    }

    /// Returns the error of writing with a fixed message.
    pub fn ser_custom(complaint: Complaint) -> Self
        ensures { result ≡ Error.SerCustom (Message.Fixed complaint) }
    {
        Error::SerCustom {
            msg: Message::Fixed(complaint),
        }
    }
}
