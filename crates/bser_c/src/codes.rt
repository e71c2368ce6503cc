//! A number for each error.
//!
//! The numbers below 16 are those of a call itself. A number that was given never changes.
ghost use Rattle.std.specs.Prelude.{◌≡◌};
ghost use Rattle.bser_c.specs.Codes.{byte_of, code_of, code_of_cause, code_of_complaint, code_of_kind, code_of_message};

use bser_format::errors::{Complaint, Error, Kind, Message, ReadCause};

/// The call did what it is for.
pub const DONE: u32 = 0;
/// The head of the message is not whole yet.
pub const NOT_WHOLE: u32 = 1;
/// There is no room for what is written.
pub const TOO_SMALL: u32 = 2;
/// An allocation failed.
pub const NO_MEMORY: u32 = 3;
/// The words are no tape.
pub const TAPE_INVALID: u32 = 4;
/// The library contradicts itself. No call is known to answer this.
pub const CONTRADICTION: u32 = 5;

/// Returns the number of an error.
pub fn code(error: &Error) -> u32
    ensures { result ≡ code_of error.now }
{
    match error {
        Error::DeInvalidStartByte { kind, byte: _ } => kind_code(kind),
        Error::DeCustom { msg } => message_code(msg),
        Error::DeRecursionLimitExceeded { kind: _ } => 52,
        Error::DeEof {
            expected: _,
            read: _,
        } => 53,
        Error::DeInvalidMagic { magic: _ } => 54,
        Error::DeTooLong {
            announced: _,
            most: _,
        } => 55,
        Error::DeReaderError { source } => cause_code(source),
        Error::SerCustom { msg } => message_code(msg),
        Error::SerNeedSize { kind: _ } => 56,
        Error::SerU64TooBig { v: _ } => 57,
        Error::Io(_) => 58,
        Error::OutOfMemory => NO_MEMORY,
    }
}

/// Returns the byte that an error is about, and 0 where it is about none.
pub fn byte(error: &Error) -> u8
    ensures { result ≡ byte_of error.now }
{
    match error {
        Error::DeInvalidStartByte { kind: _, byte } => *byte,
        _ => 0,
    }
}

/// The number of what was found where another byte is wanted.
fn kind_code(kind: &Kind) -> u32
    ensures { result ≡ code_of_kind kind.now }
{
    match kind {
        Kind::NextItem => 16,
        Kind::Integer => 17,
        Kind::MapKey => 18,
        Kind::TemplateKeys => 19,
        Kind::TemplateKey => 20,
        Kind::Array => 21,
        Kind::Object => 22,
        Kind::Template => 23,
        Kind::Enum(_) => 24,
        Kind::ObjectLikeEnum(_) => 25,
    }
}

/// The number of a message.
fn message_code(message: &Message) -> u32
    ensures { result ≡ code_of_message message.now }
{
    match message {
        Message::Fixed(complaint) => complaint_code(complaint),
        Message::Made(_) => 44,
    }
}

/// The number of a complaint.
fn complaint_code(complaint: &Complaint) -> u32
    ensures { result ≡ code_of_complaint complaint.now }
{
    match complaint {
        Complaint::NegativeLength => 32,
        Complaint::NegativeCount => 33,
        Complaint::ItemsLeft => 34,
        Complaint::TooFewItems => 35,
        Complaint::WrongType => 36,
        Complaint::IntegerOutOfRange => 37,
        Complaint::RowsWithoutKeys => 38,
        Complaint::BorrowedFromCopying => 39,
        Complaint::UnknownVariant => 40,
        Complaint::EnumObjectEntries => 41,
        Complaint::ValueOpen => 42,
        Complaint::CountTooGreat => 43,
    }
}

/// The number of the cause of a source that failed.
fn cause_code(cause: &ReadCause) -> u32
    ensures { result ≡ code_of_cause cause.now }
{
    match cause {
        ReadCause::Eof => 48,
        ReadCause::Utf8 => 49,
        ReadCause::Reader(_) => 50,
        ReadCause::Memory => NO_MEMORY,
        ReadCause::Failed => 51,
    }
}
