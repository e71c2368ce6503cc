//! Refusals in the notation.
use bser_format::errors::{Error, Message, ReadCause};
use std::alloc::{AllocError, Global};

/// The code of a refusal.
pub fn code(alloc: Global, error: &Error) -> Result<String, AllocError> {
    match error {
        Error::DeInvalidStartByte { kind, byte } => format!(in alloc; "E1 {kind} {byte}"),
        Error::DeCustom {
            msg: Message::Fixed(complaint),
        } => format!(in alloc; "C{}", 1 + *complaint as u8),
        Error::DeRecursionLimitExceeded { kind } => format!(in alloc; "E3 {kind}"),
        Error::DeEof { expected, read } => format!(in alloc; "E4 {expected} {read}"),
        Error::DeInvalidMagic { magic } => format!(in alloc; "E5 {} {}", magic[0], magic[1]),
        Error::DeReaderError { source } => format!(in alloc; "E6 {}", cause_code(source)),
        Error::OutOfMemory => String::from_str(alloc, "E11"),
        _ => String::from_str(alloc, "another refusal"),
    }
}

fn cause_code(cause: &ReadCause) -> &'static str {
    match cause {
        ReadCause::Eof => "Eof",
        ReadCause::Utf8 => "Utf8",
        ReadCause::Reader(_) => "Reader",
        ReadCause::Memory => "Memory",
        ReadCause::Failed => "Failed",
    }
}
