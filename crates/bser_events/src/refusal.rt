//! Errors of a value that no call of the reader below answers.
ghost use Rattle.std.specs.Prelude.{◌≡◌};
ghost use Rattle.bser_bunser.specs.Calls.{Closes};
ghost use Rattle.bser_events.specs.Refusal.{refusal_of};

use bser_bunser::bunser::Bunser;
use bser_bunser::refusal::Refused;
use bser_format::errors::{Complaint, Error, Kind, ReadCause};
use bser_source::read::DeRead;

/// What is wrong.
#[derive(Clone, Copy)]
pub enum Fault {
    /// A container of this kind where no level is left.
    Level(Kind),
    /// This byte where something of this kind is wanted.
    Tag(Kind, u8),
    /// Bytes that are not UTF-8.
    Text,
    /// Rows of a template that has no keys.
    Rows,
    /// No memory for what is reported.
    Memory,
}

/// Fails a value for this.
///
/// The error has some hundred bytes: it is made here, so that no function has room for it where
/// all goes well.
#[cold]
#[inline(never)]
pub fn refuse_with<R: DeRead>(bunser: &mut Bunser<R>, fault: Fault) -> Refused
    ensures reason { bunser.new.refusal ≡ refusal_of fault }
    ensures state { Closes bunser.old bunser.new }
{
    bunser.refuse(match fault {
        Fault::Level(kind) => Error::DeRecursionLimitExceeded { kind },
        Fault::Tag(kind, byte) => Error::DeInvalidStartByte { kind, byte },
        Fault::Text => Error::de_reader_error(ReadCause::Utf8),
        Fault::Rows => Error::de_custom(Complaint::RowsWithoutKeys),
        Fault::Memory => Error::OutOfMemory,
    })
}
