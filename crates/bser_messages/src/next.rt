//! The next message of a reader, or the end of its stream.
ghost use Rattle.std.specs.Prelude.{◌≡◌, ◌≤◌, IfOk, IfErr, OnOk};
ghost use Rattle.bser_deserializer.specs.declared.deserializer.TheConstants.{MOST_LEVELS};
ghost use Rattle.bser_source.specs.Reader.{io_reader};
ghost use Rattle.bser_deserializer.specs.State.{IsUnread};
ghost use Rattle.bser_messages.specs.Limited.{LimitedReaderRead, LimitedReaderRefused, usual_limits};
ghost use Rattle.bser_messages.specs.Messages.{HeadFirst, Same, SparesMemory};
ghost use Rattle.bser_messages.specs.Streams.{IsFresh, NextRead, NextRefused, SourceRead, SourceRefused};

use crate::limited::read_limited;
use crate::limits::Limits;
use bser_bunser::by_reference::ByReference;
use bser_deserializer::deserializer::Deserializer;
use bser_format::errors::{Error, ReadCause, Result};
use bser_source::device::Source;
use bser_source::io_read::IoRead;
use bser_source::read::DeRead;
use bser_source::reference::NoLoan;
use bser_types::deserialize::DeserializeOwned;
use std::alloc::Global;

/// Reads a value from the reader's next message, of at most 128 levels, or answers `None` where no
/// byte is left.
///
/// A reader that ends inside a message is [`ReadCause::Eof`]. All else is as in
/// [`from_reader`](crate::message::from_reader).
pub fn next_message<S: Source, T: DeserializeOwned>(
    alloc: Global,
    reader: &mut S,
) -> Result<Option<T>>
    ensures found { IfOk result
        (NextRead usual_limits T.Shape S.Source reader.old reader.new) }
    ensures refused { IfErr result
        (NextRefused usual_limits T.Shape S.Source reader.old reader.new) }
    ensures kept { OnOk result (Same S.failures reader.old reader.new) }
    ensures memory { SparesMemory T.needs result }
    ensures head { HeadFirst (S.remaining reader.old) result }
{
    next_message_limited(alloc, Limits::new(), reader)
}

/// Reads a value from the reader's next message, within these limits, or answers `None` where no
/// byte is left.
///
/// As [`next_message`], with one error more: a header that announces a body of more than
/// `limits.bytes` bytes is [`Error::DeTooLong`]. Then the header was taken, and no byte of the
/// body.
pub fn next_message_limited<S: Source, T: DeserializeOwned>(
    alloc: Global,
    limits: Limits,
    reader: &mut S,
) -> Result<Option<T>>
    requires { limits.levels ≤ MOST_LEVELS }
    ensures found { IfOk result (NextRead limits T.Shape S.Source reader.old reader.new) }
    ensures refused { IfErr result (NextRefused limits T.Shape S.Source reader.old reader.new) }
    ensures kept { OnOk result (Same S.failures reader.old reader.new) }
    ensures memory { SparesMemory T.needs result }
    ensures head { HeadFirst (S.remaining reader.old) result }
{
    let mut from = Deserializer::unread(alloc, IoRead::new(reader));
    let answer = read_next(alloc, limits, &mut from);
    let _reader = from.into_inner().into_inner();
    answer
}

/// Reads a value from the next message of the reader below this source, within these limits, or
/// answers `None` where no byte is left. What the source has buffered is lost.
pub(crate) fn restarted_message<S: Source, T: DeserializeOwned>(
    alloc: Global,
    limits: Limits,
    read: &mut IoRead<S>,
) -> Result<Option<T>>
    ensures found { IfOk result (NextRead limits T.Shape S.Source
        (io_reader read.old) (io_reader read.new)) }
    ensures refused { IfErr result (NextRefused limits T.Shape S.Source
        (io_reader read.old) (io_reader read.new)) }
    ensures kept { OnOk result (Same S.failures (io_reader read.old) (io_reader read.new)) }
    ensures memory { SparesMemory T.needs result }
    ensures head { HeadFirst (S.remaining (io_reader read.old)) result }
{
    read.restart();
    let mut from = Deserializer::unread(alloc, ByReference::new(read));
    let answer = read_next(alloc, limits, &mut from);
    let _read = from.into_inner().into_inner();
    answer
}

/// Reads a value from the next message of a reader, within these limits, by a deserializer that has
/// read nothing, or answers `None` where no byte is left.
pub(crate) fn read_next<R: DeRead<Lent = NoLoan>, T: DeserializeOwned>(
    alloc: Global,
    limits: Limits,
    from: &mut Deserializer<R>,
) -> Result<Option<T>>
    requires unread { IsUnread from.old.state }
    requires fresh { IsFresh from.old.state.source }
    ensures found { IfOk result (SourceRead limits T.Shape from.old from.new) }
    ensures refused { IfErr result (SourceRefused limits T.Shape from.old from.new) }
    ensures kept { OnOk result (from.new.state.source.failures ≡ from.old.state.source.failures) }
    ensures through { from.new.state.source.through ≡ from.old.state.source.through }
    ensures memory { SparesMemory T.needs result }
    ensures head { HeadFirst from.old.state.source.beyond result }
{
    match from.peek() {
        Ok(_first) => match read_limited(alloc, limits, from) {
            Ok(value) => Ok(Some(value)),
            Err(error) => Err(error),
        },
        Err(
            Error::DeReaderError {
                source: ReadCause::Eof,
            },
        ) => Ok(None),
        Err(error) => Err(error),
    }
}

/// Reads a value from the reader's next message, within these limits, and leaves what follows it.
///
/// As [`from_reader_within`](crate::message::from_reader_within), with one error more: a
/// header that announces a body of more than `limits.bytes` bytes is [`Error::DeTooLong`]. Then the
/// header was taken, and no byte of the body.
pub fn from_reader_limited<S: Source, T: DeserializeOwned>(
    alloc: Global,
    limits: Limits,
    reader: &mut S,
) -> Result<T>
    requires { limits.levels ≤ MOST_LEVELS }
    ensures found { IfOk result
        (LimitedReaderRead limits T.Shape S.Source reader.old reader.new) }
    ensures refused { IfErr result
        (LimitedReaderRefused limits T.Shape S.Source reader.old reader.new) }
    ensures kept { OnOk result (Same S.failures reader.old reader.new) }
    ensures memory { SparesMemory T.needs result }
    ensures head { HeadFirst (S.remaining reader.old) result }
{
    let mut from = Deserializer::unread(alloc, IoRead::new(reader));
    let answer = read_limited(alloc, limits, &mut from);
    let _reader = from.into_inner().into_inner();
    answer
}
