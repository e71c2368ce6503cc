//! Reading whole messages, with errors that are described.
ghost use Rattle.std.specs.Prelude.{◌≡◌, ◌≤◌, length, Some, IfOk, IfErr, OnOk};
ghost use Rattle.bser_deserializer.specs.State.{IsUnread};
ghost use Rattle.bser_deserializer.specs.declared.deserializer.TheConstants.{LEVELS, MOST_LEVELS};
ghost use Rattle.bser_source.specs.Window.{left};
ghost use Rattle.bser_messages.specs.Messages.{
  BeginsWith,
  HeadFirst,
  ReaderRead,
  ReaderRefused,
  Same,
  SliceRefused,
  SparesMemory,
  WholeRead,
  WholeRefused,
};
ghost use Rattle.bser_messages.specs.Descriptions.{LiesWithin, caused};

use crate::counted::CountedSource;
use crate::description::Description;
use crate::message::read_message;
use crate::progress::Progress;
use bser_deserializer::deserializer::{Deserializer, LEVELS};
use bser_format::errors::Error;
use bser_source::device::Source;
use bser_source::io_read::IoRead;
use bser_source::read::DeRead;
use bser_source::reference::LendsText;
use bser_source::slice_read::SliceRead;
use bser_types::deserialize::{Deserialize, DeserializeOwned};
use std::alloc::Global;

/// Reads a value from the message at the start of `bytes`, of at most 128 levels.
///
/// As [`from_slice`](crate::message::from_slice), with a description of the error.
pub fn from_slice<'de, T: Deserialize<&'de [u8]>>(
    alloc: Global,
    bytes: &'de [u8],
) -> Result<T, Description>
    ensures found { IfOk (caused result) (BeginsWith LEVELS T.reads T.holds bytes.now) }
    ensures refused { IfErr (caused result) (SliceRefused LEVELS T.Shape bytes.now) }
    ensures head { HeadFirst (Some bytes.now) (caused result) }
    ensures place { IfErr result (LiesWithin (length bytes.now)) }
{
    from_slice_within(alloc, LEVELS, bytes)
}

/// Reads a value from the message at the start of `bytes`, of at most `limit` levels.
///
/// As [`from_slice`], with `limit` for 128.
pub fn from_slice_within<'de, T: Deserialize<&'de [u8]>>(
    alloc: Global,
    limit: usize,
    bytes: &'de [u8],
) -> Result<T, Description>
    requires { limit ≤ MOST_LEVELS }
    ensures found { IfOk (caused result) (BeginsWith limit T.reads T.holds bytes.now) }
    ensures refused { IfErr (caused result) (SliceRefused limit T.Shape bytes.now) }
    ensures head { HeadFirst (Some bytes.now) (caused result) }
    ensures place { IfErr result (LiesWithin (length bytes.now)) }
{
    let mut from = Deserializer::unread(alloc, SliceRead::new(bytes));
    read_described(alloc, limit, &mut from, bytes.len())
}

/// Reads one message as a value, of at most `limit` levels, by a deserializer that has read nothing
/// and whose source has `len` bytes.
///
/// As [`from_slice`], or as [`from_reader`] where the source lends nothing.
pub fn read_described<R: DeRead, T: Deserialize<R::Lent>>(
    alloc: Global,
    limit: usize,
    from: &mut Deserializer<R>,
    len: usize,
) -> Result<T, Description>
where
    R::Lent: LendsText,
    requires unread { IsUnread from.old.state }
    requires start { from.old.state.source.count ≡ 0 }
    ensures found { IfOk (caused result) (WholeRead limit T.Shape from.old from.new) }
    ensures refused { IfErr (caused result) (WholeRefused limit T.Shape from.old from.new) }
    ensures memory { SparesMemory T.needs (caused result) }
    ensures head { HeadFirst (left from.old.state.source) (caused result) }
    ensures place { IfErr result (LiesWithin len) }
{
    match read_message(alloc, limit, from) {
        Ok(value) => Ok(value),
        Err(cause) => Err(Progress::of(from).describe(cause, len)),
    }
}

/// Reads a value from the reader's next message, of at most 128 levels, and leaves what follows it.
///
/// As [`from_reader`](crate::message::from_reader), with a description of the error. Its
/// place counts the bytes from where the message began.
pub fn from_reader<S: Source, T: DeserializeOwned>(
    alloc: Global,
    reader: &mut S,
) -> Result<T, Description>
    ensures found { IfOk (caused result)
        (ReaderRead LEVELS T.Shape S.Source reader.old reader.new) }
    ensures refused { IfErr (caused result)
        (ReaderRefused LEVELS T.Shape S.Source reader.old reader.new) }
    ensures kept { OnOk result (Same S.failures reader.old reader.new) }
    ensures memory { SparesMemory T.needs (caused result) }
    ensures head { HeadFirst (S.remaining reader.old) (caused result) }
{
    from_reader_within(alloc, LEVELS, reader)
}

/// Reads a value from the reader's next message, of at most `limit` levels.
///
/// As [`from_reader`], with `limit` for 128.
pub fn from_reader_within<S: Source, T: DeserializeOwned>(
    alloc: Global,
    limit: usize,
    reader: &mut S,
) -> Result<T, Description>
    requires { limit ≤ MOST_LEVELS }
    ensures found { IfOk (caused result)
        (ReaderRead limit T.Shape S.Source reader.old reader.new) }
    ensures refused { IfErr (caused result)
        (ReaderRefused limit T.Shape S.Source reader.old reader.new) }
    ensures kept { OnOk result (Same S.failures reader.old reader.new) }
    ensures memory { SparesMemory T.needs (caused result) }
    ensures head { HeadFirst (S.remaining reader.old) (caused result) }
{
    let mut from = Deserializer::unread(alloc, IoRead::new(CountedSource::new(reader)));
    let answer = read_message(alloc, limit, &mut from);
    let progress = Progress::of(&from);
    let counted = from.into_inner().into_inner();
    let given = counted.given();
    let _reader = counted.into_inner();
    match answer {
        Ok(value) => Ok(value),
        Err(cause) => Err(progress.describe(cause, given)),
    }
}
