//! Reading whole messages.
ghost use Rattle.std.specs.Prelude.{◌≡◌, ◌≤◌, IfOk, IfErr, OnOk, Some};
ghost use Rattle.bser_source.specs.Window.{left};
ghost use Rattle.bser_deserializer.specs.State.{IsUnread};
ghost use Rattle.bser_deserializer.specs.declared.deserializer.TheConstants.{LEVELS, MOST_LEVELS};
ghost use Rattle.bser_messages.specs.Messages.{
  BeginsWith,
  HeadFirst,
  ReaderRead,
  ReaderRefused,
  Same,
  SliceRefused,
  SparesMemory,
  WholeRead,
  WholeRefused,
};

use crate::limited::read_limited;
use crate::limits::Limits;
use bser_deserializer::deserializer::{Deserializer, LEVELS};
use bser_format::errors::Result;
use bser_source::device::Source;
use bser_source::io_read::IoRead;
use bser_source::read::DeRead;
use bser_source::reference::LendsText;
use bser_source::slice_read::SliceRead;
use bser_types::deserialize::{Deserialize, DeserializeOwned};
use std::alloc::Global;

/// Reads a value from the message at the start of `bytes`, of at most 128 levels. What follows the
/// message is ignored.
///
/// Answers a value exactly where a prefix of `bytes` is a well-formed message whose tree, templates
/// written out, the type reads as that value, unless memory runs out. Else the error is the first
/// one in the order of reading, or [`Error::OutOfMemory`]. Out of memory comes only after the
/// message's header, and of a type that takes memory.
///
/// [`Error::OutOfMemory`]: bser_format::errors::Error::OutOfMemory
pub fn from_slice<'de, T: Deserialize<&'de [u8]>>(alloc: Global, bytes: &'de [u8]) -> Result<T>
    ensures found { IfOk result (BeginsWith LEVELS T.reads T.holds bytes.now) }
    ensures refused { IfErr result (SliceRefused LEVELS T.Shape bytes.now) }
    ensures head { HeadFirst (Some bytes.now) result }
{
    from_slice_within(alloc, LEVELS, bytes)
}

/// Reads a value from the message at the start of `bytes`, of at most `limit` levels.
///
/// As [`from_slice`], with `limit` for 128.
pub fn from_slice_within<'de, T: Deserialize<&'de [u8]>>(
    alloc: Global,
    limit: usize,
    bytes: &'de [u8],
) -> Result<T>
    requires { limit ≤ MOST_LEVELS }
    ensures found { IfOk result (BeginsWith limit T.reads T.holds bytes.now) }
    ensures refused { IfErr result (SliceRefused limit T.Shape bytes.now) }
    ensures head { HeadFirst (Some bytes.now) result }
{
    let mut from = Deserializer::unread(alloc, SliceRead::new(bytes));
    read_message(alloc, limit, &mut from)
}

/// Reads a value from the reader's next message, of at most 128 levels, and leaves what follows it.
///
/// Answers a value exactly where a prefix of the bytes left is a well-formed message whose tree,
/// templates written out, the type reads as that value, unless memory runs out or the reader counts
/// an I/O error. Else the error is the first one in the order of reading, or out of memory. Out of
/// memory comes only after the message's header, and of a type that takes memory or reads bytes
/// which are copied: never of `bool`, `()` or a number. After an error nothing is said of how far
/// the reader went.
pub fn from_reader<S: Source, T: DeserializeOwned>(alloc: Global, reader: &mut S) -> Result<T>
    ensures found { IfOk result (ReaderRead LEVELS T.Shape S.Source reader.old reader.new) }
    ensures refused { IfErr result (ReaderRefused LEVELS T.Shape S.Source reader.old reader.new) }
    ensures kept { OnOk result (Same S.failures reader.old reader.new) }
    ensures memory { SparesMemory T.needs result }
    ensures head { HeadFirst (S.remaining reader.old) result }
{
    from_reader_within(alloc, LEVELS, reader)
}

/// Reads a value from the reader's next message, of at most `limit` levels.
///
/// As [`from_reader`], with `limit` for 128.
pub fn from_reader_within<S: Source, T: DeserializeOwned>(
    alloc: Global,
    limit: usize,
    reader: &mut S,
) -> Result<T>
    requires { limit ≤ MOST_LEVELS }
    ensures found { IfOk result (ReaderRead limit T.Shape S.Source reader.old reader.new) }
    ensures refused { IfErr result (ReaderRefused limit T.Shape S.Source reader.old reader.new) }
    ensures kept { OnOk result (Same S.failures reader.old reader.new) }
    ensures memory { SparesMemory T.needs result }
    ensures head { HeadFirst (S.remaining reader.old) result }
{
    let mut from = Deserializer::unread(alloc, IoRead::new(reader));
    let answer = read_message(alloc, limit, &mut from);
    let _reader = from.into_inner().into_inner();
    answer
}

/// Reads one message as a value, by a deserializer that has read nothing.
///
/// Fails as [`from_slice_within`] and [`from_reader_within`] do.
pub(crate) fn read_message<R: DeRead, T: Deserialize<R::Lent>>(
    alloc: Global,
    limit: usize,
    from: &mut Deserializer<R>,
) -> Result<T>
where
    R::Lent: LendsText,
    requires unread { IsUnread from.old.state }
    requires start { from.old.state.source.count ≡ 0 }
    ensures found { IfOk result (WholeRead limit T.Shape from.old from.new) }
    ensures refused { IfErr result (WholeRefused limit T.Shape from.old from.new) }
    ensures memory { SparesMemory T.needs result }
    ensures head { HeadFirst (left from.old.state.source) result }
{
    let limits = Limits {
        levels: limit,
        bytes: usize::MAX,
    };
    read_limited(alloc, limits, from)
}
