//! Values that borrow nothing, read from a message as bytes.
ghost use Rattle.std.specs.Prelude.{◌≤◌, length, Some, IfOk, IfErr};
ghost use Rattle.bser_deserializer.specs.declared.deserializer.TheConstants.{MOST_LEVELS};
ghost use Rattle.bser_messages.specs.Messages.{BeginsWith, HeadFirst, SparesMemory};
ghost use Rattle.bser_messages.specs.Descriptions.{LiesWithin, caused};
ghost use Rattle.bser_frames.specs.Messages.{FrameRefused};

use crate::copied_read::CopiedRead;
use bser_deserializer::deserializer::Deserializer;
use bser_messages::described::read_described;
use bser_messages::description::Description;
use bser_types::deserialize::DeserializeOwned;
use std::alloc::Global;

/// Reads a value, which borrows nothing, from the message at the start of `bytes`, of at most
/// `limit` levels.
///
/// As [`from_reader_within`](bser_messages::described::from_reader_within), of a reader that gives
/// these bytes and never fails.
pub fn read_owned<T: DeserializeOwned>(
    alloc: Global,
    limit: usize,
    bytes: &[u8],
) -> Result<T, Description>
    requires { limit ≤ MOST_LEVELS }
    ensures found { IfOk (caused result) (BeginsWith limit T.reads T.holds bytes.now) }
    ensures refused { IfErr (caused result) (FrameRefused limit T.Shape bytes.now) }
    ensures memory { SparesMemory T.needs (caused result) }
    ensures head { HeadFirst (Some bytes.now) (caused result) }
    ensures place { IfErr result (LiesWithin (length bytes.now)) }
{
    let mut from = Deserializer::unread(alloc, CopiedRead::new(bytes));
    let answer = read_described(alloc, limit, &mut from, bytes.len());
    let _read = from.into_inner();
    answer
}
