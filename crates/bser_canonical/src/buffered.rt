//! Writing a message through memory.
ghost use Rattle.std.specs.Prelude.{◌≡◌, Ok, OnOk, IfOk, IfErr};
ghost use Rattle.bser_ser.specs.Ends.{CanBeWritten, text_of};
ghost use Rattle.bser_ser.specs.Message.{front_of, message_of, Wrote, Missed};
ghost use Rattle.bser_canonical.specs.Buffered.{HasShortBody};

use crate::room::Room;
use bser_format::errors::{Complaint, Error, Result};
use bser_ser::message::serialize_to;
use bser_ser::{InMemory, Serialize, Serializer, push_all};
use bser_source::device::Sink;
use std::alloc::Global;

/// Writes one message with the value as its body, as [`serialize_to`] does, but may take memory of at
/// most `most` bytes for it.
///
/// Where its body has at most so many bytes, and there is memory for it, the message is made first,
/// and the value is gone through once. Else what was made of it is dropped, and the value is measured
/// and then written. The errors are those of [`serialize_to`].
#[tactic(auto, using(crate::proofs::Sent::wrote))]
pub(crate) fn serialize_buffered<W: Sink, T: Serialize>(
    alloc: Global,
    writer: &mut W,
    value: &T,
    most: usize,
) -> Result<()>
    ensures ok { OnOk result (Wrote W.Sink (T.meaning value.now) writer.old writer.new) }
    ensures err { IfErr result (Missed W.Sink (T.meaning value.now) writer.old writer.new) }
{
    let Ok(message) = short_message(alloc, value, most) else {
        return serialize_to(alloc, writer, value);
    };
    match push_all(writer, &message) {
        Ok(()) => Ok(()),
        Err(fault) => Err(Error::Io(fault)),
    }
}

/// The value's message, where its body has at most `most` bytes, and there is memory for it.
#[tactic(auto, using(crate::proofs::Sent::made))]
fn short_message<T: Serialize>(alloc: Global, value: &T, most: usize) -> Result<Vec<u8>>
    ensures ok { IfOk result (λ message. message_of (T.meaning value.now) ≡ Ok message.items) }
    ensures writable { OnOk result (CanBeWritten (T.meaning value.now)) }
    ensures short { OnOk result (HasShortBody (T.meaning value.now)) }
{
    let mut message = short_body(alloc, value, most)?;
    let Ok(len) = i64::try_from(message.len()) else {
        return Err(Error::ser_custom(Complaint::CountTooGreat));
    };
    let header = header_of(alloc, len)?;
    message.extend_from_slice(&header)?;
    message.rotate_right(header.len());
    Ok(message)
}

/// The value's body, where it has at most `most` bytes, and there is memory for it.
fn short_body<T: Serialize>(alloc: Global, value: &T, most: usize) -> Result<Vec<u8>>
    ensures ok { IfOk result (λ body. text_of (T.meaning value.now) ≡ Ok body.items) }
    ensures writable { OnOk result (CanBeWritten (T.meaning value.now)) }
{
    let mut out = Serializer::new(alloc, Room::new(Vec::new(alloc), most));
    value.serialize(alloc, &mut out)?;
    Ok(out.finish()?.into_inner())
}

/// The header of a body of this length.
fn header_of(alloc: Global, len: i64) -> Result<Vec<u8>>
    ensures { IfOk result (λ header. header.items ≡ front_of len) }
{
    let mut out = Serializer::new(alloc, InMemory::new(Vec::new(alloc)));
    out.put_header(len)?;
    Ok(out.finish()?.into_inner())
}
