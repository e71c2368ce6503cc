//! Whole messages.
ghost use Rattle.std.specs.Prelude.{◌≡◌, ◌≤◌, ◌++◌, length, drop, Ok, OnOk, IfOk, IfErr};
ghost use Rattle.bser_ser.specs.Ends.{CanBeWritten, text_of};
ghost use Rattle.bser_ser.specs.declared.message.TheConstants.{SHORTEST_HEADER};
ghost use Rattle.bser_ser.specs.Message.{message_of, front_of, FollowedBy, IsBodyLength, PutsMessage, SendsMessage, IsUnmeasured, Wrote, Missed};
ghost use Rattle.bser_ser.specs.Sent.{writer_of};
ghost use Rattle.bser_ser.specs.Stopped.{TookSome};

use crate::Serialize;
use crate::integer::{LONGEST, spell};
use crate::serializer::Serializer;
use bser_format::errors::{Complaint, Error, Result};
use bser_format::header::HEADER_START;
use bser_source::count::CountWrite;
use bser_source::device::Sink;
use bser_source::memory::InMemory;
use std::alloc::{AllocError, Global};

/// The bytes of a header in front of the length: magic and capabilities.
const START: usize = HEADER_START.len();

/// The most bytes that a header takes.
const LONGEST_HEADER: usize = START + LONGEST;

/// The bytes of the shortest header.
pub const SHORTEST_HEADER: usize = 8;

/// The bytes for which a new vector has room.
const FIRST_ROOM: usize = 128;

/// Writes one message with the value as its body, to a borrowed writer.
///
/// The value is gone through twice: once to measure its body, and once to write it; the body is not
/// kept. In between the writer learns how long the message is. Where measuring fails, the writer
/// has taken nothing. Then the value has no tree, and the error is the one that its type's
/// `meaning` gives, as `SerU64TooBig` for a `u64` above `i64::MAX`; its body is longer than
/// `i64::MAX` bytes (`SerCustom` `CountTooGreat`); or memory runs out (`OutOfMemory`). Writing
/// itself fails with the writer's own error (`Io`), of kind `WriteZero` where it took nothing, or
/// with `OutOfMemory`; the writer has then taken a beginning of the message. It counts a failure
/// only for an `Io`.
pub fn serialize_to<W: Sink, T: Serialize>(alloc: Global, writer: &mut W, value: &T) -> Result<()>
    ensures ok { OnOk result (Wrote W.Sink (T.meaning value.now) writer.old writer.new) }
    ensures err { IfErr result (Missed W.Sink (T.meaning value.now) writer.old writer.new) }
{
    let len = measure(alloc, value)?;
    let mut out = Serializer::new(alloc, writer);
    let sent = send_message(alloc, &mut out, len, value);
    let _ = out.into_writer();
    sent
}

/// Writes one message with the value as its body, and gives the writer back either way.
///
/// The errors are those of [`serialize_to`], which is the call for a borrowed writer: a proof
/// cannot follow a `&mut` through this one.
pub fn serialize<W: Sink, T: Serialize>(
    alloc: Global,
    writer: W,
    value: &T,
) -> std::result::Result<W, (W, Error)>
    ensures ok { IfOk result (λ w. Wrote W.Sink (T.meaning value.now) writer w) }
    ensures err { IfErr result (λ r. Missed W.Sink (T.meaning value.now) writer r.0 r.1) }
{
    let len = match measure(alloc, value) {
        Ok(len) => len,
        Err(error) => return Err((writer, error)),
    };
    let mut out = Serializer::new(alloc, writer);
    match send_message(alloc, &mut out, len, value) {
        Ok(()) => Ok(out.into_writer()),
        Err(error) => Err((out.into_writer(), error)),
    }
}

/// Returns the value's message in a new vector.
///
/// The value is gone through once. It fails where the value has no tree, with the error that its
/// type's `meaning` gives, as `SerU64TooBig` for a `u64` above `i64::MAX`; where its body is longer
/// than `i64::MAX` bytes (`SerCustom` `CountTooGreat`); and where memory runs out, that of the
/// vector included (`OutOfMemory`). No other error comes.
pub fn to_vec<T: Serialize>(alloc: Global, value: &T) -> Result<Vec<u8>>
    ensures ok { IfOk result (λ message. message_of (T.meaning value.now) ≡ Ok message.items) }
    ensures writable { OnOk result (CanBeWritten (T.meaning value.now)) }
    ensures err { IfErr result (IsUnmeasured (T.meaning value.now)) }
{
    let mut message = with_body(alloc, gap(alloc)?, value)?;
    match i64::try_from(message.len() - SHORTEST_HEADER) {
        Ok(body) => {
            put_in_gap(&mut message, body)?;
            Ok(message)
        }
        Err(_) => Err(Error::ser_custom(Complaint::CountTooGreat)),
    }
}

/// Returns a gap for the shortest header, behind which a body is put.
pub fn gap(alloc: Global) -> std::result::Result<Vec<u8>, AllocError>
    ensures { IfOk result (λ gap. length gap.items ≡ SHORTEST_HEADER) }
{
    let mut gap = Vec::with_capacity(alloc, FIRST_ROOM)?;
    gap.extend_from_slice(&[0; SHORTEST_HEADER])?;
    Ok(gap)
}

/// These bytes and then the value's body.
fn with_body<T: Serialize>(alloc: Global, bytes: Vec<u8>, value: &T) -> Result<Vec<u8>>
    ensures ok { IfOk result (λ all. FollowedBy (text_of (T.meaning value.now))
        bytes.items all.items) }
    ensures writable { OnOk result (CanBeWritten (T.meaning value.now)) }
    ensures err { IfErr result (IsUnmeasured (T.meaning value.now)) }
{
    let mut out = Serializer::new(alloc, InMemory::new(bytes));
    match value.serialize(alloc, &mut out) {
        Ok(()) => {}
        Err(Error::Io(_)) => return Err(Error::OutOfMemory),
        Err(error) => return Err(error),
    }
    match out.finish() {
        Ok(memory) => Ok(memory.into_inner()),
        Err(_) => Err(Error::OutOfMemory),
    }
}

/// Puts the header of a body of this length where the [`gap`] before it is. Where the header is longer
/// than the gap, the body is moved up.
pub fn put_in_gap(message: &mut Vec<u8>, body: i64) -> std::result::Result<(), AllocError>
    requires { SHORTEST_HEADER ≤ length message.old.items }
    ensures ok { OnOk result (message.new.items ≡ front_of body
        ++ drop SHORTEST_HEADER message.old.items) }
{
    let mut header = [0; LONGEST_HEADER];
    header[..START].copy_from_slice(&HEADER_START);
    let len = START + spell(&mut header[START..], body);
    let more = len - SHORTEST_HEADER;
    message.extend_from_slice(&header[..more])?;
    message.rotate_right(more);
    message.slice_mut(..len).copy_from_slice(&header[..len]);
    Ok(())
}

/// The length of the value's body.
fn measure<T: Serialize>(alloc: Global, value: &T) -> Result<i64>
    ensures ok { IfOk result (IsBodyLength (T.meaning value.now)) }
    ensures writable { OnOk result (CanBeWritten (T.meaning value.now)) }
    ensures err { IfErr result (IsUnmeasured (T.meaning value.now)) }
{
    let mut out = Serializer::new(alloc, CountWrite::new());
    value.serialize(alloc, &mut out)?;
    match out.try_finish() {
        Ok(counter) => match i64::try_from(counter.count()) {
            Ok(len) => Ok(len),
            Err(_) => Err(Error::ser_custom(Complaint::CountTooGreat)),
        },
        Err((_, fault)) => Err(Error::Io(fault)),
    }
}

/// Puts the header and the body, and sends all.
fn send_message<W: Sink, T: Serialize>(
    alloc: Global,
    out: &mut Serializer<W>,
    len: i64,
    value: &T,
) -> Result<()>
    requires { IsBodyLength (T.meaning value.now) len }
    ensures sent { SendsMessage W.Sink (T.meaning value.now) out.old out.new result }
    ensures tied { TookSome W.Sink (writer_of out.old) (writer_of out.new) }
{
    put_message(alloc, out, len, value)?;
    out.flush()?;
    Ok(())
}

/// Puts the header and the body.
fn put_message<W: Sink, T: Serialize>(
    alloc: Global,
    out: &mut Serializer<W>,
    len: i64,
    value: &T,
) -> Result<()>
    requires { IsBodyLength (T.meaning value.now) len }
    ensures { PutsMessage W.Sink (T.meaning value.now) out.old out.new result }
{
    out.expect(len as usize + LONGEST_HEADER);
    out.put_header(len)?;
    value.serialize(alloc, out)
}
