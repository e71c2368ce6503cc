//! The bytes that a writer has still to take.
ghost use Rattle.std.specs.Prelude.{◌≡◌, ◌≤◌, [], ◌∷◌, ◌++◌, length, OnOk, IfErr};
ghost use Rattle.bser_format.specs.Canonical.{least_integer};
ghost use Rattle.bser_format.specs.declared.errors.Error.TheVariants.{Io};
ghost use Rattle.bser_ser.specs.Sent.{Appends, payload_head};
ghost use Rattle.bser_ser.specs.Stopped.{Accounts, TookAllBut};
ghost use Rattle.bser_format.specs.Pieces.{newtype_variant_head};

use crate::integer::{LONGEST, spell};
use bser_format::header::{BSER_INT8, BSER_OBJECT, BSER_UTF8STRING};
use bser_source::device::Sink;
use std::alloc::AllocError;
use std::io;
use std::io::ErrorKind;
use std::result::Result;

/// Appends two pieces, or nothing.
#[inline(always)]
pub fn append_both(pending: &mut Vec<u8>, front: &[u8], back: &[u8]) -> Result<(), AllocError>
    ensures { Appends pending.old.items pending.new.items (front.now ++ back.now) result }
{
    let before = pending.len();
    pending.extend_from_slice(front)?;
    if pending.extend_from_slice(back).is_err() {
        pending.truncate(before);
        return Err(AllocError);
    }
    Ok(())
}

/// Appends a tag and a count, or nothing.
pub fn append_head(pending: &mut Vec<u8>, tag: u8, count: i64) -> Result<(), AllocError>
    ensures { Appends pending.old.items pending.new.items (tag ∷ least_integer count) result }
{
    let mut head = [tag; LONGEST + 1];
    let len = spell(&mut head[1..], count);
    pending.extend_from_slice(&head[..len + 1])
}

/// Appends an object's tag and count for one entry, and the entry's key, or nothing.
pub fn append_variant(pending: &mut Vec<u8>, name: &str) -> Result<(), AllocError>
    ensures { Appends pending.old.items pending.new.items (newtype_variant_head name.now) result }
{
    let before = pending.len();
    pending.extend_from_slice(&[BSER_OBJECT, BSER_INT8, 1])?;
    let key = name.as_bytes();
    let put = append_head(pending, BSER_UTF8STRING, key.len() as i64);
    if put.is_err() || pending.extend_from_slice(key).is_err() {
        pending.truncate(before);
        return Err(AllocError);
    }
    Ok(())
}

/// Appends the beginning of a variant, and its payload's tag and count, or nothing.
pub fn append_variant_of(
    pending: &mut Vec<u8>,
    name: &str,
    tag: u8,
    count: i64,
) -> Result<(), AllocError>
    ensures { Appends pending.old.items pending.new.items (payload_head name.now tag count) result }
{
    let before = pending.len();
    append_variant(pending, name)?;
    if append_head(pending, tag, count).is_err() {
        pending.truncate(before);
        return Err(AllocError);
    }
    Ok(())
}

/// Sends all that is pending. After an error the bytes that the writer has not taken are pending.
///
/// The error is the writer's own, or of kind `WriteZero` where it took nothing. Where none is
/// answered, no failure was counted, and else one.
pub fn send<W: Sink>(writer: &mut W, pending: &mut Vec<u8>) -> io::Result<()>
    ensures sent { TookAllBut W.Sink writer.old writer.new pending.old.items pending.new.items }
    ensures ok { OnOk result (pending.new.items ≡ []) }
    ensures kept { OnOk result (W.failures writer.new ≡ W.failures writer.old) }
    ensures err { IfErr result (λ e. Accounts W.Sink
        writer.old writer.new pending.old.items (Io e)) }
{
    let mut done = 0;
    while done < pending.len() {
        let fault = match writer.push(&pending[done..]) {
            Ok(0) => io::Error::new(ErrorKind::WriteZero, "nothing taken"),
            Ok(n) => {
                done += n;
                continue;
            }
            Err(fault) => fault,
        };
        pending.drain(..done);
        return Err(fault);
    }
    pending.clear();
    Ok(())
}
