//! Whole messages that are read.
ghost use Rattle.std.specs.Prelude.{◌≡◌, ◌≤◌, Some, OnOk, IfErr, IfSome};
ghost use Rattle.bser_deserializer.specs.declared.deserializer.TheConstants.{MOST_LEVELS};
ghost use Rattle.bser_messages.specs.Limited.{usual_limits};
ghost use Rattle.bser_serde.specs.HasMessage.{IsFilled};
ghost use Rattle.bser_serde.specs.Messages.{BeginsWithMessage, IsWellFormed, TookMessage};
ghost use Rattle.bser_serde.specs.Refusals.{SliceUnread, FrameUnread, NextUnread, IsUnfit};

use crate::copied::Copied;
use crate::faults::{FormatError, Named, Unread};
use crate::message::{Headed, head_of};
use crate::misfit::{Misfit, Reason};
use crate::read_error::{ReadError, refusal_of};
use crate::wanted::{Lent, Owned, WantedValue};
use bser_deserializer::deserializer::MOST_LEVELS;
use bser_messages::path::{Spot, path_to};
use bser_serde_format::kept::{KeptWalk, KnownBody};
use bser_serde_format::naming::{Naming, Unnamed};
use serde::{Deserialize, DeserializeOwned};
use serde_bser::de::Ignored;
use serde_bser::describe::{Path, Step};
use serde_bser::device::Source;
use serde_bser::tell;
use serde_bser::tell::Limits;
use std::alloc::{AllocError, Global};
use std::marker::Brand;

/// Reads a value from the message at the start of `bytes`, of at most 128 levels. What follows the
/// message is ignored.
///
/// Bytes that begin with no well-formed message are refused by its first fault, whatever the type
/// looks at, or for want of memory. A misfit comes only of a well-formed message.
pub fn from_slice<'de, T: Deserialize<'de>>(alloc: Global, bytes: &'de [u8]) -> Result<T, ReadError>
    ensures found { OnOk result (BeginsWithMessage usual_limits bytes.now) }
    ensures refused { IfErr result (SliceUnread usual_limits bytes.now) }
{
    from_slice_limited(alloc, Limits::new(), bytes)
}

/// Reads a value from the message at the start of `bytes`, within these limits.
///
/// As [`from_slice`], with the limit's levels for 128, and bodies of at most its bytes.
pub fn from_slice_limited<'de, T: Deserialize<'de>>(
    alloc: Global,
    limits: Limits,
    bytes: &'de [u8],
) -> Result<T, ReadError>
    requires { limits.levels ≤ MOST_LEVELS }
    ensures found { OnOk result (BeginsWithMessage limits bytes.now) }
    ensures refused { IfErr result (SliceUnread limits bytes.now) }
{
    if let Some(body) = head_of(bytes, limits.bytes) {
        if let Some(value) = value_of(alloc, Lent::of(bytes), body, limits.levels) {
            return Ok(value);
        }
    }
    told_slice(alloc, limits, bytes)
}

/// The same, of what is told first, so that its first fault is named.
#[cold]
#[inline(never)]
#[tactic(auto, using(crate::proofs::Told::unfit_slice, crate::proofs::Told::untold_slice))]
fn told_slice<'de, T: Deserialize<'de>>(
    alloc: Global,
    limits: Limits,
    bytes: &'de [u8],
) -> Result<T, ReadError>
    requires { limits.levels ≤ MOST_LEVELS }
    ensures found { OnOk result (BeginsWithMessage limits bytes.now) }
    ensures refused { IfErr result (SliceUnread limits bytes.now) }
{
    match tell::from_slice(alloc, limits, bytes, &mut Ignored) {
        Ok(header) => match read(alloc, Lent::of(bytes), header.start, bytes) {
            Ok(value) => Ok(value),
            Err(refusal) => Err(refusal),
        },
        Err(untold) => Err(refusal_of(untold)),
    }
}

/// Reads a value from a frame: one message of at most 128 levels, and no byte behind it.
///
/// As [`from_slice`]. Bytes behind the message are [`ReadError::BytesLeft`].
pub fn from_frame<'de, T: Deserialize<'de>>(alloc: Global, frame: &'de [u8]) -> Result<T, ReadError>
    ensures found { OnOk result (IsWellFormed usual_limits frame.now) }
    ensures refused { IfErr result (FrameUnread usual_limits frame.now) }
{
    let limits = Limits::new();
    if let Some(body) = head_of(frame, limits.bytes) {
        if body.len == body.bytes.len() {
            if let Some(value) = value_of(alloc, Lent::of(frame), body, limits.levels) {
                return Ok(value);
            }
        }
    }
    told_frame(alloc, frame)
}

/// The same, of what is told first, so that its first fault is named, and the bytes behind it are.
#[cold]
#[inline(never)]
#[tactic(auto, using(crate::proofs::Told::begins_with_of, crate::proofs::Told::is_whole, crate::proofs::Told::unfit_slice, crate::proofs::Told::untold_slice, crate::proofs::Told::unread_frame))]
fn told_frame<'de, T: Deserialize<'de>>(alloc: Global, frame: &'de [u8]) -> Result<T, ReadError>
    ensures found { OnOk result (IsWellFormed usual_limits frame.now) }
    ensures refused { IfErr result (FrameUnread usual_limits frame.now) }
{
    match tell::from_slice(alloc, Limits::new(), frame, &mut Ignored) {
        Ok(header) => {
            let taken = header.message_length();
            if taken != frame.len() {
                return Err(ReadError::BytesLeft(taken));
            }
            match read(alloc, Lent::of(frame), header.start, frame) {
                Ok(value) => Ok(value),
                Err(refusal) => Err(refusal),
            }
        }
        Err(untold) => Err(refusal_of(untold)),
    }
}

/// Reads a value that owns what it holds from the reader's next message, of at most 128 levels.
///
/// Just that message is taken, whether the type reads it or not. The errors are those of
/// [`from_slice`]; or that the reader failed, as a malformed message; or [`ReadError::Ended`].
pub fn from_reader<S: Source, T: DeserializeOwned>(
    alloc: Global,
    reader: &mut S,
) -> Result<T, ReadError>
    ensures found { OnOk result
        (TookMessage usual_limits (S.remaining reader.old) (S.remaining reader.new)) }
    ensures refused { IfErr result (NextUnread usual_limits S.Source reader.old reader.new) }
{
    from_reader_limited(alloc, Limits::new(), reader)
}

/// Reads a value that owns what it holds from the reader's next message, within these limits.
///
/// As [`from_reader`], with the limit's levels for 128, and bodies of at most its bytes.
#[tactic(auto, using(crate::proofs::Told::took_message, crate::proofs::Told::unfit_next, crate::proofs::Told::untold_next))]
pub fn from_reader_limited<S: Source, T: DeserializeOwned>(
    alloc: Global,
    limits: Limits,
    reader: &mut S,
) -> Result<T, ReadError>
    requires { limits.levels ≤ MOST_LEVELS }
    ensures found { OnOk result
        (TookMessage limits (S.remaining reader.old) (S.remaining reader.new)) }
    ensures refused { IfErr result (NextUnread limits S.Source reader.old reader.new) }
{
    let mut copied = Copied::new(alloc);
    match tell::next_message(alloc, limits, reader, &mut copied) {
        Ok(Some(header)) => {
            copied.put_header(&header);
            let message = copied.as_slice();
            match read(alloc, Owned::of(message), header.start, message) {
                Ok(value) => Ok(value),
                Err(refusal) => Err(refusal),
            }
        }
        Ok(None) => Err(ReadError::Ended),
        Err(untold) => Err(refusal_of(untold)),
    }
}

/// Reads a value in one pass, where all of the message was gone past.
///
/// A type that reads maps is read again from the start, by a walk that takes them.
#[inline(always)]
fn value_of<W: WantedValue>(
    alloc: Global,
    wanted: W,
    body: Headed<'_>,
    levels: usize,
) -> Option<W::Value>
    ensures { IfSome result (λ _. IsFilled levels body.entry) }
{
    if let Some(value) = filled::<W, Unnamed<false>, Brand>(alloc, &wanted, Unnamed, body, levels) {
        return Some(value);
    }
    mapped(alloc, &wanted, body, levels)
}

/// The same, of a type that reads maps.
#[inline(never)]
fn mapped<W: WantedValue>(
    alloc: Global,
    wanted: &W,
    body: Headed<'_>,
    levels: usize,
) -> Option<W::Value>
    ensures { IfSome result (λ _. IsFilled levels body.entry) }
{
    filled::<W, Unnamed<true>, Brand>(alloc, wanted, Unnamed, body, levels)
}

/// Reads a value of a body that has a name.
#[inline(always)]
fn filled<W: WantedValue, N: Naming, K: KnownBody>(
    alloc: Global,
    wanted: &W,
    names: N,
    body: Headed<'_>,
    levels: usize,
) -> Option<W::Value>
    requires bytes { K.bytes ≡ Some body.bytes.now }
    requires levels { K.levels ≡ levels }
    ensures { IfSome result (λ _. IsFilled levels body.entry) }
{
    let mut kept: KeptWalk<'_, N, K> = KeptWalk::new(alloc, body.bytes, levels, names);
    let Ok(value) = wanted.read(alloc, &mut kept) else {
        return None;
    };
    let left = kept.left()?;
    if left.checked_add(body.len)? != body.bytes.len() {
        return None;
    }
    Some(value)
}

/// Reads a value from a well-formed message whose body begins behind `start` bytes.
#[cold]
#[inline(never)]
fn read<W: WantedValue>(
    alloc: Global,
    wanted: W,
    start: usize,
    message: &[u8],
) -> Result<W::Value, ReadError>
    ensures { IfErr result IsUnfit }
{
    let bytes = message.get(start..).unwrap_or(&[]);
    let names = Named::new(alloc, message, start);
    let mut kept: KeptWalk<'_, Named<'_>, Brand> = KeptWalk::new(alloc, bytes, MOST_LEVELS, names);
    match wanted.read(alloc, &mut kept) {
        Ok(value) => Ok(value),
        Err(fault) => Err(unfit(alloc, fault, message)),
    }
}

/// Why the type does not read the message.
#[cold]
#[inline(never)]
fn unfit(alloc: Global, fault: FormatError, message: &[u8]) -> ReadError
    ensures { IsUnfit result }
{
    match fault {
        FormatError::Memory => ReadError::OutOfMemory,
        FormatError::Misfit(unread) => {
            let Unread { reason, spot } = Box::into_inner(unread);
            match path_of(alloc, &reason, message, spot) {
                Ok(path) => ReadError::Misfit(Misfit {
                    reason,
                    place: spot.place,
                    path,
                }),
                Err(_) => ReadError::OutOfMemory,
            }
        }
    }
}

/// The way to what the type does not read. A missing field is the last step of it.
fn path_of(alloc: Global, reason: &Reason, message: &[u8], spot: Spot) -> Result<Path, AllocError> {
    let mut path = path_to(alloc, message, spot)?;
    if let Reason::Missing(name) = reason {
        path.steps
            .push(Step::Key(String::from_str(alloc, name.as_str())?))?;
    }
    Ok(path)
}
