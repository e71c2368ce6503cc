//! A message in a slice, and its canonical or its compact message in a vector.
ghost use Rattle.std.specs.Prelude.{◌≡◌, ◌≤◌, IfOk, IfErr, length, ℕ};
ghost use Rattle.bser_format.specs.Compact.{fold_templates};
ghost use Rattle.bser_canonical.specs.Canon.{canonical};
ghost use Rattle.bser_canonical.specs.Slices.{LiesInSlice, RewroteSlice, RefusesSliceRewriting, in_memory};
ghost use Rattle.bser_canonical.specs.declared.slice.RewriteError.TheVariants.{Failed};

use crate::footprint::is_affordable;
use bser_document::document::Document;
use bser_format::errors::Error;
use bser_messages::described;
use bser_messages::description::Description;
use bser_ser::message::serialize_to;
use bser_ser::{CountWrite, InMemory};
use bser_value::compact::serialize_compact;
use bser_value::value::Value;
use std::alloc::Global;

/// Why a message was not rewritten.
#[derive(Debug, Drop)]
pub enum RewriteError {
    /// It cannot be read.
    Refused(Description),
    /// Its value has no message: the body would be longer than `i64::MAX` bytes
    /// (`Complaint::CountTooGreat`); or memory ran out (`Error::OutOfMemory`).
    Failed(Error),
    /// The new message has more bytes than there is room for.
    TooLong {
        /// How many bytes it has, and so how many are wanted.
        size: usize,
    },
}

/// Returns the canonical message of the value of the message at the start of `bytes`, of at most
/// 128 levels. What follows the message is ignored.
///
/// It is measured first, and made only where it has at most `most` bytes. Beside it this takes memory
/// that is linear in the length of the message that is read, since no `Value` is made.
#[tactic(auto, using(crate::proofs::Slices::rewrote_document, crate::proofs::Slices::document_size, crate::proofs::Slices::document_fits, crate::proofs::Slices::document_not_made, crate::proofs::Slices::failed_lies))]
pub fn canonical_of(alloc: Global, bytes: &[u8], most: usize) -> Result<Vec<u8>, RewriteError>
    ensures ok { IfOk result (λ message. RewroteSlice canonical bytes.now message.items) }
    ensures fits { IfOk result (λ message. length message.items ≤ most) }
    ensures refused { IfErr result (RefusesSliceRewriting canonical bytes.now) }
    ensures place { IfErr result (LiesInSlice (length bytes.now) most) }
{
    let read: Document = match described::from_slice(alloc, bytes) {
        Ok(read) => read,
        Err(description) => return Err(RewriteError::Refused(description)),
    };
    let mut counter = CountWrite::new();
    if let Err(error) = serialize_to(alloc, &mut counter, &read) {
        return Err(not_made(error));
    }
    let size = counter.count();
    if size > most {
        return Err(RewriteError::TooLong { size });
    }
    let mut memory = InMemory::new(Vec::new(alloc));
    match serialize_to(alloc, &mut memory, &read) {
        Ok(()) => Ok(memory.into_inner()),
        Err(error) => Err(not_made(error)),
    }
}

/// As [`canonical_of`], but the compact message of the value, which is no longer than the message
/// that is read.
///
/// It makes a `Value`, and first looks how much memory that may take. Where this is more than 128
/// bytes for each byte of the message, and more than 512,000, the error is `Error::OutOfMemory`, as of
/// a template of many skipped fields.
#[tactic(auto, using(crate::proofs::Slices::rewrote_value, crate::proofs::Slices::value_size, crate::proofs::Slices::value_not_made, crate::proofs::Slices::failed_lies))]
pub fn compact_of(alloc: Global, bytes: &[u8], most: usize) -> Result<Vec<u8>, RewriteError>
    ensures ok { IfOk result (λ message. RewroteSlice fold_templates bytes.now message.items) }
    ensures fits { IfOk result (λ message. length message.items ≤ most) }
    ensures refused { IfErr result (RefusesSliceRewriting fold_templates bytes.now) }
    ensures place { IfErr result (LiesInSlice (length bytes.now) most) }
{
    if !is_affordable(alloc, bytes) {
        return Err(unaffordable(alloc, bytes));
    }
    let read: Value = match described::from_slice(alloc, bytes) {
        Ok(read) => read,
        Err(description) => return Err(RewriteError::Refused(description)),
    };
    let mut memory = InMemory::new(Vec::new(alloc));
    if let Err(error) = serialize_compact(alloc, &mut memory, &read) {
        return Err(not_made(error));
    }
    let message = memory.into_inner();
    if message.len() > most {
        return Err(RewriteError::TooLong {
            size: message.len(),
        });
    }
    Ok(message)
}

/// Why a message has no compact one of which no `Value` is made: it cannot be read, or there is no
/// memory for that.
#[tactic(auto, using(crate::proofs::Slices::unaffordable))]
fn unaffordable(alloc: Global, bytes: &[u8]) -> RewriteError
    ensures refused { RefusesSliceRewriting fold_templates bytes.now result }
    ensures place { (most : ℕ) → LiesInSlice (length bytes.now) most result }
{
    match described::from_slice::<Document>(alloc, bytes) {
        Ok(_read) => RewriteError::Failed(Error::OutOfMemory),
        Err(description) => RewriteError::Refused(description),
    }
}

/// Why no message was made in memory. An I/O error comes of want of memory alone.
fn not_made(error: Error) -> RewriteError
    ensures { result ≡ Failed (in_memory error) }
{
    match error {
        Error::Io(_) => RewriteError::Failed(Error::OutOfMemory),
        error => RewriteError::Failed(error),
    }
}
