//! The messages of BSER for callers in C: each call takes slices and writes to slices.
//!
//! A call keeps nothing, and gives its memory back before it returns. None of them requires anything
//! of the values that it gets: a length that does not fit and words that are no tape are answers.
#![tactic(auto)]

mod codes;
mod comparing;
mod direct;
mod front;
mod heads;
mod measure;
mod outcome;
mod reading;
mod tags;
mod untape;
mod writing;

ghost use Rattle.std.specs.Prelude.{◌≡◌, ◌≢◌, ◌<◌, ◌≤◌, length, take};
ghost use Rattle.bser_format.specs.Compact.{fold_templates};
ghost use Rattle.bser_format.specs.Named.{head, refuses, eof};
ghost use Rattle.bser_messages.specs.Lengths.{HasLength, IsLengthOfEach, RefusesLength};
ghost use Rattle.bser_canonical.specs.Canon.{canonical};
ghost use Rattle.bser_canonical.specs.Slices.{RewritesToSize, RewroteSlice};
ghost use Rattle.bser_canonical.specs.declared.slice.RewriteError.TheVariants.{TooLong};
ghost use Rattle.bser_c.specs.Codes.{TellsWhy};
ghost use Rattle.bser_c.specs.Tape.{BeginsWithTape, HasTape, HasTapeOf};
ghost use Rattle.bser_c.specs.declared.codes.TheConstants.{DONE, TOO_SMALL};
ghost use Rattle.bser_c.specs.Failures.{IsPlaceInHead, IsRefused, Tells, TellsWhyNoLength, TellsWhyUntaped, TellsWhyUnwritten};
ghost use Rattle.bser_c.specs.Untaped.{WantsBytes};

use crate::codes::{CONTRADICTION, NO_MEMORY, NOT_WHOLE, TAPE_INVALID};
pub use crate::outcome::BserOutcome;
use crate::outcome::{done, handed_out, refused, stopped, too_small};
use crate::reading::tape_of;
use crate::untape::{TapeError, message_of};
use bser_bunser::prefix::{Prefix, int_prefix};
use bser_canonical::slice::{RewriteError, canonical_of, compact_of};
use bser_format::errors::Error;
use bser_format::header::HEADER_START;
use bser_messages::described;
use bser_messages::description::Description;
use bser_messages::length::message_length;
use bser_messages::path::Path;
use bser_messages::told::Reason;
use bser_types::impls::Ignored;
use std::alloc::{AllocError, Global};

/// The version of these calls. It changes where a call, a number or the form of a tape does.
pub const ABI_VERSION: u32 = 1;

/// The version of the calls that this library has.
#[unsafe(no_mangle)]
pub extern "C" fn bser_abi_version() -> u32
    ensures { result ≡ ABI_VERSION }
{
    ABI_VERSION
}

/// How many bytes the message has that begins with these, its header and its body. Nothing of the
/// body is looked at, for an error and its place neither.
#[unsafe(no_mangle)]
pub extern "C" fn bser_message_length(alloc: Global, bytes: &[u8]) -> BserOutcome
    ensures done { result.code ≡ DONE → HasLength bytes.now result.length }
    ensures each { result.code ≡ DONE → IsLengthOfEach bytes.now result.length }
    ensures cut { result.code ≡ NOT_WHOLE → head bytes.now ≡ refuses eof }
    ensures end { result.code ≡ NOT_WHOLE → result.place ≡ length bytes.now }
    ensures failed { result.code ≢ DONE → result.code ≢ NOT_WHOLE
        → TellsWhyNoLength bytes.now result.code result.detail result.place }
{
    match message_length(alloc, bytes) {
        Ok(Some(length)) => done(length),
        Ok(None) => stopped(NOT_WHOLE, bytes.len()),
        Err(error) => refused(&error, place_in_head(&error, bytes)),
    }
}

/// Where the header is wrong that has this error: behind the two bytes that begin each message, before
/// a byte that is no integer's tag, and else behind the length of the body.
#[cold]
fn place_in_head(error: &Error, bytes: &[u8]) -> usize
    requires { RefusesLength bytes.now error.now }
    ensures place { IsPlaceInHead error.now bytes.now result }
    ensures within { result ≤ length bytes.now }
{
    match error {
        Error::DeInvalidMagic { magic } => magic.len(),
        Error::DeInvalidStartByte { kind: _, byte: _ } => HEADER_START.len(),
        _ => match int_prefix(&bytes[HEADER_START.len()..]) {
            Prefix::Found { value: _, len } => HEADER_START.len() + len,
            _ => bytes.len(),
        },
    }
}

/// Writes the tape of the message at the start of `bytes` to the front of `words`. The outcome has
/// the message's capabilities, how many bytes it has, and how many words its tape has.
///
/// Where these have no room the code is that of it, the length is that of the tape, and nothing is
/// said of what `words` holds.
#[unsafe(no_mangle)]
pub extern "C" fn bser_tape(alloc: Global, bytes: &[u8], words: &mut [u64]) -> BserOutcome
    ensures done { result.code ≡ DONE → BeginsWithTape 128 bytes.now result.detail result.place
        (take result.length words.new) }
    ensures failed { result.code ≢ DONE → result.code ≢ TOO_SMALL
        → TellsWhy bytes.now result.code result.detail result.place }
    ensures more { result.code ≡ TOO_SMALL → length words.old < result.length }
    ensures wanted { result.code ≡ TOO_SMALL → HasTapeOf 128 bytes.now result.length }
{
    let room = words.len();
    match tape_of(alloc, bytes, words) {
        Ok(taped) if taped.len > room => too_small(taped.len),
        Ok(taped) => BserOutcome {
            code: 0,
            detail: taped.capabilities,
            place: taped.size,
            length: taped.len,
        },
        Err(untold) => match untold.reason {
            Reason::Stopped { place } => stopped(CONTRADICTION, place),
            Reason::Failed(description) => refused(description.cause(), description.place()),
        },
    }
}

/// Writes the message of a tape whose strings are in `strings` to the front of `out`. The place of
/// an error counts words.
#[unsafe(no_mangle)]
#[tactic(auto, using(crate::proofs::Exports::no_tape, crate::proofs::Exports::no_memory))]
pub extern "C" fn bser_of_tape(
    alloc: Global,
    words: &[u64],
    strings: &[u8],
    out: &mut [u8],
) -> BserOutcome
    ensures done { result.code ≡ DONE
        → HasTape 128 strings.now 0 (take result.length out.new) words.now }
    ensures place { result.code ≢ DONE → result.place ≤ length words.now }
    ensures failed { result.code ≢ DONE → result.code ≢ TOO_SMALL
        → TellsWhyUntaped strings.now words.now result.code result.place }
    ensures more { result.code ≡ TOO_SMALL → length out.old < result.length }
    ensures wanted { result.code ≡ TOO_SMALL → WantsBytes strings.now words.now result.length }
{
    match message_of(alloc, words, strings, out) {
        Ok(size) => done(size),
        Err(TapeError::Invalid { at }) => stopped(TAPE_INVALID, at),
        Err(TapeError::TooLong { size }) => too_small(size),
        Err(TapeError::Memory) => stopped(NO_MEMORY, 0),
    }
}

/// Writes the canonical message of the value of the message at the start of `bytes` to the front of
/// `out`. Memory is linear in the length of the message, and at most `out` more.
#[unsafe(no_mangle)]
#[tactic(auto, using(crate::proofs::Exports::rewrote_size, crate::proofs::Exports::wanted_size))]
pub extern "C" fn bser_canonical(alloc: Global, bytes: &[u8], out: &mut [u8]) -> BserOutcome
    ensures done { result.code ≡ DONE
        → RewroteSlice canonical bytes.now (take result.length out.new) }
    ensures failed { result.code ≢ DONE → result.code ≢ TOO_SMALL
        → TellsWhyUnwritten canonical bytes.now (length out.old)
        result.code result.detail result.place }
    ensures more { result.code ≡ TOO_SMALL → length out.old < result.length }
    ensures wanted { result.code ≡ TOO_SMALL → RewritesToSize canonical bytes.now result.length }
{
    match canonical_of(alloc, bytes, out.len()) {
        Ok(message) => handed_out(&message, out),
        Err(unwritten) => not_written(unwritten),
    }
}

/// As [`bser_canonical`], but the compact message: no message of the value is shorter. Where it may
/// take more than 128 bytes of memory for each byte of the message, and more than 512,000, the code is
/// that of no memory.
#[unsafe(no_mangle)]
#[tactic(auto, using(crate::proofs::Exports::rewrote_size, crate::proofs::Exports::wanted_size))]
pub extern "C" fn bser_compact(alloc: Global, bytes: &[u8], out: &mut [u8]) -> BserOutcome
    ensures done { result.code ≡ DONE
        → RewroteSlice fold_templates bytes.now (take result.length out.new) }
    ensures failed { result.code ≢ DONE → result.code ≢ TOO_SMALL
        → TellsWhyUnwritten fold_templates bytes.now (length out.old)
        result.code result.detail result.place }
    ensures more { result.code ≡ TOO_SMALL → length out.old < result.length }
    ensures wanted { result.code ≡ TOO_SMALL
        → RewritesToSize fold_templates bytes.now result.length }
{
    match compact_of(alloc, bytes, out.len()) {
        Ok(message) => handed_out(&message, out),
        Err(unwritten) => not_written(unwritten),
    }
}

/// Why a message was not rewritten.
fn not_written(unwritten: RewriteError) -> BserOutcome
    ensures told { Tells unwritten result.code result.detail result.place }
    ensures wanted { result.code ≡ TOO_SMALL → unwritten ≡ TooLong result.length }
{
    match unwritten {
        RewriteError::Refused(description) => refused(description.cause(), description.place()),
        RewriteError::Failed(error) => refused(&error, 0),
        RewriteError::TooLong { size } => too_small(size),
    }
}

/// An error as a line, with the part of the message that it is in, if that is not the message itself.
fn line_of(alloc: Global, description: &Description, path: &Path) -> Result<String, AllocError> {
    if path.steps().is_empty() {
        format!(in alloc; "{description}")
    } else {
        format!(in alloc; "{description}, in {path}")
    }
}

/// Writes a line for people to the front of `out`, in UTF-8 and without an end: why the message at
/// the start of `bytes` cannot be read, where, and in which part of it. The line is empty where it
/// can be read.
#[unsafe(no_mangle)]
pub extern "C" fn bser_describe(alloc: Global, bytes: &[u8], out: &mut [u8]) -> BserOutcome
    ensures fits { result.code ≡ DONE → result.length ≤ length out.new }
    ensures told { result.code ≡ DONE → result.length ≢ 0 → IsRefused bytes.now }
    ensures more { result.code ≡ TOO_SMALL → length out.old < result.length }
    ensures wanted { result.code ≡ TOO_SMALL → IsRefused bytes.now }
{
    match described::from_slice::<Ignored>(alloc, bytes) {
        Ok(_ignored) => done(0),
        Err(description) => {
            let Ok(path) = description.path(alloc, bytes) else {
                return stopped(NO_MEMORY, 0);
            };
            match line_of(alloc, &description, &path) {
                Ok(line) => handed_out(line.as_bytes(), out),
                Err(_error) => stopped(NO_MEMORY, 0),
            }
        }
    }
}

#[cfg(test)]
mod tests;
