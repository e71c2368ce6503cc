//! What a call comes to.
ghost use Rattle.std.specs.Prelude.{◌≡◌, ◌≢◌, ◌<◌, ◌≤◌, length, take};
ghost use Rattle.bser_c.specs.Codes.{byte_of, code_of};
ghost use Rattle.bser_c.specs.declared.codes.TheConstants.{DONE, TOO_SMALL};

use crate::codes;
use crate::codes::{DONE, TOO_SMALL};
use bser_format::errors::Error;

/// A number, and what it is about.
#[repr(C)]
#[derive(Debug, Clone, Copy, PartialEq, Eq)]
pub struct BserOutcome {
    /// 0, or why the call wrote nothing of use.
    pub code: u32,
    /// The byte that an error is about, where it is about one; of a tape, the capabilities of its
    /// message.
    pub detail: u32,
    /// How many bytes or words lie before what is wrong; of a tape, how many bytes its message has.
    pub place: usize,
    /// How many bytes or words were written, or are wanted.
    pub length: usize,
}

/// Makes the outcome of a call that wrote so many bytes.
pub fn done(length: usize) -> BserOutcome
    ensures { result ≡ record { code = DONE; detail = 0; place = 0; length = length } }
{
    BserOutcome {
        code: DONE,
        detail: 0,
        place: 0,
        length,
    }
}

/// Makes the outcome of a call that wants so many bytes or words.
pub fn too_small(length: usize) -> BserOutcome
    ensures { result ≡ record { code = TOO_SMALL; detail = 0; place = 0; length = length } }
{
    BserOutcome {
        code: TOO_SMALL,
        detail: 0,
        place: 0,
        length,
    }
}

/// Makes the outcome of a number of the call itself, and a place.
pub fn stopped(code: u32, place: usize) -> BserOutcome
    ensures { result ≡ record { code = code; detail = 0; place = place; length = 0 } }
{
    BserOutcome {
        code,
        detail: 0,
        place,
        length: 0,
    }
}

/// Makes the outcome of an error: its number, and its place.
pub fn refused(error: &Error, place: usize) -> BserOutcome
    ensures { result ≡ record {
      code = code_of error.now;
      detail = byte_of error.now;
      place = place;
      length = 0;
    } }
{
    BserOutcome {
        code: codes::code(error),
        detail: u32::from(codes::byte(error)),
        place,
        length: 0,
    }
}

/// Copies the bytes to the front of `out`, where they have room.
pub fn handed_out(bytes: &[u8], out: &mut [u8]) -> BserOutcome
    ensures done { result.code ≡ DONE → take result.length out.new ≡ bytes.now }
    ensures fits { result.code ≡ DONE → result.length ≤ length out.new }
    ensures small { result.code ≢ DONE → result.code ≡ TOO_SMALL }
    ensures more { result.code ≡ TOO_SMALL → length out.old < result.length }
    ensures wanted { result.code ≡ TOO_SMALL → result.length ≡ length bytes.now }
{
    if bytes.len() > out.len() {
        return too_small(bytes.len());
    }
    out[..bytes.len()].copy_from_slice(bytes);
    done(bytes.len())
}
