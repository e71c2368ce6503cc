//! The tokens of a JSON text, taken one by one.
ghost use Rattle.std.specs.Prelude.{◌≡◌, ◌+◌, ◌^◌, ◌<◌, length};

mod taking;

use crate::fault::JsonFault;
use json::Reader;
use std::alloc::{AllocError, AllocFailed};

/// Why no value is made.
#[derive(Clone, Copy, Drop)]
pub(crate) enum TokenError {
    /// The token of this number is not taken, from 1 on.
    At(JsonFault, usize),
    /// The text has no token behind so many, each with its comma or colon.
    Lacks(usize),
    /// What stands right behind so many tokens is none that may.
    Breaks(usize),
    OutOfMemory,
}

impl From<AllocError> for TokenError {
    ghost use Rattle.bser_from_json.specs.declared.tokens.TokenError.TheVariants.{OutOfMemory};
    ghost use Rattle.std.specs.Prelude.{◌≡◌};

    ghost from_gives = { λ _ e. e ≡ OutOfMemory };

    fn from(_error: AllocError) -> Self {
        TokenError::OutOfMemory
    }
}

impl<T: Drop> From<AllocFailed<T>> for TokenError {
    ghost use Rattle.bser_from_json.specs.declared.tokens.TokenError.TheVariants.{OutOfMemory};
    ghost use Rattle.std.specs.Prelude.{◌≡◌};

    ghost from_gives = { λ _ e. e ≡ OutOfMemory };

    fn from(_error: AllocFailed<T>) -> Self {
        TokenError::OutOfMemory
    }
}

/// The tokens that are left of a text, and how many are taken.
#[derive(Drop)]
pub(crate) struct Tokens<'a> {
    reader: Reader<'a>,
    taken: usize,
    ghost counted: { taken + length reader < 2 ^ 64 },
}

impl<'a> Tokens<'a> {
    /// No token is taken.
    pub(crate) fn new(reader: Reader<'a>) -> Self
        requires { length reader < 2 ^ 64 }
        ensures reader { result.reader ≡ reader.entry }
        ensures taken { result.taken ≡ 0 }
    {
        Tokens { reader, taken: 0 }
    }

    /// How many tokens are taken.
    pub(crate) fn taken(&self) -> usize
        ensures { result ≡ self.now.taken }
    {
        self.taken
    }
}
