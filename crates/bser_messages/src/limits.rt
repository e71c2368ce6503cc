//! How much of a message is taken.
ghost use Rattle.std.specs.Prelude.{◌≡◌};
ghost use Rattle.bser_deserializer.specs.declared.deserializer.TheConstants.{LEVELS};
ghost use Rattle.bser_messages.specs.Limited.{any_length};

use bser_deserializer::deserializer::LEVELS;

/// How deep a message may nest, and how long its body may be.
#[derive(Debug, Clone, Copy, PartialEq, Eq)]
pub struct Limits {
    /// The levels of containers, at most [`MOST_LEVELS`](bser_deserializer::deserializer::MOST_LEVELS) where a message is read.
    pub levels: usize,
    /// The bytes of the body that a header may announce. The header itself is not counted.
    pub bytes: usize,
}

impl Limits {
    /// Allows 128 levels, and bodies of any length.
    pub const fn new() -> Self
        ensures levels { result.levels ≡ LEVELS }
        ensures bytes { result.bytes ≡ any_length }
    {
        Limits {
            levels: LEVELS,
            bytes: usize::MAX,
        }
    }
}
