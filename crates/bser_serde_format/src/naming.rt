//! What the errors of a format are.
use crate::walk::{StepError, Walk};

/// What is wrong.
#[derive(Clone, Copy, Drop)]
pub enum Wrong<'n> {
    /// A step is not made.
    Step(StepError),
    /// The field of this name is missing.
    Missing(&'n str),
    /// The field of this name comes twice.
    Repeated(&'n str),
    UnknownKey,
    UnknownVariant,
    WrongLength,
    /// The value that was read last is none that the type holds.
    Unheld,
    /// The text that was read last is none that the type holds.
    Invalid,
    /// What the type itself says.
    Custom(&'n str),
}

/// Makes the errors of a format, and keeps what it wants to know for that.
pub trait Naming: Drop {
    type Error: Drop;

    /// Whether maps are read, and objects that several structs share. Where none are, LLVM leaves
    /// out what the kit's derives keep for the sharing.
    const TAKES_MAPS: bool;

    /// Something was read, or is to be read, that begins before the last so many bytes.
    fn passed(&mut self, left: usize);

    /// Null is wanted, and what begins before the last so many bytes is not null.
    fn not_null(&mut self, left: usize);

    /// A container of so many levels ended.
    fn ended(&mut self, levels: usize);

    /// The error, where the walk is.
    fn error(&self, walk: &Walk<'_>, wrong: Wrong<'_>) -> Self::Error;

    /// Whether an allocation failed.
    fn is_memory(&self, error: &Self::Error) -> bool;
}

/// Errors of one byte, which name nothing.
#[derive(Drop)]
pub struct Unnamed<const MAPS: bool>;

impl<const MAPS: bool> Naming for Unnamed<MAPS> {
    type Error = StepError;

    const TAKES_MAPS: bool = MAPS;

    #[inline(always)]
    fn passed(&mut self, _left: usize) {}

    #[inline(always)]
    fn not_null(&mut self, _left: usize) {}

    #[inline(always)]
    fn ended(&mut self, _levels: usize) {}

    #[inline(always)]
    fn error(&self, _walk: &Walk<'_>, wrong: Wrong<'_>) -> StepError {
        match wrong {
            Wrong::Step(error) => error,
            _ => StepError::Malformed,
        }
    }

    #[inline(always)]
    fn is_memory(&self, error: &StepError) -> bool {
        *error == StepError::Memory
    }
}
