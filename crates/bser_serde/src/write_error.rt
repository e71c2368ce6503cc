//! Why a value has no message, in one word.
use serde_bser::errors::Error;
use std::alloc::Global;

/// Why a value has no message. Each part of a value passes this on, so it is kept small.
#[derive(Drop)]
pub(crate) struct WriteError(Option<Box<Error>>);

impl WriteError {
    /// An allocation failed.
    pub(crate) const MEMORY: WriteError = WriteError(None);

    /// Keeps the error. Where there is no memory for that, this is the failure.
    #[cold]
    #[inline(never)]
    pub(crate) fn of(alloc: Global, error: Error) -> WriteError {
        match Box::new(alloc, error) {
            Ok(error) => WriteError(Some(error)),
            Err(_) => WriteError::MEMORY,
        }
    }

    /// The error.
    #[cold]
    #[inline(never)]
    pub(crate) fn into_error(self) -> Error {
        match self.0 {
            Some(error) => Box::into_inner(error),
            None => Error::OutOfMemory,
        }
    }
}
