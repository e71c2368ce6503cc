//! Why something is not printed.

use std::alloc::AllocError;
use std::io;
use thiserror::Error;

/// Why something is not printed.
#[derive(Debug, Drop, Error)]
pub enum PrintError {
    /// There is no memory for it.
    #[error("out of memory")]
    Memory(#[from(alloc)] AllocError),
    /// The output failed.
    #[error("the output failed: {0}")]
    Output(#[from] io::Error),
}
