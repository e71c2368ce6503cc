//! The statuses of a program.

/// All was done.
pub const DONE: u8 = 0;

/// Not all was done, or the output failed.
pub const FAILED: u8 = 1;

/// The arguments are not known.
pub const UNKNOWN_ARGUMENT: u8 = 2;
