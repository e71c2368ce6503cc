//! The messages of a reader as bytes: each whole message that its header announces, whatever its
//! body holds.
#![tactic(auto)]

mod buffer;
mod copied_read;
pub mod error;
pub mod frames;
mod header;
pub mod owned;
mod pulling;
