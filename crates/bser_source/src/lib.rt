//! What gives bytes and what takes them: readers and writers that count their failures, a window on
//! the bytes left over a slice and over a reader, what is borrowed from them, and bytes as a text.
#![tactic(auto)]

pub mod count;
pub mod device;
pub mod io_read;
mod lending;
pub mod memory;
mod pull;
pub mod read;
pub mod reference;
pub mod slice_read;
pub mod text;
