//! BSER as a format of the kit's `serde`: types with its derives are read from messages and written
//! as messages.
//!
//! What a derive reads and writes no contract says. What these calls promise of every type is in
//! their clauses: which bytes are taken, what is refused, and what is written.
#![tactic(auto)]

mod bytes;
mod copied;
mod faults;
pub mod message;
mod misfit;
mod read_error;
mod reading;
mod wanted;
mod write_error;
mod writer;
mod writing;

pub use crate::bytes::{ByteBuf, Bytes};
pub use crate::misfit::{Misfit, Reason};
pub use crate::read_error::ReadError;
pub use crate::reading::{
    from_frame, from_reader, from_reader_limited, from_slice, from_slice_limited,
};
pub use crate::writing::{to_vec, to_writer};
pub use serde_bser::describe::Path;
