//! Reads one message and writes its value again, in the canonical or in the compact form: the
//! engine of `bser_canon`, and that program over any streams.
#![tactic(auto)]

mod buffered;
pub mod engine;
mod footprint;
pub mod process;
pub mod program;
mod room;
pub mod slice;
pub mod standard;
