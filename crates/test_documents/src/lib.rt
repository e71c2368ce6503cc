//! Tests of documents, of frames, and of structs and enums by lists: what no contract says, and what
//! a published form says. These are printed texts, the examples of JSON pointers, how far a
//! reader is asked for a frame, cuts and interruptions of a stream, and each form of a list once.
//!
//! Tests of whole messages: streams of them, their sizes, each law once with memory, the faults of a
//! writer and a reader, the program that rewrites messages, and what is returned, and left, where an
//! allocation fails.
//!
//! And the definitions at work: worked messages, worked errors, and an instance of each law.
#![tactic(auto)]

pub mod compact_laws;
pub mod definitions;
pub mod format_laws;
pub mod refusals;
#[cfg(test)]
mod tests;
pub mod typed_refusals;
