//! The format of BSER messages: tags, errors, byte strings, and texts for people; the definitions,
//! what is written, the plain reader, and their laws.
#![tactic(auto)]

pub mod bytes;
pub mod bytestring;
pub mod errors;
pub mod escaped;
pub mod grammar;
pub mod header;
pub mod laws;
mod marked;
pub mod quoted;
pub mod real;
