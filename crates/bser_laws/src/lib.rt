//! What the library promises as a whole, each promise as a call whose contract says it: slices and
//! readers agree, what is written reads back, different values have different messages, no message
//! is shorter, what is read is bounded by its bytes, and a template reads as its rows written out.
//!
//! No crate of the library stands on this one. A contract may cite what its calls promise.
#![tactic(auto)]

pub mod agreement;
pub mod bounds;
pub mod least;
pub mod messages;
pub mod returned;
pub mod templates;
