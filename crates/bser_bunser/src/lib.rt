//! The reader of tagged values: a message's header, integers, tokens and counted bytes.
#![tactic(auto)]

pub mod bunser;
pub mod by_reference;
pub mod laws;
pub mod prefix;
pub mod refusal;
