//! The JSON text that is printed of a message.
#![tactic(auto)]

pub mod laws;
pub mod output;
mod pieces;
pub mod printing;
mod text;
pub mod writing;
