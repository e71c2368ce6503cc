//! A message of the least bytes that is written part by part, without a tree of its value.
#![tactic(auto)]

mod container;
mod containers;
mod draft;
mod draft_error;

pub use crate::draft::Draft;
pub use crate::draft_error::DraftError;
