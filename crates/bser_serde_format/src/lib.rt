//! A message as a format of the kit's `serde`, which is checked as it is read.
#![tactic(auto)]

mod containers;
mod format;
mod heads;
pub mod kept;
mod marks;
pub mod naming;
mod open;
mod skipping;
pub mod values;
pub mod walk;
