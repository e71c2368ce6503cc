//! What programs have in common: their streams and statuses, and what they report.
#![tactic(auto)]

mod beside;
pub mod counted;
pub mod program;
pub mod reports;
pub mod screen;
pub mod standard;
pub mod status;
pub mod streams;
