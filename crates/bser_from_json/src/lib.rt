//! JSON texts, and the messages that are made of them.
#![tactic(auto)]

mod body;
pub mod fault;
mod incoming;
pub mod meaning;
mod part;
mod places;
pub mod reading;
mod split;
pub mod texts;
mod tokens;
