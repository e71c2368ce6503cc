//! A client of Watchman over any reader and writer: requests are sent, their answers are taken, and
//! messages that were not asked for are kept until they are wanted.
#![tactic(auto)]

pub mod answer_error;
pub mod bounds;
pub mod client;
pub mod errors;
pub mod events;
mod incoming;
mod kept;
pub mod kinds;
pub mod laws;
mod next;
pub mod reading;
pub mod requests;
