//! Adds to an index: the messages of files and streams, and those of a server that a client asks and
//! follows.
#![tactic(auto)]

pub mod adding;
mod error;
pub mod expression;
pub mod folding;
pub mod following;
mod judged;
pub mod messages;
mod prompt;
pub mod request;
