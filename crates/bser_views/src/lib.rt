//! Shows messages of a stream: as trees of their parts, and by how much they have of each kind.
//!
//! A [`View`](messages::View) shows a message, and [`show_messages`](messages::show_messages) shows
//! those of a reader and reports what is malformed.
#![tactic(auto)]

mod counts;
mod flushing;
mod frame;
pub mod input_error;
pub mod lack;
pub mod messages;
mod open;
mod parts;
pub mod print_error;
pub mod quoted;
pub mod summary;
mod tally;
pub mod tree;
