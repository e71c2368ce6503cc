//! Whole messages, read from a slice or from a reader: one, one within limits of levels and bytes,
//! one after another, and with errors that are described for people.
#![tactic(auto)]

mod counted;
pub mod described;
pub mod description;
pub mod length;
mod limited;
pub mod limited_slice;
pub mod limits;
mod locating;
pub mod message;
pub mod next;
pub mod path;
mod progress;
pub mod reader_messages;
pub mod size;
mod sizing;
mod skip_rest;
pub mod slice_messages;
pub mod telling;
pub mod told;
mod told_message;
