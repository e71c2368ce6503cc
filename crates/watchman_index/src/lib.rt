//! An index of the files below one root, kept up to date by the messages of a Watchman server.
//!
//! [`read_told`](told::read_told) reads what an index can use of a message,
//! [`Index::apply`](index::Index::apply) applies it, and
//! [`Index::changes_since`](index::Index::changes_since) answers what changed after a clock.
//! [`told_in_turn`](laws::told_in_turn) is what these do together.
#![tactic(auto)]

pub mod changes;
pub mod clock;
pub mod index;
pub mod laws;
pub mod listed;
pub mod listing;
pub mod origin;
pub mod row;
pub mod standing;
pub mod suffix;
pub mod told;
