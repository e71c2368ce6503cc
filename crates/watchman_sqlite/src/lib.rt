//! A SQLite file of what a Watchman server told of the files below a root.
//!
//! One message is one transaction, so the file holds all of a message or nothing, also where the
//! program that writes it is killed.
#![tactic(auto)]

pub mod adding;
pub mod conditions;
pub mod connection;
pub mod cursors;
mod entry;
pub mod error;
pub mod laws;
pub mod making;
pub mod opening;
mod parameters;
pub mod record;
pub mod reopening;
pub mod schema;
pub mod snapshot;
mod storing;
pub mod subject;
pub mod taking;
