//! Reporting messages to a builder of one's own, event by event, with the place of each, and with
//! errors that are described.

pub use bser_events::builder::{Builder, Stop};
pub use bser_events::event::{Event, EventKind, Place};
pub use bser_messages::limits::Limits;
pub use bser_messages::telling::{from_slice, next_message};
pub use bser_messages::told::{Header, Reason, TellError};
