//! Reads and writes BSER version 2, the binary messages of the Watchman file watcher.
//!
//! [`from_slice`] and [`from_reader`] read one message as a value of a type that is
//! [`Deserialize`](de::Deserialize); [`ser::to_vec`], [`ser::serialize`] and [`ser::serialize_to`]
//! write one. Those of [`describe`] read one too, and describe an error for people, and those of
//! [`tell`] report one to a builder, event by event. The modules of the crates below are here under
//! the names that users know.
#![tactic(auto)]

pub mod de;
pub mod describe;
pub mod laws;
pub mod prelude;
pub mod ser;
pub mod stream;
pub mod tell;

pub mod document {
    //! Any message as it is spelled, and looking into it.
    pub use bser_document::document::Document;
    pub use bser_document::entries::{Entries, Entry};
    pub use bser_document::item::{Item, ItemKind as Kind};
    pub use bser_document::items::Items;
    pub use bser_document::pointer::is_pointer;
    pub use bser_document::rows::{Row, Rows};
}

pub mod value {
    //! Values of any kind, and their shortest messages.
    pub use bser_value::compact::serialize_compact;
    pub use bser_value::value::Value;
}

pub use bser_format::{bytestring, errors, escaped, header};
pub use bser_messages::message::{from_reader, from_slice};
pub use bser_source::device;
