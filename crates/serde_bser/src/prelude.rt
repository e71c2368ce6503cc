//! The traits of reading. With `use serde_bser::prelude::*;` each call on a deserializer is in
//! scope, and each trait that a type of one's own is read by.

pub use bser_source::read::DeRead;
pub use bser_source::reference::LendsText;
pub use bser_structs::enum_access::ReadsEnums;
pub use bser_structs::enums::Variants;
pub use bser_structs::fields::{Codec, Fields, ReadOnly, WriteOnly};
pub use bser_structs::slot::Slot;
pub use bser_structs::slots::Slots;
pub use bser_structs::struct_reader::ReadsFields;
pub use bser_structs::{put_enum, put_struct, read_enum, read_struct};
pub use bser_types::container::ReadsContainers;
pub use bser_types::deserialize::{Deserialize, DeserializeOwned, Meant, OwnedShape, Shape};
pub use bser_types::impls::SkipsValues;
