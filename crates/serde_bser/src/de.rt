//! Reading.

pub mod read {
    //! Byte sources, and what is borrowed from them.
    pub use bser_source::io_read::IoRead;
    pub use bser_source::read::DeRead;
    pub use bser_source::reference::{
        Lending, LendingText, LendsFrom, LendsText, NoLoan, Reference, TextReference,
    };
    pub use bser_source::slice_read::SliceRead;
}

pub use bser_bunser::bunser;
pub use bser_bunser::bunser::{Bunser, PduInfo};
pub use bser_bunser::refusal::{Answer, Refused};
pub use bser_deserializer::deserializer::Deserializer;
pub use bser_deserializer::field::Field;
pub use bser_deserializer::node::Node;
pub use bser_messages::limited_slice::from_slice_limited;
pub use bser_messages::limits::Limits;
pub use bser_messages::message::{from_reader, from_reader_within, from_slice, from_slice_within};
pub use bser_messages::next::from_reader_limited;
pub use bser_messages::size::{Size, size_of, size_of_limited};
pub use bser_source::io_read::IoRead;
pub use bser_source::read::DeRead;
pub use bser_source::slice_read::SliceRead;
pub use bser_structs::enum_access::{EnumAccess, ReadsEnums};
pub use bser_structs::object_or::ObjectOr;
pub use bser_structs::slot::{Optional, Required, Slot};
pub use bser_structs::slots::Slots;
pub use bser_structs::struct_reader::ReadsFields;
pub use bser_structs::variant_access::{EnumForm, UnitVariantAccess, VariantAccess};
pub use bser_types::container::ReadsContainers;
pub use bser_types::deserialize::{Deserialize, DeserializeOwned, Meant, OwnedShape, Shape};
pub use bser_types::impls::{Ignored, MapKey, RealBits, SkipsValues};
pub use bser_types::map::MapAccess;
pub use bser_types::seq::SeqAccess;
