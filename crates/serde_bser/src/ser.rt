//! Writing.
pub use bser_ser::message::{serialize, serialize_to, to_vec};
pub use bser_ser::{CountWrite, InMemory, Serialize, Serializer};
pub use bser_structs::variants::{put_variant, put_variant_fields};
pub use bser_structs::writing::{Given, PutField, PutFields, put_fields};
pub use bser_value::compact::serialize_compact;
