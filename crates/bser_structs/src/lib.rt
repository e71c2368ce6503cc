//! Structs by their fields, and enums by their variants: by one list, for reading and for writing.
//!
//! A struct's [`Fields`] say what it is read as and written as. [`read_struct`](crate::read_struct)
//! reads it, and [`put_struct`](crate::put_struct) writes it. An enum's [`Variants`] say the same
//! of an enum, which [`read_enum`](crate::read_enum) reads and [`put_enum`](crate::put_enum)
//! writes. [`EnumAccess`](crate::enum_access::EnumAccess) reads an enum by the place of its variant's
//! name. [`ObjectOr`] chooses by the kind of what is expected.
#![tactic(auto)]

mod entries;
pub mod enum_access;
pub mod enums;
pub mod fields;
pub mod laws;
pub mod object_or;
mod payload;
mod payload_calls;
mod payloads;
mod reading;
pub mod slot;
pub mod slots;
pub mod struct_reader;
mod variant;
pub mod variant_access;
mod variant_name;
pub mod variants;
pub mod writing;

pub use crate::enums::{Variants, read_variants};
pub use crate::fields::{Codec, Fields, ReadOnly, WriteOnly};
pub use crate::object_or::ObjectOr;
pub use crate::payload::{Newtype, Struct, Unit};
pub use crate::payloads::OneOf;
pub use crate::slot::{Optional, Required};
pub use crate::variants::{put_variant, put_variant_fields};
pub use crate::writing::{Given, PutField, PutFields, put_fields};
pub use std::marker::PhantomData;
