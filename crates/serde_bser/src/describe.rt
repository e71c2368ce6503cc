//! Reading with errors that are described for people: the cause in plain words, the field, what was
//! found and what is wanted, and the place.

pub use bser_messages::described::{
    from_reader, from_reader_within, from_slice, from_slice_within,
};
pub use bser_messages::description::{Description, FieldName, Finding, Note, Wanted};
pub use bser_messages::path::{Path, Step};
