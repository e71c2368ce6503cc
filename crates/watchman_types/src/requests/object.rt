//! An object of fields.
ghost use Rattle.bser_structs.specs.Entries.{entries_tree};

use bser_format::errors::Result;
use bser_ser::{Serialize, Serializer};
use bser_source::device::Sink;
use bser_structs::{PutFields, put_fields};
use std::alloc::Global;

/// The object of these fields, as an argument of a command.
#[derive(Clone, Copy)]
pub struct Object<F>(pub F);

impl<F: PutFields> Serialize for Object<F> {
    ghost meaning = { λ o. entries_tree (F.entries o.0) };

    fn serialize<W: Sink>(&self, alloc: Global, out: &mut Serializer<W>) -> Result<()> {
        put_fields(alloc, out, &self.0)
    }
}
