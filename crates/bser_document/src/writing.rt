//! Writing a document, and a part of one.
ghost use Rattle.std.specs.Prelude.{◌≡◌, Ok};
ghost use Rattle.bser_document.specs.DocumentView.{value_of, weight_of};
ghost use Rattle.bser_document.specs.Holds.{item_value};

use crate::document::Document;
use crate::item::Item;
use crate::put::put_item;
use bser_format::errors::Result;
use bser_ser::{Serialize, Serializer};
use bser_source::device::Sink;
use std::alloc::Global;

/// The value that the document holds is written in the canonical form, as the `Value` of it would
/// be: each template as the array of its rows, and an object's keys once, in rising order. It
/// always has a tree. Writing calls itself once for each level.
impl Serialize for Document {
    ghost meaning = { λ d. Ok (value_of d) };

    fn serialize<W: Sink>(&self, alloc: Global, out: &mut Serializer<W>) -> Result<()> {
        put_item(alloc, self.root(), self.nodes.len() + 1, out)
    }
}

/// The value that the item is read as is written in the canonical form, as the document's is. Writing
/// calls itself once for each level.
impl Serialize for Item<'_> {
    ghost meaning = { λ i. Ok (item_value i) };

    fn serialize<W: Sink>(&self, alloc: Global, out: &mut Serializer<W>) -> Result<()> {
        put_item(alloc, *self, self.document.nodes.len() + 2, out)
    }
}

impl Document {
    /// Returns how many nodes it has, and how many bytes of strings, counted together. A message
    /// has no fewer bytes than the document that is read of it.
    pub fn weight(&self) -> usize
        ensures { result ≡ weight_of self.now }
    {
        self.nodes.len() + self.strings.len()
    }
}
