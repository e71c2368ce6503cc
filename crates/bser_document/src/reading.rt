//! Reading a document.
ghost use Rattle.std.specs.Prelude.{refl, Some, None, IfOk, OnErr};
ghost use Rattle.bser_format.specs.ReadsAny.{reads_value};
ghost use Rattle.bser_deserializer.specs.Askings.{asking_value};
ghost use Rattle.bser_deserializer.specs.Calls.{RefusesAs};
ghost use Rattle.bser_deserializer.specs.Reading.{owned};
ghost use Rattle.bser_document.specs.DocumentView.{HoldsDocument};
ghost use Rattle.bser_document.specs.Read.{ReadsDocument};

use crate::builder::DocumentBuilder;
use crate::document::Document;
use bser_bunser::refusal::Answer;
use bser_deserializer::deserializer::Deserializer;
use bser_source::read::DeRead;
use bser_source::reference::LendsText;
use bser_types::deserialize::{Deserialize, OwnedShape, Shape};
use std::alloc::Global;

impl Document {
    /// Reads what is expected, whatever it is, and keeps it as it is spelled.
    ///
    /// A value takes no more nodes and bytes of strings, counted together, than it has bytes in the
    /// message. The errors are those of a `Value`.
    pub fn read<R: DeRead>(alloc: Global, from: &mut Deserializer<R>) -> Answer<Document>
        ensures found { IfOk result (ReadsDocument from.old from.new) }
        ensures refused { OnErr result (RefusesAs asking_value owned from.old from.new) }
    {
        let mut builder = DocumentBuilder::new(alloc, None);
        from.read_any(&mut builder)?;
        Ok(builder.into_document())
    }
}

/// Any value is read, as a key's text or bytes too, and holds what a `Value` would. Out of memory
/// is `Error::OutOfMemory`.
impl Shape for Document {
    ghost reads = { reads_value };

    ghost holds = { HoldsDocument };

    ghost needs = { owned };

    ghost asks = { Some asking_value };

    ghost plain = { None };
}

impl<L: LendsText> Deserialize<L> for Document {
    fn deserialize<R: DeRead<Lent = L>>(
        alloc: Global,
        from: &mut Deserializer<R>,
    ) -> Answer<Document> {
        Document::read(alloc, from)
    }
}

impl OwnedShape for Document {
    ghost owned = { refl };
}
