//! Reporting a document to a builder, and making a `Value` of it.
ghost use Rattle.std.specs.Prelude.{◌≡◌, ℕ, List, true, IfOk, IfErr, OnOk, OnErr, IsUtf8};
ghost use Rattle.bser_format.specs.Content.{Content, value};
ghost use Rattle.bser_events.specs.Places.{place_at};
ghost use Rattle.bser_events.specs.Told.{told};
ghost use Rattle.bser_events.specs.declared.builder.Stop.TheVariants.{Asked};
ghost use Rattle.bser_value.specs.ValueView.{HoldsValue};
ghost use Rattle.bser_document.specs.DocumentView.{HoldsDocument, IsText, Within, event_of, piece, value_of};
ghost use Rattle.bser_document.specs.Tells.{Told, is_text_value};

use crate::document::{Document, DocumentNode};
use bser_events::builder::{Builder, Stop};
use bser_events::event::{Event, Place};
use bser_source::text::as_text;
use bser_value::builder::ValueBuilder;
use bser_value::value::Value;
use std::alloc::{AllocError, Global};

impl Document {
    /// Returns the `Value` that the document holds: each template as the array of its rows, and of
    /// equal keys the last. The only error is that there is no memory for it.
    pub fn to_value(&self, alloc: Global) -> Result<Value, AllocError>
        ensures whole { IfOk result (λ v. HoldsValue v (value (value_of self.now))) }
        ensures held { (c : Content) → HoldsDocument self.now c
            → IfOk result (λ v. HoldsValue v c) }
    {
        let mut builder = ValueBuilder::new(alloc);
        match self.tell(&mut builder) {
            Ok(()) => (),
            Err(_) => return Err(AllocError),
        }
        match builder.into_value() {
            Some(value) => Ok(value),
            None => Ok(Value::Null),
        }
    }

    /// Reports to a builder all events that were reported when the document was read, in their
    /// order.
    ///
    /// A document keeps no places: each starts and ends at 0. Nor does it keep the tags of keys,
    /// which are reported as if under no text's tag. The error is that of the builder.
    pub fn tell<B: Builder>(&self, builder: &mut B) -> Result<(), Stop>
        ensures told { OnOk result (Told B.takes self.now builder.old builder.new) }
        ensures stops { OnErr result (B.stops ≡ true) }
        ensures asked { IfErr result (λ stop. stop ≡ Asked → B.asks ≡ true) }
    {
        for node in &self.nodes {
            builder.take(self.event(*node), place(*node))?;
        }
        Ok(())
    }

    /// The event of a node.
    #[inline(always)]
    fn event(&self, node: DocumentNode) -> Event<'_>
        ensures { Within self.now.strings.items node
            → told result ≡ event_of self.now.strings.items node }
    {
        match node {
            DocumentNode::Null => Event::Null,
            DocumentNode::Bool(truth) => Event::Bool(truth),
            DocumentNode::Int(number) => Event::Int(number),
            DocumentNode::Real(bits) => Event::Real(bits),
            DocumentNode::Bytes { len, at } => Event::Bytes(self.string(len, at)),
            DocumentNode::Text { len, at } => Event::Text(self.text(len, at)),
            DocumentNode::Key { len, at } => Event::Key(self.text(len, at)),
            DocumentNode::Array { len, end: _ } => Event::Array { len },
            DocumentNode::Object { len, end: _ } => Event::Object { len },
            DocumentNode::Template { len, end: _ } => Event::Template { len },
            DocumentNode::Rows { len } => Event::Rows { len },
            DocumentNode::Skip => Event::Skip,
            DocumentNode::Close => Event::Close,
        }
    }

    /// The text of a string, from this place on.
    #[inline(always)]
    pub(crate) fn text(&self, len: usize, at: usize) -> &str
        ensures { IsText self.now.strings.items len at
            → result.now ≡ piece self.now.strings.items len at }
    {
        match as_text(self.string(len, at)) {
            Some(text) => text,
            None => "",
        }
    }
}

/// No place, of a node of this kind.
#[inline(always)]
fn place(node: DocumentNode) -> Place
    ensures { (s : List ℕ) → result ≡ place_at 0 0 (is_text_value (event_of s node)) }
{
    let is_text = match node {
        DocumentNode::Text { .. } => true,
        _ => false,
    };
    Place {
        start: 0,
        end: 0,
        is_text,
    }
}
