//! What is made of the events of a value.
ghost use Rattle.std.specs.Prelude.{◌≡◌, ℕ, true, false, [], ◌∷◌, ◌++◌, length, string_bytes, Some, OnOk, IfOk};
ghost use Rattle.bser_events.specs.Events as events;
ghost use Rattle.bser_events.specs.Told.{told};
ghost use Rattle.bser_events.specs.declared.builder.Stop.TheVariants.{Memory};
ghost use Rattle.bser_document.specs.DocumentView.{Views, ViewsValue, Takes, SameEvents, Closes, end_of, with_end};
ghost use Rattle.bser_document.specs.declared.document.DocumentNode.TheVariants as nodes;

use crate::document::{Document, DocumentNode};
use bser_events::builder::{Builder, Stop};
use bser_events::event::{Event, Place};
use std::alloc::{AllocError, Global};

/// Gathers the nodes.
#[derive(Drop)]
pub struct DocumentBuilder {
    nodes: Vec<DocumentNode>,
    strings: Vec<u8>,
    /// The node of the innermost open container. Where its end will be it has the node of the
    /// container around it, so that no list of them is kept.
    innermost: usize,
}

/// The node of no container.
const NO_NODE: usize = usize::MAX;

impl DocumentBuilder {
    /// Begins with nothing read, in the memory that the nodes of this document have, if there is one.
    /// The bytes of its strings are given back, since a long string is taken in memory of its own.
    pub fn new(alloc: Global, before: Option<Document>) -> Self
        ensures { Views result [] }
    {
        let Some(document) = before else {
            return DocumentBuilder {
                nodes: Vec::new(alloc),
                strings: Vec::new(alloc),
                innermost: NO_NODE,
            };
        };
        let Document {
            mut nodes,
            strings: _,
        } = document;
        nodes.clear();
        DocumentBuilder {
            nodes,
            strings: Vec::new(alloc),
            innermost: NO_NODE,
        }
    }

    /// What was reported, which is the whole of a value.
    pub(crate) fn into_document(self) -> Document
        requires { ViewsValue self }
        ensures nodes { result.nodes ≡ self.nodes }
        ensures strings { result.strings ≡ self.strings }
    {
        let DocumentBuilder {
            nodes,
            strings,
            innermost: _,
        } = self;
        Document { nodes, strings }
    }

    /// Puts a node behind the others.
    #[inline(always)]
    fn put(&mut self, node: DocumentNode) -> Result<(), AllocError>
        ensures nodes { OnOk result (self.new.nodes.items ≡ self.old.nodes.items ++ node ∷ []) }
        ensures strings { OnOk result (self.new.strings ≡ self.old.strings) }
        ensures innermost { OnOk result (self.new.innermost ≡ self.old.innermost) }
    {
        self.nodes.push(node)?;
        Ok(())
    }

    /// Keeps a copy of a string, and answers its place.
    #[inline(always)]
    fn keep(&mut self, string: &[u8]) -> Result<usize, AllocError>
        ensures place { IfOk result (λ at. at ≡ length self.old.strings.items) }
        ensures strings { OnOk result
            (self.new.strings.items ≡ self.old.strings.items ++ string.now) }
        ensures nodes { OnOk result (self.new.nodes ≡ self.old.nodes) }
        ensures innermost { OnOk result (self.new.innermost ≡ self.old.innermost) }
    {
        let at = self.strings.len();
        self.strings.extend_from_slice(string)?;
        Ok(at)
    }

    /// Keeps a string, and answers its place. What is kept up to now is put in front of it where
    /// that is less, so that no more than the shorter of the two is held twice.
    fn keep_whole(&mut self, string: Vec<u8>) -> Result<usize, AllocError>
        ensures place { IfOk result (λ at. at ≡ length self.old.strings.items) }
        ensures strings { OnOk result
            (self.new.strings.items ≡ self.old.strings.items ++ string.items) }
        ensures nodes { OnOk result (self.new.nodes ≡ self.old.nodes) }
        ensures innermost { OnOk result (self.new.innermost ≡ self.old.innermost) }
    {
        let at = self.strings.len();
        if string.len() <= at {
            return self.keep(string.as_slice());
        }
        let mut strings = string;
        strings.extend_from_slice(self.strings.as_slice())?;
        strings.rotate_right(at);
        self.strings = strings;
        Ok(at)
    }

    /// Puts the head of a container behind the others.
    #[inline(never)]
    fn begin(&mut self, node: DocumentNode) -> Result<(), AllocError>
        ensures nodes { OnOk result (self.new.nodes.items ≡ self.old.nodes.items ++ node ∷ []) }
        ensures strings { OnOk result (self.new.strings ≡ self.old.strings) }
        ensures innermost { OnOk result (self.new.innermost ≡ length self.old.nodes.items) }
    {
        let at = self.nodes.len();
        self.nodes.push(node)?;
        self.innermost = at;
        Ok(())
    }

    /// Puts the end of the innermost container behind the others, and writes where it is.
    #[inline(never)]
    fn close(&mut self) -> Result<(), AllocError>
        ensures nodes { OnOk result
            (SameEvents (self.old.nodes.items ++ nodes.Close ∷ []) self.new.nodes.items) }
        ensures strings { OnOk result (self.new.strings ≡ self.old.strings) }
        ensures ends { OnOk result (Closes self.old self.new) }
    {
        self.nodes.push(DocumentNode::Close)?;
        let last = self.nodes.len();
        if let Some(node) = self.nodes.get_mut(self.innermost) {
            let (closed, outer) = ended(*node, last);
            *node = closed;
            self.innermost = outer;
        }
        Ok(())
    }
}

/// A container's node with its end, and the node that it had in its place.
#[inline(always)]
fn ended(node: DocumentNode, last: usize) -> (DocumentNode, usize)
    ensures same { SameEvents (node ∷ []) (result.0 ∷ []) }
    ensures ends { end_of result.0 ≡ with_end last (end_of node) }
    ensures outer { (at : ℕ) → end_of node ≡ Some at → result.1 ≡ at }
{
    match node {
        DocumentNode::Array { len, end } => (DocumentNode::Array { len, end: last }, end),
        DocumentNode::Object { len, end } => (DocumentNode::Object { len, end: last }, end),
        DocumentNode::Template { len, end } => (DocumentNode::Template { len, end: last }, end),
        _ => (node, NO_NODE),
    }
}

impl DocumentBuilder {
    /// Takes an event.
    #[inline(always)]
    fn put_event(&mut self, event: Event<'_>) -> Result<(), AllocError>
        ensures { OnOk result (Takes self.old (told event.entry) self.new) }
    {
        match event {
            Event::Null => self.put(DocumentNode::Null),
            Event::Skip => self.put(DocumentNode::Skip),
            Event::Bool(truth) => self.put(DocumentNode::Bool(truth)),
            Event::Int(number) => self.put(DocumentNode::Int(number)),
            Event::Real(bits) => self.put(DocumentNode::Real(bits)),
            Event::Bytes(string) => {
                let at = self.keep(string)?;
                self.put(DocumentNode::Bytes {
                    len: string.len(),
                    at,
                })
            }
            Event::Text(string) => {
                let at = self.keep(string.as_bytes())?;
                self.put(DocumentNode::Text {
                    len: string.len(),
                    at,
                })
            }
            Event::Array { len } => self.begin(DocumentNode::Array {
                len,
                end: self.innermost,
            }),
            Event::Object { len } => self.begin(DocumentNode::Object {
                len,
                end: self.innermost,
            }),
            Event::Key(key) => {
                let at = self.keep(key.as_bytes())?;
                self.put(DocumentNode::Key { len: key.len(), at })
            }
            Event::Template { len } => self.begin(DocumentNode::Template {
                len,
                end: self.innermost,
            }),
            Event::Rows { len } => self.put(DocumentNode::Rows { len }),
            Event::Close => self.close(),
        }
    }
}

impl DocumentBuilder {
    /// Takes a text.
    fn put_text(&mut self, text: String) -> Result<(), AllocError>
        ensures { OnOk result (Takes self.old (events.text (string_bytes text)) self.new) }
    {
        let len = text.len();
        let at = self.keep_whole(text.into_bytes())?;
        self.put(DocumentNode::Text { len, at })
    }

    /// Takes a byte string.
    fn put_bytes(&mut self, string: Vec<u8>) -> Result<(), AllocError>
        ensures { OnOk result (Takes self.old (events.bytes string.items) self.new) }
    {
        let len = string.len();
        let at = self.keep_whole(string)?;
        self.put(DocumentNode::Bytes { len, at })
    }
}

impl Builder for DocumentBuilder {
    ghost takes = { λ a e _ b. Takes a e b };

    ghost stopped = { λ stop _ _ _ _. stop ≡ Memory };

    ghost stops = { true };

    ghost asks = { false };

    ghost bytes = { true };

    #[inline(always)]
    fn wants_bytes(&self) -> bool {
        true
    }

    #[inline(always)]
    fn take(&mut self, event: Event<'_>, _place: Place) -> Result<(), Stop> {
        match self.put_event(event) {
            Ok(()) => Ok(()),
            Err(_) => Err(Stop::Memory),
        }
    }

    fn take_text(&mut self, text: String, _place: Place) -> Result<(), Stop> {
        match self.put_text(text) {
            Ok(()) => Ok(()),
            Err(_) => Err(Stop::Memory),
        }
    }

    fn take_bytes(&mut self, string: Vec<u8>, _place: Place) -> Result<(), Stop> {
        match self.put_bytes(string) {
            Ok(()) => Ok(()),
            Err(_) => Err(Stop::Memory),
        }
    }

    fn bytes_passed(&mut self, _len: usize, _place: Place) -> Result<(), Stop> {
        Ok(())
    }
}
