//! What a value is, without a look at what it has inside.
ghost use Rattle.std.specs.Prelude.{◌≡◌, Option, option_map, OnSome};
ghost use Rattle.bser_format.specs.Content.{value};
ghost use Rattle.bser_format.specs.Tree.{Tree};
ghost use Rattle.bser_value.specs.Contents.{as_bool, as_i64, as_f64, as_bytes, as_str};
ghost use Rattle.bser_document.specs.DocumentView.{HoldsDocument, IsInside, piece, value_of};
ghost use Rattle.bser_document.specs.Holds.{HoldsItem, IsNodeAt, IsOwnNode, IsPartNode, ShowsNode, item_value, kind_of, is_null, as_real_bits};

use crate::document::{Document, DocumentNode};
use crate::item::{Item, ItemKind};
use bser_format::real::float_of;
use bser_source::text::as_text;
use std::num::nearest_i64_to_f64;

impl Document {
    /// Returns the whole value.
    pub fn root(&self) -> Item<'_>
        ensures whole { HoldsItem result (value_of self.now) }
        ensures read { item_value result ≡ value_of self.now }
        ensures held { (u : Tree) → HoldsDocument self.now (value u) → HoldsItem result u }
    {
        Item {
            document: self,
            at: 0,
            keys: None,
        }
    }

    /// The node at this place.
    #[inline(always)]
    pub(crate) fn node(&self, at: usize) -> DocumentNode
        ensures { IsNodeAt self.now at result }
    {
        match self.nodes.get(at) {
            Some(node) => *node,
            None => DocumentNode::Null,
        }
    }

    /// The bytes of a string, from this place on.
    #[inline(always)]
    pub(crate) fn string(&self, len: usize, at: usize) -> &[u8]
        ensures { IsInside self.now.strings.items len at
            → result.now ≡ piece self.now.strings.items len at }
    {
        let Some(rest) = self.strings.get(at..) else {
            return &[];
        };
        match rest.get(..len) {
            Some(string) => string,
            None => &[],
        }
    }
}

impl<'d> Item<'d> {
    /// The node of the value, and of a row that of an object.
    #[inline(always)]
    pub(crate) fn node(self) -> DocumentNode
        ensures first { IsPartNode self.entry result }
        ensures own { IsOwnNode self.entry result }
        ensures shows { (u : Tree) → HoldsItem self.entry u
            → ShowsNode u self.entry.document.now result }
    {
        match self.keys {
            Some(keys) => DocumentNode::Object {
                len: keys.len,
                end: 0,
            },
            None => self.document.node(self.at),
        }
    }

    /// Returns what kind the value is of.
    pub fn kind(self) -> ItemKind
        ensures { (u : Tree) → HoldsItem self.entry u → result ≡ kind_of u }
    {
        match self.node() {
            DocumentNode::Bool(_) => ItemKind::Bool,
            DocumentNode::Int(_) => ItemKind::Integer,
            DocumentNode::Real(_) => ItemKind::Real,
            DocumentNode::Bytes { len: _, at: _ } => ItemKind::Bytes,
            DocumentNode::Text { len: _, at: _ } => ItemKind::Text,
            DocumentNode::Array { len: _, end: _ } => ItemKind::Array,
            DocumentNode::Template { len: _, end: _ } => ItemKind::Array,
            DocumentNode::Object { len: _, end: _ } => ItemKind::Object,
            _ => ItemKind::Null,
        }
    }

    /// Returns whether the value is null.
    pub fn is_null(self) -> bool
        ensures { (u : Tree) → HoldsItem self.entry u → result ≡ is_null u }
    {
        matches!(self.kind(), ItemKind::Null)
    }

    /// Returns the truth value, and `None` for all else.
    pub fn as_bool(self) -> Option<bool>
        ensures { (u : Tree) → HoldsItem self.entry u → result ≡ as_bool u }
    {
        match self.node() {
            DocumentNode::Bool(truth) => Some(truth),
            _ => None,
        }
    }

    /// Returns the integer, and `None` for all else, reals included.
    pub fn as_i64(self) -> Option<i64>
        ensures { (u : Tree) → HoldsItem self.entry u → result ≡ as_i64 u }
    {
        match self.node() {
            DocumentNode::Int(number) => Some(number),
            _ => None,
        }
    }

    /// Returns the bits of the real, and `None` for all else.
    pub fn as_real_bits(self) -> Option<u64>
        ensures { (u : Tree) → HoldsItem self.entry u → result ≡ as_real_bits u }
    {
        match self.node() {
            DocumentNode::Real(bits) => Some(bits),
            _ => None,
        }
    }

    /// Returns the real, or the `f64` nearest to the integer. `None` for a NaN, of which
    /// `f64::from_bits` makes no float, and for all that is no number.
    pub fn as_f64(self) -> Option<f64>
        ensures { (u : Tree) → HoldsItem self.entry u → result ≡ as_f64 u }
    {
        match self.node() {
            DocumentNode::Real(bits) => float_of(bits),
            DocumentNode::Int(number) => Some(nearest_i64_to_f64(number)),
            _ => None,
        }
    }

    /// Returns the bytes of a byte string or of a text, and `None` for all else.
    pub fn as_bytes(self) -> Option<&'d [u8]>
        ensures { (u : Tree) → HoldsItem self.entry u
            → option_map (λ bytes. bytes.now) result ≡ as_bytes u }
    {
        match self.node() {
            DocumentNode::Bytes { len, at } => Some(self.document.string(len, at)),
            DocumentNode::Text { len, at } => Some(self.document.string(len, at)),
            _ => None,
        }
    }

    /// Returns the text, and `None` for all else, a byte string that is UTF-8 included.
    pub fn as_str(self) -> Option<&'d str>
        ensures { (u : Tree) → HoldsItem self.entry u
            → option_map (λ text. text.now) result ≡ as_str u }
    {
        match self.node() {
            DocumentNode::Text { len, at } => as_text(self.document.string(len, at)),
            _ => None,
        }
    }
}
