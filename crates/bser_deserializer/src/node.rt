//! The kinds of values.
ghost use Rattle.std.specs.Prelude.{◌≡◌, ℕ, List};
ghost use Rattle.bser_format.specs.DueReaders.{tag};
ghost use Rattle.bser_deserializer.specs.Nodes.{node_at, tag_node};
ghost use Rattle.bser_deserializer.specs.Dues.{due_of};

use crate::due::Due;
use bser_format::header::{
    BSER_ARRAY, BSER_BYTESTRING, BSER_FALSE, BSER_INT8, BSER_INT64, BSER_NULL, BSER_OBJECT,
    BSER_REAL, BSER_SKIP, BSER_TEMPLATE, BSER_TRUE, BSER_UTF8STRING,
};

/// The kind of a value that is expected.
#[derive(Debug, Clone, Copy, PartialEq, Eq)]
pub enum Node {
    /// A null, or a skipped field of a template's row.
    Null,
    /// A truth value.
    Bool,
    /// An integer of any width.
    Integer,
    /// A real.
    Real,
    /// A byte string.
    Bytes,
    /// A text.
    Text,
    /// An array, or a template.
    Array,
    /// An object, or a template's row.
    Object,
    /// The key of an object's entry, or of a row's field.
    Key,
}

impl Node {
    /// Returns the kind of what has this tag where this is expected. None where such a tag may not
    /// be there.
    #[inline(always)]
    pub fn at(due: Due, byte: u8) -> Option<Node>
        ensures { (ks : List (List ℕ)) (place : ℕ) → result ≡ node_at (due_of ks place due)
            (tag byte) }
    {
        match (due, byte) {
            (Due::Key, BSER_BYTESTRING | BSER_UTF8STRING) => Some(Node::Key),
            (Due::Field, BSER_SKIP) => Some(Node::Null),
            (Due::Node | Due::Field, _) => Node::of_tag(byte),
            _ => None,
        }
    }

    /// The kind of a value with this tag.
    #[inline(always)]
    fn of_tag(byte: u8) -> Option<Node>
        ensures { result ≡ tag_node byte }
    {
        match byte {
            BSER_NULL => Some(Node::Null),
            BSER_TRUE | BSER_FALSE => Some(Node::Bool),
            BSER_INT8..=BSER_INT64 => Some(Node::Integer),
            BSER_REAL => Some(Node::Real),
            BSER_BYTESTRING => Some(Node::Bytes),
            BSER_UTF8STRING => Some(Node::Text),
            BSER_ARRAY | BSER_TEMPLATE => Some(Node::Array),
            BSER_OBJECT => Some(Node::Object),
            _ => None,
        }
    }
}
