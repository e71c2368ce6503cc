//! A message, as a list of nodes.
ghost use Rattle.bser_document.specs.Whole.{TellsTree, HoldsStrings, HoldsNoMore, HasEnds, HasWholeRowsIn, ReadsValue, HoldsValueTree};

/// A part of a message, in the order of reading.
#[derive(Clone, Copy)]
pub enum DocumentNode {
    /// Null.
    Null,
    /// A truth value.
    Bool(bool),
    /// An integer.
    Int(i64),
    /// The bits of a real.
    Real(u64),
    /// A byte string, by its place in the strings.
    Bytes {
        /// How many bytes it has.
        len: usize,
        /// How many bytes are before it.
        at: usize,
    },
    /// A text.
    Text {
        /// How many bytes it has.
        len: usize,
        /// How many bytes are before it.
        at: usize,
    },
    /// A key of an object or of a template.
    Key {
        /// How many bytes it has.
        len: usize,
        /// How many bytes are before it.
        at: usize,
    },
    /// An array.
    Array {
        /// How many items follow.
        len: usize,
        /// The place behind its [`DocumentNode::Close`].
        end: usize,
    },
    /// An object.
    Object {
        /// How many entries follow, each a key and a value.
        len: usize,
        /// The place behind its [`DocumentNode::Close`].
        end: usize,
    },
    /// A template.
    Template {
        /// How many keys follow, and then the rows.
        len: usize,
        /// The place behind its [`DocumentNode::Close`].
        end: usize,
    },
    /// The rows of a template.
    Rows {
        /// How many rows follow, each with a field for each key.
        len: usize,
    },
    /// A missing field of a row.
    Skip,
    /// The end of an array, an object or a template.
    Close,
}

/// Any value, as it is spelled in a message.
#[derive(Drop)]
pub struct Document {
    pub(crate) nodes: Vec<DocumentNode>,
    pub(crate) strings: Vec<u8>,
    ghost tells: { ∥ TellsTree nodes.items strings.items ∥₁ },
    ghost within: { ∥ HoldsStrings nodes.items strings.items ∥₁ },
    ghost total: { HoldsNoMore nodes.items strings.items },
    ghost ends: { ∥ HasEnds nodes.items strings.items ∥₁ },
    ghost rows: { ∥ HasWholeRowsIn nodes.items strings.items ∥₁ },
    ghost reads: { ∥ ReadsValue nodes.items strings.items ∥₁ },
    ghost values: { ∥ HoldsValueTree nodes.items strings.items ∥₁ },
}
