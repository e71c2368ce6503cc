//! A value inside a document.
ghost use Rattle.bser_document.specs.Parts.{IsRowIfKeyed};

use crate::document::Document;

/// What kind a value is of.
#[derive(Debug, Clone, Copy, PartialEq, Eq)]
pub enum ItemKind {
    /// Null, as a skipped field of a row is.
    Null,
    /// A truth value.
    Bool,
    /// An integer.
    Integer,
    /// A real.
    Real,
    /// A byte string.
    Bytes,
    /// A text.
    Text,
    /// An array, as a template is one of its rows.
    Array,
    /// An object, as a row of a template is.
    Object,
}

/// Where the keys of a row are: the first of them, and how many.
#[derive(Clone, Copy)]
pub(crate) struct Keys {
    pub(crate) at: usize,
    pub(crate) len: usize,
}

/// A value inside a document, as it is read. A template is the array of its rows, a row is the
/// object of its keys and fields, and a skipped field is null.
#[derive(Clone, Copy)]
pub struct Item<'d> {
    pub(crate) document: &'d Document,
    pub(crate) at: usize,
    // the keys of a row, and none for any other value
    pub(crate) keys: Option<Keys>,
    ghost row: { ∥ IsRowIfKeyed document.now keys at ∥₁ },
}
