//! What is expected.

/// What the next call reads.
#[derive(Debug, Clone, Copy, PartialEq, Eq)]
pub enum Due {
    /// Nothing: the value was read.
    Nothing,
    /// A value.
    Node,
    /// An object's key.
    Key,
    /// A field of a template's row.
    Field,
    /// The key of a row's field. It has no bytes.
    Name,
    /// A template's row. It has no bytes but those of its fields.
    Row,
}
