//! What a type does not read of a well-formed message.
use serde_bser::describe::{FieldName, Path, Wanted};
use serde_bser::document::Kind;
use std::fmt;

/// Why a type does not read a message. It prints as a few words, as `out of range: -1`.
#[derive(Debug, Drop)]
pub enum Reason {
    /// A value of another kind than the type reads.
    WrongType { wanted: Wanted, found: Kind },
    /// An integer that the type does not hold.
    OutOfRange(i64),
    /// A text is wanted, and the bytes are not UTF-8.
    NotUtf8,
    /// Another value that the type does not hold.
    Invalid,
    /// A field that has to be there is missing.
    Missing(FieldName),
    /// A field comes twice.
    Repeated(FieldName),
    /// A key that no field has, of a type that takes no other.
    UnknownField,
    /// A name that no variant has.
    UnknownVariant,
    /// An array of more or fewer items than the type has.
    WrongLength,
    /// What the type itself says, as far as it is kept.
    Custom(FieldName),
}

/// What a type does not read of a well-formed message, and where it is.
///
/// It prints as one line without an end, as `out of range: -1, at byte 104, in files[17].size`.
#[derive(Debug, Drop)]
pub struct Misfit {
    /// Why the type does not read it.
    pub reason: Reason,
    /// How many bytes of the message come before the value that the type does not take, the part
    /// that is too many, or the second value of a field. Of an array or an object with too few parts,
    /// or without a field, they are those up to its end, or to that of its row.
    pub place: usize,
    /// The way to that value. Of a field that is missing it is where the field would be.
    pub path: Path,
}

impl fmt::Display for Reason {
    fn fmt<W: fmt::Write>(&self, f: &mut fmt::Formatter<W>) -> fmt::Result {
        match self {
            Reason::WrongType { wanted, found } => {
                let (found, wanted) = (kind_name(*found), wanted_name(*wanted));
                write!(f, "wrong type: {found} where {wanted} is wanted")
            }
            Reason::OutOfRange(number) => write!(f, "out of range: {number}"),
            Reason::NotUtf8 => f.write_str("invalid UTF-8"),
            Reason::Invalid => f.write_str("a value that the type does not hold"),
            Reason::Missing(name) => write!(f, "field \"{name}\": missing"),
            Reason::Repeated(name) => write!(f, "field \"{name}\": repeated"),
            Reason::UnknownField => f.write_str("unknown field"),
            Reason::UnknownVariant => f.write_str("unknown variant"),
            Reason::WrongLength => f.write_str("an array of another length than the type has"),
            Reason::Custom(text) => write!(f, "{text}"),
        }
    }
}

impl fmt::Display for Misfit {
    fn fmt<W: fmt::Write>(&self, f: &mut fmt::Formatter<W>) -> fmt::Result {
        write!(
            f,
            "{}, at byte {}, in {}",
            self.reason, self.place, self.path
        )
    }
}

impl std::error::Error for Misfit {}

/// What a value of this kind is called.
fn kind_name(kind: Kind) -> &'static str {
    match kind {
        Kind::Null => "null",
        Kind::Bool => "a truth value",
        Kind::Integer => "an integer",
        Kind::Real => "a real",
        Kind::Bytes => "a byte string",
        Kind::Text => "a text",
        Kind::Array => "an array",
        Kind::Object => "an object",
    }
}

/// What the value that is wanted is called.
fn wanted_name(wanted: Wanted) -> &'static str {
    match wanted {
        Wanted::Value => "another value",
        Wanted::Integer => "an integer",
        Wanted::Truth => "true or false",
        Wanted::Real => "a real",
        Wanted::Null => "null",
        Wanted::Text => "a text or a byte string",
        Wanted::Array => "an array",
        Wanted::Object => "an object",
    }
}
