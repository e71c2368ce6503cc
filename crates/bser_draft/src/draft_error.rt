//! Why a part of a value was not put.
use bser_format::errors::{Complaint, Error, Kind};
use bser_ser::PutRefused;

/// Why a part of a value was not put.
#[derive(Debug, Clone, Copy, PartialEq, Eq)]
pub enum DraftError {
    /// It may not come here: an item or an entry more than was announced, a value where a key is
    /// due, or an end before all has come.
    Unexpected,
    /// A count above `i64::MAX`.
    CountTooGreat,
    /// An array below the deepest level.
    ArrayTooDeep,
    /// An object below the deepest level.
    ObjectTooDeep,
    /// No memory is left.
    OutOfMemory,
}

/// What a put came to.
pub(crate) type Put = std::result::Result<(), DraftError>;

impl DraftError {
    /// The error of this name: `SerCustom` `ValueOpen` where the part is unexpected, `SerCustom`
    /// `CountTooGreat`, `DeRecursionLimitExceeded`, or `OutOfMemory`.
    pub fn into_error(self) -> Error {
        match self {
            DraftError::Unexpected => Error::ser_custom(Complaint::ValueOpen),
            DraftError::CountTooGreat => Error::ser_custom(Complaint::CountTooGreat),
            DraftError::ArrayTooDeep => Error::DeRecursionLimitExceeded { kind: Kind::Array },
            DraftError::ObjectTooDeep => Error::DeRecursionLimitExceeded { kind: Kind::Object },
            DraftError::OutOfMemory => Error::OutOfMemory,
        }
    }
}

impl From<PutRefused> for DraftError {
    /// A draft puts into memory, so that nothing else refuses it.
    #[inline(always)]
    fn from(_refused: PutRefused) -> DraftError {
        DraftError::OutOfMemory
    }
}
