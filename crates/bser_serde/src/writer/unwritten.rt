//! Why a value has no message.
use crate::write_error::WriteError;
use crate::writer::{Role, Writer};
use bser_draft::DraftError;
use serde_bser::errors::{Collection, Complaint, Error, Message};
use std::alloc::Global;

/// A value has no form in a message, for this reason.
#[cold]
#[inline(never)]
pub(super) fn refusal(alloc: Global, reason: &str) -> WriteError {
    match String::from_str(alloc, reason) {
        Ok(text) => {
            let msg = Message::Made(text);
            WriteError::of(alloc, Error::SerCustom { msg })
        }
        Err(_) => WriteError::MEMORY,
    }
}

impl Writer {
    /// The draft refused a part.
    #[cold]
    #[inline(never)]
    pub(super) fn refused(&self, refused: DraftError) -> WriteError {
        match refused {
            DraftError::Unexpected => self.unexpected(),
            DraftError::OutOfMemory => WriteError::MEMORY,
            _ => WriteError::of(self.alloc, refused.into_error()),
        }
    }

    /// No value may come that is no text and no map: a key is due, a flattened value, or nothing.
    #[cold]
    #[inline(never)]
    pub(super) fn unexpected(&self) -> WriteError {
        match self.role {
            Role::Value => WriteError::of(self.alloc, DraftError::Unexpected.into_error()),
            Role::Key => refusal(self.alloc, "a key that is no text"),
            Role::Flat => refusal(self.alloc, "a flattened value that is no object"),
        }
    }

    /// An unsigned integer has no form in a message.
    #[cold]
    #[inline(never)]
    pub(super) fn too_big(&self, v: u64) -> WriteError {
        WriteError::of(self.alloc, Error::SerU64TooBig { v })
    }

    /// An integer of 128 bits has no form in a message.
    #[cold]
    #[inline(never)]
    pub(super) fn out_of_range(&self) -> WriteError {
        WriteError::of(self.alloc, Error::ser_custom(Complaint::IntegerOutOfRange))
    }

    /// An array does not know how many items it has.
    #[cold]
    #[inline(never)]
    pub(super) fn uncounted(&self) -> WriteError {
        let kind = Collection::Sequence;
        WriteError::of(self.alloc, Error::SerNeedSize { kind })
    }
}
