//! A file as a message lists it.
ghost use Rattle.std.specs.Prelude.{◌≡◌, codes, [], ◌∷◌, refl};
ghost use Rattle.serde_bser.specs.StructFields.{required, optional, struct_meaning, none_lent};
ghost use Rattle.watchman_index.specs.Lists.{entry_of};
ghost use Rattle.watchman_index.specs.Rows.{state_of};

use crate::row::FileState;
use serde_bser::bytestring::ByteString;
use serde_bser::de::{Answer, Deserializer};
use serde_bser::prelude::*;
use std::alloc::Global;
use watchman_types::file_type::FileType;

/// A file as a message lists it, by the fields that an index keeps.
///
/// A request has to ask for `name` and `exists`, since without them it is not known which file it
/// is, or whether it was deleted.
#[derive(Debug, Drop)]
pub struct Listed {
    /// The path, from the root on. It need not be UTF-8.
    pub name: ByteString,
    /// Whether the file exists.
    pub exists: bool,
    /// How many bytes the file has.
    pub size: Option<u64>,
    /// The type and the permissions, as `stat` gives them.
    pub mode: Option<u32>,
    /// The type.
    pub kind: Option<FileType>,
    /// When the content last changed, in milliseconds from 1970 on.
    pub mtime_ms: Option<i64>,
}

impl Fields for Listed {
    ghost fields = { required (codes "name") (λ v. v.name) ⟦<ByteString as ReadOnly>⟧.coding
        ∷ required (codes "exists") (λ v. v.exists) ⟦<bool as ReadOnly>⟧.coding
        ∷ optional (codes "size") (λ v. v.size) ⟦<u64 as ReadOnly>⟧.coding
        ∷ optional (codes "mode") (λ v. v.mode) ⟦<u32 as ReadOnly>⟧.coding
        ∷ optional (codes "type") (λ v. v.kind) ⟦<FileType as ReadOnly>⟧.coding
        ∷ optional (codes "mtime_ms") (λ v. v.mtime_ms) ⟦<i64 as ReadOnly>⟧.coding
        ∷ [] };
}

impl Meant for Listed {
    ghost meaning = { struct_meaning ⟦<Listed as Fields>⟧.fields };
}

impl<L: LendsText> Deserialize<L> for Listed {
    fn deserialize<R: DeRead<Lent = L>>(alloc: Global, from: &mut Deserializer<R>) -> Answer<Self> {
        read_struct! {
            alloc,
            from,
            Listed {
                name: Required("name"),
                exists: Required("exists"),
                size: Optional("size"),
                mode: Optional("mode"),
                kind: Optional("type"),
                mtime_ms: Optional("mtime_ms"),
            }
        }
    }
}

impl OwnedShape for Listed {
    ghost owned = { refl };
}

impl Listed {
    /// Returns what is said of the file.
    pub fn state(&self) -> FileState
        ensures { result ≡ state_of self.now }
    {
        FileState {
            exists: self.exists,
            size: self.size,
            mode: self.mode,
            kind: self.kind,
            mtime_ms: self.mtime_ms,
        }
    }

    /// The name, and what is said of the file.
    pub(crate) fn into_entry(self) -> (ByteString, FileState)
        ensures { result ≡ entry_of self }
    {
        let state = self.state();
        (self.name, state)
    }
}
