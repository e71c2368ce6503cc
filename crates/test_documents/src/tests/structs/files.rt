//! A file, of which each field is owned, read and written.
ghost use Rattle.std.specs.Prelude.{codes, [], ◌∷◌, refl};
ghost use Rattle.bser_structs.specs.Fields.{required, optional, nullable, struct_meaning, fields_tree};

use serde_bser::bytestring::ByteString;
use serde_bser::de::{Answer, Deserializer};
use serde_bser::device::Sink;
use serde_bser::errors::Result;
use serde_bser::prelude::*;
use serde_bser::ser::{Serialize, Serializer};
use std::alloc::Global;

/// What is known of a file.
#[derive(Debug, Drop)]
pub struct KnownFile {
    pub name: ByteString,
    pub size: u64,
    pub mtime_ms: Option<u64>,
    pub exists: Option<bool>,
    pub kind: Option<String>,
}

impl Fields for KnownFile {
    ghost fields = { required (codes "name") (λ v. v.name) ⟦<ByteString as Codec>⟧.coding
        ∷ required (codes "size") (λ v. v.size) ⟦<u64 as Codec>⟧.coding
        ∷ nullable (codes "mtime_ms") (λ v. v.mtime_ms) ⟦<u64 as Codec>⟧.coding
        ∷ optional (codes "exists") (λ v. v.exists) ⟦<bool as Codec>⟧.coding
        ∷ optional (codes "type") (λ v. v.kind) ⟦<String as Codec>⟧.coding
        ∷ [] };
}

impl Meant for KnownFile {
    ghost meaning = { struct_meaning ⟦<KnownFile as Fields>⟧.fields };
}

impl<L: LendsText> Deserialize<L> for KnownFile {
    fn deserialize<R: DeRead<Lent = L>>(
        alloc: Global,
        from: &mut Deserializer<R>,
    ) -> Answer<KnownFile> {
        read_struct!(
            alloc,
            from,
            KnownFile {
                name: Required("name"),
                size: Required("size"),
                mtime_ms: Nullable("mtime_ms"),
                exists: Optional("exists"),
                kind: Optional("type"),
            }
        )
    }
}

impl OwnedShape for KnownFile {
    ghost owned = { refl };
}

impl Serialize for KnownFile {
    ghost meaning = { fields_tree ⟦<KnownFile as Fields>⟧.fields };

    fn serialize<W: Sink>(&self, alloc: Global, out: &mut Serializer<W>) -> Result<()> {
        put_struct!(alloc, out, self, {
            name: Required("name"),
            size: Required("size"),
            mtime_ms: Nullable("mtime_ms"),
            exists: Optional("exists"),
            kind: Optional("type"),
        })
    }
}
