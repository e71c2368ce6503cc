//! An answer of a server with its clock and files, by lists of fields and by derives.
ghost use Rattle.std.specs.Prelude.{codes, [], ◌∷◌, refl};
ghost use Rattle.bser_structs.specs.Fields.{required, optional, struct_meaning};

use serde_bser::de;
use serde_bser::de::Deserializer;
use serde_bser::prelude::*;
use std::alloc::Global;

/// What an answer has of a file.
#[derive(Drop, serde::Deserialize)]
pub struct AnsweredFile {
    pub name: String,
    pub size: u64,
    pub mtime_ms: Option<i64>,
    pub exists: bool,
    pub mode: Option<i32>,
}

impl Fields for AnsweredFile {
    ghost fields = { required (codes "name") (λ v. v.name) ⟦<String as ReadOnly>⟧.coding
        ∷ required (codes "size") (λ v. v.size) ⟦<u64 as ReadOnly>⟧.coding
        ∷ optional (codes "mtime_ms") (λ v. v.mtime_ms) ⟦<i64 as ReadOnly>⟧.coding
        ∷ required (codes "exists") (λ v. v.exists) ⟦<bool as ReadOnly>⟧.coding
        ∷ optional (codes "mode") (λ v. v.mode) ⟦<i32 as ReadOnly>⟧.coding
        ∷ [] };
}

impl Meant for AnsweredFile {
    ghost meaning = { struct_meaning ⟦<AnsweredFile as Fields>⟧.fields };
}

impl<L: LendsText> Deserialize<L> for AnsweredFile {
    fn deserialize<R: DeRead<Lent = L>>(
        alloc: Global,
        from: &mut Deserializer<R>,
    ) -> de::Answer<AnsweredFile> {
        read_struct!(
            alloc,
            from,
            AnsweredFile {
                name: Required("name"),
                size: Required("size"),
                mtime_ms: Optional("mtime_ms"),
                exists: Required("exists"),
                mode: Optional("mode"),
            }
        )
    }
}

impl OwnedShape for AnsweredFile {
    ghost owned = { refl };
}

/// An answer, with its clock and its files.
#[derive(Drop, serde::Deserialize)]
pub struct FilesAnswer {
    pub clock: String,
    pub files: Vec<AnsweredFile>,
}

impl Fields for FilesAnswer {
    ghost fields = { required (codes "clock") (λ v. v.clock) ⟦<String as ReadOnly>⟧.coding
        ∷ required (codes "files") (λ v. v.files) ⟦<Vec<AnsweredFile> as ReadOnly>⟧.coding
        ∷ [] };
}

impl Meant for FilesAnswer {
    ghost meaning = { struct_meaning ⟦<FilesAnswer as Fields>⟧.fields };
}

impl<L: LendsText> Deserialize<L> for FilesAnswer {
    fn deserialize<R: DeRead<Lent = L>>(
        alloc: Global,
        from: &mut Deserializer<R>,
    ) -> de::Answer<FilesAnswer> {
        read_struct!(
            alloc,
            from,
            FilesAnswer {
                clock: Required("clock"),
                files: Required("files"),
            }
        )
    }
}

impl OwnedShape for FilesAnswer {
    ghost owned = { refl };
}
