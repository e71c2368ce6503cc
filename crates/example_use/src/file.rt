//! A struct that is read and written.
ghost use Rattle.std.specs.Prelude.{codes, [], ◌∷◌, refl};
ghost use Rattle.serde_bser.specs.StructFields.{required, struct_meaning, fields_tree};

use anyhow::bail;
use serde_bser::bytestring::ByteString;
use serde_bser::de::{Answer, Deserializer};
use serde_bser::describe;
use serde_bser::device::Sink;
use serde_bser::errors::Result;
use serde_bser::prelude::*;
use serde_bser::ser::{Serialize, Serializer, to_vec};
use std::alloc::Global;

/// A file. Its name need not be UTF-8.
#[derive(Drop)]
pub struct File {
    pub name: ByteString,
    pub size: u64,
}

impl Fields for File {
    ghost fields = { required (codes "name") (λ v. v.name) ⟦<ByteString as Codec>⟧.coding
        ∷ required (codes "size") (λ v. v.size) ⟦<u64 as Codec>⟧.coding
        ∷ [] };
}

impl Meant for File {
    ghost meaning = { struct_meaning ⟦<File as Fields>⟧.fields };
}

impl<L: LendsText> Deserialize<L> for File {
    fn deserialize<R: DeRead<Lent = L>>(alloc: Global, from: &mut Deserializer<R>) -> Answer<File> {
        read_struct! { alloc, from, File { name: Required("name"), size: Required("size") } }
    }
}

impl OwnedShape for File {
    ghost owned = { refl };
}

impl Serialize for File {
    ghost meaning = { fields_tree ⟦<File as Fields>⟧.fields };

    fn serialize<W: Sink>(&self, alloc: Global, out: &mut Serializer<W>) -> Result<()> {
        put_struct!(alloc, out, self, { name: Required("name"), size: Required("size") })
    }
}

/// Reads a file's message, and writes that of the same file when it is empty.
pub fn truncated(alloc: Global, message: &[u8]) -> anyhow::Result<Vec<u8>> {
    let mut file: File = match describe::from_slice(alloc, message) {
        Ok(file) => file,
        Err(error) => {
            let path = error.path(alloc, message)?;
            bail!("{error}, in {path}")
        }
    };
    file.size = 0;
    Ok(to_vec(alloc, &file)?)
}
