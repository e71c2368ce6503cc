//! What is asked of a server, which is written alone.
ghost use Rattle.std.specs.Prelude.{codes, [], ◌∷◌};
ghost use Rattle.bser_structs.specs.Fields.{required, optional, fields_tree};

use serde_bser::device::Sink;
use serde_bser::errors::Result;
use serde_bser::prelude::*;
use serde_bser::ser::{Serialize, Serializer};
use std::alloc::Global;

/// The fields that an answer is to have, and from when on.
#[derive(Drop)]
pub struct FileQuery<'a> {
    pub fields: &'a [&'a str],
    pub since: Option<&'a str>,
}

impl<'a> Fields for FileQuery<'a> {
    ghost fields = { required (codes "fields") (λ v. v.fields) ⟦<&'a [&'a str] as WriteOnly>⟧.coding
        ∷ optional (codes "since") (λ v. v.since) ⟦<&'a str as WriteOnly>⟧.coding
        ∷ [] };
}

impl<'a> Serialize for FileQuery<'a> {
    ghost meaning = { fields_tree ⟦<FileQuery<'a> as Fields>⟧.fields };

    fn serialize<W: Sink>(&self, alloc: Global, out: &mut Serializer<W>) -> Result<()> {
        put_struct!(alloc, out, self, {
            fields: Required("fields"),
            since: Optional("since"),
        })
    }
}
