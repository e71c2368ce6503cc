//! A file whose name is lent or owned, as the program asks for it.
ghost use Rattle.std.specs.Prelude.{codes, [], ◌∷◌, refl};
ghost use Rattle.bser_structs.specs.Fields.{required, optional, struct_meaning, fields_tree, none_lent};

use serde_bser::de::{Answer, Deserializer};
use serde_bser::device::Sink;
use serde_bser::errors::Result;
use serde_bser::prelude::*;
use serde_bser::ser::{Serialize, Serializer};
use std::alloc::Global;

/// A file's name, size, and whether it exists.
#[derive(Debug, Drop)]
pub struct NamedFile<S> {
    pub name: S,
    pub size: u32,
    pub exists: Option<bool>,
}

impl<S: Shape + Serialize> Fields for NamedFile<S> {
    ghost fields = { required (codes "name") (λ v. v.name) ⟦<S as Codec>⟧.coding
        ∷ required (codes "size") (λ v. v.size) ⟦<u32 as Codec>⟧.coding
        ∷ optional (codes "exists") (λ v. v.exists) ⟦<bool as Codec>⟧.coding
        ∷ [] };
}

impl<S: Shape + Serialize> Meant for NamedFile<S> {
    ghost meaning = { struct_meaning ⟦<NamedFile<S> as Fields>⟧.fields };
}

impl<L: LendsText, S: Deserialize<L> + Serialize> Deserialize<L> for NamedFile<S> {
    fn deserialize<R: DeRead<Lent = L>>(
        alloc: Global,
        from: &mut Deserializer<R>,
    ) -> Answer<NamedFile<S>> {
        read_struct!(
            alloc,
            from,
            NamedFile {
                name: Required("name"),
                size: Required("size"),
                exists: Optional("exists"),
            }
        )
    }
}

impl<S: OwnedShape + Serialize> OwnedShape for NamedFile<S> {
    ghost owned = { none_lent S.owned refl };
}

impl<S: Shape + Serialize> Serialize for NamedFile<S> {
    ghost meaning = { fields_tree ⟦<NamedFile<S> as Fields>⟧.fields };

    fn serialize<W: Sink>(&self, alloc: Global, out: &mut Serializer<W>) -> Result<()> {
        put_struct!(alloc, out, self, {
            name: Required("name"),
            size: Required("size"),
            exists: Optional("exists"),
        })
    }
}
