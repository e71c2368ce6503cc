//! Rows whose strings are lent, which are read alone.
ghost use Rattle.std.specs.Prelude.{codes, [], ◌∷◌};
ghost use Rattle.bser_structs.specs.Fields.{required, optional, struct_meaning};

use serde_bser::de::read::LendsFrom;
use serde_bser::de::{Answer, Deserializer};
use serde_bser::prelude::*;
use std::alloc::Global;

/// A name that may be no text, a kind, and tags.
#[derive(Debug, Drop)]
pub struct LentRow<'a> {
    pub name: &'a [u8],
    pub kind: Option<&'a str>,
    pub tags: Vec<&'a str>,
}

impl<'a> Fields for LentRow<'a> {
    ghost fields = { required (codes "name") (λ v. v.name) ⟦<&'a [u8] as ReadOnly>⟧.coding
        ∷ optional (codes "type") (λ v. v.kind) ⟦<&'a str as ReadOnly>⟧.coding
        ∷ required (codes "tags") (λ v. v.tags) ⟦<Vec<&'a str> as ReadOnly>⟧.coding
        ∷ [] };
}

impl<'a> Meant for LentRow<'a> {
    ghost meaning = { struct_meaning ⟦<LentRow<'a> as Fields>⟧.fields };
}

impl<'a, L: LendsFrom<'a>> Deserialize<L> for LentRow<'a> {
    fn deserialize<R: DeRead<Lent = L>>(
        alloc: Global,
        from: &mut Deserializer<R>,
    ) -> Answer<LentRow<'a>> {
        read_struct!(
            alloc,
            from,
            LentRow {
                name: Required("name"),
                kind: Optional("type"),
                tags: Required("tags"),
            }
        )
    }
}
