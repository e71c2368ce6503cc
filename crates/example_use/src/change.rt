//! An enum that is read and written.
ghost use Rattle.std.specs.Prelude.{codes, [], ◌∷◌, true, false, Some, None, refl};
ghost use Rattle.serde_bser.specs.EnumVariants.{unit, newtype, with_fields, no_fields, with_required, with_optional, enum_meaning, variants_tree};

use serde_bser::bytestring::ByteString;
use serde_bser::de::{Answer, Deserializer};
use serde_bser::device::Sink;
use serde_bser::errors::Result;
use serde_bser::prelude::*;
use serde_bser::ser::{Serialize, Serializer};
use std::alloc::Global;

/// What became of a file.
#[derive(PartialEq, Drop)]
pub enum Change {
    Gone,
    Renamed(ByteString),
    Written { size: u64, mode: Option<i32> },
}

impl Variants for Change {
    ghost use Rattle.example_use.specs.declared.change.Change.TheVariants.{Gone, Renamed, Written};

    ghost variants = { unit (codes "Gone") (λ v. elim v [ Gone ↦ true | _ ↦ false ])
        ∷ newtype (codes "Renamed") (λ v. elim v [ Renamed x ↦ Some x | _ ↦ None ])
        ⟦<ByteString as Codec>⟧.coding
        ∷ with_fields (codes "Written")
        (with_required (codes "size") ⟦<u64 as Codec>⟧.coding
        (with_optional (codes "mode") ⟦<i32 as Codec>⟧.coding no_fields))
        (λ v. elim v [ Written x y ↦ Some (x, (y, tt)) | _ ↦ None ])
        ∷ [] };
}

impl Meant for Change {
    ghost meaning = { enum_meaning (codes "Change") ⟦<Change as Variants>⟧.variants };
}

impl<L: LendsText> Deserialize<L> for Change {
    fn deserialize<R: DeRead<Lent = L>>(
        alloc: Global,
        from: &mut Deserializer<R>,
    ) -> Answer<Change> {
        read_enum!(
            alloc,
            from,
            Change {
                Gone: "Gone",
                Renamed(name): "Renamed",
                Written {
                    size: Required("size"),
                    mode: Optional("mode"),
                }: "Written",
            }
        )
    }
}

impl OwnedShape for Change {
    ghost owned = { refl };
}

impl Serialize for Change {
    ghost meaning = { variants_tree ⟦<Change as Variants>⟧.variants };

    fn serialize<W: Sink>(&self, alloc: Global, out: &mut Serializer<W>) -> Result<()> {
        put_enum!(alloc, out, self, Change {
            Gone: "Gone",
            Renamed(name): "Renamed",
            Written {
                size: Required("size"),
                mode: Optional("mode"),
            }: "Written",
        })
    }
}
