//! An enum with a variant of each form, read and written.
ghost use Rattle.std.specs.Prelude.{codes, [], ◌∷◌, true, false, Some, None, refl};
ghost use Rattle.bser_structs.specs.Fields.{none_lent};
ghost use Rattle.bser_structs.specs.Variants.{unit, newtype, with_fields, no_fields, with_required, with_optional, enum_meaning, variants_tree};

use serde_bser::de::{Answer, Deserializer};
use serde_bser::device::Sink;
use serde_bser::errors::Result;
use serde_bser::prelude::*;
use serde_bser::ser::{Serialize, Serializer};
use std::alloc::Global;

/// A variant of each form.
#[derive(Debug, Drop)]
pub enum Choice<S> {
    Nothing,
    One(S),
    Two(S, u8),
    Named { abc: S, def: Option<i32> },
}

impl<S: Shape + Serialize> Variants for Choice<S> {
    ghost use Rattle.test_documents.specs.declared.tests.structs.choices.Choice.TheVariants.{Nothing, One, Two, Named};

    ghost variants = { unit (codes "Nothing") (λ v. elim v [ Nothing ↦ true | _ ↦ false ])
        ∷ newtype (codes "One") (λ v. elim v [ One x ↦ Some x | _ ↦ None ])
        ⟦<S as Codec>⟧.coding
        ∷ newtype (codes "Two") (λ v. elim v [ Two x y ↦ Some (x, y) | _ ↦ None ])
        ⟦<(S, u8) as Codec>⟧.coding
        ∷ with_fields (codes "Named")
        (with_required (codes "abc") ⟦<S as Codec>⟧.coding
        (with_optional (codes "def") ⟦<i32 as Codec>⟧.coding no_fields))
        (λ v. elim v [ Named x y ↦ Some (x, (y, tt)) | _ ↦ None ])
        ∷ [] };
}

impl<S: Shape + Serialize> Meant for Choice<S> {
    ghost meaning = { enum_meaning (codes "Choice") ⟦<Choice<S> as Variants>⟧.variants };
}

impl<L: LendsText, S: Deserialize<L> + Serialize> Deserialize<L> for Choice<S> {
    fn deserialize<R: DeRead<Lent = L>>(
        alloc: Global,
        from: &mut Deserializer<R>,
    ) -> Answer<Choice<S>> {
        read_enum!(
            alloc,
            from,
            Choice {
                Nothing: "Nothing",
                One(first): "One",
                Two(first, second): "Two",
                Named {
                    abc: Required("abc"),
                    def: Optional("def"),
                }: "Named",
            }
        )
    }
}

impl<S: OwnedShape + Serialize> OwnedShape for Choice<S> {
    ghost owned = { none_lent S.owned (none_lent (none_lent S.owned refl)
        (none_lent (none_lent S.owned refl) refl)) };
}

impl<S: Shape + Serialize> Serialize for Choice<S> {
    ghost meaning = { variants_tree ⟦<Choice<S> as Variants>⟧.variants };

    fn serialize<W: Sink>(&self, alloc: Global, out: &mut Serializer<W>) -> Result<()> {
        put_enum!(alloc, out, self, Choice {
            Nothing: "Nothing",
            One(first): "One",
            Two(first, second): "Two",
            Named {
                abc: Required("abc"),
                def: Optional("def"),
            }: "Named",
        })
    }
}
