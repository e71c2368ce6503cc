//! An error of the server.
ghost use Rattle.std.specs.Prelude.{codes, [], ◌∷◌, refl};
ghost use Rattle.serde_bser.specs.StructFields.{required, optional, struct_meaning, none_lent};

use serde_bser::de::{Answer, Deserializer};
use serde_bser::prelude::*;
use std::alloc::Global;

/// The server's answer where it cannot do what was asked.
#[derive(Debug, Drop)]
pub struct ErrorReply<S> {
    /// Why, in words. It may hold a path, which need not be UTF-8.
    pub error: S,
    /// The version of the server.
    pub version: Option<S>,
}

impl<S: Shape> Fields for ErrorReply<S> {
    ghost fields = { required (codes "error") (λ v. v.error) ⟦<S as ReadOnly>⟧.coding
        ∷ optional (codes "version") (λ v. v.version) ⟦<S as ReadOnly>⟧.coding
        ∷ [] };
}

impl<S: Shape> Meant for ErrorReply<S> {
    ghost meaning = { struct_meaning ⟦<ErrorReply<S> as Fields>⟧.fields };
}

impl<L: LendsText, S: Deserialize<L>> Deserialize<L> for ErrorReply<S> {
    fn deserialize<R: DeRead<Lent = L>>(alloc: Global, from: &mut Deserializer<R>) -> Answer<Self> {
        read_struct! {
            alloc,
            from,
            ErrorReply {
                error: Required("error"),
                version: Optional("version"),
            }
        }
    }
}

impl<S: OwnedShape> OwnedShape for ErrorReply<S> {
    ghost owned = { none_lent S.owned (none_lent S.owned refl) };
}
