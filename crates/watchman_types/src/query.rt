//! What a query finds.
ghost use Rattle.std.specs.Prelude.{codes, [], ◌∷◌, refl};
ghost use Rattle.serde_bser.specs.StructFields.{required, optional, struct_meaning, none_lent};

use serde_bser::de::{Answer, Deserializer};
use serde_bser::prelude::*;
use serde_bser::value::Value;
use std::alloc::Global;

/// The answer to `query`.
///
/// `F` is what a file is read as: a [`File`](crate::file::File) or a struct of your own, where
/// several fields were asked for; `S`, or another text, where one was, so that the server sends it
/// alone; an [`ObjectOr`](serde_bser::de::ObjectOr) of the two, where it may be either.
#[derive(Debug, Drop)]
pub struct QueryResult<S, F> {
    /// The version of the server.
    pub version: S,
    /// The clock of the answer, for `since`.
    pub clock: S,
    /// The files that were found, or that changed.
    pub files: Vec<F>,
    /// The folder that was asked about.
    pub root: Option<S>,
    /// What the user should know, as that the root was crawled anew.
    pub warning: Option<S>,
    /// Whether `files` are all that there are, and not those that changed.
    pub is_fresh_instance: bool,
    /// What the server reports of its work, where that was asked for.
    pub debug: Option<Value>,
}

impl<S: Shape, F: Shape> Fields for QueryResult<S, F> {
    ghost fields = { required (codes "version") (λ v. v.version) ⟦<S as ReadOnly>⟧.coding
        ∷ required (codes "clock") (λ v. v.clock) ⟦<S as ReadOnly>⟧.coding
        ∷ required (codes "files") (λ v. v.files) ⟦<Vec<F> as ReadOnly>⟧.coding
        ∷ optional (codes "root") (λ v. v.root) ⟦<S as ReadOnly>⟧.coding
        ∷ optional (codes "warning") (λ v. v.warning) ⟦<S as ReadOnly>⟧.coding
        ∷ required (codes "is_fresh_instance") (λ v. v.is_fresh_instance)
        ⟦<bool as ReadOnly>⟧.coding
        ∷ optional (codes "debug") (λ v. v.debug) ⟦<Value as ReadOnly>⟧.coding
        ∷ [] };
}

impl<S: Shape, F: Shape> Meant for QueryResult<S, F> {
    ghost meaning = { struct_meaning ⟦<QueryResult<S, F> as Fields>⟧.fields };
}

impl<L: LendsText, S: Deserialize<L>, F: Deserialize<L>> Deserialize<L> for QueryResult<S, F> {
    fn deserialize<R: DeRead<Lent = L>>(alloc: Global, from: &mut Deserializer<R>) -> Answer<Self> {
        read_struct! {
            alloc,
            from,
            QueryResult {
                version: Required("version"),
                clock: Required("clock"),
                files: Required("files"),
                root: Optional("root"),
                warning: Optional("warning"),
                is_fresh_instance: Required("is_fresh_instance"),
                debug: Optional("debug"),
            }
        }
    }
}

impl<S: OwnedShape, F: OwnedShape> OwnedShape for QueryResult<S, F> {
    ghost owned = { none_lent S.owned (none_lent S.owned (none_lent F.owned
        (none_lent S.owned (none_lent S.owned refl)))) };
}
