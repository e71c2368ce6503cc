//! Directories that are watched, and their clocks.
ghost use Rattle.std.specs.Prelude.{codes, [], ◌∷◌, refl};
ghost use Rattle.serde_bser.specs.StructFields.{required, optional, struct_meaning, none_lent};

use serde_bser::de::{Answer, Deserializer};
use serde_bser::prelude::*;
use std::alloc::Global;

/// The answer to `watch-project`.
#[derive(Debug, Drop)]
pub struct WatchProject<S> {
    /// The version of the server.
    pub version: S,
    /// The folder that is watched. It need not be UTF-8.
    pub watch: S,
    /// The folder that was asked for, from `watch` on, where it is another one.
    pub relative_path: Option<S>,
    /// What the server learns of changes by, as `inotify`.
    pub watcher: Option<S>,
    /// What the user should know, as that the root was crawled anew.
    pub warning: Option<S>,
}

impl<S: Shape> Fields for WatchProject<S> {
    ghost fields = { required (codes "version") (λ v. v.version) ⟦<S as ReadOnly>⟧.coding
        ∷ required (codes "watch") (λ v. v.watch) ⟦<S as ReadOnly>⟧.coding
        ∷ optional (codes "relative_path") (λ v. v.relative_path) ⟦<S as ReadOnly>⟧.coding
        ∷ optional (codes "watcher") (λ v. v.watcher) ⟦<S as ReadOnly>⟧.coding
        ∷ optional (codes "warning") (λ v. v.warning) ⟦<S as ReadOnly>⟧.coding
        ∷ [] };
}

impl<S: Shape> Meant for WatchProject<S> {
    ghost meaning = { struct_meaning ⟦<WatchProject<S> as Fields>⟧.fields };
}

impl<L: LendsText, S: Deserialize<L>> Deserialize<L> for WatchProject<S> {
    fn deserialize<R: DeRead<Lent = L>>(alloc: Global, from: &mut Deserializer<R>) -> Answer<Self> {
        read_struct! {
            alloc,
            from,
            WatchProject {
                version: Required("version"),
                watch: Required("watch"),
                relative_path: Optional("relative_path"),
                watcher: Optional("watcher"),
                warning: Optional("warning"),
            }
        }
    }
}

impl<S: OwnedShape> OwnedShape for WatchProject<S> {
    ghost owned = { none_lent S.owned (none_lent S.owned (none_lent S.owned (none_lent S.owned
        (none_lent S.owned refl)))) };
}

/// The answer to `watch-list`.
#[derive(Debug, Drop)]
pub struct WatchList<S> {
    /// The version of the server.
    pub version: S,
    /// The folders that are watched.
    pub roots: Vec<S>,
}

impl<S: Shape> Fields for WatchList<S> {
    ghost fields = { required (codes "version") (λ v. v.version) ⟦<S as ReadOnly>⟧.coding
        ∷ required (codes "roots") (λ v. v.roots) ⟦<Vec<S> as ReadOnly>⟧.coding
        ∷ [] };
}

impl<S: Shape> Meant for WatchList<S> {
    ghost meaning = { struct_meaning ⟦<WatchList<S> as Fields>⟧.fields };
}

impl<L: LendsText, S: Deserialize<L>> Deserialize<L> for WatchList<S> {
    fn deserialize<R: DeRead<Lent = L>>(alloc: Global, from: &mut Deserializer<R>) -> Answer<Self> {
        read_struct! {
            alloc,
            from,
            WatchList {
                version: Required("version"),
                roots: Required("roots"),
            }
        }
    }
}

impl<S: OwnedShape> OwnedShape for WatchList<S> {
    ghost owned = { none_lent S.owned (none_lent S.owned refl) };
}

/// The answer to `clock`.
#[derive(Debug, Drop)]
pub struct Clock<S> {
    /// The version of the server.
    pub version: S,
    /// The clock of the folder, for `since`.
    pub clock: S,
}

impl<S: Shape> Fields for Clock<S> {
    ghost fields = { required (codes "version") (λ v. v.version) ⟦<S as ReadOnly>⟧.coding
        ∷ required (codes "clock") (λ v. v.clock) ⟦<S as ReadOnly>⟧.coding
        ∷ [] };
}

impl<S: Shape> Meant for Clock<S> {
    ghost meaning = { struct_meaning ⟦<Clock<S> as Fields>⟧.fields };
}

impl<L: LendsText, S: Deserialize<L>> Deserialize<L> for Clock<S> {
    fn deserialize<R: DeRead<Lent = L>>(alloc: Global, from: &mut Deserializer<R>) -> Answer<Self> {
        read_struct! {
            alloc,
            from,
            Clock {
                version: Required("version"),
                clock: Required("clock"),
            }
        }
    }
}

impl<S: OwnedShape> OwnedShape for Clock<S> {
    ghost owned = { none_lent S.owned (none_lent S.owned refl) };
}
