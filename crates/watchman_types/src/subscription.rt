//! Subscriptions, and their messages.
ghost use Rattle.std.specs.Prelude.{codes, [], ◌∷◌, refl};
ghost use Rattle.serde_bser.specs.StructFields.{required, optional, struct_meaning, none_lent};

use serde_bser::de::{Answer, Deserializer};
use serde_bser::prelude::*;
use std::alloc::Global;

/// The answer to `subscribe`.
#[derive(Debug, Drop)]
pub struct Subscribed<S> {
    /// The version of the server.
    pub version: S,
    /// The name of the subscription.
    pub subscribe: S,
    /// The clock that it began at.
    pub clock: Option<S>,
    /// The states that hold.
    pub asserted_states: Option<Vec<S>>,
}

impl<S: Shape> Fields for Subscribed<S> {
    ghost fields = { required (codes "version") (λ v. v.version) ⟦<S as ReadOnly>⟧.coding
        ∷ required (codes "subscribe") (λ v. v.subscribe) ⟦<S as ReadOnly>⟧.coding
        ∷ optional (codes "clock") (λ v. v.clock) ⟦<S as ReadOnly>⟧.coding
        ∷ optional (codes "asserted-states") (λ v. v.asserted_states) ⟦<Vec<S> as ReadOnly>⟧.coding
        ∷ [] };
}

impl<S: Shape> Meant for Subscribed<S> {
    ghost meaning = { struct_meaning ⟦<Subscribed<S> as Fields>⟧.fields };
}

impl<L: LendsText, S: Deserialize<L>> Deserialize<L> for Subscribed<S> {
    fn deserialize<R: DeRead<Lent = L>>(alloc: Global, from: &mut Deserializer<R>) -> Answer<Self> {
        read_struct! {
            alloc,
            from,
            Subscribed {
                version: Required("version"),
                subscribe: Required("subscribe"),
                clock: Optional("clock"),
                asserted_states: Optional("asserted-states"),
            }
        }
    }
}

impl<S: OwnedShape> OwnedShape for Subscribed<S> {
    ghost owned = { none_lent S.owned (none_lent S.owned (none_lent S.owned
        (none_lent S.owned refl))) };
}

/// The answer to `unsubscribe`.
#[derive(Debug, Drop)]
pub struct Unsubscribed<S> {
    /// The version of the server.
    pub version: S,
    /// The name of the subscription.
    pub unsubscribe: S,
    /// Whether there was one.
    pub deleted: bool,
}

impl<S: Shape> Fields for Unsubscribed<S> {
    ghost fields = { required (codes "version") (λ v. v.version) ⟦<S as ReadOnly>⟧.coding
        ∷ required (codes "unsubscribe") (λ v. v.unsubscribe) ⟦<S as ReadOnly>⟧.coding
        ∷ required (codes "deleted") (λ v. v.deleted) ⟦<bool as ReadOnly>⟧.coding
        ∷ [] };
}

impl<S: Shape> Meant for Unsubscribed<S> {
    ghost meaning = { struct_meaning ⟦<Unsubscribed<S> as Fields>⟧.fields };
}

impl<L: LendsText, S: Deserialize<L>> Deserialize<L> for Unsubscribed<S> {
    fn deserialize<R: DeRead<Lent = L>>(alloc: Global, from: &mut Deserializer<R>) -> Answer<Self> {
        read_struct! {
            alloc,
            from,
            Unsubscribed {
                version: Required("version"),
                unsubscribe: Required("unsubscribe"),
                deleted: Required("deleted"),
            }
        }
    }
}

impl<S: OwnedShape> OwnedShape for Unsubscribed<S> {
    ghost owned = { none_lent S.owned (none_lent S.owned refl) };
}

/// The answer to `flush-subscriptions`. Each subscription that was named is in one of the lists.
#[derive(Debug, Drop)]
pub struct Flushed<S> {
    /// The version of the server.
    pub version: S,
    /// Those that sent what was due before this answer.
    pub synced: Vec<S>,
    /// Those that had nothing to send.
    pub no_sync_needed: Vec<S>,
    /// Those that drop what they would send, as long as a state holds.
    pub dropped: Vec<S>,
}

impl<S: Shape> Fields for Flushed<S> {
    ghost fields = { required (codes "version") (λ v. v.version) ⟦<S as ReadOnly>⟧.coding
        ∷ required (codes "synced") (λ v. v.synced) ⟦<Vec<S> as ReadOnly>⟧.coding
        ∷ required (codes "no_sync_needed") (λ v. v.no_sync_needed) ⟦<Vec<S> as ReadOnly>⟧.coding
        ∷ required (codes "dropped") (λ v. v.dropped) ⟦<Vec<S> as ReadOnly>⟧.coding
        ∷ [] };
}

impl<S: Shape> Meant for Flushed<S> {
    ghost meaning = { struct_meaning ⟦<Flushed<S> as Fields>⟧.fields };
}

impl<L: LendsText, S: Deserialize<L>> Deserialize<L> for Flushed<S> {
    fn deserialize<R: DeRead<Lent = L>>(alloc: Global, from: &mut Deserializer<R>) -> Answer<Self> {
        read_struct! {
            alloc,
            from,
            Flushed {
                version: Required("version"),
                synced: Required("synced"),
                no_sync_needed: Required("no_sync_needed"),
                dropped: Required("dropped"),
            }
        }
    }
}

impl<S: OwnedShape> OwnedShape for Flushed<S> {
    ghost owned = { none_lent S.owned (none_lent S.owned
        (none_lent S.owned
        (none_lent S.owned refl))) };
}

/// The files that a subscription reports as changed.
///
/// `F` is what a file is read as, as in a [`QueryResult`](crate::query::QueryResult).
#[derive(Debug, Drop)]
pub struct FilesChanged<S, F> {
    /// The name of the subscription.
    pub subscription: S,
    /// The clock of the message.
    pub clock: S,
    /// The files that changed.
    pub files: Vec<F>,
    /// The folder that is watched.
    pub root: Option<S>,
    /// The clock after which the changes are. The first message has none.
    pub since: Option<S>,
    /// What the user should know, as that the root was crawled anew.
    pub warning: Option<S>,
    /// Whether `files` are all that there are, and not those that changed.
    pub is_fresh_instance: bool,
}

impl<S: Shape, F: Shape> Fields for FilesChanged<S, F> {
    ghost fields = { required (codes "subscription") (λ v. v.subscription) ⟦<S as ReadOnly>⟧.coding
        ∷ required (codes "clock") (λ v. v.clock) ⟦<S as ReadOnly>⟧.coding
        ∷ required (codes "files") (λ v. v.files) ⟦<Vec<F> as ReadOnly>⟧.coding
        ∷ optional (codes "root") (λ v. v.root) ⟦<S as ReadOnly>⟧.coding
        ∷ optional (codes "since") (λ v. v.since) ⟦<S as ReadOnly>⟧.coding
        ∷ optional (codes "warning") (λ v. v.warning) ⟦<S as ReadOnly>⟧.coding
        ∷ required (codes "is_fresh_instance") (λ v. v.is_fresh_instance)
        ⟦<bool as ReadOnly>⟧.coding
        ∷ [] };
}

impl<S: Shape, F: Shape> Meant for FilesChanged<S, F> {
    ghost meaning = { struct_meaning ⟦<FilesChanged<S, F> as Fields>⟧.fields };
}

impl<L: LendsText, S: Deserialize<L>, F: Deserialize<L>> Deserialize<L> for FilesChanged<S, F> {
    fn deserialize<R: DeRead<Lent = L>>(alloc: Global, from: &mut Deserializer<R>) -> Answer<Self> {
        read_struct! {
            alloc,
            from,
            FilesChanged {
                subscription: Required("subscription"),
                clock: Required("clock"),
                files: Required("files"),
                root: Optional("root"),
                since: Optional("since"),
                warning: Optional("warning"),
                is_fresh_instance: Required("is_fresh_instance"),
            }
        }
    }
}

impl<S: OwnedShape, F: OwnedShape> OwnedShape for FilesChanged<S, F> {
    ghost owned = { none_lent S.owned (none_lent S.owned (none_lent F.owned
        (none_lent S.owned (none_lent S.owned (none_lent S.owned refl))))) };
}

/// The event of a subscription that has ended, since its folder is no longer watched.
#[derive(Debug, Drop)]
pub struct Canceled<S> {
    /// The name of the subscription.
    pub subscription: S,
    /// The folder that is watched.
    pub root: Option<S>,
}

impl<S: Shape> Fields for Canceled<S> {
    ghost fields = { required (codes "subscription") (λ v. v.subscription) ⟦<S as ReadOnly>⟧.coding
        ∷ optional (codes "root") (λ v. v.root) ⟦<S as ReadOnly>⟧.coding
        ∷ [] };
}

impl<S: Shape> Meant for Canceled<S> {
    ghost meaning = { struct_meaning ⟦<Canceled<S> as Fields>⟧.fields };
}

impl<L: LendsText, S: Deserialize<L>> Deserialize<L> for Canceled<S> {
    fn deserialize<R: DeRead<Lent = L>>(alloc: Global, from: &mut Deserializer<R>) -> Answer<Self> {
        read_struct! {
            alloc,
            from,
            Canceled {
                subscription: Required("subscription"),
                root: Optional("root"),
            }
        }
    }
}

impl<S: OwnedShape> OwnedShape for Canceled<S> {
    ghost owned = { none_lent S.owned (none_lent S.owned refl) };
}
