//! States: what a client does with a folder, and lets the other clients know.
ghost use Rattle.std.specs.Prelude.{codes, [], ◌∷◌, refl};
ghost use Rattle.serde_bser.specs.StructFields.{required, optional, struct_meaning, none_lent};

use serde_bser::de::{Answer, Deserializer};
use serde_bser::prelude::*;
use serde_bser::value::Value;
use std::alloc::Global;

/// The answer to `state-enter`, and the event by which subscriptions report it.
#[derive(Debug, Drop)]
pub struct StateEntered<S> {
    /// The name of the state.
    pub state: S,
    /// The folder that is watched.
    pub root: Option<S>,
    /// The clock when the state began.
    pub clock: Option<S>,
    /// The name of the subscription. The answer has none.
    pub subscription: Option<S>,
    /// What the client passed on. The answer has none.
    pub metadata: Option<Value>,
}

impl<S: Shape> Fields for StateEntered<S> {
    ghost fields = { required (codes "state-enter") (λ v. v.state) ⟦<S as ReadOnly>⟧.coding
        ∷ optional (codes "root") (λ v. v.root) ⟦<S as ReadOnly>⟧.coding
        ∷ optional (codes "clock") (λ v. v.clock) ⟦<S as ReadOnly>⟧.coding
        ∷ optional (codes "subscription") (λ v. v.subscription) ⟦<S as ReadOnly>⟧.coding
        ∷ optional (codes "metadata") (λ v. v.metadata) ⟦<Value as ReadOnly>⟧.coding
        ∷ [] };
}

impl<S: Shape> Meant for StateEntered<S> {
    ghost meaning = { struct_meaning ⟦<StateEntered<S> as Fields>⟧.fields };
}

impl<L: LendsText, S: Deserialize<L>> Deserialize<L> for StateEntered<S> {
    fn deserialize<R: DeRead<Lent = L>>(alloc: Global, from: &mut Deserializer<R>) -> Answer<Self> {
        read_struct! {
            alloc,
            from,
            StateEntered {
                state: Required("state-enter"),
                root: Optional("root"),
                clock: Optional("clock"),
                subscription: Optional("subscription"),
                metadata: Optional("metadata"),
            }
        }
    }
}

impl<S: OwnedShape> OwnedShape for StateEntered<S> {
    ghost owned = { none_lent S.owned (none_lent S.owned (none_lent S.owned
        (none_lent S.owned refl))) };
}

/// The answer to `state-leave`, and the event by which subscriptions report it.
#[derive(Debug, Drop)]
pub struct StateLeft<S> {
    /// The name of the state.
    pub state: S,
    /// The folder that is watched.
    pub root: Option<S>,
    /// The clock when the state ended.
    pub clock: Option<S>,
    /// The name of the subscription. The answer has none.
    pub subscription: Option<S>,
    /// What the client passed on. The answer has none.
    pub metadata: Option<Value>,
    /// True where the client went without leaving the state.
    pub abandoned: Option<bool>,
}

impl<S: Shape> Fields for StateLeft<S> {
    ghost fields = { required (codes "state-leave") (λ v. v.state) ⟦<S as ReadOnly>⟧.coding
        ∷ optional (codes "root") (λ v. v.root) ⟦<S as ReadOnly>⟧.coding
        ∷ optional (codes "clock") (λ v. v.clock) ⟦<S as ReadOnly>⟧.coding
        ∷ optional (codes "subscription") (λ v. v.subscription) ⟦<S as ReadOnly>⟧.coding
        ∷ optional (codes "metadata") (λ v. v.metadata) ⟦<Value as ReadOnly>⟧.coding
        ∷ optional (codes "abandoned") (λ v. v.abandoned) ⟦<bool as ReadOnly>⟧.coding
        ∷ [] };
}

impl<S: Shape> Meant for StateLeft<S> {
    ghost meaning = { struct_meaning ⟦<StateLeft<S> as Fields>⟧.fields };
}

impl<L: LendsText, S: Deserialize<L>> Deserialize<L> for StateLeft<S> {
    fn deserialize<R: DeRead<Lent = L>>(alloc: Global, from: &mut Deserializer<R>) -> Answer<Self> {
        read_struct! {
            alloc,
            from,
            StateLeft {
                state: Required("state-leave"),
                root: Optional("root"),
                clock: Optional("clock"),
                subscription: Optional("subscription"),
                metadata: Optional("metadata"),
                abandoned: Optional("abandoned"),
            }
        }
    }
}

impl<S: OwnedShape> OwnedShape for StateLeft<S> {
    ghost owned = { none_lent S.owned (none_lent S.owned (none_lent S.owned
        (none_lent S.owned refl))) };
}
