//! The parts of a message that decide its kind.
ghost use Rattle.std.specs.Prelude.{◌≡◌, codes, [], ◌∷◌, refl};
ghost use Rattle.serde_bser.specs.StructFields.{optional, struct_meaning};
ghost use Rattle.watchman_types.specs.Kinds.{kind_of, event_kind_of};

use crate::kind::{EventKind, MessageKind};
use serde_bser::de::{Answer, Deserializer, Ignored};
use serde_bser::prelude::*;
use std::alloc::Global;

/// The parts of a message that decide its kind.
#[derive(Debug, Drop)]
pub struct Header {
    /// True in a message that no request asked for.
    pub unilateral: Option<bool>,
    /// Whether the answer is an error.
    pub error: Option<Ignored>,
    /// Whether it is a line of the log.
    pub log: Option<Ignored>,
    /// Whether a state began.
    pub state_enter: Option<Ignored>,
    /// Whether a state ended.
    pub state_leave: Option<Ignored>,
    /// Whether it lists files.
    pub files: Option<Ignored>,
    /// True where a subscription ended.
    pub canceled: Option<bool>,
}

impl Fields for Header {
    ghost fields = { optional (codes "unilateral") (λ v. v.unilateral) ⟦<bool as ReadOnly>⟧.coding
        ∷ optional (codes "error") (λ v. v.error) ⟦<Ignored as ReadOnly>⟧.coding
        ∷ optional (codes "log") (λ v. v.log) ⟦<Ignored as ReadOnly>⟧.coding
        ∷ optional (codes "state-enter") (λ v. v.state_enter) ⟦<Ignored as ReadOnly>⟧.coding
        ∷ optional (codes "state-leave") (λ v. v.state_leave) ⟦<Ignored as ReadOnly>⟧.coding
        ∷ optional (codes "files") (λ v. v.files) ⟦<Ignored as ReadOnly>⟧.coding
        ∷ optional (codes "canceled") (λ v. v.canceled) ⟦<bool as ReadOnly>⟧.coding
        ∷ [] };
}

impl Meant for Header {
    ghost meaning = { struct_meaning ⟦<Header as Fields>⟧.fields };
}

impl<L: LendsText> Deserialize<L> for Header {
    fn deserialize<R: DeRead<Lent = L>>(alloc: Global, from: &mut Deserializer<R>) -> Answer<Self> {
        read_struct! {
            alloc,
            from,
            Header {
                unilateral: Optional("unilateral"),
                error: Optional("error"),
                log: Optional("log"),
                state_enter: Optional("state-enter"),
                state_leave: Optional("state-leave"),
                files: Optional("files"),
                canceled: Optional("canceled"),
            }
        }
    }
}

impl OwnedShape for Header {
    ghost owned = { refl };
}

impl Header {
    /// Returns the kind of the message.
    ///
    /// One whose `unilateral` is true is an event. All else is the answer to the outstanding
    /// request, and an error where `error` is there. The kind of an event follows from the first of
    /// these parts that it has: `log`, `state-enter`, `state-leave`, a true `canceled`, `files`.
    pub fn kind(&self) -> MessageKind
        ensures { result ≡ kind_of self.now }
    {
        match (self.unilateral, &self.error) {
            (Some(true), _) => MessageKind::Event(self.event_kind()),
            (_, Some(_)) => MessageKind::Error,
            (_, None) => MessageKind::Answer,
        }
    }

    /// Returns the kind of the event, where the message is one.
    pub fn event_kind(&self) -> EventKind
        ensures { result ≡ event_kind_of self.now }
    {
        if self.log.is_some() {
            EventKind::Log
        } else if self.state_enter.is_some() {
            EventKind::StateEntered
        } else if self.state_leave.is_some() {
            EventKind::StateLeft
        } else if self.canceled == Some(true) {
            EventKind::Canceled
        } else if self.files.is_some() {
            EventKind::Files
        } else {
            EventKind::Other
        }
    }
}
