//! States of a root, which clients enter and leave.
ghost use Rattle.std.specs.Prelude.{codes, [], ◌∷◌};
ghost use Rattle.bser_structs.specs.Entries.{entries_tree};
ghost use Rattle.watchman_types.specs.Terms.{tagged, bytes_tree};
ghost use Rattle.watchman_types.specs.Requests.{state_entries};

use crate::requests::bytes::Bytes;
use crate::requests::object::Object;
use bser_format::errors::Result;
use bser_ser::{Serialize, Serializer};
use bser_source::device::Sink;
use bser_structs::Given;
use std::alloc::Global;

/// `state-enter`: the root is in the state of this name, until it is left or the client is gone.
#[derive(Drop)]
pub struct StateEnterRequest<'a, M> {
    pub root: Bytes<'a>,
    pub name: &'a str,
    /// Any value, which subscribers get.
    pub metadata: Option<M>,
}

impl<'a, M: Serialize> Serialize for StateEnterRequest<'a, M> {
    ghost meaning = { λ r. tagged (codes "state-enter")
        (bytes_tree r.root ∷ entries_tree (state_entries M.meaning r.name.now r.metadata) ∷ []) };

    fn serialize<W: Sink>(&self, alloc: Global, out: &mut Serializer<W>) -> Result<()> {
        let metadata = (("metadata", Given(&self.metadata)), ());
        let options = Object((("name", &self.name), metadata));
        ("state-enter", self.root, options).serialize(alloc, out)
    }
}

/// `state-leave`: the root is no longer in the state of this name.
#[derive(Drop)]
pub struct StateLeaveRequest<'a, M> {
    pub root: Bytes<'a>,
    pub name: &'a str,
    /// Any value, which subscribers get.
    pub metadata: Option<M>,
}

impl<'a, M: Serialize> Serialize for StateLeaveRequest<'a, M> {
    ghost meaning = { λ r. tagged (codes "state-leave")
        (bytes_tree r.root ∷ entries_tree (state_entries M.meaning r.name.now r.metadata) ∷ []) };

    fn serialize<W: Sink>(&self, alloc: Global, out: &mut Serializer<W>) -> Result<()> {
        let metadata = (("metadata", Given(&self.metadata)), ());
        let options = Object((("name", &self.name), metadata));
        ("state-leave", self.root, options).serialize(alloc, out)
    }
}
