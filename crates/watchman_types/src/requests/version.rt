//! Asking for the server's version.
ghost use Rattle.std.specs.Prelude.{codes, [], ◌∷◌};
ghost use Rattle.watchman_types.specs.Terms.{tagged, given};
ghost use Rattle.watchman_types.specs.Requests.{capabilities_tree};

use crate::requests::object::Object;
use bser_format::errors::Result;
use bser_ser::{Serialize, Serializer};
use bser_source::device::Sink;
use std::alloc::Global;

/// What a client wants the server to be able to do, by names such as `relative_root`.
#[derive(Clone, Copy)]
pub struct Capabilities<'a> {
    /// The server answers for each whether it has it.
    pub optional: &'a [&'a str],
    /// The server answers an error if it lacks one of these.
    pub required: &'a [&'a str],
}

impl<'a> Serialize for Capabilities<'a> {
    ghost meaning = { capabilities_tree };

    fn serialize<W: Sink>(&self, alloc: Global, out: &mut Serializer<W>) -> Result<()> {
        let required = (("required", &self.required), ());
        Object((("optional", &self.optional), required)).serialize(alloc, out)
    }
}

/// `version`: the server's version, and its capabilities if there are any to ask for.
#[derive(Clone, Copy)]
pub struct VersionRequest<'a> {
    pub capabilities: Option<Capabilities<'a>>,
}

impl<'a> Serialize for VersionRequest<'a> {
    ghost meaning = { λ r. tagged (codes "version") (given capabilities_tree r.capabilities) };

    fn serialize<W: Sink>(&self, alloc: Global, out: &mut Serializer<W>) -> Result<()> {
        match self.capabilities {
            Some(capabilities) => ("version", capabilities).serialize(alloc, out),
            None => ("version",).serialize(alloc, out),
        }
    }
}
