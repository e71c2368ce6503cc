//! Watching a root, and asking for its clock.
ghost use Rattle.std.specs.Prelude.{codes, [], ◌∷◌};
ghost use Rattle.watchman_types.specs.Terms.{tagged, given, bytes_tree};
ghost use Rattle.watchman_types.specs.Requests.{timeout_tree};

use crate::requests::bytes::Bytes;
use crate::requests::object::Object;
use bser_format::errors::Result;
use bser_ser::{Serialize, Serializer};
use bser_source::device::Sink;
use std::alloc::Global;

/// `watch-project`: the server watches the project in which this directory lies, and answers its
/// root.
#[derive(Clone, Copy)]
pub struct WatchProjectRequest<'a> {
    pub path: Bytes<'a>,
}

impl<'a> Serialize for WatchProjectRequest<'a> {
    ghost meaning = { λ r. tagged (codes "watch-project") (bytes_tree r.path ∷ []) };

    fn serialize<W: Sink>(&self, alloc: Global, out: &mut Serializer<W>) -> Result<()> {
        ("watch-project", self.path).serialize(alloc, out)
    }
}

/// `clock`: the root's clock at this time.
#[derive(Clone, Copy)]
pub struct ClockRequest<'a> {
    pub root: Bytes<'a>,
    /// How long the server may wait until it has seen all changes so far, in milliseconds. It does
    /// not wait without it.
    pub sync_timeout: Option<u32>,
}

impl<'a> Serialize for ClockRequest<'a> {
    ghost meaning = { λ r. tagged (codes "clock")
        (bytes_tree r.root ∷ given timeout_tree r.sync_timeout) };

    fn serialize<W: Sink>(&self, alloc: Global, out: &mut Serializer<W>) -> Result<()> {
        match self.sync_timeout {
            Some(timeout) => {
                let options = Object((("sync_timeout", &timeout), ()));
                ("clock", self.root, options).serialize(alloc, out)
            }
            None => ("clock", self.root).serialize(alloc, out),
        }
    }
}
