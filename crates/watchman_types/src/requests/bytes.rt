//! Bytes that need not be UTF-8.
ghost use Rattle.std.specs.Prelude.{Ok};
ghost use Rattle.bser_format.specs.Tree.{bytes};

use bser_format::errors::Result;
use bser_ser::{Serialize, Serializer};
use bser_source::device::Sink;
use std::alloc::Global;

/// Bytes that are written as a byte string, as the name of a file, which need not be UTF-8.
#[derive(Clone, Copy)]
pub struct Bytes<'a>(pub &'a [u8]);

impl<'a> Serialize for Bytes<'a> {
    ghost meaning = { λ s. Ok (bytes s.0.now) };

    fn serialize<W: Sink>(&self, _alloc: Global, out: &mut Serializer<W>) -> Result<()> {
        out.put_bytes(self.0)
    }
}
