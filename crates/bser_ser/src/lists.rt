//! Arrays of a fixed length, queues and sets, which are arrays of their items.
ghost use Rattle.bser_format.specs.Written.{array_tree, slice_tree};

use crate::Serialize;
use crate::serializer::Serializer;
use bser_format::errors::Result;
use bser_source::device::Sink;
use std::alloc::Global;
use std::collections::{BTreeSet, VecDeque};

impl<T: Serialize, const N: usize> Serialize for [T; N] {
    ghost meaning = { slice_tree T.meaning };

    fn serialize<W: Sink>(&self, alloc: Global, out: &mut Serializer<W>) -> Result<()> {
        Serialize::serialize(&self.as_slice(), alloc, out)
    }
}

impl<T: Serialize> Serialize for VecDeque<T> {
    ghost meaning = { λ q. array_tree T.meaning q.items };

    fn serialize<W: Sink>(&self, alloc: Global, out: &mut Serializer<W>) -> Result<()> {
        out.put_seq(Some(self.len()))?;
        for item in self.iter() {
            item.serialize(alloc, out)?;
        }
        Ok(())
    }
}

/// In the set's order.
impl<T: Serialize + Ord> Serialize for BTreeSet<T> {
    ghost meaning = { λ s. array_tree T.meaning s.keys };

    fn serialize<W: Sink>(&self, alloc: Global, out: &mut Serializer<W>) -> Result<()> {
        out.put_seq(Some(self.len()))?;
        for item in self.iter() {
            item.serialize(alloc, out)?;
        }
        Ok(())
    }
}
