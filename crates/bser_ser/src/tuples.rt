//! Tuples, which are arrays of their parts.
ghost use Rattle.std.specs.Prelude.{[], ◌∷◌};
ghost use Rattle.bser_format.specs.Written.{tuple_tree};

use crate::Serialize;
use crate::serializer::Serializer;
use bser_format::errors::Result;
use bser_source::device::Sink;
use std::alloc::Global;

impl<A: Serialize> Serialize for (A,) {
    ghost meaning = { λ t. tuple_tree (A.meaning t.0 ∷ []) };

    fn serialize<W: Sink>(&self, alloc: Global, out: &mut Serializer<W>) -> Result<()> {
        out.put_seq(Some(1))?;
        self.0.serialize(alloc, out)
    }
}

impl<A: Serialize, B: Serialize> Serialize for (A, B) {
    ghost meaning = { λ t. tuple_tree (A.meaning t.0 ∷ B.meaning t.1 ∷ []) };

    fn serialize<W: Sink>(&self, alloc: Global, out: &mut Serializer<W>) -> Result<()> {
        out.put_seq(Some(2))?;
        self.0.serialize(alloc, out)?;
        self.1.serialize(alloc, out)
    }
}

impl<A: Serialize, B: Serialize, C: Serialize> Serialize for (A, B, C) {
    ghost meaning = { λ t. tuple_tree (A.meaning t.0 ∷ B.meaning t.1 ∷ C.meaning t.2 ∷ []) };

    fn serialize<W: Sink>(&self, alloc: Global, out: &mut Serializer<W>) -> Result<()> {
        out.put_seq(Some(3))?;
        self.0.serialize(alloc, out)?;
        self.1.serialize(alloc, out)?;
        self.2.serialize(alloc, out)
    }
}

impl<A: Serialize, B: Serialize, C: Serialize, D: Serialize> Serialize for (A, B, C, D) {
    ghost meaning = { λ t. tuple_tree (A.meaning t.0 ∷ B.meaning t.1 ∷ C.meaning t.2 ∷ D.meaning t.3
        ∷ []) };

    fn serialize<W: Sink>(&self, alloc: Global, out: &mut Serializer<W>) -> Result<()> {
        out.put_seq(Some(4))?;
        self.0.serialize(alloc, out)?;
        self.1.serialize(alloc, out)?;
        self.2.serialize(alloc, out)?;
        self.3.serialize(alloc, out)
    }
}
