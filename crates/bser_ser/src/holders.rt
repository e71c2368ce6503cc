//! Values that hold others.
ghost use Rattle.bser_format.specs.Written.{option_tree, array_tree, slice_tree};

use crate::Serialize;
use crate::serializer::Serializer;
use bser_format::errors::Result;
use bser_source::device::Sink;
use std::alloc::Global;

impl<T: Serialize> Serialize for &T {
    ghost meaning = { λ r. T.meaning r.now };

    fn serialize<W: Sink>(&self, alloc: Global, out: &mut Serializer<W>) -> Result<()> {
        Serialize::serialize(*self, alloc, out)
    }
}

impl<T: Serialize> Serialize for Box<T> {
    ghost meaning = { λ b. T.meaning b.value };

    fn serialize<W: Sink>(&self, alloc: Global, out: &mut Serializer<W>) -> Result<()> {
        Serialize::serialize(&**self, alloc, out)
    }
}

impl<T: Serialize> Serialize for Option<T> {
    ghost meaning = { option_tree T.meaning };

    fn serialize<W: Sink>(&self, alloc: Global, out: &mut Serializer<W>) -> Result<()> {
        match self {
            Some(value) => value.serialize(alloc, out),
            None => out.put_null(),
        }
    }
}

impl<T: Serialize> Serialize for Vec<T> {
    ghost meaning = { λ v. array_tree T.meaning v.items };

    fn serialize<W: Sink>(&self, alloc: Global, out: &mut Serializer<W>) -> Result<()> {
        out.put_seq(Some(self.len()))?;
        for item in self {
            item.serialize(alloc, out)?;
        }
        Ok(())
    }
}

impl<T: Serialize> Serialize for &[T] {
    ghost meaning = { λ s. slice_tree T.meaning s.now };

    fn serialize<W: Sink>(&self, alloc: Global, out: &mut Serializer<W>) -> Result<()> {
        out.put_seq(Some(self.len()))?;
        for item in self.iter() {
            item.serialize(alloc, out)?;
        }
        Ok(())
    }
}
