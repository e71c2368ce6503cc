//! Maps, whose entries are written in rising byte order of their keys.
ghost use Rattle.std.specs.Prelude.{string_bytes};
ghost use Rattle.bser_format.specs.Written.{object_tree, plain_bytes};

use crate::Serialize;
use crate::serializer::Serializer;
use bser_format::bytestring::ByteString;
use bser_format::errors::Result;
use bser_source::device::Sink;
use std::alloc::Global;
use std::collections::BTreeMap;

impl<V: Serialize> Serialize for BTreeMap<String, V> {
    ghost meaning = { λ m. object_tree string_bytes V.meaning m.entries };

    fn serialize<W: Sink>(&self, alloc: Global, out: &mut Serializer<W>) -> Result<()> {
        out.put_map(Some(self.len()))?;
        for (key, value) in self {
            out.put_text(key.as_str())?;
            value.serialize(alloc, out)?;
        }
        Ok(())
    }
}

impl<V: Serialize> Serialize for BTreeMap<ByteString, V> {
    ghost meaning = { λ m. object_tree plain_bytes V.meaning m.entries };

    fn serialize<W: Sink>(&self, alloc: Global, out: &mut Serializer<W>) -> Result<()> {
        out.put_map(Some(self.len()))?;
        for (key, value) in self {
            out.put_key(key.as_bytes())?;
            value.serialize(alloc, out)?;
        }
        Ok(())
    }
}
