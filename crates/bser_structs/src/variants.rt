//! Writing an enum by its variants.
ghost use Rattle.std.specs.Prelude.{OnOk, IfErr};
ghost use Rattle.bser_format.specs.Written.{variant_tree};
ghost use Rattle.bser_ser.specs.Ends.{CanBeWritten};
ghost use Rattle.bser_structs.specs.Entries.{fields_variant, VariantEnds, VariantStops, FieldsEnd, FieldsStop};

use crate::writing::{PutFields, put_fields};
use bser_format::errors::Result;
use bser_ser::{Serialize, Serializer};
use bser_source::device::Sink;
use std::alloc::Global;

/// Puts a variant with one value, or with several as a tuple: an object of one entry.
///
/// A variant without a value is put as its name, by [`put_text`](Serializer::put_text).
///
/// Fails as the puts of its parts do. After an error the parts before it have been put.
#[inline(always)]
pub fn put_variant<W: Sink, T: Serialize>(
    alloc: Global,
    out: &mut Serializer<W>,
    name: &str,
    payload: &T,
) -> Result<()>
    ensures ok { OnOk result (VariantEnds W.Sink name.now (T.meaning payload.now)
        out.old out.new) }
    ensures writable { OnOk result (CanBeWritten (variant_tree name.now (T.meaning payload.now))) }
    ensures err { IfErr result (VariantStops W.Sink name.now (T.meaning payload.now)
        out.old out.new) }
{
    out.put_newtype_variant(name)?;
    payload.serialize(alloc, out)
}

/// Puts a variant with fields: an object of one entry, whose value is the object of the fields, in
/// their order.
///
/// Fails as the puts of its parts do. After an error the parts before it have been put.
#[inline(always)]
pub fn put_variant_fields<W: Sink, F: PutFields>(
    alloc: Global,
    out: &mut Serializer<W>,
    name: &str,
    fields: &F,
) -> Result<()>
    ensures ok { OnOk result (FieldsEnd W.Sink name.now (F.entries fields.now)
        out.old out.new) }
    ensures writable { OnOk result
        (CanBeWritten (fields_variant name.now (F.entries fields.now))) }
    ensures err { IfErr result (FieldsStop W.Sink name.now (F.entries fields.now)
        out.old out.new) }
{
    out.put_newtype_variant(name)?;
    put_fields(alloc, out, fields)
}
