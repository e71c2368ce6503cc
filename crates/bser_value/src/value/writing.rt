//! Writing a `Value`.
ghost use Rattle.std.specs.Prelude.{Ok, OnOk};
ghost use Rattle.bser_format.specs.Canonical.{IsWritable};
ghost use Rattle.bser_ser.specs.Ends.{AddsTree};
ghost use Rattle.bser_value.specs.ValueView.{tree_of, items_tree, entries_tree, items_meaning, entries_meaning};

use crate::value::Value;
use bser_ser::{Parts, PutRefused, Serialize, Serializer};
use bser_source::device::Sink;
use std::alloc::Global;
use std::collections::BTreeMap;

/// A value is written by its variant. It always has a tree. Writing calls itself once for each
/// level.
impl Serialize for Value {
    ghost meaning = { λ v. Ok (tree_of v) };

    fn serialize<W: Sink>(
        &self,
        _alloc: Global,
        out: &mut Serializer<W>,
    ) -> bser_format::errors::Result<()> {
        match add_value(self, out) {
            Ok(()) => Ok(()),
            Err(_) => Err(out.refusal()),
        }
    }
}

/// Puts a value. The serializer keeps the error.
#[cycle(add)]
#[inline(always)]
fn add_value<W: Sink>(value: &Value, out: &mut Serializer<W>) -> Result<(), PutRefused>
    ensures put { AddsTree W.Sink out.old out.new (Ok (tree_of value.now)) result }
    ensures writable { OnOk result (IsWritable (tree_of value.now)) }
{
    match value {
        Value::Array(items) => add_items(items, out),
        Value::Object(entries) => add_entries(entries, out),
        Value::ByteString(bytes) => out.add_bytes(bytes.as_bytes()),
        Value::Integer(number) => out.add_i64(*number),
        Value::Real(bits) => out.add_real_bits(*bits),
        Value::Bool(truth) => out.add_bool(*truth),
        Value::Null => out.add_null(),
        Value::Utf8String(text) => out.add_text(text.as_str()),
    }
}

#[cycle(add)]
#[inline(never)]
fn add_items<W: Sink>(items: &Vec<Value>, out: &mut Serializer<W>) -> Result<(), PutRefused>
    ensures put { AddsTree W.Sink out.old out.new (items_meaning items.now.items) result }
    ensures writable { OnOk result (IsWritable (items_tree items.now.items)) }
{
    out.add_seq(items.len())?;
    for item in items {
        add_value(item, out)?;
    }
    Ok(())
}

#[cycle(add)]
#[inline(never)]
fn add_entries<W: Sink>(
    entries: &BTreeMap<String, Value>,
    out: &mut Serializer<W>,
) -> Result<(), PutRefused>
    ensures put { AddsTree W.Sink out.old out.new (entries_meaning entries.now.entries) result }
    ensures writable { OnOk result (IsWritable (entries_tree entries.now.entries)) }
{
    out.add_map(entries.len())?;
    for (key, value) in entries {
        out.add_text_key(key.as_str())?;
        add_value(value, out)?;
    }
    Ok(())
}
