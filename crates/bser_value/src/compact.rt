//! Whole messages in the compact form.
ghost use Rattle.std.specs.Prelude.{Ok, OnOk, IfErr};
ghost use Rattle.std.specs.List.{AllByRecursion};
ghost use Rattle.bser_format.specs.Canonical.{IsWritable};
ghost use Rattle.bser_ser.specs.Ends.{AddsText};
ghost use Rattle.bser_ser.specs.Message.{Wrote, Missed};
ghost use Rattle.bser_value.specs.CompactTexts.{compact_tree, compact_items, compact_entries, value_text, items_text, entries_text, rows_text, row_text, RowIsWritable};

use crate::template::{add_template_head, shared_keys};
use crate::value::Value;
use bser_ser::message::serialize_to;
use bser_ser::{Parts, PutRefused, Serialize, Serializer};
use bser_source::device::Sink;
use std::alloc::Global;
use std::collections::BTreeMap;

/// Writes one message with the value as its body, in the compact form, to a borrowed writer.
///
/// It is written as [`serialize_to`] writes it, but for arrays of at least two objects that all
/// have the same keys, and at least one: each such array is a template, its keys as texts in rising
/// byte order, and no field is skipped. No message that reads as the value is shorter.
///
/// The value is gone through twice, once to measure and once to write, and each time it is found
/// again which arrays are templates: nothing is copied or kept. The errors, and what the writer has
/// taken after them, are those of `serialize_to`: `OutOfMemory`, `SerCustom` `CountTooGreat` for a
/// body longer than `i64::MAX` bytes, and the writer's I/O error (`Io`).
pub fn serialize_compact<W: Sink>(
    alloc: Global,
    writer: &mut W,
    value: &Value,
) -> bser_format::errors::Result<()>
    ensures ok { OnOk result (Wrote W.Sink (Ok (compact_tree value.now)) writer.old writer.new) }
    ensures err { IfErr result (Missed W.Sink (Ok (compact_tree value.now)) writer.old writer.new) }
{
    serialize_to(alloc, writer, &Compact { value })
}

/// A value that is written in the compact form.
#[derive(Drop)]
struct Compact<'a> {
    value: &'a Value,
}

impl Serialize for Compact<'_> {
    ghost meaning = { λ c. Ok (compact_tree c.value.now) };

    fn serialize<W: Sink>(
        &self,
        _alloc: Global,
        out: &mut Serializer<W>,
    ) -> bser_format::errors::Result<()> {
        match add_compact(self.value, out) {
            Ok(()) => Ok(()),
            Err(_) => Err(out.refusal()),
        }
    }
}

/// Puts a value. The serializer keeps the error.
#[cycle(add)]
#[inline(always)]
fn add_compact<W: Sink>(value: &Value, out: &mut Serializer<W>) -> Result<(), PutRefused>
    ensures put { AddsText W.Sink out.old out.new (value_text value.now) result }
    ensures writable { OnOk result (IsWritable (compact_tree value.now)) }
{
    match value {
        Value::Array(items) => match shared_keys(items) {
            Some(first) => {
                add_template_head(first, items.len(), out)?;
                add_rows(items, out)
            }
            None => add_items(items, out),
        },
        Value::Object(entries) => add_entries(entries, out),
        Value::ByteString(bytes) => out.add_bytes(bytes.as_bytes()),
        Value::Integer(number) => out.add_i64(*number),
        Value::Real(bits) => out.add_real_bits(*bits),
        Value::Bool(truth) => out.add_bool(*truth),
        Value::Null => out.add_null(),
        Value::Utf8String(text) => out.add_text(text.as_str()),
    }
}

/// Puts an array that is no template.
#[cycle(add)]
#[inline(never)]
fn add_items<W: Sink>(items: &Vec<Value>, out: &mut Serializer<W>) -> Result<(), PutRefused>
    ensures put { AddsText W.Sink out.old out.new (items_text items.now.items) result }
    ensures writable { OnOk result (IsWritable (compact_items items.now.items)) }
{
    out.add_seq(items.len())?;
    for item in items {
        add_compact(item, out)?;
    }
    Ok(())
}

#[cycle(add)]
#[inline(never)]
fn add_entries<W: Sink>(
    entries: &BTreeMap<String, Value>,
    out: &mut Serializer<W>,
) -> Result<(), PutRefused>
    ensures put { AddsText W.Sink out.old out.new (entries_text entries.now.entries) result }
    ensures writable { OnOk result (IsWritable (compact_entries entries.now.entries)) }
{
    out.add_map(entries.len())?;
    for (key, value) in entries {
        out.add_text_key(key.as_str())?;
        add_compact(value, out)?;
    }
    Ok(())
}

/// Puts the rows of a template.
#[cycle(add)]
#[inline(never)]
fn add_rows<W: Sink>(items: &Vec<Value>, out: &mut Serializer<W>) -> Result<(), PutRefused>
    ensures put { AddsText W.Sink out.old out.new (rows_text items.now.items) result }
    ensures writable { OnOk result (AllByRecursion RowIsWritable items.now.items) }
{
    for item in items {
        add_row(item, out)?;
    }
    Ok(())
}

/// Puts the fields of an object, which are its values.
#[cycle(add)]
fn add_row<W: Sink>(item: &Value, out: &mut Serializer<W>) -> Result<(), PutRefused>
    ensures put { AddsText W.Sink out.old out.new (row_text item.now) result }
    ensures writable { OnOk result (RowIsWritable item.now) }
{
    if let Value::Object(entries) = item {
        for (_, value) in entries.iter() {
            add_compact(value, out)?;
        }
    }
    Ok(())
}
