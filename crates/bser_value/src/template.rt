//! Which arrays are templates, and how a template begins.
ghost use Rattle.std.specs.Prelude.{◌≡◌, ◌<◌, ◌^◌, length, OnOk, option_map};
ghost use Rattle.std.specs.List.{AllByRecursion};
ghost use Rattle.bser_format.specs.Canonical.{IsWritableText};
ghost use Rattle.bser_format.specs.Compact.{same_keys};
ghost use Rattle.bser_ser.specs.Ends.{AddsText};
ghost use Rattle.bser_value.specs.CompactTexts.{has_keys, head_text, names_of, template_names};

use crate::value::Value;
use bser_ser::{Parts, PutRefused, Serializer};
use bser_source::device::Sink;
use std::collections::BTreeMap;

/// Puts a template's tag, its keys and the count of its rows.
#[inline(never)]
pub fn add_template_head<W: Sink>(
    first: &BTreeMap<String, Value>,
    rows: usize,
    out: &mut Serializer<W>,
) -> Result<(), PutRefused>
    requires { rows < 2 ^ 63 }
    ensures put { AddsText W.Sink out.old out.new (head_text first.now.entries rows) result }
    ensures few { OnOk result (length (names_of first.now.entries) < 2 ^ 63) }
    ensures texts { OnOk result (AllByRecursion IsWritableText (names_of first.now.entries)) }
{
    out.add_template()?;
    out.add_seq(first.len())?;
    for (key, _) in first.iter() {
        out.add_text(key.as_str())?;
    }
    out.add_i64(rows as i64)?;
    Ok(())
}

/// Returns the first of the items, where they are a template's rows: at least two objects that all
/// have its keys, of which there is one at least. It looks at no key twice, and at none after the
/// first that differs.
pub fn shared_keys(items: &[Value]) -> Option<&BTreeMap<String, Value>>
    ensures { option_map (λ first. names_of first.now.entries) result ≡ template_names items.now }
{
    let (head, rest) = items.split_first()?;
    let Value::Object(first) = head else {
        return None;
    };
    if first.is_empty() || rest.is_empty() {
        return None;
    }
    for item in rest {
        if !is_object_of(item, first) {
            return None;
        }
    }
    Some(first)
}

/// Whether it is an object with the keys of this one.
fn is_object_of(item: &Value, first: &BTreeMap<String, Value>) -> bool
    ensures { result ≡ has_keys (names_of first.now.entries) item.now }
{
    match item {
        Value::Object(entries) => are_same_keys(entries, first),
        _ => false,
    }
}

fn are_same_keys(entries: &BTreeMap<String, Value>, others: &BTreeMap<String, Value>) -> bool
    ensures { result ≡ same_keys (names_of entries.now.entries) (names_of others.now.entries) }
{
    let mut rest = others.iter();
    for (key, _) in entries.iter() {
        match rest.next() {
            Some((other, _)) if key == other => {}
            _ => return false,
        }
    }
    rest.next().is_none()
}
