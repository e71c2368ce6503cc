//! Printing a `Value`.
ghost use Rattle.std.specs.Fmt.{DisplaysOnOk};
ghost use Rattle.bser_format.specs.SomeText.{WritesSomeOnOk};
ghost use Rattle.bser_value.specs.Displayed.{IsValueText, displayed};
ghost use Rattle.bser_value.specs.TreeText.{IsTextOf};
ghost use Rattle.bser_value.specs.ValueView.{items_tree, entries_tree};

use crate::value::Value;
use bser_format::bytes::write_bytes;
use bser_format::quoted::{write_key, write_quoted};
use bser_format::real::write_real;
use std::collections::BTreeMap;
use std::fmt;

/// The value on one line, as JSON: `[1, 2.0]`, `{"name": true}`, `null`, texts in quotes with
/// JSON's escapes. A byte string that is UTF-8 is printed as a text. What JSON cannot say has a form
/// of its own: bytes that are no UTF-8 are `{"$bytes": "61ff"}`, an infinity and a NaN are
/// `{"$real": "7ff8000000000000"}` by their bits, and a key that begins with `$` gets one `$` more.
///
/// Width and the like have no effect. Printing calls itself once for each level.
impl fmt::Display for Value {
    ghost output = { displayed };

    fn fmt<W: fmt::Write>(&self, f: &mut fmt::Formatter<W>) -> fmt::Result
        ensures writes { DisplaysOnOk W.write_str_gives f.old result (displayed self.now) f.new }
        ensures text { WritesSomeOnOk W.write_str_gives f.old result (IsValueText self.now) f.new }
    {
        show(self, f)
    }
}

#[cycle(show)]
fn show<W: fmt::Write>(value: &Value, f: &mut fmt::Formatter<W>) -> fmt::Result
    ensures { WritesSomeOnOk W.write_str_gives f.old result (IsValueText value.now) f.new }
{
    match value {
        Value::Array(items) => show_items(items, f),
        Value::Object(entries) => show_entries(entries, f),
        Value::ByteString(bytes) => write_bytes(bytes.as_bytes(), f),
        Value::Integer(number) => write!(f, "{number}"),
        Value::Real(bits) => write_real(*bits, f),
        Value::Bool(truth) => write!(f, "{truth}"),
        Value::Null => f.write_str("null"),
        Value::Utf8String(text) => write_quoted(text.as_str(), f),
    }
}

#[cycle(show)]
fn show_items<W: fmt::Write>(items: &Vec<Value>, f: &mut fmt::Formatter<W>) -> fmt::Result
    ensures { WritesSomeOnOk W.write_str_gives f.old result
        (IsTextOf (items_tree items.now.items)) f.new }
{
    f.write_str("[")?;
    let mut before = "";
    for item in items {
        f.write_str(before)?;
        show(item, f)?;
        before = ", ";
    }
    f.write_str("]")
}

#[cycle(show)]
fn show_entries<W: fmt::Write>(
    entries: &BTreeMap<String, Value>,
    f: &mut fmt::Formatter<W>,
) -> fmt::Result
    ensures { WritesSomeOnOk W.write_str_gives f.old result
        (IsTextOf (entries_tree entries.now.entries)) f.new }
{
    f.write_str("{")?;
    let mut before = "";
    for (key, member) in entries {
        f.write_str(before)?;
        write_key(key.as_str(), f)?;
        f.write_str(": ")?;
        show(member, f)?;
        before = ", ";
    }
    f.write_str("}")
}
