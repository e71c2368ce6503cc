//! What is written of a message that is read.
use anyhow::{Context, Result, bail, ensure};
use bser_canonical::slice::{canonical_of, compact_of};
use bser_from_json::reading::{Strings, message_of, value_of};
use bser_json::printing::Layout;
use bser_json::writing::write_json;
use serde_bser::de::{from_slice_within, size_of};
use serde_bser::document::Document;
use serde_bser::from_slice;
use serde_bser::ser::{InMemory, serialize_compact, to_vec};
use serde_bser::value::Value;
use std::alloc::Global;
use std::collections::BTreeMap;

/// As many levels as are read at most.
const MOST_LEVELS: usize = 1024;

/// As many levels as a JSON text may have.
const JSON_LEVELS: usize = 128;

/// Compares what is written of a message that is well-formed: each message reads as the value, and the
/// JSON text too.
pub fn compare_written(alloc: Global, message: &[u8]) -> Result<()> {
    let value: Value = from_slice(alloc, message)?;
    let document: Document = from_slice(alloc, message)?;
    compare_canonical(alloc, message, &value, &document)?;
    compare_compact(alloc, message, &value)?;
    compare_json(alloc, message, &value, &document)
}

/// Compares the canonical message, of the value, of the document and of the bytes.
fn compare_canonical(
    alloc: Global,
    message: &[u8],
    value: &Value,
    document: &Document,
) -> Result<()> {
    let canonical = to_vec(alloc, value)?;
    ensure!(
        to_vec(alloc, document)? == canonical,
        "a document is written otherwise"
    );
    let of_slice = canonical_of(alloc, message, usize::MAX).ok();
    ensure!(
        of_slice.as_ref() == Some(&canonical),
        "the canonical message is another one"
    );
    let again: Value = from_slice_within(alloc, MOST_LEVELS, &canonical)?;
    ensure!(
        again == *value,
        "the canonical message reads as another value"
    );
    Ok(())
}

/// Compares the compact message, of the value and of the bytes.
fn compare_compact(alloc: Global, message: &[u8], value: &Value) -> Result<()> {
    let mut memory = InMemory::new(Vec::new(alloc));
    serialize_compact(alloc, &mut memory, value)?;
    let compact = memory.into_inner();
    let of_slice = compact_of(alloc, message, usize::MAX).ok();
    ensure!(
        of_slice.as_ref() == Some(&compact),
        "the compact message is another one"
    );
    ensure!(
        compact.len() <= message.len(),
        "the compact message is longer"
    );
    let again: Value = from_slice_within(alloc, MOST_LEVELS, &compact)?;
    ensure!(
        again == *value,
        "the compact message reads as another value"
    );
    Ok(())
}

/// Compares the value of the JSON text. A value of more levels than a text may have does not come back.
fn compare_json(alloc: Global, message: &[u8], value: &Value, document: &Document) -> Result<()> {
    let json = json_of(alloc, document)?;
    let text = str::from_utf8(&json)?;
    let read = value_of(alloc, Strings::Texts, text, text, 0);
    if size_of(alloc, message)?.depth > JSON_LEVELS {
        ensure!(read.is_err(), "a text of too many levels is read");
        return Ok(());
    }
    let again = read.ok().context("the JSON text is refused")?;
    ensure!(is_said(value, &again), "the JSON text has another value");
    let made = message_of(alloc, Strings::Texts, text, text, 0).ok();
    ensure!(
        made == Some(to_vec(alloc, &again)?),
        "the JSON text has another message"
    );
    Ok(())
}

/// The JSON text of a document.
fn json_of(alloc: Global, document: &Document) -> Result<Vec<u8>> {
    match write_json(alloc, document.root(), Layout::Line, Vec::new(alloc)) {
        Ok(text) => Ok(text),
        Err(_) => bail!("no JSON text is written"),
    }
}

/// Whether JSON says the value by the other one: a byte string in UTF-8 as a text.
#[cycle(said)]
fn is_said(value: &Value, other: &Value) -> bool {
    match (value, other) {
        (Value::ByteString(bytes), Value::Utf8String(text)) => bytes.as_bytes() == text.as_bytes(),
        (Value::Array(items), Value::Array(others)) => are_items_said(items, others),
        (Value::Object(entries), Value::Object(others)) => are_entries_said(entries, others),
        _ => value == other,
    }
}

/// The same of all items.
#[cycle(said)]
fn are_items_said(items: &Vec<Value>, others: &Vec<Value>) -> bool {
    for (place, item) in items.iter().enumerate() {
        match others.get(place) {
            Some(other) if is_said(item, other) => {}
            _ => return false,
        }
    }
    items.len() == others.len()
}

/// The same of all entries.
#[cycle(said)]
fn are_entries_said(entries: &BTreeMap<String, Value>, others: &BTreeMap<String, Value>) -> bool {
    for (key, member) in entries.iter() {
        match others.get(key) {
            Some(other) if is_said(member, other) => {}
            _ => return false,
        }
    }
    entries.len() == others.len()
}
