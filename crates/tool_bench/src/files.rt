//! The answer of Watchman that is measured: 500 files of six fields each, in an object.
use crate::table::TABLE;
use anyhow::{Context, Result};
use bser_format::bytestring::ByteString;
use serde_bser::value::Value;
use std::alloc::Global;
use std::collections::BTreeMap;

/// The permissions of each file, as a Unix system numbers them: a plain file, 0644.
const MODE: i64 = 33188;

/// The answer with the first `count` files of the table, 500 at most.
pub fn answer(alloc: Global, count: usize) -> Result<Value> {
    let mut entries = BTreeMap::new(alloc);
    put_text(alloc, &mut entries, "version", "4.9.0")?;
    put(alloc, &mut entries, "files", files(alloc, count)?)?;
    put_text(alloc, &mut entries, "clock", "c:1525428959:45796:2:7717")?;
    put(alloc, &mut entries, "is_fresh_instance", Value::Bool(true))?;
    Ok(Value::Object(entries))
}

// The first `count` files of the table.
fn files(alloc: Global, count: usize) -> Result<Value> {
    let mut files = Vec::new(alloc);
    for (number, line) in TABLE.lines().take(count).enumerate() {
        files.push(file(alloc, number, line)?)?;
    }
    Ok(Value::Array(files))
}

// The file of one line of the table, of which the name ends in its number.
fn file(alloc: Global, number: usize, line: &str) -> Result<Value> {
    let (folder, rest) = line.split_once(' ').context("no size in the line")?;
    let (size, changed) = rest.split_once(' ').context("no time in the line")?;
    let (size, changed) = (size.parse()?, changed.parse()?);
    let name = format!(in alloc; "{folder}/file_{number:06}.rs")?;
    fields(alloc, name, size, changed)
}

// The file of this name, of so many bytes, which was changed at this time.
fn fields(alloc: Global, name: String, size: i64, changed: i64) -> Result<Value> {
    let name = Value::ByteString(ByteString::from(name));
    let mut fields = BTreeMap::new(alloc);
    put(alloc, &mut fields, "name", name)?;
    put(alloc, &mut fields, "size", Value::Integer(size))?;
    put(alloc, &mut fields, "mtime_ms", Value::Integer(changed))?;
    put(alloc, &mut fields, "exists", Value::Bool(true))?;
    put(alloc, &mut fields, "mode", Value::Integer(MODE))?;
    put_text(alloc, &mut fields, "type", "f")?;
    Ok(Value::Object(fields))
}

fn put_text(
    alloc: Global,
    entries: &mut BTreeMap<String, Value>,
    key: &str,
    text: &str,
) -> Result<()> {
    put(alloc, entries, key, Value::from_text(alloc, text)?)
}

fn put(
    alloc: Global,
    entries: &mut BTreeMap<String, Value>,
    key: &str,
    value: Value,
) -> Result<()> {
    drop(entries.insert(String::from_str(alloc, key)?, value)?);
    Ok(())
}
