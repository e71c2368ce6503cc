//! Does one operation of the library many times, so that its instructions can be counted.
//!
//! `tool_bench OPERATION FILE COUNT` does it COUNT times with the message in FILE, and prints what
//! came of the last time. Where FILE is `-`, the message is the program's own answer of 500 files,
//! which has no template. Without arguments each operation is done once with an answer of a few
//! files.
//!
//! `serialize` writes a `Value` to memory, `to-vec` does so without measuring it first,
//! `serialize-compact` does so in the compact form, and `value`, `value-reader` and `value-stream`
//! read one; they print the length and a checksum of its message. `typed-lent`, `typed-owned` and
//! `typed-reader` read the files as structs, and print how many there are and the sum of their
//! fields. `derived-lent` and `derived-owned` do so by derives, and `derived-write` writes such
//! structs to memory. `document` and `document-reader` read a `Document` and print how many files
//! it has; `document-lookup` looks up two numbers of each file as well, and prints their sum;
//! `document-write` writes one to memory. `canon` reads a message from a reader and writes its
//! canonical message, as `bser_canon` does. `skip` keeps nothing. `size` adds up what the message
//! means, and prints it. The operations on a `reader`, and `canon`, read from a reader over
//! the bytes, `value-stream` from one reader over COUNT copies of them, and the others from the
//! bytes themselves.
#![tactic(auto)]

mod files;
mod rows;
mod table;

use crate::rows::{ByteCount, MeasuredFiles};
use anyhow::{Context, Result, bail};
use bser_canonical::engine::canon;
use bser_serde::{ByteBuf, Bytes};
use serde_bser::bytestring::ByteString;
use serde_bser::de::{Deserialize, DeserializeOwned, Ignored, Size};
use serde_bser::device::Watched;
use serde_bser::document::{Document, Item, Rows};
use serde_bser::ser::{InMemory, Serialize, serialize, serialize_compact, to_vec};
use serde_bser::stream::ReaderMessages;
use serde_bser::value::Value;
use serde_bser::{from_reader, from_slice};
use std::alloc::Global;
use std::{env, fs};

/// The files of the answer where there are no arguments.
const FEW: usize = 3;

/// The files of the answer that is measured.
const MANY: usize = 500;

/// What is done.
const OPERATIONS: [&str; 19] = [
    "serialize",
    "to-vec",
    "serialize-compact",
    "value",
    "value-reader",
    "value-stream",
    "typed-lent",
    "typed-owned",
    "typed-reader",
    "derived-lent",
    "derived-owned",
    "derived-write",
    "document",
    "document-reader",
    "document-lookup",
    "document-write",
    "canon",
    "skip",
    "size",
];

fn main(rt: HostRuntime) -> Result<()> {
    let mut args = env::args(&rt)?.skip(1);
    match args.next() {
        None => do_each_once(&rt),
        Some(operation) => {
            let file = args.next().context("no FILE")?;
            let count = args.next().context("no COUNT")?.parse::<u32>()?;
            do_often(&rt, operation.as_str(), file.as_str(), count)
        }
    }
}

// Does each operation once with an answer of a few files.
fn do_each_once(rt: &HostRuntime) -> Result<()> {
    let message = written(rt.alloc(), &files::answer(rt.alloc(), FEW)?)?;
    for operation in OPERATIONS {
        let line = repeated(rt.alloc(), operation, &message, 1)?;
        println!(rt; "{operation}: {line}")?;
    }
    Ok(())
}

// Does the operation `count` times with the message in the file.
fn do_often(rt: &HostRuntime, operation: &str, file: &str, count: u32) -> Result<()> {
    let message = message_of(rt, file)?;
    let line = repeated(rt.alloc(), operation, &message, count)?;
    println!(rt; "{line}")?;
    Ok(())
}

// The message in the file, or where it is `-`, that of the program's own answer.
fn message_of(rt: &HostRuntime, file: &str) -> Result<Vec<u8>> {
    if file == "-" {
        return written(rt.alloc(), &files::answer(rt.alloc(), MANY)?);
    }
    Ok(fs::read(rt, file)?)
}

// Does the operation `count` times, and answers a line on the last time.
fn repeated(alloc: Global, operation: &str, message: &[u8], count: u32) -> Result<String> {
    match operation {
        "serialize" => bytes_line(alloc, written_often(alloc, message, count)),
        "to-vec" => bytes_line(alloc, made_often::<Value>(alloc, message, count)),
        "serialize-compact" => bytes_line(alloc, compact_often(alloc, message, count)),
        "value" => value_line(alloc, read_often(alloc, message, count)),
        "value-reader" => value_line(alloc, copied_often(alloc, message, count)),
        "value-stream" => value_line(alloc, streamed_often(alloc, message, count)),
        "typed-lent" => files_line::<&[u8], &str>(alloc, read_often(alloc, message, count)),
        "typed-owned" => files_line::<ByteString, String>(alloc, read_often(alloc, message, count)),
        "typed-reader" => {
            files_line::<ByteString, String>(alloc, copied_often(alloc, message, count))
        }
        "derived-lent" => {
            files_line::<Bytes<'_>, &str>(alloc, derived_often(alloc, message, count))
        }
        "derived-owned" => {
            files_line::<ByteBuf, String>(alloc, derived_often(alloc, message, count))
        }
        "derived-write" => bytes_line(alloc, derived_made_often(alloc, message, count)),
        "document" => document_line(alloc, read_often(alloc, message, count)),
        "document-reader" => document_line(alloc, copied_often(alloc, message, count)),
        "document-lookup" => looked_up_often(alloc, message, count),
        "document-write" => bytes_line(alloc, made_often::<Document>(alloc, message, count)),
        "canon" => bytes_line(alloc, rewritten_often(alloc, message, count)),
        "skip" => skip_line(alloc, read_often(alloc, message, count)),
        "size" => size_line(alloc, read_often(alloc, message, count)),
        _ => bail!("unknown operation {operation}"),
    }
}

/// Makes something `count` times, and answers what was made last. What was made before is dropped
/// first.
fn last_of<T: Drop, F: FnMut() -> Result<T>>(count: u32, make: F) -> Result<T>
    requires { F.IsAlwaysCallable make }
{
    let mut make = make;
    let mut last = None;
    for _ in 0..count {
        last = None;
        let made = make()?;
        last = Some(made);
    }
    last.context("COUNT is 0")
}

// Reads the message from the slice each time.
fn read_often<'de, T: Deserialize<&'de [u8]>>(
    alloc: Global,
    message: &'de [u8],
    count: u32,
) -> Result<T> {
    last_of(count, || Ok(from_slice(alloc, message)?))
}

// Reads the message from a reader of its own each time.
fn copied_often<T: DeserializeOwned>(alloc: Global, message: &[u8], count: u32) -> Result<T> {
    last_of(
        count,
        || Ok(from_reader(alloc, &mut Watched::new(message))?),
    )
}

// Reads the message by a derive each time.
fn derived_often<'de, T: serde::Deserialize<'de>>(
    alloc: Global,
    message: &'de [u8],
    count: u32,
) -> Result<T> {
    last_of(count, || Ok(bser_serde::from_slice(alloc, message)?))
}

// Reads copies of the message, one after the other from one reader.
fn streamed_often<T: DeserializeOwned>(alloc: Global, message: &[u8], count: u32) -> Result<T> {
    let mut copies = Vec::new(alloc);
    for _ in 0..count {
        copies.extend_from_slice(message)?;
    }
    let mut messages = ReaderMessages::new(alloc, Watched::new(copies.as_slice()));
    last_of(count, || messages.next_message()?.context("too few"))
}

// Writes the message's value each time, to memory of its own.
fn written_often(alloc: Global, message: &[u8], count: u32) -> Result<Vec<u8>> {
    let value: Value = from_slice(alloc, message)?;
    last_of(count, || written(alloc, &value))
}

// Makes the message of what is read of the message each time.
fn made_often<'de, T: Deserialize<&'de [u8]> + Serialize>(
    alloc: Global,
    message: &'de [u8],
    count: u32,
) -> Result<Vec<u8>> {
    let value: T = from_slice(alloc, message)?;
    message_often(alloc, &value, count)
}

// Makes the message of the value each time.
fn message_often<T: Serialize>(alloc: Global, value: &T, count: u32) -> Result<Vec<u8>> {
    last_of(count, || Ok(to_vec(alloc, value)?))
}

// Makes the message of the files by a derive each time.
fn derived_made_often(alloc: Global, message: &[u8], count: u32) -> Result<Vec<u8>> {
    let files: MeasuredFiles<Bytes<'_>, &str> = bser_serde::from_slice(alloc, message)?;
    last_of(count, || Ok(bser_serde::to_vec(alloc, &files)?))
}

// Writes the canonical message of the message each time, to memory of its own.
fn rewritten_often(alloc: Global, message: &[u8], count: u32) -> Result<Vec<u8>> {
    last_of(count, || {
        let mut writer = InMemory::new(Vec::new(alloc));
        canon(alloc, &mut Watched::new(message), &mut writer)?;
        Ok(writer.into_inner())
    })
}

// Writes the message's value in the compact form each time, to memory of its own.
fn compact_often(alloc: Global, message: &[u8], count: u32) -> Result<Vec<u8>> {
    let value: Value = from_slice(alloc, message)?;
    last_of(count, || {
        let mut writer = Watched::new(Vec::new(alloc));
        serialize_compact(alloc, &mut writer, &value)?;
        Ok(writer.into_inner())
    })
}

// The value's message in memory.
fn written(alloc: Global, value: &Value) -> Result<Vec<u8>> {
    match serialize(alloc, Watched::new(Vec::new(alloc)), value) {
        Ok(writer) => Ok(writer.into_inner()),
        Err((_, error)) => Err(error.into()),
    }
}

fn value_line(alloc: Global, value: Result<Value>) -> Result<String> {
    bytes_line(alloc, written(alloc, &value?))
}

fn files_line<B: ByteCount + Drop, S: ByteCount + Drop>(
    alloc: Global,
    files: Result<MeasuredFiles<B, S>>,
) -> Result<String> {
    let files = files?;
    let line = format!(in alloc; "{} files, sum {}", files.files.len(), files.sum())?;
    Ok(line)
}

fn document_line(alloc: Global, document: Result<Document>) -> Result<String> {
    let document = document?;
    let files = document.root().get("files").and_then(Item::len);
    let line = format!(in alloc; "{} files", files.unwrap_or(0))?;
    Ok(line)
}

// Reads the message as a document `count` times, each time adds up the numbers of its files, and
// answers a line on the last time.
fn looked_up_often(alloc: Global, message: &[u8], count: u32) -> Result<String> {
    let mut sum = 0;
    for _ in 0..count {
        let document: Document = from_slice(alloc, message)?;
        sum = numbers_in(document.root());
    }
    let line = format!(in alloc; "sum {sum}")?;
    Ok(line)
}

// The sizes and times of the files of an answer, added up.
fn numbers_in(answer: Item<'_>) -> i64 {
    let Some(files) = answer.get("files") else {
        return 0;
    };
    if let Some(rows) = files.rows() {
        return numbers_in_rows(rows);
    }
    let mut sum: i64 = 0;
    if let Some(items) = files.items() {
        for file in items {
            sum = sum.wrapping_add(number_of(file.get("size")));
            sum = sum.wrapping_add(number_of(file.get("mtime_ms")));
        }
    }
    sum
}

// The sizes and times of files that are the rows of a template.
fn numbers_in_rows(rows: Rows<'_>) -> i64 {
    let mut sum: i64 = 0;
    if let (Some(size), Some(changed)) = (rows.place("size"), rows.place("mtime_ms")) {
        for row in rows {
            sum = sum.wrapping_add(number_of(row.field(size)));
            sum = sum.wrapping_add(number_of(row.field(changed)));
        }
    }
    sum
}

fn number_of(field: Option<Item<'_>>) -> i64 {
    field.and_then(Item::as_i64).unwrap_or(0)
}

fn skip_line(alloc: Global, skipped: Result<Ignored>) -> Result<String> {
    let _skipped = skipped?;
    Ok(String::from_str(alloc, "skipped")?)
}

fn size_line(alloc: Global, size: Result<Size>) -> Result<String> {
    let size = size?;
    let (values, keys, depth) = (size.values, size.key_bytes, size.depth);
    let line = format!(in alloc; "{values} values, {keys} bytes of keys, {depth} levels")?;
    Ok(line)
}

fn bytes_line(alloc: Global, bytes: Result<Vec<u8>>) -> Result<String> {
    let bytes = bytes?;
    let line = format!(in alloc; "{} bytes, checksum {:016x}", bytes.len(), checksum(&bytes))?;
    Ok(line)
}

// The FNV-1a hash of 64 bits.
fn checksum(bytes: &[u8]) -> u64 {
    bytes.iter().fold(0xcbf2_9ce4_8422_2325, |hash: u64, byte| {
        (hash ^ u64::from(*byte)).wrapping_mul(0x0000_0100_0000_01b3)
    })
}
