//! A client's work with Watchman's messages, a file for each part of docs/USE.md, over the messages
//! on standard input and over values that it writes and reads back. The second message is read and
//! written by a derive.
#![tactic(auto)]

mod any;
mod change;
mod derive;
mod document;
mod events;
mod file;
mod find;
mod frames;
mod lists;
mod part;
mod reals;
mod replies;
mod request;
mod size;
mod values;

use crate::change::Change;
use crate::file::File;
use anyhow::{Result, bail};
use serde_bser::bytestring::ByteString;
use serde_bser::describe::Description;
use serde_bser::device::Watched;
use serde_bser::document::Document;
use serde_bser::from_slice;
use serde_bser::ser::to_vec;
use serde_bser::value::Value;
use std::collections::BTreeMap;
use std::io::Read;
use std::process::ExitCode;

fn main(rt: HostRuntime) -> Result<ExitCode> {
    let first = any::print_message(&rt);
    derive::empty_file(&rt)?;
    let mut bytes = Vec::new(rt.alloc());
    rt.reader().read_to_end(&mut bytes)?;
    println!(rt; "\n-- replies")?;
    replies::print_replies(&rt, &bytes)?;
    println!(rt; "-- frames")?;
    frames::print_frames(&rt, Watched::new(bytes.as_slice()))?;
    println!(rt; "-- events")?;
    events::print_events(&rt, Watched::new(bytes.as_slice()))?;
    print_values(&rt, &bytes)?;
    print_written(&rt)?;
    Ok(first)
}

/// What the first message of the bytes says, as any value.
fn print_values(rt: &HostRuntime, bytes: &[u8]) -> Result<()> {
    let alloc = rt.alloc();
    let answer: Value = from_slice(alloc, bytes)?;
    let version = answer.get("version").and_then(Value::as_str);
    let version = version.unwrap_or("none");
    let sum = values::total_size(&answer);
    let (total, largest) = document::sizes(alloc, bytes)?;
    let small = document::small_value(alloc, bytes)?.is_some();
    let short = events::is_short(alloc, bytes);
    let document: Document = from_slice(alloc, bytes)?;
    let clock = part::part_message(alloc, &document, "clock")?;
    println!(rt; "-- values\nversion {version}, bytes in files: {sum}")?;
    println!(rt;
        "bytes in files: {total}, in the largest {largest}\na small value: {small}\n\
         at most 100 bytes: {short}"
    )?;
    if let Some(clock) = clock {
        println!(rt;
            "the clock as a message: {}",
            from_slice::<Value>(alloc, &clock)?
        )?;
    }
    Ok(())
}

/// What is written here is read back.
fn print_written(rt: &HostRuntime) -> Result<()> {
    let alloc = rt.alloc();
    let query = request::query_message(alloc, "/data/my/project", Some("c:0:0"))?;
    println!(rt; "-- written\n{}", from_slice::<Value>(alloc, &query)?)?;
    let mut lists = BTreeMap::new(alloc);
    lists.insert(
        String::from_str(alloc, "sizes")?,
        vec![in alloc; 1, 2, 300]?,
    )?;
    let longest = described(lists::longest_list(alloc, &to_vec(alloc, &lists)?))?;
    let names = described(lists::bare_names(alloc, &to_vec(alloc, &("a.c", "b.c"))?))?;
    println!(rt; "numbers in the longest list: {longest}\nbare names: {names}")?;
    print_files(rt)?;
    let real = reals::real_message(alloc, 2.5)?;
    println!(rt; "{}", from_slice::<Value>(alloc, &real)?)?;
    Ok(())
}

/// The value, or the error that this describes.
fn described<T>(answer: std::result::Result<T, Description>) -> Result<T> {
    match answer {
        Ok(value) => Ok(value),
        Err(error) => bail!("{error}"),
    }
}

/// A file and what became of it, written and read back.
fn print_files(rt: &HostRuntime) -> Result<()> {
    let alloc = rt.alloc();
    let file = File {
        name: ByteString::from_text(alloc, "src/lib.rs")?,
        size: 1024,
    };
    let shorter = file::truncated(alloc, &to_vec(alloc, &file)?)?;
    println!(rt; "{}", from_slice::<Value>(alloc, &shorter)?)?;
    match size::size_in(alloc, &shorter)? {
        Some(size) => println!(rt; "size {size}")?,
        None => println!(rt; "no size")?,
    }
    println!(rt; "size of the file {}", size::file_size(alloc, &shorter)?)?;
    match find::first_size(alloc, &shorter) {
        Some(size) => println!(rt; "found {size}")?,
        None => println!(rt; "not found")?,
    }
    let File { name, size: _ } = file;
    print_change(rt, &Change::Renamed(name))?;
    print_change(rt, &Change::Gone)?;
    let size = 7;
    print_change(rt, &Change::Written { size, mode: None })
}

/// The message of the change, and what it is read back as.
fn print_change(rt: &HostRuntime, change: &Change) -> Result<()> {
    let alloc = rt.alloc();
    let message = to_vec(alloc, change)?;
    let back: Change = from_slice(alloc, &message)?;
    let value: Value = from_slice(alloc, &message)?;
    println!(rt; "{value}, the same when it is read: {}", back == *change)?;
    Ok(())
}
