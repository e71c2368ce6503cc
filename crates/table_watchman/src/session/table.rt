//! What is known of all files, by the messages that list them.
use anyhow::{Result, bail};
use serde_bser::bytestring::ByteString;
use std::alloc::Global;
use std::collections::BTreeMap;
use watchman_types::file::File;
use watchman_types::file_type::FileType;

/// What is known of a file.
#[derive(Clone, Copy, PartialEq)]
struct FoldedState {
    exists: bool,
    size: u64,
    mode: u32,
    kind: FileType,
    mtime_ms: i64,
}

/// What is known of a file, and by which messages.
#[derive(Clone, Copy)]
pub struct FileRow {
    state: FoldedState,
    /// The last message that says something of it.
    last: u32,
    /// The message by which it came to differ last.
    changed: u32,
    /// Whether `last` says it by not naming it.
    unnamed: bool,
}

/// Puts what the message of this number says of a file.
pub fn put(
    alloc: Global,
    table: &mut BTreeMap<ByteString, FileRow>,
    number: u32,
    file: &File<ByteString>,
) -> Result<()> {
    let (Some(name), Some(exists), Some(size)) = (&file.name, file.exists, file.size) else {
        bail!("no name, existence or size");
    };
    let (Some(mode), Some(kind), Some(mtime_ms)) = (file.mode, file.kind, file.mtime_ms) else {
        bail!("no mode, type or time");
    };
    let state = FoldedState {
        exists,
        size,
        mode,
        kind,
        mtime_ms,
    };
    let changed = match table.get(name) {
        Some(row) if row.state == state => row.changed,
        _other => number,
    };
    let row = FileRow {
        state,
        last: number,
        changed,
        unnamed: false,
    };
    let _former = table.insert(name.try_clone(alloc)?, row)?;
    Ok(())
}

/// Files that exist and are not in the message of this number, which lists all, are gone.
pub fn forget_unnamed(table: &mut BTreeMap<ByteString, FileRow>, number: u32) {
    for (_name, row) in table.iter_mut() {
        if row.state.exists && row.last != number {
            row.state.exists = false;
            row.last = number;
            row.changed = number;
            row.unnamed = true;
        }
    }
}

/// Watchman's letter of a type.
fn letter(kind: FileType) -> &'static str {
    match kind {
        FileType::Regular => "f",
        FileType::Directory => "d",
        FileType::Symlink => "l",
        _ => "?",
    }
}

/// A line of the file, as the expected ones.
pub fn line(alloc: Global, number: u32, name: &ByteString, row: &FileRow) -> Result<String> {
    let state = row.state;
    let path = hex::encode(alloc, name.as_bytes())?;
    let exists = if state.exists { 1 } else { 0 };
    let by = if row.unnamed { "fresh" } else { "row" };
    let kind = letter(state.kind);
    Ok(format!(in alloc;
        "{number}\t{path}\t{exists}\t{}\t{}\t{kind}\t{}\t{}\t{}\t{by}\n",
        state.size, state.mode, row.last, state.mtime_ms, row.changed
    )?)
}
