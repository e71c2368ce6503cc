//! The table of all files, folded from the messages of a session.
use crate::session::messages_of;
use crate::session::table::{FileRow, forget_unnamed, line, put};
use anyhow::{Context, Result};
use bser_vectors::counts::CaseCounts;
use bser_vectors::session::SentMessage;
use serde_bser::bytestring::ByteString;
use serde_bser::device::Watched;
use std::alloc::Global;
use std::collections::BTreeMap;
use std::fs;
use watchman_client::bounds::Bounds;
use watchman_client::client::Client;
use watchman_types::file::File;
use watchman_types::query::QueryResult;

/// Folds the connections of a session one after the other, and compares the tables.
pub fn fold_session(rt: &HostRuntime, stream: &[u8], messages: &[SentMessage]) -> Result<()> {
    let mut table = BTreeMap::new(rt.alloc());
    let mut lines = String::new(rt.alloc());
    for connection in 1..3 {
        let messages = messages_of(rt.alloc(), messages, connection)?;
        follow(rt.alloc(), stream, &messages, &mut table, &mut lines)?;
    }
    compare(rt, "tables.tsv", lines.as_str())?;
    compare(rt, "wrong-tables.tsv", lines.as_str())
}

/// Takes each of the messages of a connection from a client, and folds those that list files.
fn follow(
    alloc: Global,
    stream: &[u8],
    messages: &[SentMessage],
    table: &mut BTreeMap<ByteString, FileRow>,
    text: &mut String,
) -> Result<()> {
    let start = messages.first().context("no message")?.start;
    let bytes = stream.get(start..).context("outside")?;
    let bounds = Bounds {
        message_bytes: 1_000,
        kept_messages: 0,
        kept_bytes: 0,
    };
    let writer = Watched::new(Vec::new(alloc));
    let mut client = Client::new(alloc, bounds, Watched::new(bytes), writer);
    for message in messages {
        if message.is_unsolicited {
            client.next_unsolicited()?;
        } else {
            client.send(&"request")?;
            client.answer()?;
        }
        if message.lists_files {
            fold(alloc, table, message.number, client.read()?, text)?;
        }
    }
    Ok(())
}

/// Folds the files of a message, and writes the table's lines behind the text.
fn fold(
    alloc: Global,
    table: &mut BTreeMap<ByteString, FileRow>,
    number: u32,
    listed: QueryResult<ByteString, File<ByteString>>,
    text: &mut String,
) -> Result<()> {
    for file in &listed.files {
        put(alloc, table, number, file)?;
    }
    if listed.is_fresh_instance {
        forget_unnamed(table, number);
    }
    for (name, row) in &*table {
        text.push_str(line(alloc, number, name, row)?.as_str())?;
    }
    Ok(())
}

/// Compares the lines with those of the file, and prints those that differ.
fn compare(rt: &HostRuntime, file: &str, lines: &str) -> Result<()> {
    let expected = fs::read_to_string(rt, file)?;
    let mut rows = CaseCounts::default();
    for (line, expected) in lines.lines().zip(expected.as_str().lines()) {
        rows.count(line == expected);
        if line != expected {
            println!(rt; "another row than {expected}")?;
        }
    }
    let (made, expected) = (lines.lines().count(), expected.as_str().lines().count());
    println!(rt;
        "{file}: {expected} rows of {made}, {} of them wrong",
        rows.wrong
    )?;
    Ok(())
}
