//! A recorded session, added to an index.

use crate::changes::check_changes;
use crate::expected::{Numbers, table_after};
use crate::run::{output_of, run_index};
use anyhow::{Result, bail};
use bser_vectors::columns::columns;
use bser_vectors::session::{SentMessage, sent_messages};
use std::alloc::Global;
use std::fs;

/// The session's messages that are answers to queries of another expression or with other fields.
const OTHERS: [u32; 4] = [39, 41, 43, 45];

/// Those of them whose clocks no other message tells.
const UNKNOWN: [u32; 3] = [39, 41, 43];

/// The last of the session's messages that lists files before the server was started anew.
const LAST_OF_FIRST: u32 = 71;

/// The number that no message of the session has.
const NO_NUMBER: u32 = 0;

/// Adds the session's messages up to each that lists files, and compares the index with the table
/// after it. Compares what changed after each clock before the server was started anew with its
/// answers of then, and at the end what changed after some clocks.
///
/// The server's clock went on between some messages though no file changed, and they do not join then.
/// Before these stands what the server would have answered: that nothing has changed up to that clock.
pub fn compare_session(rt: &HostRuntime) -> Result<()> {
    let stream = fs::read(rt, "stream-server.bser")?;
    let list = fs::read_to_string(rt, "session.tsv")?;
    let tables = fs::read_to_string(rt, "tables.tsv")?;
    let messages = sent_messages(rt.alloc(), list.as_str())?;
    let ticks = fs::read_to_string(rt, "ticks.tsv")?;
    let folded = folded_of(rt.alloc(), &messages, ticks.as_str())?;
    let numbers = Numbers(&folded);
    let mut bytes = Vec::new(rt.alloc());
    for message in &messages {
        if OTHERS.contains(&message.number) {
            continue;
        }
        if let Some(clock) = tick_before(ticks.as_str(), message.number)? {
            bytes.extend_from_slice(&answer_of_none(rt, clock)?)?;
        }
        bytes.extend_from_slice(message.bytes(&stream))?;
        if message.lists_files {
            add_messages(rt, &bytes)?;
            check_table(rt, &numbers, tables.as_str(), message.number)?;
            bytes.clear();
        }
        if message.number == LAST_OF_FIRST {
            check_changes(rt, "since.tsv", &UNKNOWN)?;
        }
    }
    let compared = folded.iter().filter(|number| **number != NO_NUMBER).count();
    println!(rt; "{compared} tables compared")?;
    check_changes(rt, "restart.tsv", &UNKNOWN)
}

/// The numbers of those that list files and are added, and [`NO_NUMBER`] for each that stands before one.
fn folded_of(alloc: Global, messages: &[SentMessage], ticks: &str) -> Result<Vec<u32>> {
    let mut numbers = Vec::new(alloc);
    for message in messages {
        if message.lists_files {
            if tick_before(ticks, message.number)?.is_some() {
                numbers.push(NO_NUMBER)?;
            }
            numbers.push(message.number)?;
        }
    }
    Ok(numbers)
}

/// The clock at which no file had changed before the message of this number, where it went on.
fn tick_before<'t>(ticks: &'t str, number: u32) -> Result<Option<&'t str>> {
    for line in ticks.lines().skip(1) {
        let [before, clock, ..] = columns(line, "\t");
        if before.parse::<u32>()? == number {
            return Ok(Some(clock));
        }
    }
    Ok(None)
}

/// The answer that no file has changed up to a clock.
fn answer_of_none(rt: &HostRuntime, clock: &str) -> Result<Vec<u8>> {
    let text = format!(in rt.alloc();
        "{{\"version\":\"4.9.0\",\"clock\":\"{clock}\",\"is_fresh_instance\":false,\"files\":[]}}"
    )?;
    output_of(rt, &["from-json"], text.as_bytes())
}

/// Adds messages, and prints what is reported.
fn add_messages(rt: &HostRuntime, bytes: &[u8]) -> Result<()> {
    let ran = run_index(rt, "add --recording session.db", bytes)?;
    print!(rt; "{}", String::from_utf8_lossy(rt.alloc(), &ran.errors)?)?;
    Ok(())
}

/// Compares the index with the table after the message of this number.
fn check_table(rt: &HostRuntime, numbers: &Numbers<'_>, tables: &str, number: u32) -> Result<()> {
    let expected = table_after(rt.alloc(), numbers, tables, number)?;
    let ran = run_index(rt, "list --all session.db", &[])?;
    if ran.output.as_slice() != expected.as_bytes() {
        let found = String::from_utf8_lossy(rt.alloc(), &ran.output)?;
        println!(rt; "expected after message {number}:\n{expected}found:\n{found}")?;
        bail!("another table");
    }
    Ok(())
}
