//! Recorded messages of a Watchman server and its client: what is printed of each, and written for it.
//!
//! The folder `watchman` has the messages. The file `recorded.tsv` has a line for each, with the sums of
//! its text and of what is written for it, and `wrong-recorded.tsv` has wrong lines.
use crate::written::compact_message;
use anyhow::Result;
use bser_vectors::columns::columns;
use bser_vectors::counts::CaseCounts;
use bser_vectors::devices::Plan;
use bser_vectors::sums::is_message;
use bser_vectors::ways::read_by_plan;
use bser_vectors::witness::Witness;
use serde_bser::ser::to_vec;
use serde_bser::value::Value;
use serde_bser::{from_slice, tell};
use std::alloc::Global;
use std::fs;

/// Prints and writes the value of each recorded message of the list.
pub fn compare_recordings(rt: &HostRuntime, file: &str) -> Result<()> {
    let text = fs::read_to_string(rt, file)?;
    let mut counts = CaseCounts::default();
    for line in text.as_str().lines() {
        let recording = RecordedMessage::parse(line);
        let message = fs::read(rt, recording.file)?;
        let mismatch = recording.first_mismatch(rt.alloc(), &message)?;
        counts.add(rt, recording.file, mismatch)?;
    }
    println!(rt;
        "{} recorded messages, {} of them wrong",
        counts.cases, counts.wrong
    )?;
    Ok(())
}

/// A recorded message, and what the list says of it: `#LENGTH:SHA256` of its text on one line, and of
/// the messages that are written for its value.
#[derive(Clone, Copy)]
struct RecordedMessage<'a> {
    /// The message's file.
    file: &'a str,
    text: &'a str,
    canonical: &'a str,
    compact: &'a str,
}

impl<'a> RecordedMessage<'a> {
    /// Takes a line apart at its tabs.
    fn parse(line: &'a str) -> Self {
        let [file, text, canonical, compact, ..] = columns(line, "\t");
        RecordedMessage {
            file,
            text,
            canonical,
            compact,
        }
    }

    /// The first thing that is not as the list says.
    ///
    /// The compact message has to be at most as long as the recorded one, and to read back as its
    /// value, from a slice and from readers of 1, 2, 3, 7 and 4096 bytes a call and of all bytes.
    fn first_mismatch(&self, alloc: Global, message: &[u8]) -> Result<Option<&'static str>> {
        if !is_in_place(alloc, message) {
            return Ok(Some("an event in another place"));
        }
        let value: Value = from_slice(alloc, message)?;
        if !is_read_by_readers(alloc, message, &value)? {
            return Ok(Some("another value from a reader"));
        }
        let text = value.to_string(alloc)?;
        if !is_message(alloc, text.as_str().as_bytes(), self.text)? {
            return Ok(Some("another text"));
        }
        if !is_message(alloc, &to_vec(alloc, &value)?, self.canonical)? {
            return Ok(Some("another canonical message"));
        }
        self.compact_mismatch(alloc, message.len(), &value)
    }

    /// The first thing about the compact message that is not as the list says, where `recorded` is how
    /// many bytes the recorded one has.
    fn compact_mismatch(
        &self,
        alloc: Global,
        recorded: usize,
        value: &Value,
    ) -> Result<Option<&'static str>> {
        let compact = compact_message(alloc, value)?;
        if !is_message(alloc, &compact, self.compact)? {
            return Ok(Some("another compact message"));
        }
        if compact.len() > recorded {
            return Ok(Some("longer than it was recorded"));
        }
        let back: Value = from_slice(alloc, &compact)?;
        if back != *value || !is_read_by_readers(alloc, &compact, value)? {
            return Ok(Some("another value of the compact message"));
        }
        Ok(None)
    }
}

/// Whether the message is given as events, each in its place, and the last up to the message's end.
fn is_in_place(alloc: Global, message: &[u8]) -> bool {
    let mut witness = Witness::new(message, usize::MAX);
    match tell::from_slice(alloc, tell::Limits::new(), message, &mut witness) {
        Ok(_) => witness.in_place && witness.end == message.len(),
        Err(_) => false,
    }
}

/// Whether readers of 1, 2, 3, 7 and 4096 bytes a call and of all bytes give the value, and have
/// nothing left.
fn is_read_by_readers(alloc: Global, message: &[u8], value: &Value) -> Result<bool> {
    for most in [1, 2, 3, 7, 4096, usize::MAX] {
        let (answer, count) = read_by_plan::<Value>(alloc, message, Plan::pieces(most));
        if answer? != *value || count != message.len() {
            return Ok(false);
        }
    }
    Ok(true)
}
