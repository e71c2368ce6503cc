//! Recorded messages, their JSON, and what is made of both.
//!
//! A line of a list has the file that a message is in, how many bytes lie before it there, how many it
//! has, its JSON, the message that is made of that JSON, its canonical message, and its compact
//! message, or `-` where that is not known. A text is itself, or as every message `#LENGTH:SHA256`.
use crate::printed::is_printed_as;
use crate::run::output_of;
use anyhow::{Context, Result};
use bser_vectors::columns::columns;
use bser_vectors::counts::CaseCounts;
use bser_vectors::sums::{is_message, is_text};
use std::alloc::Global;
use std::fs;

/// Compares what is made of each message of the list, and prints the lines that are not so.
pub fn compare_messages(rt: &HostRuntime, list: &str) -> Result<()> {
    let text = fs::read_to_string(rt, list)?;
    let mut lines = CaseCounts::default();
    for line in text.as_str().lines() {
        let line = KnownMessage::parse(line)?;
        let mismatch = line.first_mismatch(rt, &line.message(rt)?)?;
        lines.add(
            rt,
            format_args!("{} at {}", line.file, line.start),
            mismatch,
        )?;
    }
    println!(rt; "{} messages, {} of them wrong", lines.cases, lines.wrong)?;
    Ok(())
}

/// A message, and what is made of it.
#[derive(Clone, Copy)]
struct KnownMessage<'a> {
    file: &'a str,
    start: usize,
    len: usize,
    json: &'a str,
    made: &'a str,
    canonical: &'a str,
    compact: &'a str,
}

impl<'a> KnownMessage<'a> {
    /// Takes a line apart.
    fn parse(line: &'a str) -> Result<Self> {
        let [file, start, len, json, made, canonical, compact, ..] = columns(line, "\t");
        Ok(KnownMessage {
            file,
            start: start.parse()?,
            len: len.parse()?,
            json,
            made,
            canonical,
            compact,
        })
    }

    /// The message.
    fn message(&self, rt: &HostRuntime) -> Result<Vec<u8>> {
        let stream = fs::read(rt, self.file)?;
        let end = self.start.saturating_add(self.len);
        let message = stream.get(self.start..end).context("outside")?;
        Ok(Vec::from_slice(rt.alloc(), message)?)
    }

    /// The first thing that is not as the line says.
    fn first_mismatch(&self, rt: &HostRuntime, message: &[u8]) -> Result<Option<&'static str>> {
        let json = output_of(rt, &["json"], message)?;
        if !is_line(rt.alloc(), &json, self.json)? {
            return Ok(Some("another JSON"));
        }
        if output_of(rt, &["get", ""], message)? != json {
            return Ok(Some("another JSON by a pointer"));
        }
        if !is_printed_as(rt.alloc(), message, &json)? {
            return Ok(Some("another text by `{}`"));
        }
        if !is_message(
            rt.alloc(),
            &output_of(rt, &["canon"], message)?,
            self.canonical,
        )? {
            return Ok(Some("another canonical message"));
        }
        let compact = output_of(rt, &["canon", "--compact"], message)?;
        if self.compact != "-" && !is_message(rt.alloc(), &compact, self.compact)? {
            return Ok(Some("another compact message"));
        }
        self.first_mismatch_back(rt, &json, message)
    }

    /// The first thing that is not as the line says of what is made of the JSON.
    fn first_mismatch_back(
        &self,
        rt: &HostRuntime,
        json: &[u8],
        message: &[u8],
    ) -> Result<Option<&'static str>> {
        let made = output_of(rt, &["from-json"], json)?;
        if !is_message(rt.alloc(), &made, self.made)? {
            return Ok(Some("another message of the JSON"));
        }
        if output_of(rt, &["canon"], &made)? != made {
            return Ok(Some("the message of the JSON is not canonical"));
        }
        if output_of(rt, &["json"], &made)?.as_slice() != json {
            return Ok(Some("another JSON of the message of the JSON"));
        }
        let lines = output_of(rt, &["json", "--pretty"], message)?;
        if output_of(rt, &["from-json"], &lines)? != made {
            return Ok(Some("another message of the JSON on several lines"));
        }
        Ok(None)
    }
}

/// Whether the bytes are a line, and the column shows it without its end.
fn is_line(alloc: Global, bytes: &[u8], column: &str) -> Result<bool> {
    match bytes.strip_suffix(b"\n") {
        Some(line) => Ok(is_text(alloc, str::from_utf8(line)?, column)?),
        None => Ok(false),
    }
}
