//! Messages that are malformed, and what each command reports of them.
//!
//! A line of a list has what is wrong, the message in hexadecimal digits, the words that have to be
//! reported, and the place. Behind an `or` are other words that may be.
use crate::commands::COMMANDS;
use crate::run::{output_of, run_command};
use anyhow::{Context, Result};
use bser_vectors::columns::columns;
use bser_vectors::commands::CommandRun;
use bser_vectors::counts::CaseCounts;
use bser_vectors::messages::FIVE;
use bser_vectors::refused::has_words;
use std::fs;

/// Runs each command on each message of the list, alone and behind one that is in order, and prints
/// what is not reported as the line says.
pub fn compare_refusals(rt: &HostRuntime, list: &str) -> Result<()> {
    let text = fs::read_to_string(rt, list)?;
    let mut runs = CaseCounts::default();
    for line in text.as_str().lines() {
        let line = MalformedMessage::parse(line)?;
        let message = hex::decode(rt.alloc(), line.message)?;
        for words in COMMANDS {
            let mismatch = line.first_mismatch(rt, words, &message)?;
            runs.add(rt, format_args!("{}, {words:?}", line.name), mismatch)?;
        }
    }
    println!(rt;
        "{} runs on malformed messages, {} of them wrong",
        runs.cases, runs.wrong
    )?;
    Ok(())
}

/// Cuts a message behind each of its bytes but the last, runs commands on each front, and prints where
/// not the early end is reported.
pub fn compare_cuts(rt: &HostRuntime, file: &str) -> Result<()> {
    let message = fs::read(rt, file)?;
    let mut runs = CaseCounts::default();
    for cut in 1..message.len() {
        let line = MalformedMessage {
            name: file,
            message: "",
            words: "end of input",
            place: cut,
        };
        let front = message.get(..cut).context("outside")?;
        for words in [&["show"], &["json"], &["summary"], &["canon"]] {
            let mismatch = line.first_wrong(&run_command(rt, words, front)?, b"", 0)?;
            runs.add(rt, format_args!("{file} cut at {cut}, {words:?}"), mismatch)?;
        }
    }
    println!(rt;
        "{} runs on fronts of {file}, {} of them wrong",
        runs.cases, runs.wrong
    )?;
    Ok(())
}

/// A malformed message, and what has to be reported.
#[derive(Clone, Copy)]
struct MalformedMessage<'a> {
    name: &'a str,
    message: &'a str,
    words: &'a str,
    place: usize,
}

impl<'a> MalformedMessage<'a> {
    /// Takes a line apart.
    fn parse(line: &'a str) -> Result<Self> {
        let [name, message, words, place, ..] = columns(line, "\t");
        Ok(MalformedMessage {
            name,
            message,
            words,
            place: place.parse()?,
        })
    }

    /// The first thing that is not as the line says, where a command of these words is run on the
    /// message.
    fn first_mismatch(
        &self,
        rt: &HostRuntime,
        words: &[&str],
        message: &[u8],
    ) -> Result<Option<&'static str>> {
        if let Some(what) = self.first_wrong(&run_command(rt, words, message)?, b"", 0)? {
            return Ok(Some(what));
        }
        let mut both = Vec::from_slice(rt.alloc(), FIVE)?;
        both.extend_from_slice(message)?;
        let before = output_of(rt, words, FIVE)?;
        self.first_wrong(&run_command(rt, words, &both)?, &before, FIVE.len())
    }

    /// The first thing of a run that is not as the line says, where the message begins at byte `start`,
    /// and this is the output before it.
    fn first_wrong(
        &self,
        run: &CommandRun,
        before: &[u8],
        start: usize,
    ) -> Result<Option<&'static str>> {
        if run.status != 1 {
            return Ok(Some("another status than 1"));
        }
        if !run.output.starts_with(before) {
            return Ok(Some("the message before is not shown"));
        }
        let errors = str::from_utf8(&run.errors)?;
        let Some(report) = errors.strip_prefix("bser: standard input: the message at ") else {
            return Ok(Some("no message"));
        };
        let (message, report) = report.split_once(": ").context("no words")?;
        if message.parse::<usize>()? != start {
            return Ok(Some("another message"));
        }
        let (text, behind) = report.split_once(", at byte ").context("no place")?;
        let place = match behind.split_once(';') {
            Some((place, _advice)) => place,
            None => behind.trim_end(),
        };
        if place.parse::<usize>()? != self.place {
            return Ok(Some("another place"));
        }
        if !has_words(text, self.words) || errors.lines().count() != 1 {
            return Ok(Some("other words"));
        }
        Ok(None)
    }
}
