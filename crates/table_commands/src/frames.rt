//! Messages behind malformed ones, which `--keep-going` shows.
use crate::run::{output_of, run_command};
use anyhow::{Context, Result};
use bser_vectors::columns::columns;
use bser_vectors::counts::CaseCounts;
use bser_vectors::messages::FIVE;
use std::fs;

/// The words of commands whose output does not say where a message is.
const COMMANDS: [&[&str]; 4] = [&["json"], &["get", ""], &["canon"], &["canon", "--compact"]];

/// Puts each malformed message of the list, as long as its header announces, between two that are
/// in order, runs commands on them, and prints where not both of these are shown, or not one line
/// is reported.
pub fn compare_frames(rt: &HostRuntime, list: &str) -> Result<()> {
    let text = fs::read_to_string(rt, list)?;
    let mut runs = CaseCounts::default();
    for line in text.as_str().lines() {
        let [name, message, ..] = columns(line, "\t");
        let message = hex::decode(rt.alloc(), message)?;
        let Some(frame) = frame_of(&message) else {
            continue;
        };
        let mut input = Vec::from_slice(rt.alloc(), FIVE)?;
        input.extend_from_slice(frame)?;
        input.extend_from_slice(FIVE)?;
        for words in COMMANDS {
            let mismatch = if shows_both(rt, words, &input)? {
                None
            } else {
                Some("the message behind is not shown")
            };
            runs.add(rt, format_args!("{name}, {words:?}"), mismatch)?;
        }
    }
    println!(rt;
        "{} runs on messages around malformed ones, {} of them wrong",
        runs.cases, runs.wrong
    )?;
    Ok(())
}

/// The message, as long as its header announces, where that has one byte for the length and the
/// whole body is there.
fn frame_of(message: &[u8]) -> Option<&[u8]> {
    match message {
        [0, 2, _, _, _, _, 3, len, ..] if *len < 128 => message.get(..usize::from(*len) + 8),
        _ => None,
    }
}

/// Whether a command with `--keep-going` shows the first and the last message of the input, and
/// reports one line.
fn shows_both(rt: &HostRuntime, words: &[&str], input: &[u8]) -> Result<bool> {
    let good = output_of(rt, words, FIVE)?;
    let mut both = Vec::from_slice(rt.alloc(), &good)?;
    both.extend_from_slice(&good)?;
    let mut all = Vec::from_slice(rt.alloc(), words)?;
    all.push("--keep-going")?;
    let run = run_command(rt, &all, input)?;
    let lines = str::from_utf8(&run.errors)?.lines().count();
    Ok(run.status == 1 && run.output == both && lines == 1)
}
