//! What changed after each clock of a recorded session.

use crate::expected::shown_name;
use crate::run::run_index;
use anyhow::{Result, bail};
use bser_vectors::columns::columns;
use std::alloc::Global;
use std::fs;

/// How many columns the line of a file has. The last is the name, which may have spaces.
const COLUMNS: usize = 7;

/// Compares what the index says to have changed after each clock with the lines of a file, whose
/// columns are message, clock, number and paths of what the server listed since then, and number
/// and paths of what the index has to list. Those are the server's, and what a message listed that
/// was asked for since an earlier clock. The clocks of the messages `unknown` were not added.
pub fn check_changes(rt: &HostRuntime, file: &str, unknown: &[u32]) -> Result<()> {
    let lines = fs::read_to_string(rt, file)?;
    let mut compared = 0u32;
    let mut fresh = 0u32;
    for line in lines.as_str().lines().skip(1) {
        let [message, clock, _server, _server_paths, _index, paths, ..] = columns(line, "\t");
        let found = found_after(rt, clock)?;
        if unknown.contains(&message.parse()?) {
            if !found.is_fresh {
                bail!("the clock of {message} is known");
            }
            fresh = fresh.saturating_add(1);
        } else {
            let expected = names_of(rt.alloc(), paths)?;
            if found.is_fresh || found.names.as_str() != expected.as_str() {
                println!(rt;
                    "expected after {clock}:\n{expected}found:\n{}",
                    found.names
                )?;
                bail!("other changes");
            }
            compared = compared.saturating_add(1);
        }
    }
    println!(rt; "{file}: {compared} clocks compared, {fresh} unknown")?;
    Ok(())
}

/// What the index says to have changed.
#[derive(Drop)]
struct Found {
    is_fresh: bool,
    /// The names, a line each.
    names: String,
}

/// What the index says to have changed after this clock.
fn found_after(rt: &HostRuntime, clock: &str) -> Result<Found> {
    let words = format!(in rt.alloc(); "changes --since {clock} session.db")?;
    let ran = run_index(rt, words.as_str(), &[])?;
    let output = str::from_utf8(&ran.output)?;
    let mut names = String::new(rt.alloc());
    for line in output.lines().filter(|line| is_file(*line)) {
        if let Some(name) = line.splitn(COLUMNS, ' ').last() {
            write!(names, "{name}\n")?;
        }
    }
    Ok(Found {
        is_fresh: output.lines().any(|line| line == "fresh instance"),
        names,
    })
}

/// Whether the line is that of a file.
fn is_file(line: &str) -> bool {
    line.starts_with("+ ") || line.starts_with("- ")
}

/// The names of paths in hexadecimal that are parted by spaces, a line each.
fn names_of(alloc: Global, paths: &str) -> Result<String> {
    let mut names = String::new(alloc);
    if paths != "-" {
        for path in paths.split(' ') {
            let name = shown_name(alloc, path)?;
            write!(names, "{name}\n")?;
        }
    }
    Ok(names)
}
