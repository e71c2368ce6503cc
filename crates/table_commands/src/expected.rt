//! The lines that an index is expected to print.

use anyhow::{Context, Result};
use bser_vectors::columns::columns;
use bser_views::quoted::Quoted;
use std::alloc::Global;

/// The numbers of the session's messages that list files, in their order.
///
/// The index counts the messages that it adds, and the session counts all.
#[derive(Drop)]
pub struct Numbers<'n>(pub &'n [u32]);

impl Numbers<'_> {
    /// How the index numbers the session's message of this number.
    fn of(&self, number: u32) -> Result<usize> {
        let place = self.0.iter().position(|it| *it == number);
        Ok(place.context("no message of files")?.saturating_add(1))
    }
}

/// The name of a path in hexadecimal, as it is printed.
pub fn shown_name(alloc: Global, path: &str) -> Result<String> {
    let name = hex::decode(alloc, path.as_bytes())?;
    Ok(format!(in alloc; "{}", Quoted(&name))?)
}

/// The line of the table's row, whose columns are path, existence, size, mode, type, last message,
/// time, message that changed it, and why.
pub fn line_of(alloc: Global, numbers: &Numbers<'_>, row: &str) -> Result<String> {
    let [path, exists, size, mode, kind, _last, time, changed, _by] = columns(row, "\t");
    let sign = if exists == "1" { '+' } else { '-' };
    let number = numbers.of(changed.parse()?)?;
    let mode: u32 = mode.parse()?;
    let name = shown_name(alloc, path)?;
    Ok(format!(in alloc; "{sign} {number} {kind} {mode:o} {size} {time} {name}\n")?)
}

/// The lines of the table after the session's message of this number.
pub fn table_after(
    alloc: Global,
    numbers: &Numbers<'_>,
    tables: &str,
    number: u32,
) -> Result<String> {
    let mut lines = String::new(alloc);
    for line in tables.lines() {
        let (after, row) = line.split_once('\t').context("no number")?;
        if after.parse::<u32>()? == number {
            lines.push_str(line_of(alloc, numbers, row)?.as_str())?;
        }
    }
    Ok(lines)
}
