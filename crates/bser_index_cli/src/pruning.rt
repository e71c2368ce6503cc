//! Removes what nobody asks for any more.

use bser_shell::streams::Streams;
use bser_views::quoted::Quoted;
use std::fs;
use std::io::{ErrorKind, Write};
use watchman_sqlite::cursors::{Pruned, prune_index};
use watchman_sqlite::error::IndexError;
use watchman_sqlite::opening::{PATIENCE, check_path};

/// Removes what nobody asks for who asks since this clock, and prints how much that was. Tells
/// whether the clock is known.
pub(crate) fn prune<R, W: Write, E: Write>(
    rt: &HostRuntime,
    path: &str,
    clock: &str,
    streams: &mut Streams<'_, R, W, E>,
) -> Result<bool, IndexError> {
    check_there(rt, path)?;
    check_path(rt, path)?;
    let Some(pruned) = prune_index(rt, path, PATIENCE, clock.as_bytes())? else {
        let _written = writeln!(
            streams.reports,
            "bser_index: {path}: no message told the clock {}",
            Quoted(clock.as_bytes())
        );
        return Ok(false);
    };
    let Pruned {
        files,
        clocks,
        cursors,
    } = pruned;
    writeln!(
        streams.out,
        "removed: files {files}, clocks {clocks}, cursors {cursors}"
    )?;
    Ok(true)
}

/// Fails where there is no file at this path.
fn check_there(rt: &HostRuntime, path: &str) -> Result<(), IndexError> {
    match fs::metadata(rt, path) {
        Err(fault) if fault.kind() == ErrorKind::NotFound => Err(IndexError::Missing),
        _ => Ok(()),
    }
}
