//! Waits until a file has changed.

use crate::changes::Since;
use sqlite::{Alter, Connection};
use std::fs;
use std::os::unix::fs::MetadataExt;
use std::path::PathBuf;
use std::time::{Duration, Instant};
use watchman_sqlite::connection::{Stored, read_stored, visit_changes};
use watchman_sqlite::error::IndexError;
use watchman_sqlite::opening::wait;
use watchman_sqlite::record::{Record, Visitor};
use watchman_sqlite::snapshot::{Inquiry, ask_snapshot};

/// For which change it is waited, and for how long.
#[derive(Debug, Clone, Copy)]
pub(crate) struct Awaited<'a> {
    /// Since when. From now on, without it.
    pub(crate) since: Option<Since<'a>>,
    /// For how many seconds at most.
    pub(crate) seconds: Option<u64>,
}

/// Asks whether a file changed.
#[derive(Drop)]
struct ChangeInquiry<'a> {
    since: Option<Since<'a>>,
    // the number of the last message when it was asked first
    first: Option<u64>,
}

impl Inquiry for ChangeInquiry<'_> {
    ghost asked = { λ _ _ _. Unit {0} };

    ghost failed = { λ _ _ _. Unit {0} };

    fn ask<S: Alter>(&mut self, conn: &mut Connection<S>) -> Result<bool, IndexError> {
        let Stored { messages, .. } = read_stored(conn)?;
        let first = self.first.unwrap_or(messages);
        self.first = Some(first);
        let number = match self.since {
            Some(since) => since.number(conn)?,
            None => Some(first),
        };
        if number == Some(messages) {
            return Ok(false);
        }
        let mut found = Found { is_found: false };
        visit_changes(conn, number, &mut found)?;
        Ok(found.is_found)
    }
}

/// Whether there was a record.
#[derive(Drop)]
struct Found {
    is_found: bool,
}

impl Visitor for Found {
    ghost visits = { λ _ _ _. Unit {0} };

    ghost halts = { λ _. ⊥ };

    fn visit(&mut self, _next: Record) -> Result<(), IndexError> {
        self.is_found = true;
        Ok(())
    }
}

/// What is seen of a file from outside: its size, and when it was written.
#[derive(Debug, Clone, Copy, PartialEq, Eq)]
struct Stamp {
    size: u64,
    seconds: i64,
    nanoseconds: i64,
}

impl Stamp {
    /// What is seen of the file at this path. `None` for one that is not there.
    fn of(rt: &HostRuntime, path: &str) -> Option<Stamp> {
        let found = fs::metadata(rt, path).ok()?;
        Some(Stamp {
            size: found.len(),
            seconds: found.mtime(),
            nanoseconds: found.mtime_nsec(),
        })
    }
}

/// Waits until a file has changed. False where the time is over before.
///
/// The index is read where its file or its log were written, and once more behind that: of what is
/// written in the same tick of the system's clock nothing is seen from outside.
pub(crate) fn wait_for_change(
    rt: &HostRuntime,
    path: &str,
    awaited: Awaited<'_>,
) -> Result<bool, IndexError> {
    let begin = now(rt)?;
    let mut inquiry = ChangeInquiry {
        since: awaited.since,
        first: None,
    };
    if ask_snapshot(rt, path, &mut inquiry)? {
        return Ok(true);
    }
    let path = real_path(rt, path)?;
    let log = format!(in rt.alloc(); "{}-wal", path.as_str())?;
    let (mut seen, mut is_new) = ((None, None), true);
    for _ in 0..u64::MAX {
        if is_over(rt, begin, awaited.seconds)? {
            return Ok(false);
        }
        wait(rt);
        let stamps = (Stamp::of(rt, path.as_str()), Stamp::of(rt, log.as_str()));
        let was_new = is_new;
        is_new = stamps != seen;
        seen = stamps;
        if (is_new || was_new) && ask_snapshot(rt, path.as_str(), &mut inquiry)? {
            return Ok(true);
        }
    }
    Ok(false)
}

/// The time.
fn now(rt: &HostRuntime) -> Result<Instant, IndexError> {
    match Instant::now(rt) {
        Ok(time) => Ok(time),
        Err(fault) => Err(IndexError::Reader(fault)),
    }
}

/// Whether so many seconds have passed since then. Without a number they never have.
fn is_over(rt: &HostRuntime, begin: Instant, seconds: Option<u64>) -> Result<bool, IndexError> {
    match seconds {
        Some(seconds) => Ok(now(rt)?.duration_since(begin) >= Duration::from_secs(seconds)),
        None => Ok(false),
    }
}

/// The path of the file itself, also where a symbolic link leads to it.
fn real_path(rt: &HostRuntime, path: &str) -> Result<PathBuf, IndexError> {
    match fs::canonicalize(rt, path) {
        Ok(path) => Ok(path),
        Err(fault) => Err(IndexError::Reader(fault)),
    }
}
