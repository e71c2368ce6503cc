//! Prints what changed since a clock, or since the last time.

use crate::printing::{Printer, RecordForm, Shown, print_clock};
use bser_shell::streams::Streams;
use sqlite::{Alter, Connection};
use std::alloc::Global;
use std::io::Write;
use watchman_sqlite::connection::{Stored, number_of, read_stored, visit_changes};
use watchman_sqlite::cursors::{keep_cursor, read_cursor};
use watchman_sqlite::error::IndexError;
use watchman_sqlite::opening::{PATIENCE, check_path};
use watchman_sqlite::snapshot::{Inquiry, ask_snapshot};

/// Since when changes are asked for.
#[derive(Debug, Clone, Copy, PartialEq, Eq)]
pub(crate) enum Since<'a> {
    /// Since a clock.
    Clock(&'a str),
    /// Since what was printed by this name before.
    Cursor(&'a str),
}

impl Since<'_> {
    /// The number of the last message up to then. `None` where it is not known.
    pub(crate) fn number<S: Alter>(
        self,
        conn: &mut Connection<S>,
    ) -> Result<Option<u64>, IndexError> {
        match self {
            Since::Clock(clock) => number_of(conn, clock.as_bytes()),
            Since::Cursor(name) => read_cursor(conn, name.as_bytes()),
        }
    }
}

/// Prints what changed, and keeps up to which message that was.
#[derive(Drop)]
struct ChangesInquiry<'r, W> {
    alloc: Global,
    since: Since<'r>,
    shown: Shown<'r>,
    out: &'r mut W,
    // the number of the last message, once it was asked
    last: u64,
}

impl<W: Write> Inquiry for ChangesInquiry<'_, W> {
    ghost asked = { λ _ _ _. Unit {0} };

    ghost failed = { λ _ _ _. Unit {0} };

    fn ask<S: Alter>(&mut self, conn: &mut Connection<S>) -> Result<bool, IndexError> {
        let Stored {
            messages,
            clock,
            ..
        } = read_stored(conn)?;
        let number = self.since.number(conn)?;
        let (alloc, shown) = (self.alloc, self.shown);
        print_clock(
            alloc,
            shown.form,
            clock.as_ref(),
            number.is_none(),
            self.out,
        )?;
        let mut printer = Printer {
            alloc,
            shown,
            out: self.out,
            count: 0,
        };
        visit_changes(conn, number, &mut printer)?;
        self.last = messages;
        Ok(number.is_some())
    }
}

/// Prints what changed; since a clock or name that is not known, all files that exist. Before them
/// are the last clock, and whether that is not known, but not where names alone are printed. For a
/// name the index keeps what was printed, once the output has taken it.
pub(crate) fn print_changes<R, W: Write, E: Write>(
    rt: &HostRuntime,
    path: &str,
    since: Since<'_>,
    shown: Shown<'_>,
    streams: &mut Streams<'_, R, W, E>,
) -> Result<(), IndexError> {
    if matches!(since, Since::Cursor(_)) {
        check_path(rt, path)?;
    }
    let mut inquiry = ChangesInquiry {
        alloc: rt.alloc(),
        since,
        shown,
        out: &mut streams.out,
        last: 0,
    };
    let is_known = ask_snapshot(rt, path, &mut inquiry)?;
    let last = inquiry.last;
    if !is_known && shown.form == RecordForm::Names {
        let _written = writeln!(streams.reports, "bser_index: {path}: fresh instance");
    }
    if let Since::Cursor(name) = since {
        streams.out.flush()?;
        keep_cursor(rt, path, PATIENCE, name.as_bytes(), last)?;
    }
    Ok(())
}
