//! What an index stores of a message that joins.
ghost use Rattle.std.specs.Prelude.{◌≡◌, ◌++◌, IfOk, IfErr};
ghost use Rattle.std.specs.Option.{option_or};
ghost use Rattle.sqlite.specs.Given.{IsPlain};
ghost use Rattle.sqlite.specs.Held.{state};
ghost use Rattle.sqlite.specs.Listing.{understood};
ghost use Rattle.sqlite.specs.State.{HasCleanDisk};
ghost use Rattle.watchman_sqlite.specs.Entries.{AreGone, AreRowsOf, IsEntry, listed_records};
ghost use Rattle.watchman_sqlite.specs.Errors.{IsOfEntry};

use crate::connection::visit_all;
use crate::error::IndexError;
use crate::record::{Record, Visitor};
use crate::schema::PRESENT;
use serde_bser::bytestring::ByteString;
use sqlite::{Alter, Connection, params};
use std::alloc::{AllocError, Global};
use std::collections::BTreeMap;
use watchman_index::changes::Changes;
use watchman_index::origin::Origin;
use watchman_index::row::{FileState, Row};

/// What an index stores of a message that joins.
#[derive(Debug, Drop)]
pub(crate) struct Entry {
    /// The number of the message.
    pub(crate) number: u64,
    /// What the messages up to it are of.
    pub(crate) origin: Origin,
    /// Its clock.
    pub(crate) clock: ByteString,
    /// The rows of the files that it changed.
    pub(crate) rows: Vec<Record>,
}

impl Entry {
    /// What the index of this connection stores of the message of this number, where its messages are
    /// of this origin so far.
    pub(crate) fn of<S: Alter>(
        alloc: Global,
        conn: &mut Connection<S>,
        number: u64,
        origin: &Origin,
        changes: Changes,
    ) -> Result<Entry, IndexError>
        ensures entry { IfOk result (IsEntry number origin.now changes) }
        ensures rows { HasCleanDisk (state S.Store conn.new)
            → IsPlain (understood conn.old.schema PRESENT.now)
            → IfOk result (λ e. AreRowsOf S.Store number changes conn.old conn.new e.rows.items) }
        ensures err { IfErr result IsOfEntry }
        ensures clean { HasCleanDisk (state S.Store conn.new) → HasCleanDisk (state S.Store conn.old) }
    {
        let gone = gone_by(alloc, conn, number, &changes)?;
        Ok(Entry {
            number,
            origin: Origin {
                root: known_or(&origin.root, changes.root)?,
                subscription: known_or(&origin.subscription, changes.subscription)?,
            },
            clock: changes.clock,
            rows: rows_of(number, changes.files, gone)?,
        })
    }
}

/// What is known, or else what a message names.
fn known_or(
    known: &Option<ByteString>,
    told: Option<ByteString>,
) -> Result<Option<ByteString>, AllocError>
    ensures { IfOk result (λ now. now ≡ option_or known.now told) }
{
    match known {
        Some(known) => Ok(Some(known.clone()?)),
        None => Ok(told),
    }
}

/// The rows of the files that the message of this number lists, and behind them those of the files
/// that are gone.
fn rows_of(
    number: u64,
    listed: BTreeMap<ByteString, FileState>,
    gone: Vec<Record>,
) -> Result<Vec<Record>, AllocError>
    ensures { IfOk result (λ rows. rows.items ≡ gone.items ++ listed_records number listed) }
{
    let mut rows = gone;
    for (name, state) in listed {
        let row = Row::told(number, state);
        rows.push(Record { name, row })?;
    }
    Ok(rows)
}

/// Where the message of this number lists all files, those that exist and that it does not list, as they
/// are behind it; and else none.
fn gone_by<S: Alter>(
    alloc: Global,
    conn: &mut Connection<S>,
    number: u64,
    changes: &Changes,
) -> Result<Vec<Record>, IndexError>
    ensures gone { HasCleanDisk (state S.Store conn.new)
        → IsPlain (understood conn.old.schema PRESENT.now)
        → IfOk result (λ rows. AreGone S.Store number changes.now conn.old conn.new rows.items) }
    ensures err { IfErr result IsOfEntry }
    ensures clean { HasCleanDisk (state S.Store conn.new) → HasCleanDisk (state S.Store conn.old) }
{
    let mut gone = Gone {
        number,
        listed: &changes.files,
        rows: Vec::new(alloc),
    };
    if !changes.is_fresh_instance {
        return Ok(gone.rows);
    }
    visit_all(conn, PRESENT, params![], &mut gone)?;
    Ok(gone.rows)
}

/// The files that are gone by a message that lists all, as they are behind it.
#[derive(Drop)]
struct Gone<'m> {
    number: u64,
    listed: &'m BTreeMap<ByteString, FileState>,
    rows: Vec<Record>,
}

impl Visitor for Gone<'_> {
    ghost use Rattle.std.specs.Prelude.{◌≡◌, alloc_error};
    ghost use Rattle.watchman_sqlite.specs.Entries.{AddsGone};
    ghost use Rattle.watchman_sqlite.specs.declared.error.IndexError.TheVariants.{OutOfMemory};

    ghost visits = { λ old next new. (new.number ≡ old.number) × (new.listed.now ≡ old.listed.now)
        × AddsGone old.number old.listed.now old.rows.items next new.rows.items };

    ghost halts = { λ e. e ≡ OutOfMemory alloc_error };

    fn visit(&mut self, next: Record) -> Result<(), IndexError> {
        let Record { name, row } = next;
        if !self.listed.contains_key(&name) {
            let row = row.gone(self.number);
            self.rows.push(Record { name, row })?;
        }
        Ok(())
    }
}
