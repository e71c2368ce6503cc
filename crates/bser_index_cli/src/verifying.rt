//! Compares an index with the messages that were added to it.

use index_following::folding::Folder;
use serde_bser::bytestring::ByteString;
use sqlite::{Alter, Connection, Row, params};
use std::alloc::Global;
use std::io::Write;
use watchman_index::index::Index;
use watchman_index::row::Row as FileRow;
use watchman_sqlite::connection::{Stored, number_of, read_stored, visit_changes};
use watchman_sqlite::error::IndexError;
use watchman_sqlite::record::{Record, Visitor, lower_suffix};
use watchman_sqlite::schema::{CLOCKS, WHOLE};

/// Of about how many clocks it is compared what changed since.
const CLOCKS_COMPARED: usize = 16;

/// Compares what an index has with what was folded, and prints a line for each difference.
#[derive(Drop)]
struct Comparer<'w, W: Write> {
    alloc: Global,
    // what was folded, but for what was compared
    index: Index,
    out: &'w mut W,
    differences: u64,
}

impl<W: Write> Comparer<'_, W> {
    /// Prints a difference.
    fn tell(&mut self, what: &str, name: &ByteString) -> Result<(), IndexError> {
        writeln!(self.out, "{what} {name}")?;
        self.differences = self.differences.saturating_add(1);
        Ok(())
    }

    /// Compares the table of clocks.
    fn compare_clocks<S: Alter>(&mut self, conn: &mut Connection<S>) -> Result<(), IndexError> {
        let mut rows = conn.query(CLOCKS, params![])?;
        for _ in 0..u64::MAX {
            match rows.next()? {
                Some(row) => self.compare_clock(row)?,
                None => break,
            }
        }
        Ok(())
    }

    /// Compares the table of files.
    fn compare_files<S: Alter>(&mut self, conn: &mut Connection<S>) -> Result<(), IndexError> {
        let mut rows = conn.query(WHOLE, params![])?;
        for _ in 0..u64::MAX {
            match rows.next()? {
                Some(row) => self.compare_file(row)?,
                None => break,
            }
        }
        Ok(())
    }

    /// Compares a clock.
    fn compare_clock(&mut self, row: &Row) -> Result<(), IndexError> {
        let clock: Vec<u8> = row.get(0)?;
        let number: u64 = row.get(1)?;
        let clock = ByteString::from_vec(clock);
        match self.index.clocks.remove(&clock) {
            Some(told) if told == number => Ok(()),
            Some(_) => self.tell("another message of clock", &clock),
            None => self.tell("no message tells clock", &clock),
        }
    }

    /// Compares a file.
    fn compare_file(&mut self, row: &Row) -> Result<(), IndexError> {
        let Record { name, row: found } = Record::read(row)?;
        let suffix: Option<Vec<u8>> = row.get(8)?;
        if suffix != lower_suffix(self.alloc, name.as_bytes())? {
            self.tell("another suffix of", &name)?;
        }
        match self.index.files.remove(&name) {
            Some(row) if row == found => Ok(()),
            Some(_) => self.tell("another row of", &name),
            None => self.tell("no message lists", &name),
        }
    }

    /// Prints what was folded and was not compared.
    fn tell_rest(&mut self) -> Result<(), IndexError> {
        for (clock, _number) in &self.index.clocks {
            writeln!(self.out, "no row of clock {clock}")?;
            self.differences = self.differences.saturating_add(1);
        }
        for (name, _row) in &self.index.files {
            writeln!(self.out, "no row of {name}")?;
            self.differences = self.differences.saturating_add(1);
        }
        Ok(())
    }
}

/// Compares the files that changed since a clock, one after the other, with those that were folded.
#[derive(Drop)]
struct ChangesComparer<'a> {
    folded: &'a [(&'a ByteString, &'a FileRow)],
    // how many came
    compared: usize,
    is_alike: bool,
}

impl Visitor for ChangesComparer<'_> {
    ghost visits = { λ _ _ _. Unit {0} };

    ghost halts = { λ _. ⊥ };

    fn visit(&mut self, record: Record) -> Result<(), IndexError> {
        let is_next = match self.folded.get(self.compared) {
            Some((name, row)) => **name == record.name && **row == record.row,
            None => false,
        };
        self.is_alike = self.is_alike && is_next;
        self.compared = self.compared.saturating_add(1);
        Ok(())
    }
}

/// Whether the answer what changed since a clock is that of the messages that were folded.
fn is_told_alike<S: Alter>(
    alloc: Global,
    conn: &mut Connection<S>,
    index: &Index,
    clock: &ByteString,
) -> Result<bool, IndexError> {
    let since = index.changes_since(alloc, clock)?;
    let number = number_of(conn, clock.as_bytes())?;
    let mut comparer = ChangesComparer {
        folded: since.files.as_slice(),
        compared: 0,
        is_alike: number.is_none() == since.is_fresh_instance,
    };
    visit_changes(conn, number, &mut comparer)?;
    Ok(comparer.is_alike && comparer.compared == comparer.folded.len())
}

/// The first of some clocks since which the answer is not that of the messages that were folded. One
/// that is not known is among them.
fn first_told_otherwise<S: Alter>(
    alloc: Global,
    conn: &mut Connection<S>,
    index: &Index,
) -> Result<Option<ByteString>, IndexError> {
    let unknown = ByteString::from_vec(Vec::new(alloc));
    if !is_told_alike(alloc, conn, index, &unknown)? {
        return Ok(Some(unknown));
    }
    let step = index.clocks.len() / CLOCKS_COMPARED + 1;
    let mut passed = 0usize;
    for (clock, _number) in &index.clocks {
        if passed % step == 0 && !is_told_alike(alloc, conn, index, clock)? {
            return Ok(Some(clock.clone()?));
        }
        passed = passed.saturating_add(1);
    }
    Ok(None)
}

/// Compares the number of messages, what they are of, and the last clock. How many differ.
fn differing_source<W: Write>(
    found: &Stored,
    folded: &Folder,
    out: &mut W,
) -> Result<u64, IndexError> {
    let mut differences = 0u64;
    if found.messages != folded.messages {
        writeln!(out, "messages of the index {}", found.messages)?;
        differences = 1;
    }
    let (origin, index) = (&found.origin, &folded.index);
    let root = differs("root", &origin.root, &index.origin.root, out)?;
    let name = differs(
        "subscription",
        &origin.subscription,
        &index.origin.subscription,
        out,
    )?;
    let clock = differs("last clock", &found.clock, &index.last_clock, out)?;
    Ok(
        [root, name, clock]
            .iter()
            .filter(|differs| **differs)
            .fold(differences, |sum, _| sum.saturating_add(1)),
    )
}

/// Whether the index has something else than was told. Then it prints a line.
fn differs<W: Write>(
    what: &str,
    found: &Option<ByteString>,
    told: &Option<ByteString>,
    out: &mut W,
) -> Result<bool, IndexError> {
    if found == told {
        return Ok(false);
    }
    match found {
        Some(name) => writeln!(out, "{what} of the index {name}")?,
        None => writeln!(out, "no {what} of the index")?,
    }
    Ok(true)
}

/// Compares the index with the messages that were folded, prints each difference and how many there
/// are, and tells whether there is none. Where the tables are alike, the answers what changed since
/// some clocks are compared with [`Index::changes_since`].
pub(crate) fn print_differences<S: Alter, W: Write>(
    alloc: Global,
    conn: &mut Connection<S>,
    folded: Folder,
    out: &mut W,
) -> Result<bool, IndexError> {
    let messages = folded.messages;
    let differences = differing_source(&read_stored(conn)?, &folded, out)?;
    let other = first_told_otherwise(alloc, conn, &folded.index)?;
    let mut comparer = Comparer {
        alloc,
        index: folded.index,
        out,
        differences,
    };
    comparer.compare_clocks(conn)?;
    comparer.compare_files(conn)?;
    comparer.tell_rest()?;
    if let (0, Some(clock)) = (comparer.differences, &other) {
        comparer.tell("other changes since clock", clock)?;
    }
    let differences = comparer.differences;
    writeln!(
        comparer.out,
        "messages {messages}, differences {differences}"
    )?;
    Ok(differences == 0)
}
