//! Prints what an index has of files.

use crate::filter::Filter;
use bser_from_json::meaning::Mark;
use bser_views::quoted::Quoted;
use json::Writer;
use serde_bser::bytestring::ByteString;
use std::alloc::Global;
use std::io;
use std::io::Write;
use watchman_index::row::FileState;
use watchman_sqlite::error::IndexError;
use watchman_sqlite::record::{Record, Visitor};

/// How files are printed.
#[derive(Debug, Clone, Copy, PartialEq, Eq)]
pub(crate) enum RecordForm {
    /// A line for each, for people.
    Lines,
    /// An object of JSON in a line for each.
    Json,
    /// The name of each as it is, and a NUL.
    Names,
}

/// Which of the files that are found are printed, and how.
#[derive(Debug, Clone, Copy)]
pub(crate) struct Shown<'a> {
    pub(crate) filter: Filter<'a>,
    pub(crate) form: RecordForm,
}

/// Prints records, one after the other.
#[derive(Drop)]
pub(crate) struct Printer<'w, W: Write> {
    pub(crate) alloc: Global,
    pub(crate) shown: Shown<'w>,
    pub(crate) out: &'w mut W,
    /// How many records were printed.
    pub(crate) count: u64,
}

impl<W: Write> Visitor for Printer<'_, W> {
    ghost visits = { λ _ _ _. Unit {0} };

    ghost halts = { λ _. Unit {0} };

    fn visit(&mut self, record: Record) -> Result<(), IndexError> {
        let Shown { filter, form } = self.shown;
        if !filter.passes(&record) {
            return Ok(());
        }
        match form {
            RecordForm::Lines => print_line(self.out, &record)?,
            RecordForm::Json => print_object(self.alloc, self.out, &record)?,
            RecordForm::Names => print_name(self.out, &record)?,
        }
        self.count = self.count.saturating_add(1);
        Ok(())
    }
}

/// Prints the name of a file as it is, and a NUL.
fn print_name<W: Write>(out: &mut W, record: &Record) -> io::Result<()> {
    out.write_all(record.name.as_bytes())?;
    out.write_all(b"\0")
}

/// Prints a line: whether the file exists, the number of the message that changed it last, its
/// type, mode, size, time and name. What is not known is a question mark.
fn print_line<W: Write>(out: &mut W, record: &Record) -> io::Result<()> {
    let state = record.row.state;
    let sign = if state.exists { '+' } else { '-' };
    write!(out, "{sign} {} ", record.row.changed)?;
    match state.kind {
        Some(kind) => out.write_all(kind.word().as_bytes())?,
        None => out.write_all(b"?")?,
    }
    match state.mode {
        Some(mode) => write!(out, " {mode:o}")?,
        None => out.write_all(b" ?")?,
    }
    match state.size {
        Some(size) => write!(out, " {size}")?,
        None => out.write_all(b" ?")?,
    }
    match state.mtime_ms {
        Some(time) => write!(out, " {time}")?,
        None => out.write_all(b" ?")?,
    }
    writeln!(out, " {}", Quoted(record.name.as_bytes()))
}

/// Prints an object of JSON in a line. What is not known is null.
fn print_object<W: Write>(alloc: Global, out: &mut W, record: &Record) -> Result<(), IndexError> {
    let mut json = Writer::new(Vec::new(alloc));
    json.begin_object()?;
    json.key("name")?;
    put_bytes(alloc, &mut json, record.name.as_bytes())?;
    put_state(&mut json, record.row.state)?;
    json.key("changed")?;
    json.u64(record.row.changed)?;
    json.end_object()?;
    write_json(json, out)
}

/// Puts the members that say the state of a file.
fn put_state(json: &mut Writer, state: FileState) -> Result<(), IndexError> {
    json.key("exists")?;
    json.boolean(state.exists)?;
    json.key("size")?;
    match state.size {
        Some(size) => json.u64(size)?,
        None => json.null()?,
    }
    json.key("mode")?;
    match state.mode {
        Some(mode) => json.u64(u64::from(mode))?,
        None => json.null()?,
    }
    json.key("type")?;
    match state.kind {
        Some(kind) => json.string(kind.word())?,
        None => json.null()?,
    }
    json.key("mtime_ms")?;
    match state.mtime_ms {
        Some(time) => json.i64(time)?,
        None => json.null()?,
    }
    Ok(())
}

/// Puts bytes as a string, or marked and in hexadecimal where they are not UTF-8.
fn put_bytes(alloc: Global, json: &mut Writer, bytes: &[u8]) -> Result<(), IndexError> {
    if let Ok(text) = std::str::from_utf8(bytes) {
        json.string(text)?;
        return Ok(());
    }
    let digits = hex::encode(alloc, bytes)?;
    json.begin_object()?;
    json.key(Mark::Bytes.key())?;
    json.string(digits.as_str())?;
    json.end_object()?;
    Ok(())
}

/// Writes a text of JSON in a line.
fn write_json<W: Write>(json: Writer, out: &mut W) -> Result<(), IndexError> {
    out.write_all(&json.into_inner())?;
    out.write_all(b"\n")?;
    Ok(())
}

/// Prints the last clock, and whether the one that was asked for is not known.
pub(crate) fn print_clock<W: Write>(
    alloc: Global,
    form: RecordForm,
    clock: Option<&ByteString>,
    is_fresh_instance: bool,
    out: &mut W,
) -> Result<(), IndexError> {
    match form {
        RecordForm::Names => Ok(()),
        RecordForm::Lines => print_clock_line(alloc, clock, is_fresh_instance, out),
        RecordForm::Json => print_clock_object(alloc, clock, is_fresh_instance, out),
    }
}

/// Prints the last clock in a line, and in another that the one that was asked for is not known.
fn print_clock_line<W: Write>(
    alloc: Global,
    clock: Option<&ByteString>,
    is_fresh_instance: bool,
    out: &mut W,
) -> Result<(), IndexError> {
    match clock {
        Some(clock) => {
            let text = clock.as_escaped_string(alloc)?;
            writeln!(out, "clock {text}")?;
        }
        None => writeln!(out, "no clock")?,
    }
    if is_fresh_instance {
        writeln!(out, "fresh instance")?;
    }
    Ok(())
}

/// Prints an object of the last clock and whether the one that was asked for is not known.
fn print_clock_object<W: Write>(
    alloc: Global,
    clock: Option<&ByteString>,
    is_fresh_instance: bool,
    out: &mut W,
) -> Result<(), IndexError> {
    let mut json = Writer::new(Vec::new(alloc));
    json.begin_object()?;
    json.key("clock")?;
    match clock {
        Some(clock) => put_bytes(alloc, &mut json, clock.as_bytes())?,
        None => json.null()?,
    }
    json.key("is_fresh_instance")?;
    json.boolean(is_fresh_instance)?;
    json.end_object()?;
    write_json(json, out)
}
