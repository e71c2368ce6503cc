//! Tables of messages, and of the types that each is read as.
//!
//! A list of lines has a line for each message, in columns between tabs: the type that it is read as,
//! the message in hexadecimal digits, `ok` or `err`, the notation of the answer, and the bytes taken.
//!
//! A list of cases has a row for each case, in columns with ` | ` between them: its name, the types
//! that the message is read as, the levels that it may have, the message in hexadecimal digits, and the
//! notation of the answer. Blanks in a message are passed over, `0a..3` is `0a0a0a`, and what is
//! behind ` / ` follows the message. An answer that begins with `each front` is that of each front of the
//! message, and one that begins with `parts` is what follows, without blanks, where `[..3` is `[[[`. Empty
//! lines, and those that begin with `#`, are no rows.
//!
//! A type has a name: `vec_T` is a `Vec` of T, `deque_T` a `VecDeque`, `set_T` a `BTreeSet`,
//! `arr2_T` an array of two, `opt_T` an `Option`, `box_T` a `Box`, `map_K_V` a `BTreeMap`,
//! `hash_K_V` a `HashMap`, which is shown in no certain order, `tup_T` a tuple of one, `tup2`,
//! `tup3` and `tup4` one of so many `i64`, and `unit` is `()`; `str` is `&str`, `cow` a `CowStr`,
//! and `bytes` is `&[u8]`, but `ByteString` as the key of a map, where `raw` is `&[u8]`. A struct
//! or enum has texts of its own.
use crate::line::ListedMessage;
use crate::row::CaseRow;
use crate::ways::Mismatch;
use anyhow::Result;
use std::fs;

/// Reads each message of a list of lines as its type, and prints how many agree.
pub fn compare_lines(rt: &HostRuntime, of_values: bool, file: &str) -> Result<()> {
    let text = fs::read_to_string(rt, file)?;
    let mut lines = 0u64;
    let mut accepted = 0u64;
    let mut refused = 0u64;
    let mut mismatches = 0u64;
    for line in text.as_str().lines() {
        lines = lines.saturating_add(1);
        let line = ListedMessage::parse(rt.alloc(), line)?;
        match line.compare(rt.alloc(), of_values) {
            Ok(()) if line.accepted => accepted = accepted.saturating_add(1),
            Ok(()) => refused = refused.saturating_add(1),
            Err(error) => {
                mismatches = mismatches.saturating_add(1);
                println!(rt; "line {lines}, {}: {error}", line.name)?;
            }
        }
    }
    println!(rt;
        "{lines} lines\n{accepted} messages accepted as the file says\n\
         {refused} messages refused as the file says"
    )?;
    if of_values {
        println!(rt; "{accepted} values written")?;
    }
    println!(rt; "{mismatches} mismatches")?;
    Ok(())
}

/// How many cases were read as how many types.
#[derive(Drop)]
struct Cases {
    rows: u64,
    readings: u64,
    wrong: u64,
}

impl Cases {
    /// Reads the message of a case as its types.
    fn add(&mut self, rt: &HostRuntime, line: &str) -> Result<()> {
        self.rows = self.rows.saturating_add(1);
        let row = match CaseRow::parse(rt.alloc(), line) {
            Ok(row) => row,
            Err(error) => {
                self.wrong = self.wrong.saturating_add(1);
                println!(rt; "{line}: {error}")?;
                return Ok(());
            }
        };
        for kind in row.kinds.split_whitespace() {
            self.readings = self.readings.saturating_add(1);
            if !is_answered(rt, &row, kind)? {
                self.wrong = self.wrong.saturating_add(1);
            }
        }
        Ok(())
    }
}

/// Whether the type of this name is answered as the case says; where it is not, it is printed how.
fn is_answered(rt: &HostRuntime, row: &CaseRow<'_>, kind: &str) -> Result<bool> {
    match row.compare(rt.alloc(), kind) {
        Ok(()) => return Ok(true),
        Err(Mismatch::Answer(way, answer)) => println!(rt;
            "{}, {kind}: {answer} {way}, and not {}",
            row.name, row.answer
        )?,
        Err(error) => println!(rt; "{}, {kind}: {error}", row.name)?,
    }
    Ok(false)
}

/// Reads the message of each case of a list as its types, and prints how many agree.
pub fn compare_rows(rt: &HostRuntime, file: &str) -> Result<()> {
    let text = fs::read_to_string(rt, file)?;
    let mut cases = Cases {
        rows: 0,
        readings: 0,
        wrong: 0,
    };
    for line in text.as_str().lines() {
        if !line.is_empty() && !line.starts_with('#') {
            cases.add(rt, line)?;
        }
    }
    println!(rt;
        "{} cases, read as {} types, {} of them wrong",
        cases.rows, cases.readings, cases.wrong
    )?;
    Ok(())
}
