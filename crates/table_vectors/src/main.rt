//! Compares reading and writing with tables of messages whose answers came from elsewhere, and recorded
//! messages with what was written down of them. It prints how many agree.
//!
//! The lists of lines are `sample-types.tsv`, of scalars, strings, options, lists and tuples,
//! `sample-objects.tsv`, of maps, structs and enums, and `sample.tsv` and `lines.tsv`, of values. Those of
//! cases are `cases-types.txt`, `values.txt`, mostly of what a `Value` is read from, and
//! `cases-objects.txt`. What is in a file `wrong-..` is wrong, and each of it is named.
#![tactic(auto)]

mod kinds;
mod line;
mod recorded;
mod refusals;
mod row;
mod tables;
mod watchman;
mod ways;
mod written;

use crate::recorded::compare_recordings;
use crate::refusals::{compare_refusals, read_number};
use crate::tables::{compare_lines, compare_rows};
use crate::watchman::compare_files;
use anyhow::Result;

fn main(rt: HostRuntime) -> Result<()> {
    compare_lines(&rt, false, "sample-types.tsv")?;
    compare_lines(&rt, false, "wrong-types.tsv")?;
    compare_rows(&rt, "cases-types.txt")?;
    compare_rows(&rt, "values.txt")?;
    compare_rows(&rt, "wrong-cases.txt")?;
    compare_lines(&rt, false, "sample-objects.tsv")?;
    compare_lines(&rt, false, "wrong-objects.tsv")?;
    compare_rows(&rt, "cases-objects.txt")?;
    compare_lines(&rt, true, "sample.tsv")?;
    compare_lines(&rt, true, "lines.tsv")?;
    compare_lines(&rt, true, "wrong-lines.tsv")?;
    compare_refusals(&rt, "errors.tsv")?;
    compare_refusals(&rt, "wrong-errors.tsv")?;
    read_number(&rt)?;
    compare_files(&rt)?;
    compare_recordings(&rt, "recorded.tsv")?;
    compare_recordings(&rt, "wrong-recorded.tsv")
}
