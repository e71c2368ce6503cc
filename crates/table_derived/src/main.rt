//! Compares structs and enums by derives with tables of messages whose answers came from elsewhere, and
//! then the ways of reading and writing with each other, on 10,000 random messages.
//!
//! `table_derived compare SEED COUNT` compares them on COUNT messages of another seed alone, and
//! `table_derived print SEED COUNT` prints those messages: a line each, with what it is made to be read
//! as, a tab, and its bytes in hexadecimal digits. Message N has the seed SEED + N, from N = 0 on.
//!
//! The file `objects.tsv` has a line for each message, in columns between tabs: the type that it is
//! read as, the message in hexadecimal digits, `ok` or `err`, the notation of the answer, and the
//! bytes taken. The file `errors.tsv` has a line for each message that is refused: what it shows, the
//! type, the message, the words that its description has to have, the field or `-`, the first and the
//! last place that it may have, and the path.
#![tactic(auto)]

mod errors;
mod objects;
mod random;
mod ways;

use crate::random::Source;
use anyhow::{Context, Result, bail};
use std::env;

/// The messages that are compared where none are asked for.
const MESSAGES: Source = Source {
    seed: 1,
    count: 10_000,
};

fn main(rt: HostRuntime) -> Result<()> {
    let mut words = env::args(&rt)?.skip(1);
    let Some(word) = words.next() else {
        compare_tables(&rt)?;
        return MESSAGES.compare_all(&rt);
    };
    let source = Source {
        seed: words.next().context("no SEED")?.parse()?,
        count: words.next().context("no COUNT")?.parse()?,
    };
    match word.as_str() {
        "print" => source.print_all(&rt),
        "compare" => source.compare_all(&rt),
        _ => bail!("neither print nor compare"),
    }
}

/// Compares all tables.
fn compare_tables(rt: &HostRuntime) -> Result<()> {
    objects::compare_all(rt, "objects.tsv")?;
    objects::compare_all(rt, "wrong-objects.tsv")?;
    errors::compare_all(rt, "errors.tsv")?;
    errors::compare_all(rt, "wrong-errors.tsv")
}
