//! Adds the messages of inputs to an index.
ghost use Rattle.std.specs.Prelude.{◌≤◌, IfErr};
ghost use Rattle.watchman_sqlite.specs.Columns.{IsOfDatabase};

use crate::messages::{Inputs, take_inputs};
use bser_shell::reports::Reports;
use std::io::{Read, Write};
use watchman_sqlite::error::IndexError;
use watchman_sqlite::reopening::{Adding, Reopening};
use watchman_sqlite::taking::Totals;

/// Adds the messages of the inputs to an index. Answers how many there were, and whether the index
/// could be closed.
pub fn add_inputs<R: Read + Drop, E: Write>(
    rt: &HostRuntime,
    adding: Adding<'_>,
    inputs: Inputs<'_, R>,
    reports: &mut Reports<'_, E>,
) -> (Totals, Result<(), IndexError>)
    ensures refused { result.0.refused ≤ 1 }
    ensures err { IfErr result.1 IsOfDatabase }
{
    let mut index = Reopening::new(rt, adding);
    let totals = take_inputs(rt.alloc(), rt, inputs, &mut index, reports);
    (totals, index.close())
}
