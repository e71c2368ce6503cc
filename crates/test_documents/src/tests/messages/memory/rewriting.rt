//! Messages that are rewritten.
use super::{Tested, check_written, taking};
use bser_canonical::engine::{canon, canon_compact};
use bser_vectors::devices::{Plan, PlannedReader};
use bser_vectors::messages::{CANONICAL_ROWS, COMPACT_ROWS, ROWS};
use serde_bser::device::Watched;

/// A reader of the rows that gives three bytes a call.
fn of_three() -> Watched<PlannedReader<'static>> {
    Watched::new(PlannedReader::new(ROWS, Plan::pieces(3)))
}

#[test]
fn rows_are_rewritten(rt: HostRuntime) -> Tested {
    let mut writer = taking(rt.alloc(), 7);
    let answer = canon(rt.alloc(), &mut of_three(), &mut writer);
    check_written(&rt, answer, &writer, CANONICAL_ROWS)
}

#[test]
fn rows_are_rewritten_compactly(rt: HostRuntime) -> Tested {
    let mut writer = taking(rt.alloc(), 7);
    let answer = canon_compact(rt.alloc(), &mut of_three(), &mut writer);
    check_written(&rt, answer, &writer, COMPACT_ROWS)
}
