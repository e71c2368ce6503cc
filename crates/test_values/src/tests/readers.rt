//! A source over a reader of a few bytes a call.
use bser_source::device::Watched;
use bser_source::io_read::IoRead;
use bser_vectors::devices::{Plan, PlannedReader, Then};
use std::io::ErrorKind;

/// A byte source over a reader that follows a plan.
pub type PlannedRead<'a> = IoRead<Watched<PlannedReader<'a>>>;

/// A byte source over a reader that gives at most `most` bytes a call, and is interrupted after
/// `whole` bytes.
pub fn source_of(bytes: &[u8], most: usize, whole: usize) -> PlannedRead<'_> {
    let plan = Plan::pieces(most).up_to(whole, Then::Faults(ErrorKind::Interrupted));
    IoRead::new(Watched::new(PlannedReader::new(bytes, plan)))
}
