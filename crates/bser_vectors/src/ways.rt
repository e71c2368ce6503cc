//! Reading a message from a reader that follows a plan, and writing one to a writer.
use crate::devices::{Plan, PlannedReader};
use bser_format::errors::Result;
use bser_messages::message::from_reader_within;
use bser_ser::Serialize;
use bser_ser::message::serialize;
use bser_source::device::Watched;
use bser_types::deserialize::DeserializeOwned;
use std::alloc::Global;

/// Reads from a reader that gives `bytes` by the plan, and answers how many bytes it took.
pub fn read_by_plan<T: DeserializeOwned>(
    alloc: Global,
    bytes: &[u8],
    plan: Plan,
) -> (Result<T>, usize) {
    read_by_plan_within(alloc, 128, bytes, plan)
}

/// Reads so a message that has at most so many levels, of which 1024 at most are given.
pub fn read_by_plan_within<T: DeserializeOwned>(
    alloc: Global,
    levels: usize,
    bytes: &[u8],
    plan: Plan,
) -> (Result<T>, usize) {
    let mut reader = Watched::new(PlannedReader::new(bytes, plan));
    let answer = from_reader_within(alloc, levels.min(1024), &mut reader);
    let left = reader.get_ref().left.len();
    (answer, bytes.len().saturating_sub(left))
}

/// What a writer has taken of the value's message.
pub fn written<T: Serialize>(alloc: Global, value: &T) -> Result<Vec<u8>> {
    match serialize(alloc, Watched::new(Vec::new(alloc)), value) {
        Ok(writer) => Ok(writer.into_inner()),
        Err((_, error)) => Err(error),
    }
}
