//! Tests of whole messages, by the public calls of the crates.
mod memory;
mod promises;
mod rewriting;
mod sizes;
mod streams;

use bser_source::device::Watched;
use bser_vectors::devices::{Plan, PlannedReader};
use serde_bser::errors::Result;
use serde_bser::from_slice;
use serde_bser::value::Value;
use std::alloc::Global;
use std::fmt::Debug;
use std::process::Abort;

/// Checks that the bytes are those expected.
fn check_bytes(rt: &impl Abort, found: &[u8], expected: &[u8]) {
    assert_eq!(rt; found, expected);
}

/// Checks that what was found is what was expected.
fn check_equal<T: PartialEq + Debug + Copy>(rt: &impl Abort, found: T, expected: T) {
    assert_eq!(rt; found, expected);
}

/// A reader that gives these bytes one by one.
fn one_by_one(bytes: &[u8]) -> Watched<PlannedReader<'_>> {
    Watched::new(PlannedReader::new(bytes, Plan::pieces(1)))
}

/// The value of the message at the start of the slice.
fn value_of(rt: &impl Abort, alloc: Global, message: &[u8]) -> Value {
    from_slice(alloc, message).expect(rt, "the message is read")
}

/// Checks that the value was read.
fn check_read(rt: &impl Abort, read: Result<Value>, value: &Value) {
    assert!(rt; read.expect(rt, "the message is read") == *value);
}

/// Slices, and how often each is repeated in a message.
type Parts<'a> = &'a [(&'a [u8], usize)];

/// Adds the bytes.
fn add(rt: &impl Abort, bytes: &mut Vec<u8>, part: &[u8]) {
    bytes.extend_from_slice(part).expect(rt, "memory is left");
}

/// The bytes of the parts, one after the other.
fn repeated(rt: &impl Abort, alloc: Global, parts: Parts<'_>) -> Vec<u8> {
    let mut bytes = Vec::new(alloc);
    for (part, count) in parts {
        for _ in 0..*count {
            add(rt, &mut bytes, part);
        }
    }
    bytes
}
