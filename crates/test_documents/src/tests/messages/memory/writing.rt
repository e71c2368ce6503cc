//! Messages that are written, and the bytes that a writer has of them.
use super::{Tested, check_bytes, check_written, taking, wanted, wanted_after};
use bser_vectors::messages::{CANONICAL_ROWS, NESTED_ROWS, ROWS};
use serde_bser::device::Watched;
use serde_bser::document::Document;
use serde_bser::errors::{Error, Result};
use serde_bser::from_slice;
use serde_bser::ser::{Serialize, Serializer, serialize, serialize_compact, serialize_to, to_vec};
use serde_bser::value::Value;
use std::alloc::Global;
use std::process::Abort;

/// Checks that the value is serialized so, or answers the refusal, after which the writer that is
/// handed back has a beginning of the message.
fn check_serialized<T: Serialize>(
    rt: &impl Abort,
    alloc: Global,
    value: &T,
    message: &[u8],
) -> Tested {
    match serialize(alloc, taking(alloc, 5), value) {
        Ok(writer) => check_bytes(rt, writer.get_ref().taken.as_slice(), message),
        Err((writer, error)) => wanted_after(rt, error, writer.get_ref().taken.as_slice(), message),
    }
}

/// An array of so many trues after this head.
fn trues(alloc: Global, head: &[u8], count: usize) -> Result<Vec<u8>> {
    let mut message = Vec::from_slice(alloc, head)?;
    for _ in 0..count {
        message.push(0x08)?;
    }
    Ok(message)
}

#[test]
fn more_than_is_kept_pending_is_serialized(rt: HostRuntime) -> Tested {
    let head = b"\x00\x02\0\0\0\0\x04\x8c\x13\x00\x04\x88\x13";
    let message = trues(rt.alloc(), head, 5000)?;
    check_serialized(&rt, rt.alloc(), &[true; 5000], &message)
}

#[test]
fn a_number_that_is_too_great_is_named(rt: HostRuntime) -> Tested {
    match serialize(rt.alloc(), taking(rt.alloc(), 5), &[1, u64::MAX]) {
        Err((writer, Error::SerU64TooBig { v: u64::MAX })) => {
            check_bytes(&rt, writer.get_ref().taken.as_slice(), b"")
        }
        Err((_, error)) => wanted(&rt, error),
        Ok(_) => panic!(rt; "a number that is too great was written"),
    }
}

/// Checks that the value's message was made, or answers the refusal.
fn check_vector(rt: &impl Abort, made: Result<Vec<u8>>, message: &[u8]) -> Tested {
    match made {
        Ok(made) => check_bytes(rt, &made, message),
        Err(error) => wanted(rt, error),
    }
}

#[test]
fn a_vector_is_written(rt: HostRuntime) -> Tested {
    let pair = b"\x00\x02\0\0\0\0\x03\x0b\x00\x03\x02\x0d\x03\x03Tom\x03\x07";
    check_vector(&rt, to_vec(rt.alloc(), &("Tom", 7)), pair)
}

/// Checks that the value is written to a writer of five bytes a call, which has a beginning of the
/// message where memory was refused.
fn check_beginning<T: Serialize>(rt: &impl Abort, alloc: Global, value: &T) -> Tested {
    let mut writer = taking(alloc, 5);
    let answer = serialize_to(alloc, &mut writer, value);
    check_written(rt, answer, &writer, CANONICAL_ROWS)
}

#[test]
fn a_message_that_is_refused_for_memory_leaves_a_beginning(rt: HostRuntime) -> Tested {
    check_beginning(&rt, rt.alloc(), &from_slice::<Value>(rt.alloc(), ROWS)?)?;
    let document: Document = from_slice(rt.alloc(), ROWS)?;
    check_beginning(&rt, rt.alloc(), &document.root())
}

#[test]
fn a_compact_message_that_is_refused_for_memory_leaves_a_beginning(rt: HostRuntime) -> Tested {
    let value: Value = from_slice(rt.alloc(), NESTED_ROWS)?;
    let mut writer = taking(rt.alloc(), 5);
    let answer = serialize_compact(rt.alloc(), &mut writer, &value);
    check_written(&rt, answer, &writer, NESTED_ROWS)
}

/// A serializer into memory.
fn in_memory(alloc: Global) -> Serializer<Watched<Vec<u8>>> {
    Serializer::new(alloc, Watched::new(Vec::new(alloc)))
}

/// Checks that what was put is these bytes.
fn check_put(rt: &impl Abort, out: Serializer<Watched<Vec<u8>>>, expected: &[u8]) -> Tested {
    check_bytes(rt, out.finish()?.get_ref(), expected)
}

#[test]
fn a_truth_value_is_put(rt: HostRuntime) -> Tested {
    let mut out = in_memory(rt.alloc());
    match out.put_bool(true) {
        Ok(()) => check_put(&rt, out, b"\x08"),
        Err(error) => {
            check_put(&rt, out, b"")?;
            wanted(&rt, error)
        }
    }
}
