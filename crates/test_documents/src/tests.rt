//! Tests of documents, frames, structs and whole messages.
mod answers;
mod frames;
mod kinds;
mod messages;
mod parts;
mod pointer;
mod printed;
mod rows;
mod same;
mod structs;
mod whole;

use serde_bser::document::Document;
use serde_bser::from_slice;
use serde_bser::ser::{Serialize, to_vec};
use std::alloc::Global;
use std::fmt::Debug;
use std::process::Abort;

/// An array of an array of null, and of true.
const ARRAYS: &[u8] = b"\x00\x02\0\0\0\0\x03\x08\x00\x03\x02\x00\x03\x01\x0a\x08";

/// An object with the key "k" twice, of 1 and then 2.
const EQUAL_KEYS: &[u8] =
    b"\x00\x02\0\0\0\0\x03\x0f\x01\x03\x02\x02\x03\x01k\x03\x01\x02\x03\x01k\x03\x02";

/// Two rows over the keys "b" and "a", which fall: 1 and a skipped field, and null and true.
const FALLING_ROWS: &[u8] =
    b"\x00\x02\0\0\0\0\x03\x13\x0b\x00\x03\x02\x02\x03\x01b\x02\x03\x01a\x03\x02\x03\x01\x0c\x0a\x08";

/// Two rows over the keys "a", "b" and "a" again: an array of 7, a skipped field and 3, then 4,
/// true and 5.
const ROWS: &[u8] =
    b"\x00\x02\0\0\0\0\x03\x1f\x0b\x00\x03\x03\x02\x03\x01a\x02\x03\x01b\x02\x03\x01a\x03\x02\x00\x03\x01\x03\x07\x0c\x03\x03\x03\x04\x08\x03\x05";

/// An object of a value of each kind, whose keys neither rise nor fall.
const KINDS: &[u8] =
    b"\x00\x02\x00\x00\x00\x00\x03\x4e\x01\x03\x09\x02\x03\x01t\x0d\x03\x03a\"\n\x02\x03\x01b\x02\x03\x03/\xff'\x02\x03\x01i\x04\x2c\x01\x02\x03\x01r\x07\x00\x00\x00\x00\x00\x00\xf8\xbf\x02\x03\x01n\x07\x01\x00\x00\x00\x00\x00\xf8\x7f\x02\x03\x01y\x08\x02\x03\x01f\x09\x02\x03\x01z\x0a\x02\x03\x01a\x00\x03\x00";

/// The document that the message is.
fn document(rt: &impl Abort, alloc: Global, message: &[u8]) -> Document {
    from_slice(alloc, message).expect(rt, "the message is read")
}

/// Checks how `Debug` prints the answer.
fn check_debug<T: Debug + Drop>(rt: &impl Abort, alloc: Global, answer: T, expected: &str) {
    let printed = format!(in alloc; "{answer:?}").expect(rt, "memory is left");
    assert_eq!(rt; printed.as_str(), expected);
}

/// Checks that this message is written for the value.
fn check_written<T: Serialize>(rt: &impl Abort, alloc: Global, value: &T, expected: &[u8]) {
    let message = to_vec(alloc, value).expect(rt, "the value is written");
    assert_eq!(rt; message.as_slice(), expected);
}
