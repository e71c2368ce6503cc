//! Whether two documents hold the same value.
use super::{EQUAL_KEYS, FALLING_ROWS, document};
use std::alloc::Global;
use std::process::Abort;

/// Two messages, and whether they are read as the same value: a template and its rows written out,
/// with other numbers too; an object with a key twice, and its last and its first value; an integer
/// and a real; a text and a byte string; arrays of two lengths; objects with different keys.
const PAIRS: [(&[u8], &[u8], bool); 8] = [
    (
        FALLING_ROWS,
        b"\x00\x02\x00\x00\x00\x00\x03\x1e\x00\x03\x02\x01\x03\x02\x02\x03\x01a\x0a\x02\x03\x01b\x03\x01\x01\x03\x02\x02\x03\x01b\x0a\x02\x03\x01a\x08",
        true,
    ),
    (
        FALLING_ROWS,
        b"\x00\x02\x00\x00\x00\x00\x03\x1e\x00\x03\x02\x01\x03\x02\x02\x03\x01a\x0a\x02\x03\x01b\x03\x02\x01\x03\x02\x02\x03\x01b\x0a\x02\x03\x01a\x08",
        false,
    ),
    (
        EQUAL_KEYS,
        b"\x00\x02\x00\x00\x00\x00\x03\x10\x01\x03\x01\x02\x03\x01k\x06\x02\x00\x00\x00\x00\x00\x00\x00",
        true,
    ),
    (
        EQUAL_KEYS,
        b"\x00\x02\x00\x00\x00\x00\x03\x09\x01\x03\x01\x02\x03\x01k\x03\x01",
        false,
    ),
    (
        b"\x00\x02\x00\x00\x00\x00\x03\x02\x03\x01",
        b"\x00\x02\x00\x00\x00\x00\x03\x09\x07\x00\x00\x00\x00\x00\x00\xf0?",
        false,
    ),
    (
        b"\x00\x02\x00\x00\x00\x00\x03\x04\x0d\x03\x01a",
        b"\x00\x02\x00\x00\x00\x00\x03\x04\x02\x03\x01a",
        false,
    ),
    (
        b"\x00\x02\x00\x00\x00\x00\x03\x07\x00\x03\x02\x03\x01\x03\x02",
        b"\x00\x02\x00\x00\x00\x00\x03\x05\x00\x03\x01\x03\x01",
        false,
    ),
    (
        b"\x00\x02\x00\x00\x00\x00\x03\x09\x01\x03\x01\x02\x03\x01a\x03\x01",
        b"\x00\x02\x00\x00\x00\x00\x03\x09\x01\x03\x01\x02\x03\x01b\x03\x01",
        false,
    ),
];

/// Checks whether two messages are read as the same value.
fn check_same(rt: &impl Abort, alloc: Global, first: &[u8], second: &[u8], expected: bool) {
    let (one, other) = (document(rt, alloc, first), document(rt, alloc, second));
    let same = one.same_content(alloc, &other).expect(rt, "memory is left");
    assert_eq!(rt; same, expected, "{first:?} {second:?}");
}

#[test]
fn documents_are_compared_as_they_are_read(rt: HostRuntime) {
    for (first, second, same) in PAIRS {
        check_same(&rt, rt.alloc(), first, second, same);
        check_same(&rt, rt.alloc(), second, first, same);
    }
}
