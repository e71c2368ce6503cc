//! What is written for a part of a document.
use super::{KINDS, ROWS, check_written, document};

/// Each key of [`KINDS`], one that it has not, and the message of the value at the key.
const PARTS: [(&str, &[u8]); 10] = [
    ("t", b"\x00\x02\0\0\0\0\x03\x06\x0d\x03\x03a\"\n"),
    ("b", b"\x00\x02\0\0\0\0\x03\x06\x02\x03\x03/\xff'"),
    ("i", b"\x00\x02\0\0\0\0\x03\x03\x04\x2c\x01"),
    (
        "r",
        b"\x00\x02\0\0\0\0\x03\x09\x07\x00\x00\x00\x00\x00\x00\xf8\xbf",
    ),
    (
        "n",
        b"\x00\x02\0\0\0\0\x03\x09\x07\x01\x00\x00\x00\x00\x00\xf8\x7f",
    ),
    ("y", b"\x00\x02\0\0\0\0\x03\x01\x08"),
    ("f", b"\x00\x02\0\0\0\0\x03\x01\x09"),
    ("z", b"\x00\x02\0\0\0\0\x03\x01\x0a"),
    ("a", b"\x00\x02\0\0\0\0\x03\x03\x00\x03\x00"),
    ("none", b"\x00\x02\0\0\0\0\x03\x01\x0a"),
];

/// The canonical message of [`ROWS`].
const CANONICAL_ROWS: &[u8] =
    b"\x00\x02\0\0\0\0\x03\x1f\x00\x03\x02\x01\x03\x02\x0d\x03\x01a\x03\x03\x0d\x03\x01b\x0a\x01\x03\x02\x0d\x03\x01a\x03\x05\x0d\x03\x01b\x08";

#[test]
fn a_part_of_each_kind_is_written(rt: HostRuntime) {
    let document = document(&rt, rt.alloc(), KINDS);
    for (key, expected) in &PARTS {
        check_written(&rt, rt.alloc(), &document.root().get(*key), *expected);
    }
}

#[test]
fn the_rows_of_a_template_are_written(rt: HostRuntime) {
    let rows = document(&rt, rt.alloc(), ROWS);
    check_written(&rt, rt.alloc(), &rows.root(), CANONICAL_ROWS);
}
