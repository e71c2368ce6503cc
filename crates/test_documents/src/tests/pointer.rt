//! JSON pointers.
use super::document;
use serde_bser::document::{Item, is_pointer};

/// The document of RFC 6901, section 5, and one key more, "~1".
const EXAMPLE: &[u8] =
    b"\x00\x02\x00\x00\x00\x00\x03b\x01\x03\x0b\x02\x03\x03foo\x00\x03\x02\x0d\x03\x03bar\x0d\x03\x03baz\x02\x03\x00\x03\x00\x02\x03\x03a/b\x03\x01\x02\x03\x03c%d\x03\x02\x02\x03\x03e^f\x03\x03\x02\x03\x03g|h\x03\x04\x02\x03\x03i\\j\x03\x05\x02\x03\x03k\"l\x03\x06\x02\x03\x01 \x03\x07\x02\x03\x03m~n\x03\x08\x02\x03\x02~1\x03\x09";

/// The numbers of the example, by their pointers: those of the RFC, and one whose escape is not
/// decoded twice.
const NUMBERS: [(&str, i64); 10] = [
    ("/", 0),
    ("/a~1b", 1),
    ("/c%d", 2),
    ("/e^f", 3),
    ("/g|h", 4),
    ("/i\\j", 5),
    ("/k\"l", 6),
    ("/ ", 7),
    ("/m~0n", 8),
    ("/~01", 9),
];

/// Pointers to no value of the example.
const NOWHERE: [&str; 11] = [
    "/fo",
    "/foo/2",
    "/foo/01",
    "/foo/+1",
    "/foo/-",
    "/foo/",
    "/foo/18446744073709551616",
    "/foo/0/",
    "/a/b",
    "//",
    "/~1",
];

/// Texts that the grammar of the RFC does not make: one without a slash, and tildes without 0 or 1.
const NO_POINTERS: [&str; 7] = ["foo", "m~0n", "/m~n", "/~", "/~2", "/foo~/0", "/foo/0~"];

#[test]
fn the_examples_of_the_rfc_are_found_and_nothing_where_nothing_is(rt: HostRuntime) {
    let document = document(&rt, rt.alloc(), EXAMPLE);
    for (path, number) in NUMBERS {
        let found = document.root().pointer(path).and_then(Item::as_i64);
        assert_eq!(rt; found, Some(number), "{path}");
    }
    for (path, text) in [("/foo/0", "bar"), ("/foo/1", "baz")] {
        let found = document.root().pointer(path).and_then(Item::as_str);
        assert_eq!(rt; found, Some(text), "{path}");
    }
    let whole = document.root().pointer("").and_then(Item::entries);
    assert_eq!(rt; whole.map(|entries| entries.len()), Some(11));
    let array = document.root().pointer("/foo").and_then(Item::len);
    assert_eq!(rt; array, Some(2));
    for path in NOWHERE {
        assert!(rt; is_pointer(path), "{path}");
        assert!(rt; document.root().pointer(path).is_none(), "{path}");
    }
    for text in NO_POINTERS {
        assert!(rt; !is_pointer(text), "{text}");
        assert!(rt; document.root().pointer(text).is_none(), "{text}");
    }
}
