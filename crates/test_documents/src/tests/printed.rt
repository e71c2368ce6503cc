//! What is printed of documents.
use super::{ARRAYS, EQUAL_KEYS, FALLING_ROWS, KINDS, document};
use serde_bser::document::Document;
use std::alloc::Global;
use std::process::Abort;

/// Messages and what is printed of each: an array in an array; an object with a key twice; a
/// template with keys that fall and a skipped field; a key that begins with a dollar sign; and an
/// object of a value of each kind, whose keys neither rise nor fall.
const PRINTED: [(&[u8], &str); 5] = [
    (ARRAYS, "[[null], true]"),
    (EQUAL_KEYS, "{\"k\": 2}"),
    (
        FALLING_ROWS,
        "[{\"a\": null, \"b\": 1}, {\"a\": true, \"b\": null}]",
    ),
    (
        b"\x00\x02\0\0\0\0\x03\x0a\x01\x03\x01\x02\x03\x02$a\x03\x01",
        "{\"$$a\": 1}",
    ),
    (
        KINDS,
        "{\"a\": [], \"b\": {\"$bytes\": \"2fff27\"}, \"f\": false, \"i\": 300, \"n\": {\"$real\": \"7ff8000000000001\"}, \"r\": -1.5, \"t\": \"a\\\"\\n\", \"y\": true, \"z\": null}",
    ),
];

/// Checks what is printed of a document, of its root and of the `Value` that it holds.
fn check_printed(rt: &impl Abort, alloc: Global, document: &Document, expected: &str) {
    let value = document.to_value(alloc).expect(rt, "memory is left");
    let of_value = format!(in alloc; "{value}").expect(rt, "memory is left");
    let of_document = format!(in alloc; "{document}").expect(rt, "memory is left");
    let of_root = format!(in alloc; "{}", document.root()).expect(rt, "memory is left");
    assert_eq!(rt; of_value.as_str(), expected);
    assert_eq!(rt; of_document.as_str(), expected);
    assert_eq!(rt; of_root.as_str(), expected);
}

#[test]
fn a_document_is_printed_as_its_value_is(rt: HostRuntime) {
    for (message, expected) in PRINTED {
        check_printed(
            &rt,
            rt.alloc(),
            &document(&rt, rt.alloc(), message),
            expected,
        );
    }
}
