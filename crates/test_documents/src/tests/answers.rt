//! What is answered to messages, and the values that documents hold.
use super::{ARRAYS, EQUAL_KEYS, FALLING_ROWS};
use bser_vectors::devices::Plan;
use bser_vectors::notation::answer_text;
use bser_vectors::shown::Shown;
use bser_vectors::ways::read_by_plan;
use serde_bser::document::Document;
use serde_bser::errors::Result;
use serde_bser::from_slice;
use serde_bser::value::Value;
use std::alloc::Global;
use std::process::Abort;

/// Messages and what they are read as: an integer, a text, two arrays, an object that has a key
/// twice, a template with a skipped field, and four that are refused: for an early end, a tag that
/// there is not, a key that is no UTF-8, and bytes behind the value.
const MESSAGES: [(&[u8], &str); 10] = [
    (b"\x00\x02\0\0\0\0\x03\x03\x04\x80\x00", "i128"),
    (b"\x00\x02\0\0\0\0\x03\x05\x0d\x03\x02hi", "s6869"),
    (b"\x00\x02\0\0\0\0\x03\x03\x00\x03\x00", "[]"),
    (ARRAYS, "[[n],t]"),
    (EQUAL_KEYS, "{6b:i2}"),
    (FALLING_ROWS, "[{61:n,62:i1},{61:t,62:n}]"),
    (b"\x00\x02\0\0\0\0\x03\x03\x04\x80", "E6 Eof"),
    (b"\x00\x02\0\0\0\0\x03\x01\x0f", "E1 next item 15"),
    (
        b"\x00\x02\0\0\0\0\x03\x08\x01\x03\x01\x02\x03\x01\xff\x0a",
        "E6 Utf8",
    ),
    (b"\x00\x02\0\0\0\0\x03\x02\x0a\x0a", "E4 10 9"),
];

/// Checks that the answer has this notation.
fn check_answer<T: Shown>(rt: &impl Abort, alloc: Global, answer: &Result<T>, expected: &str) {
    let text = answer_text(alloc, answer).expect(rt, "memory is left");
    assert_eq!(rt; text.as_str(), expected);
}

#[test]
fn a_document_answers_as_a_value_does(rt: HostRuntime) {
    let alloc = rt.alloc();
    for (message, expected) in MESSAGES {
        check_answer::<Value>(&rt, alloc, &from_slice(alloc, message), expected);
        check_answer::<Document>(&rt, alloc, &from_slice(alloc, message), expected);
        for most in [1, 2, 3, 7, 4096] {
            let (answer, _) = read_by_plan(alloc, message, Plan::pieces(most));
            check_answer::<Document>(&rt, alloc, &answer, expected);
        }
    }
}
