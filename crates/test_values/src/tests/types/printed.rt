//! The printed texts of refused messages.
use super::checks::check_equal;
use bser_vectors::enums::TestEnum;
use bser_vectors::messages::NULL;
use serde_bser::errors::Result;
use serde_bser::from_slice;
use serde_bser::value::Value;
use std::alloc::Global;
use std::process::Abort;

/// Checks that the answer is a refusal that is printed so.
fn check_printed<T>(rt: &impl Abort, alloc: Global, answer: &Result<T>, text: &str) {
    match answer {
        Ok(_) => assert!(rt; false, "{text}"),
        Err(refusal) => {
            let shown = format!(in alloc; "{refusal}").expect(rt, "memory is left");
            check_equal(rt, &shown.as_str(), &text);
        }
    }
}

/// Messages that are no value, and the text.
static REFUSED: [(&[u8], &str); 4] = [
    (
        b"\x00\x02\0\0\0\0\x03\x01\x0e",
        "while deserializing BSER: invalid start byte for next item: unknown byte '14'",
    ),
    (
        b"\x00\x02\0\0\0\0\x03\x01\x0c",
        "while deserializing BSER: invalid start byte for next item: BSER_SKIP",
    ),
    (b"\x00\x01\x03\x01\x0a", "Invalid magic header: [0, 1]"),
    (
        b"\x00\x02\0\0\0\0\x03\x02\x0a",
        "Expected 10 bytes read, but only read 9 bytes",
    ),
];

#[test]
fn a_refused_message_is_named(rt: HostRuntime) {
    let alloc = rt.alloc();
    for (message, text) in &REFUSED {
        check_printed(&rt, alloc, &from_slice::<Value>(alloc, message), text);
    }
    check_printed(
        &rt,
        alloc,
        &from_slice::<TestEnum<&str>>(alloc, NULL),
        "while deserializing BSER: invalid start byte for enum 'TestEnum': BSER_NULL",
    );
}
