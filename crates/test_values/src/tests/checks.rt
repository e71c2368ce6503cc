//! What the tests of all modules check: texts, bytes and messages.
use bser_ser::Serialize;
use bser_ser::message::to_vec;
use bser_vectors::notation::parse_value;
use bser_vectors::ways::written;
use serde_bser::value::Value;
use std::alloc::Global;
use std::fmt::{Debug, Display};
use std::process::Abort;

/// The value that the text spells in the notation.
pub fn spelled(rt: &impl Abort, alloc: Global, text: &str) -> Value {
    parse_value(alloc, text).expect(rt, "the text is a value")
}

/// The bytes are those expected.
pub fn check_bytes(rt: &impl Abort, found: &[u8], expected: &[u8]) {
    assert_eq!(rt; found, expected);
}

/// The texts are the same.
fn check_same(rt: &impl Abort, found: &str, expected: &str) {
    assert_eq!(rt; found, expected);
}

/// The value is printed as this text.
pub fn check_text<T: Display + Drop>(rt: &impl Abort, alloc: Global, value: T, text: &str) {
    let printed = format!(in alloc; "{value}").expect(rt, "memory is left");
    check_same(rt, printed.as_str(), text);
}

/// The values are printed as these texts.
pub fn check_texts<T: Display>(rt: &impl Abort, alloc: Global, values: &[(T, &str)]) {
    for (value, text) in values {
        check_text(rt, alloc, value, text);
    }
}

/// `Debug` prints the value as this text.
pub fn check_debug<T: Debug + Drop>(rt: &impl Abort, alloc: Global, value: T, text: &str) {
    let printed = format!(in alloc; "{value:?}").expect(rt, "memory is left");
    check_same(rt, printed.as_str(), text);
}

/// The value is written as a message of these bytes, to a writer and in a vector.
pub fn check_written<T: Serialize + Drop>(
    rt: &impl Abort,
    alloc: Global,
    value: T,
    expected: &[u8],
) {
    let found = written(alloc, &value).expect(rt, "the value is written");
    check_bytes(rt, &found, expected);
    let made = to_vec(alloc, &value).expect(rt, "the value is written");
    check_bytes(rt, &made, expected);
}
