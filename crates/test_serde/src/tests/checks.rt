//! What the tests compare.
use bser_serde::{ReadError, from_reader, from_slice, to_vec, to_writer};
use serde::{Deserialize, DeserializeOwned, Serialize};
use serde_bser::device::Watched;
use serde_bser::document::Document;
use serde_bser::ser::InMemory;
use std::alloc::Global;
use std::process::Abort;

/// Checks that the message of a value prints so, and that the value is read back from it.
pub fn check_written<T: DeserializeOwned + Serialize + PartialEq>(
    rt: &impl Abort,
    alloc: Global,
    value: &T,
    shown: &str,
) {
    let message = to_vec(alloc, value).expect(rt, "a message");
    let document: Document = serde_bser::from_slice(alloc, &message).expect(rt, "a document");
    let text = document.to_string(alloc).expect(rt, "memory");
    assert_eq!(rt; text.as_str(), shown);
    let mut memory = InMemory::new(Vec::new(alloc));
    to_writer(alloc, &mut memory, value).expect(rt, "the same message");
    assert!(rt; *memory.get_ref() == message);
    let mut reader = Watched::new(message.as_slice());
    let back = from_reader::<_, T>(alloc, &mut reader).expect(rt, "a value");
    assert!(rt; back == *value);
}

/// Checks that the message is refused as a value of this type, and how that prints.
pub fn check_refused<'de, T: Deserialize<'de>>(
    rt: &impl Abort,
    alloc: Global,
    message: &'de [u8],
    expected: &str,
) {
    match from_slice::<T>(alloc, message) {
        Ok(_value) => assert!(rt; false),
        Err(refusal) => check_text(rt, alloc, &refusal, expected),
    }
}

/// Checks that a value has no message, and how the error prints.
pub fn check_unwritten<T: Serialize>(rt: &impl Abort, alloc: Global, value: &T, expected: &str) {
    match to_vec(alloc, value) {
        Ok(_message) => assert!(rt; false),
        Err(error) => {
            let text = error.to_string(alloc).expect(rt, "memory");
            assert_eq!(rt; text.as_str(), expected);
        }
    }
}

/// Checks how a refusal prints.
pub fn check_text(rt: &impl Abort, alloc: Global, refusal: &ReadError, expected: &str) {
    let text = refusal.to_string(alloc).expect(rt, "memory");
    assert_eq!(rt; text.as_str(), expected);
}

/// A text of its own.
pub fn owned(rt: &impl Abort, alloc: Global, text: &str) -> String {
    String::from_str(alloc, text).expect(rt, "memory")
}
