//! The size of what a message means.
//!
//! The numbers were computed by hand, and for the recorded message by another program.
use crate::tests::messages::{Parts, repeated};
use serde_bser::de::{Limits, size_of, size_of_limited};

/// A server's answer to `query`, with a template of one row.
const ONE_ROW: &[u8] =
    b"\x00\x02\x00\x00\x00\x00\x03\x78\x01\x03\x04\x02\x03\x05files\x0b\x00\x03\x02\x0d\x03\x04name\x0d\x03\x04size\x03\x01\x02\x03\x0csizes/sz-127\x03\x7f\x02\x03\x05clock\x0d\x03\x16c:1795333142:9732:1:22\x02\x03\x07version\x0d\x03\x054.9.0\x02\x03\x11is_fresh_instance\x08";

/// A template of two rows: the first is a template of three rows, the second is skipped.
const NESTED: &[u8] =
    b"\x00\x02\x00\x00\x00\x00\x03\x24\x0b\x00\x03\x01\x02\x03\x02ab\x03\x02\x0b\x00\x03\x02\x02\x03\x01c\x02\x03\x02de\x03\x03\x03\x01\x0c\x03\x01\x0c\x03\x01\x0c\x0c";

/// An array of a template with a row, of three arrays inside each other, and of a null.
const SIBLINGS: &[u8] =
    b"\x00\x02\x00\x00\x00\x00\x03\x18\x00\x03\x03\x0b\x00\x03\x01\x02\x03\x01a\x03\x01\x0c\x00\x03\x01\x00\x03\x01\x00\x03\x00\x0a";

/// A template of two keys without rows.
const NO_ROWS: &[u8] =
    b"\x00\x02\x00\x00\x00\x00\x03\x0e\x0b\x00\x03\x02\x02\x03\x01a\x02\x03\x01b\x03\x00";

/// An object of three entries under one key.
const EQUAL_KEYS: &[u8] =
    b"\x00\x02\x00\x00\x00\x00\x03\x16\x01\x03\x03\x02\x03\x01k\x03\x01\x02\x03\x01k\x03\x02\x02\x03\x01k\x00\x03\x00";

/// A head that announces a body of 60,011 bytes, and a template of one key of 30,000 bytes up to
/// the key.
const AMPLIFYING: &[u8] =
    b"\x00\x02\x00\x00\x00\x00\x05\x6b\xea\x00\x00\x0b\x00\x03\x01\x02\x04\x30\x75";

/// The parts of a message of 60,022 bytes, which takes 907 MB as a `Value`.
const AMPLIFYING_PARTS: Parts<'static> = &[
    (AMPLIFYING, 1),
    (b"k", 30_000),
    (b"\x04\x30\x75", 1),
    (b"\x0c", 30_000),
];

/// Messages, and how many values each is, how many bytes its keys have, and how deep it is.
static SIZES: [(Parts<'static>, (u64, u64, usize)); 6] = [
    // a template's keys count for each row
    (AMPLIFYING_PARTS, (60_001, 900_000_000, 2)),
    (&[(NESTED, 1)], (14, 13, 4)),
    // what follows a template is no deeper
    (&[(SIBLINGS, 1)], (8, 1, 4)),
    // a template without rows is an empty array
    (&[(NO_ROWS, 1)], (1, 0, 1)),
    // equal keys count each time
    (&[(EQUAL_KEYS, 1)], (4, 3, 2)),
    (&[(ONE_ROW, 1)], (8, 42, 3)),
];

#[test]
fn a_message_has_the_size_of_its_templates_written_out(rt: HostRuntime) {
    for (parts, size) in &SIZES {
        let message = repeated(&rt, rt.alloc(), parts);
        let found = size_of(rt.alloc(), &message).expect(&rt, "the message is read");
        assert_eq!(rt; (found.values, found.key_bytes, found.depth), *size);
        let within = size_of_limited(rt.alloc(), Limits::new(), &message);
        assert!(rt; within.expect(&rt, "the message is read") == found);
    }
}
