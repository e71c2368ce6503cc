//! Tests of the exports, called as functions.
mod memory;
mod tapes;

use crate::{
    ABI_VERSION, BserOutcome, bser_abi_version, bser_canonical, bser_compact, bser_describe,
    bser_message_length, bser_tape,
};
use std::process::Abort;

/// A template of a row: `[{"a": 2, "b": skipped}]`. Behind it is another byte.
const TEMPLATE: &[u8] =
    b"\x00\x02\x01\x00\x00\x00\x03\x11\x0b\x00\x03\x02\x0d\x03\x01a\x02\x03\x01b\x03\x01\x03\x02\x0c\xff";

/// Its tape.
const TAPE: [u64; 14] = [
    0x20b, 8, 0x10e, 15, 0x10f, 19, 0x110, 20, 0x06, 2, 0x0c, 24, 0x11, 25,
];

#[test]
fn version(rt: HostRuntime) {
    assert_eq!(rt; bser_abi_version(), ABI_VERSION);
}

#[test]
fn lengths(rt: HostRuntime) {
    let alloc = rt.alloc();
    let whole = bser_message_length(alloc, TEMPLATE);
    assert_eq!(rt; (whole.code, whole.length), (0, 25));
    let cut = bser_message_length(alloc, &TEMPLATE[..7]);
    assert_eq!(rt; (cut.code, cut.place), (1, 7));
    let other = bser_message_length(alloc, b"\x00\x01\x03\x02\x03\x05");
    assert_eq!(rt; (other.code, other.detail), (54, 0));
    let tag = bser_message_length(alloc, b"\x00\x02\x00\x00\x00\x00\x0d\x05");
    assert_eq!(rt; (tag.code, tag.detail, tag.place), (17, 0x0d, 6));
}

/// What follows a head that announces too much is not looked at.
#[test]
fn lengths_that_are_too_great(rt: HostRuntime) {
    let alloc = rt.alloc();
    for behind in [0x0eu8, 0x0a, 0x06] {
        let mut bytes = *b"\x00\x02\x00\x00\x00\x00\x06\xff\xff\xff\xff\xff\xff\xff\x7f\x00";
        bytes[15] = behind;
        for len in [15usize, 16] {
            let great = bser_message_length(alloc, &bytes[..len]);
            assert_eq!(rt; (great.code, great.detail, great.place), (43, 0, 15));
        }
    }
}

#[test]
fn tape_of_a_template(rt: HostRuntime) {
    let alloc = rt.alloc();
    let mut words = [7u64; 16];
    let found = bser_tape(alloc, TEMPLATE, &mut words);
    assert_eq!(rt;
        (found.code, found.detail, found.place, found.length),
        (0, 1, 25, 14)
    );
    assert!(rt; &words[..14] == TAPE.as_slice());
    assert_eq!(rt; (words[14], words[15]), (7, 7));
}

/// Two rows as objects, their canonical message, and their compact one.
const ROWS: &[u8] =
    b"\x00\x02\x00\x00\x00\x00\x03\x0d\x0b\x00\x03\x01\x0d\x03\x01a\x03\x02\x03\x03\x08";

const CANONICAL: &[u8] =
    b"\x00\x02\x00\x00\x00\x00\x03\x14\x00\x03\x02\x01\x03\x01\x0d\x03\x01a\x03\x03\x01\x03\x01\x0d\x03\x01a\x08";

/// Checks that so many bytes were written, and that these are they.
fn check_written(rt: &impl Abort, outcome: BserOutcome, out: &[u8], expected: &[u8]) {
    assert_eq!(rt; (outcome.code, outcome.length), (0, expected.len()));
    assert!(rt; out.starts_with(expected), "{out:?}");
}

/// Checks that so much room is wanted, and that nothing was written.
fn check_wanted(rt: &impl Abort, outcome: BserOutcome, length: usize) {
    assert_eq!(rt;
        (outcome.code, outcome.detail, outcome.place, outcome.length),
        (2, 0, 0, length)
    );
}

#[test]
fn words_without_room(rt: HostRuntime) {
    let alloc = rt.alloc();
    let mut words = [7u64; 13];
    check_wanted(&rt, bser_tape(alloc, TEMPLATE, &mut words), 14);
    check_wanted(&rt, bser_tape(alloc, TEMPLATE, &mut words[..7]), 14);
    check_wanted(&rt, bser_tape(alloc, TEMPLATE, &mut []), 14);
}

#[test]
fn messages_without_tape(rt: HostRuntime) {
    let alloc = rt.alloc();
    let mut words = [0u64; 16];
    let cut = bser_tape(alloc, &TEMPLATE[..20], &mut words);
    assert_eq!(rt; (cut.code, cut.place, cut.length), (48, 20, 0));
    let tag = bser_tape(alloc, b"\x00\x02\x00\x00\x00\x00\x03\x01\x14", &mut words);
    assert_eq!(rt; (tag.code, tag.detail, tag.place), (16, 0x14, 8));
    let skip = bser_tape(alloc, b"\x00\x02\x00\x00\x00\x00\x03\x01\x0c", &mut words);
    assert_eq!(rt; (skip.code, skip.detail), (16, 0x0c));
    let text = bser_tape(
        alloc,
        b"\x00\x02\x00\x00\x00\x00\x03\x04\x0d\x03\x01\xff",
        &mut words,
    );
    assert_eq!(rt; text.code, 49);
    let long = bser_tape(alloc, b"\x00\x02\x00\x00\x00\x00\x03\x02\x0a", &mut words);
    assert_eq!(rt; long.code, 53);
}

#[test]
fn canonical(rt: HostRuntime) {
    let alloc = rt.alloc();
    let mut out = [7u8; 40];
    let whole = bser_canonical(alloc, ROWS, &mut out);
    check_written(&rt, whole, &out, CANONICAL);
    let wanted = CANONICAL.len();
    let mut small = [7u8; 27];
    check_wanted(&rt, bser_canonical(alloc, ROWS, &mut small), wanted);
    let mut half = [7u8; 14];
    check_wanted(&rt, bser_canonical(alloc, ROWS, &mut half), wanted);
    check_wanted(&rt, bser_canonical(alloc, ROWS, &mut []), wanted);
    let mut none = [7u8; 40];
    let cut = bser_canonical(alloc, &ROWS[..20], &mut none);
    assert_eq!(rt; (cut.code, cut.place), (48, 20));
}

#[test]
fn compact(rt: HostRuntime) {
    let alloc = rt.alloc();
    let mut out = [7u8; 40];
    let whole = bser_compact(alloc, CANONICAL, &mut out);
    check_written(&rt, whole, &out, ROWS);
    let wanted = ROWS.len();
    let mut small = [7u8; 20];
    check_wanted(&rt, bser_compact(alloc, CANONICAL, &mut small), wanted);
    let mut half = [7u8; 10];
    check_wanted(&rt, bser_compact(alloc, CANONICAL, &mut half), wanted);
    check_wanted(&rt, bser_compact(alloc, CANONICAL, &mut []), wanted);
    let mut none = [7u8; 40];
    let wrong = bser_compact(alloc, b"\x00\x01\x03\x01\x0a", &mut none);
    assert_eq!(rt; wrong.code, 54);
}

/// A `Value` of 600 skipped fields would have 600 maps. In the second call the last field is no value.
#[test]
fn compact_without_memory(rt: HostRuntime) {
    let alloc = rt.alloc();
    let mut bytes = [0x0cu8; 620];
    bytes[..20].copy_from_slice(
        b"\x00\x02\x00\x00\x00\x00\x04\x63\x02\x0b\x00\x03\x01\x0d\x03\x01a\x04\x58\x02",
    );
    let mut out = [7u8; 620];
    let many = bser_compact(alloc, &bytes, &mut out);
    assert_eq!(rt;
        (many.code, many.detail, many.place, many.length),
        (3, 0, 0, 0)
    );
    assert_eq!(rt; bser_canonical(alloc, &bytes, &mut out).code, 2);
    bytes[619] = 0x14;
    let wrong = bser_compact(alloc, &bytes, &mut out);
    assert_eq!(rt; (wrong.code, wrong.detail, wrong.place), (16, 0x14, 619));
}

/// A `Value` of so many skipped fields is counted as 896 bytes for each of their maps with its key,
/// and for one more, 66 for each row and for the key, 4 for each of the 20 bytes and a byte for each
/// row, and 72, 448, 2,000 and 1,024 for the list, two open containers, its pieces and the calls:
/// 966 for each row and 4,586. Of 525 rows that is 511,736, and of 526 it is 512,702.
#[test]
fn compact_at_the_border_of_memory(rt: HostRuntime) {
    let alloc = rt.alloc();
    let mut bytes = [0x0cu8; 546];
    bytes[..20].copy_from_slice(
        b"\x00\x02\x00\x00\x00\x00\x04\x18\x02\x0b\x00\x03\x01\x0d\x03\x01a\x04\x0d\x02",
    );
    check_wanted(&rt, bser_compact(alloc, &bytes[..545], &mut []), 545);
    bytes[7] = 0x19;
    bytes[18] = 0x0e;
    let many = bser_compact(alloc, &bytes, &mut []);
    assert_eq!(rt;
        (many.code, many.detail, many.place, many.length),
        (3, 0, 0, 0)
    );
}

#[test]
fn descriptions(rt: HostRuntime) {
    let alloc = rt.alloc();
    let wrong = b"\x00\x02\x00\x00\x00\x00\x03\x08\x00\x03\x03\x03\x01\x14\x03\x02";
    let line = b"unknown byte 0x14 where a value is wanted, at byte 13, in [1]";
    let mut out = [7u8; 80];
    let whole = bser_describe(alloc, wrong, &mut out);
    check_written(&rt, whole, &out, line);
    let mut small = [7u8; 60];
    check_wanted(&rt, bser_describe(alloc, wrong, &mut small), line.len());
    let mut half = [7u8; 30];
    check_wanted(&rt, bser_describe(alloc, wrong, &mut half), line.len());
    check_wanted(&rt, bser_describe(alloc, wrong, &mut []), line.len());
    let mut none = [7u8; 80];
    let nothing = bser_describe(alloc, ROWS, &mut none);
    check_written(&rt, nothing, &none, b"");
}
