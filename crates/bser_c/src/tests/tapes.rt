//! Tapes, and their messages.
use super::{TAPE, TEMPLATE, check_wanted, check_written};
use crate::bser_of_tape;
use std::alloc::Global;
use std::process::Abort;

/// Checks that the words are no tape from this one on.
fn check_invalid(rt: &impl Abort, alloc: Global, words: &[u64], strings: &[u8], place: usize) {
    let mut out = [0u8; 600];
    let outcome = bser_of_tape(alloc, words, strings, &mut out);
    assert_eq!(rt;
        (outcome.code, outcome.place, outcome.length),
        (4, place, 0)
    );
}

#[test]
fn a_template(rt: HostRuntime) {
    let alloc = rt.alloc();
    let expected =
        b"\x00\x02\x00\x00\x00\x00\x03\x11\x0b\x00\x03\x02\x0d\x03\x01a\x02\x03\x01b\x03\x01\x03\x02\x0c";
    let mut out = [7u8; 40];
    let whole = bser_of_tape(alloc, &TAPE, TEMPLATE, &mut out);
    check_written(&rt, whole, &out, expected);
    let mut small = [7u8; 24];
    check_wanted(&rt, bser_of_tape(alloc, &TAPE, TEMPLATE, &mut small), 25);
    let mut half = [7u8; 12];
    check_wanted(&rt, bser_of_tape(alloc, &TAPE, TEMPLATE, &mut half), 25);
    check_wanted(&rt, bser_of_tape(alloc, &TAPE, TEMPLATE, &mut []), 25);
}

#[test]
fn scalars(rt: HostRuntime) {
    let alloc = rt.alloc();
    let mut out = [7u8; 60];
    let words = [
        0x600,
        0,
        0x08,
        0,
        0x09,
        0,
        0x0a,
        0,
        0x06,
        u64::MAX - 128,
        0x07,
        0x3ff8000000000000,
        0x102,
        1,
        0x11,
        0,
    ];
    let expected =
        b"\x00\x02\x00\x00\x00\x00\x03\x16\x00\x03\x06\x08\x09\x0a\x04\x7f\xff\x07\x00\x00\x00\x00\x00\x00\xf8\x3f\x02\x03\x01b";
    check_written(
        &rt,
        bser_of_tape(alloc, &words, b"abc", &mut out),
        &out,
        expected,
    );
}

#[test]
fn objects(rt: HostRuntime) {
    let alloc = rt.alloc();
    let mut out = [7u8; 60];
    let words = [
        0x201, 0, 0x10e, 0, 0x20d, 1, 0x10f, 2, 0x00, 0, 0x11, 0, 0x11, 0,
    ];
    let expected =
        b"\x00\x02\x00\x00\x00\x00\x03\x13\x01\x03\x02\x0d\x03\x01a\x0d\x03\x02bc\x02\x03\x01c\x00\x03\x00";
    check_written(
        &rt,
        bser_of_tape(alloc, &words, b"abc", &mut out),
        &out,
        expected,
    );
}

#[test]
fn no_tapes(rt: HostRuntime) {
    let alloc = rt.alloc();
    check_invalid(&rt, alloc, &[], b"", 0);
    check_invalid(&rt, alloc, &[0x0a], b"", 0);
    check_invalid(&rt, alloc, &[0x0a, 0, 0x0a], b"", 2);
    check_invalid(&rt, alloc, &[0x0a, 0, 0x0a, 0], b"", 2);
    check_invalid(&rt, alloc, &[0x0a, 1], b"", 0);
    check_invalid(&rt, alloc, &[0x12, 0], b"", 0);
    check_invalid(&rt, alloc, &[0x0c, 0], b"", 0);
    check_invalid(&rt, alloc, &[0x10a, 0], b"", 0);
    check_invalid(&rt, alloc, &[0x100, 0, 0x0a, 0], b"", 4);
    check_invalid(&rt, alloc, &[0x100, 0, 0x11, 0, 0x0a, 0], b"", 2);
    check_invalid(&rt, alloc, &[0x202, 1], b"ab", 0);
    check_invalid(&rt, alloc, &[0x102, u64::MAX], b"ab", 0);
    check_invalid(&rt, alloc, &[u64::MAX - 0xfd, 1], b"ab", 0);
    check_invalid(&rt, alloc, &[0x10d, 0], b"\xff", 0);
    check_invalid(
        &rt,
        alloc,
        &[0x101, 0, 0x10f, 0, 0x0a, 0, 0x11, 0],
        b"\xff",
        2,
    );
}

#[test]
fn most_levels(rt: HostRuntime) {
    let mut words = [0u64; 514];
    for i in 0..128 {
        words[2 * i] = 0x100;
        words[512 - 2 * i] = 0x11;
    }
    words[256] = 0x0a;
    let mut out = [0u8; 600];
    let outcome = bser_of_tape(rt.alloc(), &words, b"", &mut out);
    assert_eq!(rt; (outcome.code, outcome.length), (0, 8 + 1 + 3 * 128 + 1));
}

#[test]
fn a_level_too_many(rt: HostRuntime) {
    let mut words = [0u64; 518];
    for i in 0..129 {
        words[2 * i] = 0x100;
        words[516 - 2 * i] = 0x11;
    }
    words[258] = 0x0a;
    check_invalid(&rt, rt.alloc(), &words, b"", 256);
}
