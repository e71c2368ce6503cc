//! Each test makes some growths. Where all are granted its call gives the right answer. Run with one
//! of them refused, the call answers so, and the test answers that refusal as its own.
use super::{CANONICAL, ROWS};
use crate::{BserOutcome, bser_canonical, bser_compact, bser_describe, bser_of_tape, bser_tape};
use std::alloc::AllocError;
use std::process::Abort;
use std::test::Fail;

type Tested = std::result::Result<(), Fail>;

/// Checks that so much was written, or answers that memory was refused.
fn check_length(rt: &impl Abort, outcome: BserOutcome, length: usize) -> Tested {
    if outcome.code == 3 {
        assert_eq!(rt; outcome.length, 0);
        return Err(Fail::from(AllocError));
    }
    assert_eq!(rt; (outcome.code, outcome.length), (0, length));
    Ok(())
}

#[test]
fn tape_of_many_levels(rt: HostRuntime) -> Tested {
    let mut bytes = [0u8; 45];
    let mut words = [0u64; 52];
    bytes[1] = 2;
    bytes[6] = 3;
    bytes[7] = 37;
    for i in 0..12 {
        bytes[8 + 3 * i + 1] = 3;
        bytes[8 + 3 * i + 2] = 1;
    }
    bytes[44] = 0x0a;
    check_length(&rt, bser_tape(rt.alloc(), &bytes, &mut words), 50)
}

#[test]
fn message_of_a_tape(rt: HostRuntime) -> Tested {
    let mut words = [0u64; 50];
    for i in 0..12 {
        words[2 * i] = 0x100;
        words[48 - 2 * i] = 0x11;
    }
    words[24] = 0x0a;
    let mut out = [0u8; 60];
    check_length(&rt, bser_of_tape(rt.alloc(), &words, b"", &mut out), 45)
}

#[test]
fn canonical(rt: HostRuntime) -> Tested {
    let mut out = [0u8; 40];
    check_length(
        &rt,
        bser_canonical(rt.alloc(), ROWS, &mut out),
        CANONICAL.len(),
    )
}

#[test]
fn compact(rt: HostRuntime) -> Tested {
    let mut out = [0u8; 40];
    check_length(
        &rt,
        bser_compact(rt.alloc(), CANONICAL, &mut out),
        ROWS.len(),
    )
}

#[test]
fn description(rt: HostRuntime) -> Tested {
    let mut out = [0u8; 80];
    let wrong = b"\x00\x02\x00\x00\x00\x00\x03\x05\x00\x03\x01\x14\x0a";
    check_length(&rt, bser_describe(rt.alloc(), wrong, &mut out), 61)
}
