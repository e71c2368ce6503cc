//! Writing where an allocation fails.
use crate::types::FileRef;
use bser_serde::{Bytes, to_vec};
use serde::Serialize;
use serde_bser::errors::Error;
use std::process::Abort;

/// A struct that owns nothing, with the fields of another among its own.
#[derive(Drop, Serialize)]
#[serde(rename_all = "camelCase")]
struct LentClock<'a> {
    the_clock: &'a str,
    #[serde(flatten)]
    file: FileRef<'a>,
    numbers: &'a [i64],
}

/// How the message of such a struct begins.
const BEGINNING: [u8; 48] = [
    0, 2, 0, 0, 0, 0, 4, 0xd1, 0, 1, 3, 4, 13, 3, 8, b't', b'h', b'e', b'C', b'l', b'o', b'c',
    b'k', 13, 3, 5, b'c', b':', b'1', b':', b'2', 13, 3, 4, b'n', b'a', b'm', b'e', 2, 4, 0x82, 0,
    b'x', b'x', b'x', b'x', b'x', b'x',
];

/// Checks that the error is that an allocation failed, which is so only where one is made to.
fn check_memory(rt: &impl Abort, error: &Error) {
    assert!(rt; matches!(error, Error::OutOfMemory));
}

#[test]
fn written_or_out_of_memory(rt: HostRuntime) {
    let alloc = rt.alloc();
    let name = [b'x'; 130];
    let clock = LentClock {
        the_clock: "c:1:2",
        file: FileRef {
            name: Bytes(&name),
            size: 70_000,
        },
        numbers: &[1, -2, 300, -70_000, 5_000_000_000],
    };
    match to_vec(alloc, &clock) {
        Ok(message) => assert!(rt; message.as_slice().starts_with(&BEGINNING)),
        Err(error) => check_memory(&rt, &error),
    }
}

#[test]
fn refused_or_out_of_memory(rt: HostRuntime) {
    match to_vec(rt.alloc(), &u64::MAX) {
        Ok(_message) => assert!(rt; false),
        Err(Error::SerU64TooBig { v }) => assert!(rt; v == u64::MAX),
        Err(error) => check_memory(&rt, &error),
    }
}
