//! Types that are read from readers that fault.
use super::checks::check_equal;
use bser_vectors::devices::{Plan, Then};
use bser_vectors::messages::{PI, ROWS};
use bser_vectors::structs::TemplateRow;
use bser_vectors::ways::read_by_plan;
use serde_bser::de::{DeserializeOwned, Ignored};
use serde_bser::errors::{Error, ReadCause, Result};
use serde_bser::value::Value;
use std::alloc::Global;
use std::collections::BTreeMap;
use std::io::ErrorKind;
use std::process::Abort;

/// The kind of the reader's fault, where it is handed on.
fn fault<T>(answer: &Result<T>) -> Option<ErrorKind> {
    match answer {
        Err(
            Error::DeReaderError {
                source: ReadCause::Reader(fault),
            },
        ) => Some(fault.kind()),
        _ => None,
    }
}

/// Checks that a fault after each byte of the message is handed on, and that the bytes before it
/// were taken, and no more.
fn check_faults_by<T: DeserializeOwned>(
    rt: &impl Abort,
    alloc: Global,
    message: &[u8],
    most: usize,
    (then, kind): (Then, ErrorKind),
) {
    for whole in 0..message.len() {
        let plan = Plan::pieces(most).up_to(whole, then);
        let (answer, taken) = read_by_plan::<T>(alloc, message, plan);
        check_equal(rt, &(fault(&answer), taken), &(Some(kind), whole));
    }
}

/// Faults, and the kind that is handed on. A reader that is interrupted once is not read again: its
/// next call would give the byte.
static FAULTS: [(Then, ErrorKind); 3] = [
    (Then::Faults(ErrorKind::Interrupted), ErrorKind::Interrupted),
    (Then::Faults(ErrorKind::BrokenPipe), ErrorKind::BrokenPipe),
    (
        Then::FaultsOnce(ErrorKind::Interrupted),
        ErrorKind::Interrupted,
    ),
];

/// Checks each of the faults, of readers that give at most so many bytes a call.
fn check_faults<T: DeserializeOwned>(rt: &impl Abort, alloc: Global, message: &[u8]) {
    for fault in &FAULTS {
        for most in &[1, 3, usize::MAX] {
            check_faults_by::<T>(rt, alloc, message, *most, *fault);
        }
    }
}

#[test]
fn a_fault_at_each_byte_is_handed_on(rt: HostRuntime) {
    let alloc = rt.alloc();
    check_faults::<Value>(&rt, alloc, PI);
    check_faults::<Value>(&rt, alloc, ROWS);
    check_faults::<Vec<TemplateRow<String>>>(&rt, alloc, ROWS);
    check_faults::<Vec<BTreeMap<String, Ignored>>>(&rt, alloc, ROWS);
    check_faults::<Ignored>(&rt, alloc, ROWS);
}
