//! Messages whose events go to a builder, which counts them and looks at their places.
ghost use Rattle.std.specs.Prelude.{◌≤◌};

use super::{FIVE, MIXED, NUMBERS, VERSION};
use crate::tests::messages::one_by_one;
use bser_source::device::{Source, Watched};
use bser_vectors::messages::ROWS;
use bser_vectors::witness::Witness;
use serde_bser::tell::{Header, Limits, TellError, from_slice, next_message};
use std::alloc::{AllocError, Global};
use std::process::Abort;
use std::rt::HostRuntime;

/// Any number of events.
const ALL: usize = usize::MAX;

/// The header of a message whose body has so many bytes, below 128.
fn short_header(len: usize) -> Header {
    Header {
        capabilities: 0,
        start: 8,
        len,
    }
}

/// Checks that the builder takes so many events of a message, each in its place, and the last
/// before the message's end.
fn check_told(rt: &impl Abort, alloc: Global, message: &[u8], events: usize) {
    let mut witness = Witness::new(message, ALL);
    let answer = from_slice(alloc, Limits::new(), message, &mut witness);
    let header = answer.expect(rt, "the message is told");
    assert_eq!(rt; header.message_length(), message.len());
    assert_eq!(rt; witness.taken, events);
    assert_eq!(rt; witness.end, message.len());
    assert!(rt; witness.in_place);
}

#[test]
fn each_event_is_told_in_its_place(rt: HostRuntime) {
    check_told(&rt, rt.alloc(), VERSION, 4);
    check_told(&rt, rt.alloc(), ROWS, 12);
}

/// Checks how an error is printed.
fn check_error<T: Drop>(
    rt: &impl Abort,
    alloc: Global,
    answer: Result<T, TellError>,
    expected: &str,
) -> TellError {
    match answer {
        Ok(_) => rt.abort(),
        Err(error) => {
            let printed = format!(in alloc; "{error}").expect(rt, "memory is left");
            assert_eq!(rt; printed.as_str(), expected);
            error
        }
    }
}

#[test]
fn a_builder_that_wants_no_more_is_named(rt: HostRuntime) {
    let alloc = rt.alloc();
    let mut witness = Witness::new(ROWS, 2);
    let answer = from_slice(alloc, Limits::new(), ROWS, &mut witness);
    let error = check_error(&rt, alloc, answer, "stopped by the builder, at byte 27");
    assert_eq!(rt; error.given, ROWS.len());
    assert_eq!(rt; witness.taken, 2);
}

/// A message of an array of a byte string of 5000 bytes and a text of as many.
fn long_strings(alloc: Global) -> Result<Vec<u8>, AllocError> {
    let head = b"\x00\x02\0\0\0\0\x04\x1b\x27\x00\x03\x02\x02\x04\x88\x13";
    let mut message = Vec::from_slice(alloc, head)?;
    message.resize(5016, 0xff)?;
    message.extend_from_slice(b"\x0d\x04\x88\x13")?;
    message.resize(10_020, b'a')?;
    Ok(message)
}

/// How many events are taken, and how the error is printed.
static STOPPED: [(usize, &str); 2] = [
    (1, "stopped by the builder, at byte 5016"),
    (2, "stopped by the builder, at byte 10020"),
];

#[test]
fn long_strings_of_a_reader_are_told_in_their_places(rt: HostRuntime) {
    let alloc = rt.alloc();
    let message = long_strings(alloc).expect(&rt, "memory is left");
    let mut witness = Witness::new(&message, ALL);
    let mut reader = Watched::new(message.as_slice());
    let answer = next_message(alloc, Limits::new(), &mut reader, &mut witness);
    assert!(rt; answer.expect(&rt, "the message is told").is_some());
    assert_eq!(rt; witness.taken, 4);
    assert!(rt; witness.in_place);
    for (most, expected) in &STOPPED {
        let mut reader = Watched::new(message.as_slice());
        let answer = tell_next(alloc, Limits::new(), &mut reader, *most);
        check_error(&rt, alloc, answer, expected);
    }
}

/// Gives the reader's next message to a builder that takes at most `most` events.
fn tell_next<S: Source>(
    alloc: Global,
    limits: Limits,
    reader: &mut S,
    most: usize,
) -> Result<Option<Header>, TellError>
    requires { limits.levels ≤ 1024 }
{
    next_message(alloc, limits, reader, &mut Witness::new(b"", most))
}

/// Checks that the builder takes the next message, and what its header is.
fn check_next<S: Source>(rt: &impl Abort, alloc: Global, reader: &mut S, expected: Option<Header>) {
    let answer = tell_next(alloc, Limits::new(), reader, ALL);
    assert!(rt; answer.expect(rt, "the message is told") == expected);
}

/// Checks how the first message fails, and that the reader is at the next one then.
fn check_skipped(
    rt: &impl Abort,
    alloc: Global,
    bytes: &[u8],
    limits: Limits,
    expected: &str,
    next: Header,
)
    requires { limits.levels ≤ 1024 }
{
    let mut reader = one_by_one(bytes);
    let error = check_error(
        rt,
        alloc,
        tell_next(alloc, limits, &mut reader, 0),
        expected,
    );
    assert!(rt;
        error
            .skip_rest(alloc, &mut reader)
            .expect(rt, "the reader gives all")
    );
    check_next(rt, alloc, &mut reader, Some(next));
}

#[test]
fn a_message_is_passed_over_after_its_error(rt: HostRuntime) {
    let stopped = "stopped by the builder, at byte 10";
    check_skipped(&rt, rt.alloc(), MIXED, FIVE, stopped, short_header(3));
    let long = "5 bytes announced, and at most 4 are taken, at byte 8";
    let four = Limits {
        levels: 128,
        bytes: 4,
    };
    check_skipped(&rt, rt.alloc(), NUMBERS, four, long, short_header(3));
}
