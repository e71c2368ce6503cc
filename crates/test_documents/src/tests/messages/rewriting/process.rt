//! Tests of the program over what a process gives it.
use super::memory;
use crate::tests::messages::check_bytes;
use bser_canonical::process::{Arguments, Finish, process};
use bser_source::device::{Sink, Watched};
use bser_vectors::messages::NULL;
use std::alloc::Global;
use std::env::FillError;
use std::io;
use std::io::{ErrorKind, Write};
use std::process::{Abort, ExitCode};

/// Arguments that a test gives.
#[derive(Clone, Copy, Drop)]
struct TestArguments<'a> {
    words: &'a [&'a [u8]],
}

impl Arguments for TestArguments<'_> {
    ghost use Rattle.std.specs.Prelude.{None};

    ghost given = { λ _. None };

    fn argument(&self, place: usize, bytes: &mut [u8]) -> Result<usize, FillError> {
        let Some(word) = self.words.get(place) else {
            return Err(FillError::NotPresent);
        };
        if word.len() > bytes.len() {
            return Err(FillError::TooLong);
        }
        bytes[..word.len()].copy_from_slice(word);
        Ok(word.len())
    }
}

/// An argument of 65 bytes.
const LONG: &[u8] = b"-----------------------------------------------------------------";

/// A writer that takes all, and fails where it is flushed.
#[derive(Drop)]
struct Unflushed;

impl Write for Unflushed {
    fn write(&mut self, bytes: &[u8]) -> io::Result<usize> {
        Ok(bytes.len())
    }

    fn flush(&mut self) -> io::Result<()> {
        Err(io::Error::new(ErrorKind::Other, "unflushed"))
    }
}

/// Checks the status and the line of the program over this writer.
fn check_ending<W: Sink + Finish + Drop>(
    rt: &impl Abort,
    alloc: Global,
    words: &[&[u8]],
    input: &[u8],
    writer: W,
    expected: (u8, &[u8]),
) {
    let mut errors = memory(alloc);
    let mut reader = Watched::new(input);
    let code = process(
        alloc,
        &TestArguments { words },
        &mut reader,
        writer,
        &mut errors,
    );
    let reported = errors.get_ref().as_slice();
    assert_eq!(rt; (code, reported), (ExitCode::from(expected.0), expected.1));
}

/// The status and the line.
type Ending = (u8, &'static [u8]);

/// Checks the status, the line and what is written.
fn check_process(
    rt: &impl Abort,
    alloc: Global,
    words: &[&[u8]],
    input: &[u8],
    ending: Ending,
    expected: &[u8],
) {
    let mut written = Vec::new(alloc);
    let writer = Watched::new(&mut written);
    check_ending(rt, alloc, words, input, writer, ending);
    check_bytes(rt, written.as_slice(), expected);
}

/// The ending where an argument is not known.
const UNKNOWN: Ending = (2, b"bser_canon: unknown argument\n");

/// Arguments, the input, the ending and what is written.
static ENDINGS: [(&[&[u8]], &[u8], Ending, &[u8]); 10] = [
    (&[], NULL, (0, b""), NULL),
    (&[b"--compact"], NULL, (0, b""), NULL),
    // what is cut
    (
        &[],
        b"\x00\x02\x00\x00\x00\x00\x05\x28\x00",
        (1, b"bser_canon: reader error while deserializing\n"),
        b"",
    ),
    (&[b""], NULL, UNKNOWN, b""),
    (&[b"-"], NULL, UNKNOWN, b""),
    (&[b"\xff"], NULL, UNKNOWN, b""),
    (&[b"--compact\xff"], NULL, UNKNOWN, b""),
    (&[LONG], NULL, UNKNOWN, b""),
    (&[b"--compact", b"x"], NULL, UNKNOWN, b""),
    (
        &[b"--compact", b"--compact", b"--compact"],
        NULL,
        UNKNOWN,
        b"",
    ),
];

#[test]
fn a_process_ends_with_status_0_1_or_2(rt: HostRuntime) {
    for (words, input, ending, written) in &ENDINGS {
        check_process(&rt, rt.alloc(), words, input, *ending, written);
    }
}

#[test]
fn a_fault_of_the_last_flush_ends_with_status_1(rt: HostRuntime) {
    let reported = b"bser_canon: IO Error\n";
    let writer = Watched::new(Unflushed);
    check_ending(&rt, rt.alloc(), &[], NULL, writer, (1, reported));
}
