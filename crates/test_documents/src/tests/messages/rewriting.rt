//! Tests of the engine, and of the program over streams in memory: faults, and the lines that are
//! written of errors.
mod process;

use super::check_bytes;
use crate::tests::check_debug;
use bser_canonical::engine::canon;
use bser_canonical::program::run;
use bser_source::device::{Sink, Watched};
use bser_vectors::devices::{Plan, PlannedReader, PlannedWriter, Then};
use bser_vectors::messages::{COMPACT_ROWS, NULL, ROWS};
use std::alloc::Global;
use std::io::ErrorKind;
use std::process::Abort;

/// A writer whose every call fails.
fn full(alloc: Global) -> Watched<PlannedWriter> {
    let plan = Plan::whole().up_to(0, Then::Faults(ErrorKind::Other));
    Watched::new(PlannedWriter::new(alloc, plan))
}

fn memory(alloc: Global) -> Watched<Vec<u8>> {
    Watched::new(Vec::new(alloc))
}

/// The words as arguments.
fn arguments(rt: &impl Abort, alloc: Global, words: &[&str]) -> Vec<String> {
    let mut args = Vec::new(alloc);
    for word in words {
        let word = String::from_str(alloc, word).expect(rt, "memory is left");
        args.push(word).expect(rt, "memory is left");
    }
    args
}

/// Runs the program with these words as arguments, and checks its status and what it leaves of its
/// input.
fn check_status<W: Sink, E: Sink>(
    rt: &impl Abort,
    alloc: Global,
    words: &[&str],
    input: &[u8],
    writer: &mut W,
    errors: &mut E,
    expected: (u8, &[u8]),
) {
    let args = arguments(rt, alloc, words);
    let mut reader = Watched::new(input);
    let status = run(alloc, &args, &mut reader, writer, errors);
    assert_eq!(rt; (status, *reader.get_ref()), expected);
}

/// What the program answers, what it leaves of its input, and what it writes as output and as
/// errors.
type Outcome = (u8, &'static [u8], &'static [u8], &'static [u8]);

/// Runs the program with these words as arguments, and checks the outcome.
fn check_run(rt: &impl Abort, alloc: Global, words: &[&str], input: &[u8], outcome: &Outcome) {
    let (status, left, written, reported) = *outcome;
    let mut output = memory(alloc);
    let mut errors = memory(alloc);
    check_status(
        rt,
        alloc,
        words,
        input,
        &mut output,
        &mut errors,
        (status, left),
    );
    check_bytes(rt, output.get_ref().as_slice(), written);
    check_bytes(rt, errors.get_ref().as_slice(), reported);
}

/// The outcome where an argument is not known: nothing is read.
const UNKNOWN: Outcome = (2, NULL, b"", b"bser_canon: unknown argument\n");

/// Arguments, the input, and the outcome.
static RUNS: [(&[&str], &[u8], Outcome); 10] = [
    (&[], NULL, (0, b"", NULL, b"")),
    (
        &[],
        b"",
        (
            1,
            b"",
            b"",
            b"bser_canon: reader error while deserializing\n",
        ),
    ),
    (&["--compact"], ROWS, (0, b"", COMPACT_ROWS, b"")),
    (&["x"], NULL, UNKNOWN),
    (&["--compact", "--compact"], NULL, UNKNOWN),
    (&["--compact", "x"], NULL, UNKNOWN),
    (&["x", "--compact"], NULL, UNKNOWN),
    (&["--compac"], NULL, UNKNOWN),
    (&["--compact "], NULL, UNKNOWN),
    (&[""], NULL, UNKNOWN),
];

#[test]
fn a_message_is_rewritten_refused_or_left_for_an_unknown_argument(rt: HostRuntime) {
    for (words, input, outcome) in &RUNS {
        check_run(&rt, rt.alloc(), words, input, outcome);
    }
}

#[test]
fn a_writer_that_fails_is_an_io_error(rt: HostRuntime) {
    let alloc = rt.alloc();
    let mut errors = memory(alloc);
    let expected = (1, b"".as_slice());
    check_status(
        &rt,
        alloc,
        &[],
        NULL,
        &mut full(alloc),
        &mut errors,
        expected,
    );
    check_bytes(&rt, errors.get_ref().as_slice(), b"bser_canon: IO Error\n");
}

/// Checks that the fault of a reader that breaks after so many bytes of the rows is answered, and
/// that nothing is written.
fn check_broken(rt: &impl Abort, alloc: Global, given: usize, most: usize) {
    let plan = Plan::pieces(most).up_to(given, Then::Faults(ErrorKind::BrokenPipe));
    let mut reader = Watched::new(PlannedReader::new(ROWS, plan));
    let mut writer = memory(alloc);
    let answer = canon(alloc, &mut reader, &mut writer);
    let fault = "Err(DeReaderError { source: Reader(Kind(BrokenPipe)) })";
    check_debug(rt, alloc, answer, fault);
    assert!(rt; writer.get_ref().is_empty(), "after {given} bytes");
}

#[test]
fn a_reader_that_breaks_at_any_byte_leaves_the_writer_untouched(rt: HostRuntime) {
    for given in 0..ROWS.len() {
        check_broken(&rt, rt.alloc(), given, 1);
        check_broken(&rt, rt.alloc(), given, usize::MAX);
    }
}
