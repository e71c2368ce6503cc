//! Byte sources.
use crate::tests::readers::source_of;
use crate::tests::texts::is_printed;
use bser_source::read::DeRead;
use bser_source::slice_read::SliceRead;
use bser_source::text::as_text;
use std::alloc::Global;
use std::process::Abort;

/// A call, or what the scratch holds.
#[derive(Clone, Copy)]
enum SourceCall {
    /// The next byte, which is taken.
    Next,
    /// The next byte, which is not taken.
    Peek,
    /// The first two bytes, which are buffered, and of which one is taken.
    Buffered,
    /// A number of four bytes.
    U32,
    /// So many bytes, lent or copied.
    Bytes(usize),
    /// Why so many bytes are refused.
    Refusal(usize),
    /// How many bytes were taken.
    Count,
    Scratch,
    ScratchLen,
    /// Whether the scratch has room for little more than a window.
    IsScratchSmall,
}

/// A call, and how its answer is printed.
type Step = (SourceCall, &'static str);

fn are_buffered<R: DeRead>(text: &str, read: &mut R) -> bool {
    if read.fill(2).is_err() {
        return false;
    }
    let are_so = is_printed(&read.buffered()[..2], text);
    read.consume(1);
    are_so
}

fn are_bytes<R: DeRead>(len: usize, text: &str, scratch: &mut Vec<u8>, read: &mut R) -> bool {
    match read.next_bytes(len, scratch) {
        Ok(read) => is_printed(as_text(read.get_ref()), text),
        Err(cause) => is_printed(cause, text),
    }
}

fn is_answered<R: DeRead>(scratch: &mut Vec<u8>, (call, text): Step, read: &mut R) -> bool {
    match call {
        SourceCall::Next => is_printed(read.next(), text),
        SourceCall::Peek => is_printed(read.peek(), text),
        SourceCall::Buffered => are_buffered(text, read),
        SourceCall::U32 => is_printed(read.next_u32(scratch), text),
        SourceCall::Bytes(len) => are_bytes(len, text, scratch, read),
        SourceCall::Refusal(len) => is_printed(read.next_bytes(len, scratch).err(), text),
        SourceCall::Count => is_printed(read.read_count(), text),
        SourceCall::Scratch => is_printed(scratch.as_slice(), text),
        SourceCall::ScratchLen => is_printed(scratch.len(), text),
        SourceCall::IsScratchSmall => is_printed(scratch.capacity() <= 65_542, text),
    }
}

/// Checks that the source answers so step by step.
fn check_source<R: DeRead + Drop>(rt: &impl Abort, alloc: Global, steps: &[Step], mut read: R) {
    let mut scratch = Vec::new(alloc);
    for (at, step) in steps.iter().enumerate() {
        assert!(rt; is_answered(&mut scratch, *step, &mut read), "{at}");
    }
}

/// A slice, or a reader of at most so many bytes a call, which is interrupted after so many bytes.
#[derive(Clone, Copy)]
enum SourceKind {
    Slice,
    Reader(usize, usize),
}

fn check_steps(rt: &impl Abort, alloc: Global, (source, bytes, steps): Case) {
    match source {
        SourceKind::Slice => check_source(rt, alloc, steps, SliceRead::new(bytes)),
        SourceKind::Reader(most, whole) => {
            check_source(rt, alloc, steps, source_of(bytes, most, whole));
        }
    }
}

/// A source, its bytes, and what it answers.
type Case = (SourceKind, &'static [u8], &'static [Step]);

/// What is buffered is taken first.
const WINDOW: [Step; 7] = [
    (SourceCall::Peek, "Ok(97)"),
    (SourceCall::Count, "0"),
    (SourceCall::Bytes(0), "Some(\"\")"),
    (SourceCall::Buffered, "[97, 98]"),
    (SourceCall::U32, "Ok(1701077858)"),
    (SourceCall::Next, "Ok(102)"),
    (SourceCall::Count, "6"),
];

static CASES: [Case; 9] = [
    // an empty slice ends each time
    (
        SourceKind::Slice,
        b"",
        &[
            (SourceCall::Next, "Err(Eof)"),
            (SourceCall::Peek, "Err(Eof)"),
        ],
    ),
    // an empty reader ends and then has failed
    (
        SourceKind::Reader(9, 9),
        b"",
        &[
            (SourceCall::Next, "Err(Eof)"),
            (SourceCall::Peek, "Err(Failed)"),
        ],
    ),
    (SourceKind::Slice, b"abcdef", &WINDOW),
    (SourceKind::Reader(1, 9), b"abcdef", &WINDOW),
    (SourceKind::Reader(9, 9), b"abcdef", &WINDOW),
    // a slice lends and a reader copies
    (
        SourceKind::Slice,
        b"abc",
        &[
            (SourceCall::Bytes(2), "Some(\"ab\")"),
            (SourceCall::Scratch, "[]"),
        ],
    ),
    (
        SourceKind::Reader(9, 9),
        b"abc",
        &[
            (SourceCall::Bytes(2), "Some(\"ab\")"),
            (SourceCall::Scratch, "[97, 98]"),
        ],
    ),
    // a scratch grows only as bytes arrive
    (
        SourceKind::Reader(9, 9),
        b"abc",
        &[
            (SourceCall::Refusal(1 << 62), "Some(Eof)"),
            (SourceCall::IsScratchSmall, "true"),
        ],
    ),
    // an interruption is a fault
    (
        SourceKind::Reader(9, 2),
        b"\x00\x02\x00",
        &[
            (SourceCall::Next, "Ok(0)"),
            (SourceCall::Next, "Ok(2)"),
            (SourceCall::Next, "Err(Reader(Kind(Interrupted)))"),
            (SourceCall::Next, "Err(Failed)"),
        ],
    ),
];

/// Of 10,001 bytes one is taken, and then all others go to the scratch.
const GATHERED: [Step; 4] = [
    (SourceCall::Next, "Ok(7)"),
    (SourceCall::Refusal(10_000), "None"),
    (SourceCall::ScratchLen, "10000"),
    (SourceCall::Count, "10001"),
];

#[test]
fn a_source_gives_bytes_as_they_come_and_then_its_end_or_its_fault(rt: HostRuntime) {
    for case in &CASES {
        check_steps(&rt, rt.alloc(), *case);
    }
    let beyond_the_window = source_of(&[7u8; 10_001], 4099, 10_001);
    check_source(&rt, rt.alloc(), &GATHERED, beyond_the_window);
}
