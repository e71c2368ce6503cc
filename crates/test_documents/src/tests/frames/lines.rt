//! What each call answers, and how far the reader was asked.
use super::{check_lines, frames_of};
use bser_vectors::devices::Plan;
use std::alloc::Global;
use std::process::Abort;

/// The bytes of a reader, how many bytes a body may have, and what the calls answer, whether the
/// reader gives one byte a call or all.
struct StreamCase {
    bytes: &'static [u8],
    most: usize,
    lines: &'static [&'static str],
}

static STREAMS: [StreamCase; 7] = [
    // a text in a body of 15 bytes announces 8000: the message ends where its header says
    StreamCase {
        bytes: b"\x00\x02\0\0\0\0\x03\x02\x03\x05\
                 \x00\x02\0\0\0\0\x03\x0f\x01\x03\x01\x0d\x03\x03log\x0d\x04\x40\x1fhi\
                 \x00\x02\0\0\0\0\x03\x02\x03\x06",
        most: 1000,
        lines: &[
            "0+10, asked 10: 5",
            "10+23, asked 33: end of input, at byte 23",
            "33+10, asked 43: 6",
            "43+0, asked 51: the end",
            "43+0, asked 51: the end",
        ],
    },
    // a text in a body of 8 bytes announces 100,000
    StreamCase {
        bytes: b"\x00\x02\0\0\0\0\x03\x08\x0d\x05\xa0\x86\x01\x00xy\
                 \x00\x02\0\0\0\0\x03\x02\x03\x06",
        most: 100,
        lines: &[
            "0+16, asked 16: end of input, at byte 16",
            "16+10, asked 26: 6",
            "26+0, asked 34: the end",
        ],
    },
    // a header announces 200 bytes, and at most 100 are taken: it is asked for no byte more
    StreamCase {
        bytes: b"\x00\x02\0\0\0\0\x04\xc8\x00\x00\x03\x02\x03\x05\x03\x05",
        most: 100,
        lines: &[
            "0+9, asked 9: 200 bytes announced, and at most 100 are taken",
            "0+9, asked 9: 200 bytes announced, and at most 100 are taken",
        ],
    },
    StreamCase {
        bytes: b"\x00\x02\0\0\0\0\x05\xa0\x86\x01\x00\x03\x05",
        most: 100,
        lines: &["0+11, asked 11: 100000 bytes announced, and at most 100 are taken"],
    },
    // a body may be as long as the limit
    StreamCase {
        bytes: b"\x00\x02\0\0\0\0\x06\x02\0\0\0\0\0\0\0\x03\x05\x00\x02\0\0\0\0\x03\x03\x04\x05\x00",
        most: 2,
        lines: &[
            "0+17, asked 17: 5",
            "17+8, asked 25: 3 bytes announced, and at most 2 are taken",
        ],
    },
    // a body that is longer than its value, and one without a value
    StreamCase {
        bytes: b"\x00\x02\0\0\0\0\x03\x04\x03\x05\x03\x06\x00\x02\0\0\0\0\x03\x00",
        most: 100,
        lines: &[
            "0+12, asked 12: 4 bytes announced, 2 there, at byte 10",
            "12+8, asked 20: end of input, at byte 8",
            "20+0, asked 28: the end",
        ],
    },
    // the length of a body is no integer, or below 0
    StreamCase {
        bytes: b"\x00\x02\0\0\0\0\x0a",
        most: 100,
        lines: &[
            "0+7, asked 8: no message: while deserializing BSER: invalid start byte for integer: BSER_NULL",
        ],
    },
];

/// Checks the row over a reader that gives its bytes by the plan.
fn check_row(rt: &impl Abort, alloc: Global, row: &StreamCase, plan: Plan) {
    check_lines(
        rt,
        alloc,
        &mut frames_of(alloc, row.most, row.bytes, plan),
        row.lines,
    );
}

#[test]
fn a_frame_is_what_its_header_announces(rt: HostRuntime) {
    for row in &STREAMS {
        check_row(&rt, rt.alloc(), row, Plan::whole());
        check_row(&rt, rt.alloc(), row, Plan::pieces(1));
    }
}

#[test]
fn what_is_no_header_is_named_at_once(rt: HostRuntime) {
    let alloc = rt.alloc();
    let line = "0+2, asked 8: no message: Invalid magic header: [104, 101]";
    let mut frames = frames_of(alloc, 100, b"hello", Plan::pieces(2));
    check_lines(&rt, alloc, &mut frames, &[line, line]);
}
