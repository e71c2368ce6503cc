//! A message's parts as lists of calls and their answers, and how often a reader is called for them.
use crate::tests::readers::source_of;
use crate::tests::texts::is_printed;
use bser_bunser::bunser::{Bunser, PduInfo};
use bser_bunser::prefix::{Look, Token};
use bser_source::read::DeRead;
use bser_source::slice_read::SliceRead;
use bser_source::text::as_text;
use bser_vectors::devices::PlannedReader;
use std::alloc::Global;
use std::process::Abort;

/// A call.
#[derive(Clone, Copy)]
enum WindowCall {
    /// A head: its capabilities, the length of its body, and where that starts.
    Head,
    /// An integer of any width.
    Int,
    /// An integer of one byte, after its tag.
    I8,
    /// An integer of two bytes, after its tag.
    I16,
    /// An integer of four bytes, after its tag.
    I32,
    /// An integer of eight bytes, after its tag.
    I64,
    /// The bits of a real, after its tag.
    Real,
    /// The bits of a real, after its tag, where an error is kept.
    Bits,
    /// An integer of any width, where an error is kept.
    Look,
    /// An integer of which nine bytes are buffered.
    Buffered,
    /// A string's head: whether it has the tag of a text, and its length.
    Token,
    /// The length and the bytes of a string.
    Str,
    /// The length and the bytes of a string, as a copy.
    Copy,
    /// So many bytes.
    Bytes(i64),
    /// So many bytes are passed over.
    Pass(usize),
    /// The next byte, which is not taken.
    Peek,
    /// The next byte, which is taken.
    Byte,
    /// How many bytes were taken.
    Count,
    /// The end of the body that the last head announced.
    End,
}

/// A call, and how its answer is printed.
type Step = (WindowCall, &'static str);

/// Whether a byte is next, and what is taken from it on is this.
fn is_taken<R: DeRead>((call, text): Step, from: &mut Bunser<R>) -> bool {
    let Ok(tag) = from.peek() else {
        return false;
    };
    match call {
        WindowCall::I8 => tag == 0x03 && is_printed(from.next_i8(), text),
        WindowCall::I16 => tag == 0x04 && is_printed(from.next_i16(), text),
        WindowCall::I32 => tag == 0x05 && is_printed(from.next_i32(), text),
        WindowCall::I64 => tag == 0x06 && is_printed(from.next_i64(), text),
        WindowCall::Real => tag == 0x07 && is_printed(from.next_f64(), text),
        WindowCall::Bits => tag == 0x07 && is_printed(from.next_bits(), text),
        _ => {
            from.discard();
            is_printed(tag, text)
        }
    }
}

fn are_bytes<R: DeRead>(alloc: Global, len: i64, text: &str, from: &mut Bunser<R>) -> bool {
    let mut scratch = Vec::new(alloc);
    match from.read_bytes(len, &mut scratch) {
        Ok(read) => is_printed(as_text(read.get_ref()), text),
        Err(error) => is_printed(error, text),
    }
}

fn is_string<R: DeRead>(alloc: Global, text: &str, from: &mut Bunser<R>) -> bool {
    let mut scratch = Vec::new(alloc);
    match from.next_string(&mut scratch) {
        Ok(read) => is_printed(as_text(read.get_ref()), text),
        Err(refused) => is_printed(refused, text),
    }
}

/// Whether what is taken at once is this: a string's head, or an integer.
fn is_piece<R: DeRead>((call, text): Step, from: &mut Bunser<R>) -> bool {
    match call {
        WindowCall::Token => match from.token() {
            Ok(Token::Str { is_text, len }) => is_printed((is_text, len), text),
            _ => false,
        },
        WindowCall::Look => match from.next_int() {
            Ok(Look::Taken(number)) => is_printed(number, text),
            _ => false,
        },
        _ => from.fill(9).is_ok() && is_printed(from.buffered_int(), text),
    }
}

fn is_head<R: DeRead>(info: &mut PduInfo, text: &str, from: &mut Bunser<R>) -> bool {
    match from.read_pdu() {
        Ok(head) => {
            *info = head;
            is_printed((head.bser_capabilities, head.len, head.start), text)
        }
        Err(error) => is_printed(error, text),
    }
}

fn is_answered<R: DeRead>(
    alloc: Global,
    info: &mut PduInfo,
    (call, text): Step,
    from: &mut Bunser<R>,
) -> bool {
    match call {
        WindowCall::Head => is_head(info, text, from),
        WindowCall::Int => is_printed(from.check_next_int(), text),
        WindowCall::Copy => is_printed(from.next_copy(alloc), text),
        WindowCall::Str => is_string(alloc, text, from),
        WindowCall::Token | WindowCall::Look | WindowCall::Buffered => {
            is_piece((call, text), from)
        }
        WindowCall::Bytes(len) => are_bytes(alloc, len, text, from),
        WindowCall::Pass(len) => is_printed(from.pass(len), text),
        WindowCall::Peek => is_printed(from.peek(), text),
        WindowCall::Count => is_printed(from.read_count(), text),
        WindowCall::End => is_printed(from.end(info), text),
        _ => is_taken((call, text), from),
    }
}

/// Checks that the source answers so step by step, and gives it back.
fn check_source<R: DeRead + Drop>(rt: &impl Abort, alloc: Global, steps: &[Step], read: R) -> R {
    let mut info = PduInfo {
        bser_capabilities: 0,
        len: 0,
        start: 0,
    };
    let mut from = Bunser::new(alloc, read);
    for (at, step) in steps.iter().enumerate() {
        assert!(rt; is_answered(alloc, &mut info, *step, &mut from), "{at}");
    }
    from.into_inner()
}

/// Checks that a reader of so many bytes a call, which is interrupted after `whole` bytes, answers
/// so step by step, and gives it back.
fn check_reader<'a>(
    rt: &impl Abort,
    alloc: Global,
    steps: &[Step],
    bytes: &'a [u8],
    (most, whole): (usize, usize),
) -> PlannedReader<'a> {
    let read = check_source(rt, alloc, steps, source_of(bytes, most, whole));
    read.into_inner().into_inner()
}

/// An array of null, true, -2, a real, `abc` under the text's tag, `xy` under the other, 513, an empty
/// object and -1, after the capabilities 0102.
const KINDS: &[u8] =
    b"\x00\x02\x02\x01\x00\x00\x03\x26\x00\x03\x09\x0a\x08\x03\xfe\x07\x01\x02\x03\x04\x05\x06\x07\x08\x0d\x03\x03abc\x02\x03\x02xy\x04\x01\x02\x01\x03\x00\x05\xff\xff\xff\xff";

/// Each call on its part of [`KINDS`].
static KINDS_STEPS: [Step; 19] = [
    (WindowCall::Head, "(258, 38, 8)"),
    (WindowCall::Byte, "0"),
    (WindowCall::Int, "Ok(9)"),
    (WindowCall::Byte, "10"),
    (WindowCall::Byte, "8"),
    (WindowCall::Int, "Ok(-2)"),
    (WindowCall::Real, "Ok(578437695752307201)"),
    (WindowCall::Byte, "13"),
    (WindowCall::Int, "Ok(3)"),
    (WindowCall::Pass(3), "Ok(())"),
    (WindowCall::Byte, "2"),
    (WindowCall::Int, "Ok(2)"),
    (WindowCall::Bytes(2), "Some(\"xy\")"),
    (WindowCall::Int, "Ok(513)"),
    (WindowCall::Byte, "1"),
    (WindowCall::Int, "Ok(0)"),
    (WindowCall::I32, "Ok(-1)"),
    (WindowCall::Count, "46"),
    (WindowCall::End, "Ok(())"),
];

/// An array of -2, 513, -9223372036854775808, `abc` under the tag of byte strings, 5 in eight bytes,
/// the real next to pi, `xy` under the tag of byte strings, and `abc` under that of texts.
const WIDTHS: &[u8] =
    b"\x00\x02\x00\x00\x00\x00\x03\x34\x00\x03\x08\x03\xfe\x04\x01\x02\x06\x00\x00\x00\x00\x00\x00\x00\x80\x02\x03\x03abc\x06\x05\x00\x00\x00\x00\x00\x00\x00\x07\x18\x2d\x44\x54\xfb\x21\x09\x40\x02\x03\x02xy\x0d\x03\x03abc";

/// Each part by the call that is for it alone.
static WIDTHS_STEPS: [Step; 15] = [
    (WindowCall::Head, "(0, 52, 8)"),
    (WindowCall::Byte, "0"),
    (WindowCall::Look, "8"),
    (WindowCall::I8, "Ok(-2)"),
    (WindowCall::I16, "Ok(513)"),
    (WindowCall::I64, "Ok(-9223372036854775808)"),
    (WindowCall::Byte, "2"),
    (WindowCall::Copy, "Ok([97, 98, 99])"),
    (WindowCall::Buffered, "Some(5)"),
    (WindowCall::Bits, "Ok(4614256656552045848)"),
    (WindowCall::Byte, "2"),
    (WindowCall::Str, "Some(\"xy\")"),
    (WindowCall::Token, "(true, 3)"),
    (WindowCall::Pass(3), "Ok(())"),
    (WindowCall::End, "Ok(())"),
];

#[test]
fn each_call_takes_its_part_however_the_bytes_come(rt: HostRuntime) {
    for (steps, bytes) in [(KINDS_STEPS.as_slice(), KINDS), (&WIDTHS_STEPS, WIDTHS)] {
        check_source(&rt, rt.alloc(), steps, SliceRead::new(bytes));
        for most in [1, 2, 3, 7, 4096] {
            check_reader(&rt, rt.alloc(), steps, bytes, (most, usize::MAX));
        }
    }
}

/// An integer of four bytes and a null, and two bytes behind the message.
const NUMBER: &[u8] = b"\x00\x02\x01\x00\x00\x00\x03\x06\x05\xff\xff\xff\xff\x0aZZ";

static NUMBER_STEPS: [Step; 4] = [
    (WindowCall::Head, "(1, 6, 8)"),
    (WindowCall::Int, "Ok(-1)"),
    (WindowCall::Byte, "10"),
    (WindowCall::End, "Ok(())"),
];

/// The message's head and its integer, and then an interruption.
static INTERRUPTED: [Step; 4] = [
    (WindowCall::Head, "(1, 6, 8)"),
    (WindowCall::Int, "Ok(-1)"),
    (
        WindowCall::Peek,
        "Err(DeReaderError { source: Reader(Kind(Interrupted)) })",
    ),
    (WindowCall::Peek, "Err(DeReaderError { source: Failed })"),
];

/// The bytes a call, and how often a reader of the number is called.
static CALLS: [(usize, u64); 3] = [(99, 2), (1, 14), (3, 5)];

#[test]
fn a_reader_is_called_as_often_as_bytes_are_needed_and_keeps_what_follows(rt: HostRuntime) {
    for (most, calls) in &CALLS {
        let reader = check_reader(&rt, rt.alloc(), &NUMBER_STEPS, NUMBER, (*most, 99));
        assert_eq!(rt; (reader.calls, reader.left), (*calls, b"ZZ".as_slice()));
    }
    // a fault waits for the call that needs the byte
    check_reader(&rt, rt.alloc(), &INTERRUPTED, NUMBER, (99, 13));
}
