//! The messages of a reader that gives one byte a call.
use super::{FIVE, HUGE, MIXED, NUMBERS};
use crate::tests::check_debug;
use crate::tests::messages::{check_equal, one_by_one};
use bser_messages::limits::Limits;
use bser_messages::next::{from_reader_limited, next_message, next_message_limited};
use bser_messages::reader_messages::ReaderMessages;
use bser_source::device::{Source, Watched};
use bser_vectors::devices::PlannedReader;
use std::alloc::Global;
use std::process::Abort;
use std::rt::HostRuntime;

/// Checks the answers to the next messages as numbers, and how many are taken after each.
fn check_next<R: Source>(
    rt: &impl Abort,
    alloc: Global,
    messages: &mut ReaderMessages<R>,
    answers: &[(&str, u64)],
) {
    for (expected, taken) in answers {
        check_debug(rt, alloc, messages.next_message::<i64>(), expected);
        check_equal(rt, messages.taken(), *taken);
    }
}

#[test]
fn the_messages_of_a_reader_are_read_in_turn(rt: HostRuntime) {
    let mut reader = one_by_one(NUMBERS);
    let mut messages = ReaderMessages::new(rt.alloc(), &mut reader);
    let answers = [
        ("Ok(Some(300))", 1),
        ("Ok(Some(300))", 2),
        ("Ok(None)", 2),
        ("Ok(None)", 2),
    ];
    check_next(&rt, rt.alloc(), &mut messages, &answers);
    assert!(rt; !messages.is_failed());
    let first = next_message::<_, i64>(rt.alloc(), &mut one_by_one(NUMBERS));
    check_debug(&rt, rt.alloc(), first, "Ok(Some(300))");
}

/// Checks that the messages end with a refusal, after which nothing more is read.
fn check_failed(
    rt: &impl Abort,
    alloc: Global,
    mut messages: ReaderMessages<Watched<PlannedReader<'_>>>,
    answers: &[(&str, u64)],
    taken: u64,
) {
    check_next(rt, alloc, &mut messages, answers);
    let left = messages.get_ref().get_ref().left.len();
    assert!(rt; messages.is_failed());
    let failed = ("Err(DeReaderError { source: Failed })", taken);
    check_next(rt, alloc, &mut messages, &[failed]);
    check_equal(rt, messages.into_inner().get_ref().left.len(), left);
}

#[test]
fn after_a_refusal_a_reader_is_not_read(rt: HostRuntime) {
    let messages = ReaderMessages::new(rt.alloc(), one_by_one(MIXED));
    let answers = [
        ("Ok(Some(5))", 1),
        ("Err(DeCustom { msg: Fixed(WrongType) })", 1),
    ];
    check_failed(&rt, rt.alloc(), messages, &answers, 1);
}

/// Checks the answers to the first message where a body has at most `most` bytes, and how many
/// bytes are left then.
fn check_within(rt: &impl Abort, alloc: Global, most: usize, expected: (&str, &str), left: usize) {
    let limits = Limits {
        levels: 128,
        bytes: most,
    };
    let mut reader = one_by_one(NUMBERS);
    let number = from_reader_limited::<_, i64>(alloc, limits, &mut reader);
    check_debug(rt, alloc, number, expected.0);
    check_equal(rt, reader.get_ref().left.len(), left);
    let mut reader = one_by_one(NUMBERS);
    let number = next_message_limited::<_, i64>(alloc, limits, &mut reader);
    check_debug(rt, alloc, number, expected.1);
    check_equal(rt, reader.get_ref().left.len(), left);
}

#[test]
fn nothing_of_a_body_above_the_limit_is_read(rt: HostRuntime) {
    let alloc = rt.alloc();
    check_within(&rt, alloc, 5, ("Ok(300)", "Ok(Some(300))"), 11);
    let refused = "Err(DeTooLong { announced: 5, most: 4 })";
    check_within(&rt, alloc, 4, (refused, refused), 16);
    let mut messages = ReaderMessages::with_limits(alloc, FIVE, one_by_one(HUGE));
    let refused = "Err(DeTooLong { announced: 4294967296, most: 5 })";
    check_next(&rt, alloc, &mut messages, &[(refused, 0)]);
    check_equal(&rt, messages.into_inner().get_ref().left.len(), 2);
}
