//! The messages of a slice.
use super::{NUMBERS, VERSION};
use crate::tests::check_debug;
use crate::tests::messages::check_equal;
use bser_messages::slice_messages::SliceMessages;
use std::collections::BTreeMap;
use std::rt::HostRuntime;

/// The answers to the next messages as numbers, and after each how much is taken.
static ANSWERS: [(&str, usize); 4] = [
    ("Ok(Some(300))", 13),
    ("Ok(Some(300))", 24),
    ("Ok(None)", 24),
    ("Ok(None)", 24),
];

#[test]
fn the_messages_of_a_slice_are_read_in_turn_and_lend_their_texts(rt: HostRuntime) {
    let mut messages = SliceMessages::new(rt.alloc(), NUMBERS);
    for (expected, taken) in &ANSWERS {
        check_debug(&rt, rt.alloc(), messages.next_message::<i64>(), expected);
        let found = (messages.taken(), Some(messages.rest()));
        check_equal(&rt, found, (*taken, NUMBERS.get(*taken..)));
    }
    let mut messages = SliceMessages::new(rt.alloc(), VERSION);
    let object = messages.next_message::<BTreeMap<&str, &str>>();
    let expected = "Ok(Some({\"version\": \"4.9.0\"}))";
    check_debug(&rt, rt.alloc(), object, expected);
}
