//! How long a message is, by its first bytes.
use super::{HUGE, NUMBERS, VERSION};
use crate::tests::check_debug;
use bser_messages::length::message_length;
use std::alloc::Global;
use std::process::Abort;
use std::rt::HostRuntime;

/// Checks that the first `head` bytes are needed for this answer, and fewer are answered `None`.
fn check_fronts(rt: &impl Abort, alloc: Global, bytes: &[u8], head: usize, answer: &str) {
    for count in 0..bytes.len() + 1 {
        let expected = if count < head { "Ok(None)" } else { answer };
        check_debug(rt, alloc, message_length(alloc, &bytes[..count]), expected);
    }
}

/// Messages, how many of their bytes tell the length, and the answer to them.
static MESSAGES: [(&[u8], usize, &str); 3] = [
    (VERSION, 8, "Ok(Some(29))"),
    (NUMBERS, 8, "Ok(Some(13))"),
    (HUGE, 15, "Ok(Some(4294967311))"),
];

#[test]
fn each_prefix_of_a_message_tells_its_length(rt: HostRuntime) {
    for (bytes, head, answer) in &MESSAGES {
        check_fronts(&rt, rt.alloc(), bytes, *head, answer);
    }
}
