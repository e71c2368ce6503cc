//! A stream that is cut or interrupted at each byte, and memory that runs out.
use super::{AskedFrames, check_lines, frames_of};
use bser_vectors::devices::{Plan, Then};
use bser_vectors::messages::FIVE;
use serde_bser::stream::FrameError;
use std::alloc::Global;
use std::io::ErrorKind;
use std::process::Abort;

/// The number 300 in a message of 12 bytes, of which 9 are the header's.
const WIDE: &[u8] = b"\x00\x02\0\0\0\0\x04\x03\x00\x04\x2c\x01";

/// How many bytes a message has at least that begins with the first `count` bytes of `WIDE`.
fn least(count: usize) -> usize {
    if count < 7 {
        8
    } else if count < 9 {
        9
    } else {
        WIDE.len()
    }
}

/// Checks what is answered where the stream ends after these first bytes of the message.
fn check_cut(rt: &impl Abort, alloc: Global, given: &[u8], plan: Plan) {
    let mut frames = frames_of(alloc, 100, given, plan);
    match frames.next_frame() {
        Ok(whole) => assert!(rt; !whole && given.is_empty(), "{given:?}"),
        Err(FrameError::Cut { have, want }) => {
            assert_eq!(rt; have, given.len());
            assert_eq!(rt; want, least(given.len()));
        }
        Err(error) => assert!(rt; false, "{error}"),
    }
    assert_eq!(rt; frames.frame(), given);
}

#[test]
fn a_cut_message_tells_how_much_came(rt: HostRuntime) {
    for count in 0..WIDE.len() {
        let given = &WIDE[..count];
        check_cut(&rt, rt.alloc(), given, Plan::whole());
        check_cut(&rt, rt.alloc(), given, Plan::pieces(1));
    }
}

/// Calls again after each error, up to so many, and tells how many there were until a frame or the
/// end came.
fn errors_before(frames: &mut AskedFrames<'_>, most: u64) -> u64 {
    for count in 0..most {
        match frames.next_frame() {
            Ok(_whole) => return count,
            Err(_error) => {}
        }
    }
    most
}

#[test]
fn after_an_interruption_the_next_call_goes_on(rt: HostRuntime) {
    for count in 0..WIDE.len() {
        let plan = Plan::pieces(2).up_to(count, Then::FaultsOnce(ErrorKind::Interrupted));
        let mut frames = frames_of(rt.alloc(), 100, WIDE, plan);
        assert_eq!(rt; errors_before(&mut frames, 9), 1);
        assert_eq!(rt; frames.frame(), WIDE);
        check_lines(&rt, rt.alloc(), &mut frames, &["12+0, asked 20: the end"]);
    }
}

#[test]
fn where_memory_runs_out_the_next_call_goes_on(rt: HostRuntime) {
    let mut frames = frames_of(rt.alloc(), 100, FIVE, Plan::whole());
    assert!(rt; errors_before(&mut frames, 2) <= 1);
    assert_eq!(rt; frames.frame(), FIVE);
    assert_eq!(rt; frames.position(), 0);
}
