//! What is read from a frame.
use super::frames_of;
use crate::tests::check_debug;
use bser_vectors::devices::Plan;
use bser_vectors::messages::FIVE;
use serde_bser::de::Ignored;

/// An array of the texts ab and c, and the number 5.
const TEXTS: &[u8] =
    b"\x00\x02\0\0\0\0\x03\x0c\x00\x03\x02\x0d\x03\x02ab\x0d\x03\x01c\x00\x02\0\0\0\0\x03\x02\x03\x05";

#[test]
fn two_types_are_borrowed_from_one_frame(rt: HostRuntime) {
    let alloc = rt.alloc();
    let mut frames = frames_of(alloc, 100, TEXTS, Plan::pieces(3));
    assert!(rt; frames.next_frame().expect(&rt, "the frame comes"));
    let pair = frames.read::<(&str, &str)>().expect(&rt, "it is a pair");
    let list = frames.read::<Vec<&str>>().expect(&rt, "it is a list");
    assert_eq!(rt; pair, ("ab", "c"));
    assert!(rt; list.as_slice() == ["ab", "c"].as_slice());
    let number = frames.read::<i64>().err().expect(&rt, "it is no number");
    assert_eq!(rt; number.place(), 8);
}

#[test]
fn messages_are_read_in_one_call(rt: HostRuntime) {
    let alloc = rt.alloc();
    let mut frames = frames_of(alloc, 100, TEXTS, Plan::whole());
    let refused = frames.next_message::<i64>();
    let expected = "Some(\"wrong type: an array where an integer is wanted, at byte 8\")";
    let shown = refused.err().map(|error| format!(in alloc; "{error}").expect(
        &rt,
        "memory is left",
    ));
    check_debug(&rt, alloc, shown, expected);
    assert!(rt; frames.read::<Ignored>().is_ok());
    check_debug(&rt, alloc, frames.next_message::<i64>(), "Ok(Some(5))");
    assert_eq!(rt; frames.frame(), FIVE);
    assert_eq!(rt; frames.position(), 20);
    // of each message the header and the body take one read
    assert_eq!(rt; frames.get_ref().get_ref().calls(), 4);
    check_debug(&rt, alloc, frames.next_message::<i64>(), "Ok(None)");
}
