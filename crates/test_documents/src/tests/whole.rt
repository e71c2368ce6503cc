//! Whole messages that are kept.
use serde_bser::device::Watched;
use serde_bser::document::Document;
use serde_bser::tell::Limits;
use std::alloc::Global;
use std::process::Abort;

/// Two messages, an array of null and the integer 7, and the beginning of a third.
const MESSAGES: &[u8] =
    b"\x00\x02\0\0\0\0\x03\x04\x00\x03\x01\x0a\x00\x02\0\0\0\0\x03\x02\x03\x07\x00\x02";

/// The reader's next message.
fn next(rt: &impl Abort, alloc: Global, reader: &mut Watched<&[u8]>) -> Document {
    let kept = Document::next_message(alloc, Limits::new(), reader).expect(rt, "it is read");
    kept.expect(rt, "a message is left")
}

#[test]
fn messages_are_kept_one_after_another(rt: HostRuntime) {
    let front = Document::from_slice(rt.alloc(), Limits::new(), MESSAGES);
    let array = front.expect(&rt, "the front is a message");
    assert_eq!(rt; array.root().len(), Some(1));
    let mut reader = Watched::new(MESSAGES);
    assert_eq!(rt; next(&rt, rt.alloc(), &mut reader).root().len(), Some(1));
    assert_eq!(rt; next(&rt, rt.alloc(), &mut reader).root().as_i64(), Some(7));
    let cut = Document::next_message(rt.alloc(), Limits::new(), &mut reader);
    assert!(rt; cut.is_err());
    let end = Document::next_message(rt.alloc(), Limits::new(), &mut reader);
    assert!(rt; end.expect(&rt, "the end is no error").is_none());
}

#[test]
fn a_message_is_kept_in_the_memory_of_one_before(rt: HostRuntime) {
    let mut reader = Watched::new(MESSAGES);
    let array = next(&rt, rt.alloc(), &mut reader);
    let limits = Limits::new();
    let kept = Document::next_message_in(rt.alloc(), Some(array), limits, &mut reader);
    let number = kept
        .expect(&rt, "it is read")
        .expect(&rt, "a message is left");
    assert_eq!(rt; number.root().as_i64(), Some(7));
    // one node, and no string
    assert_eq!(rt; number.weight(), 1);
}
