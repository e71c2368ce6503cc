//! Which refusal is answered first where a text is to be lent by a reader.
use super::checks::check_error;
use crate::tests::readers::source_of;
use bser_deserializer::deserializer::Deserializer;
use serde_bser::de::Deserialize;

/// A byte string that is no text, and one that is, and the code of the refusal.
static STRINGS: [(&[u8], &str); 2] = [
    (b"\x00\x02\0\0\0\0\x03\x04\x02\x03\x01\xff", "E6 Utf8"),
    (b"\x00\x02\0\0\0\0\x03\x04\x02\x03\x01a", "C8"),
];

#[test]
fn a_reader_lends_no_text_and_utf8_is_looked_at_first(rt: HostRuntime) {
    for (message, expected) in &STRINGS {
        let from = Deserializer::new(rt.alloc(), source_of(message, 1, usize::MAX));
        let mut from = from.expect(&rt, "the head is whole");
        assert!(rt; <&str>::deserialize(rt.alloc(), &mut from).is_err());
        check_error(&rt, rt.alloc(), &from.take_refusal(), expected);
    }
}
