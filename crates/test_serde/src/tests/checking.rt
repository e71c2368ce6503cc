//! The message at the start of some bytes, as it is found before a type looks at it.
use bser_serde::message::body_of;
use bser_vectors::messages::{NULL, nested_arrays};

/// A template of one key, whose rows have each scalar, a skipped field, strings and containers.
const ROWS: &[u8] = b"\x00\x02\x00\x00\x00\x00\x03\x3e\x0b\x00\x03\x01\x02\x03\x01a\x03\x0d\
\x0a\x08\x09\x0c\x03\x01\x04\x01\x00\x05\x01\x00\x00\x00\x06\x01\x00\x00\x00\x00\x00\x00\x00\
\x07\x00\x00\x00\x00\x00\x00\xf0\x3f\x02\x03\x01\xff\x0d\x03\x01a\x00\x03\x01\x0a\
\x01\x03\x01\x02\x03\x01a\x0a";

/// An array of an array.
const NESTED: &[u8] = b"\x00\x02\x00\x00\x00\x00\x03\x07\x00\x03\x01\x00\x03\x01\x0a";

/// A template of two keys, with two rows: an array and a skipped field, and a real and a text.
const TWO_KEYS: &[u8] =
    b"\x00\x02\x00\x00\x00\x00\x03\x1f\x0b\x00\x03\x02\x02\x03\x01a\x02\x03\x01b\x03\x02\
\x00\x03\x00\x0c\x07\x00\x00\x00\x00\x00\x00\xf0\x3f\x0d\x03\x01x";

/// What begins with no well-formed message. The last two have a text of nine bytes, of which eight
/// are a text.
const WRONG: [&[u8]; 16] = [
    b"\x00\x01\x00\x00\x00\x00\x03\x01\x0a",
    b"\x00\x02\x00\x00\x00\x00\x03\xff\x0a",
    b"\x00\x02\x00\x00\x00\x00\x03\x02\x0a\x0a",
    b"\x00\x02\x00\x00\x00\x00\x03\x01\x03\x01",
    b"\x00\x02\x00\x00\x00\x00\x03\x01\x0c",
    b"\x00\x02\x00\x00\x00\x00\x03\x01\x0f",
    b"\x00\x02\x00\x00\x00\x00\x03\x04\x0d\x03\x01\xff",
    b"\x00\x02\x00\x00\x00\x00\x03\x03\x00\x03\xff",
    b"\x00\x02\x00\x00\x00\x00\x03\x08\x01\x03\x01\x02\x03\x01\xff\x0a",
    b"\x00\x02\x00\x00\x00\x00\x03\x06\x0b\x00\x03\x00\x03\x01",
    b"\x00\x02\x00\x00\x00\x00\x03\x06\x0b\x01\x03\x00\x03\x00",
    b"\x00\x02\x00\x00\x00\x00\x03\x0b\x0b\x00\x03\x01\x02\x03\x01\xff\x03\x01\x0a",
    b"\x00\x02\x00\x00\x00\x00\x03\x13\x0b\x00\x03\x01\x02\x03\x01a\x03\x01\
\x0d\x03\x06\xff\x00\x00\x00\x00\x00",
    b"\x00\x02\x00\x00\x00\x00\x03\x13\x0b\x00\x03\x01\x02\x03\x01a\x03\x01\
\x0f\x00\x00\x00\x00\x00\x00\x00\x00",
    b"\x00\x02\x00\x00\x00\x00\x03\x0c\x0d\x03\x09aaaaaaaa\xff",
    b"\x00\x02\x00\x00\x00\x00\x03\x16\x0b\x00\x03\x01\x02\x03\x01a\x03\x01\x0d\x03\x09aaaaaaaa\xff",
];

/// How many bytes are before the body, and how many it has.
fn found(message: &[u8]) -> Option<(usize, usize)> {
    let body = body_of(message, 128, usize::MAX)?;
    Some((body.start, body.len))
}

#[test]
fn whole(rt: HostRuntime) {
    assert!(rt; found(ROWS) == Some((8, 62)));
    assert!(rt; found(TWO_KEYS) == Some((8, 31)));
    assert!(rt; found(NESTED) == Some((8, 7)));
    assert!(rt; found(b"\x00\x02\x00\x00\x00\x00\x04\x01\x00\x0a\x0b") == Some((9, 1)));
}

#[test]
fn cut_or_wrong(rt: HostRuntime) {
    for message in [ROWS, TWO_KEYS, NESTED] {
        for len in 0..message.len() {
            assert!(rt; found(&message[..len]) == None, "{len}");
        }
    }
    for message in &WRONG {
        assert!(rt; found(message) == None, "{message:?}");
    }
}

/// Messages, how many levels and bytes they may have, and whether they are found then.
const LIMITED: [(&[u8], usize, usize, bool); 8] = [
    (NULL, 0, 1, true),
    (NULL, 0, 0, false),
    (NESTED, 2, 7, true),
    (NESTED, 1, 7, false),
    (NESTED, 2, 6, false),
    (ROWS, 3, 62, true),
    (ROWS, 2, 62, true),
    (ROWS, 1, 62, false),
];

#[test]
fn limited(rt: HostRuntime) {
    for (message, levels, most, is_found) in &LIMITED {
        let body = body_of(message, *levels, *most);
        assert!(rt; body.is_some() == *is_found, "{levels} {most}");
    }
    let deep = nested_arrays(rt.alloc(), 1024).expect(&rt, "memory");
    assert!(rt; body_of(&deep, 1024, usize::MAX).is_some());
    assert!(rt; body_of(&deep, 1023, usize::MAX).is_none());
}
