//! The texts and the bytes of byte strings.
use super::checks::{check_bytes, check_debug, check_text};
use bser_format::bytestring::ByteString;
use bser_format::escaped::escaped_bytes;
use std::alloc::Global;
use std::process::Abort;

fn byte_string(rt: &impl Abort, alloc: Global, bytes: &[u8]) -> ByteString {
    ByteString::from_vec(Vec::from_slice(alloc, bytes).expect(rt, "memory is left"))
}

/// Bytes, and how they are escaped, shown and debugged.
const TEXTS: [(&[u8], &str, &str, &str); 10] = [
    (b"", "", "\"\"", "\"\""),
    (b"a\xffb", "a\\xffb", "\"a\\\\xffb\"", "\"a\\\\xffb\""),
    (b"a\xc3", "a\\xc3", "\"a\\\\xc3\"", "\"a\\\\xc3\""),
    (b"\0", "\0", "\"\\u{0}\"", "\"\\0\""),
    (b"\0a\n", "\0a\n", "\"\\u{0}a\\n\"", "\"\\0a\\n\""),
    (b"\xc3\xa9", "\u{e9}", "\"\\u{e9}\"", "\"\\u{e9}\""),
    (b"a\n", "a\n", "\"a\\n\"", "\"a\\n\""),
    (b"\x7f", "\x7f", "\"\\u{7f}\"", "\"\\u{7f}\""),
    (
        b"\t\r'\"\\",
        "\t\r'\"\\",
        "\"\\t\\r\\'\\\"\\\\\"",
        "\"\\t\\r\\'\\\"\\\\\"",
    ),
    (
        b"\xe2\x82\xf0\x9f\x92\xa9\xe2\x82",
        "\\xe2\\x82\u{1f4a9}\\xe2\\x82",
        "\"\\\\xe2\\\\x82\\u{1f4a9}\\\\xe2\\\\x82\"",
        "\"\\\\xe2\\\\x82\\u{1f4a9}\\\\xe2\\\\x82\"",
    ),
];

#[test]
fn a_byte_string_is_escaped_shown_and_debugged(rt: HostRuntime) {
    for (bytes, escaped, shown, debugged) in &TEXTS {
        let value = byte_string(&rt, rt.alloc(), bytes);
        let found = value
            .as_escaped_string(rt.alloc())
            .expect(&rt, "memory is left");
        check_text(&rt, rt.alloc(), found, escaped);
        check_text(&rt, rt.alloc(), &value, shown);
        check_debug(&rt, rt.alloc(), &value, debugged);
    }
}

#[test]
fn a_byte_string_gives_its_bytes_back_as_a_text_where_they_are_one(rt: HostRuntime) {
    let text = String::from_str(rt.alloc(), "a/b").expect(&rt, "memory is left");
    let mut name = ByteString::from_string(text);
    if let Some(byte) = name.as_mut_bytes().get_mut(1) {
        *byte = b'-';
    }
    let text = name.into_string().ok().expect(&rt, "it is a text");
    check_bytes(&rt, text.as_bytes(), b"a-b");
    let stray = byte_string(&rt, rt.alloc(), b"a\xff").into_string().err();
    let bytes = stray.expect(&rt, "it is no text").into_bytes();
    check_bytes(&rt, &bytes, b"a\xff");
    let escaped = escaped_bytes(rt.alloc(), &bytes).expect(&rt, "memory is left");
    check_bytes(&rt, escaped.as_bytes(), b"a\\xff");
}
