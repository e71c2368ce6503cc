//! Byte strings, borrowed texts, rows of a template, and reals by their bits.
use crate::tests::PEOPLE;
use crate::tests::checks::{check_written, owned};
use crate::types::{ByteFile, ByteFiles, FileRef, Person};
use bser_serde::{ByteBuf, Bytes, from_frame, from_slice, to_vec};
use serde_bser::bytestring::ByteString;

#[test]
fn byte_strings(rt: HostRuntime) {
    let alloc = rt.alloc();
    let name = Vec::from_slice(alloc, b"a\xff.c").expect(&rt, "memory");
    let file = ByteFile {
        name: ByteBuf(ByteString::from_vec(name)),
        size: 129,
        mtime_ms: None,
        kind: Some(owned(&rt, alloc, "f")),
    };
    let mut files = Vec::new(alloc);
    files.push(file).expect(&rt, "memory");
    let shown =
        "{\"files\": [{\"name\": {\"$bytes\": \"61ff2e63\"}, \"size\": 129, \"type\": \"f\"}]}";
    check_written(&rt, alloc, &ByteFiles { files }, shown);
}

#[test]
fn borrowed(rt: HostRuntime) {
    let alloc = rt.alloc();
    let file = FileRef {
        name: Bytes(b"a\xff.c"),
        size: 129,
    };
    let message = to_vec(alloc, &file).expect(&rt, "a message");
    let back: FileRef<'_> = from_slice(alloc, &message).expect(&rt, "a value");
    assert!(rt; back == file);
    let framed: FileRef<'_> = from_frame(alloc, &message).expect(&rt, "a value");
    assert!(rt; framed == file);
}

#[test]
fn borrowed_of_each_length(rt: HostRuntime) {
    let alloc = rt.alloc();
    let mut letters = Vec::new(alloc);
    for _ in 0..12 {
        letters
            .extend_from_slice(b"abcdefghijklmnopqrstuvwxyz")
            .expect(&rt, "memory");
    }
    for len in 0..letters.len() {
        let part = Bytes(&letters[..len]);
        let message = to_vec(alloc, &part).expect(&rt, "a message");
        let back: Bytes<'_> = from_slice(alloc, &message).expect(&rt, "a value");
        assert!(rt; back == part);
        let framed: Bytes<'_> = from_frame(alloc, &message).expect(&rt, "a value");
        assert!(rt; framed == part);
    }
}

#[test]
fn rows(rt: HostRuntime) {
    let alloc = rt.alloc();
    let people: Vec<Person<'_>> = from_slice(alloc, PEOPLE).expect(&rt, "a value");
    assert!(rt; people.len() == 3);
    assert!(rt; people[0].name == Some("fred") && people[0].age == 20);
    assert!(rt; people[1].name == Some("pete") && people[1].age == 30);
    assert!(rt; people[2].name == None && people[2].age == 25);
}

#[test]
fn reals(rt: HostRuntime) {
    let alloc = rt.alloc();
    let message = b"\x00\x02\x00\x00\x00\x00\x03\x09\x07\x01\x00\x00\x00\x00\x00\xf4\xff";
    let nan: f64 = from_slice(alloc, message).expect(&rt, "a real");
    assert!(rt; nan != nan);
    let written = to_vec(alloc, &nan).expect(&rt, "a message");
    let quiet: &[u8] = b"\x00\x02\x00\x00\x00\x00\x03\x09\x07\x00\x00\x00\x00\x00\x00\xf8\x7f";
    assert!(rt; written.as_slice() == quiet);
    let single: f32 = from_slice(alloc, b"\x00\x02\x00\x00\x00\x00\x03\x02\x03\xfd").expect(
        &rt, "-3",
    );
    assert!(rt; single == -3.0);
    let number: f64 = from_slice(alloc, b"\x00\x02\x00\x00\x00\x00\x03\x02\x03\xfd").expect(
        &rt, "-3",
    );
    assert!(rt; number == -3.0);
}
