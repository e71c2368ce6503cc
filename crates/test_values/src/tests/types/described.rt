//! How a refusal is described: the field, what was found, and the place.
use bser_vectors::devices::{Plan, PlannedReader};
use bser_vectors::structs::FileInfo;
use serde_bser::describe;
use serde_bser::describe::{Description, Finding, Wanted};
use serde_bser::device::Watched;
use std::alloc::Global;
use std::process::Abort;

/// The field, what was found, and the place.
type Described = (Option<&'static str>, Option<Finding>, usize);

/// Checks the description.
fn check_description(rt: &impl Abort, refusal: Option<Description>, expected: Described) {
    let refusal = refusal.expect(rt, "the message is refused");
    assert_eq!(rt;
        (refusal.field(), refusal.finding(), refusal.place()),
        expected
    );
}

/// Checks how the message that a reader of this plan gives is refused as a file.
fn check_reader(rt: &impl Abort, alloc: Global, message: &[u8], plan: Plan, expected: Described) {
    let mut reader = Watched::new(PlannedReader::new(message, plan));
    let refusal = describe::from_reader::<_, FileInfo<String>>(alloc, &mut reader).err();
    check_description(rt, refusal, expected);
}

/// Checks how the message is refused as a file, from a slice and from readers.
fn check_file(rt: &impl Abort, alloc: Global, message: &[u8], expected: Described) {
    let refusal = describe::from_slice::<FileInfo<String>>(alloc, message).err();
    check_description(rt, refusal, expected);
    check_reader(rt, alloc, message, Plan::pieces(1), expected);
    check_reader(rt, alloc, message, Plan::whole(), expected);
}

/// A file x whose size is true.
const TRUE: &[u8] =
    b"\x00\x02\0\0\0\0\x03\x16\x01\x03\x02\x0d\x03\x04name\x0d\x03\x01x\x0d\x03\x04size\x08";

/// A file x whose size is -1.
const NEGATIVE: &[u8] =
    b"\x00\x02\0\0\0\0\x03\x17\x01\x03\x02\x0d\x03\x04name\x0d\x03\x01x\x0d\x03\x04size\x03\xff";

/// A file x of size 5, and again of size 5.
const TWICE: &[u8] =
    b"\x00\x02\0\0\0\0\x03\x20\x01\x03\x03\x0d\x03\x04name\x0d\x03\x01x\x0d\x03\x04size\x03\x05\x0d\x03\x04size\x03\x05";

/// A file x that has no size.
const MISSING: &[u8] = b"\x00\x02\0\0\0\0\x03\x0e\x01\x03\x01\x0d\x03\x04name\x0d\x03\x01x";

/// Messages, and how the refusal of each is described.
static REFUSED: [(&[u8], Described); 4] = [
    (
        TRUE,
        (
            Some("size"),
            Some(Finding::Stray {
                wanted: Wanted::Integer,
                tag: 0x08,
            }),
            29,
        ),
    ),
    (NEGATIVE, (Some("size"), Some(Finding::OutOfRange(-1)), 29)),
    (TWICE, (Some("size"), Some(Finding::Repeated), 38)),
    (MISSING, (Some("size"), Some(Finding::Missing), 22)),
];

#[test]
fn a_refusal_tells_its_field_what_was_found_and_the_place(rt: HostRuntime) {
    for (message, expected) in &REFUSED {
        check_file(&rt, rt.alloc(), message, *expected);
    }
}

#[test]
fn an_early_end_tells_no_field_and_the_end_of_the_input(rt: HostRuntime) {
    for len in 0..TRUE.len() {
        check_file(&rt, rt.alloc(), &TRUE[..len], (None, None, len));
    }
}
