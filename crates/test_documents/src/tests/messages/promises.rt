//! Each law is answered with memory, so that none speaks of errors alone.
use super::{check_bytes, check_read, value_of};
use bser_laws::agreement::read_both_ways;
use bser_laws::bounds::read_within_bounds;
use bser_laws::least::{compactly_rewritten, rewritten};
use bser_laws::messages::{have_one_compact_message, have_one_message};
use bser_laws::returned::{
    ReadBack, compactly_written_and_read, compactly_written_and_read_on, written_and_read,
    written_and_read_on,
};
use bser_laws::templates::{read_written_out, read_written_out_on};
use bser_source::device::Watched;
use bser_vectors::messages::ROWS;
use serde_bser::errors::Result;
use serde_bser::value::Value;
use std::alloc::Global;
use std::process::Abort;

/// The rows of one key "a" with 1 and 2.
const TEMPLATE: &[u8] =
    b"\x00\x02\x00\x00\x00\x00\x03\x0e\x0b\x00\x03\x01\x0d\x03\x01a\x03\x02\x03\x01\x03\x02";

/// `TEMPLATE`, and a stray byte.
const TEMPLATE_AND_STRAY: &[u8] =
    b"\x00\x02\x00\x00\x00\x00\x03\x0e\x0b\x00\x03\x01\x0d\x03\x01a\x03\x02\x03\x01\x03\x02\xff";

/// The same rows as objects.
const OBJECTS: &[u8] =
    b"\x00\x02\x00\x00\x00\x00\x03\x15\x00\x03\x02\x01\x03\x01\x0d\x03\x01a\x03\x01\x01\x03\x01\x0d\x03\x01a\x03\x02";

/// `OBJECTS`, and a stray byte.
const OBJECTS_AND_STRAY: &[u8] =
    b"\x00\x02\x00\x00\x00\x00\x03\x15\x00\x03\x02\x01\x03\x01\x0d\x03\x01a\x03\x01\x01\x03\x01\x0d\x03\x01a\x03\x02\xff";

/// Checks that the value was read from a reader, which has the stray byte left.
fn check_read_on(rt: &impl Abort, read: Result<ReadBack>, value: &Value) {
    let back = read.expect(rt, "the message is read");
    assert!(rt; back.value == *value);
    check_bytes(rt, back.left.as_slice(), b"\xff");
}

#[test]
fn a_value_is_returned(rt: HostRuntime) {
    let alloc = rt.alloc();
    let value = value_of(&rt, alloc, ROWS);
    for read in [
        read_within_bounds(alloc, ROWS),
        written_and_read(alloc, 2, &value, b"\xff"),
        compactly_written_and_read(alloc, 2, &value, b"\xff"),
    ] {
        check_read(&rt, read, &value);
    }
    for read in [
        written_and_read_on(alloc, 2, &value, b"\xff"),
        compactly_written_and_read_on(alloc, 2, &value, b"\xff"),
    ] {
        check_read_on(&rt, read, &value);
    }
}

#[test]
fn rows_and_objects_are_read_alike_and_rewritten_as_one_another(rt: HostRuntime) {
    let alloc = rt.alloc();
    let rows = value_of(&rt, alloc, TEMPLATE);
    let objects = value_of(&rt, alloc, OBJECTS);
    let same = have_one_message(alloc, &rows, &objects);
    assert!(rt; same.expect(&rt, "memory is left"));
    let same = have_one_compact_message(alloc, &rows, &objects);
    assert!(rt; same.expect(&rt, "memory is left"));
    let made = rewritten(alloc, TEMPLATE_AND_STRAY).expect(&rt, "the message is made");
    check_bytes(&rt, &made, OBJECTS);
    let made = compactly_rewritten(alloc, OBJECTS_AND_STRAY).expect(&rt, "the message is made");
    check_bytes(&rt, &made, TEMPLATE);
    let both = read_both_ways(alloc, TEMPLATE, &mut Watched::new(TEMPLATE));
    let slices = read_written_out(alloc, 2, TEMPLATE, OBJECTS);
    let (mut template, mut written_out) = (Watched::new(TEMPLATE), Watched::new(OBJECTS));
    let readers = read_written_out_on(alloc, 2, &mut template, &mut written_out);
    for read in [
        both.slice,
        both.reader,
        slices.template,
        slices.objects,
        readers.template,
        readers.objects,
    ] {
        check_read(&rt, read, &rows);
    }
}
