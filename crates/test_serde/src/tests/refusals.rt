//! How messages and values are refused.
use crate::tests::checks::{check_refused, check_text, check_unwritten};
use crate::types::{BuildVersion, ByteFile, NestedNull, Strict};
use bser_serde::{ByteBuf, from_frame, from_reader, to_vec};
use serde_bser::device::Watched;
use std::collections::BTreeMap;

/// An object with the version 4.9, and a byte behind it.
const VERSION: &[u8] =
    b"\x00\x02\x00\x00\x00\x00\x03\x13\x01\x03\x01\x0d\x03\x07version\x0d\x03\x034.9\x0a";

/// False.
const FALSE: &[u8] = b"\x00\x02\x00\x00\x00\x00\x03\x01\x09";

#[test]
fn misfits(rt: HostRuntime) {
    let alloc = rt.alloc();
    check_refused::<ByteFile>(
        &rt,
        alloc,
        VERSION,
        "field \"name\": missing, at byte 27, in name",
    );
    check_refused::<Strict>(&rt, alloc, VERSION, "unknown field, at byte 21, in version");
    check_refused::<Vec<i64>>(
        &rt,
        alloc,
        VERSION,
        "wrong type: an object where an array is wanted, at byte 8, in .",
    );
    check_refused::<BTreeMap<String, u8>>(
        &rt,
        alloc,
        VERSION,
        "wrong type: a text where an integer is wanted, at byte 21, in version",
    );
    let text = "wrong type: a truth value where null is wanted, at byte 8, in .";
    check_refused::<()>(&rt, alloc, FALSE, text);
}

/// A template with the keys `name` and `age` and a row of 20 years.
const ROW: &[u8] =
    b"\x00\x02\x00\x00\x00\x00\x03\x1c\x0b\x00\x03\x02\x02\x03\x04name\x02\x03\x03age\
\x03\x01\x02\x03\x04fred\x03\x14";

#[test]
fn misfits_in_rows(rt: HostRuntime) {
    let alloc = rt.alloc();
    check_refused::<Vec<BTreeMap<String, ByteBuf>>>(
        &rt,
        alloc,
        ROW,
        "wrong type: an integer where a text or a byte string is wanted, at byte 34, in [0].age",
    );
    check_refused::<Vec<BTreeMap<u8, ByteBuf>>>(
        &rt,
        alloc,
        ROW,
        "wrong type: a text where an integer is wanted, at byte 27, in [0].name",
    );
}

#[test]
fn malformed(rt: HostRuntime) {
    let alloc = rt.alloc();
    check_refused::<BuildVersion>(&rt, alloc, &VERSION[..20], "end of input, at byte 20");
    let mut reader = Watched::new(&VERSION[..0]);
    match from_reader::<_, BuildVersion>(alloc, &mut reader) {
        Ok(_version) => assert!(rt; false),
        Err(refusal) => check_text(&rt, alloc, &refusal, "no message is left"),
    }
    match from_frame::<BuildVersion>(alloc, VERSION) {
        Ok(_version) => assert!(rt; false),
        Err(refusal) => check_text(
            &rt,
            alloc,
            &refusal,
            "a message of 27 bytes, and more follow",
        ),
    }
}

#[test]
fn unwritten(rt: HostRuntime) {
    let alloc = rt.alloc();
    let too_big = "while serializing BSER: integer too big: 18446744073709551615";
    check_unwritten(&rt, alloc, &u64::MAX, too_big);
    let mut by_number = BTreeMap::new(alloc);
    let inserted: Result<_, _> = by_number.insert(7u8, true);
    assert!(rt; inserted.is_ok());
    let no_text = "error while serializing BSER: a key that is no text";
    check_unwritten(&rt, alloc, &by_number, no_text);
}

#[test]
fn arrays_that_nest(rt: HostRuntime) {
    let alloc = rt.alloc();
    for announced in [0usize, 2] {
        let levels = 1;
        let miscounted = NestedNull { announced, levels };
        let open = "error while serializing BSER: value still open";
        check_unwritten(&rt, alloc, &miscounted, open);
    }
    let announced = 1;
    let deepest = NestedNull {
        announced,
        levels: 128,
    };
    let message = to_vec(alloc, &deepest).expect(&rt, "a message");
    assert!(rt; message.len() == 9 + 128 * 3 + 1);
    let deeper = NestedNull {
        announced,
        levels: 129,
    };
    let too_deep = "while deserializing BSER: recursion limit exceeded with array";
    check_unwritten(&rt, alloc, &deeper, too_deep);
}
