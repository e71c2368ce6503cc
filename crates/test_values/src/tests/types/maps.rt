//! Maps in the order of their hashes, read from whole messages.
use super::checks::check_equal;
use bser_vectors::devices::Plan;
use bser_vectors::messages::FALLING_KEYS;
use bser_vectors::ways::read_by_plan;
use serde_bser::bytestring::ByteString;
use serde_bser::de::{Deserialize, MapKey};
use serde_bser::errors::Result;
use serde_bser::from_slice;
use std::alloc::Global;
use std::collections::HashMap;
use std::process::Abort;

/// An object with the key "a" twice, of 1 and then 2.
const TWICE: &[u8] =
    b"\x00\x02\0\0\0\0\x03\x0f\x01\x03\x02\x0d\x03\x01a\x03\x01\x0d\x03\x01a\x03\x02";

/// An object with no entry.
const EMPTY: &[u8] = b"\x00\x02\0\0\0\0\x03\x03\x01\x03\x00";

/// Checks how many keys the map has that was read, and what it has under this one.
fn check_entry<K: MapKey + Drop>(
    rt: &impl Abort,
    read: Result<HashMap<K, u8>>,
    len: usize,
    key: &K,
    value: Option<u8>,
) {
    let map = read.expect(rt, "the message is read");
    check_equal(rt, &(map.len(), map.get(key).copied()), &(len, value));
}

/// A message, how many keys its map has, and what it has under the key that is looked up.
type Row<'a> = (&'a [u8], usize, Option<u8>);

/// Checks each message's map, where this key is looked up.
fn check_rows<'a, K: MapKey + Deserialize<&'a [u8]>>(
    rt: &impl Abort,
    alloc: Global,
    key: &K,
    rows: &[Row<'a>],
) {
    for row in rows {
        check_entry(rt, from_slice(alloc, row.0), row.1, key, row.2);
    }
}

/// What is under "a".
const UNDER_A: &[Row<'_>] = &[
    (FALLING_KEYS, 2, Some(2)),
    (TWICE, 1, Some(2)),
    (EMPTY, 0, None),
];

/// What is under "b".
const UNDER_B: &[Row<'_>] = &[
    (FALLING_KEYS, 2, Some(1)),
    (TWICE, 1, None),
    (EMPTY, 0, None),
];

#[test]
fn a_lent_key_finds_its_value_by_hash(rt: HostRuntime) {
    check_rows(&rt, rt.alloc(), &"a", UNDER_A);
    check_rows(&rt, rt.alloc(), &b"b".as_slice(), UNDER_B);
}

#[test]
fn an_owned_key_finds_its_value_by_hash(rt: HostRuntime) {
    let text = String::from_str(rt.alloc(), "a").expect(&rt, "memory is left");
    check_rows(&rt, rt.alloc(), &text, UNDER_A);
    let (read, _) = read_by_plan::<HashMap<String, u8>>(rt.alloc(), TWICE, Plan::whole());
    check_entry(&rt, read, 1, &text, Some(2));
    let bytes = ByteString::from_text(rt.alloc(), "b").expect(&rt, "memory is left");
    check_rows(&rt, rt.alloc(), &bytes, UNDER_B);
}
