//! Counts and lengths that announce far more than the message has. Nothing is reserved by them: the
//! answer is the early end, and not a want of memory.
use super::checks::check_refused;
use serde_bser::bytestring::ByteString;
use serde_bser::de::Ignored;
use serde_bser::document::Document;
use serde_bser::value::Value;
use std::alloc::{AllocError, Global};
use std::collections::{BTreeMap, HashMap};

/// An array that announces 2^40 items and has 1, in a body that is said to have as many bytes more.
const ITEMS: &[u8] = b"\x00\x02\0\0\0\0\x06\x0c\0\0\0\0\x01\0\0\x00\x06\0\0\0\0\0\x01\0\0\x03\x01";

/// An array that announces so many items and has none.
const NO_ITEM: &[u8] = b"\x00\x02\0\0\0\0\x06\x0c\0\0\0\0\x01\0\0\x00\x06\0\0\0\0\0\x01\0\0";

/// An object that announces 2^40 entries and has 1 under "a".
const ENTRIES: &[u8] =
    b"\x00\x02\0\0\0\0\x06\x10\0\0\0\0\x01\0\0\x01\x06\0\0\0\0\0\x01\0\0\x0d\x03\x01a\x03\x01";

/// A template that announces 2^40 rows of the key "a" and has one of 1.
const ROWS: &[u8] =
    b"\x00\x02\0\0\0\0\x06\x13\0\0\0\0\x01\0\0\x0b\x00\x03\x01\x0d\x03\x01a\x06\0\0\0\0\0\x01\0\0\x03\x01";

/// A template that announces 2^40 keys and has one, "a".
const KEYS: &[u8] =
    b"\x00\x02\0\0\0\0\x06\x0e\0\0\0\0\x01\0\0\x0b\x00\x06\0\0\0\0\0\x01\0\0\x0d\x03\x01a";

/// A text that announces 2^40 bytes and has one.
const TEXT: &[u8] = b"\x00\x02\0\0\0\0\x06\x0b\0\0\0\0\x01\0\0\x0d\x06\0\0\0\0\0\x01\0\0x";

/// Each of these messages.
const ALL: &[&[u8]] = &[ITEMS, ENTRIES, ROWS, KEYS, TEXT];

/// The refusal of an early end.
const EARLY_END: &str = "E6 Eof";

#[test]
fn an_announced_count_or_length_reserves_nothing(rt: HostRuntime) {
    let alloc = rt.alloc();
    check_refused::<Vec<i64>>(&rt, alloc, ITEMS, EARLY_END);
    check_refused::<Vec<()>>(&rt, alloc, NO_ITEM, EARLY_END);
    check_refused::<BTreeMap<String, i64>>(&rt, alloc, ENTRIES, EARLY_END);
    check_refused::<HashMap<String, i64>>(&rt, alloc, ENTRIES, EARLY_END);
    check_refused::<String>(&rt, alloc, TEXT, EARLY_END);
    check_refused::<ByteString>(&rt, alloc, TEXT, EARLY_END);
}

#[test]
fn what_is_announced_of_rows_or_where_it_is_ignored_reserves_nothing(rt: HostRuntime) {
    for message in &[ROWS, KEYS] {
        check_refused::<Vec<BTreeMap<String, i64>>>(&rt, rt.alloc(), message, EARLY_END);
    }
    for message in ALL {
        check_refused::<Value>(&rt, rt.alloc(), message, EARLY_END);
        check_refused::<Ignored>(&rt, rt.alloc(), message, EARLY_END);
    }
}

/// The beginning of a short body: an array that announces 330 items.
const SHORT_ITEMS: &[u8] = b"\x00\x04\x4a\x01";

/// Four such arrays in each other.
const SHORT_LEVELS: &[u8] = b"\x00\x04\x4a\x01\x00\x04\x4a\x01\x00\x04\x4a\x01\x00\x04\x4a\x01";

/// An object that announces 330 entries, the first under "a".
const SHORT_ENTRIES: &[u8] = b"\x01\x04\x4a\x01\x0d\x03\x01a";

/// A template that announces 330 rows of the key "a".
const SHORT_ROWS: &[u8] = b"\x0b\x00\x03\x01\x0d\x03\x01a\x04\x4a\x01";

/// A template that announces 330 keys.
const SHORT_KEYS: &[u8] = b"\x0b\x00\x04\x4a\x01";

/// Each of these beginnings.
const ALL_SHORT: &[&[u8]] = &[
    SHORT_ITEMS,
    SHORT_LEVELS,
    SHORT_ENTRIES,
    SHORT_ROWS,
    SHORT_KEYS,
];

/// A body of 400 bytes that begins so, and whose rest is one text: as many bytes as would hold what
/// is announced, and one of it.
fn short(alloc: Global, begins: &[u8]) -> Result<Vec<u8>, AllocError> {
    let text = 396_usize.saturating_sub(begins.len()) as u16;
    let mut message = Vec::from_slice(alloc, b"\x00\x02\0\0\0\0\x04\x90\x01")?;
    message.extend_from_slice(begins)?;
    message.extend_from_slice(b"\x0d\x04")?;
    message.extend_from_slice(&text.to_le_bytes())?;
    message.resize(409, b'x')?;
    Ok(message)
}

#[test]
fn what_a_short_body_has_room_for_is_an_early_end_too(rt: HostRuntime) {
    let alloc = rt.alloc();
    for begins in ALL_SHORT {
        let message = short(alloc, begins).expect(&rt, "memory is left");
        check_refused::<Value>(&rt, alloc, &message, EARLY_END);
        check_refused::<Document>(&rt, alloc, &message, EARLY_END);
        check_refused::<Ignored>(&rt, alloc, &message, EARLY_END);
    }
    let items = short(alloc, SHORT_ITEMS).expect(&rt, "memory is left");
    check_refused::<Vec<String>>(&rt, alloc, &items, EARLY_END);
    let entries = short(alloc, SHORT_ENTRIES).expect(&rt, "memory is left");
    check_refused::<BTreeMap<String, String>>(&rt, alloc, &entries, EARLY_END);
    check_refused::<HashMap<String, String>>(&rt, alloc, &entries, EARLY_END);
    let rows = short(alloc, SHORT_ROWS).expect(&rt, "memory is left");
    check_refused::<Vec<BTreeMap<String, String>>>(&rt, alloc, &rows, EARLY_END);
}
