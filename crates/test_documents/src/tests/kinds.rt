//! What the parts of a document give of what they are.
use super::{EQUAL_KEYS, KINDS, check_debug, document};
use serde_bser::document::Item;

/// Keys of [`KINDS`], and the truth value, the number and the bits of a real that are given, and
/// whether it is null: of a NaN no number, of an integer a real.
const GIVEN: [(&str, &str); 7] = [
    ("t", "(None, None, None, false)"),
    ("i", "(None, Some(300.0), None, false)"),
    ("r", "(None, Some(-1.5), Some(13832806255468478464), false)"),
    ("n", "(None, None, Some(9221120237041090561), false)"),
    ("y", "(Some(true), None, None, false)"),
    ("f", "(Some(false), None, None, false)"),
    ("z", "(None, None, None, true)"),
];

#[test]
fn an_item_gives_what_it_is_and_nothing_of_another_kind(rt: HostRuntime) {
    let document = document(&rt, rt.alloc(), KINDS);
    for (key, given) in &GIVEN {
        let item = document.root().get(*key).expect(&rt, "the key is there");
        let found = (
            item.as_bool(),
            item.as_f64(),
            item.as_real_bits(),
            item.is_null(),
        );
        check_debug(&rt, rt.alloc(), found, given);
    }
}

#[test]
fn entries_are_sorted_each_key_once_with_its_last_value(rt: HostRuntime) {
    let object = document(&rt, rt.alloc(), EQUAL_KEYS);
    let entries = object.root().entries().expect(&rt, "it is an object");
    let sorted = entries.sorted(rt.alloc()).expect(&rt, "memory is left");
    assert_eq!(rt; sorted.len(), 1);
    assert_eq!(rt; sorted.get("k").copied().and_then(Item::as_i64), Some(2));
}
