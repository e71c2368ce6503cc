//! The rows of a template, whose fields are found by place.
use super::{ROWS, document};
use serde_bser::document::{Item, Rows};
use std::process::Abort;

/// The numbers of the rows by the places of their fields, of which there are three.
const NUMBERS: [[Option<i64>; 4]; 2] = [
    [None, None, Some(3), None],
    [Some(4), None, Some(5), None],
];

/// Checks the numbers of the next row.
fn check_next(rt: &impl Abort, rows: &mut Rows<'_>, numbers: &[Option<i64>; 4]) {
    let row = rows.next().expect(rt, "there is a row");
    for (place, number) in numbers.iter().enumerate() {
        assert_eq!(rt; row.field(place).and_then(Item::as_i64), *number, "{place}");
    }
}

#[test]
fn a_field_is_found_by_the_place_of_the_last_of_its_keys(rt: HostRuntime) {
    let document = document(&rt, rt.alloc(), ROWS);
    let mut rows = document.root().rows().expect(&rt, "there are rows");
    for (key, place) in [("a", Some(2)), ("b", Some(1)), ("c", None)] {
        assert_eq!(rt; rows.place(key), place, "{key}");
    }
    for numbers in &NUMBERS {
        check_next(&rt, &mut rows, numbers);
    }
    assert!(rt; rows.next().is_none());
}
