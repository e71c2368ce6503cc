//! Arrays and objects that are read part by part, and what is noted of a refusal.
use super::checks::check_equal;
use crate::tests::checks::check_debug;
use bser_vectors::witness::Witness;
use serde_bser::de::read::SliceRead;
use serde_bser::de::{Answer, Deserializer, Field, ReadsContainers};
use serde_bser::describe::{FieldName, Finding, Note};
use serde_bser::errors::Complaint;
use std::alloc::Global;
use std::process::Abort;

/// Reads a slice.
type Reading = Deserializer<SliceRead<'static>>;

/// An array of 7, the text x and null.
const ITEMS: &[u8] = b"\x00\x02\0\0\0\0\x03\x0a\x00\x03\x03\x03\x07\x0d\x03\x01x\x0a";

/// The first item, how many are left, and the others, up to the end.
type ReadItems = (i64, usize, Option<String>, Option<()>, Option<()>);

/// Reads an array of three items.
fn read_items(from: &mut Reading) -> Answer<ReadItems> {
    let alloc = from.allocator();
    let mut items = from.read_seq()?;
    let first = items.required_element(alloc)?;
    let left = items.remaining();
    let second = items.next_element(alloc)?;
    let third = items.next_element(alloc)?;
    let behind = items.next_element(alloc)?;
    items.end()?;
    Ok((first, left, second, third, behind))
}

/// An object of 1, true and null, under the keys a, b and c.
const ENTRIES: &[u8] =
    b"\x00\x02\0\0\0\0\x03\x13\x01\x03\x03\x0d\x03\x01a\x03\x01\x0d\x03\x01b\x08\x0d\x03\x01c\x0a";

/// An entry by the place of its key, and one by its key.
type FirstEntries = (Option<Field>, i64, Option<String>, bool);

/// How many entries are left, and these.
type LastEntries = (usize, Option<(String, ())>, Option<(String, ())>);

/// Reads an object of three entries.
fn read_entries(from: &mut Reading) -> Answer<(FirstEntries, LastEntries)> {
    let alloc = from.allocator();
    let mut entries = from.read_map()?;
    let field = entries.next_field(&["b", "a"])?;
    let number = entries.next_value(alloc)?;
    let key = entries.next_key(alloc)?;
    let truth = entries.next_value(alloc)?;
    let left = entries.remaining();
    let last = entries.next_entry(alloc)?;
    let behind = entries.next_entry(alloc)?;
    entries.end()?;
    Ok(((field, number, key, truth), (left, last, behind)))
}

/// Reads the message, of one level.
fn reading(rt: &impl Abort, alloc: Global, message: &'static [u8]) -> Reading {
    let from = Deserializer::with_limit(alloc, 1, SliceRead::new(message));
    from.expect(rt, "the header is whole")
}

#[test]
fn an_array_and_an_object_are_read_part_by_part(rt: HostRuntime) {
    let mut from = reading(&rt, rt.alloc(), ITEMS);
    check_equal(&rt, &from.body_length(), &10);
    let items = "Ok((7, 2, Some(\"x\"), Some(()), None))";
    check_debug(&rt, rt.alloc(), read_items(&mut from), items);
    check_debug(&rt, rt.alloc(), from.end(), "Ok(())");
    let mut from = reading(&rt, rt.alloc(), ENTRIES);
    let entries = "Ok(((Some(Known(1)), 1, Some(\"b\"), true), (1, Some((\"c\", ())), None)))";
    check_debug(&rt, rt.alloc(), read_entries(&mut from), entries);
    check_debug(&rt, rt.alloc(), from.end(), "Ok(())");
}

#[test]
fn any_value_is_told_event_by_event(rt: HostRuntime) {
    let mut from = reading(&rt, rt.alloc(), ITEMS);
    let mut witness = Witness::new(ITEMS, 9);
    check_debug(&rt, rt.alloc(), from.read_any(&mut witness), "Ok(())");
    check_equal(&rt, &(witness.taken, witness.in_place), &(5, true));
}

#[test]
fn the_first_refusal_is_noted_with_its_innermost_field(rt: HostRuntime) {
    let mut from = reading(&rt, rt.alloc(), ITEMS);
    check_equal(&rt, &from.note(), &Note::NONE);
    let finding = Finding::OutOfRange(300);
    let refused = from.complain_of(Complaint::IntegerOutOfRange, finding);
    let answer = from.in_field::<()>(Err(refused), &["name", "size"], 1);
    from.note_field(&["files"], 0);
    check_debug(&rt, rt.alloc(), answer, "Err(Refused)");
    let expected = Note {
        finding: Some(finding),
        field: Some(FieldName::new("size")),
        begun: None,
    };
    check_equal(&rt, &from.note(), &expected);
    let reason = "DeCustom { msg: Fixed(IntegerOutOfRange) }";
    check_debug(&rt, rt.alloc(), from.take_refusal(), reason);
}
