//! Enums that are read call by call, by the form of the variant.
use crate::tests::check_debug;
use serde_bser::de::read::SliceRead;
use serde_bser::de::{Answer, Deserializer, EnumForm, Field, ReadsEnums};
use std::alloc::Global;
use std::process::Abort;

/// Reads a slice.
type Reading = Deserializer<SliceRead<'static>>;

/// The names of the variants.
const NAMES: [&str; 2] = ["Two", "Named"];

/// Two, of the text a and 5.
const TWO: &[u8] =
    b"\x00\x02\0\0\0\0\x03\x12\x01\x03\x01\x0d\x03\x03Two\x00\x03\x02\x0d\x03\x01a\x03\x05";

/// Named, whose field abc is the text a.
const NAMED: &[u8] = b"\x00\x02\0\0\0\0\x03\x18\x01\x03\x01\x0d\x03\x05Named\x01\x03\x01\
\x0d\x03\x03abc\x0d\x03\x01a";

/// The name Two alone.
const ALONE: &[u8] = b"\x00\x02\0\0\0\0\x03\x06\x0d\x03\x03Two";

/// Reads the variant at this place as a tuple.
fn read_tuple(alloc: Global, from: &mut Reading) -> Answer<(usize, String, i64)> {
    let variant = from.read_enum("Choice", &NAMES)?;
    let place = variant.place();
    let mut items = variant.tuple_variant()?;
    let first = items.required_element(alloc)?;
    let second = items.required_element(alloc)?;
    items.end()?;
    Ok((place, first, second))
}

/// Reads the variant as a struct.
fn read_struct(alloc: Global, from: &mut Reading) -> Answer<(usize, Option<Field>, String)> {
    let variant = from.read_enum("Choice", &NAMES)?;
    let place = variant.place();
    let mut entries = variant.struct_variant()?;
    let field = entries.next_field(&["abc"])?;
    let value = entries.next_value(alloc)?;
    entries.end()?;
    Ok((place, field, value))
}

/// Reads the variant by its form, as a tuple.
fn read_tuple_form(alloc: Global, from: &mut Reading) -> Answer<(String, i64)> {
    let mut items = match from.read_enum_form("Choice", &NAMES)? {
        EnumForm::Unit(alone) => alone.tuple_variant()?,
        EnumForm::Object(entry) => entry.tuple_variant()?,
    };
    let first = items.required_element(alloc)?;
    let second = items.required_element(alloc)?;
    items.end()?;
    Ok((first, second))
}

/// Reads the variant by its form, as a struct.
fn read_struct_form(alloc: Global, from: &mut Reading) -> Answer<(Option<Field>, String)> {
    let mut entries = match from.read_enum_form("Choice", &NAMES)? {
        EnumForm::Unit(alone) => alone.struct_variant()?,
        EnumForm::Object(entry) => entry.struct_variant()?,
    };
    let field = entries.next_field(&["abc"])?;
    let value = entries.next_value(alloc)?;
    entries.end()?;
    Ok((field, value))
}

/// A reader of the message.
fn reading(rt: &impl Abort, alloc: Global, message: &'static [u8]) -> Reading {
    let from = Deserializer::new(alloc, SliceRead::new(message));
    from.expect(rt, "the header is whole")
}

/// How the refusal of another type is printed.
const WRONG_TYPE: &str = "DeCustom { msg: Fixed(WrongType) }";

#[test]
fn a_variant_is_read_part_by_part_and_a_name_alone_has_no_parts(rt: HostRuntime) {
    let alloc = rt.alloc();
    let mut from = reading(&rt, alloc, TWO);
    check_debug(
        &rt,
        alloc,
        read_tuple(alloc, &mut from),
        "Ok((0, \"a\", 5))",
    );
    check_debug(&rt, alloc, from.end(), "Ok(())");
    let mut from = reading(&rt, alloc, NAMED);
    let named = "Ok((1, Some(Known(0)), \"a\"))";
    check_debug(&rt, alloc, read_struct(alloc, &mut from), named);
    check_debug(&rt, alloc, from.end(), "Ok(())");
    let mut from = reading(&rt, alloc, ALONE);
    check_debug(&rt, alloc, read_tuple(alloc, &mut from), "Err(Refused)");
    check_debug(&rt, alloc, from.take_refusal(), WRONG_TYPE);
}

#[test]
fn a_variant_is_read_by_its_form(rt: HostRuntime) {
    let alloc = rt.alloc();
    let mut from = reading(&rt, alloc, TWO);
    check_debug(
        &rt,
        alloc,
        read_tuple_form(alloc, &mut from),
        "Ok((\"a\", 5))",
    );
    let mut from = reading(&rt, alloc, NAMED);
    let named = "Ok((Some(Known(0)), \"a\"))";
    check_debug(&rt, alloc, read_struct_form(alloc, &mut from), named);
    for is_tuple in [true, false] {
        let mut from = reading(&rt, alloc, ALONE);
        let is_refused = if is_tuple {
            read_tuple_form(alloc, &mut from).is_err()
        } else {
            read_struct_form(alloc, &mut from).is_err()
        };
        assert!(rt; is_refused);
        check_debug(&rt, alloc, from.take_refusal(), WRONG_TYPE);
    }
}
