//! An enum from names and objects, and the messages written for it.
use super::choices::Choice;
use super::{Case, check_owned, check_written_again};

/// A choice of each form, as it is written.
static CHOICES: [Case<'static>; 5] = [
    (
        b"\x00\x02\0\0\0\0\x03\x0a\x0d\x03\x07Nothing",
        "Ok(Nothing)",
    ),
    (
        b"\x00\x02\0\0\0\0\x03\x0d\x01\x03\x01\x0d\x03\x03One\x0d\x03\x01a",
        "Ok(One(\"a\"))",
    ),
    (
        b"\x00\x02\0\0\0\0\x03\x12\x01\x03\x01\x0d\x03\x03Two\x00\x03\x02\x0d\x03\x01a\x03\x05",
        "Ok(Two(\"a\", 5))",
    ),
    (
        b"\x00\x02\0\0\0\0\x03\x18\x01\x03\x01\x0d\x03\x05Named\x01\x03\x01\
\x0d\x03\x03abc\x0d\x03\x01a",
        "Ok(Named { abc: \"a\", def: None })",
    ),
    (
        b"\x00\x02\0\0\0\0\x03\x20\x01\x03\x01\x0d\x03\x05Named\x01\x03\x02\
\x0d\x03\x03abc\x0d\x03\x01a\x0d\x03\x03def\x03\xfe",
        "Ok(Named { abc: \"a\", def: Some(-2) })",
    ),
];

#[test]
fn a_variant_of_each_form_is_read_as_it_is_written(rt: HostRuntime) {
    check_owned::<Choice<String>>(&rt, rt.alloc(), &CHOICES);
    check_written_again::<Choice<String>>(&rt, rt.alloc(), &CHOICES);
}
