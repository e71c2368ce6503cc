//! Whole messages, call by call.
use super::steps::{Call, REFUSED, Step, check_steps};
use bser_deserializer::deserializer::Due;
use bser_vectors::messages::ROWS;

/// An object of null, true, false, 128, a real, the bytes ff fe, the text `hi`, an empty array and a
/// number of eight bytes, under the keys `n`, `t`, `f`, `i`, `r`, `b`, `s`, `a` and, under the tag of
/// byte strings, `l`. The capabilities are 0102.
const SCALARS: &[u8] =
    b"\x00\x02\x02\x01\x00\x00\x03\x4c\x01\x03\x09\x0d\x03\x01n\x0a\x0d\x03\x01t\x08\x0d\x03\x01f\x09\x0d\x03\x01i\x04\x80\x00\x0d\x03\x01r\x07\x01\x02\x03\x04\x05\x06\x07\x08\x0d\x03\x01b\x02\x03\x02\xff\xfe\x0d\x03\x01s\x0d\x03\x02hi\x0d\x03\x01a\x00\x03\x00\x02\x03\x01l\x06\x00\x00\x00\x00\x00\x00\x00\x80";

/// The steps of [`SCALARS`].
const STEPS_OF_SCALARS: [Step; 35] = [
    (Call::Capabilities, "258"),
    (Call::Levels, "128"),
    (Call::Pairs, "(9, false)"),
    (Call::Key, "\"n\""),
    (Call::Node, "Ok(Null)"),
    (Call::Unit, "Ok(())"),
    (Call::Key, "\"t\""),
    (Call::Node, "Ok(Bool)"),
    (Call::Bool, "Ok(true)"),
    (Call::Key, "\"f\""),
    (Call::IsNone, "Ok(false)"),
    (Call::Bool, "Ok(false)"),
    (Call::Key, "\"i\""),
    (Call::Node, "Ok(Integer)"),
    (Call::Integer, "Ok(128)"),
    (Call::Key, "\"r\""),
    (Call::Node, "Ok(Real)"),
    (Call::Real, "Ok(578437695752307201)"),
    (Call::Key, "\"b\""),
    (Call::Node, "Ok(Bytes)"),
    (Call::Bytes, "[255, 254]"),
    (Call::Key, "\"s\""),
    (Call::Node, "Ok(Text)"),
    (Call::Text, "\"hi\""),
    (Call::Key, "\"a\""),
    (Call::Node, "Ok(Array)"),
    (Call::Items, "(0, false)"),
    (Call::Levels, "126"),
    (Call::ItemsEnd, ""),
    (Call::Levels, "127"),
    (Call::Key, "\"l\""),
    (Call::Integer, "Ok(-9223372036854775808)"),
    (Call::PairsEnd, ""),
    (Call::Levels, "128"),
    (Call::End, "Ok(())"),
];

/// The steps of [`ROWS`].
const STEPS_OF_ROWS: [Step; 26] = [
    (Call::Items, "(2, true)"),
    (Call::Levels, "127"),
    // the first row
    (Call::Await(Due::Row), ""),
    (Call::Node, "Ok(Object)"),
    (Call::Pairs, "(0, true)"),
    (Call::Levels, "127"),
    (Call::Name(0), "\"abc\""),
    (Call::Integer, "Ok(123)"),
    (Call::Name(1), "\"def\""),
    (Call::Bytes, "\"bar\""),
    (Call::Name(2), "\"ghi\""),
    (Call::IsNone, "Ok(true)"),
    (Call::PairsEnd, ""),
    // the second row
    (Call::Await(Due::Row), ""),
    (Call::Pairs, "(0, true)"),
    (Call::Name(0), "\"abc\""),
    (Call::Integer, "Ok(456)"),
    (Call::Name(1), "\"def\""),
    (Call::Node, "Ok(Null)"),
    (Call::Unit, "Ok(())"),
    (Call::Name(2), "\"ghi\""),
    (Call::Integer, "Ok(789)"),
    (Call::PairsEnd, ""),
    (Call::ItemsEnd, ""),
    (Call::Levels, "128"),
    (Call::End, "Ok(())"),
];

/// Two rows under the key `a`, of which the first holds a row true, false under the keys `b` and `c`,
/// and the second 7.
const NESTED: &[u8] =
    b"\x00\x02\x00\x00\x00\x00\x03\x1c\x0b\x00\x03\x01\x02\x03\x01a\x03\x02\x0b\x00\x03\x02\x0d\x03\x01b\x02\x03\x01c\x03\x01\x08\x09\x03\x07";

/// The steps of [`NESTED`].
const STEPS_OF_NESTED: [Step; 25] = [
    (Call::Items, "(2, true)"),
    (Call::Await(Due::Row), ""),
    (Call::Pairs, "(0, true)"),
    (Call::Name(0), "\"a\""),
    // the row inside
    (Call::Items, "(1, true)"),
    (Call::Levels, "126"),
    (Call::Await(Due::Row), ""),
    (Call::Pairs, "(0, true)"),
    (Call::Name(1), "\"c\""),
    (Call::Await(Due::Nothing), ""),
    (Call::Name(0), "\"b\""),
    (Call::Bool, "Ok(true)"),
    (Call::Await(Due::Field), ""),
    (Call::Bool, "Ok(false)"),
    (Call::PairsEnd, ""),
    (Call::ItemsEnd, ""),
    (Call::Levels, "127"),
    (Call::PairsEnd, ""),
    // the second row
    (Call::Await(Due::Row), ""),
    (Call::Pairs, "(0, true)"),
    (Call::Name(0), "\"a\""),
    (Call::Integer, "Ok(7)"),
    (Call::PairsEnd, ""),
    (Call::ItemsEnd, ""),
    (Call::End, "Ok(())"),
];

/// The reason of a call in an open value.
const OPEN: &str = "DeCustom { msg: Fixed(ValueOpen) }";

/// The answer of an end in an open value.
const END_OPEN: &str = "Err(DeCustom { msg: Fixed(ValueOpen) })";

/// An array of one null.
const ARRAY: &[u8] = b"\x00\x02\x00\x00\x00\x00\x03\x04\x00\x03\x01\x0a";

/// One row under the key `a`.
const ROW: &[u8] = b"\x00\x02\x00\x00\x00\x00\x03\x0b\x0b\x00\x03\x01\x02\x03\x01a\x03\x01\x0a";

/// In the open [`ARRAY`] nothing is due.
const INSIDE_ITEMS: [Step; 5] = [
    (Call::Items, "(1, false)"),
    (Call::Due, "Nothing"),
    (Call::End, END_OPEN),
    (Call::Node, REFUSED),
    (Call::Reason, OPEN),
];

/// Past the keys of [`ROW`] nothing is due.
const PAST_KEYS: [Step; 6] = [
    (Call::Items, "(1, true)"),
    (Call::Await(Due::Row), ""),
    (Call::Pairs, "(0, true)"),
    (Call::AwaitName(1), ""),
    (Call::Text, REFUSED),
    (Call::Reason, OPEN),
];

/// Each end inside [`ARRAY`] is refused, and those after it are not.
const ENDS: [Step; 13] = [
    (Call::Due, "Node"),
    (Call::End, END_OPEN),
    (Call::Items, "(1, false)"),
    (Call::End, END_OPEN),
    (Call::Await(Due::Node), ""),
    (Call::End, END_OPEN),
    (Call::Unit, "Ok(())"),
    (Call::Due, "Nothing"),
    (Call::End, END_OPEN),
    (Call::ItemsEnd, ""),
    (Call::IsFailed, "false"),
    (Call::End, "Ok(())"),
    (Call::End, "Ok(())"),
];

/// A null, of which the head announces a byte more.
const LONGER: &[u8] = b"\x00\x02\x00\x00\x00\x00\x03\x02\x0a\x0a";

const LONGER_STEPS: [Step; 2] = [
    (Call::Unit, "Ok(())"),
    (Call::End, "Err(DeEof { expected: 10, read: 9 })"),
];

/// A null, of which the head announces no byte.
const SHORTER: &[u8] = b"\x00\x02\x00\x00\x00\x00\x03\x00\x0a";

const SHORTER_STEPS: [Step; 2] = [
    (Call::Unit, "Ok(())"),
    (Call::End, "Err(DeEof { expected: 8, read: 9 })"),
];

/// Messages, and the steps in which they are read.
static MESSAGES: [(&[u8], &[Step]); 8] = [
    (SCALARS, &STEPS_OF_SCALARS),
    (ROWS, &STEPS_OF_ROWS),
    (NESTED, &STEPS_OF_NESTED),
    (ARRAY, &INSIDE_ITEMS),
    (ARRAY, &ENDS),
    (ROW, &PAST_KEYS),
    (LONGER, &LONGER_STEPS),
    (SHORTER, &SHORTER_STEPS),
];

#[test]
fn messages_are_read_call_by_call_to_an_end_that_is_where_the_head_says(rt: HostRuntime) {
    for (message, steps) in &MESSAGES {
        check_steps(&rt, rt.alloc(), message, steps);
    }
}
