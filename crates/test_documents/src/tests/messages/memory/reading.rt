//! Messages that are read as types that take memory, and as such that take none.
use super::{Tested, wanted};
use bser_vectors::devices::Plan;
use bser_vectors::messages::{FALLING_KEYS, NULL, PAIR, PI, ROWS, ROWS_NOTATION, TOM};
use bser_vectors::notation::parse_value;
use bser_vectors::structs::TemplateRow;
use bser_vectors::ways::read_by_plan;
use serde_bser::bytestring::ByteString;
use serde_bser::de::{Deserialize, DeserializeOwned, Ignored, RealBits};
use serde_bser::errors::Result;
use serde_bser::from_slice;
use std::alloc::Global;
use std::collections::{BTreeSet, HashMap};
use std::fmt::Debug;
use std::process::Abort;

/// Checks that the answer is this value, or answers that memory was refused.
fn check_answer<T: PartialEq + Debug + Drop>(
    rt: &impl Abort,
    answer: Result<T>,
    expected: &T,
) -> Tested {
    match answer {
        Ok(found) => assert_eq!(rt; found, *expected),
        Err(error) => wanted(rt, error)?,
    }
    Ok(())
}

/// Checks what the message is read as from a slice, from a reader of one byte a call and from one of
/// all bytes, or answers that memory was refused.
fn check_read<'a, T: Deserialize<&'a [u8]> + DeserializeOwned + PartialEq + Debug>(
    rt: &impl Abort,
    alloc: Global,
    message: &'a [u8],
    expected: &T,
) -> Tested {
    check_answer(rt, from_slice::<T>(alloc, message), expected)?;
    for plan in [Plan::pieces(1), Plan::whole()] {
        check_answer(rt, read_by_plan::<T>(alloc, message, plan).0, expected)?;
    }
    Ok(())
}

/// The number 128.
const NUMBER: &[u8] = b"\x00\x02\0\0\0\0\x03\x03\x04\x80\x00";

#[test]
fn a_number_is_boxed_and_a_text_is_copied(rt: HostRuntime) -> Tested {
    let alloc = rt.alloc();
    check_read(&rt, alloc, NUMBER, &Box::new(alloc, 128i64)?)?;
    check_read(&rt, alloc, TOM, &String::from_str(alloc, "Tom")?)?;
    check_read(&rt, alloc, TOM, &ByteString::from_text(alloc, "Tom")?)
}

/// An array of the numbers 3, 2 and 3.
const NUMBERS: &[u8] = b"\x00\x02\0\0\0\0\x03\x09\x00\x03\x03\x03\x03\x03\x02\x03\x03";

#[test]
fn numbers_are_listed_and_gathered(rt: HostRuntime) -> Tested {
    check_read(&rt, rt.alloc(), NUMBERS, &vec![in rt.alloc(); 3i64, 2, 3]?)?;
    let mut set = BTreeSet::new(rt.alloc());
    for number in &[2i64, 3] {
        set.insert(*number)?;
    }
    check_read(&rt, rt.alloc(), NUMBERS, &set)
}

/// The entries of [`FALLING_KEYS`].
static ENTRIES: [(&str, i64); 2] = [("a", 2), ("b", 1)];

#[test]
fn an_object_is_a_hashed_map(rt: HostRuntime) -> Tested {
    let mut map = HashMap::new(rt.alloc());
    for (key, number) in &ENTRIES {
        map.insert(String::from_str(rt.alloc(), key)?, *number)?;
    }
    check_read(&rt, rt.alloc(), FALLING_KEYS, &map)
}

#[test]
fn a_template_is_a_value_or_ignored_or_refused_for_memory(rt: HostRuntime) -> Tested {
    let value = parse_value(rt.alloc(), ROWS_NOTATION)?;
    check_read(&rt, rt.alloc(), ROWS, &value)?;
    check_read(&rt, rt.alloc(), ROWS, &Ignored)
}

#[test]
fn a_template_is_its_rows_or_refused_for_memory(rt: HostRuntime) -> Tested {
    let alloc = rt.alloc();
    let first = TemplateRow {
        abc: 123,
        def: Some(String::from_str(alloc, "bar")?),
        ghi: None,
    };
    let second = TemplateRow {
        abc: 456,
        def: None,
        ghi: Some(789),
    };
    check_read(&rt, alloc, ROWS, &vec![in alloc; first, second]?)
}

/// Checks what the message is read as from a slice.
fn check_lent<'a, T: Deserialize<&'a [u8]> + PartialEq + Debug + Drop>(
    rt: &impl Abort,
    alloc: Global,
    message: &'a [u8],
    expected: T,
) {
    assert_eq!(rt;
        from_slice::<T>(alloc, message).expect(rt, "the message is read"),
        expected
    );
}

/// The only request for memory is the last one, which the test makes itself.
#[test]
fn scalars_and_lent_strings_take_no_memory(rt: HostRuntime) -> Tested {
    let alloc = rt.alloc();
    let text = b"\x00\x02\0\0\0\0\x03\x04\x0d\x03\x01x";
    check_lent::<&str>(&rt, alloc, text, "x");
    check_lent::<&[u8]>(&rt, alloc, text, b"x");
    check_lent::<char>(&rt, alloc, text, 'x');
    check_lent::<Option<&str>>(&rt, alloc, text, Some("x"));
    check_lent::<i64>(&rt, alloc, NUMBER, 128);
    check_lent::<u8>(&rt, alloc, NUMBER, 128);
    check_lent::<bool>(&rt, alloc, b"\x00\x02\0\0\0\0\x03\x01\x08", true);
    check_lent::<()>(&rt, alloc, NULL, ());
    check_lent(&rt, alloc, PI, RealBits(0x4009_21fb_5444_2d18));
    check_lent::<(i64, &str)>(&rt, alloc, PAIR, (7, "x"));
    drop(String::from_str(alloc, "x")?);
    Ok(())
}
