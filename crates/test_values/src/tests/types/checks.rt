//! Reading from a slice and by a plan, and checks of refusals.
use bser_vectors::devices::Plan;
use bser_vectors::notation::code;
use bser_vectors::ways::read_by_plan;
use serde_bser::de::{Deserialize, DeserializeOwned};
use serde_bser::errors::{Error, Result};
use serde_bser::from_slice;
use std::alloc::Global;
use std::fmt::Debug;
use std::process::Abort;

/// Checks that the error has this code.
pub fn check_error(rt: &impl Abort, alloc: Global, error: &Error, expected: &str) {
    let code = code(alloc, error).expect(rt, "memory is left");
    check_equal(rt, &code.as_str(), &expected);
}

/// Checks that the answer is a refusal of this code.
fn check_code<T>(rt: &impl Abort, alloc: Global, answer: &Result<T>, expected: &str) {
    match answer {
        Ok(_) => assert!(rt; false, "{expected} is read"),
        Err(error) => check_error(rt, alloc, error, expected),
    }
}

/// Checks that the message is refused with this code from a slice, from a reader of one byte a call
/// and from one of all bytes.
pub fn check_refused<'a, T: Deserialize<&'a [u8]> + DeserializeOwned>(
    rt: &impl Abort,
    alloc: Global,
    bytes: &'a [u8],
    expected: &str,
) {
    check_code(rt, alloc, &from_slice::<T>(alloc, bytes), expected);
    for plan in [Plan::pieces(1), Plan::whole()] {
        let answer = read_by_plan::<T>(alloc, bytes, plan).0;
        check_code(rt, alloc, &answer, expected);
    }
}

/// Checks that what was found is what was expected.
pub fn check_equal<T: Debug + PartialEq>(rt: &impl Abort, found: &T, expected: &T) {
    assert_eq!(rt; *found, *expected);
}
