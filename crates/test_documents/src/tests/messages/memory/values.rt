//! Values that are made and copied.
use super::Tested;
use bser_vectors::messages::ROWS;
use serde_bser::errors::Result;
use serde_bser::from_slice;
use serde_bser::value::Value;
use std::alloc::{AllocError, Global};
use std::process::Abort;

/// The value of the two rows.
fn rows(alloc: Global) -> Result<Value> {
    from_slice(alloc, ROWS)
}

/// Checks that the copy is equal to this value, or answers the refusal. The original is in any case.
fn check_copy(
    rt: &impl Abort,
    original: &Value,
    copy: std::result::Result<Value, AllocError>,
    expected: &Value,
) -> Tested {
    assert!(rt; original == expected);
    assert!(rt; copy? == *expected);
    Ok(())
}

#[test]
fn a_value_is_copied_and_cloned_and_made_of_a_text(rt: HostRuntime) -> Tested {
    let (value, same) = (rows(rt.alloc())?, rows(rt.alloc())?);
    check_copy(&rt, &value, value.try_clone(rt.alloc()), &same)?;
    check_copy(&rt, &value, value.clone(), &same)?;
    let made = Value::from_text(rt.alloc(), "Tom")?;
    assert_eq!(rt; made.as_str(), Some("Tom"));
    Ok(())
}
