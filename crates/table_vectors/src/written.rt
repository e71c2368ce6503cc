//! The messages that are written for a value.
use anyhow::{Result, ensure};
use bser_vectors::notation::parse_value;
use bser_vectors::sums::is_message;
use bser_vectors::ways::written;
use serde_bser::device::Watched;
use serde_bser::ser::{serialize_compact, to_vec};
use serde_bser::value::Value;
use std::alloc::Global;

/// Whether the messages that are written for the value of this notation are shown so.
pub fn compare_written(
    alloc: Global,
    notation: &str,
    canonical: &str,
    compact: &str,
) -> Result<()> {
    let value = parse_value(alloc, notation)?;
    ensure!(
        is_message(alloc, &written(alloc, &value)?, canonical)?,
        "another answer, written"
    );
    ensure!(
        is_message(alloc, &to_vec(alloc, &value)?, canonical)?,
        "another answer, written to a vector"
    );
    ensure!(
        is_message(alloc, &compact_message(alloc, &value)?, compact)?,
        "another answer, written compactly"
    );
    Ok(())
}

/// The value's message in the compact form.
pub fn compact_message(alloc: Global, value: &Value) -> Result<Vec<u8>> {
    let mut writer = Watched::new(Vec::new(alloc));
    serialize_compact(alloc, &mut writer, value)?;
    Ok(writer.into_inner())
}
