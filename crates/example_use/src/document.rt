//! Any message, as it is spelled.
use serde_bser::de::size_of;
use serde_bser::document::{Document, Item};
use serde_bser::errors::Result;
use serde_bser::from_slice;
use serde_bser::value::Value;
use std::alloc::Global;

/// How many bytes the files of an answer have, and the largest of them.
pub fn sizes(alloc: Global, message: &[u8]) -> Result<(i64, i64)> {
    let answer: Document = from_slice(alloc, message)?;
    let mut total: i64 = 0;
    let mut largest: i64 = 0;
    if let Some(files) = answer.root().get("files").and_then(Item::items) {
        for file in files {
            let size = file.get("size").and_then(Item::as_i64).unwrap_or(0);
            total = total.saturating_add(size);
            largest = largest.max(size);
        }
    }
    Ok((total, largest))
}

/// The value of a message, or `None` where it would take more than some 50 MB.
pub fn small_value(alloc: Global, message: &[u8]) -> Result<Option<Value>> {
    let size = size_of(alloc, message)?;
    if size.values > 100_000 || size.key_bytes > 5_000_000 {
        return Ok(None);
    }
    Ok(Some(from_slice(alloc, message)?))
}
