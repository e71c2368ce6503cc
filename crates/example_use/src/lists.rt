//! Types that need no line of the program.
use crate::file::File;
use serde_bser::bytestring::ByteString;
use serde_bser::de::ObjectOr;
use serde_bser::describe::{self, Description};
use std::alloc::Global;
use std::collections::BTreeMap;

/// How many numbers the longest list of the message has. The keys are borrowed from `bytes`.
pub fn longest_list(alloc: Global, bytes: &[u8]) -> Result<usize, Description> {
    let lists: BTreeMap<&str, Vec<i64>> = describe::from_slice(alloc, bytes)?;
    let mut longest = 0;
    for (_name, numbers) in &lists {
        longest = numbers.len().max(longest);
    }
    Ok(longest)
}

/// How many items of the list are names alone, and no objects.
pub fn bare_names(alloc: Global, bytes: &[u8]) -> Result<usize, Description> {
    let files: Vec<ObjectOr<File, ByteString>> = describe::from_slice(alloc, bytes)?;
    let mut count: usize = 0;
    for file in &files {
        if let ObjectOr::Other(_name) = file {
            count = count.saturating_add(1);
        }
    }
    Ok(count)
}
