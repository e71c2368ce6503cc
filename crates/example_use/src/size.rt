//! Contracts about what was read.
ghost use Rattle.std.specs.Prelude.{IfOk, IfErr};
ghost use Rattle.serde_bser.specs.Messages.{RefusesSlice};
ghost use Rattle.example_use.specs.Sizes.{HasSize, IsFileOfSize};

use crate::file::File;
use serde_bser::de::{Shape, from_slice};
use serde_bser::errors::Result;
use serde_bser::value::Value;
use std::alloc::Global;

/// The integer under the key "size" of the object that the message is, if there is one.
pub fn size_in(alloc: Global, bytes: &[u8]) -> Result<Option<i64>>
    ensures found { IfOk result (HasSize bytes.now) }
    ensures refused { IfErr result (λ e. RefusesSlice 128 ⟦<Value as Shape>⟧.reads
        ⟦<Value as Shape>⟧.asks ⟦<Value as Shape>⟧.needs e bytes.now) }
{
    let value: Value = from_slice(alloc, bytes)?;
    match value.get("size") {
        Some(size) => Ok(size.as_i64()),
        None => Ok(None),
    }
}

/// The size of the file that the message is.
pub fn file_size(alloc: Global, bytes: &[u8]) -> Result<u64>
    ensures found { IfOk result
        (IsFileOfSize ⟦<File as Shape>⟧.reads ⟦<File as Shape>⟧.holds bytes.now) }
{
    let file: File = from_slice(alloc, bytes)?;
    Ok(file.size)
}
