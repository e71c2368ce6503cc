//! How much is read from how many bytes.
ghost use Rattle.std.specs.Prelude.{IfOk, IfErr};
ghost use Rattle.serde_bser.specs.Messages.{RefusesSlice};
ghost use Rattle.serde_bser.specs.ValueView.{tree_of};
ghost use Rattle.bser_laws.specs.Bounds.{IsBoundedByBody};

use serde_bser::de::{Shape, from_slice};
use serde_bser::errors::Result;
use serde_bser::value::Value;
use std::alloc::Global;

/// Reads the message in front of the bytes as a `Value`.
///
/// Where its body has `k` bytes, the value is of at most `2 * k` values, 255 levels deep at most,
/// and its canonical body has at most `k * k` bytes.
pub fn read_within_bounds(alloc: Global, bytes: &[u8]) -> Result<Value>
    ensures found { IfOk result (λ v. IsBoundedByBody bytes.now (tree_of v)) }
    ensures refused { IfErr result (λ e. RefusesSlice 128 ⟦<Value as Shape>⟧.reads
        ⟦<Value as Shape>⟧.asks ⟦<Value as Shape>⟧.needs e bytes.now) }
{
    from_slice(alloc, bytes)
}
