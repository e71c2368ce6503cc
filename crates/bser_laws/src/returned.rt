//! Values that are written and read back.
ghost use Rattle.std.specs.Prelude.{◌≡◌, ◌≤◌, ◌++◌, Ok, IfOk, IfErr};
ghost use Rattle.bser_format.specs.Canonical.{canonical_message};
ghost use Rattle.bser_format.specs.Compact.{fold_templates};
ghost use Rattle.bser_ser.specs.Message.{IsUnmeasured};
ghost use Rattle.serde_bser.specs.ValueView.{tree_of};
ghost use Rattle.bser_laws.specs.Returned.{IsNotReturned, IsNotReturnedByReader, IsWrittenFor, IsNotRead, TookOne};

use crate::messages::to_compact_vec;
use bser_source::device::Watched;
use serde_bser::de::{Shape, from_reader_within, from_slice_within};
use serde_bser::errors::Result;
use serde_bser::ser::to_vec;
use serde_bser::value::Value;
use std::alloc::Global;

/// A value that was read back from a reader.
#[derive(Drop)]
pub struct ReadBack {
    /// The value.
    pub value: Value,
    /// The bytes that the reader has left.
    pub left: Vec<u8>,
}

/// Writes the value as a message of the canonical form, puts the bytes that follow behind it, and
/// reads the whole from the slice, with at most `limit` levels: it is the same value.
///
/// Refused only for want of memory, for a body longer than `i64::MAX` bytes, or where the value is
/// deeper than `limit`.
pub fn written_and_read(
    alloc: Global,
    limit: usize,
    value: &Value,
    following: &[u8],
) -> Result<Value>
    requires { limit ≤ 1024 }
    ensures same { IfOk result (λ back. tree_of back ≡ tree_of value.now) }
    ensures refused { IfErr result (IsNotReturned limit (tree_of value.now)) }
{
    let bytes = message_before(alloc, value, following)?;
    from_slice_within(alloc, limit, bytes.as_slice())
}

/// As [`written_and_read`], from a reader over the bytes, which has left what follows the message.
///
/// Refused also for a fault that the reader counted.
pub fn written_and_read_on(
    alloc: Global,
    limit: usize,
    value: &Value,
    following: &[u8],
) -> Result<ReadBack>
    requires { limit ≤ 1024 }
    ensures same { IfOk result (λ back. tree_of back.value ≡ tree_of value.now) }
    ensures left { IfOk result (λ back. back.left.items ≡ following.now) }
    ensures refused { IfErr result (IsNotReturnedByReader limit (tree_of value.now)) }
{
    let bytes = message_before(alloc, value, following)?;
    read_on(alloc, limit, bytes.as_slice())
}

/// As [`written_and_read`], in the compact form.
pub fn compactly_written_and_read(
    alloc: Global,
    limit: usize,
    value: &Value,
    following: &[u8],
) -> Result<Value>
    requires { limit ≤ 1024 }
    ensures same { IfOk result (λ back. tree_of back ≡ tree_of value.now) }
    ensures refused { IfErr result (IsNotReturned limit (fold_templates (tree_of value.now))) }
{
    let bytes = compact_message_before(alloc, value, following)?;
    from_slice_within(alloc, limit, bytes.as_slice())
}

/// As [`written_and_read_on`], in the compact form.
pub fn compactly_written_and_read_on(
    alloc: Global,
    limit: usize,
    value: &Value,
    following: &[u8],
) -> Result<ReadBack>
    requires { limit ≤ 1024 }
    ensures same { IfOk result (λ back. tree_of back.value ≡ tree_of value.now) }
    ensures left { IfOk result (λ back. back.left.items ≡ following.now) }
    ensures refused { IfErr result
        (IsNotReturnedByReader limit (fold_templates (tree_of value.now))) }
{
    let bytes = compact_message_before(alloc, value, following)?;
    read_on(alloc, limit, bytes.as_slice())
}

// The value's canonical message, and then the bytes that follow.
fn message_before(alloc: Global, value: &Value, following: &[u8]) -> Result<Vec<u8>>
    ensures bytes { IfOk result (λ bytes.
        bytes.items ≡ canonical_message (tree_of value.now) ++ following.now) }
    ensures written { IfOk result (λ bytes.
        IsWrittenFor (tree_of value.now) (tree_of value.now)) }
    ensures refused { IfErr result (IsUnmeasured (Ok (tree_of value.now))) }
{
    value.check_tree();
    let mut bytes = to_vec(alloc, value)?;
    bytes.extend_from_slice(following)?;
    Ok(bytes)
}

// The value's compact message, and then the bytes that follow.
fn compact_message_before(alloc: Global, value: &Value, following: &[u8]) -> Result<Vec<u8>>
    ensures bytes { IfOk result (λ bytes.
        bytes.items ≡ canonical_message (fold_templates (tree_of value.now)) ++ following.now) }
    ensures written { IfOk result (λ bytes.
        IsWrittenFor (fold_templates (tree_of value.now)) (tree_of value.now)) }
    ensures refused { IfErr result (IsUnmeasured (Ok (fold_templates (tree_of value.now)))) }
{
    value.check_tree();
    let mut bytes = to_compact_vec(alloc, value)?;
    bytes.extend_from_slice(following)?;
    Ok(bytes)
}

// Reads the message in front of the bytes from a reader over them, and copies what it has left.
fn read_on(alloc: Global, limit: usize, bytes: &[u8]) -> Result<ReadBack>
    requires { limit ≤ 1024 }
    ensures found { IfOk result (λ back.
        TookOne limit bytes.now back.left.items back.value) }
    ensures refused { IfErr result (IsNotRead limit ⟦<Value as Shape>⟧.asks bytes.now) }
{
    let mut reader = Watched::new(bytes);
    let value: Value = from_reader_within(alloc, limit, &mut reader)?;
    let left = Vec::from_slice(alloc, reader.into_inner())?;
    Ok(ReadBack { value, left })
}
