//! Messages than which no other is shorter.
ghost use Rattle.std.specs.Prelude.{◌≡◌, Ok, IfOk, IfErr};
ghost use Rattle.bser_format.specs.Canonical.{canonical_message};
ghost use Rattle.bser_format.specs.Compact.{compact_message, fold_templates};
ghost use Rattle.bser_format.specs.Expand.{IsTemplateFree};
ghost use Rattle.bser_ser.specs.Message.{IsUnmeasured};
ghost use Rattle.serde_bser.specs.ValueView.{tree_of};
ghost use Rattle.bser_laws.specs.Least.{IsAny, IsLeast, IsNotRewritten, Rewritten};

use crate::messages::to_compact_vec;
use serde_bser::de::{Shape, from_slice};
use serde_bser::errors::Result;
use serde_bser::ser::to_vec;
use serde_bser::value::Value;
use std::alloc::Global;

/// The value's canonical message. No message without templates that reads as the value is shorter.
///
/// Refused for want of memory, or for a body longer than `i64::MAX` bytes.
pub fn least_message(alloc: Global, value: &Value) -> Result<Vec<u8>>
    ensures message { IfOk result (λ m. m.items ≡ canonical_message (tree_of value.now)) }
    ensures least { IfOk result (λ m. IsLeast IsTemplateFree (tree_of value.now) m.items) }
    ensures refused { IfErr result (IsUnmeasured (Ok (tree_of value.now))) }
{
    to_vec(alloc, value)
}

/// The value's compact message. No message at all that reads as the value is shorter.
///
/// Refused as [`least_message`] is, by the compact body.
pub fn least_compact_message(alloc: Global, value: &Value) -> Result<Vec<u8>>
    ensures message { IfOk result (λ m. m.items ≡ compact_message (tree_of value.now)) }
    ensures least { IfOk result (λ m. IsLeast IsAny (tree_of value.now) m.items) }
    ensures refused { IfErr result (IsUnmeasured (Ok (fold_templates (tree_of value.now)))) }
{
    to_compact_vec(alloc, value)
}

/// Reads the message in front of the bytes as a `Value`, and gives the canonical message of that
/// value: it is no longer than the one that was read, where that has no template.
///
/// Refused where reading is, and where the message cannot be made.
pub fn rewritten(alloc: Global, bytes: &[u8]) -> Result<Vec<u8>>
    ensures written { IfOk result (λ m. Rewritten canonical_message IsTemplateFree
        bytes.now m.items) }
    ensures refused { IfErr result (IsNotRewritten (λ t. t) ⟦<Value as Shape>⟧.reads
        ⟦<Value as Shape>⟧.asks ⟦<Value as Shape>⟧.needs bytes.now) }
{
    let value: Value = from_slice(alloc, bytes)?;
    least_message(alloc, &value)
}

/// As [`rewritten`], in the compact form: the message that is given is never longer than the one
/// that was read.
pub fn compactly_rewritten(alloc: Global, bytes: &[u8]) -> Result<Vec<u8>>
    ensures written { IfOk result (λ m. Rewritten compact_message IsAny bytes.now m.items) }
    ensures refused { IfErr result (IsNotRewritten fold_templates ⟦<Value as Shape>⟧.reads
        ⟦<Value as Shape>⟧.asks ⟦<Value as Shape>⟧.needs bytes.now) }
{
    let value: Value = from_slice(alloc, bytes)?;
    least_compact_message(alloc, &value)
}
