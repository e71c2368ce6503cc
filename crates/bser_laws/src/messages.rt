//! Messages of values, compared.
ghost use Rattle.std.specs.Prelude.{◌≡◌, ◌↔◌, ◌⊎◌, Ok, IfOk, IfErr, IsTrue};
ghost use Rattle.bser_format.specs.Canonical.{canonical_message};
ghost use Rattle.bser_format.specs.Compact.{compact_message, fold_templates};
ghost use Rattle.bser_ser.specs.Message.{IsUnmeasured};
ghost use Rattle.serde_bser.specs.ValueView.{tree_of};

use bser_source::device::Watched;
use serde_bser::errors::{Error, Result};
use serde_bser::ser::{serialize_compact, to_vec};
use serde_bser::value::Value;
use std::alloc::Global;

/// The value's compact message in a new vector.
///
/// Refused where the compact body is longer than `i64::MAX` bytes, and for memory, that of the
/// vector included.
pub fn to_compact_vec(alloc: Global, value: &Value) -> Result<Vec<u8>>
    ensures ok { IfOk result (λ message. message.items ≡ compact_message (tree_of value.now)) }
    ensures err { IfErr result (IsUnmeasured (Ok (fold_templates (tree_of value.now)))) }
{
    let mut writer = Watched::new(Vec::new(alloc));
    match serialize_compact(alloc, &mut writer, value) {
        Ok(()) => Ok(writer.into_inner()),
        Err(Error::Io(_)) => Err(Error::OutOfMemory),
        Err(error) => Err(error),
    }
}

/// Whether two values have one canonical message: exactly where they are equal.
///
/// Refused where a message of one of them cannot be made: for want of memory, or for a body longer
/// than `i64::MAX` bytes.
pub fn have_one_message(alloc: Global, first: &Value, second: &Value) -> Result<bool>
    ensures messages { IfOk result (λ same. IsTrue same ↔
        (canonical_message (tree_of first.now) ≡ canonical_message (tree_of second.now))) }
    ensures values { IfOk result (λ same. IsTrue same ↔
        (tree_of first.now ≡ tree_of second.now)) }
    ensures refused { IfErr result (λ e. IsUnmeasured (Ok (tree_of first.now)) e
        ⊎ IsUnmeasured (Ok (tree_of second.now)) e) }
{
    first.check_tree();
    second.check_tree();
    let one = to_vec(alloc, first)?;
    let other = to_vec(alloc, second)?;
    Ok(one.as_slice() == other.as_slice())
}

/// Whether two values have one compact message: exactly where they are equal.
///
/// Refused as [`have_one_message`] is, by the compact bodies.
pub fn have_one_compact_message(alloc: Global, first: &Value, second: &Value) -> Result<bool>
    ensures messages { IfOk result (λ same. IsTrue same ↔
        (compact_message (tree_of first.now) ≡ compact_message (tree_of second.now))) }
    ensures values { IfOk result (λ same. IsTrue same ↔
        (tree_of first.now ≡ tree_of second.now)) }
    ensures refused { IfErr result (λ e. IsUnmeasured (Ok (fold_templates (tree_of first.now))) e
        ⊎ IsUnmeasured (Ok (fold_templates (tree_of second.now))) e) }
{
    first.check_tree();
    second.check_tree();
    let one = to_compact_vec(alloc, first)?;
    let other = to_compact_vec(alloc, second)?;
    Ok(one.as_slice() == other.as_slice())
}
