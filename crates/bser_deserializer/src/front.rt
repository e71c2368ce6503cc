//! The buffered bytes of a value that is expected, for the crates above.
ghost use Rattle.std.specs.Prelude.{◌≡◌, ◌≤◌, length, IfSome, OnOk, OnErr};
ghost use Rattle.bser_source.specs.Window.{consumed};
ghost use Rattle.bser_deserializer.specs.Buffered.{Buffers, IsValueFront};
ghost use Rattle.bser_deserializer.specs.Calls.{Keeps, RefusesAny};
ghost use Rattle.bser_deserializer.specs.State.{past};

use crate::cursor::Cursor;
use crate::deserializer::{Deserializer, Due};
use bser_bunser::refusal::Answer;
use bser_source::read::{DeRead, count_octets};

/// What is buffered where a value is expected.
#[derive(Clone, Copy)]
pub struct ValueFront<'s> {
    /// The bytes.
    pub bytes: &'s [u8],
    /// How many levels are left.
    pub levels: usize,
}

/// Buffers what is announced of the value that is expected, a byte at least, and takes none. Where
/// no value is expected it does nothing.
#[inline(always)]
pub fn fill_value<R: DeRead>(from: &mut Deserializer<R>) -> Answer<()>
    ensures ok { OnOk result (Buffers from.old from.new) }
    ensures kept { OnOk result (Keeps from.old from.new) }
    ensures refused { OnErr result (RefusesAny from.old from.new) }
{
    match from.due {
        Due::Node => from.bunser.fill(1),
        _ => Ok(()),
    }
}

/// Returns the first bytes that are buffered, at most `most`. None where no value is expected, the
/// body is longer, or a call failed.
#[inline(always)]
pub fn value_front<R: DeRead>(from: &Deserializer<R>, most: usize) -> Option<ValueFront<'_>>
    ensures { IfSome result (λ f. IsValueFront from.now f.levels f.bytes.now) }
{
    let Due::Node = from.due else {
        return None;
    };
    match usize::try_from(from.info.len) {
        Ok(len) if len <= most && !from.is_failed() => {
            let buffered = from.bunser.buffered();
            let len = count_octets(buffered);
            let bytes = &buffered[..if len < most { len } else { most }];
            let _octets = count_octets(bytes);
            Some(ValueFront {
                bytes,
                levels: from.levels,
            })
        }
        _ => None,
    }
}

/// Takes the first `len` buffered bytes, which are what is expected.
#[inline(always)]
pub fn take_front<R: DeRead>(from: &mut Deserializer<R>, len: usize)
    requires { len ≤ length from.old.state.source.buffered }
    ensures state { from.new.state ≡ past from.old.state (consumed len from.old.state.source) }
    ensures kept { Keeps from.old from.new }
{
    from.bunser.consume(len);
    from.due = Due::Nothing;
}
