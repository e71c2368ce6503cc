//! Reading a `Value`.
ghost use Rattle.std.specs.Prelude.{◌≡◌, refl, Some, None, MatchOption, IfOk, OnErr};
ghost use Rattle.bser_format.specs.ReadsAny.{reads_value};
ghost use Rattle.bser_deserializer.specs.Askings.{asking_value};
ghost use Rattle.bser_deserializer.specs.Calls.{Reads};
ghost use Rattle.bser_deserializer.specs.Reading.{owned, Refuses};
ghost use Rattle.bser_value.specs.ValueView.{HoldsValue};

use crate::builder::ValueBuilder;
use crate::direct::{FourLevels, Read, value};
use crate::value::Value;
use bser_bunser::refusal::Answer;
use bser_deserializer::deserializer::Deserializer;
use bser_deserializer::front::{fill_value, take_front, value_front};
use bser_source::read::DeRead;
use bser_source::reference::LendsText;
use bser_types::deserialize::{Deserialize, OwnedShape, Shape};
use std::alloc::Global;

/// How many bytes a body has at most that is read at once: the rows of a longer template are made
/// faster by a table.
const MOST: usize = 512;

/// Any value is read, as a key's text or bytes too. The keys of objects have to be UTF-8, and the
/// last of equal keys stays. Out of memory is `Error::OutOfMemory`.
impl Shape for Value {
    ghost reads = { reads_value };

    ghost holds = { HoldsValue };

    ghost needs = { owned };

    ghost asks = { Some asking_value };

    ghost plain = { None };
}

impl<L: LendsText> Deserialize<L> for Value {
    fn deserialize<R: DeRead<Lent = L>>(
        alloc: Global,
        from: &mut Deserializer<R>,
    ) -> Answer<Value> {
        fill_value(from)?;
        read_buffered(alloc, from)
    }
}

/// The value that is expected, at once where it is small and buffered whole.
#[inline(always)]
fn read_buffered<R: DeRead>(alloc: Global, from: &mut Deserializer<R>) -> Answer<Value>
    ensures found { IfOk result (Reads reads_value HoldsValue from.old from.new) }
    ensures refused { OnErr result (Refuses reads_value (Some asking_value) owned
        from.new.refusal from.old.state from.new.state) }
{
    match small_due(alloc, from) {
        Some(small) => Ok(small),
        None => read_slowly(alloc, from),
    }
}

/// The value that is expected, where it is small and buffered whole. None says nothing of the
/// bytes, and nothing was taken then.
#[inline(always)]
fn small_due<R: DeRead>(alloc: Global, from: &mut Deserializer<R>) -> Option<Value>
    ensures { MatchOption result (from.new ≡ from.old)
        (λ v. Reads reads_value HoldsValue from.old from.new v) }
{
    let front = value_front(from, MOST)?;
    let Read { value, rest } = value::<FourLevels>(alloc, front.bytes, front.levels)?;
    let len = front.bytes.len().checked_sub(rest.len())?;
    take_front(from, len);
    Some(value)
}

/// The value that is expected, whatever is buffered.
#[cold]
#[inline(never)]
fn read_slowly<R: DeRead>(alloc: Global, from: &mut Deserializer<R>) -> Answer<Value>
    ensures found { IfOk result (Reads reads_value HoldsValue from.old from.new) }
    ensures refused { OnErr result (Refuses reads_value (Some asking_value) owned
        from.new.refusal from.old.state from.new.state) }
{
    let mut builder = ValueBuilder::new(alloc);
    from.read_any(&mut builder)?;
    match builder.into_value() {
        Some(value) => Ok(value),
        None => unreachable!(),
    }
}

impl OwnedShape for Value {
    ghost owned = { refl };
}
