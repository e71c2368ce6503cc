//! Reading integers.
ghost use Rattle.std.specs.Prelude.{◌≡◌, ◌≢◌, ◌≤ℤ◌, ℤ, Bool, true, refl, Some, IfOk, OnErr};
ghost use Rattle.bser_format.specs.ReadsScalars.{is_signed, is_unsigned, reads_integer, reads_signed, reads_unsigned};
ghost use Rattle.bser_deserializer.specs.Askings.{asking_integer};
ghost use Rattle.bser_deserializer.specs.Calls.{is_out_of_range};
ghost use Rattle.bser_deserializer.specs.Reading.{bare};
ghost use Rattle.bser_deserializer.specs.Holds.{HoldsNumber, HoldsSize};
ghost use Rattle.bser_deserializer.specs.State.{refused};
ghost use Rattle.bser_types.specs.Accesses.{ReadsDue, RefusesDue};
ghost use Rattle.bser_types.specs.Ranges.{LiesWithin, out_of_range};

use crate::deserialize::{Deserialize, OwnedShape, Shape};
use bser_bunser::refusal::{Answer, Refused};
use bser_deserializer::deserializer::Deserializer;
use bser_deserializer::note::Finding;
use bser_format::errors::{Complaint, Error};
use bser_source::read::DeRead;
use bser_source::reference::LendsText;
use std::alloc::Global;

/// Fails for an integer that the type does not hold, which began behind so many bytes, and notes it.
#[cold]
#[inline(never)]
fn refuse_number<R: DeRead>(from: &mut Deserializer<R>, begun: usize, number: i64) -> Refused
    ensures reason { from.new.refusal ≡ out_of_range from.old.state }
    ensures state { from.new.state ≡ refused from.old.state }
    ensures begun { from.new.note.begun ≡ Some begun }
{
    from.note_begun(begun);
    from.complain_of(Complaint::IntegerOutOfRange, Finding::OutOfRange(number))
}

/// Reads an integer from `least` to `most`. Another one is the error of a type whose range lies
/// between the two.
#[inline(always)]
fn read_within<R: DeRead>(from: &mut Deserializer<R>, least: i64, most: i64) -> Answer<i64>
    ensures found { IfOk result (ReadsDue (reads_signed 64) HoldsNumber from.old from.new) }
    ensures low { IfOk result (λ v. least ≤ℤ v) }
    ensures high { IfOk result (λ v. v ≤ℤ most) }
    ensures refused { OnErr result ((fits : ℤ → Bool) → LiesWithin fits least most
        → RefusesDue (reads_integer fits) (Some (asking_integer fits)) bare from.old from.new) }
    ensures place { OnErr result (is_out_of_range from.new.refusal ≡ true
        → from.new.note.begun ≡ Some from.old.state.source.count) }
    ensures memory { OnErr result (from.new.refusal ≢ Error.OutOfMemory) }
{
    let begun = from.taken();
    let number = from.read_i64()?;
    if number < least || most < number {
        return Err(refuse_number(from, begun, number));
    }
    Ok(number)
}

impl Shape for i64 {
    ghost reads = { reads_signed 64 };

    ghost holds = { HoldsNumber };

    ghost needs = { bare };

    ghost asks = { Some (asking_integer (is_signed 64)) };

    ghost plain = { Some (λ _. refl) };
}

impl<L: LendsText> Deserialize<L> for i64 {
    #[inline(always)]
    fn deserialize<R: DeRead<Lent = L>>(_alloc: Global, from: &mut Deserializer<R>) -> Answer<i64> {
        from.read_i64()
    }
}

impl OwnedShape for i64 {
    ghost owned = { refl };
}

/// An integer that the type does not hold is [`Complaint::IntegerOutOfRange`].
impl Shape for i8 {
    ghost reads = { reads_signed 8 };

    ghost holds = { HoldsNumber };

    ghost needs = { bare };

    ghost asks = { Some (asking_integer (is_signed 8)) };

    ghost plain = { Some (λ _. refl) };
}

impl<L: LendsText> Deserialize<L> for i8 {
    #[inline(always)]
    fn deserialize<R: DeRead<Lent = L>>(_alloc: Global, from: &mut Deserializer<R>) -> Answer<i8> {
        Ok(read_within(from, i8::MIN as i64, i8::MAX as i64)? as i8)
    }
}

impl OwnedShape for i8 {
    ghost owned = { refl };
}

impl Shape for i16 {
    ghost reads = { reads_signed 16 };

    ghost holds = { HoldsNumber };

    ghost needs = { bare };

    ghost asks = { Some (asking_integer (is_signed 16)) };

    ghost plain = { Some (λ _. refl) };
}

impl<L: LendsText> Deserialize<L> for i16 {
    #[inline(always)]
    fn deserialize<R: DeRead<Lent = L>>(_alloc: Global, from: &mut Deserializer<R>) -> Answer<i16> {
        Ok(read_within(from, i16::MIN as i64, i16::MAX as i64)? as i16)
    }
}

impl OwnedShape for i16 {
    ghost owned = { refl };
}

impl Shape for i32 {
    ghost reads = { reads_signed 32 };

    ghost holds = { HoldsNumber };

    ghost needs = { bare };

    ghost asks = { Some (asking_integer (is_signed 32)) };

    ghost plain = { Some (λ _. refl) };
}

impl<L: LendsText> Deserialize<L> for i32 {
    #[inline(always)]
    fn deserialize<R: DeRead<Lent = L>>(_alloc: Global, from: &mut Deserializer<R>) -> Answer<i32> {
        Ok(read_within(from, i32::MIN as i64, i32::MAX as i64)? as i32)
    }
}

impl OwnedShape for i32 {
    ghost owned = { refl };
}

impl Shape for u8 {
    ghost reads = { reads_unsigned 8 };

    ghost holds = { HoldsSize };

    ghost needs = { bare };

    ghost asks = { Some (asking_integer (is_unsigned 8)) };

    ghost plain = { Some (λ _. refl) };
}

impl<L: LendsText> Deserialize<L> for u8 {
    #[inline(always)]
    fn deserialize<R: DeRead<Lent = L>>(_alloc: Global, from: &mut Deserializer<R>) -> Answer<u8> {
        Ok(read_within(from, 0, u8::MAX as i64)? as u8)
    }
}

impl OwnedShape for u8 {
    ghost owned = { refl };
}

impl Shape for u16 {
    ghost reads = { reads_unsigned 16 };

    ghost holds = { HoldsSize };

    ghost needs = { bare };

    ghost asks = { Some (asking_integer (is_unsigned 16)) };

    ghost plain = { Some (λ _. refl) };
}

impl<L: LendsText> Deserialize<L> for u16 {
    #[inline(always)]
    fn deserialize<R: DeRead<Lent = L>>(_alloc: Global, from: &mut Deserializer<R>) -> Answer<u16> {
        Ok(read_within(from, 0, u16::MAX as i64)? as u16)
    }
}

impl OwnedShape for u16 {
    ghost owned = { refl };
}

impl Shape for u32 {
    ghost reads = { reads_unsigned 32 };

    ghost holds = { HoldsSize };

    ghost needs = { bare };

    ghost asks = { Some (asking_integer (is_unsigned 32)) };

    ghost plain = { Some (λ _. refl) };
}

impl<L: LendsText> Deserialize<L> for u32 {
    #[inline(always)]
    fn deserialize<R: DeRead<Lent = L>>(_alloc: Global, from: &mut Deserializer<R>) -> Answer<u32> {
        Ok(read_within(from, 0, u32::MAX as i64)? as u32)
    }
}

impl OwnedShape for u32 {
    ghost owned = { refl };
}

impl Shape for u64 {
    ghost reads = { reads_unsigned 64 };

    ghost holds = { HoldsSize };

    ghost needs = { bare };

    ghost asks = { Some (asking_integer (is_unsigned 64)) };

    ghost plain = { Some (λ _. refl) };
}

impl<L: LendsText> Deserialize<L> for u64 {
    #[inline(always)]
    fn deserialize<R: DeRead<Lent = L>>(_alloc: Global, from: &mut Deserializer<R>) -> Answer<u64> {
        Ok(read_within(from, 0, i64::MAX)? as u64)
    }
}

impl OwnedShape for u64 {
    ghost owned = { refl };
}

/// As 64 bits.
impl Shape for usize {
    ghost reads = { reads_unsigned 64 };

    ghost holds = { HoldsSize };

    ghost needs = { bare };

    ghost asks = { Some (asking_integer (is_unsigned 64)) };

    ghost plain = { Some (λ _. refl) };
}

impl<L: LendsText> Deserialize<L> for usize {
    #[inline(always)]
    fn deserialize<R: DeRead<Lent = L>>(
        _alloc: Global,
        from: &mut Deserializer<R>,
    ) -> Answer<usize> {
        Ok(read_within(from, 0, i64::MAX)? as usize)
    }
}

impl OwnedShape for usize {
    ghost owned = { refl };
}

/// As 64 bits.
impl Shape for isize {
    ghost reads = { reads_signed 64 };

    ghost holds = { HoldsNumber };

    ghost needs = { bare };

    ghost asks = { Some (asking_integer (is_signed 64)) };

    ghost plain = { Some (λ _. refl) };
}

impl<L: LendsText> Deserialize<L> for isize {
    #[inline(always)]
    fn deserialize<R: DeRead<Lent = L>>(
        _alloc: Global,
        from: &mut Deserializer<R>,
    ) -> Answer<isize> {
        Ok(from.read_i64()? as isize)
    }
}

impl OwnedShape for isize {
    ghost owned = { refl };
}
