//! The fields of a struct, one after another.
ghost use Rattle.std.specs.Prelude.{◌≡◌, ◌<◌, ◌^◌, List, [], ◌∷◌, true, false, IfOk, OnOk, OnErr, IfErr, IfSome};
ghost use Rattle.bser_format.specs.Content.{Content};
ghost use Rattle.bser_deserializer.specs.Reading.{Needs};
ghost use Rattle.bser_types.specs.Slots.{StructField, fill_at, KeepsBoth};
ghost use Rattle.bser_structs.specs.Absent.{ok_of};
ghost use Rattle.bser_structs.specs.Askings.{FieldAskings};
ghost use Rattle.bser_structs.specs.Structs.{IsUnknown, Steps, RefusesAt, AreInTurn, IsNext, ReadsInTurn, RefusesInTurn, EndAs, Lacks};

use crate::slot::Slot;
use bser_bunser::refusal::Answer;
use bser_deserializer::cursor::{Cursor, keys_of};
use bser_deserializer::deserializer::Deserializer;
use bser_deserializer::field::{Field, find_field, is_same};
use bser_source::read::DeRead;
use bser_source::reference::{Lending, LendsText};
use bser_types::deserialize::Deserialize;
use bser_types::impls::ignored::Ignored;
use std::alloc::Global;

/// The fields of a struct, one after another: pairs of a field and the others, up to `()`.
pub trait Slots<L: LendsText>: Drop {
    /// What the fields are read as.
    type Values: Drop;

    // the fields before one is read
    ghost fields: { List StructField };

    // what was read of them
    ghost keeps: { Self → List StructField → Type 0 };

    // what their values hold
    ghost holds: { Self.Values → List (Content → Type 0) };

    // what reading them needs
    ghost needs: { List Needs };

    // which readers give their errors, where their types say one
    ghost asks: { FieldAskings Self.fields };

    /// Makes fields that were not read yet.
    fn empty() -> Self
        ensures { Self.keeps result Self.fields };

    /// Reads the value that is expected as that of the field at this place. Where no field has the
    /// place, the value is read as [`Ignored`].
    ///
    /// Fails as [`Slot::fill`] does, and the fields are then as they were.
    fn fill_at<R: DeRead<Lent = L>>(
        &mut self,
        alloc: Global,
        place: usize,
        from: &mut Deserializer<R>,
    ) -> Answer<()>
        ensures found { OnOk result (Steps (fill_at place) Self.keeps self.old self.new
            from.old from.new) }
        ensures unchanged { OnErr result (self.new ≡ self.old) }
        ensures refused { OnErr result (RefusesAt place Self.fields Self.asks Self.needs
            (Self.keeps self.old) from.old from.new) };

    /// Returns whether the row's keys, from this place on, are these names one after another. Each
    /// of them has to be there once, and as many as there are fields.
    fn are_in_turn<R: DeRead<Lent = L>>(
        from: &Deserializer<R>,
        place: usize,
        names: &[&str],
    ) -> bool
        ensures { result ≡ true → AreInTurn Self.fields names.now place from.now };

    /// Reads the row's values as those of the fields one after another.
    ///
    /// The errors are those of the values' types. An error notes the field's name, of which `at` is
    /// the place, and each later call of the deserializer fails then.
    fn read_in_turn<R: DeRead<Lent = L>>(
        alloc: Global,
        from: &mut Deserializer<R>,
        known: &[&str],
        at: usize,
    ) -> Answer<Self::Values>
        ensures found { IfOk result (ReadsInTurn Self.fields Self.holds from.old from.new) }
        ensures refused { OnErr result (RefusesInTurn Self.fields Self.asks Self.needs
            from.old from.new) };

    /// Returns the fields' values, or the place of the first that is required and absent.
    fn finish(self) -> Result<Self::Values, usize>
        ensures values { EndAs Self.holds (Self.keeps self) (ok_of result) }
        ensures absent { IfErr result (Lacks (Self.keeps self)) };
}

impl<L: LendsText> Slots<L> for () {
    type Values = ();

    ghost fields = { [] };

    ghost keeps = { λ _ ss. ss ≡ [] };

    ghost holds = { λ _. [] };

    ghost needs = { [] };

    ghost asks = { tt };

    #[inline(always)]
    fn empty() -> Self {}

    #[inline(always)]
    fn fill_at<R: DeRead<Lent = L>>(
        &mut self,
        alloc: Global,
        _place: usize,
        from: &mut Deserializer<R>,
    ) -> Answer<()> {
        Ignored::deserialize(alloc, from)?;
        Ok(())
    }

    #[inline(always)]
    fn are_in_turn<R: DeRead<Lent = L>>(
        from: &Deserializer<R>,
        place: usize,
        _names: &[&str],
    ) -> bool {
        keys_of(from).len() == place
    }

    #[inline(always)]
    fn read_in_turn<R: DeRead<Lent = L>>(
        _alloc: Global,
        _from: &mut Deserializer<R>,
        _known: &[&str],
        _at: usize,
    ) -> Answer<()> {
        Ok(())
    }

    #[inline(always)]
    fn finish(self) -> Result<(), usize> {
        Ok(())
    }
}

impl<L: LendsText, A: Slot<L>, F: Slots<L>> Slots<L> for (A, F) {
    type Values = (A::Value, F::Values);

    ghost fields = { A.field ∷ F.fields };

    ghost keeps = { λ v. KeepsBoth (A.keeps v.0) (F.keeps v.1) };

    ghost holds = { λ v. A.holds v.0 ∷ F.holds v.1 };

    ghost needs = { A.needs ∷ F.needs };

    ghost asks = { (A.asks, F.asks) };

    #[inline(always)]
    fn empty() -> Self {
        (A::empty(), F::empty())
    }

    #[inline(always)]
    fn fill_at<R: DeRead<Lent = L>>(
        &mut self,
        alloc: Global,
        place: usize,
        from: &mut Deserializer<R>,
    ) -> Answer<()> {
        if place == 0 {
            self.0.fill(alloc, from)
        } else {
            self.1.fill_at(alloc, place - 1, from)
        }
    }

    #[inline(always)]
    fn are_in_turn<R: DeRead<Lent = L>>(
        from: &Deserializer<R>,
        place: usize,
        names: &[&str],
    ) -> bool {
        match names_after(from, place, names) {
            Some(others) => F::are_in_turn(from, place + 1, others),
            None => false,
        }
    }

    #[inline(always)]
    fn read_in_turn<R: DeRead<Lent = L>>(
        alloc: Global,
        from: &mut Deserializer<R>,
        known: &[&str],
        at: usize,
    ) -> Answer<(A::Value, F::Values)> {
        from.await_field();
        // by `match`, since two `?` for each field are too much to be inlined
        match A::read(alloc, from) {
            Ok(first) => match F::read_in_turn(alloc, from, known, at.saturating_add(1)) {
                Ok(others) => Ok((first, others)),
                Err(refused) => Err(refused),
            },
            Err(refused) => {
                from.note_field(known, at);
                Err(refused)
            }
        }
    }

    #[inline(always)]
    fn finish(self) -> Result<(A::Value, F::Values), usize> {
        let (first, others) = self;
        match (first.finish(), others.finish()) {
            (Some(first), Ok(others)) => Ok((first, others)),
            (None, _) => Err(0),
            (Some(_), Err(place)) => Err(place.saturating_add(1)),
        }
    }
}

/// The other names, where the row's key at this place is the first of the names, and none of the
/// others.
#[inline(always)]
fn names_after<'n, 's, R: DeRead>(
    from: &Deserializer<R>,
    place: usize,
    names: &'n [&'s str],
) -> Option<&'n [&'s str]>
where
    R::Lent: LendsText,
    ensures fits { IfSome result (λ _. place < 2 ^ 63) }
    ensures turn { IfSome result (IsNext names.now place from.now) }
{
    if place >= keys_of(from).len() || names.is_empty() {
        return None;
    }
    let key = <R::Lent as Lending>::kept_text(&keys_of(from)[place]);
    let others = &names[1..];
    if is_same(names[0].as_bytes(), key.as_bytes()) && is_unknown(others, names[0]) {
        return Some(others);
    }
    None
}

/// Whether the name is none of these.
#[inline(always)]
fn is_unknown(names: &[&str], name: &str) -> bool
    ensures yes { result ≡ true → IsUnknown names.now name.now }
    ensures no { result ≡ false → IsUnknown names.now name.now → ⊥ }
{
    match find_field(names, name.as_bytes()) {
        Field::Known(_) => false,
        Field::Unknown => true,
    }
}
