//! Tuples. A template is read as the array of its rows.
//!
//! A tuple takes memory for a template's keys alone, besides what its parts take. Where a part
//! reads no object no template is read, so that memory is taken only where the tuple fails.
ghost use Rattle.std.specs.Prelude.{◌||◌, true, false, refl, Some, [], ◌∷◌};
ghost use Rattle.bser_format.specs.ReadsHolders.{reads_tuple};
ghost use Rattle.bser_deserializer.specs.HoldsLists.{HoldsTuple};
ghost use Rattle.bser_types.specs.Askings.{asking_tuple};
ghost use Rattle.bser_types.specs.Slots.{any_lent};
ghost use Rattle.bser_types.specs.Tuples.{tuple_needs};
ghost use Rattle.std.proofs.Common.{ap, ◌∙◌};

use crate::container::ReadsContainers;
use crate::deserialize::{Deserialize, OwnedShape, Shape};
use bser_bunser::refusal::Answer;
use bser_deserializer::deserializer::Deserializer;
use bser_source::read::DeRead;
use bser_source::reference::LendsText;
use std::alloc::Global;

/// An array of one item. None is [`Complaint::TooFewItems`], more are [`Complaint::ItemsLeft`].
///
/// [`Complaint::TooFewItems`]: bser_format::errors::Complaint::TooFewItems
/// [`Complaint::ItemsLeft`]: bser_format::errors::Complaint::ItemsLeft
impl<A: Shape> Shape for (A,) {
    ghost reads = { reads_tuple (A.reads ∷ []) };

    ghost holds = { λ v c. HoldsTuple (A.holds v.0 ∷ []) c };

    ghost needs = { tuple_needs (A.needs ∷ []) (A.reads ∷ []) (A.plain, tt) };

    ghost asks = { asking_tuple (A.reads ∷ []) (A.asks, tt) };

    ghost plain = { Some (λ _. refl) };
}

impl<L: LendsText, A: Deserialize<L>> Deserialize<L> for (A,) {
    fn deserialize<R: DeRead<Lent = L>>(alloc: Global, from: &mut Deserializer<R>) -> Answer<(A,)> {
        let mut seq = from.read_seq()?;
        let only = seq.required_element::<A>(alloc)?;
        seq.end()?;
        Ok((only,))
    }
}

impl<A: OwnedShape> OwnedShape for (A,) {
    ghost owned = { ap (λ a. a || any_lent []) A.owned };
}

/// An array of two items. Fewer are [`Complaint::TooFewItems`], more [`Complaint::ItemsLeft`].
///
/// [`Complaint::TooFewItems`]: bser_format::errors::Complaint::TooFewItems
/// [`Complaint::ItemsLeft`]: bser_format::errors::Complaint::ItemsLeft
impl<A: Shape, B: Shape> Shape for (A, B) {
    ghost reads = { reads_tuple (A.reads ∷ B.reads ∷ []) };

    ghost holds = { λ v c. HoldsTuple (A.holds v.0 ∷ B.holds v.1 ∷ []) c };

    ghost needs = { tuple_needs (A.needs ∷ B.needs ∷ []) (A.reads ∷ B.reads ∷ [])
        (A.plain, (B.plain, tt)) };

    ghost asks = { asking_tuple (A.reads ∷ B.reads ∷ []) (A.asks, (B.asks, tt)) };

    ghost plain = { Some (λ _. refl) };
}

impl<L: LendsText, A: Deserialize<L>, B: Deserialize<L>> Deserialize<L> for (A, B) {
    fn deserialize<R: DeRead<Lent = L>>(
        alloc: Global,
        from: &mut Deserializer<R>,
    ) -> Answer<(A, B)> {
        let mut seq = from.read_seq()?;
        let first = seq.required_element::<A>(alloc)?;
        let second = seq.required_element::<B>(alloc)?;
        seq.end()?;
        Ok((first, second))
    }
}

impl<A: OwnedShape, B: OwnedShape> OwnedShape for (A, B) {
    ghost owned = { ap (λ a. a || any_lent (B.needs ∷ [])) A.owned
        ∙ ap (λ b. b || any_lent []) B.owned };
}

/// An array of three items. Fewer are [`Complaint::TooFewItems`], more [`Complaint::ItemsLeft`].
///
/// [`Complaint::TooFewItems`]: bser_format::errors::Complaint::TooFewItems
/// [`Complaint::ItemsLeft`]: bser_format::errors::Complaint::ItemsLeft
impl<A: Shape, B: Shape, C: Shape> Shape for (A, B, C) {
    ghost reads = { reads_tuple (A.reads ∷ B.reads ∷ C.reads ∷ []) };

    ghost holds = { λ v c. HoldsTuple (A.holds v.0 ∷ B.holds v.1 ∷ C.holds v.2 ∷ []) c };

    ghost needs = { tuple_needs (A.needs ∷ B.needs ∷ C.needs ∷ [])
        (A.reads ∷ B.reads ∷ C.reads ∷ []) (A.plain, (B.plain, (C.plain, tt))) };

    ghost asks = { asking_tuple (A.reads ∷ B.reads ∷ C.reads ∷ [])
        (A.asks, (B.asks, (C.asks, tt))) };

    ghost plain = { Some (λ _. refl) };
}

impl<L: LendsText, A: Deserialize<L>, B: Deserialize<L>, C: Deserialize<L>> Deserialize<L>
    for (A, B, C) {
    fn deserialize<R: DeRead<Lent = L>>(
        alloc: Global,
        from: &mut Deserializer<R>,
    ) -> Answer<(A, B, C)> {
        let mut seq = from.read_seq()?;
        let first = seq.required_element::<A>(alloc)?;
        let second = seq.required_element::<B>(alloc)?;
        let third = seq.required_element::<C>(alloc)?;
        seq.end()?;
        Ok((first, second, third))
    }
}

impl<A: OwnedShape, B: OwnedShape, C: OwnedShape> OwnedShape for (A, B, C) {
    ghost owned = { ap (λ a. a || any_lent (B.needs ∷ C.needs ∷ [])) A.owned
        ∙ ap (λ b. b || any_lent (C.needs ∷ [])) B.owned
        ∙ ap (λ c. c || any_lent []) C.owned };
}

/// An array of four items. Fewer are [`Complaint::TooFewItems`], more [`Complaint::ItemsLeft`].
///
/// [`Complaint::TooFewItems`]: bser_format::errors::Complaint::TooFewItems
/// [`Complaint::ItemsLeft`]: bser_format::errors::Complaint::ItemsLeft
impl<A: Shape, B: Shape, C: Shape, D: Shape> Shape for (A, B, C, D) {
    ghost reads = { reads_tuple (A.reads ∷ B.reads ∷ C.reads ∷ D.reads ∷ []) };

    ghost holds = { λ v c. HoldsTuple
        (A.holds v.0 ∷ B.holds v.1 ∷ C.holds v.2 ∷ D.holds v.3 ∷ []) c };

    ghost needs = { tuple_needs (A.needs ∷ B.needs ∷ C.needs ∷ D.needs ∷ [])
        (A.reads ∷ B.reads ∷ C.reads ∷ D.reads ∷ [])
        (A.plain, (B.plain, (C.plain, (D.plain, tt)))) };

    ghost asks = { asking_tuple (A.reads ∷ B.reads ∷ C.reads ∷ D.reads ∷ [])
        (A.asks, (B.asks, (C.asks, (D.asks, tt)))) };

    ghost plain = { Some (λ _. refl) };
}

impl<
    L: LendsText,
    A: Deserialize<L>,
    B: Deserialize<L>,
    C: Deserialize<L>,
    D: Deserialize<L>,
> Deserialize<L> for (A, B, C, D) {
    fn deserialize<R: DeRead<Lent = L>>(
        alloc: Global,
        from: &mut Deserializer<R>,
    ) -> Answer<(A, B, C, D)> {
        let mut seq = from.read_seq()?;
        let first = seq.required_element::<A>(alloc)?;
        let second = seq.required_element::<B>(alloc)?;
        let third = seq.required_element::<C>(alloc)?;
        let fourth = seq.required_element::<D>(alloc)?;
        seq.end()?;
        Ok((first, second, third, fourth))
    }
}

impl<A: OwnedShape, B: OwnedShape, C: OwnedShape, D: OwnedShape> OwnedShape for (A, B, C, D) {
    ghost owned = { ap (λ a. a || any_lent (B.needs ∷ C.needs ∷ D.needs ∷ [])) A.owned
        ∙ ap (λ b. b || any_lent (C.needs ∷ D.needs ∷ [])) B.owned
        ∙ ap (λ c. c || any_lent (D.needs ∷ [])) C.owned
        ∙ ap (λ d. d || any_lent []) D.owned };
}
