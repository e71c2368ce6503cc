//! The payloads of an enum's variants, one after another.
ghost use Rattle.std.specs.Prelude.{ℕ, List, [], ◌∷◌, IfOk, OnErr};
ghost use Rattle.bser_format.specs.Content.{Content};
ghost use Rattle.bser_format.specs.Enums.{Payload};
ghost use Rattle.bser_deserializer.specs.Reading.{Needs};
ghost use Rattle.bser_structs.specs.Payloads.{GivesAt, PayloadAskings, GivesNoneAt, HoldsOneOf};

use crate::payload::ReadPayload;
use bser_bunser::refusal::Answer;
use bser_deserializer::container::MapHead;
use bser_deserializer::cursor::Cursor;
use bser_deserializer::deserializer::Deserializer;
use bser_format::errors::Complaint;
use bser_source::read::DeRead;
use bser_source::reference::LendsText;
use std::alloc::Global;
use std::convert::Infallible;

/// What was read of a variant: of the first, or of one of the others.
#[derive(Drop)]
pub enum OneOf<A, B> {
    First(A),
    Others(B),
}

/// The payloads of an enum's variants: pairs of a payload and the others, up to `()`.
pub trait ReadPayloads<L: LendsText> {
    /// What one of them is read as.
    type Value: Drop;

    // none, or the trees that each of them reads
    ghost payloads: { Self → List Payload };

    // what a value holds, where the first of the variants has this place
    ghost holds: { ℕ → Self.Value → Content → Type 0 };

    // what reading each of them needs
    ghost needs: { List Needs };

    // which reader gives the errors of each of them, where its type says one
    ghost asks: { (t : Self) → PayloadAskings (payloads t) };

    /// Reads the payload of the variant at this place.
    ///
    /// Fails as [`ReadPayload::read`] does, and where there is no such place. After an error each
    /// later call of the deserializer fails.
    fn read_at<R: DeRead<Lent = L>>(
        &self,
        alloc: Global,
        place: usize,
        from: &mut Deserializer<R>,
        head: Option<MapHead>,
    ) -> Answer<Self::Value>
        ensures found { IfOk result (GivesAt place (payloads self.now) Self.holds head
            from.old from.new) }
        ensures refused { OnErr result (GivesNoneAt place (payloads self.now) (asks self.now)
            Self.needs head from.old from.new) };
}

impl<L: LendsText> ReadPayloads<L> for () {
    type Value = Infallible;

    ghost payloads = { λ _. [] };

    ghost holds = { λ _ _ _. ⊥ };

    ghost needs = { [] };

    ghost asks = { λ _. tt };

    #[inline(always)]
    fn read_at<R: DeRead<Lent = L>>(
        &self,
        _alloc: Global,
        _place: usize,
        from: &mut Deserializer<R>,
        _head: Option<MapHead>,
    ) -> Answer<Infallible> {
        Err(from.complain(Complaint::UnknownVariant))
    }
}

impl<L: LendsText, A: ReadPayload<L>, P: ReadPayloads<L>> ReadPayloads<L> for (A, P) {
    type Value = OneOf<A::Value, P::Value>;

    ghost payloads = { λ t. A.payload t.0 ∷ P.payloads t.1 };

    ghost holds = { HoldsOneOf A.holds P.holds };

    ghost needs = { A.needs ∷ P.needs };

    ghost asks = { λ t. (A.asks t.0, P.asks t.1) };

    #[inline(always)]
    fn read_at<R: DeRead<Lent = L>>(
        &self,
        alloc: Global,
        place: usize,
        from: &mut Deserializer<R>,
        head: Option<MapHead>,
    ) -> Answer<OneOf<A::Value, P::Value>> {
        if place == 0 {
            let value = self.0.read(alloc, from, head)?;
            return Ok(OneOf::First(value));
        }
        let value = self.1.read_at(alloc, place - 1, from, head)?;
        Ok(OneOf::Others(value))
    }
}
