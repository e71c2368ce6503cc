//! The payload of a variant, as it is read.
ghost use Rattle.std.specs.Prelude.{◌≡◌, IfOk, OnErr};
ghost use Rattle.bser_format.specs.Content.{Content, one};
ghost use Rattle.bser_format.specs.Enums.{Payload, unit, holds};
ghost use Rattle.bser_deserializer.specs.HoldsLists.{HoldsTuple};
ghost use Rattle.bser_deserializer.specs.Reading.{bare, Needs};
ghost use Rattle.bser_types.specs.Accesses.{texts};
ghost use Rattle.bser_types.specs.Slots.{reads_struct, struct_needs};
ghost use Rattle.bser_structs.specs.Askings.{asking_struct};
ghost use Rattle.bser_structs.specs.VariantAskings.{PayloadAsking};
ghost use Rattle.bser_structs.specs.Payloads.{GivesPayload, GivesNone};

use crate::payload_calls::{await_payload, read_null, read_payload};
use crate::slots::Slots;
use crate::struct_reader::ReadsFields;
use bser_bunser::refusal::Answer;
use bser_deserializer::container::{Containers, MapHead};
use bser_deserializer::cursor::Cursor;
use bser_deserializer::deserializer::Deserializer;
use bser_format::errors::Complaint;
use bser_source::read::DeRead;
use bser_source::reference::LendsText;
use bser_types::deserialize::Deserialize;
use std::alloc::Global;
use std::marker::PhantomData;

/// What the payload of a variant is read as.
pub trait ReadPayload<L: LendsText> {
    /// What is read of it.
    type Value: Drop;

    // none, or the trees that it reads
    ghost payload: { Self → Payload };

    // what its value holds
    ghost holds: { Self.Value → Content → Type 0 };

    // what reading it needs
    ghost needs: { Needs };

    // which reader gives its errors, where its type says one
    ghost asks: { (p : Self) → PayloadAsking (payload p) };

    /// Reads the payload of the variant whose name was read, in the object or row of this head, or
    /// of a name alone, and closes the object.
    ///
    /// The errors are those of the payload's type, and [`Complaint::WrongType`] for a name alone
    /// where there has to be a payload. After an error each later call of the deserializer fails.
    fn read<R: DeRead<Lent = L>>(
        &self,
        alloc: Global,
        from: &mut Deserializer<R>,
        head: Option<MapHead>,
    ) -> Answer<Self::Value>
        ensures found { IfOk result (GivesPayload (payload self.now) Self.holds head
            from.old from.new) }
        ensures refused { OnErr result (GivesNone (payload self.now) (asks self.now) Self.needs
            head from.old from.new) };
}

/// No payload: the name alone, or null in an object or a row.
#[derive(Drop)]
pub struct Unit;

impl<L: LendsText> ReadPayload<L> for Unit {
    type Value = ();

    ghost payload = { λ _. unit };

    ghost holds = { λ _ c. c ≡ one };

    ghost needs = { bare };

    ghost asks = { λ _. tt };

    #[inline(always)]
    fn read<R: DeRead<Lent = L>>(
        &self,
        _alloc: Global,
        from: &mut Deserializer<R>,
        head: Option<MapHead>,
    ) -> Answer<()> {
        read_null(from, head)
    }
}

/// One value, or several as a tuple.
#[derive(Drop)]
pub struct Newtype<T>(pub PhantomData<T>);

impl<L: LendsText, T: Deserialize<L>> ReadPayload<L> for Newtype<T> {
    type Value = T;

    ghost payload = { λ _. holds T.reads };

    ghost holds = { T.holds };

    ghost needs = { T.needs };

    ghost asks = { λ _. T.asks };

    #[inline(always)]
    fn read<R: DeRead<Lent = L>>(
        &self,
        alloc: Global,
        from: &mut Deserializer<R>,
        head: Option<MapHead>,
    ) -> Answer<T> {
        read_payload(alloc, from, head)
    }
}

/// An object or a row of fields, which have these names.
#[derive(Drop)]
pub struct Struct<'n, F>(pub &'n [&'n str], pub PhantomData<F>);

impl<'n, L: LendsText, F: Slots<L>> ReadPayload<L> for Struct<'n, F> {
    type Value = F::Values;

    ghost payload = { λ p. holds (reads_struct (texts p.0.now) F.fields) };

    ghost holds = { λ v. HoldsTuple (F.holds v) };

    ghost needs = { struct_needs F.needs };

    ghost asks = { λ p. asking_struct (texts p.0.now) F.fields F.asks };

    #[inline(always)]
    fn read<R: DeRead<Lent = L>>(
        &self,
        alloc: Global,
        from: &mut Deserializer<R>,
        head: Option<MapHead>,
    ) -> Answer<F::Values> {
        let Some(head) = head else {
            return Err(from.complain(Complaint::WrongType));
        };
        await_payload(from, head);
        let values = from.read_fields::<F>(alloc, self.0)?;
        from.close_pairs(head);
        Ok(values)
    }
}
