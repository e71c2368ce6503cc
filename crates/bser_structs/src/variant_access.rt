//! The payload of an enum's variant.
ghost use Rattle.std.specs.Prelude.{◌≡◌, IfOk, OnOk, OnErr};
ghost use Rattle.std.specs.Borrow.{sem};
ghost use Rattle.bser_types.specs.Accesses.{IsMapOf, IsSeqOf};
ghost use Rattle.bser_structs.specs.VariantCalls.{GivesNull, GivesPayload, LacksAny, OpensStruct, OpensTuple, RefusesGiven, RefusesOther};
ghost use Rattle.bser_structs.specs.EnumAccess.{place_in, unit_state, variant_deserializer};
ghost use Rattle.bser_structs.specs.VariantRests.{lacking_map_rests, lacking_seq_rests, payload_map_rests, payload_seq_rests};

use crate::payload_calls::{open_payload_items, open_payload_pairs, read_null, read_payload};
use bser_bunser::refusal::Answer;
use bser_deserializer::container::MapHead;
use bser_deserializer::deserializer::Deserializer;
use bser_format::errors::Complaint;
use bser_source::read::DeRead;
use bser_source::reference::LendsText;
use bser_types::access::{items_of, pairs_of};
use bser_types::deserialize::Deserialize;
use bser_types::map::MapAccess;
use bser_types::seq::SeqAccess;
use std::alloc::Global;

/// A variant's name alone.
#[derive(Drop)]
pub struct UnitVariantAccess<'a, R: DeRead> {
    pub(crate) from: &'a mut Deserializer<R>,
    // the first place of the name among the variants
    pub(crate) place: usize,
}

/// A variant's payload, in an object or a row of one entry.
///
/// Where it is dropped before the payload is read, the object stays open.
#[derive(Drop)]
pub struct VariantAccess<'a, R: DeRead> {
    pub(crate) from: &'a mut Deserializer<R>,
    // the first place of the name among the variants
    pub(crate) place: usize,
    // whether it is a row, and what was open around it
    pub(crate) head: MapHead,
}

/// A variant whose name was read, by its form.
#[derive(Drop)]
pub enum EnumForm<'a, R: DeRead> {
    /// A string or a key: the name alone.
    Unit(UnitVariantAccess<'a, R>),
    /// An object or a row of one entry, whose value is the payload.
    Object(VariantAccess<'a, R>),
}

impl<'a, R: DeRead> EnumForm<'a, R> {
    /// Returns the first place of the variant's name among the names that were passed.
    pub fn place(&self) -> usize
        ensures { result ≡ place_in self.now }
    {
        match self {
            EnumForm::Unit(alone) => alone.place,
            EnumForm::Object(entry) => entry.place,
        }
    }
}

impl<'a, R: DeRead> UnitVariantAccess<'a, R> {
    /// Answers that nothing is left to read.
    pub fn unit_variant(self) -> Answer<()>
        ensures ok { OnErr result ⊥ }
        ensures same { self.exit.0.now.state ≡ unit_state self.entry }
    {
        Ok(())
    }

    /// Fails with [`Complaint::WrongType`]: a name alone has no payload.
    pub fn newtype_variant<T>(self, _alloc: Global) -> Answer<T>
        ensures none { OnOk result ⊥ }
        ensures refused { OnErr result (LacksAny self.entry self.exit.0.now) }
    {
        Err(self.from.complain(Complaint::WrongType))
    }

    /// Fails with [`Complaint::WrongType`]: a name alone has no payload.
    pub fn tuple_variant(self) -> Answer<SeqAccess<'a, R>>
        ensures* rests { sem 𝓛 (lacking_seq_rests R.row R.Lent.row R.Lent.Kept.row
            R.DeRead R.Lent.Lending self.entry result) }
        ensures none { OnOk result ⊥ }
    {
        let UnitVariantAccess { from, place: _ } = self;
        Err(from.complain(Complaint::WrongType))
    }

    /// Fails with [`Complaint::WrongType`]: a name alone has no payload.
    pub fn struct_variant(self) -> Answer<MapAccess<'a, R>>
        ensures* rests { sem 𝓛 (lacking_map_rests R.row R.Lent.row R.Lent.Kept.row
            R.DeRead R.Lent.Lending self.entry result) }
        ensures none { OnOk result ⊥ }
    {
        let UnitVariantAccess { from, place: _ } = self;
        Err(from.complain(Complaint::WrongType))
    }
}

impl<'a, R: DeRead> VariantAccess<'a, R> {
    /// Reads null, or a skipped field, as the payload.
    ///
    /// Another payload is [`Complaint::WrongType`]. After an error each later call of the
    /// deserializer fails.
    pub fn unit_variant(self) -> Answer<()>
        ensures found { OnOk result (GivesNull self.entry self.exit.0.now) }
        ensures refused { OnErr result (RefusesOther self.entry self.exit.0.now) }
    {
        let head = self.head;
        read_null(self.from, Some(head))
    }

    /// Reads the payload as an array or a template, whose end closes the variant too.
    ///
    /// Fails as [`ReadsContainers::read_seq`](bser_types::container::ReadsContainers::read_seq)
    /// does.
    pub fn tuple_variant(self) -> Answer<SeqAccess<'a, R>>
        ensures* rests { sem 𝓛 (payload_seq_rests R.row R.Lent.row R.Lent.Kept.row
            R.DeRead R.Lent.Lending self.entry result) }
        ensures same_reference { IfOk result (IsSeqOf (variant_deserializer self.entry)) }
        ensures found { IfOk result (OpensTuple self.entry) }
    {
        let VariantAccess {
            from,
            place: _,
            head,
        } = self;
        let items = open_payload_items(from, Some(head))?;
        Ok(items_of(from, items))
    }

    /// Reads the payload as an object or a row, whose end closes the variant too.
    ///
    /// Fails as [`ReadsContainers::read_map`](bser_types::container::ReadsContainers::read_map)
    /// does.
    pub fn struct_variant(self) -> Answer<MapAccess<'a, R>>
        ensures* rests { sem 𝓛 (payload_map_rests R.row R.Lent.row R.Lent.Kept.row
            R.DeRead R.Lent.Lending self.entry result) }
        ensures same_reference { IfOk result (IsMapOf (variant_deserializer self.entry)) }
        ensures found { IfOk result (OpensStruct self.entry) }
    {
        let VariantAccess {
            from,
            place: _,
            head,
        } = self;
        let pairs = open_payload_pairs(from, Some(head))?;
        Ok(pairs_of(from, pairs))
    }
}

impl<'a, R: DeRead> VariantAccess<'a, R>
where
    R::Lent: LendsText,
{
    /// Reads the payload.
    ///
    /// The errors are those of the type's reading. After one each later call of the deserializer
    /// fails.
    pub fn newtype_variant<T: Deserialize<R::Lent>>(self, alloc: Global) -> Answer<T>
        ensures found { IfOk result (GivesPayload T.reads T.holds self.entry self.exit.0.now) }
        ensures refused { OnErr result
            (RefusesGiven self.entry self.exit.0.now T.reads T.asks T.needs) }
    {
        let head = self.head;
        read_payload(alloc, self.from, Some(head))
    }
}
