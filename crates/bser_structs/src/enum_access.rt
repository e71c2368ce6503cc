//! Reading enums.
ghost use Rattle.std.specs.Prelude.{◌≡◌, IfOk, OnOk, OnErr};
ghost use Rattle.std.specs.Borrow.{sem};
ghost use Rattle.bser_types.specs.Accesses.{IsMapOf, IsSeqOf};
ghost use Rattle.bser_structs.specs.VariantCalls.{GivesNewtype, GivesUnit, IsStructOf, IsTupleOf, OpensEnum, OpensForm, RefusesNewtype, RefusesUnit};
ghost use Rattle.bser_structs.specs.EnumAccess.{IsEnumOf, IsFormOf, enum_deserializer, enum_head, open_form, place_in, place_of};
ghost use Rattle.bser_structs.specs.VariantRests.{enum_rests, form_rests, struct_rests, tuple_rests};

use crate::payload_calls::{open_payload_items, open_payload_pairs, read_null, read_payload};
use crate::variant::open_variant;
use crate::variant_access::{EnumForm, UnitVariantAccess, VariantAccess};
use bser_bunser::refusal::Answer;
use bser_deserializer::container::MapHead;
use bser_deserializer::deserializer::Deserializer;
use bser_source::read::DeRead;
use bser_source::reference::LendsText;
use bser_types::access::{items_of, pairs_of};
use bser_types::deserialize::Deserialize;
use bser_types::map::MapAccess;
use bser_types::seq::SeqAccess;
use std::alloc::Global;

/// A variant whose name was read, and whose payload is next.
///
/// Where it is dropped before its payload is read, its object stays open.
#[derive(Drop)]
pub struct EnumAccess<'a, R: DeRead> {
    pub(crate) from: &'a mut Deserializer<R>,
    // the first place of the name among the variants
    pub(crate) place: usize,
    // the object or row whose only entry it is; none for a name alone
    pub(crate) head: Option<MapHead>,
}

/// Reads enums, as a [`Deserializer`] does.
pub trait ReadsEnums {
    /// The source that it reads from.
    type Source: DeRead;

    /// Reads the name of the variant of the enum that is expected, and returns an access to its
    /// payload. The access has the first place of the name in `variants`.
    ///
    /// A string of either kind, or a key, is a variant without a payload; an object of one entry,
    /// or a row of one field, is a variant with one. Another kind of value is
    /// [`Error::DeInvalidStartByte`], and an object where no level is left
    /// [`Error::DeRecursionLimitExceeded`], both with the enum's `name`; an object without exactly
    /// one entry is [`Complaint::EnumObjectEntries`], and a name that is not in `variants` is
    /// [`Complaint::UnknownVariant`]. After an error each later call fails.
    ///
    /// [`Error::DeInvalidStartByte`]: bser_format::errors::Error::DeInvalidStartByte
    /// [`Error::DeRecursionLimitExceeded`]: bser_format::errors::Error::DeRecursionLimitExceeded
    /// [`Complaint::EnumObjectEntries`]: bser_format::errors::Complaint::EnumObjectEntries
    /// [`Complaint::UnknownVariant`]: bser_format::errors::Complaint::UnknownVariant
    fn read_enum<'a>(
        &'a mut self,
        name: &str,
        variants: &[&str],
    ) -> Answer<EnumAccess<'a, Self::Source>>;

    /// Reads the name as [`ReadsEnums::read_enum`] does, and returns an access of the form that the
    /// variant has. That is a name alone, or an entry whose value is the payload. It fails as
    /// `read_enum` does.
    fn read_enum_form<'a>(
        &'a mut self,
        name: &str,
        variants: &[&str],
    ) -> Answer<EnumForm<'a, Self::Source>>;
}

impl<R: DeRead> ReadsEnums for Deserializer<R>
where
    R::Lent: LendsText,
{
    type Source = R;

    fn read_enum<'a>(&'a mut self, name: &str, variants: &[&str]) -> Answer<EnumAccess<'a, R>>
        ensures* rests { sem 𝓛 (enum_rests R.row R.Lent.row R.Lent.Kept.row R.DeRead
            R.Lent.Lending self.entry result name.now variants.now) }
        ensures same_reference { IfOk result (IsEnumOf self.entry) }
        ensures found { IfOk result (OpensEnum variants.now self.old) }
    {
        let (place, head) = open_variant(self, name, variants)?;
        Ok(EnumAccess {
            from: self,
            place,
            head,
        })
    }

    fn read_enum_form<'a>(&'a mut self, name: &str, variants: &[&str]) -> Answer<EnumForm<'a, R>>
        ensures* rests { sem 𝓛 (form_rests R.row R.Lent.row R.Lent.Kept.row R.DeRead
            R.Lent.Lending self.entry result name.now variants.now) }
        ensures same_reference { IfOk result (IsFormOf self.entry) }
        ensures found { IfOk result (OpensForm variants.now self.old) }
    {
        let (place, head) = open_variant(self, name, variants)?;
        Ok(form_of(self, place, head))
    }
}

/// An access to the variant at this place, in the object or row of this head, or of a name alone.
fn form_of<'a, R: DeRead>(
    from: &'a mut Deserializer<R>,
    place: usize,
    head: Option<MapHead>,
) -> EnumForm<'a, R>
    ensures same_reference { IsFormOf from.entry result }
    ensures opened { open_form result ≡ enum_head head from.old.state }
    ensures place { place_in result ≡ place }
{
    match head {
        None => EnumForm::Unit(UnitVariantAccess { from, place }),
        Some(head) => EnumForm::Object(VariantAccess { from, place, head }),
    }
}

impl<'a, R: DeRead> EnumAccess<'a, R> {
    /// Returns the first place of the variant's name among the names that were passed.
    pub fn place(&self) -> usize
        ensures { result ≡ place_of self.now }
    {
        self.place
    }

    /// Reads null, or a skipped field, as the payload, or nothing for a name alone.
    ///
    /// Another payload is [`Complaint::WrongType`](bser_format::errors::Complaint::WrongType).
    /// After an error each later call of the deserializer fails.
    pub fn unit_variant(self) -> Answer<()>
        ensures found { OnOk result (GivesUnit self.entry self.exit.0.now) }
        ensures refused { OnErr result (RefusesUnit self.entry self.exit.0.now) }
    {
        let head = self.head;
        read_null(self.from, head)
    }

    /// Reads the payload as an array or a template, whose end closes the variant too.
    ///
    /// The errors are those of
    /// [`ReadsContainers::read_seq`](bser_types::container::ReadsContainers::read_seq), and
    /// [`Complaint::WrongType`](bser_format::errors::Complaint::WrongType) for a name alone.
    pub fn tuple_variant(self) -> Answer<SeqAccess<'a, R>>
        ensures* rests { sem 𝓛 (tuple_rests R.row R.Lent.row R.Lent.Kept.row R.DeRead
            R.Lent.Lending self.entry result) }
        ensures same_reference { IfOk result (IsSeqOf (enum_deserializer self.entry)) }
        ensures found { IfOk result (IsTupleOf self.entry) }
    {
        let EnumAccess {
            from,
            place: _,
            head,
        } = self;
        let items = open_payload_items(from, head)?;
        Ok(items_of(from, items))
    }

    /// Reads the payload as an object or a row, whose end closes the variant too.
    ///
    /// The errors are those of
    /// [`ReadsContainers::read_map`](bser_types::container::ReadsContainers::read_map), and
    /// [`Complaint::WrongType`](bser_format::errors::Complaint::WrongType) for a name alone.
    pub fn struct_variant(self) -> Answer<MapAccess<'a, R>>
        ensures* rests { sem 𝓛 (struct_rests R.row R.Lent.row R.Lent.Kept.row R.DeRead
            R.Lent.Lending self.entry result) }
        ensures same_reference { IfOk result (IsMapOf (enum_deserializer self.entry)) }
        ensures found { IfOk result (IsStructOf self.entry) }
    {
        let EnumAccess {
            from,
            place: _,
            head,
        } = self;
        let pairs = open_payload_pairs(from, head)?;
        Ok(pairs_of(from, pairs))
    }
}

impl<'a, R: DeRead> EnumAccess<'a, R>
where
    R::Lent: LendsText,
{
    /// Reads the payload.
    ///
    /// The errors are those of the type's reading, and
    /// [`Complaint::WrongType`](bser_format::errors::Complaint::WrongType) for a name alone. After
    /// an error each later call of the deserializer fails.
    pub fn newtype_variant<T: Deserialize<R::Lent>>(self, alloc: Global) -> Answer<T>
        ensures found { IfOk result (GivesNewtype T.reads T.holds self.entry self.exit.0.now) }
        ensures refused { OnErr result
            (RefusesNewtype self.entry T.reads T.asks T.needs self.exit.0.now) }
    {
        let head = self.head;
        read_payload(alloc, self.from, head)
    }
}
