//! Opening containers: an array as an access to its items, an object as one to its entries.
ghost use Rattle.std.specs.Prelude.{IfOk};
ghost use Rattle.std.specs.Borrow.{sem};
ghost use Rattle.bser_types.specs.Accesses.{IsSeqOf, OpensSeq, IsMapOf, OpensMap};
ghost use Rattle.bser_types.specs.Rests.{seq_rests, map_rests};

use crate::map::MapAccess;
use crate::seq::SeqAccess;
use bser_bunser::refusal::Answer;
use bser_deserializer::container::Containers;
use bser_deserializer::deserializer::Deserializer;
use bser_source::read::DeRead;

/// Reads arrays and objects part by part, as a [`Deserializer`] does. A trait, since the
/// deserializer is a type of a lower crate, to which only a trait adds calls; that crate knows none
/// of the types that are read.
pub trait ReadsContainers {
    /// The source that it reads from.
    type Source: DeRead;

    /// Reads the array or template that is expected, as an access to its items. The items of a
    /// template are its rows, each an object.
    ///
    /// Another kind of value is
    /// [`Complaint::WrongType`](bser_format::errors::Complaint::WrongType). A container that nests
    /// too deep is [`Error::DeRecursionLimitExceeded`], a template's list of keys too; a template
    /// without that list, or with a key of another kind, is [`Error::DeInvalidStartByte`]; and a
    /// count below 0, and rows without keys, are [`Error::DeCustom`]. A template takes memory for
    /// its keys, as they are read, and a failed allocation is [`Error::OutOfMemory`]; an array
    /// takes none. After an error each later call fails.
    fn read_seq<'a>(&'a mut self) -> Answer<SeqAccess<'a, Self::Source>>;

    /// Reads the object or the row that is expected, as an access to its entries.
    ///
    /// Another kind of value is [`Complaint::WrongType`]. After an error each later call fails.
    fn read_map<'a>(&'a mut self) -> Answer<MapAccess<'a, Self::Source>>;
}

impl<R: DeRead> ReadsContainers for Deserializer<R> {
    type Source = R;

    #[inline(always)]
    fn read_seq<'a>(&'a mut self) -> Answer<SeqAccess<'a, R>>
        ensures* rests { sem 𝓛 (seq_rests R.row R.Lent.row R.Lent.Kept.row R.DeRead R.Lent.Lending
            self.entry result) }
        ensures same_reference { IfOk result (IsSeqOf self.entry) }
        ensures found { IfOk result (OpensSeq self.old) }
    {
        let head = self.open_items()?;
        Ok(SeqAccess { from: self, head })
    }

    #[inline(always)]
    fn read_map<'a>(&'a mut self) -> Answer<MapAccess<'a, R>>
        ensures* rests { sem 𝓛 (map_rests R.row R.Lent.row R.Lent.Kept.row R.DeRead R.Lent.Lending
            self.entry result) }
        ensures same_reference { IfOk result (IsMapOf self.entry) }
        ensures found { IfOk result (OpensMap self.old) }
    {
        let head = self.open_pairs()?;
        Ok(MapAccess {
            from: self,
            head,
            pending: false,
        })
    }
}
