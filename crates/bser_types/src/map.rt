//! Reading the entries of an object.
ghost use Rattle.std.specs.Prelude.{◌≡◌, ◌<◌, ◌^◌, true, false, length, IfOk, OnOk, OnErr};
ghost use Rattle.bser_deserializer.specs.Dues.{name_at};
ghost use Rattle.bser_deserializer.specs.Parts.{pairs_left};
ghost use Rattle.bser_types.specs.Accesses.{texts, open_pairs, row_keys, pairs_refusal, IsWorking, SamePairsReference, past_key, refused_pairs, MakesKeyDue, MakesValueDue, IsAfterEntries, RefusesTurn, GivesKey, RefusesNextKey, GivesValue, RefusesNextValue, GivesField, RefusesField, GivesEntry, RefusesNextEntry, ReadsName, RefusesName, EndsMap, RefusesMapEnd};

use crate::deserialize::Deserialize;
use bser_bunser::refusal::{Answer, Refused};
use bser_deserializer::container::{Containers, MapHead};
use bser_deserializer::cursor::{Cursor, keys_of};
use bser_deserializer::deserializer::Deserializer;
use bser_deserializer::field::{Field, find_field};
use bser_format::errors::{Complaint, Error};
use bser_source::read::DeRead;
use bser_source::reference::{Lending, LendsText};
use std::alloc::Global;

/// The entries of an open object, or the fields of a template's row.
///
/// Each key is read before its value. Where it is dropped before its `end`, the object stays open.
#[derive(Drop)]
pub struct MapAccess<'a, R: DeRead> {
    pub(crate) from: &'a mut Deserializer<R>,
    // of an object how many entries are to come, of a row the place of the next field, and what was
    // open around it
    pub(crate) head: MapHead,
    // whether the value of a key that was read is expected
    pub(crate) pending: bool,
}

impl<'a, R: DeRead> MapAccess<'a, R> {
    /// Returns how many entries are left, whose keys were not read.
    #[inline(always)]
    pub fn remaining(&self) -> usize
        ensures { result ≡ pairs_left (open_pairs self.now).wanted }
    {
        if self.head.row {
            keys_of(self.from).len().saturating_sub(self.head.at)
        } else {
            self.head.at
        }
    }

    /// Makes the next key expected, if one is left.
    #[inline(always)]
    fn await_key(&mut self) -> Answer<bool>
        ensures same_reference { SamePairsReference self.old self.new }
        ensures some { IfOk result (λ b. b ≡ true → MakesKeyDue self.old self.new) }
        ensures fits { IfOk result (λ b. b ≡ true → length (row_keys self.old) < 2 ^ 63) }
        ensures none { IfOk result (λ b. b ≡ false → IsAfterEntries self.old self.new) }
        ensures refused { OnErr result (RefusesTurn self.old self.new) }
        ensures turn { OnErr result (IsWorking self.old → (open_pairs self.old).pending ≡ true) }
    {
        if self.pending || self.from.is_failed() {
            return Err(self.from.complain(Complaint::ValueOpen));
        }
        if self.remaining() == 0 {
            return Ok(false);
        }
        if self.head.row {
            self.from.await_name(self.head.at);
        } else {
            self.from.await_key();
        }
        Ok(true)
    }

    /// Makes the value of the key that was read expected.
    #[inline(always)]
    fn await_value(&mut self) -> Answer<()>
        ensures same_reference { SamePairsReference self.old self.new }
        ensures ok { OnOk result (MakesValueDue self.old self.new) }
        ensures refused { OnErr result (RefusesTurn self.old self.new) }
        ensures turn { OnErr result (IsWorking self.old → (open_pairs self.old).pending ≡ false) }
    {
        if !self.pending {
            return Err(self.from.complain(Complaint::ValueOpen));
        }
        if self.head.row {
            self.from.await_field();
        } else {
            self.from.await_node();
        }
        Ok(())
    }

    /// Goes on to the value of the key that was read.
    #[inline(always)]
    fn pass_key(&mut self)
        requires left { 0 < pairs_left (open_pairs self.old).wanted }
        requires fits { length (row_keys self.old) < 2 ^ 63 }
        ensures same_reference { SamePairsReference self.old self.new }
        ensures passed { open_pairs self.new ≡ past_key self.old }
    {
        if self.head.row {
            self.head.at += 1;
        } else {
            self.head.at -= 1;
        }
        self.pending = true;
    }

    /// Makes all calls from now on fail, and keeps the error.
    #[inline(always)]
    pub fn refuse(&mut self, reason: Error) -> Refused
        ensures same_reference { SamePairsReference self.old self.new }
        ensures reason { pairs_refusal self.new ≡ reason }
        ensures state { open_pairs self.new ≡ refused_pairs self.old }
    {
        self.from.refuse(reason)
    }

    /// Closes the object.
    ///
    /// The error is [`Complaint::ItemsLeft`] where entries are left or a value is expected, and
    /// [`ReadCause::Failed`](bser_format::errors::ReadCause::Failed) after an earlier error.
    #[inline(always)]
    pub fn end(self) -> Answer<()>
        ensures ok { OnOk result (EndsMap self.entry self.exit.0.now) }
        ensures err { OnErr result (RefusesMapEnd self.entry self.exit.0.now) }
    {
        if self.pending || self.remaining() != 0 || self.from.is_failed() {
            return Err(self.from.complain(Complaint::ItemsLeft));
        }
        let head = self.head;
        self.from.close_pairs(head);
        Ok(())
    }

    /// Reads the next key, if one is left, as its first place in `names`. Its value is expected
    /// then.
    ///
    /// A name takes memory only where the source copies. A key that is not UTF-8 fails as in
    /// [`Deserializer::read_key`], and where a value is expected the error is
    /// [`Complaint::ValueOpen`]. After an error each later call of the deserializer fails.
    #[inline(always)]
    pub fn next_field(&mut self, names: &[&str]) -> Answer<Option<Field>>
    where
        R::Lent: LendsText,
        ensures same_reference { SamePairsReference self.old self.new }
        ensures found { IfOk result (GivesField (texts names.now) self.old self.new) }
        ensures refused { OnErr result (RefusesField self.old self.new) }
    {
        if !self.await_key()? {
            return Ok(None);
        }
        let field = take_field(self.from, self.head, names)?;
        self.pass_key();
        Ok(Some(field))
    }
}

/// Reads the key that is expected, as its first place in `names`.
#[inline(always)]
fn take_field<R: DeRead>(from: &mut Deserializer<R>, head: MapHead, names: &[&str]) -> Answer<Field>
where
    R::Lent: LendsText,
    requires due { head.row ≡ true → from.old.state.due ≡ name_at head.at from.old.state.keys }
    requires inside { head.row ≡ true → head.at < length from.old.state.keys }
    requires working { from.old.state.source.failed ≡ false }
    ensures found { IfOk result (ReadsName (texts names.now) from.old from.new) }
    ensures refused { OnErr result (RefusesName from.old from.new) }
{
    if head.row {
        let name = <R::Lent as Lending>::kept_text(&keys_of(from)[head.at]);
        let field = find_field(names, name.as_bytes());
        from.await_nothing();
        return Ok(field);
    }
    let mut scratch = Vec::new(from.allocator());
    let name = from.read_key(&mut scratch)?;
    Ok(find_field(names, name.get_ref().as_bytes()))
}

impl<'a, R: DeRead> MapAccess<'a, R>
where
    R::Lent: LendsText,
{
    /// Reads the next key, if one is left. Its value is expected then.
    ///
    /// The errors are those of the type's reading, and [`Complaint::ValueOpen`] where a value is
    /// expected. After an error each later call of the deserializer fails.
    #[inline(always)]
    pub fn next_key<K: Deserialize<R::Lent>>(&mut self, alloc: Global) -> Answer<Option<K>>
        ensures same_reference { SamePairsReference self.old self.new }
        ensures found { IfOk result (GivesKey K.reads K.holds self.old self.new) }
        ensures refused { OnErr result (RefusesNextKey K.reads K.asks K.needs self.old self.new) }
    {
        if !self.await_key()? {
            return Ok(None);
        }
        let key = K::deserialize(alloc, self.from)?;
        self.pass_key();
        Ok(Some(key))
    }

    /// Reads the value of the key that was read.
    ///
    /// The errors are those of the type's reading, and [`Complaint::ValueOpen`] where no key was
    /// read before. After an error each later call of the deserializer fails.
    #[inline(always)]
    pub fn next_value<V: Deserialize<R::Lent>>(&mut self, alloc: Global) -> Answer<V>
        ensures same_reference { SamePairsReference self.old self.new }
        ensures found { IfOk result (GivesValue V.reads V.holds self.old self.new) }
        ensures refused { OnErr result (RefusesNextValue V.reads V.asks V.needs self.old self.new) }
    {
        self.await_value()?;
        let value = V::deserialize(alloc, self.from)?;
        self.pending = false;
        Ok(value)
    }

    /// Reads the next key and its value, if an entry is left.
    ///
    /// Fails as [`MapAccess::next_key`] and [`MapAccess::next_value`] do.
    #[inline(always)]
    pub fn next_entry<K: Deserialize<R::Lent>, V: Deserialize<R::Lent>>(
        &mut self,
        alloc: Global,
    ) -> Answer<Option<(K, V)>>
        ensures same_reference { SamePairsReference self.old self.new }
        ensures found { IfOk result (GivesEntry K.reads V.reads K.holds V.holds self.old self.new) }
        ensures refused { OnErr result (RefusesNextEntry K.reads V.reads K.asks V.asks K.holds
            K.needs V.needs self.old self.new) }
    {
        match self.next_key::<K>(alloc)? {
            Some(key) => {
                let value = self.next_value::<V>(alloc)?;
                Ok(Some((key, value)))
            }
            None => Ok(None),
        }
    }
}
