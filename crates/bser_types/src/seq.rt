//! Reading the items of an array.
ghost use Rattle.std.specs.Prelude.{◌≡◌, ◌<◌, IfOk, OnOk, OnErr};
ghost use Rattle.bser_deserializer.specs.Parts.{items_left};
ghost use Rattle.bser_types.specs.Accesses.{open_items, items_refusal, SameItemsReference, awaiting_item, past_item, refused_items, GivesElement, RefusesElement, GivesRequired, RefusesRequiredElement, EndsSeq, RefusesSeqEnd};

use crate::deserialize::Deserialize;
use bser_bunser::refusal::{Answer, Refused};
use bser_deserializer::container::{Containers, SeqHead};
use bser_deserializer::cursor::Cursor;
use bser_deserializer::deserializer::Deserializer;
use bser_format::errors::{Complaint, Error};
use bser_source::read::DeRead;
use bser_source::reference::LendsText;
use std::alloc::Global;

/// The items of an open array or template.
///
/// Where it is dropped before its `end`, the array stays open.
#[derive(Drop)]
pub struct SeqAccess<'a, R: DeRead> {
    pub(crate) from: &'a mut Deserializer<R>,
    // how many items are left, whether they are rows, and what was open around it
    pub(crate) head: SeqHead,
}

impl<'a, R: DeRead> SeqAccess<'a, R> {
    /// Returns how many items are left.
    pub fn remaining(&self) -> usize
        ensures { result ≡ items_left (open_items self.now).wanted }
    {
        self.head.remaining
    }

    /// Makes the next item expected.
    #[inline(always)]
    pub(crate) fn await_item(&mut self)
        ensures same_reference { SameItemsReference self.old self.new }
        ensures awaited { open_items self.new ≡ awaiting_item self.old }
    {
        if self.head.rows {
            self.from.await_row();
        } else {
            self.from.await_node();
        }
    }

    /// Goes on past the item that was read.
    #[inline(always)]
    pub(crate) fn pass_item(&mut self)
        requires { 0 < items_left (open_items self.old).wanted }
        ensures same_reference { SameItemsReference self.old self.new }
        ensures passed { open_items self.new ≡ past_item self.old }
    {
        self.head.remaining -= 1;
    }

    /// Makes all calls from now on fail, and keeps the error.
    #[inline(always)]
    pub fn refuse(&mut self, reason: Error) -> Refused
        ensures same_reference { SameItemsReference self.old self.new }
        ensures reason { items_refusal self.new ≡ reason }
        ensures state { open_items self.new ≡ refused_items self.old }
    {
        self.from.refuse(reason)
    }

    /// Closes the array.
    ///
    /// The error is [`Complaint::ItemsLeft`] where items are left, and
    /// [`ReadCause::Failed`](bser_format::errors::ReadCause::Failed) after an earlier error.
    #[inline(always)]
    pub fn end(self) -> Answer<()>
        ensures ok { OnOk result (EndsSeq self.entry self.exit.0.now) }
        ensures err { OnErr result (RefusesSeqEnd self.entry self.exit.0.now) }
    {
        if self.head.remaining != 0 || self.from.is_failed() {
            return Err(self.from.complain(Complaint::ItemsLeft));
        }
        let head = self.head;
        self.from.close_items(head);
        Ok(())
    }
}

impl<'a, R: DeRead> SeqAccess<'a, R>
where
    R::Lent: LendsText,
{
    /// Reads the next item, if one is left.
    ///
    /// The errors are those of the type's reading. After one each later call of the deserializer
    /// fails.
    #[inline(always)]
    pub fn next_element<T: Deserialize<R::Lent>>(&mut self, alloc: Global) -> Answer<Option<T>>
        ensures same_reference { SameItemsReference self.old self.new }
        ensures found { IfOk result (GivesElement T.reads T.holds self.old self.new) }
        ensures refused { OnErr result (RefusesElement T.reads T.asks T.needs self.old self.new) }
    {
        if self.head.remaining == 0 && !self.from.is_failed() {
            return Ok(None);
        }
        self.await_item();
        let item = T::deserialize(alloc, self.from)?;
        self.pass_item();
        Ok(Some(item))
    }

    /// Reads the next item, which has to be there: where none is left it is
    /// [`Complaint::TooFewItems`], and each later call of the deserializer fails.
    ///
    /// The other errors are those of [`SeqAccess::next_element`].
    #[inline(always)]
    pub fn required_element<T: Deserialize<R::Lent>>(&mut self, alloc: Global) -> Answer<T>
        ensures same_reference { SameItemsReference self.old self.new }
        ensures found { IfOk result (GivesRequired T.reads T.holds self.old self.new) }
        ensures refused { OnErr result (RefusesRequiredElement T.reads T.asks T.needs
            self.old self.new) }
    {
        match self.next_element(alloc)? {
            Some(item) => Ok(item),
            None => Err(self.from.complain(Complaint::TooFewItems)),
        }
    }
}
