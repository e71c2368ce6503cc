//! Reading structs by their fields.
ghost use Rattle.std.specs.Prelude.{IfOk, OnErr};
ghost use Rattle.bser_structs.specs.Structs.{ReadsFields, RefusesFields};

use crate::entries::{finish, read_object, read_rest};
use crate::slots::Slots;
use bser_bunser::refusal::Answer;
use bser_deserializer::container::Containers;
use bser_deserializer::deserializer::Deserializer;
use bser_source::read::DeRead;
use bser_source::reference::LendsText;
use std::alloc::Global;

/// Reads structs, as a [`Deserializer`] does.
pub trait ReadsFields<L: LendsText> {
    /// Reads an object or a row as the fields of a struct.
    fn read_fields<F: Slots<L>>(&mut self, alloc: Global, names: &[&str]) -> Answer<F::Values>;
}

impl<R: DeRead> ReadsFields<R::Lent> for Deserializer<R>
where
    R::Lent: LendsText,
{
    /// Reads the object or the row that is expected as the fields of a struct, in any order. The
    /// value of a name that no field has is read as
    /// [`Ignored`](bser_types::impls::ignored::Ignored), and of fields with the same name the first
    /// alone is read.
    ///
    /// A required field that is absent is [`Complaint::TooFewItems`], a field that comes twice
    /// [`Complaint::ItemsLeft`], and another kind of value [`Complaint::WrongType`]. A field's
    /// value gives the errors of its type. After an error each later call fails.
    ///
    /// [`Complaint::TooFewItems`]: bser_format::errors::Complaint::TooFewItems
    /// [`Complaint::ItemsLeft`]: bser_format::errors::Complaint::ItemsLeft
    /// [`Complaint::WrongType`]: bser_format::errors::Complaint::WrongType
    #[inline(always)]
    fn read_fields<F: Slots<R::Lent>>(&mut self, alloc: Global, names: &[&str]) -> Answer<F::Values>
        ensures found { IfOk result (ReadsFields names.now F.fields F.holds self.old self.new) }
        ensures refused { OnErr result (RefusesFields names.now F.fields F.asks F.needs
            self.old self.new) }
    {
        let head = self.open_pairs()?;
        if !head.row {
            return read_object::<R, F>(alloc, self, head, names);
        }
        if F::are_in_turn(self, 0, names) {
            let values = F::read_in_turn(alloc, self, names, 0)?;
            self.close_pairs(head);
            return Ok(values);
        }
        let fields = read_rest(alloc, self, head.at, names, F::empty())?;
        finish(self, head, names, fields)
    }
}
