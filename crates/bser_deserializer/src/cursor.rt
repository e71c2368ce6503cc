//! What is expected.
ghost use Rattle.std.specs.Prelude.{◌≡◌, ◌≢◌, ◌<◌, ◌^◌, true, false, length, Some, IfOk, OnErr, IfSome, IfNone, if◌then◌else◌, OnOk};
ghost use Rattle.bser_format.specs.Expected.{nothing_due, node_due, key_due, field_due, row_due};
ghost use Rattle.bser_format.specs.DueReaders as due_readers;
ghost use Rattle.bser_format.specs.DueReaders.{nothing_at, stray_at, wrong_type};
ghost use Rattle.bser_deserializer.specs.Calls.{Keeps, HasFailed, NamesTag, is_out_of_range, nothing_due_in};
ghost use Rattle.bser_deserializer.specs.Dues.{IsValueDue, name_at};
ghost use Rattle.bser_deserializer.specs.Kept.{kept_key, kept_keys};
ghost use Rattle.bser_deserializer.specs.Reading.{NamesDue, bare};
ghost use Rattle.bser_deserializer.specs.State.{awaiting, refused};
ghost use Rattle.bser_deserializer.specs.View.{IsDue, SeesTag, IsNameDue, NoNameDue};

use crate::deserializer::{Deserializer, Due};
use crate::note::{Finding, Wanted};
use bser_bunser::prefix::is_key_tag;
use bser_bunser::refusal::{Answer, Refused};
use bser_format::errors::{Complaint, Error, Kind, ReadCause};
use bser_format::header::{BSER_SKIP, BSER_UTF8STRING};
use bser_source::read::DeRead;
use bser_source::reference::Lending;

/// Looks at what a [`Deserializer`] expects, for the crates above; users do not call it.
pub trait Cursor {
    /// Returns whether a call failed before, so that each later one does.
    fn is_failed(&self) -> bool;

    /// Returns what is expected.
    fn due(&self) -> Due;

    /// Returns how many levels are left.
    fn levels(&self) -> usize;

    /// Returns the tag of the value that is expected. It is not taken.
    fn value_tag(&mut self) -> Answer<u8>;

    /// Makes a value expected.
    fn await_node(&mut self);

    /// Makes an object's key expected.
    fn await_key(&mut self);

    /// Makes a field of a template's row expected.
    fn await_field(&mut self);

    /// Makes the key of a row's field expected, by its place among the template's keys.
    fn await_name(&mut self, place: usize);

    /// Makes a template's row expected.
    fn await_row(&mut self);

    /// Makes nothing expected: the value was read.
    fn await_nothing(&mut self);
}

impl<R: DeRead> Cursor for Deserializer<R> {
    #[inline(always)]
    fn is_failed(&self) -> bool
        ensures value { result ≡ self.now.state.source.failed }
        ensures lends { self.now.state.source.lends ≡ R.Lent.lends }
        ensures fits { length self.now.state.keys < 2 ^ 63 }
    {
        self.bunser.is_failed()
    }

    #[inline(always)]
    fn due(&self) -> Due
        ensures { IsDue result self.now.state }
    {
        self.due
    }

    #[inline(always)]
    fn levels(&self) -> usize
        ensures { result ≡ self.now.state.levels }
    {
        self.levels
    }

    #[inline(always)]
    fn value_tag(&mut self) -> Answer<u8>
        ensures found { IfOk result (SeesTag self.old.state self.new.state) }
        ensures kept { OnOk result (Keeps self.old self.new) }
        ensures err { OnErr result (HasFailed self.old self.new) }
        ensures names { OnErr result (NamesTag self.old self.new) }
        ensures memory { OnErr result (self.new.refusal ≢ Error.OutOfMemory) }
    {
        if !self.is_value_due() {
            return Err(self.refuse_no_value());
        }
        self.bunser.fill(1)?;
        Ok(self.bunser.buffered()[0])
    }

    #[inline(always)]
    fn await_node(&mut self)
        ensures { self.new.state ≡ awaiting node_due self.old.state }
    {
        self.due = Due::Node;
    }

    #[inline(always)]
    fn await_key(&mut self)
        ensures { self.new.state ≡ awaiting key_due self.old.state }
    {
        self.due = Due::Key;
    }

    #[inline(always)]
    fn await_field(&mut self)
        ensures { self.new.state ≡ awaiting field_due self.old.state }
    {
        self.due = Due::Field;
    }

    #[inline(always)]
    fn await_name(&mut self, place: usize)
        ensures { self.new.state ≡ awaiting (name_at place self.old.state.keys) self.old.state }
    {
        self.due = Due::Name;
        self.place = place;
    }

    #[inline(always)]
    fn await_row(&mut self)
        ensures { self.new.state ≡ awaiting (row_due self.old.state.keys) self.old.state }
    {
        self.due = Due::Row;
    }

    #[inline(always)]
    fn await_nothing(&mut self)
        ensures { self.new.state ≡ awaiting nothing_due self.old.state }
    {
        self.due = Due::Nothing;
    }
}

/// Whether this is the tag of a value, or the skip of a field.
fn is_tag(skips: bool, tag: u8) -> bool
    ensures { result ≡ due_readers.is_tag skips tag }
{
    tag < BSER_SKIP || tag == BSER_UTF8STRING || (skips && tag == BSER_SKIP)
}

/// The error for a byte, by whether it may be where it is.
fn wrong_type_or(known: bool, kind: Kind, byte: u8) -> Error
    ensures { result ≡ (if known then wrong_type else Error.DeInvalidStartByte kind byte) }
{
    if known {
        Error::de_custom(Complaint::WrongType)
    } else {
        Error::DeInvalidStartByte { kind, byte }
    }
}

impl<R: DeRead> Deserializer<R> {
    /// Whether a value is expected.
    #[inline(always)]
    pub(crate) fn is_value_due(&self) -> bool
        ensures yes { result ≡ true → IsValueDue self.now.state.due }
        ensures no { result ≡ false → IsValueDue self.now.state.due → ⊥ }
    {
        self.due == Due::Node || self.due == Due::Field
    }

    /// The error for a tag of another kind than is asked for.
    fn stray(&self, tag: u8) -> Error
        ensures { result ≡ stray_at self.now.state.due tag }
    {
        match self.due {
            Due::Node => wrong_type_or(is_tag(false, tag), Kind::NextItem, tag),
            Due::Field => wrong_type_or(is_tag(true, tag), Kind::NextItem, tag),
            Due::Key => wrong_type_or(is_key_tag(tag), Kind::MapKey, tag),
            _ => Error::de_custom(Complaint::WrongType),
        }
    }

    /// Fails for a tag of another kind than is asked for, and notes what is wanted.
    #[cold]
    #[inline(never)]
    #[tactic(auto, using(crate::proofs::Ranges::stray_other))]
    pub(crate) fn refuse_tag(&mut self, wanted: Wanted, tag: u8) -> Refused
        ensures reason { self.new.refusal ≡ stray_at self.old.state.due tag }
        ensures state { self.new.state ≡ refused self.old.state }
        ensures note { self.new.note.finding ≡ Some (Finding.Stray wanted tag) }
        ensures other { is_out_of_range self.new.refusal ≡ false }
        ensures begun { self.new.note.begun ≡ self.old.note.begun }
        ensures memory { self.new.refusal ≢ Error.OutOfMemory }
    {
        self.note.finding = Some(Finding::Stray { wanted, tag });
        let reason = self.stray(tag);
        self.bunser.refuse(reason)
    }

    /// Fails, since no value is expected.
    #[cold]
    #[inline(never)]
    #[tactic(auto, using(crate::proofs::Ranges::short_other))]
    pub(crate) fn refuse_no_value(&mut self) -> Refused
        requires { IsValueDue self.old.state.due → ⊥ }
        ensures err { HasFailed self.old self.new }
        ensures names { NamesDue bare nothing_at self.new.refusal self.old.state }
        ensures other { is_out_of_range self.new.refusal ≡ false }
        ensures begun { self.new.note.begun ≡ self.old.note.begun }
        ensures memory { self.new.refusal ≢ Error.OutOfMemory }
    {
        match self.due {
            Due::Key => match self.bunser.fill(1) {
                Ok(()) => {
                    let tag = self.bunser.buffered()[0];
                    self.refuse_tag(Wanted::Value, tag)
                }
                Err(Refused) => Refused,
            },
            _ if self.is_due() => self.complain(Complaint::WrongType),
            _ => self.refuse_nothing_due(),
        }
    }

    /// Fails, since nothing is expected: too few items, or a container is still open.
    #[tactic(auto, using(crate::proofs::Ranges::refused_other))]
    pub(crate) fn refuse_nothing_due(&mut self) -> Refused
        ensures reason { self.new.refusal ≡ nothing_due_in self.old }
        ensures other { is_out_of_range self.new.refusal ≡ false }
        ensures state { self.new.state ≡ refused self.old.state }
        ensures note { self.new.note ≡ self.old.note }
        ensures memory { self.new.refusal ≢ Error.OutOfMemory }
    {
        if self.opened != 0 {
            self.complain(Complaint::ValueOpen)
        } else {
            self.complain(Complaint::TooFewItems)
        }
    }
}

/// Returns the keys of the innermost open template.
#[inline(always)]
pub fn keys_of<R: DeRead>(from: &Deserializer<R>) -> &Vec<<R::Lent as Lending>::Kept>
    ensures { kept_keys R.Lent.Lending result.now ≡ from.now.state.keys }
{
    &from.keys
}

/// Returns the key of a row's field, where it is expected and no call failed.
#[inline(always)]
pub fn name_of<R: DeRead>(from: &Deserializer<R>) -> Option<&<R::Lent as Lending>::Kept>
    ensures some { IfSome result (λ k.
        IsNameDue (kept_key R.Lent.Lending k.now) from.now.state) }
    ensures lends { IfSome result (λ _. from.now.state.source.lends ≡ R.Lent.lends) }
    ensures none { IfNone result (NoNameDue from.now.state) }
{
    if from.due != Due::Name || from.place >= from.keys.len() || from.is_failed() {
        return None;
    }
    Some(&from.keys[from.place])
}
