//! What a description adds to an error.
ghost use Rattle.std.specs.Prelude.{◌≡◌, ◌≢◌, false, Some};
ghost use Rattle.bser_deserializer.specs.Calls.{complained};
ghost use Rattle.bser_deserializer.specs.State.{refused};

use crate::deserializer::Deserializer;
use bser_bunser::refusal::{Answer, Refused};
use bser_format::errors::{Complaint, EnumName, Error};
use bser_source::read::DeRead;

/// The name of a field, of which as many bytes are kept as of an enum's name.
pub type FieldName = EnumName;

/// What kind of value is wanted.
#[derive(Debug, Clone, Copy, PartialEq, Eq)]
pub enum Wanted {
    /// Any value.
    Value,
    /// An integer.
    Integer,
    /// True or false.
    Truth,
    /// A real.
    Real,
    /// Null.
    Null,
    /// A text or a byte string.
    Text,
    /// An array or a template.
    Array,
    /// An object or a template's row.
    Object,
}

/// What is wrong with a value or a field.
#[derive(Debug, Clone, Copy, PartialEq, Eq)]
pub enum Finding {
    /// A value with this tag is where one of another kind is wanted.
    Stray { wanted: Wanted, tag: u8 },
    /// An integer that the type does not hold.
    OutOfRange(i64),
    /// A field that has to be there is absent.
    Missing,
    /// A field comes twice.
    Repeated,
}

/// What is noted beside an error: what was found, and the field that it concerns. It has no content
/// where the error says all.
#[derive(Debug, Clone, Copy, PartialEq, Eq)]
pub struct Note {
    /// What is wrong.
    pub finding: Option<Finding>,
    /// The innermost field whose value is wrong, or that is missing or comes twice.
    pub field: Option<FieldName>,
    /// How many bytes were taken before the value that is wrong, where it was taken whole.
    pub begun: Option<usize>,
}

impl Note {
    /// Notes nothing.
    pub const NONE: Note = Note {
        finding: None,
        field: None,
        begun: None,
    };
}

impl<R: DeRead> Deserializer<R> {
    /// Returns what is noted beside the first error.
    #[cold]
    #[inline(never)]
    pub fn note(&self) -> Note
        ensures { result ≡ self.now.note }
    {
        self.note
    }

    /// Fails with this complaint as [`Deserializer::complain`] does, and notes what was found.
    #[cold]
    #[inline(never)]
    pub fn complain_of(&mut self, complaint: Complaint, finding: Finding) -> Refused
        ensures reason { self.new.refusal ≡ complained complaint self.old }
        ensures state { self.new.state ≡ refused self.old.state }
        ensures note { self.old.state.source.failed ≡ false → self.new.note.finding ≡ Some finding }
        ensures begun { self.new.note.begun ≡ self.old.note.begun }
        ensures memory { self.new.refusal ≢ Error.OutOfMemory }
    {
        let failed = self.bunser.is_failed();
        let refused = self.complain(complaint);
        if !failed {
            self.note.finding = Some(finding);
        }
        refused
    }

    /// Notes that the value which is refused next began behind so many bytes.
    #[cold]
    #[inline(never)]
    pub fn note_begun(&mut self, begun: usize)
        ensures reason { self.new.refusal ≡ self.old.refusal }
        ensures state { self.new.state ≡ self.old.state }
        ensures begun { self.new.note.begun ≡ Some begun }
        ensures finding { self.new.note.finding ≡ self.old.note.finding }
        ensures field { self.new.note.field ≡ self.old.note.field }
    {
        self.note.begun = Some(begun);
    }

    /// Passes an answer on, and notes the name at this place where it is an error and no field
    /// inside that one is noted yet. A place behind the last notes none.
    #[inline(always)]
    pub fn in_field<T: Drop>(
        &mut self,
        answer: Answer<T>,
        names: &[&str],
        place: usize,
    ) -> Answer<T>
        ensures answer { result ≡ answer }
        ensures reason { self.new.refusal ≡ self.old.refusal }
        ensures state { self.new.state ≡ self.old.state }
    {
        if answer.is_err() {
            self.note_field(names, place);
        }
        answer
    }

    /// Notes the name at this place after an error, where no field is noted yet. A place behind the
    /// last notes none.
    #[cold]
    #[inline(never)]
    pub fn note_field(&mut self, names: &[&str], place: usize)
        ensures reason { self.new.refusal ≡ self.old.refusal }
        ensures state { self.new.state ≡ self.old.state }
        ensures finding { self.new.note.finding ≡ self.old.note.finding }
    {
        if self.note.field.is_none() && place < names.len() {
            self.note.field = Some(FieldName::new(names[place]));
        }
    }
}
