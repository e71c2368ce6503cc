//! The parts of a value on their way to a message.
ghost use Rattle.std.specs.Prelude.{IfOk};
ghost use Rattle.bser_draft.specs.Written.{IsLeastMessage};
ghost use Rattle.bser_serde.specs.Written.{IsLeastOrCounted};

mod serializer;
mod unwritten;

use crate::write_error::WriteError;
use bser_draft::{Draft, DraftError};
use serde::{Case, NameKind, Serialize};
use serde_bser::errors::{Complaint, Error, Result};
use std::alloc::Global;

/// What a part of a value came to.
type Put = std::result::Result<(), WriteError>;

/// What the next value is, where none may come.
#[derive(Clone, Copy, PartialEq, Eq, Drop)]
enum Role {
    Value,
    Key,
    /// A map whose entries go into the one that is open, or a unit that has none.
    Flat,
}

/// A map that is open, and is no object of the draft with its own count.
#[derive(Clone, Copy, Drop)]
struct OpenMap {
    /// How many containers of the draft are open in it.
    depth: usize,
    form: MapForm,
}

/// What such a map is.
#[derive(Clone, Copy, Drop)]
enum MapForm {
    /// Its entries go into the map around it.
    Merged,
    /// Its entries are counted: it is the map of this number that does not know how many it has.
    Counted(usize),
}

/// Puts the parts of a value into a draft of its message.
///
/// A map may not know how many entries it has. Then they are counted, for a second writer that
/// knows the counts.
#[derive(Drop)]
struct Writer {
    draft: Draft,
    role: Role,
    maps: Vec<OpenMap>,
    /// The entries of each map that does not know their number, in the order of their beginnings.
    counts: Vec<usize>,
    /// Those that an earlier writer counted.
    known: Vec<usize>,
    alloc: Global,
}

/// What a writer made.
#[derive(Drop)]
pub(crate) enum Written {
    /// The message.
    Message(Vec<u8>),
    /// The entries of the maps that do not know their number.
    Counts(Vec<usize>),
}

impl Writer {
    /// `known` are the counts of an earlier writer of the same value.
    fn new(alloc: Global, known: Vec<usize>) -> Result<Writer> {
        Ok(Writer {
            draft: Draft::new(alloc)?,
            role: Role::Value,
            maps: Vec::new(alloc),
            counts: Vec::new(alloc),
            known,
            alloc,
        })
    }

    /// The message, or the counts where they were not known.
    fn finish(self) -> Result<Written>
        ensures { IfOk result IsLeastOrCounted }
    {
        let Writer { draft, counts, .. } = self;
        if draft.is_rough() {
            return Ok(Written::Counts(counts));
        }
        match draft.finish() {
            Ok(message) => Ok(Written::Message(message)),
            Err(refused) => Err(refused.into_error()),
        }
    }

    /// What a put of the draft came to.
    #[inline(always)]
    fn answer(&self, put: std::result::Result<(), DraftError>) -> Put {
        match put {
            Ok(()) => Ok(()),
            Err(refused) => Err(self.refused(refused)),
        }
    }

    /// A value may come.
    #[inline(always)]
    fn expect_value(&self) -> Put {
        if self.draft.is_value_due() {
            return Ok(());
        }
        Err(self.unexpected())
    }

    /// Puts a key.
    #[inline(always)]
    fn put_key(&mut self, key: &str) -> Put {
        let put = self.draft.put_key(key);
        self.answer(put)
    }

    /// Puts a key where one is due as a value.
    #[cold]
    #[inline(never)]
    fn put_due_key(&mut self, key: &str) -> Put {
        if self.role != Role::Key {
            return Err(self.unexpected());
        }
        self.role = Role::Value;
        self.put_key(key)
    }

    /// Puts a text, or a key where one is due.
    #[inline(always)]
    fn put_str(&mut self, text: &str) -> Put {
        if !self.draft.is_value_due() {
            return self.put_due_key(text);
        }
        let put = self.draft.put_text(text);
        self.answer(put)
    }

    /// Puts a key in this case.
    #[inline(never)]
    fn put_spelled_key(&mut self, kind: NameKind, name: &str, case: Case) -> Put {
        match self.spelled(kind, name, case) {
            Ok(spelled) => self.put_key(spelled.as_str()),
            Err(failure) => Err(failure),
        }
    }

    /// The name in this case.
    #[inline(never)]
    fn spelled(
        &self,
        kind: NameKind,
        name: &str,
        case: Case,
    ) -> std::result::Result<String, WriteError> {
        let mut spelled = String::new(self.alloc);
        match case.append(kind, name, &mut spelled) {
            Ok(()) => Ok(spelled),
            Err(_) => Err(WriteError::MEMORY),
        }
    }

    /// Begins a map whose entries go into the one that is open, where one is due.
    #[cold]
    #[inline(never)]
    fn begin_merged(&mut self) -> Put {
        if self.role != Role::Flat {
            return Err(self.unexpected());
        }
        self.role = Role::Value;
        self.keep_open(MapForm::Merged)
    }

    /// Begins a map that does not know how many entries it has.
    #[inline(never)]
    fn begin_counted(&mut self) -> Put {
        let place = self.counts.len();
        if self.counts.push(0).is_err() {
            return Err(WriteError::MEMORY);
        }
        match self.known.get(place) {
            Some(count) => {
                let put = self.draft.open_object(*count);
                self.answer(put)
            }
            None => {
                let put = self.draft.open_uncounted();
                self.answer(put)?;
                self.keep_open(MapForm::Counted(place))
            }
        }
    }

    /// A map of this form is open.
    fn keep_open(&mut self, form: MapForm) -> Put {
        let depth = self.draft.depth();
        match self.maps.push(OpenMap { depth, form }) {
            Ok(()) => Ok(()),
            Err(_) => Err(WriteError::MEMORY),
        }
    }

    /// Ends the innermost of the maps that are merged or counted.
    #[inline(never)]
    fn end_kept_open(&mut self) -> Put {
        let Some(
            OpenMap {
                form: MapForm::Counted(place),
                ..
            },
        ) = self.maps.pop()
        else {
            return Ok(());
        };
        match self.draft.close_uncounted() {
            Ok(entries) => {
                if let Some(count) = self.counts.get_mut(place) {
                    *count = entries;
                }
                Ok(())
            }
            Err(refused) => Err(self.refused(refused)),
        }
    }
}

/// The message of a value. A value with maps that do not know how many entries they have is gone
/// through twice.
pub(crate) fn message_of<T: Serialize>(alloc: Global, value: &T) -> Result<Vec<u8>>
    ensures { IfOk result (λ message. IsLeastMessage message.items) }
{
    let known = match write_once(alloc, value, Vec::new(alloc))? {
        Written::Message(message) => return Ok(message),
        Written::Counts(known) => known,
    };
    match write_once(alloc, value, known)? {
        Written::Message(message) => Ok(message),
        Written::Counts(_) => Err(Error::ser_custom(Complaint::ValueOpen)),
    }
}

/// What a writer that knows these counts makes of a value.
fn write_once<T: Serialize>(alloc: Global, value: &T, known: Vec<usize>) -> Result<Written>
    ensures { IfOk result IsLeastOrCounted }
{
    let mut writer = Writer::new(alloc, known)?;
    match value.serialize(&mut writer) {
        Ok(()) => writer.finish(),
        Err(failure) => Err(failure.into_error()),
    }
}
