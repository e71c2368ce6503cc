//! How far a message was read.
ghost use Rattle.std.specs.Prelude.{◌≡◌, ◌-◌, ◌^◌, min, pos};
ghost use Rattle.bser_messages.specs.Descriptions.{LiesWithin, cause_of, place_of, note_of, place_in};

use crate::description::{Description, description_of};
use bser_deserializer::deserializer::Deserializer;
use bser_deserializer::note::Note;
use bser_format::errors::Error;
use bser_source::read::DeRead;

/// How many bytes a deserializer took, where the body began, how many containers are open, and what
/// it notes beside the error.
#[derive(Clone, Copy)]
pub(crate) struct Progress {
    pub(crate) count: i64,
    pub(crate) start: i64,
    pub(crate) opened: usize,
    pub(crate) note: Note,
}

impl Progress {
    /// Nothing was read.
    pub(crate) const NONE: Progress = Progress {
        count: 0,
        start: 0,
        opened: 0,
        note: Note::NONE,
    };

    /// How far this deserializer came.
    #[cold]
    #[inline(never)]
    pub(crate) fn of<R: DeRead>(from: &Deserializer<R>) -> Progress
        ensures count { result.count ≡ pos (min from.now.state.source.count (2 ^ 63 - 1)) }
        ensures start { result.start ≡ from.now.state.start }
        ensures note { result.note ≡ from.now.note }
    {
        Progress {
            count: from.read_count(),
            start: from.start(),
            opened: from.opened(),
            note: from.note(),
        }
    }

    /// Describes an error with this cause, of an input of `len` bytes.
    #[cold]
    #[inline(never)]
    pub(crate) fn describe(self, cause: Error, len: usize) -> Description
        ensures cause { cause_of result ≡ cause }
        ensures place { place_of result ≡ place_in cause self.note self.count len }
        ensures within { LiesWithin len result }
        ensures note { note_of result ≡ self.note }
    {
        description_of(cause, self, len)
    }
}
