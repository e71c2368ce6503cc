//! Moments from which on changes are asked for.
ghost use Rattle.std.specs.Prelude.{◌≡◌, Ok};
ghost use Rattle.bser_format.specs.Tree.{text};
ghost use Rattle.watchman_types.specs.Words.{time_field_word};
ghost use Rattle.watchman_types.specs.Terms.{moment_tree};

use bser_format::errors::Result;
use bser_ser::{Serialize, Serializer};
use bser_source::device::Sink;
use std::alloc::Global;

/// A moment, from which on changes are asked for.
#[derive(Clone, Copy)]
pub enum Moment<'a> {
    /// A clock that the server gave, as `c:1446410081:18462:7:135`, or a named cursor, as `n:mine`.
    Clock(&'a str),
    /// Seconds since 1970, in the time of the server.
    Time(i64),
}

impl<'a> Serialize for Moment<'a> {
    ghost meaning = { moment_tree };

    fn serialize<W: Sink>(&self, _alloc: Global, out: &mut Serializer<W>) -> Result<()> {
        match self {
            Moment::Clock(clock) => out.put_text(clock),
            Moment::Time(seconds) => out.put_i64(*seconds),
        }
    }
}

/// Which time of a file is compared with a moment.
#[derive(Clone, Copy)]
pub enum TimeField {
    /// `oclock`, when the server saw it change last
    ObservedClock,
    /// `cclock`, when the server saw it for the first time
    CreatedClock,
    /// `mtime`, when its content changed
    ModificationTime,
    /// `ctime`, when its metadata changed
    ChangeTime,
}

impl TimeField {
    /// Returns Watchman's word for it.
    pub fn word(self) -> &'static str
        ensures { result.now ≡ time_field_word self }
    {
        match self {
            TimeField::ObservedClock => "oclock",
            TimeField::CreatedClock => "cclock",
            TimeField::ModificationTime => "mtime",
            TimeField::ChangeTime => "ctime",
        }
    }
}

impl Serialize for TimeField {
    ghost meaning = { λ f. Ok (text (time_field_word f)) };

    fn serialize<W: Sink>(&self, _alloc: Global, out: &mut Serializer<W>) -> Result<()> {
        out.put_text(self.word())
    }
}
