//! The ways of reading one message as a type.
use bser_format::errors::Error;
use bser_messages::message::from_slice_within;
use bser_types::deserialize::{Deserialize, DeserializeOwned};
use bser_vectors::devices::Plan;
use bser_vectors::notation::answer_text;
use bser_vectors::shown::Shown;
use bser_vectors::ways::read_by_plan_within;
use std::alloc::{AllocError, Global};
use std::fmt;

/// How many bytes a reader gives a call at most.
const PIECES: [usize; 6] = [1, usize::MAX, 2, 3, 7, 4096];

/// A way of reading a message.
#[derive(Debug, Clone, Copy)]
pub enum ReadingWay {
    /// From the slice.
    Slice,
    /// From a reader that gives at most so many bytes a call.
    Reader(usize),
}

impl fmt::Display for ReadingWay {
    fn fmt<W: fmt::Write>(&self, f: &mut fmt::Formatter<W>) -> fmt::Result {
        match self {
            ReadingWay::Slice => f.write_str("from a slice"),
            ReadingWay::Reader(1) => f.write_str("from a reader of one byte a call"),
            ReadingWay::Reader(usize::MAX) => f.write_str("from a reader of all bytes at once"),
            ReadingWay::Reader(most) => write!(f, "from a reader of {most} bytes a call"),
        }
    }
}

/// Why a message was not read as expected.
#[derive(Debug, Drop, thiserror::Error)]
pub enum Mismatch {
    /// It was answered otherwise on this way: the answer in the notation, with the bytes taken from a
    /// reader.
    #[error("another answer, {0}")]
    Answer(ReadingWay, String),
    /// There is no type of this name.
    #[error("no such type")]
    NoSuchType,
    /// A growth was refused.
    #[error("out of memory")]
    OutOfMemory,
}

impl From<AllocError> for Mismatch {
    fn from(_error: AllocError) -> Self {
        Mismatch::OutOfMemory
    }
}

/// Whether a message is read as expected.
pub type Compared = Result<(), Mismatch>;

/// A message, and what is expected of reading it.
#[derive(Clone, Copy)]
pub struct Sample<'a> {
    /// The bytes that are read.
    pub message: &'a [u8],
    /// How many levels the message may have, of which 1024 at most are given.
    pub levels: usize,
    /// The notation of the answer.
    pub answer: &'a str,
    /// How many bytes a message has that is accepted.
    pub taken: usize,
}

impl<'a> Sample<'a> {
    /// Reads from the slice.
    pub fn lent<T: Shown + Deserialize<&'a [u8]>>(&self, alloc: Global) -> Compared {
        let answer = from_slice_within::<T>(alloc, self.levels.min(1024), self.message);
        self.check(alloc, ReadingWay::Slice, &answer, self.taken)
    }

    /// Reads from the slice, and from readers of 1, 2, 3, 7 and 4096 bytes a call and of all bytes at
    /// once, which have to take as many bytes as are expected of a message that is accepted.
    pub fn owned<T: Shown + Deserialize<&'a [u8]> + DeserializeOwned>(
        &self,
        alloc: Global,
    ) -> Compared {
        self.lent::<T>(alloc)?;
        for most in PIECES {
            let plan = Plan::pieces(most);
            let (answer, count) = read_by_plan_within::<T>(alloc, self.levels, self.message, plan);
            self.check(alloc, ReadingWay::Reader(most), &answer, count)?;
        }
        Ok(())
    }

    /// Compares an answer, and how many bytes a reader gave.
    fn check<T: Shown>(
        &self,
        alloc: Global,
        way: ReadingWay,
        answer: &Result<T, Error>,
        count: usize,
    ) -> Compared {
        let mut text = answer_text(alloc, answer)?;
        if text.as_str() == self.answer && (answer.is_err() || count == self.taken) {
            return Ok(());
        }
        if let ReadingWay::Reader(_) = way {
            write!(text, " of {count} bytes")?;
        }
        Err(Mismatch::Answer(way, text))
    }
}
