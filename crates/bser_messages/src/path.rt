//! Which part of a message an error is in, as the keys and the indices that lead there.
ghost use Rattle.std.specs.Prelude.{◌≡◌};
ghost use Rattle.bser_messages.specs.Paths.{steps_of};

use crate::description::Description;
use crate::limits::Limits;
use crate::locating::{Locating, Target};
use crate::telling;
use crate::told::Reason;
use bser_deserializer::deserializer::MOST_LEVELS;
use bser_format::errors::Error;
use bser_format::quoted::write_quoted;
use std::alloc::{AllocError, Global};
use std::fmt;

/// A step from a container to a part of it.
#[derive(Debug, Drop)]
pub enum Step {
    /// To the value of this key, of an object or of a template's row.
    Key(String),
    /// To the item of an array or the row of a template with this index, which counts from 0.
    Index(usize),
}

/// The steps from a message's value to a part of it, the outermost first. No steps lead to the
/// value itself.
///
/// It prints as `files[17].size`. A key that is no name of ASCII letters, digits and underscores is
/// printed as a text of JSON, as in `["odd key"]`. Where there are no steps it is a dot.
#[derive(Debug, Drop)]
pub struct Path {
    /// The steps.
    pub steps: Vec<Step>,
}

impl Path {
    /// Returns the steps, the outermost first.
    pub fn steps(&self) -> &[Step]
        ensures { result.now ≡ steps_of self.now }
    {
        self.steps.as_slice()
    }
}

impl fmt::Display for Path {
    fn fmt<W: fmt::Write>(&self, f: &mut fmt::Formatter<W>) -> fmt::Result {
        if self.steps.is_empty() {
            return f.write_str(".");
        }
        let mut is_first = true;
        for step in &self.steps {
            match step {
                Step::Index(index) => write!(f, "[{index}]")?,
                Step::Key(key) => write_key(key.as_str(), is_first, f)?,
            }
            is_first = false;
        }
        Ok(())
    }
}

/// Writes the step to the value of a key.
fn write_key<W: fmt::Write>(key: &str, is_first: bool, f: &mut fmt::Formatter<W>) -> fmt::Result {
    if !is_name(key) {
        f.write_str("[")?;
        write_quoted(key, f)?;
        return f.write_str("]");
    }
    if !is_first {
        f.write_str(".")?;
    }
    f.write_str(key)
}

/// Whether the key is a name: of letters, digits and underscores, and begins with no digit.
fn is_name(key: &str) -> bool {
    let mut is_first = true;
    for byte in key.as_bytes() {
        let is_letter = byte.is_ascii_alphabetic() || *byte == b'_';
        let is_digit = byte.is_ascii_digit();
        if !is_letter && (is_first || !is_digit) {
            return false;
        }
        is_first = false;
    }
    !is_first
}

/// How many bytes lie before the error of a message that failed. The error is that there is no memory.
fn place_of_failure(reason: Reason) -> Result<Option<usize>, AllocError> {
    match reason {
        Reason::Stopped { place: _ } => Ok(None),
        Reason::Failed(failed) => match failed.cause() {
            Error::OutOfMemory => Err(AllocError),
            _ => Ok(Some(failed.place())),
        },
    }
}

/// Which part of a message is meant.
#[derive(Clone, Copy, Drop)]
pub enum Whole {
    /// What begins at a place.
    No,
    /// The row that begins there.
    Next,
    /// The container that ends there, or its last row.
    Last,
}

/// A place of a message that is well-formed.
#[derive(Clone, Copy, Drop)]
pub struct Spot {
    /// How many bytes of the message are before it.
    pub place: usize,
    /// How many levels are open there. A template has two.
    pub depth: usize,
    /// Which part is meant.
    pub whole: Whole,
}

/// Returns the steps to a part of a message, which `bytes` begin with. The error is that there is
/// no memory.
pub fn path_to(alloc: Global, bytes: &[u8], spot: Spot) -> Result<Path, AllocError> {
    let mut locating = Locating::new(alloc, spot.place, spot.depth);
    if let Err(untold) = telling::from_slice(alloc, MOST, bytes, &mut locating) {
        let _place = place_of_failure(untold.reason)?;
    }
    locating.path(match spot.whole {
        Whole::No => Target::Innermost,
        Whole::Next => Target::NextWhole,
        Whole::Last => Target::LastWhole,
    })
}

/// The most that a message is gone through for.
const MOST: Limits = Limits {
    levels: MOST_LEVELS,
    bytes: usize::MAX,
};

impl Description {
    /// Returns which part of the message the error is in. `bytes` are those that were read, from
    /// the start of the message on: the slice, or the bytes of a frame.
    ///
    /// It is the innermost value that is wrong. For a field that is missing it is where the field
    /// would be, and for an early end where reading was. An error of the message as a whole, as of
    /// its header, has no steps.
    ///
    /// The message is gone through again up to the error, so reading itself pays nothing for it. The
    /// memory that it takes is bounded by the depth of the message and by its keys. The error is
    /// that there is none.
    pub fn path(&self, alloc: Global, bytes: &[u8]) -> Result<Path, AllocError> {
        let mut locating = Locating::new(alloc, self.place(), self.opened);
        let failed = match telling::from_slice(alloc, MOST, bytes, &mut locating) {
            Ok(_) => None,
            Err(untold) => place_of_failure(untold.reason)?,
        };
        locating.path(self.target(failed))
    }
}
