//! Why a message is not read as a type.
ghost use Rattle.std.specs.Prelude.{◌≡◌};

use bser_messages::description::Description;
use bser_messages::path::Path;
use std::alloc::Global;
use std::fmt;

/// Why a message is not read as a type.
///
/// It prints as one line without an end: what is wrong, at which byte, and in which part.
#[derive(Debug, Drop)]
pub struct AnswerError {
    /// What is wrong, and where.
    pub description: Description,
    /// The part of the message that is wrong. None where no memory was left to find it.
    pub path: Option<Path>,
}

impl AnswerError {
    /// The error of this description, of which it finds the part in the message.
    pub(crate) fn find(alloc: Global, description: Description, message: &[u8]) -> Self
        ensures { result.description ≡ description }
    {
        let path = description.path(alloc, message).ok();
        AnswerError { description, path }
    }
}

impl fmt::Display for AnswerError {
    fn fmt<W: fmt::Write>(&self, f: &mut fmt::Formatter<W>) -> fmt::Result {
        write!(f, "{}", self.description)?;
        match &self.path {
            Some(path) if !path.steps().is_empty() => write!(f, ", in {path}"),
            _ => Ok(()),
        }
    }
}
