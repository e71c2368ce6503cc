//! What a message has to be for an index.
ghost use Rattle.std.specs.Prelude.{IfOk};
ghost use Rattle.std.specs.Option.{option_copied};
ghost use Rattle.watchman_index.specs.Standings.{IsStanding};

use crate::error::IndexError;
use crate::subject::{FileField, Subject};
use serde_bser::bytestring::ByteString;
use watchman_index::changes::Changes;
use watchman_index::origin::{ApplyError, Origin};
use watchman_index::row::FileState;
use watchman_index::standing::Standing;

/// What a message that joins has to be for an index.
#[derive(Debug, Drop)]
pub struct Conditions {
    /// Whether one that says that there are no files is taken.
    pub may_be_empty: bool,
    /// What the index was made for, where it was made by `init`.
    pub subject: Option<Subject>,
}

impl Conditions {
    /// How the message stands to the last clock of an index whose messages are of this origin. Fails
    /// for one of another root or subscription, and for one that joins and does not say what has to
    /// be known.
    pub fn standing(
        &self,
        origin: &Origin,
        last: Option<&ByteString>,
        changes: &Changes,
    ) -> Result<Standing, IndexError>
        ensures { IfOk result (IsStanding (option_copied last.entry) changes.now) }
    {
        if let Err(refusal) = origin.check(changes) {
            return Err(IndexError::Refused(refusal));
        }
        self.check_root(changes)?;
        let standing = Standing::of(last, changes);
        if standing == Standing::Joins {
            self.check_files(changes)?;
        }
        Ok(standing)
    }

    /// Fails for a message of another root than the one that the index was made for.
    fn check_root(&self, changes: &Changes) -> Result<(), IndexError> {
        match (&self.subject, &changes.root) {
            (Some(subject), Some(root)) if *root != subject.root => {
                Err(IndexError::Refused(ApplyError::OtherRoot))
            }
            _ => Ok(()),
        }
    }

    /// Fails where no file is listed of all that there are, and where a row lacks a field.
    fn check_files(&self, changes: &Changes) -> Result<(), IndexError> {
        if changes.is_fresh_instance && changes.files.is_empty() && !self.may_be_empty {
            return Err(IndexError::NoFiles);
        }
        match &self.subject {
            Some(subject) => check_fields(changes, &subject.fields),
            None => Ok(()),
        }
    }
}

/// Fails where a row lacks one of the fields.
fn check_fields(changes: &Changes, fields: &[FileField]) -> Result<(), IndexError> {
    for (name, state) in &changes.files {
        for field in fields {
            if !has_field(*state, *field) {
                return Err(IndexError::RowLacks(field.word(), name.clone()?));
            }
        }
    }
    Ok(())
}

/// Whether a row has the field. It has a name and tells whether the file exists, or it is not read.
fn has_field(state: FileState, field: FileField) -> bool {
    match field {
        FileField::Name | FileField::Exists => true,
        FileField::Size => state.size.is_some(),
        FileField::Mode => state.mode.is_some(),
        FileField::Type => state.kind.is_some(),
        FileField::ModificationTime => state.mtime_ms.is_some(),
    }
}
