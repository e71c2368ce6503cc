//! How a message stands to an index that is followed.

use serde_bser::bytestring::ByteString;
use watchman_index::changes::Changes;
use watchman_index::standing::Standing;

/// How a message stands to an index that names for each clock what the server names.
#[derive(Debug, Clone, Copy, PartialEq, Eq)]
pub(crate) enum Judged {
    /// It tells nothing new.
    Told,
    /// It lists all files, or those that changed since the last clock.
    Exact,
    /// It lists files that changed since an earlier clock.
    Overlap,
    /// What changed before it is not known.
    Gap,
}

impl Judged {
    /// How the message stands to the last clock.
    pub(crate) fn of(last: Option<&ByteString>, changes: &Changes) -> Judged {
        match Standing::of(last, changes) {
            Standing::Told => Judged::Told,
            Standing::Gap => Judged::Gap,
            Standing::Joins if changes.is_fresh_instance => Judged::Exact,
            Standing::Joins => match (last, &changes.since) {
                (Some(last), Some(since)) if last == since => Judged::Exact,
                _ => Judged::Overlap,
            },
        }
    }
}
