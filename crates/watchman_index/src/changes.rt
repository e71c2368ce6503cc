//! What a message changes.
ghost use Rattle.std.specs.Prelude.{IfOk};
ghost use Rattle.watchman_index.specs.Lists.{HasListed};
ghost use Rattle.watchman_index.specs.Told.{IsOfQuery, IsOfSubscription};

use crate::listed::Listed;
use crate::row::FileState;
use serde_bser::bytestring::ByteString;
use std::alloc::{AllocError, Global};
use std::collections::BTreeMap;
use watchman_types::query::QueryResult;
use watchman_types::subscription::FilesChanged;

/// The files below a root that a message lists, and what goes with them.
#[derive(Debug, Drop)]
pub struct Changes {
    /// The root, where the message names it.
    pub root: Option<ByteString>,
    /// The subscription, in a message of one.
    pub subscription: Option<ByteString>,
    /// The clock of the message.
    pub clock: ByteString,
    /// The clock after which the changes of a subscription's message are.
    pub since: Option<ByteString>,
    /// Whether the files that are listed are all that there are, and not those that changed.
    pub is_fresh_instance: bool,
    /// The files that are listed, each once.
    pub files: BTreeMap<ByteString, FileState>,
}

impl Changes {
    /// Takes the changes from the answer to a query. The error is that there is no memory for it.
    pub fn of_query(
        alloc: Global,
        answer: QueryResult<ByteString, Listed>,
    ) -> Result<Self, AllocError>
        ensures { IfOk result (IsOfQuery answer) }
    {
        Ok(Changes {
            root: answer.root,
            subscription: None,
            clock: answer.clock,
            since: None,
            is_fresh_instance: answer.is_fresh_instance,
            files: files_of(alloc, answer.files)?,
        })
    }

    /// Takes the changes from a message of a subscription. The error is that there is no memory for
    /// it.
    pub fn of_subscription(
        alloc: Global,
        told: FilesChanged<ByteString, Listed>,
    ) -> Result<Self, AllocError>
        ensures { IfOk result (IsOfSubscription told) }
    {
        Ok(Changes {
            root: told.root,
            subscription: Some(told.subscription),
            clock: told.clock,
            since: told.since,
            is_fresh_instance: told.is_fresh_instance,
            files: files_of(alloc, told.files)?,
        })
    }
}

/// Returns the files of a list by their names. Where a name occurs more than once, its last place
/// counts. The error is that there is no memory for them.
pub fn files_of(
    alloc: Global,
    listed: Vec<Listed>,
) -> Result<BTreeMap<ByteString, FileState>, AllocError>
    ensures { IfOk result (HasListed listed.items) }
{
    listed
        .into_iter()
        .map(|file| file.into_entry())
        .collect(alloc)
}
