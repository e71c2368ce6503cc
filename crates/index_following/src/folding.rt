//! Folds messages in memory, as an index takes them.
ghost use Rattle.std.specs.Prelude.{IfOk, IfErr};
ghost use Rattle.watchman_index.specs.Turns.{IsNew};
ghost use Rattle.index_following.specs.Folders.{folded};
ghost use Rattle.watchman_sqlite.specs.Subjects.{IsUnreadSubject};

use serde_bser::bytestring::ByteString;
use sqlite::{Alter, Connection};
use std::alloc::Global;
use watchman_index::changes::Changes;
use watchman_index::index::Index;
use watchman_index::standing::Standing;
use watchman_sqlite::adding::next_number;
use watchman_sqlite::conditions::Conditions;
use watchman_sqlite::error::IndexError;
use watchman_sqlite::subject::read_subject;
use watchman_sqlite::taking::{Taken, Taker};

/// Folds messages in memory.
#[derive(Drop)]
pub struct Folder {
    conditions: Conditions,
    /// How many messages that told files were taken.
    pub messages: u64,
    /// What the messages told.
    pub index: Index,
}

impl Folder {
    /// No message was taken. An index of this connection's subject takes those that this takes.
    pub fn new<S: Alter>(alloc: Global, conn: &mut Connection<S>) -> Result<Self, IndexError>
        ensures new { IfOk result (λ folder. IsNew (folded folder)) }
        ensures err { IfErr result IsUnreadSubject }
    {
        Ok(Folder {
            conditions: Conditions {
                may_be_empty: true,
                subject: read_subject(alloc, conn)?,
            },
            messages: 0,
            index: Index::new(alloc),
        })
    }
}

impl Taker for Folder {
    ghost use Rattle.std.specs.Prelude.{◌≡◌};
    ghost use Rattle.watchman_index.specs.Standings.{IsStanding};
    ghost use Rattle.watchman_index.specs.Turns.{Takes};
    ghost use Rattle.index_following.specs.Folders.{folded};

    ghost takes = { λ old told new. Takes (folded old) told (folded new) };

    ghost stands = { λ old changes standing. IsStanding old.index.last_clock changes standing };

    ghost rests = { λ old new. folded new ≡ folded old };

    fn take_changes(&mut self, changes: Changes) -> Result<Taken, IndexError> {
        let index = &self.index;
        let last = index.last_clock.as_ref();
        match self.conditions.standing(&index.origin, last, &changes)? {
            Standing::Told => return Ok(Taken::Told),
            Standing::Gap => return Ok(Taken::Gap(changes)),
            Standing::Joins => {}
        }
        let number = next_number(self.messages)?;
        if let Err(refusal) = self.index.apply(number, changes) {
            return Err(IndexError::Refused(refusal));
        }
        self.messages = number;
        Ok(Taken::Joined)
    }

    fn take_clock(&mut self, clock: ByteString) -> Result<(), IndexError> {
        self.index.apply_clock(self.messages, clock)?;
        Ok(())
    }

    fn last_clock(&mut self) -> Result<Option<&ByteString>, IndexError> {
        Ok(self.index.last_clock.as_ref())
    }

    fn pause(&mut self) -> Result<(), IndexError> {
        Ok(())
    }
}
