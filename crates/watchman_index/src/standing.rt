//! How a message stands to what was told before it.
ghost use Rattle.std.specs.Bool.{Decides};
ghost use Rattle.std.specs.Option.{option_copied};
ghost use Rattle.watchman_index.specs.Standings.{GoesOn, IsLater, IsStanding, IsTold};

use crate::changes::Changes;
use crate::clock::{are_of_one_instance, is_told_by};
use serde_bser::bytestring::ByteString;

/// How a message that lists files stands to the last clock of an index.
///
/// A message covers the time from its `since` to its clock.
#[derive(Debug, Clone, Copy, PartialEq, Eq)]
pub enum Standing {
    /// It ends at or before the last clock. So it tells nothing new.
    Told,
    /// It is a fresh instance, or begins at or before the last clock and ends behind it.
    Joins,
    /// What changed between the last clock and its beginning is not known: it is no fresh instance,
    /// and it begins later, is of another server or crawl, or there is no last clock.
    Gap,
}

impl Standing {
    /// How the message stands to the last clock.
    ///
    /// One without `since` is taken as the answer to a query since the last clock, or an earlier
    /// one: an answer does not say what was asked.
    pub fn of(last: Option<&ByteString>, changes: &Changes) -> Standing
        ensures { IsStanding (option_copied last.entry) changes.now result }
    {
        if is_told(last, &changes.clock) {
            return Standing::Told;
        }
        if changes.is_fresh_instance || goes_on(last, changes) {
            Standing::Joins
        } else {
            Standing::Gap
        }
    }
}

/// Returns whether all is told up to this clock.
pub fn is_told(last: Option<&ByteString>, clock: &ByteString) -> bool
    ensures { Decides result (IsTold (option_copied last.entry) clock.now) }
{
    match last {
        Some(last) => is_told_by(last.as_bytes(), clock.as_bytes()),
        None => false,
    }
}

/// Returns whether the clock lies behind the last one, of its server and crawl, or there is no last
/// one. Of another server or crawl it is not known whether it is later.
pub fn is_later(last: Option<&ByteString>, clock: &ByteString) -> bool
    ensures { Decides result (IsLater (option_copied last.entry) clock.now) }
{
    match last {
        Some(last) => {
            let (last, clock) = (last.as_bytes(), clock.as_bytes());
            are_of_one_instance(last, clock) && !is_told_by(last, clock)
        }
        None => true,
    }
}

/// Whether the message is of the server and the crawl of the last clock, and does not begin later.
fn goes_on(last: Option<&ByteString>, changes: &Changes) -> bool
    ensures { Decides result (GoesOn (option_copied last.entry) changes.now) }
{
    let Some(last) = last else {
        return false;
    };
    if !are_of_one_instance(last.as_bytes(), changes.clock.as_bytes()) {
        return false;
    }
    match &changes.since {
        Some(since) => is_told_by(last.as_bytes(), since.as_bytes()),
        None => true,
    }
}
