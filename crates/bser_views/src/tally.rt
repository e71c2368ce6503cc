//! What a message has, counted as it is told.
ghost use Rattle.std.specs.Prelude.{◌≤◌, IfOk};
ghost use Rattle.bser_deserializer.specs.declared.deserializer.TheConstants.{MOST_LEVELS};
ghost use Rattle.bser_views.specs.Summed.{IsNextSummed};

use crate::counts::{Counts, Kinds};
use bser_events::builder::{Builder, Stop};
use bser_events::event::{Event, EventKind, Place};
use bser_messages::limits::Limits;
use bser_messages::telling;
use bser_messages::told::{Header, TellError};
use bser_source::device::Source;
use std::alloc::Global;

/// What was told of a message, and how many bytes its parts of each kind take.
#[derive(Debug, Clone, Copy, PartialEq, Eq)]
pub struct Tally {
    /// What was told.
    pub counts: Counts,
    /// How many bytes the parts of each kind take, with tags and lengths. A container's are those
    /// of its head.
    pub bytes: Kinds,
}

impl Tally {
    /// Nothing was told.
    pub const NONE: Tally = Tally {
        counts: Counts::NONE,
        bytes: Kinds::NONE,
    };
}

impl Builder for Tally {
    ghost use Rattle.std.specs.Prelude.{◌≡◌, false, true};
    ghost use Rattle.bser_views.specs.Counting.{counted};

    ghost takes = { λ a e p b. b.counts ≡ counted e a.counts };

    ghost stopped = { λ _ _ _ _ _. ⊥ };

    ghost stops = { false };

    ghost asks = { false };

    ghost bytes = { true };

    fn wants_bytes(&self) -> bool {
        true
    }

    fn take(&mut self, event: Event<'_>, place: Place) -> Result<(), Stop> {
        self.counts.count(&event);
        self.bytes.add(event.kind(), place.size() as u64);
        Ok(())
    }

    fn bytes_passed(&mut self, _len: usize, place: Place) -> Result<(), Stop> {
        self.bytes.add(EventKind::Bytes, place.size() as u64);
        Ok(())
    }
}

/// What a message has.
#[derive(Debug, Clone, Copy, PartialEq, Eq)]
pub struct Summed {
    /// What its header tells.
    pub header: Header,
    /// What its body has.
    pub tally: Tally,
}

/// Takes the reader's next message, within these limits, and answers what it has, or `None` where
/// no byte is left. It takes memory for the containers that are open and for the longest string.
#[tactic(auto, using(crate::proofs::Folds::summed))]
pub fn next_summed<S: Source>(
    alloc: Global,
    limits: Limits,
    reader: &mut S,
) -> Result<Option<Summed>, TellError>
    requires { limits.levels ≤ MOST_LEVELS }
    ensures { IfOk result (IsNextSummed limits (S.remaining reader.old) (S.remaining reader.new)) }
{
    let mut tally = Tally::NONE;
    match telling::next_message(alloc, limits, reader, &mut tally)? {
        Some(header) => Ok(Some(Summed { header, tally })),
        None => Ok(None),
    }
}
