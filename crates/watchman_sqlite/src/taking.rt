//! What takes what messages tell, and how many there were.
ghost use Rattle.std.specs.Prelude.{◌≡◌, ◌⊎◌, false, OnOk, IfOk};
ghost use Rattle.std.specs.Bool.{Decides};
ghost use Rattle.watchman_index.specs.Clocks.{IsToldBy, is_one_instance};
ghost use Rattle.watchman_index.specs.declared.changes.Changes.{Changes};
ghost use Rattle.watchman_index.specs.declared.standing.Standing.{Standing};
ghost use Rattle.watchman_index.specs.declared.told.Told.{Told};
ghost use Rattle.watchman_index.specs.declared.told.Told.TheVariants as told;
ghost use Rattle.watchman_sqlite.specs.Taken.{standing_of};

use crate::error::IndexError;
use serde_bser::bytestring::ByteString;
use watchman_index::changes::Changes;
use watchman_index::clock::{are_of_one_instance, is_told_by};

/// What became of a message that tells files.
#[derive(Debug, Drop)]
pub enum Taken {
    /// It joined what was told before it, and its files were taken.
    Joined,
    /// What it tells was told before. Nothing was changed.
    Told,
    /// What changed before it is not known. Nothing was changed.
    Gap(Changes),
}

/// What takes what messages tell.
pub trait Taker {
    // what it is once it took what a message tells
    ghost takes: { Self → Told → Self → Type 0 };

    // how a message that tells files stands to what it took before
    ghost stands: { Self → Changes → Standing → Type 0 };

    // what it is where it took nothing
    ghost rests: { Self → Self → Type 0 };

    /// Takes which files a message tells.
    fn take_changes(&mut self, changes: Changes) -> Result<Taken, IndexError>
        ensures taken { OnOk result (takes self.old (told.Files changes) self.new) }
        ensures standing { IfOk result (λ taken. stands self.old changes (standing_of taken)) };

    /// Takes the clock of a message that tells no files.
    fn take_clock(&mut self, clock: ByteString) -> Result<(), IndexError>
        ensures { OnOk result (takes self.old (told.Clock clock) self.new) };

    /// The clock up to which all is told.
    fn last_clock(&mut self) -> Result<Option<&ByteString>, IndexError>;

    /// Is told that the next message has to be waited for.
    fn pause(&mut self) -> Result<(), IndexError>
        ensures { OnOk result (rests self.old self.new) };
}

/// Whether all is told up to a message with the clock `gap`, once one with this clock was taken. What is
/// of another server or crawl tells all anew.
pub fn is_filled(gap: &ByteString, clock: &ByteString) -> bool
    ensures { Decides result (IsToldBy clock.now gap.now
        ⊎ (is_one_instance clock.now gap.now ≡ false)) }
{
    let (gap, clock) = (gap.as_bytes(), clock.as_bytes());
    is_told_by(clock, gap) || !are_of_one_instance(clock, gap)
}

/// How many messages there were.
#[derive(Debug, Clone, Copy, Default, PartialEq, Eq)]
pub struct Totals {
    /// Those that told files, and were taken.
    pub messages: u64,
    /// The files that these listed.
    pub files: u64,
    /// Those that told no files, and no error.
    pub others: u64,
    /// Those that told what was told before.
    pub told: u64,
    /// Those before which something is missing.
    pub gaps: u64,
    /// Those that told an error of the server, or the end of a subscription.
    pub errors: u64,
    /// Those that could not be taken, and files that could not be read.
    pub refused: u64,
    /// The gaps that were not filled at the end.
    pub unfilled: u64,
    /// The inputs with messages of a subscription that ended, and are no recording.
    pub ended: u64,
}

impl Totals {
    /// Whether all was taken, and nothing is known to be missing.
    pub fn is_complete(&self) -> bool {
        self.errors == 0 && self.refused == 0 && self.unfilled == 0 && self.ended == 0
    }
}
