//! What an index is after messages that were applied in turn.
ghost use Rattle.watchman_index.specs.Turns.{ToldInTurn, ToldTheSame, UntoldIsUnknown};

use crate::told::{Told, ToldTypes};

/// Over any messages, each read by [`read_told`](crate::told::read_told) and taken as it stands
/// ([`Standing::of`](crate::standing::Standing::of)), by
/// [`Index::apply`](crate::index::Index::apply) where it joins, and by
/// [`Index::apply_clock`](crate::index::Index::apply_clock), from an index of no files on:
///
/// - They alone determine the files and the clocks.
/// - A clock that none of them set is not known. One that joins sets its clock; and one without
///   files sets its clock where that is not known, and later than the last one.
/// - What [`Index::changes_since`](crate::index::Index::changes_since) gives for a clock is what
///   the messages behind the last one that set it changed. A message that joins changes each file
///   that it lists, and where it lists all files, each that existed and that it does not list. One
///   that was told, and one behind a gap, changes nothing.
pub fn told_in_turn()
    ensures same { ToldTheSame ⟦<Told as ToldTypes>⟧.types }
    ensures unknown { UntoldIsUnknown ⟦<Told as ToldTypes>⟧.types }
    ensures since { ToldInTurn ⟦<Told as ToldTypes>⟧.types }
{}
