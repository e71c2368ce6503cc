//! Laws of the grammar. Each is a function that does nothing, and its contract is the law.

ghost use Rattle.bser_format.specs.Content.{Content};
ghost use Rattle.bser_format.specs.Tree.{Tree};
ghost use Rattle.bser_format.specs.GrammarLaws.{KeysRise, LastValuesStay, NoOtherKeys};
ghost use Rattle.bser_format.specs.GrammarLaws.{CanonicalBodyIsSpelled, LeastIntegerIsLeast};
ghost use Rattle.bser_format.specs.GrammarLaws.{LeastIntegerIsSpelled, MessageReadingIsExact};
ghost use Rattle.bser_format.specs.GrammarLaws.{MoreLevels, OneFront, OneInteger, OneValue};
ghost use Rattle.bser_format.specs.GrammarLaws.{ReadingIsExact};

/// No integer's bytes begin another's.
pub fn one_integer()
    ensures { OneInteger }
{}

/// The least bytes of an integer spell it, and no shorter ones do.
pub fn least_integer()
    ensures spelled { LeastIntegerIsSpelled }
    ensures least { LeastIntegerIsLeast }
{}

/// No value's bytes begin another's.
pub fn one_value()
    ensures { OneValue }
{}

/// What is spelled with some levels left is spelled with more.
pub fn more_levels()
    ensures { MoreLevels }
{}

/// The canonical body of a tree spells it.
pub fn canonical_body_is_spelled()
    ensures { CanonicalBodyIsSpelled }
{}

/// A byte list begins with one message at most, of one tree and one number of capabilities.
pub fn one_front()
    ensures { OneFront }
{}

/// The plain reader of values gives exactly what a prefix of the bytes spells.
pub fn reading_is_exact()
    ensures { ReadingIsExact }
{}

/// The plain reader of messages gives exactly what the message at the start of the bytes says.
pub fn message_reading_is_exact()
    ensures { MessageReadingIsExact }
{}

/// Of entries with equal keys the last one stays, and the keys rise: for the entries of trees and
/// for those of what types read.
pub fn last_entries_stay()
    ensures values { LastValuesStay Tree }
    ensures order { KeysRise Tree }
    ensures no_others { NoOtherKeys Tree }
    ensures content_values { LastValuesStay Content }
    ensures content_order { KeysRise Content }
    ensures content_no_others { NoOtherKeys Content }
{}
