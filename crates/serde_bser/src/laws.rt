//! Laws of the format, over the trees of values and the parts of documents. Each is a function that
//! does nothing, and its contract is the law.

ghost use Rattle.bser_format.specs.GrammarLaws.{OneFront};
ghost use Rattle.serde_bser.specs.CompactLaws.{CompactIsMessage, CompactIsNoDeeper, CompactIsNoLonger, CompactIsTheFront, CompactIsWritable, CompactMeaningStays, CompactReadsAsItself, EqualCompactMessages, FoldedStandsForTheSame, LeastCompact, ShortCompactIsWritable};
ghost use Rattle.serde_bser.specs.Laws.{BodyBound, CanonicalIsMessage, CanonicalIsTheFront, DepthBound, EqualMessages, FoundIsWritten, HeldIsWritten, LeastLength, MeaningStays, NodesBound, ReadIsValueTree, ShortBodiesFit, SizeBoundsValue, StandsForItself, TwiceIsOnce, ValueIsReturned, ValueReadsAsItself, WrittenIsMessage, WrittenIsTheFront, WrittenOutIsOneTree, WrittenOutIsSpelled, WrittenOutReadsAlike};

/// A byte list begins with at most one message, of one tree and one number of capabilities.
pub fn one_front()
    ensures { OneFront }
{}

/// The canonical message of a value is a message, whatever follows it, and reads as that value.
/// This holds for values of at most as many levels as are read, whose message is at most `i64::MAX`
/// bytes.
pub fn reads_back()
    ensures message { CanonicalIsMessage }
    ensures front { CanonicalIsTheFront }
    ensures value { ValueReadsAsItself }
{}

/// Values whose bodies are at most `i64::MAX` bytes have equal canonical messages exactly where
/// they are equal.
pub fn equal_messages()
    ensures { EqualMessages }
{}

/// Writing what a canonical message reads as gives that message again.
pub fn twice_is_once()
    ensures { TwiceIsOnce }
{}

/// Whatever a message reads as is the tree of a value. It has no templates, its numbers are in
/// their ranges and its texts in UTF-8, and each object's keys come once, in rising order. So the
/// other laws apply to every value that was read.
pub fn read_values_are_value_trees()
    ensures { ReadIsValueTree }
{}

/// The canonical message of a tree without templates is a message, whatever follows it. It spells that
/// tree alone, and means to every type what the tree does. So it is for trees that can be written, of
/// at most as many levels as are read, whose message is at most `i64::MAX` bytes. So a value of any
/// type that reads its own tree as what it holds is read back from what was written for it. The
/// trees of values are among them.
pub fn round_trip()
    ensures message { WrittenIsMessage }
    ensures front { WrittenIsTheFront }
    ensures itself { StandsForItself }
    ensures meaning { MeaningStays }
    ensures values { ValueIsReturned }
{}

/// No message without templates that reads as a value is shorter than its canonical message. This
/// holds whatever sizes of integers, tags of strings, repeated keys and capabilities it has.
pub fn least_length()
    ensures { LeastLength }
{}

/// A body of `k` bytes reads as at most `2 * k` values. With `n` levels they are at most
/// `2 * n - 1` deep, and their canonical body has at most `k * k` bytes.
pub fn nodes_and_depth()
    ensures nodes { NodesBound }
    ensures depth { DepthBound }
    ensures body { BodyBound }
    ensures fits { ShortBodiesFit }
{}

/// A value has no more values, bytes of keys and levels than the message's tree, its templates
/// written out. So [`size_of`](crate::de::size_of) gives a bound of how large a `Value` will be,
/// before it is made.
pub fn size_bounds_value()
    ensures { SizeBoundsValue }
{}

/// A template's spelling, written out as an array of objects, spells one tree with one level more,
/// and every type reads both alike.
pub fn written_out()
    ensures spelled { WrittenOutIsSpelled }
    ensures one_tree { WrittenOutIsOneTree }
    ensures alike { WrittenOutReadsAlike }
{}

/// The compact tree of any tree means what the tree means, so every type reads both alike, and it
/// is no deeper. Where a value can be written its compact tree can, also where only the compact
/// body is at most `i64::MAX` bytes.
pub fn compact_tree()
    ensures same { FoldedStandsForTheSame }
    ensures depth { CompactIsNoDeeper }
    ensures writable { CompactIsWritable }
    ensures short { ShortCompactIsWritable }
{}

/// The compact message of a value is a message, whatever follows it. It reads as that value, and means
/// to every type what the value does. So it is for values of at most as many levels as are read, whose
/// compact message is at most `i64::MAX` bytes. The canonical message may be longer than that.
pub fn compact_reads_back()
    ensures message { CompactIsMessage }
    ensures front { CompactIsTheFront }
    ensures value { CompactReadsAsItself }
    ensures meaning { CompactMeaningStays }
{}

/// Values whose compact bodies are at most `i64::MAX` bytes have equal compact messages exactly where
/// they are equal.
pub fn equal_compact_messages()
    ensures { EqualCompactMessages }
{}

/// No message at all that reads as a value is shorter than its compact message. This holds whatever
/// limit, capabilities, templates, sizes of integers, tags of strings, repeated keys and skipped
/// fields it has. So the canonical message is no shorter either.
pub fn least_compact()
    ensures least { LeastCompact }
    ensures canonical { CompactIsNoLonger }
{}

/// What is found in a document is written and printed as what it is found as. The value that an
/// item holds, by whatever call it was found, is the item's own.
pub fn found_is_written()
    ensures held { HeldIsWritten }
    ensures found { FoundIsWritten }
{}
