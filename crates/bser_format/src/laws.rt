//! Laws of the plain reader with names. Each is a function that does nothing, and its contract is
//! the law.

ghost use Rattle.bser_format.specs.NamedLaws.{ReadsMessages, ReadsWhatIsSpelled};
ghost use Rattle.bser_format.specs.NamedLaws.{RefusesTheRest, ReadsTextKeys, RefusesOtherKeys};
ghost use Rattle.bser_format.specs.NamedLaws.{ReadsTextKeyMessages, RefusesOtherMessages};
ghost use Rattle.bser_format.specs.TypeLaws.{PassesTruths, PassesReals, PassesUnits, PassesIntegers};
ghost use Rattle.bser_format.specs.TypeLaws.{PassesBytes, PassesStrings, PassesChars};
ghost use Rattle.bser_format.specs.TypeLaws.{PassesOptions, PassesByteStrings, PassesVecs};
ghost use Rattle.bser_format.specs.TypeLaws.{PassesTuples, PassesMaps, PassesEnums};
ghost use Rattle.bser_format.specs.TypeLaws.{PassesValues, PassesIgnored, PassesMessages};
ghost use Rattle.bser_format.specs.Structs.{PassesStructs, PassesRequired, PassesOptional};

/// The plain reader with names reads exactly what the front of the bytes spells, and names a
/// refusal of all else.
pub fn names_are_exact()
    ensures read { ReadsWhatIsSpelled }
    ensures refused { RefusesTheRest }
    ensures messages { ReadsMessages }
{}

/// The reader of `Value`, and of what is skipped, reads exactly what the front of the bytes spells
/// with all keys of objects in UTF-8, and so in a message. It refuses all else.
pub fn text_keys_are_exact()
    ensures read { ReadsTextKeys }
    ensures refused { RefusesOtherKeys }
    ensures messages { ReadsTextKeyMessages }
    ensures messages_refused { RefusesOtherMessages }
{}

/// What a type of integers reads, where anything is due, reading it passes over.
pub fn integers_are_passed()
    ensures { PassesIntegers }
{}

/// What a type without parts reads, where anything is due, reading it passes over.
pub fn scalars_are_passed()
    ensures truths { PassesTruths }
    ensures reals { PassesReals }
    ensures units { PassesUnits }
    ensures bytes { PassesBytes }
    ensures strings { PassesStrings }
    ensures chars { PassesChars }
{}

/// What a type that holds others reads, where anything is due, reading it passes over.
pub fn holders_are_passed()
    ensures options { PassesOptions }
    ensures byte_strings { PassesByteStrings }
    ensures vecs { PassesVecs }
    ensures tuples { PassesTuples }
    ensures maps { PassesMaps }
    ensures enums { PassesEnums }
{}

/// A `Value` and what is ignored, where anything is due, reading it passes over.
pub fn values_are_passed()
    ensures values { PassesValues }
    ensures ignored { PassesIgnored }
{}

/// What a struct reads, where anything is due, reading it passes over: by fields that have to be
/// there, and by fields that may be absent.
pub fn structs_are_passed()
    ensures structs { PassesStructs }
    ensures required { PassesRequired }
    ensures optional { PassesOptional }
{}

/// A message whose value a type reads, the reader of such a type passes over as a whole.
pub fn messages_are_passed()
    ensures { PassesMessages }
{}
