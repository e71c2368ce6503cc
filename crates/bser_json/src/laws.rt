//! The laws of JSON. Each is a function that does nothing, and its contract is the law.

ghost use Rattle.bser_json.specs.Alike.{StringsAlike};
ghost use Rattle.bser_json.specs.Retagged.{PrintedIsMade};

/// What is printed of a value is read as that value, but for the tags of its texts: for values of at
/// most as many levels as are read. What a message reads as is such a value.
pub fn reads_back()
    ensures { PrintedIsMade }
{}

/// Strings and keys stand in a JSON text as `{}` of a `Value` prints them, with the same escapes.
pub fn strings_alike()
    ensures { StringsAlike }
{}
