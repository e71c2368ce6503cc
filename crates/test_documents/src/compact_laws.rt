//! An instance of each law of the compact form, so that no law speaks of nothing: its premises hold of
//! these messages, and the numbers are as computed. Each function does nothing, and its contract is
//! the instance.

ghost use Rattle.std.specs.Prelude.{◌≡◌, ◌≢◌, length};
ghost use Rattle.bser_format.specs.Canonical.{canonical_message};
ghost use Rattle.bser_format.specs.Compact.{fold_templates, compact_message};
ghost use Rattle.bser_format.specs.Expand.{expand};
ghost use Rattle.bser_format.specs.Measures.{depth};
ghost use Rattle.test_documents.specs.Reading.{HasSize, IsRead, IsValueOf};
ghost use Rattle.test_documents.specs.Recorded.{file_value};
ghost use Rattle.test_documents.specs.Templates.{people, people_message, people_value};

/// The compact tree of two objects means them, and is as deep.
pub fn compact_tree()
    ensures same { expand (fold_templates people_value) ≡ expand people_value }
    ensures value_depth { depth people_value ≡ 2 }
    ensures compact_depth { depth (fold_templates people_value) ≡ 2 }
{}

/// A compact message of 48 bytes that is read back within 128 levels, and within as many as the value
/// is deep.
pub fn compact_reads_back()
    ensures size { length (compact_message people_value) ≡ 48 }
    ensures read { IsRead 128 (compact_message people_value) (fold_templates people_value) }
    ensures levels { IsRead 2 (compact_message people_value) (fold_templates people_value) }
    ensures value { IsValueOf (fold_templates people_value) people_value }
{}

/// Two values whose compact messages differ.
pub fn equal_compact_messages()
    ensures people { IsValueOf people people_value }
    ensures size { HasSize people_value 9 2 61 }
    ensures different { compact_message people_value ≢ compact_message file_value }
{}

/// A message of 51 bytes with a template and a skip, which is longer than the compact message of the
/// value that it reads as, and shorter than the canonical one.
pub fn least_compact()
    ensures read { IsRead 128 people_message people }
    ensures value { IsValueOf people people_value }
    ensures given { length people_message ≡ 51 }
    ensures compact { length (compact_message people_value) ≡ 48 }
    ensures canonical { length (canonical_message people_value) ≡ 69 }
{}
