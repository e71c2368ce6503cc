//! Worked messages, computed from the definitions of the format alone. Each function does nothing,
//! and its contract is what is computed.

ghost use Rattle.std.specs.Prelude.{codes, ◌≡◌, ◌++◌, ◌∷◌, ◌-◌, ◌^◌, pos, negsuc, Some, None, option_map, [], length, replicate};
ghost use Rattle.bser_format.specs.Tree.{Tree, null, integer, bytes, array, object, template, no_items, item, no_rows, no_entries, entry};
ghost use Rattle.bser_format.specs.Canonical.{canonical_message, canonical_body};
ghost use Rattle.bser_format.specs.Measures.{depth, nodes};
ghost use Rattle.bser_format.specs.Expand.{expand};
ghost use Rattle.bser_format.specs.Normal.{normal};
ghost use Rattle.bser_format.specs.Compact.{compact_body};
ghost use Rattle.bser_format.specs.Plain.{message};
ghost use Rattle.bser_format.specs.Content.{number, byte_list, list, pair, variant, content, no_contents};
ghost use Rattle.bser_format.specs.Content as contents;
ghost use Rattle.bser_format.specs.ReadsScalars.{reads_signed, reads_unit, reads_byte_string};
ghost use Rattle.bser_format.specs.ReadsHolders.{reads_vec, reads_map, reads_tuple};
ghost use Rattle.bser_format.specs.ReadsAny.{reads_ignored};
ghost use Rattle.bser_format.specs.Enums.{reads_enum, unit};
ghost use Rattle.test_documents.specs.Reading.{IsRead, HasNoMessage, IsWritten};
ghost use Rattle.test_documents.specs.Samples.{short_message, long_message, key_a, key_b, one, two, nulls, single, double, both, same_key_twice, three_numbers, numbers, odd_key, empty_array, arrays_around, nest};
ghost use Rattle.test_documents.specs.Templates.{no_keys, rows_without_keys, many_rows_without_keys, repeated_key, repeated, people_message, people, people_value, templates, nested_templates, hundred_nulls, hundred_rows, hundred_objects, unit_row, unit_rows};

/// The message of null has nine bytes, and what follows it is left.
pub fn null_in_nine_bytes()
    ensures written { IsWritten null (short_message 0x01 (0x0a ∷ [])) }
    ensures short { length (canonical_message null) ≡ 9 }
    ensures followed { message 128 (short_message 0x01 (0x0a ∷ 0xff ∷ [])) ≡ Some
        ((0, null), 0xff ∷ []) }
{}

/// Integers are written in the least size: 128, -129, -128 and the least of 64 bits.
pub fn integers_in_the_least_size()
    ensures two_bytes { IsWritten (integer (pos 128))
        (short_message 0x03 (0x04 ∷ 0x80 ∷ 0x00 ∷ [])) }
    ensures negative { IsWritten (integer (negsuc 128))
        (short_message 0x03 (0x04 ∷ 0x7f ∷ 0xff ∷ [])) }
    ensures one_byte { IsWritten (integer (negsuc 127)) (short_message 0x02 (0x03 ∷ 0x80 ∷ [])) }
    ensures eight_bytes { IsWritten (integer (negsuc (2 ^ 63 - 1)))
        (short_message 0x09 (0x06 ∷ 0x00 ∷ 0x00 ∷ 0x00 ∷ 0x00 ∷ 0x00 ∷ 0x00 ∷ 0x00 ∷ 0x80 ∷ [])) }
{}

/// An integer in eight bytes is read, and written in the least size.
pub fn a_wide_integer()
    ensures read { IsRead 128 (short_message 0x09
        (0x06 ∷ 0x05 ∷ 0x00 ∷ 0x00 ∷ 0x00 ∷ 0x00 ∷ 0x00 ∷ 0x00 ∷ 0x00 ∷ [])) (integer (pos 5)) }
    ensures number { reads_signed 64 (expand (integer (pos 5))) ≡ Some (number (pos 5)) }
    ensures written { IsWritten (integer (pos 5)) (short_message 0x02 (0x03 ∷ 0x05 ∷ [])) }
{}

/// Byte strings of 4, 124 and 125 bytes: the last message announces its length in two bytes.
pub fn byte_strings()
    ensures four { IsWritten (bytes (0x01 ∷ 0x02 ∷ 0x03 ∷ 0x04 ∷ []))
        (short_message 0x07 (0x02 ∷ 0x03 ∷ 0x04 ∷ 0x01 ∷ 0x02 ∷ 0x03 ∷ 0x04 ∷ [])) }
    ensures one_byte { IsWritten (bytes (replicate 124 0x00))
        (short_message 0x7f (0x02 ∷ 0x03 ∷ 0x7c ∷ replicate 124 0x00)) }
    ensures one_byte_len { length (canonical_message (bytes (replicate 124 0x00))) ≡ 135 }
    ensures two_bytes { IsWritten (bytes (replicate 125 0x00))
        (long_message 0x80 0x00 (0x02 ∷ 0x03 ∷ 0x7d ∷ replicate 125 0x00)) }
    ensures two_bytes_len { length (canonical_message (bytes (replicate 125 0x00))) ≡ 137 }
{}

/// Arrays of 127 and of 128 nulls, written.
pub fn arrays_of_nulls()
    ensures body { length (canonical_body (nulls 127)) ≡ 130 }
    ensures message { length (canonical_message (nulls 127)) ≡ 139 }
    ensures longer_body { length (canonical_body (nulls 128)) ≡ 132 }
    ensures longer_message { length (canonical_message (nulls 128)) ≡ 141 }
{}

/// A value's keys are written in rising order.
pub fn keys_are_written_in_order()
    ensures value { normal (double key_b one key_a two) ≡ Some (double key_a two key_b one) }
    ensures written { IsWritten (double key_a two key_b one)
        (short_message 0x0f (0x01 ∷ 0x03 ∷ 0x02 ∷ 0x0d ∷ 0x03 ∷ 0x01 ∷ 0x61 ∷ 0x03 ∷ 0x02 ∷ 0x0d ∷
        0x03 ∷ 0x01 ∷ 0x62 ∷ 0x03 ∷ 0x01 ∷ [])) }
{}

/// Of equal keys the last value stays.
pub fn the_last_of_equal_keys()
    ensures read { IsRead 128 (short_message 0x0f same_key_twice) (double key_a one key_a two) }
    ensures value { normal (double key_a one key_a two) ≡ Some (single key_a two) }
    ensures written { IsWritten (single key_a two)
        (short_message 0x09 (0x01 ∷ 0x03 ∷ 0x01 ∷ 0x0d ∷ 0x03 ∷ 0x01 ∷ 0x61 ∷ 0x03 ∷ 0x02 ∷ [])) }
{}

/// A key that is no UTF-8 is a map's key where byte strings are the keys, and no key of a value or
/// of what is ignored. A key that is no string is refused.
pub fn keys_that_are_no_text()
    ensures written { IsWritten (single (0xff ∷ []) null) (short_message 0x08 odd_key) }
    ensures no_value { normal (single (0xff ∷ []) null) ≡ None }
    ensures not_ignored { reads_ignored (single (0xff ∷ []) null) ≡ None }
    ensures map { reads_map reads_byte_string reads_unit (single (0xff ∷ []) null) ≡ Some
        (list (content (pair (byte_list (0xff ∷ [])) contents.one) no_contents)) }
    ensures refused { HasNoMessage 128 (short_message 0x06
        (0x01 ∷ 0x03 ∷ 0x01 ∷ 0x03 ∷ 0x01 ∷ 0x0a ∷ [])) }
{}

/// An array of three numbers is a tuple of three, and none of two or of four.
pub fn three_numbers_as_a_tuple()
    ensures read { IsRead 128 (short_message 0x09 three_numbers) numbers }
    ensures two { reads_tuple (replicate 2 (reads_signed 64)) numbers ≡ None }
    ensures three { reads_tuple (replicate 3 (reads_signed 64)) numbers ≡ Some
        (list (content (number (pos 1)) (content (number (pos 2))
        (content (number (pos 3)) no_contents)))) }
    ensures four { reads_tuple (replicate 4 (reads_signed 64)) numbers ≡ None }
{}

/// The deepest arrays that are read: 127 around an empty one.
pub fn deepest_arrays()
    ensures long { length (arrays_around 127 empty_array) ≡ 384 }
    ensures read { IsRead 128 (long_message 0x80 0x01 (arrays_around 127 empty_array))
        (nest 127 (array no_items)) }
    ensures refused { HasNoMessage 128 (long_message 0x83 0x01 (arrays_around 128 empty_array)) }
{}

/// A template of two rows, with a field skipped, which is null in the value.
pub fn a_template_with_a_skip()
    ensures read { IsRead 128 (people_message) people }
    ensures value { normal (expand people) ≡ Some people_value }
    ensures body { length (canonical_body people_value) ≡ 61 }
    ensures message { length (canonical_message people_value) ≡ 69 }
    ensures compact { length (compact_body people_value) ≡ 40 }
{}

/// A template without keys is the empty array, and a template needs an array of keys.
pub fn a_template_without_keys()
    ensures read { IsRead 128 (short_message 0x06 no_keys) (template [] no_rows) }
    ensures expanded { expand (template [] no_rows) ≡ array no_items }
    ensures refused { HasNoMessage 128 (short_message 0x02 (0x0b ∷ 0x0a ∷ [])) }
{}

/// A template without keys has no rows.
pub fn rows_without_keys_are_refused()
    ensures one { HasNoMessage 128 (short_message 0x06 rows_without_keys) }
    ensures many { HasNoMessage 128 (short_message 0x0d many_rows_without_keys) }
{}

/// Of equal keys of a template the last field stays.
pub fn the_last_of_equal_template_keys()
    ensures read { IsRead 128 (short_message 0x12 repeated_key) repeated }
    ensures value { normal (expand repeated) ≡ Some (array (item (single key_a two) no_items)) }
{}

/// The deepest template without keys is read inside 126 arrays: its array of keys takes a level.
pub fn the_deepest_template_without_keys()
    ensures read { IsRead 128 (long_message 0x80 0x01 (arrays_around 126 no_keys))
        (nest 126 (template [] no_rows)) }
    ensures keys_too_deep { HasNoMessage 128 (long_message 0x83 0x01 (arrays_around 127 no_keys)) }
    ensures too_deep { HasNoMessage 128 (long_message 0x86 0x01 (arrays_around 128 no_keys)) }
{}

/// The deepest templates that are read: 127 around an empty array. Their value is 255 deep, and
/// what is written for it is not read.
pub fn deepest_templates()
    ensures read { IsRead 128 (long_message 0xf9 0x04 (templates 127)) (nested_templates 127) }
    ensures deep { depth (expand (nested_templates 127)) ≡ 255 }
    ensures value { normal (expand (nested_templates 127)) ≡ Some (expand (nested_templates 127)) }
    ensures written { length (canonical_body (expand (nested_templates 127))) ≡ 1273 }
    ensures refused { HasNoMessage 128 (canonical_message (expand (nested_templates 127))) }
{}

/// A template without keys needs two levels.
pub fn two_levels_for_a_template()
    ensures refused { HasNoMessage 1 (short_message 0x06 no_keys) }
    ensures read { IsRead 2 (short_message 0x06 no_keys) (template [] no_rows) }
{}

/// Two templates around an empty array need three levels, and their value is five deep.
pub fn three_levels_for_two_templates()
    ensures read { IsRead 3 (short_message 0x17 (templates 2)) (nested_templates 2) }
    ensures deep { depth (expand (nested_templates 2)) ≡ 5 }
    ensures refused { HasNoMessage 2 (short_message 0x17 (templates 2)) }
{}

/// A hundred rows of one null are 201 values, 803 bytes when they are written out, and the same
/// bytes again when they are written compactly.
pub fn a_hundred_rows()
    ensures read { IsRead 128 (short_message 0x6e hundred_nulls) hundred_rows }
    ensures value { normal (expand hundred_rows) ≡ Some hundred_objects }
    ensures values { nodes hundred_objects ≡ 201 }
    ensures body { length (canonical_body hundred_objects) ≡ 803 }
    ensures message { length (canonical_message hundred_objects) ≡ 812 }
    ensures compact { compact_body hundred_objects ≡ hundred_nulls }
{}

/// A row of one field is an enum's object, and the skipped field is its null payload.
pub fn a_row_as_a_variant()
    ensures read { IsRead 128 (short_message 0x12 unit_row) unit_rows }
    ensures variants { reads_vec (reads_enum ((codes "TestUnit", unit) ∷ [])) (expand unit_rows)
        ≡ Some (list (content (variant 0 contents.one) no_contents)) }
{}

/// Two objects of one list of keys are written compactly as a template.
pub fn two_objects_as_a_template()
    ensures { compact_body (both (single key_a one) (single key_a two))
        ≡ 0x0b ∷ 0x00 ∷ 0x03 ∷ 0x01 ∷ 0x0d ∷ 0x03 ∷ 0x01 ∷ 0x61 ∷ 0x03 ∷ 0x02 ∷ 0x03 ∷ 0x01 ∷ 0x03 ∷
        0x02 ∷ [] }
{}

/// One object, objects without keys and objects of different keys are written as they are.
pub fn objects_that_make_no_template()
    ensures one { compact_body (array (item (single key_a one) no_items))
        ≡ 0x00 ∷ 0x03 ∷ 0x01 ∷ 0x01 ∷ 0x03 ∷ 0x01 ∷ 0x0d ∷ 0x03 ∷ 0x01 ∷ 0x61 ∷ 0x03 ∷ 0x01 ∷ [] }
    ensures no_keys { compact_body (both (object no_entries) (object no_entries))
        ≡ 0x00 ∷ 0x03 ∷ 0x02 ∷ 0x01 ∷ 0x03 ∷ 0x00 ∷ 0x01 ∷ 0x03 ∷ 0x00 ∷ [] }
    ensures different { compact_body (both (single key_a null) (single key_b null))
        ≡ 0x00 ∷ 0x03 ∷ 0x02 ∷ 0x01 ∷ 0x03 ∷ 0x01 ∷ 0x0d ∷ 0x03 ∷ 0x01 ∷ 0x61 ∷ 0x0a ∷ 0x01 ∷ 0x03 ∷
        0x01 ∷ 0x0d ∷ 0x03 ∷ 0x01 ∷ 0x62 ∷ 0x0a ∷ [] }
{}
