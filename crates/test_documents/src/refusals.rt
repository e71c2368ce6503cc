//! Worked refusals, computed from the plain reader alone. Each function does nothing, and its
//! contract is what is computed.

ghost use Rattle.std.specs.Prelude.{◌≡◌, ◌∷◌, ◌^◌, ◌-◌, [], pos, map, replicate};
ghost use Rattle.bser_format.specs.Tree.{integer, object, template, no_rows, no_entries, entry};
ghost use Rattle.bser_format.specs.declared.errors.Complaint.TheVariants.{NegativeLength};
ghost use Rattle.bser_format.specs.declared.errors.Complaint.TheVariants.{NegativeCount};
ghost use Rattle.bser_format.specs.declared.errors.Complaint.TheVariants.{RowsWithoutKeys};
ghost use Rattle.bser_format.specs.declared.errors.Complaint.TheVariants.{CountTooGreat};
ghost use Rattle.bser_format.specs.declared.errors.Error.TheVariants.{DeInvalidStartByte};
ghost use Rattle.bser_format.specs.declared.errors.Error.TheVariants.{DeRecursionLimitExceeded};
ghost use Rattle.bser_format.specs.declared.errors.Error.TheVariants.{DeEof, DeInvalidMagic};
ghost use Rattle.bser_format.specs.declared.errors.Kind.TheVariants.{NextItem, Integer, MapKey};
ghost use Rattle.bser_format.specs.declared.errors.Kind.TheVariants.{TemplateKeys, TemplateKey};
ghost use Rattle.bser_format.specs.declared.errors.Kind.TheVariants.{Array, Object, Template};
ghost use Rattle.bser_format.specs.Named.{any, reads, refuses, eof, utf8_wanted, complain};
ghost use Rattle.test_documents.specs.Samples.{header, short_message, long_message};
ghost use Rattle.test_documents.specs.Samples.{empty_array, arrays_around};
ghost use Rattle.test_documents.specs.Templates.{no_keys, one_row, templates, people_message};
ghost use Rattle.test_documents.specs.Faults.{answer, answer_within, cuts, templates_out};

/// What is read.
pub fn what_is_read()
    ensures number { answer (short_message 0x02 (0x03 ∷ 0x05 ∷ 0xff ∷ []))
        ≡ reads (0, integer (pos 5)) (0xff ∷ []) }
    ensures no_rows { any 2 (0x0b ∷ 0x00 ∷ 0x03 ∷ 0x00 ∷ 0x03 ∷ 0x00 ∷ [])
        ≡ reads (template [] no_rows) [] }
    ensures key { any 1 (0x01 ∷ 0x03 ∷ 0x01 ∷ 0x02 ∷ 0x03 ∷ 0x01 ∷ 0xff ∷ 0x03 ∷ 0x05 ∷ [])
        ≡ reads (object (entry (0xff ∷ []) (integer (pos 5)) no_entries)) [] }
{}

/// Early ends, in each place of a message.
pub fn early_ends()
    ensures nothing { answer [] ≡ refuses eof }
    ensures magic { answer (0x01 ∷ []) ≡ refuses eof }
    ensures capabilities { answer (0x00 ∷ 0x02 ∷ 0x00 ∷ []) ≡ refuses eof }
    ensures len { answer header ≡ refuses eof }
    ensures body { answer (short_message 0x02 []) ≡ refuses eof }
    ensures number { answer (short_message 0x03 (0x04 ∷ 0x80 ∷ [])) ≡ refuses eof }
    ensures real { any 1 (0x07 ∷ 0x00 ∷ []) ≡ refuses eof }
    ensures string_len { any 1 (0x02 ∷ []) ≡ refuses eof }
    ensures string { any 1 (0x0d ∷ 0x03 ∷ 0x02 ∷ 0xff ∷ []) ≡ refuses eof }
    ensures count { any 1 (0x00 ∷ []) ≡ refuses eof }
    ensures items { any 1
        (0x00 ∷ 0x06 ∷ 0xff ∷ 0xff ∷ 0xff ∷ 0xff ∷ 0xff ∷ 0xff ∷ 0xff ∷ 0x7f ∷ 0x0a ∷ [])
        ≡ refuses eof }
    ensures entry { any 1 (0x01 ∷ 0x03 ∷ 0x01 ∷ 0x02 ∷ 0x03 ∷ 0x01 ∷ 0x61 ∷ []) ≡ refuses eof }
    ensures keys { any 2 (0x0b ∷ 0x00 ∷ 0x03 ∷ 0x01 ∷ []) ≡ refuses eof }
    ensures field { any 2 (one_row []) ≡ refuses eof }
{}

/// A message that breaks off after any of its bytes.
pub fn messages_that_break_off()
    ensures { map answer (cuts people_message) ≡ replicate 51 (refuses eof) }
{}

/// A length or a count of 2^62 where the message ends.
pub fn early_ends_under_great_numbers()
    ensures string { answer (short_message 0x0d (0x02 ∷ 0x06 ∷ 0x00 ∷ 0x00 ∷ 0x00 ∷ 0x00 ∷ 0x00 ∷
        0x00 ∷ 0x00 ∷ 0x40 ∷ 0x61 ∷ 0x62 ∷ 0x63 ∷ [])) ≡ refuses eof }
    ensures items { answer (short_message 0x0a
        (0x00 ∷ 0x06 ∷ 0x00 ∷ 0x00 ∷ 0x00 ∷ 0x00 ∷ 0x00 ∷ 0x00 ∷ 0x00 ∷ 0x40 ∷ [])) ≡ refuses eof }
    ensures keys { answer (short_message 0x0b
        (0x0b ∷ 0x00 ∷ 0x06 ∷ 0x00 ∷ 0x00 ∷ 0x00 ∷ 0x00 ∷ 0x00 ∷ 0x00 ∷ 0x00 ∷ 0x40 ∷ []))
        ≡ refuses eof }
    ensures rows { answer (short_message 0x10 (0x0b ∷ 0x00 ∷ 0x03 ∷ 0x01 ∷ 0x0d ∷ 0x03 ∷ 0x00 ∷
        0x06 ∷ 0x00 ∷ 0x00 ∷ 0x00 ∷ 0x00 ∷ 0x00 ∷ 0x00 ∷ 0x00 ∷ 0x40 ∷ [])) ≡ refuses eof }
{}

/// Negative lengths and counts.
pub fn negative_numbers()
    ensures message { answer (short_message 0xff (0x0a ∷ [])) ≡ refuses (complain NegativeLength) }
    ensures string { answer (short_message 0x03 (0x02 ∷ 0x03 ∷ 0xff ∷ []))
        ≡ refuses (complain NegativeLength) }
    ensures least_string { answer (short_message 0x0a
        (0x02 ∷ 0x06 ∷ 0x00 ∷ 0x00 ∷ 0x00 ∷ 0x00 ∷ 0x00 ∷ 0x00 ∷ 0x00 ∷ 0x80 ∷ []))
        ≡ refuses (complain NegativeLength) }
    ensures key { any 1 (0x01 ∷ 0x03 ∷ 0x01 ∷ 0x0d ∷ 0x04 ∷ 0x00 ∷ 0x80 ∷ [])
        ≡ refuses (complain NegativeLength) }
    ensures items { any 1 (0x00 ∷ 0x03 ∷ 0xff ∷ []) ≡ refuses (complain NegativeCount) }
    ensures items_of_a_message { answer (short_message 0x03 (0x00 ∷ 0x03 ∷ 0xff ∷ []))
        ≡ refuses (complain NegativeCount) }
    ensures entries { any 1 (0x01 ∷ 0x03 ∷ 0x80 ∷ []) ≡ refuses (complain NegativeCount) }
    ensures keys { any 2 (0x0b ∷ 0x00 ∷ 0x03 ∷ 0xff ∷ []) ≡ refuses (complain NegativeCount) }
    ensures rows { any 2 (0x0b ∷ 0x00 ∷ 0x03 ∷ 0x00 ∷ 0x03 ∷ 0xff ∷ [])
        ≡ refuses (complain NegativeCount) }
{}

/// Bytes that may not be where they are.
pub fn strays()
    ensures unknown { answer (short_message 0x01 (0x0e ∷ []))
        ≡ refuses (DeInvalidStartByte NextItem 0x0e) }
    ensures skip { answer (short_message 0x01 (0x0c ∷ []))
        ≡ refuses (DeInvalidStartByte NextItem 0x0c) }
    ensures item { any 2 (0x00 ∷ 0x03 ∷ 0x01 ∷ 0x0c ∷ [])
        ≡ refuses (DeInvalidStartByte NextItem 0x0c) }
    ensures field { any 2 (one_row (0x0e ∷ [])) ≡ refuses (DeInvalidStartByte NextItem 0x0e) }
    ensures len { any 1 (0x02 ∷ 0x0a ∷ []) ≡ refuses (DeInvalidStartByte Integer 0x0a) }
    ensures count { any 1 (0x00 ∷ 0x02 ∷ []) ≡ refuses (DeInvalidStartByte Integer 0x02) }
    ensures count_in_a_message { answer (short_message 0x02 (0x00 ∷ 0x0a ∷ []))
        ≡ refuses (DeInvalidStartByte Integer 0x0a) }
    ensures message { answer (0x00 ∷ 0x02 ∷ 0x00 ∷ 0x00 ∷ 0x00 ∷ 0x00 ∷ 0x0a ∷ [])
        ≡ refuses (DeInvalidStartByte Integer 0x0a) }
    ensures key { answer (short_message 0x06 (0x01 ∷ 0x03 ∷ 0x01 ∷ 0x03 ∷ 0x01 ∷ 0x0a ∷ []))
        ≡ refuses (DeInvalidStartByte MapKey 0x03) }
    ensures template_keys { answer (short_message 0x02 (0x0b ∷ 0x0a ∷ []))
        ≡ refuses (DeInvalidStartByte TemplateKeys 0x0a) }
    ensures template_key { any 2 (0x0b ∷ 0x00 ∷ 0x03 ∷ 0x01 ∷ 0x0a ∷ [])
        ≡ refuses (DeInvalidStartByte TemplateKey 0x0a) }
    ensures number_as_a_template_key { answer
        (short_message 0x06 (0x0b ∷ 0x00 ∷ 0x03 ∷ 0x01 ∷ 0x03 ∷ 0x01 ∷ []))
        ≡ refuses (DeInvalidStartByte TemplateKey 0x03) }
{}

/// Bytes that have to be UTF-8.
pub fn bytes_that_are_no_text()
    ensures text { any 1 (0x0d ∷ 0x03 ∷ 0x01 ∷ 0xff ∷ []) ≡ refuses utf8_wanted }
    ensures text_of_a_message { answer (short_message 0x04 (0x0d ∷ 0x03 ∷ 0x01 ∷ 0xff ∷ []))
        ≡ refuses utf8_wanted }
    ensures key { answer
        (short_message 0x08 (0x01 ∷ 0x03 ∷ 0x01 ∷ 0x02 ∷ 0x03 ∷ 0x01 ∷ 0xff ∷ 0x0a ∷ []))
        ≡ refuses utf8_wanted }
    ensures text_key { any 1 (0x01 ∷ 0x03 ∷ 0x01 ∷ 0x0d ∷ 0x03 ∷ 0x01 ∷ 0xff ∷ 0x0a ∷ [])
        ≡ refuses utf8_wanted }
    ensures template_key { any 2 (0x0b ∷ 0x00 ∷ 0x03 ∷ 0x01 ∷ 0x02 ∷ 0x03 ∷ 0x01 ∷ 0xff ∷ [])
        ≡ refuses utf8_wanted }
    ensures template_key_of_a_message { answer (short_message 0x0a
        (0x0b ∷ 0x00 ∷ 0x03 ∷ 0x01 ∷ 0x02 ∷ 0x03 ∷ 0x01 ∷ 0xff ∷ 0x03 ∷ 0x00 ∷ []))
        ≡ refuses utf8_wanted }
{}

/// Rows without keys.
pub fn rows_without_keys()
    ensures one { answer (short_message 0x06 (0x0b ∷ 0x00 ∷ 0x03 ∷ 0x00 ∷ 0x03 ∷ 0x01 ∷ []))
        ≡ refuses (complain RowsWithoutKeys) }
    ensures many { any 2 (0x0b ∷ 0x00 ∷ 0x03 ∷ 0x00 ∷ 0x06 ∷ 0x00 ∷ 0x00 ∷ 0x00 ∷ 0x00 ∷ 0x00 ∷
        0x00 ∷ 0x00 ∷ 0x40 ∷ []) ≡ refuses (complain RowsWithoutKeys) }
    ensures many_in_a_message { answer (short_message 0x0d (0x0b ∷ 0x00 ∷ 0x03 ∷ 0x00 ∷ 0x06 ∷
        0x00 ∷ 0x00 ∷ 0x00 ∷ 0x00 ∷ 0x00 ∷ 0x00 ∷ 0x00 ∷ 0x40 ∷ []))
        ≡ refuses (complain RowsWithoutKeys) }
{}

/// A level too many. The list of a template's keys is a level, and is looked at before it is taken.
pub fn a_level_too_many()
    ensures array { answer_within 3 (short_message 0x0c (arrays_around 3 empty_array))
        ≡ refuses (DeRecursionLimitExceeded Array) }
    ensures object { any 3 (arrays_around 3 (0x01 ∷ []))
        ≡ refuses (DeRecursionLimitExceeded Object) }
    ensures template { any 3 (arrays_around 3 (0x0b ∷ []))
        ≡ refuses (DeRecursionLimitExceeded Template) }
    ensures keys { any 3 (arrays_around 2 (0x0b ∷ 0x00 ∷ []))
        ≡ refuses (DeRecursionLimitExceeded Array) }
    ensures no_keys { any 3 (arrays_around 2 (0x0b ∷ 0x0a ∷ []))
        ≡ refuses (DeInvalidStartByte TemplateKeys 0x0a) }
    ensures deepest { any 128 (arrays_around 128 empty_array)
        ≡ refuses (DeRecursionLimitExceeded Array) }
{}

/// Messages that nest one level deeper than 128, and than another limit.
pub fn messages_a_level_too_deep()
    ensures arrays { answer (long_message 0x83 0x01 (arrays_around 128 empty_array))
        ≡ refuses (DeRecursionLimitExceeded Array) }
    ensures keys { answer (long_message 0x83 0x01 (arrays_around 127 no_keys))
        ≡ refuses (DeRecursionLimitExceeded Array) }
    ensures template { answer (long_message 0x86 0x01 (arrays_around 128 no_keys))
        ≡ refuses (DeRecursionLimitExceeded Template) }
    ensures written_out { answer (long_message 0xf9 0x04 (templates_out 127))
        ≡ refuses (DeRecursionLimitExceeded Array) }
    ensures no_level { answer_within 0 (short_message 0x03 empty_array)
        ≡ refuses (DeRecursionLimitExceeded Array) }
    ensures one_level { answer_within 1 (short_message 0x06 no_keys)
        ≡ refuses (DeRecursionLimitExceeded Array) }
    ensures two_levels { answer_within 2 (short_message 0x17 (templates 2))
        ≡ refuses (DeRecursionLimitExceeded Array) }
    ensures most_levels { answer_within 1024
        (long_message 0x03 0x0c (arrays_around 1024 empty_array))
        ≡ refuses (DeRecursionLimitExceeded Array) }
{}

/// What frames a value.
pub fn frames()
    ensures magic { answer (0x00 ∷ 0x01 ∷ 0x03 ∷ 0x01 ∷ 0x0a ∷ [])
        ≡ refuses (DeInvalidMagic (0x00 ∷ 0x01 ∷ [])) }
    ensures long { answer (short_message 0x02 (0x0a ∷ [])) ≡ refuses (DeEof 10 9) }
    ensures short { answer (short_message 0x00 (0x0a ∷ [])) ≡ refuses (DeEof 8 9) }
    ensures followed { answer (short_message 0x00 (0x0a ∷ short_message 0x01 (0x0a ∷ [])))
        ≡ refuses (DeEof 8 9) }
    ensures great { answer (0x00 ∷ 0x02 ∷ 0x00 ∷ 0x00 ∷ 0x00 ∷ 0x00 ∷ 0x06 ∷ 0xff ∷ 0xff ∷ 0xff ∷
        0xff ∷ 0xff ∷ 0xff ∷ 0xff ∷ 0x7f ∷ 0x0a ∷ []) ≡ refuses (complain CountTooGreat) }
    ensures greatest { answer (0x00 ∷ 0x02 ∷ 0x00 ∷ 0x00 ∷ 0x00 ∷ 0x00 ∷ 0x06 ∷ 0xf0 ∷ 0xff ∷
        0xff ∷ 0xff ∷ 0xff ∷ 0xff ∷ 0xff ∷ 0x7f ∷ 0x0a ∷ []) ≡ refuses (DeEof (2 ^ 63 - 1) 16) }
{}

/// Of two faults the one that is read first is answered.
pub fn first_faults()
    ensures fault_then_length { answer (short_message 0x00 (0x0e ∷ []))
        ≡ refuses (DeInvalidStartByte NextItem 0x0e) }
    ensures items_in_order { any 1
        (0x00 ∷ 0x03 ∷ 0x03 ∷ 0x0a ∷ 0x0d ∷ 0x03 ∷ 0x01 ∷ 0xff ∷ 0x0e ∷ []) ≡ refuses utf8_wanted }
    ensures end_before_utf8 { any 1 (0x0d ∷ 0x03 ∷ 0x02 ∷ 0xff ∷ []) ≡ refuses eof }
    ensures level_before_count { any 0 (0x00 ∷ 0x03 ∷ 0xff ∷ [])
        ≡ refuses (DeRecursionLimitExceeded Array) }
{}
