//! An instance of each law of the format, so that no law speaks of nothing: its premises hold of these
//! messages, and the numbers are as computed. Each function does nothing, and its contract is the
//! instance.

ghost use Rattle.std.specs.Prelude.{◌≡◌, ◌≢◌, ◌++◌, ◌∷◌, ◌≤◌, ◌<◌, ◌^◌, Some, [], length, take, replicate, pos};
ghost use Rattle.bser_format.specs.Tree.{null, array, no_items, template, integer, no_rows};
ghost use Rattle.bser_format.specs.Grammar.{Spells};
ghost use Rattle.bser_format.specs.Canonical.{canonical_message, IsWritable};
ghost use Rattle.bser_format.specs.Measures.{depth};
ghost use Rattle.bser_format.specs.Expand.{expand, IsTemplateFree};
ghost use Rattle.bser_format.specs.Plain.{message};
ghost use Rattle.bser_format.specs.Content.{byte_list, list, pair, number, content, no_contents};
ghost use Rattle.bser_format.specs.Content as contents;
ghost use Rattle.bser_format.specs.ReadsScalars.{reads_signed, reads_unit, reads_byte_string};
ghost use Rattle.bser_format.specs.ReadsHolders.{reads_map, reads_tuple};
ghost use Rattle.bser_format.specs.WrittenOut.{written_out as bytes_written_out, row_objects};
ghost use Rattle.test_documents.specs.Reading.{HasSize, IsBody, IsRead, IsReadBack, HasNoMessage, IsValueOf};
ghost use Rattle.test_documents.specs.Samples.{short_message, empty_array, key_a, one, two, single, double, same_key_twice, numbers, three_numbers};
ghost use Rattle.test_documents.specs.Templates.{no_keys, people_body, people_message, people, people_keys, people_rows, people_value, templates, nested_templates, hundred_nulls, hundred_rows, hundred_objects};
ghost use Rattle.test_documents.specs.Spelled.{long_key_body, long_key_rows, long_key_objects, people_out, people_out_message};
ghost use Rattle.test_documents.specs.Recorded.{watch_list, watched, file_query, file_answer, file_value};

/// One front: a recorded message is a message, followed by itself it is the front, and a byte less is
/// none.
pub fn one_front()
    ensures recorded { IsRead 128 watch_list watched }
    ensures followed { message 128 (watch_list ++ watch_list) ≡ Some ((0, watched), watch_list) }
    ensures cut { HasNoMessage 128 (take 39 watch_list) }
    ensures template { IsRead 128 people_message people }
    ensures template_followed { message 128 (people_message ++ watch_list) ≡ Some
        ((0, people), watch_list) }
{}

/// Messages that are read back: of 69 and 128 bytes within 128 levels, and of 1282 bytes within 255.
pub fn reads_back()
    ensures small { IsReadBack 128 people_value 69 }
    ensures recorded { IsReadBack 128 file_value 128 }
    ensures deep { IsReadBack 255 (expand (nested_templates 127)) 1282 }
{}

/// Two values of bodies that fit, whose messages differ, and one value that two messages read as.
pub fn equal_messages()
    ensures template { IsValueOf people people_value }
    ensures written_out { IsValueOf (row_objects people_keys people_rows) people_value }
    ensures recorded { IsValueOf file_answer file_value }
    ensures people_size { HasSize people_value 9 2 61 }
    ensures recorded_size { HasSize file_value 8 3 120 }
    ensures different { canonical_message people_value ≢ canonical_message file_value }
{}

/// A recorded answer and a message that is a template, the values that they read as, and those
/// values' messages, which are read as them again.
pub fn twice_is_once()
    ensures recorded { IsRead 128 file_query file_answer }
    ensures value { IsValueOf file_answer file_value }
    ensures again { IsReadBack 128 file_value 128 }
    ensures followed { message 128 (canonical_message file_value ++ watch_list) ≡ Some
        ((0, file_value), watch_list) }
    ensures template { IsRead 128 people_message people }
    ensures template_value { IsValueOf people people_value }
    ensures template_again { IsReadBack 128 people_value 69 }
{}

/// Messages without templates that are as long as their canonical messages, 40 bytes, and longer: 72
/// bytes for 69, and 23 for 17 where a key occurs twice. A template's message may be shorter.
pub fn least_length()
    ensures recorded { IsRead 128 watch_list watched }
    ensures recorded_free { IsTemplateFree watched }
    ensures recorded_least { IsReadBack 128 watched 40 }
    ensures wide { IsRead 128 people_out_message (row_objects people_keys people_rows) }
    ensures wide_free { IsTemplateFree (row_objects people_keys people_rows) }
    ensures wide_value { IsValueOf (row_objects people_keys people_rows) people_value }
    ensures wide_len { length people_out_message ≡ 72 }
    ensures wide_least { IsReadBack 128 people_value 69 }
    ensures twice { IsRead 128 (short_message 0x0f same_key_twice) (double key_a one key_a two) }
    ensures twice_free { IsTemplateFree (double key_a one key_a two) }
    ensures twice_value { IsValueOf (double key_a one key_a two) (single key_a two) }
    ensures twice_len { length (short_message 0x0f same_key_twice) ≡ 23 }
    ensures twice_least { IsReadBack 128 (single key_a two) 17 }
    ensures template_len { length people_message ≡ 51 }
{}

/// Bodies that are templates, and the values, levels and bytes of what they read as: a body of 40
/// bytes; 127 templates, whose value is as deep as 128 levels allow; a hundred rows, which have more
/// values than the body has bytes; and a hundred rows whose key has a hundred bytes.
pub fn nodes_and_depth()
    ensures people { IsBody 2 people_body people }
    ensures people_value { IsValueOf people people_value }
    ensures people_len { length people_body ≡ 40 }
    ensures people_size { HasSize people_value 9 2 61 }
    ensures deep { IsBody 128 (templates 127) (nested_templates 127) }
    ensures deep_value { IsValueOf (nested_templates 127) (expand (nested_templates 127)) }
    ensures deep_len { length (templates 127) ≡ 1273 }
    ensures deep_size { HasSize (expand (nested_templates 127)) 255 255 1273 }
    ensures rows { IsBody 2 hundred_nulls hundred_rows }
    ensures rows_value { IsValueOf hundred_rows hundred_objects }
    ensures rows_len { length hundred_nulls ≡ 110 }
    ensures rows_size { HasSize hundred_objects 201 2 803 }
    ensures long_key { IsBody 2 long_key_body long_key_rows }
    ensures long_key_value { IsValueOf long_key_rows long_key_objects }
    ensures long_key_len { length long_key_body ≡ 209 }
    ensures long_key_size { HasSize long_key_objects 201 2 10703 }
{}

/// A template of 40 bytes is 61 bytes written out, with one level more, and one without keys is the
/// empty array. Both trees expand to one.
pub fn written_out()
    ensures people { (h : Spells 2 people people_body) ×
        (bytes_written_out 2 people_keys people_rows people_body h ≡ people_out) }
    ensures people_len { length people_out ≡ 61 }
    ensures people_out { IsBody 3 people_out (row_objects people_keys people_rows) }
    ensures people_alike { expand (row_objects people_keys people_rows) ≡ expand people }
    ensures people_value { IsValueOf people people_value }
    ensures no_keys { (h : Spells 2 (template [] no_rows) no_keys) ×
        (bytes_written_out 2 [] no_rows no_keys h ≡ empty_array) }
    ensures no_keys_out { IsBody 3 (empty_array) (row_objects [] no_rows) }
{}

/// Messages with a template, and with 127 of them, and the values that they read as.
pub fn read_values_are_value_trees()
    ensures recorded { IsRead 128 file_query file_answer }
    ensures recorded_value { IsValueOf file_answer file_value }
    ensures small { IsRead 128 people_message people }
    ensures small_value { IsValueOf people people_value }
{}

/// Trees without templates that can be written and are read back by a type: three numbers as a tuple,
/// and a map whose key is no UTF-8, which is no value.
pub fn round_trip()
    ensures numbers_free { IsTemplateFree numbers }
    ensures numbers_writable { IsWritable numbers }
    ensures numbers_deep { depth numbers ≡ 1 }
    ensures numbers_len { length (canonical_message numbers) ≡ 17 }
    ensures numbers_read { IsRead 128 (canonical_message numbers) numbers }
    ensures numbers_tuple { reads_tuple (replicate 3 (reads_signed 64)) (expand numbers) ≡ Some
        (list (content (number (pos 1)) (content (number (pos 2))
        (content (number (pos 3)) no_contents)))) }
    ensures key_free { IsTemplateFree (single (0xff ∷ []) null) }
    ensures key_writable { IsWritable (single (0xff ∷ []) null) }
    ensures key_deep { depth (single (0xff ∷ []) null) ≡ 1 }
    ensures key_len { length (canonical_message (single (0xff ∷ []) null)) ≡ 16 }
    ensures key_read { IsRead 128 (canonical_message (single (0xff ∷ []) null))
        (single (0xff ∷ []) null) }
    ensures key_map { reads_map reads_byte_string reads_unit (expand (single (0xff ∷ []) null))
        ≡ Some (list (content (pair (byte_list (0xff ∷ [])) contents.one) no_contents)) }
{}
