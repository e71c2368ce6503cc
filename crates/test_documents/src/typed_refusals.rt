//! Worked refusals of types, computed from what reading them does. Each function does nothing, and
//! its contract is what is computed.

ghost use Rattle.std.specs.Prelude.{◌≡◌, ◌∷◌, []};
ghost use Rattle.bser_format.specs.Expected.{node_due, row_due};
ghost use Rattle.bser_format.specs.ReadsScalars.{is_signed};
ghost use Rattle.bser_format.specs.declared.errors.Complaint.TheVariants.{ItemsLeft, TooFewItems};
ghost use Rattle.bser_format.specs.declared.errors.Complaint.TheVariants.{IntegerOutOfRange};
ghost use Rattle.bser_format.specs.declared.errors.Complaint.TheVariants.{UnknownVariant};
ghost use Rattle.bser_format.specs.declared.errors.Complaint.TheVariants.{EnumObjectEntries};
ghost use Rattle.bser_format.specs.declared.errors.Complaint.TheVariants.{NegativeLength};
ghost use Rattle.bser_format.specs.declared.errors.Error.TheVariants.{DeInvalidStartByte};
ghost use Rattle.bser_format.specs.declared.errors.Error.TheVariants.{DeRecursionLimitExceeded};
ghost use Rattle.bser_format.specs.declared.errors.Error.TheVariants.{DeEof};
ghost use Rattle.bser_format.specs.declared.errors.Kind.TheVariants.{NextItem, MapKey, Enum};
ghost use Rattle.bser_format.specs.declared.errors.Kind.TheVariants.{ObjectLikeEnum};
ghost use Rattle.bser_format.specs.declared.errors.name.EnumName.{EnumName};
ghost use Rattle.bser_format.specs.Named.{reads, refuses, eof, utf8_wanted, complain, message};
ghost use Rattle.bser_format.specs.DueReaders.{wrong_type};
ghost use Rattle.bser_format.specs.Asks.{asks_bool, asks_integer, asks_string, asks_bytes};
ghost use Rattle.bser_format.specs.Asks.{asks_char, asks_option, asks_vec, asks_byte_string};
ghost use Rattle.bser_format.specs.Asks.{asks_tuple, asks_map, asks_enum};
ghost use Rattle.test_documents.specs.Samples.{short_message};
ghost use Rattle.test_documents.specs.Templates.{one_row};
ghost use Rattle.test_documents.specs.Faults.{signed, pair, namesakes, variants};

/// Another kind of value, known by its tag alone.
pub fn other_kinds()
    ensures text { asks_bool 0 3 node_due (0x0d ∷ []) ≡ refuses wrong_type }
    ensures unknown { asks_bool 0 3 node_due (0x0e ∷ [])
        ≡ refuses (DeInvalidStartByte NextItem 0x0e) }
    ensures real { asks_integer (is_signed 64) 0 3 node_due (0x07 ∷ []) ≡ refuses wrong_type }
    ensures inside { asks_vec signed 0 3 node_due (0x00 ∷ 0x03 ∷ 0x02 ∷ 0x03 ∷ 0x01 ∷ 0x08 ∷ [])
        ≡ refuses wrong_type }
    ensures option { asks_option asks_bool 0 3 node_due (0x00 ∷ []) ≡ refuses wrong_type }
    ensures row { asks_vec signed 0 3 node_due (one_row (0x03 ∷ 0x01 ∷ [])) ≡ refuses wrong_type }
    ensures integer_key { asks_map signed asks_bool 0 3 node_due (0x01 ∷ 0x03 ∷ 0x01 ∷ 0x0d ∷ [])
        ≡ refuses wrong_type }
{}

/// Numbers, texts and counts that a type does not hold.
pub fn other_contents()
    ensures range { asks_integer (is_signed 8) 0 3 node_due (0x04 ∷ 0x80 ∷ 0x00 ∷ [])
        ≡ refuses (complain IntegerOutOfRange) }
    ensures cut { asks_integer (is_signed 8) 0 3 node_due (0x04 ∷ 0x80 ∷ []) ≡ refuses eof }
    ensures byte { asks_byte_string 0 3 node_due (0x00 ∷ 0x03 ∷ 0x01 ∷ 0x04 ∷ 0x00 ∷ 0x01 ∷ [])
        ≡ refuses (complain IntegerOutOfRange) }
    ensures utf8 { asks_string 0 3 node_due (0x02 ∷ 0x03 ∷ 0x01 ∷ 0xff ∷ []) ≡ refuses utf8_wanted }
    ensures bytes { asks_bytes 0 3 node_due (0x02 ∷ 0x03 ∷ 0x01 ∷ 0xff ∷ []) ≡ reads tt [] }
    ensures two_chars { asks_char 0 3 node_due (0x0d ∷ 0x03 ∷ 0x02 ∷ 0x61 ∷ 0x62 ∷ [])
        ≡ refuses wrong_type }
    ensures fewer { asks_tuple
        (signed ∷ signed ∷ []) 0 3 node_due (0x00 ∷ 0x03 ∷ 0x01 ∷ 0x03 ∷ 0x01 ∷ [])
        ≡ refuses (complain TooFewItems) }
    ensures more { asks_tuple (signed ∷ signed ∷ []) 0 3 node_due
        (0x00 ∷ 0x03 ∷ 0x03 ∷ 0x03 ∷ 0x01 ∷ 0x03 ∷ 0x02 ∷ 0x0e ∷ [])
        ≡ refuses (complain ItemsLeft) }
{}

/// A struct of a text `a` and, where it is there, a number `b`.
pub fn structs()
    ensures whole { pair 0 3 node_due
        (0x01 ∷ 0x03 ∷ 0x01 ∷ 0x0d ∷ 0x03 ∷ 0x01 ∷ 0x61 ∷ 0x0d ∷ 0x03 ∷ 0x00 ∷ []) ≡ reads tt [] }
    ensures absent { pair 0 3 node_due (0x01 ∷ 0x03 ∷ 0x00 ∷ []) ≡ refuses (complain TooFewItems) }
    ensures again { pair 0 3 node_due (0x01 ∷ 0x03 ∷ 0x02 ∷ 0x0d ∷ 0x03 ∷ 0x01 ∷ 0x61 ∷ 0x0d ∷
        0x03 ∷ 0x00 ∷ 0x0d ∷ 0x03 ∷ 0x01 ∷ 0x61 ∷ []) ≡ refuses (complain ItemsLeft) }
    ensures passed_over { pair 0 3 node_due
        (0x01 ∷ 0x03 ∷ 0x01 ∷ 0x0d ∷ 0x03 ∷ 0x01 ∷ 0x7a ∷ 0x02 ∷ 0x03 ∷ 0xff ∷ [])
        ≡ refuses (complain NegativeLength) }
    ensures row { asks_vec pair 0 3 node_due (one_row (0x0c ∷ [])) ≡ refuses wrong_type }
    ensures key { pair 0 3 node_due (0x01 ∷ 0x03 ∷ 0x01 ∷ 0x0a ∷ [])
        ≡ refuses (DeInvalidStartByte MapKey 0x0a) }
    ensures null { pair 0 3 node_due (0x01 ∷ 0x03 ∷ 0x02 ∷ 0x0d ∷ 0x03 ∷ 0x01 ∷ 0x61 ∷ 0x0d ∷
        0x03 ∷ 0x00 ∷ 0x0d ∷ 0x03 ∷ 0x01 ∷ 0x62 ∷ 0x0a ∷ []) ≡ reads tt [] }
    ensures null_text { pair 0 3 node_due
        (0x01 ∷ 0x03 ∷ 0x01 ∷ 0x0d ∷ 0x03 ∷ 0x01 ∷ 0x61 ∷ 0x0a ∷ []) ≡ refuses wrong_type }
    ensures fields { pair 0 3
        (row_due ((0x61 ∷ []) ∷ (0x62 ∷ []) ∷ [])) (0x0d ∷ 0x03 ∷ 0x00 ∷ 0x0c ∷ []) ≡ reads tt [] }
    ensures namesake { namesakes 0 3 node_due
        (0x01 ∷ 0x03 ∷ 0x01 ∷ 0x0d ∷ 0x03 ∷ 0x01 ∷ 0x61 ∷ 0x03 ∷ 0x01 ∷ [])
        ≡ refuses (complain TooFewItems) }
{}

/// An enum of a unit variant `u` and one of a number, `n`.
pub fn enums()
    ensures number { (enum : EnumName) → asks_enum enum variants 0 3 node_due (0x03 ∷ 0x01 ∷ [])
        ≡ refuses (DeInvalidStartByte (Enum enum) 0x03) }
    ensures unknown { (enum : EnumName) →
        asks_enum enum variants 0 3 node_due (0x0d ∷ 0x03 ∷ 0x01 ∷ 0x7a ∷ [])
        ≡ refuses (complain UnknownVariant) }
    ensures none { (enum : EnumName) →
        asks_enum enum variants 0 3 node_due (0x01 ∷ 0x03 ∷ 0x00 ∷ [])
        ≡ refuses (complain EnumObjectEntries) }
    ensures level { (enum : EnumName) → asks_enum enum variants 0 0 node_due (0x01 ∷ [])
        ≡ refuses (DeRecursionLimitExceeded (ObjectLikeEnum enum)) }
    ensures payload { (enum : EnumName) →
        asks_enum enum variants 0 3 node_due
        (0x01 ∷ 0x03 ∷ 0x01 ∷ 0x0d ∷ 0x03 ∷ 0x01 ∷ 0x6e ∷ 0x08 ∷ []) ≡ refuses wrong_type }
    ensures alone { (enum : EnumName) →
        asks_enum enum variants 0 3 node_due (0x0d ∷ 0x03 ∷ 0x01 ∷ 0x6e ∷ []) ≡ refuses wrong_type }
    ensures row { (enum : EnumName) →
        asks_vec (asks_enum enum variants) 0 3 node_due (one_row (0x03 ∷ 0x01 ∷ []))
        ≡ refuses (complain UnknownVariant) }
{}

/// Whole messages.
pub fn messages()
    ensures read { message (asks_vec signed 0 128 node_due)
        (short_message 0x05 (0x00 ∷ 0x03 ∷ 0x01 ∷ 0x03 ∷ 0x07 ∷ [])) ≡ reads (0, tt) [] }
    ensures type_first { message (asks_bool 0 128 node_due) (short_message 0xff (0x0a ∷ []))
        ≡ refuses (complain NegativeLength) }
    ensures value_first { message (asks_bool 0 128 node_due) (short_message 0x09 (0x0a ∷ []))
        ≡ refuses wrong_type }
    ensures len_last { message (asks_bool 0 128 node_due) (short_message 0x09 (0x08 ∷ []))
        ≡ refuses (DeEof 17 9) }
{}
