//! The printed texts of refusals and of tags.
use super::checks::{check_text, check_texts};
use bser_format::errors::{Collection, Complaint, EnumName, Error, Kind, Message, ReadCause};
use bser_format::header::{HeaderByte, header_byte_desc};
use std::alloc::Global;
use std::io;
use std::io::ErrorKind;
use std::process::Abort;

/// A reader's fault.
fn reader_fault() -> ReadCause {
    ReadCause::Reader(io::Error::from(ErrorKind::Other))
}

#[test]
fn kinds_and_causes(rt: HostRuntime) {
    let kinds = [
        (Kind::NextItem, "next item"),
        (Kind::Integer, "integer"),
        (Kind::MapKey, "map key"),
        (Kind::TemplateKeys, "template keys"),
        (Kind::TemplateKey, "template key"),
        (Kind::Array, "array"),
        (Kind::Object, "object"),
        (Kind::Template, "template"),
        (Kind::Enum(EnumName::new("TestEnum")), "enum 'TestEnum'"),
        (
            Kind::ObjectLikeEnum(EnumName::new("TestEnum")),
            "object-like enum 'TestEnum'",
        ),
    ];
    check_texts(&rt, rt.alloc(), &kinds);
    let causes = [
        (ReadCause::Eof, "end of input"),
        (ReadCause::Utf8, "invalid UTF-8"),
        (reader_fault(), "reader fault"),
        (ReadCause::Memory, "out of memory"),
        (ReadCause::Failed, "failed before"),
    ];
    check_texts(&rt, rt.alloc(), &causes);
}

const COMPLAINTS: [(Complaint, &str); 12] = [
    (Complaint::NegativeLength, "negative length"),
    (Complaint::NegativeCount, "negative count"),
    (Complaint::ItemsLeft, "items left"),
    (Complaint::TooFewItems, "too few items"),
    (Complaint::WrongType, "wrong type"),
    (Complaint::IntegerOutOfRange, "integer out of range"),
    (Complaint::RowsWithoutKeys, "rows without keys"),
    (
        Complaint::BorrowedFromCopying,
        "borrowed value from a copying source",
    ),
    (Complaint::UnknownVariant, "unknown variant"),
    (
        Complaint::EnumObjectEntries,
        "enum object must have one entry",
    ),
    (Complaint::ValueOpen, "value still open"),
    (Complaint::CountTooGreat, "count too great"),
];

/// A complaint is printed as its text, by itself and as a refusal of each side.
#[test]
fn fixed_messages(rt: HostRuntime) {
    check_texts(&rt, rt.alloc(), &COMPLAINTS);
    for (complaint, text) in &COMPLAINTS {
        let (reading, writing) = (Error::de_custom(*complaint), Error::ser_custom(*complaint));
        let both = format!(in rt.alloc(); "{reading}, {writing}").expect(&rt, "memory is left");
        let expected = format!(in rt.alloc();
            "error while deserializing BSER: {text}, error while serializing BSER: {text}"
        ).expect(&rt, "memory is left");
        check_text(&rt, rt.alloc(), both, expected.as_str());
    }
}

/// A refusal with a message of the program's own.
fn made(rt: &impl Abort, alloc: Global) -> Error {
    let msg = Message::Made(String::from_str(alloc, "no colour").expect(rt, "memory is left"));
    Error::DeCustom { msg }
}

#[test]
fn refusals(rt: HostRuntime) {
    let kind = Kind::ObjectLikeEnum(EnumName::new("TestEnum"));
    let (sequence, map) = (Collection::Sequence, Collection::Map);
    let great = 9223372036854775808;
    let refusals = [
        (
            Error::de_reader_error(reader_fault()),
            "reader error while deserializing",
        ),
        (Error::de_reader_error(ReadCause::Memory), "out of memory"),
        (
            made(&rt, rt.alloc()),
            "error while deserializing BSER: no colour",
        ),
        (
            Error::DeRecursionLimitExceeded { kind },
            "while deserializing BSER: recursion limit exceeded with object-like enum 'TestEnum'",
        ),
        (
            Error::SerNeedSize { kind: sequence },
            "while serializing BSER: need size of sequence",
        ),
        (
            Error::SerNeedSize { kind: map },
            "while serializing BSER: need size of map",
        ),
        (
            Error::SerU64TooBig { v: great },
            "while serializing BSER: integer too big: 9223372036854775808",
        ),
        (Error::from(io::Error::from(ErrorKind::Other)), "IO Error"),
        (Error::OutOfMemory, "out of memory"),
    ];
    check_texts(&rt, rt.alloc(), &refusals);
}

const TAGS: [(u8, &str); 15] = [
    (0x00, "BSER_ARRAY"),
    (0x01, "BSER_OBJECT"),
    (0x02, "BSER_BYTESTRING"),
    (0x03, "BSER_INT8"),
    (0x04, "BSER_INT16"),
    (0x05, "BSER_INT32"),
    (0x06, "BSER_INT64"),
    (0x07, "BSER_REAL"),
    (0x08, "BSER_TRUE"),
    (0x09, "BSER_FALSE"),
    (0x0a, "BSER_NULL"),
    (0x0b, "BSER_TEMPLATE"),
    (0x0c, "BSER_SKIP"),
    (0x0d, "BSER_UTF8STRING"),
    (0xff, "unknown byte '255'"),
];

/// A tag's byte is described by its text, as a value and by its function.
#[test]
fn tags(rt: HostRuntime) {
    for (byte, text) in &TAGS {
        check_text(&rt, rt.alloc(), HeaderByte(*byte), text);
        let described = header_byte_desc(rt.alloc(), *byte).expect(&rt, "memory is left");
        check_text(&rt, rt.alloc(), described, text);
    }
}
