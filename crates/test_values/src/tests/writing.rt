//! What is written for each type, and what faults and refused memory leave of it.
mod lists;
mod types;

use self::types::{TestStruct, WrittenEnum};
use super::checks::{check_bytes, check_debug, check_written};
use bser_format::bytestring::ByteString;
use bser_format::errors::Error;
use bser_ser::Serializer;
use bser_source::device::{Sink, Watched};
use bser_types::impls::RealBits;
use bser_vectors::devices::{Plan, PlannedWriter, Then};
use std::alloc::{AllocError, Global};
use std::collections::BTreeMap;
use std::io::ErrorKind;
use std::process::Abort;

/// A serializer over a writer that follows a plan.
type Planning = Serializer<Watched<PlannedWriter>>;

/// A serializer over a writer of this plan, with a text pending.
fn with_hello(rt: &impl Abort, alloc: Global, plan: Plan) -> Planning {
    let mut out = Serializer::new(alloc, Watched::new(PlannedWriter::new(alloc, plan)));
    out.put_text("hello").expect(rt, "the text is put");
    out
}

/// The writer has taken these bytes.
fn check_taken(rt: &impl Abort, writer: Watched<PlannedWriter>, expected: &[u8]) {
    check_bytes(rt, writer.get_ref().taken.as_slice(), expected);
}

#[test]
fn what_takes_nothing_stops_a_flush_and_after_an_interruption_the_next_goes_on(rt: HostRuntime) {
    let alloc = rt.alloc();
    let mut out = with_hello(&rt, alloc, Plan::whole().up_to(2, Then::Ends));
    let zero = "Err(Custom { kind: WriteZero, error: \"nothing taken\" })";
    check_debug(&rt, alloc, out.flush(), zero);
    check_taken(&rt, out.into_writer(), b"\x0d\x03");
    let interrupted = Plan::whole().up_to(2, Then::FaultsOnce(ErrorKind::Interrupted));
    let mut out = with_hello(&rt, alloc, interrupted);
    for answer in ["Err(Kind(Interrupted))", "Ok(())"] {
        check_debug(&rt, alloc, out.flush(), answer);
    }
    check_taken(&rt, out.into_writer(), b"\x0d\x03\x05hello");
}

/// Finishing stops with a fault after three bytes, and hands the serializer back.
fn stopped(rt: &impl Abort, alloc: Global) -> Planning {
    let plan = Plan::whole().up_to(3, Then::FaultsOnce(ErrorKind::Other));
    let answer = with_hello(rt, alloc, plan).try_finish();
    let (out, fault) = answer.err().expect(rt, "a fault");
    check_debug(rt, alloc, fault, "Kind(Other)");
    out
}

#[test]
fn after_a_fault_it_goes_on_at_the_same_byte_and_what_was_taken_stays(rt: HostRuntime) {
    let writer = stopped(&rt, rt.alloc()).try_finish().ok();
    check_taken(&rt, writer.expect(&rt, "no fault"), b"\x0d\x03\x05hello");
    check_taken(&rt, stopped(&rt, rt.alloc()).into_writer(), b"\x0d\x03\x05");
}

/// A serializer into memory.
fn in_memory(alloc: Global) -> Serializer<Watched<Vec<u8>>> {
    Serializer::new(alloc, Watched::new(Vec::new(alloc)))
}

/// Puts a byte string of 4094 bytes, and so many nulls.
fn put_much<W: Sink>(out: &mut Serializer<W>, nulls: usize) -> Result<(), Error> {
    out.put_bytes(&[0; 4090])?;
    for _ in 0..nulls {
        out.put_null()?;
    }
    Ok(())
}

/// After a byte string of 4094 bytes and so many nulls, this many bytes were sent.
fn check_sent_after(rt: &impl Abort, alloc: Global, nulls: usize, sent: usize) {
    let mut out = in_memory(alloc);
    put_much(&mut out, nulls).expect(rt, "the nulls are put");
    assert_eq!(rt; out.into_writer().into_inner().len(), sent);
}

#[test]
fn sends_before_a_put_when_much_is_pending(rt: HostRuntime) {
    check_sent_after(&rt, rt.alloc(), 3, 0);
    check_sent_after(&rt, rt.alloc(), 4, 4097);
}

/// Puts a text, or else the name of a variant, and puts it again where memory was refused.
fn put_again<W: Sink>(out: &mut Serializer<W>, text: &str, is_variant: bool) -> Result<(), Error> {
    for _ in 0..2 {
        let answer = if is_variant {
            out.put_newtype_variant(text)
        } else {
            out.put_text(text)
        };
        if !matches!(answer, Err(Error::OutOfMemory)) {
            return answer;
        }
    }
    Err(Error::OutOfMemory)
}

/// Puts three texts and the name of a variant, each again where memory was refused.
fn put_all_again<W: Sink>(out: &mut Serializer<W>) -> Result<(), Error> {
    for text in ["hello", "a text", "and one that is longer"] {
        put_again(out, text, false)?;
    }
    put_again(out, "of an enum", true)
}

/// The pending bytes grow four times. Where the tests run with one of these growths refused, they
/// are the same.
#[test]
fn a_put_that_is_refused_for_memory_can_be_put_again(rt: HostRuntime) {
    let mut out = in_memory(rt.alloc());
    put_all_again(&mut out).expect(&rt, "each is put");
    let writer = out.finish().expect(&rt, "the writer takes the rest");
    check_bytes(
        &rt,
        writer.get_ref(),
        b"\x0d\x03\x05hello\x0d\x03\x06a text\x0d\x03\x16and one that is longer\x01\x03\x01\x0d\x03\x0aof an enum",
    );
}

/// Puts the greatest integer, the bits of a real, and a character.
fn put_scalars<W: Sink>(out: &mut Serializer<W>) -> Result<(), Error> {
    out.put_u64(9223372036854775807)?;
    out.put_real_bits(0x400921fb54442d18)?;
    out.put_char('\u{1f4a9}')
}

#[test]
fn puts_an_integer_a_real_and_a_character(rt: HostRuntime) {
    let mut out = in_memory(rt.alloc());
    put_scalars(&mut out).expect(&rt, "each is put");
    let too_great = "Err(SerU64TooBig { v: 9223372036854775808 })";
    check_debug(&rt, rt.alloc(), out.put_u64(9223372036854775808), too_great);
    let writer = out.finish().expect(&rt, "the writer takes the rest");
    check_bytes(
        &rt,
        writer.get_ref(),
        b"\x06\xff\xff\xff\xff\xff\xff\xff\x7f\x07\x18\x2d\x44\x54\xfb\x21\x09\x40\x0d\x03\x04\xf0\x9f\x92\xa9",
    );
}

/// A variant with fields.
const STRUCT_VARIANT: WrittenEnum = WrittenEnum::TestStruct {
    abc: (),
    def: '\u{1f4a9}',
};

/// A variant with parts.
const TUPLE_VARIANT: WrittenEnum = WrittenEnum::TestTuple(42, 9223372036854775807);

/// A list of variants that hold something.
fn enum_list(alloc: Global) -> Result<Vec<WrittenEnum>, AllocError> {
    let text = ByteString::from_text(alloc, "BSER test")?;
    Ok(vec![in alloc;
        WrittenEnum::TestNewtype(text),
        TUPLE_VARIANT,
        STRUCT_VARIANT,
    ]?)
}

/// A struct with something in each field.
fn test_struct(alloc: Global) -> Result<TestStruct<WrittenEnum>, AllocError> {
    Ok(TestStruct {
        test_list: vec![in alloc; 3, 4, 42, 987, 524288]?,
        test_tuple: ("foo", Some(RealBits(0x400921fb54442d18))),
        test_enum: WrittenEnum::TestUnit,
        test_enum_list: enum_list(alloc)?,
    })
}

#[test]
fn writes_a_struct_of_a_list_a_tuple_and_enums(rt: HostRuntime) {
    check_written(
        &rt,
        rt.alloc(),
        test_struct(rt.alloc()).expect(&rt, "memory is left"),
        b"\x00\x02\x00\x00\x00\x00\x04\xcb\x00\x01\x03\x04\x0d\x03\x09test_list\x00\x03\x05\x03\x03\x03\x04\x03\x2a\x04\xdb\x03\x05\x00\x00\x08\x00\x0d\x03\x0atest_tuple\x00\x03\x02\x0d\x03\x03foo\x07\x18\x2d\x44\x54\xfb\x21\x09\x40\x0d\x03\x09test_enum\x0d\x03\x08TestUnit\x0d\x03\x0etest_enum_list\x00\x03\x03\x01\x03\x01\x0d\x03\x0bTestNewtype\x02\x03\x09BSER test\x01\x03\x01\x0d\x03\x09TestTuple\x00\x03\x02\x03\x2a\x06\xff\xff\xff\xff\xff\xff\xff\x7f\x01\x03\x01\x0d\x03\x0aTestStruct\x01\x03\x02\x0d\x03\x03abc\x0a\x0d\x03\x03def\x0d\x03\x04\xf0\x9f\x92\xa9",
    );
}

/// A map with a member that has a value and one that has none.
fn members(alloc: Global) -> Result<BTreeMap<String, Option<u8>>, AllocError> {
    let mut members = BTreeMap::new(alloc);
    for (name, member) in [("b", Some(1)), ("a", None)] {
        members.insert(String::from_str(alloc, name)?, member)?;
    }
    Ok(members)
}

#[test]
fn writes_maps_options_and_tuples(rt: HostRuntime) {
    let alloc = rt.alloc();
    check_written(
        &rt,
        alloc,
        members(alloc).expect(&rt, "memory is left"),
        b"\x00\x02\x00\x00\x00\x00\x03\x0e\x01\x03\x02\x0d\x03\x01a\x0a\x0d\x03\x01b\x03\x01",
    );
    check_written(
        &rt,
        alloc,
        (true, "x", [()].as_slice(), 'y'),
        b"\x00\x02\x00\x00\x00\x00\x03\x10\x00\x03\x04\x08\x0d\x03\x01x\x00\x03\x01\x0a\x0d\x03\x01y",
    );
}
