//! Messages in memory.
use super::checks::{check_bytes, check_debug};
use bser_format::errors::Result;
use bser_ser::message::{serialize, to_vec};
use bser_ser::{InMemory, Serialize, Serializer};
use bser_source::device::Sink;
use std::alloc::Global;
use std::process::Abort;

#[test]
fn memory_takes_all_and_no_room_for_what_is_told_is_no_error(rt: HostRuntime) {
    let mut memory = InMemory::new(Vec::new(rt.alloc()));
    memory.expect(usize::MAX);
    check_debug(&rt, rt.alloc(), memory.push(b"ab"), "Ok(2)");
    assert!(rt; memory.take_at_once(b"c", b"d"));
    check_bytes(&rt, memory.get_ref(), b"abcd");
}

/// Puts the message of a template of the key "a", and of two rows: one without the field, and 2.
fn put_rows(out: &mut Serializer<InMemory>) -> Result<()> {
    out.put_header(13)?;
    out.put_template()?;
    out.put_seq(Some(1))?;
    out.put_key(b"a")?;
    out.put_i64(2)?;
    out.put_skip()?;
    out.put_i64(2)
}

#[test]
fn puts_a_message_of_a_template_with_a_skip(rt: HostRuntime) {
    let mut out = Serializer::new(rt.alloc(), InMemory::new(Vec::new(rt.alloc())));
    put_rows(&mut out).expect(&rt, "the template is put");
    let memory = out.finish().expect(&rt, "the template is put");
    check_bytes(
        &rt,
        memory.get_ref(),
        b"\x00\x02\x00\x00\x00\x00\x03\x0d\x0b\x00\x03\x01\x0d\x03\x01a\x03\x02\x0c\x03\x02",
    );
}

/// The value's message in memory that gets its length before.
fn kept<T: Serialize>(alloc: Global, value: &T) -> Result<Vec<u8>> {
    match serialize(alloc, InMemory::new(Vec::new(alloc)), value) {
        Ok(memory) => Ok(memory.into_inner()),
        Err((_, error)) => Err(error),
    }
}

/// The message is this header and then so many trues.
fn check_trues(rt: &impl Abort, made: Result<Vec<u8>>, header: &[u8], count: usize) {
    let made = made.expect(rt, "the value is written");
    assert_eq!(rt; made.len(), header.len().saturating_add(count));
    assert!(rt; made.starts_with(header));
    assert!(rt; made.iter().skip(header.len()).all(|byte| *byte == 0x08));
}

/// The vector grows a few times. Where the tests run with one of these growths refused, what follows
/// is kept pending, and the message is the same.
#[test]
fn long_messages_are_made_in_memory(rt: HostRuntime) {
    let alloc = rt.alloc();
    let header = b"\x00\x02\x00\x00\x00\x00\x04\x8c\x13\x00\x04\x88\x13";
    check_trues(&rt, to_vec(alloc, &[true; 5000]), header, 5000);
    check_trues(&rt, kept(alloc, &[true; 5000]), header, 5000);
    let header = b"\x00\x02\x00\x00\x00\x00\x05\x46\x9c\x00\x00\x00\x05\x40\x9c\x00\x00";
    check_trues(&rt, to_vec(alloc, &[true; 40000]), header, 40000);
}
