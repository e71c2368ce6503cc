//! Refused growths.
use super::steps::{Call, Step, steps_taken};
use crate::tests::readers::source_of;
use bser_deserializer::deserializer::{Deserializer, Due};
use bser_source::read::DeRead;
use bser_source::reference::LendsText;
use bser_source::slice_read::SliceRead;
use std::alloc::Global;
use std::process::Abort;

/// A row of the text `xy` and the bytes `z` under the keys `a` and `b`.
const ROW: &[u8] =
    b"\x00\x02\x00\x00\x00\x00\x03\x17\x0b\x00\x03\x02\x02\x03\x01a\x0d\x03\x01b\x03\x01\x0d\x03\x02xy\x02\x03\x01z";

/// The steps of [`ROW`].
static STEPS: [Step; 15] = [
    (Call::Levels, "128"),
    (Call::Items, "(1, true)"),
    (Call::Await(Due::Row), ""),
    (Call::Pairs, "(0, true)"),
    (Call::Await(Due::Name), ""),
    (Call::String, "Ok(\"a\")"),
    (Call::Await(Due::Field), ""),
    (Call::String, "Ok(\"xy\")"),
    (Call::AwaitName(1), ""),
    (Call::ByteString, "Ok(\"b\")"),
    (Call::Await(Due::Field), ""),
    (Call::ByteString, "Ok(\"z\")"),
    (Call::PairsEnd, ""),
    (Call::ItemsEnd, ""),
    (Call::End, "Ok(())"),
];

const REFUSED_GROWTH: [Step; 2] = [(Call::Reason, "OutOfMemory"), (Call::IsFailed, "true")];

/// Whether the steps of [`ROW`] are taken, or memory is refused.
fn is_row_or_refusal<R: DeRead>(alloc: Global, from: &mut Deserializer<R>) -> bool
where
    R::Lent: LendsText,
{
    steps_taken(alloc, &STEPS, from) == 15 || steps_taken(alloc, &REFUSED_GROWTH, from) == 2
}

fn check_row_or_refusal<R: DeRead + Drop>(rt: &impl Abort, alloc: Global, read: R)
where
    R::Lent: LendsText,
{
    let mut from = Deserializer::new(alloc, read).expect(rt, "the head is whole");
    assert!(rt; is_row_or_refusal(alloc, &mut from));
}

#[test]
fn a_refused_growth_is_out_of_memory(rt: HostRuntime) {
    check_row_or_refusal(&rt, rt.alloc(), SliceRead::new(ROW));
    check_row_or_refusal(&rt, rt.alloc(), source_of(ROW, 1, 99));
}
