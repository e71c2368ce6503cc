//! What is left where a writer faults.
use crate::tests::checks::{check_bytes, check_debug, spelled};
use bser_vectors::devices::{Plan, PlannedWriter, Then};
use bser_vectors::messages::{
    CANONICAL_ROWS, NESTED_ROWS, NESTED_ROWS_NOTATION, ROWS_NOTATION, TOM,
};
use serde_bser::device::{Sink, Watched};
use serde_bser::errors::Result;
use serde_bser::ser::{serialize, serialize_compact, serialize_to};
use serde_bser::value::Value;
use std::alloc::Global;
use std::io::ErrorKind;
use std::process::Abort;

/// How a value is written.
#[derive(Clone, Copy)]
enum WritingCall {
    SerializeTo,
    SerializeCompact,
}

impl WritingCall {
    /// Writes the value by this call.
    fn write<W: Sink>(self, alloc: Global, writer: &mut W, value: &Value) -> Result<()> {
        match self {
            WritingCall::SerializeTo => serialize_to(alloc, writer, value),
            WritingCall::SerializeCompact => serialize_compact(alloc, writer, value),
        }
    }
}

/// Checks what is answered where a writer follows this plan, and which bytes it has taken then.
fn check_plan(
    rt: &impl Abort,
    alloc: Global,
    (call, value): (WritingCall, &Value),
    plan: Plan,
    (answer, taken): (&str, &[u8]),
) {
    let mut writer = Watched::new(PlannedWriter::new(alloc, plan));
    check_debug(rt, alloc, call.write(alloc, &mut writer, value), answer);
    check_bytes(rt, writer.get_ref().taken.as_slice(), taken);
}

/// Calls, values in the notation, and the messages that are written for them.
static WRITTEN: [(WritingCall, &str, &[u8]); 2] = [
    (WritingCall::SerializeTo, ROWS_NOTATION, CANONICAL_ROWS),
    (
        WritingCall::SerializeCompact,
        NESTED_ROWS_NOTATION,
        NESTED_ROWS,
    ),
];

/// What a writer does once it has taken some bytes, and the fault that is answered.
static STOPS: [(Then, &str); 3] = [
    (
        Then::Ends,
        "Err(Io(Custom { kind: WriteZero, error: \"nothing taken\" }))",
    ),
    (
        Then::Faults(ErrorKind::BrokenPipe),
        "Err(Io(Kind(BrokenPipe)))",
    ),
    (
        Then::Faults(ErrorKind::Interrupted),
        "Err(Io(Kind(Interrupted)))",
    ),
];

/// Checks that the value's message is written a byte a call, and that a fault at each byte leaves a
/// beginning of it.
fn check_faults(rt: &impl Abort, alloc: Global, written: (WritingCall, &Value), message: &[u8]) {
    for (then, answer) in &STOPS {
        for whole in 0..message.len() {
            let plan = Plan::whole().up_to(whole, *then);
            check_plan(rt, alloc, written, plan, (answer, &message[..whole]));
        }
    }
    check_plan(rt, alloc, written, Plan::pieces(1), ("Ok(())", message));
}

#[test]
fn a_fault_at_each_byte_leaves_a_beginning(rt: HostRuntime) {
    for (call, notation, message) in &WRITTEN {
        let value = spelled(&rt, rt.alloc(), notation);
        check_faults(&rt, rt.alloc(), (*call, &value), message);
    }
}

#[test]
fn the_writer_is_handed_back_beside_its_fault(rt: HostRuntime) {
    let value = Value::from_text(rt.alloc(), "Tom").expect(&rt, "memory is left");
    let plan = Plan::whole().up_to(7, Then::FaultsOnce(ErrorKind::Other));
    let answer = serialize(
        rt.alloc(),
        Watched::new(PlannedWriter::new(rt.alloc(), plan)),
        &value,
    );
    let (writer, error) = answer.err().expect(&rt, "a fault");
    check_bytes(&rt, writer.get_ref().taken.as_slice(), &TOM[..7]);
    check_debug(&rt, rt.alloc(), error, "Io(Kind(Other))");
}
