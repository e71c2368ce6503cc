//! How often a reader is called for a value, and a reader that faults behind one.
use bser_vectors::devices::{Plan, PlannedReader, Then};
use bser_vectors::messages::{PI, nested_arrays};
use bser_vectors::ways::read_by_plan;
use serde_bser::de::{DeserializeOwned, Ignored, from_reader};
use serde_bser::device::Watched;
use serde_bser::value::Value;
use std::alloc::Global;
use std::io::ErrorKind;
use std::process::Abort;

/// Checks that a reader that gives what is asked for is called at most 16 times for the message.
fn check_calls<T: DeserializeOwned>(rt: &impl Abort, alloc: Global, message: &[u8]) {
    let mut reader = Watched::new(PlannedReader::new(message, Plan::whole()));
    from_reader::<_, T>(alloc, &mut reader).expect(rt, "the message is read");
    let calls = reader.get_ref().calls;
    assert!(rt; calls <= 16, "{calls}");
}

#[test]
fn a_reader_is_called_rarely_however_deep_the_message(rt: HostRuntime) {
    let message = nested_arrays(rt.alloc(), 128).expect(&rt, "memory is left");
    check_calls::<Value>(&rt, rt.alloc(), &message);
    check_calls::<Ignored>(&rt, rt.alloc(), &message);
}

#[test]
fn a_fault_after_the_message_is_not_asked_for(rt: HostRuntime) {
    let plan = Plan::whole().up_to(PI.len(), Then::Faults(ErrorKind::Other));
    let (answer, taken) = read_by_plan::<Value>(rt.alloc(), PI, plan);
    assert!(rt; matches!(answer, Ok(Value::Real(0x4009_21fb_5444_2d18))));
    assert_eq!(rt; taken, PI.len());
}
