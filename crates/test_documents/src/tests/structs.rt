//! Structs and enums from objects, rows and names, from a slice and from a reader, and the messages
//! written for them.
mod choices;
mod files;
mod forms;
mod named;
mod objects;
mod queries;
mod returned;
mod rows;
mod variants;

use super::{check_debug, check_written};
use bser_vectors::devices::Plan;
use bser_vectors::ways::read_by_plan;
use serde_bser::errors::Result;
use serde_bser::from_slice;
use serde_bser::prelude::*;
use serde_bser::ser::Serialize;
use std::alloc::Global;
use std::fmt::Debug;
use std::process::Abort;

/// A message, and how `Debug` prints what it is read as, or its refusal.
type Case<'a> = (&'a [u8], &'a str);

/// Checks what each message is read as from a slice.
fn check_lent<'a, T>(rt: &impl Abort, alloc: Global, cases: &[Case<'a>])
where
    T: Deserialize<&'a [u8]> + Debug,
{
    for (bytes, printed) in cases {
        check_debug::<Result<T>>(rt, alloc, from_slice(alloc, bytes), printed);
    }
}

/// Checks what each message is read as from a slice, and from a reader that gives one byte a call.
fn check_owned<'a, T>(rt: &impl Abort, alloc: Global, cases: &[Case<'a>])
where
    T: DeserializeOwned + Deserialize<&'a [u8]> + Debug,
{
    for (bytes, printed) in cases {
        check_debug::<Result<T>>(rt, alloc, from_slice(alloc, bytes), printed);
        let answer = read_by_plan(alloc, bytes, Plan::pieces(1)).0;
        check_debug::<Result<T>>(rt, alloc, answer, printed);
    }
}

/// Checks that each message is written again for what it is read as.
fn check_written_again<'a, T>(rt: &impl Abort, alloc: Global, cases: &[Case<'a>])
where
    T: Deserialize<&'a [u8]> + Serialize,
{
    for (bytes, _) in cases {
        let value: T = from_slice(alloc, bytes).expect(rt, "the message is read");
        check_written(rt, alloc, &value, bytes);
    }
}
