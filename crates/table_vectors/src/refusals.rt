//! Refusals of messages, and their descriptions.
//!
//! The file `errors.tsv` has a line for each message: what it shows, the type that it is read as, the
//! message in hexadecimal digits, the words that its description has to have, the field that has to be
//! named, or `-`, where the part that is refused begins and ends, the place, and the path. The first
//! line has the columns' names. What is read as a `Value` is read as a `Document` too. The file
//! `wrong-errors.tsv` has such lines of which each is wrong.
use anyhow::{Context, Result};
use bser_vectors::answers::FilesAnswer;
use bser_vectors::devices::{Plan, PlannedReader};
use bser_vectors::enums::TestEnum;
use bser_vectors::refused::RefusedMessage;
use serde_bser::de::{Deserialize, DeserializeOwned};
use serde_bser::describe;
use serde_bser::describe::Description;
use serde_bser::device::Watched;
use serde_bser::document::Document;
use serde_bser::tell::{Limits, Reason};
use serde_bser::value::Value;
use std::alloc::Global;
use std::fs;

/// How many bytes a reader gives at a call; 0 is a slice.
const PIECES: [usize; 4] = [0, 1, 7, 4096];

/// Reads a message whose number is 300 by each call, and as a type that does not hold it.
pub fn read_number(rt: &HostRuntime) -> Result<()> {
    let message = b"\x00\x02\x00\x00\x00\x00\x03\x03\x04\x2c\x01".as_slice();
    let alloc = rt.alloc();
    let mut reader = Watched::new(PlannedReader::new(message, Plan::pieces(1)));
    let mut again = Watched::new(PlannedReader::new(message, Plan::pieces(1)));
    let numbers = [
        describe::from_slice::<i64>(alloc, message).ok(),
        describe::from_slice_within::<i64>(alloc, 0, message).ok(),
        describe::from_reader::<_, i64>(alloc, &mut reader).ok(),
        describe::from_reader_within::<_, i64>(alloc, 0, &mut again).ok(),
    ];
    println!(rt; "{numbers:?}")?;
    let refusal = describe::from_slice::<i8>(alloc, message)
        .err()
        .context("300 is no i8")?;
    println!(rt; "{:?}, {}", refusal.finding(), refusal.cause())?;
    println!(rt; "{}", refusal.into_cause())?;
    Ok(())
}

/// Reads each message of the list, and prints how it is refused.
pub fn compare_refusals(rt: &HostRuntime, file: &str) -> Result<()> {
    let text = fs::read_to_string(rt, file)?;
    let mut cases = 0u64;
    let mut wrong = 0u64;
    for line in text.as_str().lines().skip(1) {
        cases = cases.saturating_add(1);
        wrong = wrong.saturating_add(compare_case(rt, line)?);
    }
    println!(rt; "{cases} messages, {wrong} wrong descriptions")?;
    Ok(())
}

/// Prints how the message of a line is refused, and counts in how many ways of reading it is
/// described otherwise, or not as it has to be.
fn compare_case(rt: &HostRuntime, line: &str) -> Result<u64> {
    let case = RefusedMessage::parse(rt.alloc(), line)?;
    let refused = refusal(rt.alloc(), &case, case.kind, 0)?;
    let text = refused.to_string(rt.alloc())?;
    let path = refused.path(rt.alloc(), &case.message)?;
    println!(rt; "{}: {text}, in {path}", case.name)?;
    let mut wrong = count_wrong(rt, &case, case.kind, text.as_str())?;
    if case.kind == "Value" {
        wrong = wrong.saturating_add(count_wrong(rt, &case, "Document", text.as_str())?);
    }
    Ok(wrong)
}

/// From how many sources the message is refused otherwise as this type, or not as it has to be.
fn count_wrong(
    rt: &HostRuntime,
    case: &RefusedMessage<'_>,
    kind: &str,
    expected: &str,
) -> Result<u64> {
    let mut wrong = 0u64;
    for pieces in PIECES {
        if !is_right(rt, case, kind, pieces, expected)? {
            wrong = wrong.saturating_add(1);
        }
    }
    Ok(wrong)
}

/// Whether the refusal is described by this text, which says what it has to. Else prints by what it is
/// described.
fn is_right(
    rt: &HostRuntime,
    case: &RefusedMessage<'_>,
    kind: &str,
    pieces: usize,
    expected: &str,
) -> Result<bool> {
    let refusal = refusal(rt.alloc(), case, kind, pieces)?;
    let text = refusal.to_string(rt.alloc())?;
    let path = refusal
        .path(rt.alloc(), &case.message)?
        .to_string(rt.alloc())?;
    let is_right = text.as_str() == expected
        && case.is_described(expected, refusal.place())
        && refusal.field().unwrap_or("-") == case.field
        && path.as_str() == case.path;
    if !is_right {
        println!(rt; "  wrong as {kind} in pieces of {pieces}: {text}, in {path}")?;
    }
    Ok(is_right)
}

/// How the case's message is refused as this type.
fn refusal(
    alloc: Global,
    case: &RefusedMessage<'_>,
    kind: &str,
    pieces: usize,
) -> Result<Description> {
    match kind {
        "Value" => refusal_of::<Value>(alloc, &case.message, pieces),
        "Document" => untold_of(alloc, &case.message, pieces),
        "Answer" => refusal_of::<FilesAnswer>(alloc, &case.message, pieces),
        "i8" => refusal_of::<i8>(alloc, &case.message, pieces),
        "String" => refusal_of::<String>(alloc, &case.message, pieces),
        "char" => refusal_of::<char>(alloc, &case.message, pieces),
        "tup2" => refusal_of::<(i64, i64)>(alloc, &case.message, pieces),
        "vec_TestEnum" => refusal_of::<Vec<TestEnum<String>>>(alloc, &case.message, pieces),
        _ => None,
    }
    .context("a message that is accepted, or no such type")
}

/// How the message is refused as a document. That no byte is left is an error of a slice alone.
fn untold_of(alloc: Global, message: &[u8], pieces: usize) -> Option<Description> {
    let untold = if pieces == 0 || message.is_empty() {
        Document::from_slice(alloc, Limits::new(), message).err()?
    } else {
        let mut reader = Watched::new(PlannedReader::new(message, Plan::pieces(pieces)));
        Document::next_message(alloc, Limits::new(), &mut reader).err()?
    };
    match untold.reason {
        Reason::Failed(description) => Some(description),
        Reason::Stopped { place: _ } => None,
    }
}

/// How the message is refused as this type, read from a slice or from a reader of so many bytes a
/// call.
fn refusal_of<'a, T: Deserialize<&'a [u8]> + DeserializeOwned>(
    alloc: Global,
    message: &'a [u8],
    pieces: usize,
) -> Option<Description> {
    if pieces == 0 {
        return describe::from_slice::<T>(alloc, message).err();
    }
    let mut reader = Watched::new(PlannedReader::new(message, Plan::pieces(pieces)));
    describe::from_reader::<_, T>(alloc, &mut reader).err()
}
