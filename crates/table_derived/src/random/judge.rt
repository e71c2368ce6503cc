//! Whether a message is answered in one way.
use crate::random::faults::Fault;
use crate::random::message::{Expected, Message, Target};
use crate::random::readings::{
    Answered, by_derive, by_derive_from_reader, by_reader, by_slice, told,
};
use crate::random::rewritten::compare_written;
use anyhow::{Result, bail, ensure};
use bser_vectors::enums::{EnumRow, TestEnum};
use bser_vectors::shown::Shown;
use bser_vectors::structs::{Files, TemplateRow};
use serde::{Deserialize, DeserializeOwned};
use serde_bser::de;
use serde_bser::document::Document;
use serde_bser::value::Value;
use std::alloc::Global;

/// Reads the message in each way, from readers of `most` bytes a call. Answers whether it is
/// well-formed. The error says which ways differ.
pub fn compare_readings<'de>(alloc: Global, message: &'de Message, most: usize) -> Result<bool> {
    let answered = compare_any(alloc, message, most)?;
    match message.target {
        Target::Any | Target::Deep => {}
        Target::Rows => compare_typed::<Vec<TemplateRow<String>>>(alloc, message, most)?,
        Target::Files => compare_typed::<Files<String>>(alloc, message, most)?,
        Target::Variants => compare_typed::<Vec<TestEnum<String>>>(alloc, message, most)?,
        Target::VariantRows => compare_typed::<Vec<EnumRow<String>>>(alloc, message, most)?,
    }
    match (answered, message.expected) {
        (Answered::Value(_), Expected::RefusedAt(place)) => bail!("read, and it ends at {place}"),
        (Answered::Value(_), _) => {
            compare_written(alloc, &message.bytes)?;
            Ok(true)
        }
        (Answered::Refused { .. }, _) => Ok(false),
    }
}

/// Reads the message as a `Value` and as a `Document`.
fn compare_any(alloc: Global, message: &Message, most: usize) -> Result<Answered> {
    let answered = by_slice::<Value>(alloc, &message.bytes)?;
    check_place(message, &answered)?;
    let copied = by_reader::<Value>(alloc, &message.bytes, most)?;
    ensure!(copied == answered, "another `Value` from a reader");
    let document = by_slice::<Document>(alloc, &message.bytes)?;
    ensure!(document == answered, "a `Document` is another value");
    let copied = by_reader::<Document>(alloc, &message.bytes, most)?;
    ensure!(
        copied == answered,
        "a `Document` from a reader is another value"
    );
    ensure!(
        told(alloc, &message.bytes)? == answered,
        "another `Document` is told"
    );
    Ok(answered)
}

/// Reads the message as a type, by its list and by its derive.
fn compare_typed<
    'de,
    T: de::Deserialize<&'de [u8]>
        + de::DeserializeOwned
        + Deserialize<'de>
        + DeserializeOwned
        + Shown,
>(alloc: Global, message: &'de Message, most: usize) -> Result<()> {
    let listed = by_slice::<T>(alloc, &message.bytes)?;
    check_place(message, &listed)?;
    let copied = by_reader::<T>(alloc, &message.bytes, most)?;
    ensure!(
        copied == listed,
        "a list is answered otherwise from a reader"
    );
    let derived = by_derive::<T>(alloc, &message.bytes)?;
    check_place(message, &derived)?;
    let copied = by_derive_from_reader::<T>(alloc, &message.bytes, most)?;
    ensure!(
        copied == derived,
        "a derive is answered otherwise from a reader"
    );
    ensure!(
        is_same(message, &listed, &derived),
        "{listed:?} by a list, {derived:?} by a derive"
    );
    Ok(())
}

/// Checks that the message is not refused at another place than where its fault is.
fn check_place(message: &Message, answered: &Answered) -> Result<()> {
    match (message.expected, answered) {
        (
            Expected::RefusedAt(wanted) | Expected::ReadOrRefusedAt(wanted),
            Answered::Refused { words, place },
        ) => ensure!(
            *place == wanted,
            "{words}, and the fault is at byte {wanted}"
        ),
        _ => {}
    }
    Ok(())
}

/// Whether a list and a derive answer alike. Of several faults each tells one of its own.
fn is_same(message: &Message, listed: &Answered, derived: &Answered) -> bool {
    match (listed, derived) {
        (Answered::Value(value), Answered::Value(other)) => value == other,
        (Answered::Refused { place, .. }, Answered::Refused { place: other, .. }) => {
            place == other || message.fault == Some(Fault::AnyBytes)
        }
        _ => false,
    }
}
