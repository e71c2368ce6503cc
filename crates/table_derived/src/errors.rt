//! Messages that are refused, with how each has to be described.
use anyhow::Result;
use bser_serde::{ReadError, from_reader, from_slice};
use bser_vectors::answers::FilesAnswer;
use bser_vectors::counts::CaseCounts;
use bser_vectors::devices::{Plan, PlannedReader};
use bser_vectors::enums::TestEnum;
use bser_vectors::refused::RefusedMessage;
use serde::{Deserialize, DeserializeOwned};
use serde_bser::device::Watched;
use std::alloc::Global;
use std::fs;

/// Reads each message of the list, prints how it is refused, and how many are refused otherwise.
pub fn compare_all(rt: &HostRuntime, file: &str) -> Result<()> {
    let text = fs::read_to_string(rt, file)?;
    let mut counts = CaseCounts::default();
    for line in text.as_str().lines().skip(1) {
        counts.count(compare(rt, &RefusedMessage::parse(rt.alloc(), line)?)?);
    }
    println!(rt;
        "{} messages of {file}, {} refused otherwise",
        counts.cases, counts.wrong
    )?;
    Ok(())
}

/// Prints how the message is refused as its type, and answers whether it is so as it has to be. What
/// is no message is none of an answer either.
fn compare(rt: &HostRuntime, case: &RefusedMessage<'_>) -> Result<bool> {
    match case.kind {
        "i8" => compare_as::<i8>(rt, case, &case.message),
        "String" => compare_as::<String>(rt, case, &case.message),
        "char" => compare_as::<char>(rt, case, &case.message),
        "tup2" => compare_as::<(i64, i64)>(rt, case, &case.message),
        "vec_TestEnum" => compare_as::<Vec<TestEnum<String>>>(rt, case, &case.message),
        _ => compare_as::<FilesAnswer>(rt, case, &case.message),
    }
}

/// The same as this type, from a slice and from a reader.
fn compare_as<'de, T: Deserialize<'de> + DeserializeOwned>(
    rt: &HostRuntime,
    case: &RefusedMessage<'_>,
    message: &'de [u8],
) -> Result<bool> {
    let alloc = rt.alloc();
    let Err(refusal) = from_slice::<T>(alloc, message) else {
        println!(rt; "{}: accepted", case.name)?;
        return Ok(false);
    };
    let text = refusal.to_string(alloc)?;
    println!(rt; "{}: {text}", case.name)?;
    let is_right = is_described(alloc, case, text.as_str(), &refusal)?;
    let mut reader = Watched::new(PlannedReader::new(message, Plan::pieces(7)));
    Ok(match from_reader::<_, T>(alloc, &mut reader) {
        Ok(_value) => false,
        Err(ReadError::Ended) => is_right && message.is_empty(),
        Err(other) => is_right && other.to_string(alloc)? == text,
    })
}

/// Whether the refusal, which has this description, has the words and a place that it may, and of a
/// misfit the path, with the field in it.
fn is_described(
    alloc: Global,
    case: &RefusedMessage<'_>,
    text: &str,
    refusal: &ReadError,
) -> Result<bool> {
    Ok(match refusal {
        ReadError::Malformed(description) => case.is_described(text, description.place()),
        ReadError::Misfit(misfit) => {
            let path = misfit.path.to_string(alloc)?;
            case.is_described(text, misfit.place)
                && path.as_str() == case.path
                && (case.field == "-" || path.as_str().contains(case.field))
        }
        _ => false,
    })
}
