//! Messages that are read as structs and enums.
use crate::ways::{Answered, by_reader, by_slice, is_returned, refused_by_ignored};
use anyhow::{Result, bail};
use bser_vectors::columns::columns;
use bser_vectors::enums::{EnumRow, TestEnum};
use bser_vectors::shown::Shown;
use bser_vectors::structs::{Files, TemplateRow};
use serde::{Deserialize, DeserializeOwned, Serialize};
use std::alloc::Global;
use std::fs;

/// What a line says.
#[derive(Clone, Copy)]
struct ExpectedAnswer<'a> {
    is_accepted: bool,
    answer: &'a str,
}

/// Reads each message of a list as its type, prints how many agree, and those that do not.
pub fn compare_all(rt: &HostRuntime, file: &str) -> Result<()> {
    let text = fs::read_to_string(rt, file)?;
    let (mut lines, mut values, mut misfits, mut malformed, mut others) = (
        0u64, 0u64, 0u64, 0u64, 0u64,
    );
    for line in text.as_str().lines() {
        lines = lines.saturating_add(1);
        let [kind, message, verdict, answer, _taken, ..] = columns(line, "\t");
        let message = hex::decode(rt.alloc(), message)?;
        let expected = ExpectedAnswer {
            is_accepted: verdict == "ok",
            answer,
        };
        let compared = compare_as(rt.alloc(), kind, &message, expected)?;
        match &compared {
            Agreement::Same(Answered::Value(_)) => values = values.saturating_add(1),
            Agreement::Same(Answered::Misfit(_)) => misfits = misfits.saturating_add(1),
            Agreement::Same(Answered::Malformed(_)) => malformed = malformed.saturating_add(1),
            Agreement::Other(answered) => {
                others = others.saturating_add(1);
                println!(rt; "line {lines}, {kind}: {answered}, and not {answer}")?;
            }
        }
    }
    println!(rt;
        "{lines} lines of {file}\n{values} messages read as the same value, and read back\n\
         {misfits} well-formed messages refused by both\n\
         {malformed} malformed messages refused as when they are passed over\n\
         {others} messages answered otherwise"
    )?;
    Ok(())
}

/// Whether a message was answered as its line says.
#[derive(Drop)]
enum Agreement {
    Same(Answered),
    Other(String),
}

/// Compares the message as the type of this name.
fn compare_as(
    alloc: Global,
    kind: &str,
    message: &[u8],
    expected: ExpectedAnswer<'_>,
) -> Result<Agreement> {
    match kind {
        "TestEnum" => compare::<TestEnum<String>>(alloc, message, expected),
        "opt_TestEnum" => compare::<Option<TestEnum<String>>>(alloc, message, expected),
        "vec_TestEnum" => compare::<Vec<TestEnum<String>>>(alloc, message, expected),
        "vec_EnumRow" => compare::<Vec<EnumRow<String>>>(alloc, message, expected),
        "TemplateRow" => compare::<TemplateRow<String>>(alloc, message, expected),
        "vec_TemplateRow" => compare::<Vec<TemplateRow<String>>>(alloc, message, expected),
        "vec_opt_TemplateRow" => compare::<Vec<Option<TemplateRow<String>>>>(
            alloc, message, expected,
        ),
        "Files" => compare::<Files<String>>(alloc, message, expected),
        _ => bail!("no such type"),
    }
}

/// Compares the message as a type.
fn compare<'de, T: Deserialize<'de> + DeserializeOwned + Serialize + Shown>(
    alloc: Global,
    message: &'de [u8],
    expected: ExpectedAnswer<'_>,
) -> Result<Agreement> {
    let answered = by_slice::<T>(alloc, message)?;
    if by_reader::<T>(alloc, message)? != answered {
        return Ok(Agreement::Other(format!(in alloc; "another answer from a reader")?));
    }
    if !is_returned::<T>(alloc, message)? {
        return Ok(Agreement::Other(format!(in alloc; "another value read back")?));
    }
    let ignored = refused_by_ignored(alloc, message)?;
    let is_same = match &answered {
        Answered::Value(text) => expected.is_accepted && text.as_str() == expected.answer,
        Answered::Misfit(_) => !expected.is_accepted && ignored.is_none(),
        Answered::Malformed(text) => !expected.is_accepted && ignored.as_ref() == Some(text),
    };
    if is_same {
        return Ok(Agreement::Same(answered));
    }
    Ok(Agreement::Other(match answered {
        Answered::Value(text) | Answered::Misfit(text) | Answered::Malformed(text) => text,
    }))
}
