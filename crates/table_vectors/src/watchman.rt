//! Recorded answers of a Watchman server: how many files each holds, as the manifest of the folder
//! `watchman` says.
ghost use Rattle.std.specs.Prelude.{codes, [], ◌∷◌};
ghost use Rattle.bser_structs.specs.Fields.{required, struct_meaning};

use anyhow::{Context, Result};
use serde_bser::de::read::LendsFrom;
use serde_bser::de::{Answer, Deserializer};
use serde_bser::from_slice;
use serde_bser::prelude::*;
use serde_json::Value;
use std::alloc::Global;
use std::fs;

/// The name of a file, of which all else is passed over.
#[derive(Drop)]
pub struct FileName<'a> {
    pub name: &'a [u8],
}

impl<'a> Fields for FileName<'a> {
    ghost fields = { required (codes "name") (λ v. v.name) ⟦<&'a [u8] as ReadOnly>⟧.coding ∷ [] };
}

impl<'a> Meant for FileName<'a> {
    ghost meaning = { struct_meaning ⟦<FileName<'a> as Fields>⟧.fields };
}

impl<'a, L: LendsFrom<'a>> Deserialize<L> for FileName<'a> {
    fn deserialize<R: DeRead<Lent = L>>(alloc: Global, from: &mut Deserializer<R>) -> Answer<Self> {
        read_struct! { alloc, from, FileName { name: Required("name") } }
    }
}

/// The files of an answer, by their names.
#[derive(Drop)]
pub struct FileNames<'a> {
    pub files: Vec<FileName<'a>>,
}

impl<'a> Fields for FileNames<'a> {
    ghost fields = { required (codes "files") (λ v. v.files) ⟦<Vec<FileName<'a>> as ReadOnly>⟧.coding
        ∷ [] };
}

impl<'a> Meant for FileNames<'a> {
    ghost meaning = { struct_meaning ⟦<FileNames<'a> as Fields>⟧.fields };
}

impl<'a, L: LendsFrom<'a>> Deserialize<L> for FileNames<'a> {
    fn deserialize<R: DeRead<Lent = L>>(alloc: Global, from: &mut Deserializer<R>) -> Answer<Self> {
        read_struct! { alloc, from, FileNames { files: Required("files") } }
    }
}

/// The keys of the first template of a message of the manifest.
fn template_keys(entry: &Value) -> Option<&[Value]> {
    entry
        .pointer("/templates/0/keys")
        .and_then(Value::as_array)
        .map(|keys| keys.as_slice())
}

/// Reads the recorded answers that hold files, in a template with their names.
pub fn compare_files(rt: &HostRuntime) -> Result<()> {
    let manifest = fs::read_to_string(rt, "watchman/manifest.jsonl")?;
    for line in manifest.as_str().lines() {
        let entry = Value::from_str(rt.alloc(), line)?;
        let keys = template_keys(&entry).unwrap_or(&[]);
        if keys.iter().any(|key| key.as_str() == Some("name")) {
            compare_answer(rt, &entry)?;
        }
    }
    Ok(())
}

/// Reads the recorded answer, whose names are lent from it, and compares how many files there are.
fn compare_answer(rt: &HostRuntime, entry: &Value) -> Result<()> {
    let file = entry.get("file").and_then(Value::as_str);
    let file = format!(in rt.alloc(); "watchman/{}", file.context("no file")?)?;
    let rows = entry.pointer("/templates/0/rows").and_then(Value::as_u64);
    let message = fs::read(rt, file.as_str())?;
    let files = from_slice::<FileNames<'_>>(rt.alloc(), &message)?
        .files
        .len() as u64;
    match rows {
        Some(rows) if rows == files => println!(rt; "{file}: {files} files")?,
        _ => println!(rt; "{file}: {files} files in the place of {rows:?}")?,
    }
    Ok(())
}
