//! Types of each form that derives have.
use bser_serde::{ByteBuf, Bytes};
use serde::{Described, Deserialize, Serialize, Serializer};
use std::collections::BTreeMap;

/// An enum with a variant of each form.
#[derive(Debug, PartialEq, Drop, Serialize, Deserialize)]
#[serde(rename_all = "camelCase")]
pub enum EntryKind {
    RegularFile,
    SymbolicLink(String),
    #[serde(rename = "d")]
    Folder { depth: u8, root: Option<String> },
    Pair(i64, bool),
}

/// A field that may be absent.
#[derive(Debug, PartialEq, Drop, Serialize, Deserialize)]
pub struct BuildVersion {
    pub version: String,
    #[serde(default)]
    pub build: u32,
}

/// The fields of another struct among its own.
#[derive(Debug, PartialEq, Drop, Serialize, Deserialize)]
pub struct Flat {
    pub clock: String,
    #[serde(flatten)]
    pub version: BuildVersion,
    pub is_fresh_instance: bool,
}

/// An enum whose variants differ by their contents alone.
#[derive(Debug, PartialEq, Drop, Serialize, Deserialize)]
#[serde(untagged)]
pub enum NameOrFile {
    Name(String),
    File { name: String, size: u64 },
    Number(i64),
}

/// An enum whose variant is named by a field.
#[derive(Debug, PartialEq, Drop, Serialize, Deserialize)]
#[serde(tag = "op")]
pub enum Term {
    All { terms: Vec<String> },
    Not,
}

/// An enum whose variant and payload are two fields.
#[derive(Debug, PartialEq, Drop, Serialize, Deserialize)]
#[serde(tag = "kind", content = "of")]
pub enum Figure {
    Dot,
    Line(i64),
    Box { width: i64 },
}

/// A struct that takes no other field.
#[derive(Debug, PartialEq, Drop, Serialize, Deserialize)]
#[serde(deny_unknown_fields)]
pub struct Strict {
    pub clock: String,
}

/// A row whose text is borrowed.
#[derive(Debug, PartialEq, Drop, Deserialize)]
pub struct Person<'a> {
    pub name: Option<&'a str>,
    pub age: u8,
}

/// A file whose name is owned, and need not be UTF-8.
#[derive(Debug, PartialEq, Drop, Serialize, Deserialize)]
pub struct ByteFile {
    pub name: ByteBuf,
    pub size: u64,
    #[serde(skip_serializing_if = "Option::is_none")]
    pub mtime_ms: Option<i64>,
    #[serde(rename = "type", skip_serializing_if = "Option::is_none")]
    pub kind: Option<String>,
}

/// A file that is borrowed.
#[derive(Debug, PartialEq, Drop, Serialize, Deserialize)]
pub struct FileRef<'a> {
    pub name: Bytes<'a>,
    pub size: u64,
}

/// Files.
#[derive(Debug, PartialEq, Drop, Serialize, Deserialize)]
pub struct ByteFiles {
    pub files: Vec<ByteFile>,
}

/// Numbers by name, a truth value that may be absent, a pair and nothing.
#[derive(Debug, PartialEq, Drop, Serialize, Deserialize)]
pub struct Scores {
    pub by_name: BTreeMap<String, f64>,
    pub is_exact: Option<bool>,
    pub pair: (i8, char),
    pub nothing: (),
}

/// Null in arrays, one in another, each of which announces so many items and has one.
#[derive(Drop)]
pub struct NestedNull {
    pub announced: usize,
    pub levels: usize,
}

impl Described for NestedNull {}

impl Serialize for NestedNull {
    fn serialize<S: Serializer>(&self, out: &mut S) -> Result<(), S::Error> {
        for _ in 0..self.levels {
            out.begin_seq(Some(self.announced))?;
        }
        out.unit()?;
        for _ in 0..self.levels {
            out.end_seq()?;
        }
        Ok(())
    }
}
