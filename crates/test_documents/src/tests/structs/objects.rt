//! Structs by one list: files, names, numbers, rows and a query.
use super::files::KnownFile;
use super::named::NamedFile;
use super::queries::FileQuery;
use super::rows::LentRow;
use super::{Case, check_lent, check_owned, check_written_again};
use crate::tests::check_written;
use serde_bser::de::ObjectOr;
use std::alloc::Global;
use std::process::Abort;

/// Files, as they are written.
static FILES: [Case<'static>; 2] = [
    // each field but a kind
    (
        b"\x00\x02\0\0\0\0\x03\x2e\x01\x03\x04\x0d\x03\x04name\x02\x03\x01a\
\x0d\x03\x04size\x03\x05\x0d\x03\x08mtime_ms\x03\x07\x0d\x03\x06exists\x08",
        "Ok(KnownFile { name: \"a\", size: 5, mtime_ms: Some(7), exists: Some(true), kind: None })",
    ),
    // a name that is no text, and a time that is null
    (
        b"\x00\x02\0\0\0\0\x03\x2f\x01\x03\x04\x0d\x03\x04name\x02\x03\x01\xff\
\x0d\x03\x04size\x04\x80\x00\x0d\x03\x08mtime_ms\x0a\x0d\x03\x04type\x0d\x03\x01f",
        "Ok(KnownFile { name: \"\\\\xff\", size: 128, mtime_ms: None, exists: None, kind: Some(\"f\") })",
    ),
];

#[test]
fn a_struct_is_read_as_it_is_written_and_what_is_none_is_null_or_left_out(rt: HostRuntime) {
    check_owned::<KnownFile>(&rt, rt.alloc(), &FILES);
    check_written_again::<KnownFile>(&rt, rt.alloc(), &FILES);
}

/// A file, as it is written.
static NAMED_FILES: [Case<'static>; 1] = [(
    b"\x00\x02\0\0\0\0\x03\x21\x01\x03\x03\x0d\x03\x04name\x0d\x03\x01a\
\x0d\x03\x04size\x03\x05\x0d\x03\x06exists\x09",
    "Ok(NamedFile { name: \"a\", size: 5, exists: Some(false) })",
)];

#[test]
fn a_name_is_lent_or_owned(rt: HostRuntime) {
    check_lent::<NamedFile<&str>>(&rt, rt.alloc(), &NAMED_FILES);
    check_owned::<NamedFile<String>>(&rt, rt.alloc(), &NAMED_FILES);
    check_written_again::<NamedFile<&str>>(&rt, rt.alloc(), &NAMED_FILES);
    check_written_again::<NamedFile<String>>(&rt, rt.alloc(), &NAMED_FILES);
}

/// Two rows of a template.
static LENT_ROWS: [Case<'static>; 1] = [(
    b"\x00\x02\0\0\0\0\x03\x32\x0b\x00\x03\x03\x0d\x03\x04name\x0d\x03\x04type\
\x0d\x03\x04tags\x03\x02\x02\x03\x01\xff\x0c\x00\x03\x00\x02\x03\x01b\x0d\x03\x01f\
\x00\x03\x01\x0d\x03\x01t",
    "Ok([LentRow { name: [255], kind: None, tags: [] }, \
LentRow { name: [98], kind: Some(\"f\"), tags: [\"t\"] }])",
)];

#[test]
fn strings_are_lent(rt: HostRuntime) {
    check_lent::<Vec<LentRow>>(&rt, rt.alloc(), &LENT_ROWS);
}

/// A name alone and a file, as they are written.
static NAMES_AND_FILES: [Case<'static>; 1] = [(
    b"\x00\x02\0\0\0\0\x03\x1e\x00\x03\x02\x0d\x03\x01a\
\x01\x03\x02\x0d\x03\x04name\x0d\x03\x01b\x0d\x03\x04size\x03\x05",
    "Ok([Other(\"a\"), Object(NamedFile { name: \"b\", size: 5, exists: None })])",
)];

/// A template of one row.
static ROWS: [Case<'static>; 1] = [(
    b"\x00\x02\0\0\0\0\x03\x1a\x0b\x00\x03\x02\x0d\x03\x04name\x0d\x03\x04size\
\x03\x01\x0d\x03\x01b\x03\x05",
    "Ok([Object(NamedFile { name: \"b\", size: 5, exists: None })])",
)];

/// A file, or a string that is its name.
type Listed<S> = ObjectOr<NamedFile<S>, S>;

#[test]
fn files_are_names_or_objects_or_rows(rt: HostRuntime) {
    for cases in [&NAMES_AND_FILES, &ROWS] {
        check_lent::<Vec<Listed<&str>>>(&rt, rt.alloc(), cases);
        check_owned::<Vec<Listed<String>>>(&rt, rt.alloc(), cases);
    }
    check_written_again::<Vec<Listed<String>>>(&rt, rt.alloc(), &NAMES_AND_FILES);
}

/// Checks that this message is written for a query of the names.
fn check_query(rt: &impl Abort, alloc: Global, since: Option<&str>, bytes: &[u8]) {
    let fields = &["name"];
    check_written(rt, alloc, &FileQuery { fields, since }, bytes);
}

#[test]
fn a_query_is_written(rt: HostRuntime) {
    let bytes = b"\x00\x02\0\0\0\0\x03\x21\x01\x03\x02\x0d\x03\x06fields\x00\x03\x01\
\x0d\x03\x04name\x0d\x03\x05since\x0d\x03\x00";
    check_query(&rt, rt.alloc(), Some(""), bytes);
    let bytes = b"\x00\x02\0\0\0\0\x03\x16\x01\x03\x01\x0d\x03\x06fields\x00\x03\x01\
\x0d\x03\x04name";
    check_query(&rt, rt.alloc(), None, bytes);
}
