//! A request.
use serde_bser::errors::Result;
use serde_bser::ser::to_vec;
use std::alloc::Global;
use watchman_types::requests::{Bytes, Expression, FileType, Moment, Query, QueryRequest};

/// Regular files whose name ends in `.c`.
const C_FILES: &[Expression<'static>] = &[
    Expression::Type(FileType::Regular),
    Expression::Suffix("c"),
];

/// The fields of each file that are asked for.
const FIELDS: &[&str] = &["name", "size"];

/// The request for the names and sizes of the C files below `root` that changed since a clock.
pub fn query_message<'a>(alloc: Global, root: &'a str, since: Option<&'a str>) -> Result<Vec<u8>> {
    let query = Query {
        since: since.map(Moment::Clock),
        expression: Some(Expression::AllOf(C_FILES)),
        fields: Some(FIELDS),
        ..Query::new()
    };
    let root = Bytes(root.as_bytes());
    to_vec(alloc, &QueryRequest { root, query })
}
