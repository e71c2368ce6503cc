//! The request whose answer an index takes next.

use crate::expression::expression_of;
use bser_ser::message::serialize_to;
use bser_source::device::Watched;
use bser_value::value::Value;
use serde_bser::bytestring::ByteString;
use std::alloc::{AllocError, Global};
use std::collections::BTreeMap;
use std::io::Write;
use watchman_sqlite::error::IndexError;
use watchman_sqlite::subject::Subject;

/// The name of a subscription where no other is asked for.
const SUBSCRIPTION: &str = "bser_index";

/// What is asked for.
#[derive(Debug, Clone, Copy, PartialEq, Eq)]
pub enum Asked<'a> {
    /// A query.
    Query,
    /// A subscription. It has this name, or else that of the messages that were added.
    Subscription(Option<&'a str>),
}

/// How a request is printed.
#[derive(Debug, Clone, Copy, PartialEq, Eq)]
pub enum RequestForm {
    /// A line of JSON.
    Json,
    /// A message of BSER.
    Bser,
}

/// A request for what changed since a clock. Without a clock it asks for all files.
pub fn request_of(
    alloc: Global,
    subject: &Subject,
    asked: Asked<'_>,
    subscribed: &Option<ByteString>,
    since: Option<ByteString>,
) -> Result<Value, IndexError> {
    let options = options_of(alloc, subject, since)?;
    let mut items = Vec::new(alloc);
    items.push(Value::from_text(alloc, command_of(asked))?)?;
    items.push(Value::ByteString(subject.root.clone()?))?;
    if let Asked::Subscription(name) = asked {
        items.push(subscription_of(alloc, name, subscribed)?)?;
    }
    items.push(Value::Object(options))?;
    Ok(Value::Array(items))
}

/// The server's command.
fn command_of(asked: Asked<'_>) -> &'static str {
    match asked {
        Asked::Query => "query",
        Asked::Subscription(_) => "subscribe",
    }
}

/// The name of the subscription: the one that is asked for, which has to be that of the messages
/// that were added.
fn subscription_of(
    alloc: Global,
    name: Option<&str>,
    subscribed: &Option<ByteString>,
) -> Result<Value, IndexError> {
    match (name, subscribed) {
        (Some(name), Some(other)) if name.as_bytes() != other.as_bytes() => {
            Err(IndexError::Subscribed(other.clone()?))
        }
        (_, Some(other)) => Ok(Value::ByteString(other.clone()?)),
        (Some(name), None) => Ok(Value::from_text(alloc, name)?),
        (None, None) => Ok(Value::from_text(alloc, SUBSCRIPTION)?),
    }
}

/// Which files are asked for, and which fields of them.
fn options_of(
    alloc: Global,
    subject: &Subject,
    since: Option<ByteString>,
) -> Result<BTreeMap<String, Value>, IndexError> {
    let mut options = BTreeMap::new(alloc);
    if let Some(text) = &subject.expression {
        let expression = expression_of(alloc, text.as_str())?;
        options.insert(String::from_str(alloc, "expression")?, expression)?;
    }
    let fields = fields_of(alloc, subject)?;
    options.insert(String::from_str(alloc, "fields")?, fields)?;
    if let Some(path) = &subject.relative_root {
        let path = Value::ByteString(path.clone()?);
        options.insert(String::from_str(alloc, "relative_root")?, path)?;
    }
    if let Some(clock) = since {
        options.insert(String::from_str(alloc, "since")?, Value::ByteString(clock))?;
    }
    Ok(options)
}

/// The fields that are asked for.
fn fields_of(alloc: Global, subject: &Subject) -> Result<Value, AllocError> {
    let mut words = Vec::new(alloc);
    for field in &subject.fields {
        words.push(Value::from_text(alloc, field.word())?)?;
    }
    Ok(Value::Array(words))
}

/// Prints a request.
pub fn print_request<W: Write>(
    alloc: Global,
    form: RequestForm,
    request: &Value,
    out: &mut W,
) -> Result<(), IndexError> {
    match form {
        RequestForm::Bser => match serialize_to(alloc, &mut Watched::new(out), request) {
            Ok(()) => Ok(()),
            Err(error) => Err(IndexError::Unwritten(error)),
        },
        RequestForm::Json => {
            writeln!(out, "{request}")?;
            Ok(())
        }
    }
}
