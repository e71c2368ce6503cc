//! Which files an index asks for.

use bser_from_json::reading::{Strings, value_of};
use bser_value::value::Value;
use std::alloc::Global;
use watchman_sqlite::error::IndexError;

/// The terms that look at more than the name of a file.
const BEYOND_NAMES: [&str; 5] = ["empty", "exists", "since", "size", "type"];

/// The terms whose operands are expressions.
const OPERATORS: [&str; 3] = ["allof", "anyof", "not"];

/// The expression that a text of JSON says.
pub fn expression_of(alloc: Global, text: &str) -> Result<Value, IndexError> {
    match value_of(alloc, Strings::Texts, text, text, 0) {
        Ok(Value::Array(terms)) => Ok(Value::Array(terms)),
        Ok(Value::Utf8String(word)) => Ok(Value::Utf8String(word)),
        Ok(_) => Err(IndexError::NoExpression),
        Err(error) => Err(IndexError::Expression(error)),
    }
}

/// Fails where a term of the expression looks at more than the name of a file. Of a file that no
/// longer matches such a term the server tells nothing.
pub fn check_terms(alloc: Global, expression: &Value) -> Result<(), IndexError> {
    let mut left = Vec::new(alloc);
    left.push(expression)?;
    for _ in 0..u64::MAX {
        let Some(term) = left.pop() else {
            break;
        };
        let (word, operands) = parts_of(term);
        if let Some(term) = BEYOND_NAMES.iter().find(|known| **known == word) {
            return Err(IndexError::BeyondNames(*term));
        }
        if OPERATORS.contains(&word) {
            for operand in operands {
                left.push(operand)?;
            }
        }
    }
    Ok(())
}

/// The word of a term, and what stands behind it. The word is empty where there is none.
fn parts_of(term: &Value) -> (&str, &[Value]) {
    match term {
        Value::Utf8String(word) => (word.as_str(), &[]),
        Value::Array(parts) => match parts.as_slice() {
            [Value::Utf8String(word), operands @ ..] => (word.as_str(), operands),
            _ => ("", &[]),
        },
        _ => ("", &[]),
    }
}
