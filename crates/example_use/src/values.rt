//! Any message, as a `Value`.
use serde_bser::value::Value;

/// The bytes in all files of an answer. A sum above the greatest `i64` stays there.
pub fn total_size(answer: &Value) -> i64 {
    let mut total: i64 = 0;
    if let Some(files) = answer.get("files").and_then(Value::as_array) {
        for file in files {
            let size = file.get("size").and_then(Value::as_i64);
            total = total.saturating_add(size.unwrap_or(0));
        }
    }
    total
}
