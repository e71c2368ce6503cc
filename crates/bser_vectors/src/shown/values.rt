//! Any value, in the notation of [`crate::notation`].
use crate::notation::writer::NotationWriter;
use crate::shown::Shown;
use bser_value::value::Value;
use serde_bser::document::Document;

impl Shown for Value {
    fn put(&self, text: &mut NotationWriter) {
        put_value(text, self);
    }
}

/// As the value that the document holds.
impl Shown for Document {
    fn put(&self, text: &mut NotationWriter) {
        match self.to_value(text.alloc) {
            Ok(value) => put_value(text, &value),
            Err(error) => text.refuse(error),
        }
    }
}

/// Puts the notation of the value behind the text. It calls itself once for each level.
fn put_value(text: &mut NotationWriter, value: &Value) {
    match value {
        Value::Null => text.put("n"),
        Value::Bool(true) => text.put("t"),
        Value::Bool(false) => text.put("f"),
        Value::Integer(number) => {
            text.put("i");
            text.put_number(i128::from(*number));
        }
        Value::Real(bits) => put_digits(text, "r", &bits.to_be_bytes()),
        Value::ByteString(bytes) => put_digits(text, "b", bytes.as_bytes()),
        Value::Utf8String(string) => put_digits(text, "s", string.as_bytes()),
        Value::Array(items) => {
            text.put("[");
            for item in items {
                put_value(text, item);
                text.put(",");
            }
            text.close("]");
        }
        Value::Object(entries) => {
            text.put("{");
            for (key, value) in entries.iter() {
                text.put_bytes(key.as_bytes());
                text.put(":");
                put_value(text, value);
                text.put(",");
            }
            text.close("}");
        }
    }
}

/// A mark, and the bytes in hexadecimal digits.
fn put_digits(text: &mut NotationWriter, mark: &str, bytes: &[u8]) {
    text.put(mark);
    text.put_bytes(bytes);
}
