//! Values from their notation.
use crate::notation::NotationError;
use bser_format::bytestring::ByteString;
use bser_value::value::Value;
use std::alloc::Global;
use std::collections::BTreeMap;

/// The value that the text spells. Its notation may be another text.
pub fn spelled_value(alloc: Global, text: &str) -> Result<Value, NotationError> {
    let mut parser = ValueParser {
        alloc,
        open: Vec::new(alloc),
        word: String::new(alloc),
        whole: None,
    };
    for letter in text.chars() {
        parser.take(letter)?;
    }
    parser.end()
}

/// What was read: the containers that are open, the word so far, and the value when it is whole.
#[derive(Drop)]
struct ValueParser {
    alloc: Global,
    open: Vec<OpenContainer>,
    word: String,
    whole: Option<Value>,
}

/// A container that is open.
#[derive(Drop)]
enum OpenContainer {
    Array(Vec<Value>),
    Object(OpenObject),
}

/// The entries of an object that is open, and the key whose value comes next.
#[derive(Drop)]
struct OpenObject {
    entries: BTreeMap<String, Value>,
    due: Option<String>,
}

impl OpenObject {
    fn add(&mut self, value: Value) -> Result<(), NotationError> {
        let key = self.due.take().ok_or(NotationError::Malformed)?;
        drop(self.entries.insert(key, value)?);
        Ok(())
    }
}

impl ValueParser {
    fn take(&mut self, letter: char) -> Result<(), NotationError> {
        match letter {
            '[' => self.open.push(OpenContainer::Array(Vec::new(self.alloc)))?,
            '{' => self.open.push(OpenContainer::Object(OpenObject {
                entries: BTreeMap::new(self.alloc),
                due: None,
            }))?,
            ':' => self.take_key()?,
            ',' => self.take_word()?,
            ']' | '}' => {
                self.take_word()?;
                self.close()?;
            }
            other => self.word.push(other)?,
        }
        Ok(())
    }

    /// Takes the word as the key of the innermost object.
    fn take_key(&mut self) -> Result<(), NotationError> {
        let key = text(self.alloc, self.word.as_str())?;
        self.word.clear();
        match self.open.last_mut() {
            Some(OpenContainer::Object(object)) => {
                object.due = Some(key);
                Ok(())
            }
            _ => Err(NotationError::Malformed),
        }
    }

    /// Takes the word, where there is one, as a scalar.
    fn take_word(&mut self) -> Result<(), NotationError> {
        if self.word.is_empty() {
            return Ok(());
        }
        let value = scalar(self.alloc, self.word.as_str())?;
        self.word.clear();
        self.add(value)
    }

    /// Closes the innermost container.
    fn close(&mut self) -> Result<(), NotationError> {
        match self.open.pop() {
            Some(OpenContainer::Array(items)) => self.add(Value::Array(items)),
            Some(OpenContainer::Object(OpenObject { entries, due: None })) => {
                self.add(Value::Object(entries))
            }
            _ => Err(NotationError::Malformed),
        }
    }

    /// Puts a value into the innermost container, or as the whole.
    fn add(&mut self, value: Value) -> Result<(), NotationError> {
        match self.open.last_mut() {
            Some(OpenContainer::Array(items)) => items.push(value)?,
            Some(OpenContainer::Object(object)) => object.add(value)?,
            None => {
                if self.whole.is_some() {
                    return Err(NotationError::Malformed);
                }
                self.whole = Some(value);
            }
        }
        Ok(())
    }

    /// The whole, where nothing is open.
    fn end(mut self) -> Result<Value, NotationError> {
        self.take_word()?;
        if !self.open.is_empty() {
            return Err(NotationError::Malformed);
        }
        self.whole.take().ok_or(NotationError::Malformed)
    }
}

fn scalar(alloc: Global, word: &str) -> Result<Value, NotationError> {
    match word {
        "n" => return Ok(Value::Null),
        "t" => return Ok(Value::Bool(true)),
        "f" => return Ok(Value::Bool(false)),
        _ => {}
    }
    if let Some(digits) = word.strip_prefix('i') {
        let number = digits.parse::<i64>().ok();
        return number.map(Value::Integer).ok_or(NotationError::Malformed);
    }
    if let Some(digits) = word.strip_prefix('r') {
        let bits = u64::from_str_radix(digits, 16).ok();
        return bits.map(Value::Real).ok_or(NotationError::Malformed);
    }
    if let Some(digits) = word.strip_prefix('b') {
        return Ok(Value::ByteString(ByteString::from_vec(hex::decode(alloc, digits)?)));
    }
    match word.strip_prefix('s') {
        Some(digits) => Ok(Value::Utf8String(text(alloc, digits)?)),
        None => Err(NotationError::Malformed),
    }
}

/// The text of these hexadecimal digits.
fn text(alloc: Global, digits: &str) -> Result<String, NotationError> {
    String::from_utf8(hex::decode(alloc, digits)?)
        .ok()
        .ok_or(NotationError::Malformed)
}
