//! Texts in the notation, put together.
use std::alloc::{AllocError, Global};

/// A text that is put together piece by piece. Where memory is refused for a piece, the end is an
/// error.
#[derive(Drop)]
pub struct NotationWriter {
    pub(crate) alloc: Global,
    text: String,
    done: Result<(), AllocError>,
}

impl NotationWriter {
    /// An empty text.
    pub fn new(alloc: Global) -> Self {
        NotationWriter {
            alloc,
            text: String::new(alloc),
            done: Ok(()),
        }
    }

    /// Keeps the refusal for the end.
    pub fn refuse(&mut self, error: AllocError) {
        self.done = Err(error);
    }

    /// Puts a piece behind the text.
    pub fn put(&mut self, piece: &str) {
        if self.done.is_ok() {
            self.done = self.text.push_str(piece);
        }
    }

    /// Puts the mark that closes a list, in the place of the comma behind its last item.
    pub fn close(&mut self, mark: &str) {
        if self.text.as_str().ends_with(',') {
            self.text.pop();
        }
        self.put(mark);
    }

    /// Puts a number in decimal.
    pub fn put_number(&mut self, number: i128) {
        if self.done.is_ok() {
            self.done = write!(self.text, "{number}");
        }
    }

    /// Puts the bytes in hexadecimal digits.
    pub fn put_bytes(&mut self, bytes: &[u8]) {
        match hex::encode(self.alloc, bytes) {
            Ok(digits) => self.put(digits.as_str()),
            Err(error) => self.refuse(error),
        }
    }

    /// The whole text. Refused only for want of memory.
    pub fn end(self) -> Result<String, AllocError> {
        self.done?;
        Ok(self.text)
    }
}
