//! Strings and characters, by their bytes.
use crate::notation::writer::NotationWriter;
use crate::shown::Shown;
use bser_format::bytestring::ByteString;
use std::borrow::CowStr;

impl Shown for char {
    fn put(&self, text: &mut NotationWriter) {
        let mut letter = [0; 4];
        put_bytes(text, self.encode_utf8(&mut letter).as_bytes());
    }
}

impl Shown for String {
    fn put(&self, text: &mut NotationWriter) {
        put_bytes(text, self.as_bytes());
    }
}

impl Shown for ByteString {
    fn put(&self, text: &mut NotationWriter) {
        put_bytes(text, self.as_bytes());
    }
}

impl<'a> Shown for &'a str {
    fn put(&self, text: &mut NotationWriter) {
        put_bytes(text, self.as_bytes());
    }
}

impl<'a> Shown for CowStr<'a> {
    fn put(&self, text: &mut NotationWriter) {
        put_bytes(text, self.as_str().as_bytes());
    }
}

impl<'a> Shown for &'a [u8] {
    fn put(&self, text: &mut NotationWriter) {
        put_bytes(text, self);
    }
}

/// `x`, and the bytes in hexadecimal digits.
fn put_bytes(text: &mut NotationWriter, bytes: &[u8]) {
    text.put("x");
    text.put_bytes(bytes);
}
