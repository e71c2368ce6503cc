//! Truth values, integers, `()`, and what is ignored.
use crate::notation::writer::NotationWriter;
use crate::shown::Shown;
use bser_types::impls::Ignored;

impl Shown for bool {
    fn put(&self, text: &mut NotationWriter) {
        text.put(if *self { "t" } else { "f" });
    }
}

impl Shown for i8 {
    fn put(&self, text: &mut NotationWriter) {
        put_integer(text, i128::from(*self));
    }
}

impl Shown for i64 {
    fn put(&self, text: &mut NotationWriter) {
        put_integer(text, i128::from(*self));
    }
}

impl Shown for isize {
    fn put(&self, text: &mut NotationWriter) {
        put_integer(text, *self as i128);
    }
}

impl Shown for u8 {
    fn put(&self, text: &mut NotationWriter) {
        put_integer(text, i128::from(*self));
    }
}

impl Shown for u64 {
    fn put(&self, text: &mut NotationWriter) {
        put_integer(text, i128::from(*self));
    }
}

/// `i` and the number in decimal.
pub fn put_integer(text: &mut NotationWriter, number: i128) {
    text.put("i");
    text.put_number(number);
}

impl Shown for () {
    fn put(&self, text: &mut NotationWriter) {
        text.put("u");
    }
}

impl Shown for Ignored {
    fn put(&self, text: &mut NotationWriter) {
        text.put("_");
    }
}
