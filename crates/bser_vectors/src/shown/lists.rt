//! Lists, arrays of a fixed length, queues and sets.
use crate::notation::writer::NotationWriter;
use crate::shown::Shown;
use std::collections::{BTreeSet, VecDeque};

impl<T: Shown> Shown for Vec<T> {
    fn put(&self, text: &mut NotationWriter) {
        put_items(text, self.as_slice());
    }
}

impl<T: Shown, const N: usize> Shown for [T; N] {
    fn put(&self, text: &mut NotationWriter) {
        put_items(text, self.as_slice());
    }
}

/// `[`, the items with commas between them, and `]`.
fn put_items<T: Shown>(text: &mut NotationWriter, items: &[T]) {
    text.put("[");
    for item in items.iter() {
        item.put(text);
        text.put(",");
    }
    text.close("]");
}

impl<T: Shown> Shown for VecDeque<T> {
    fn put(&self, text: &mut NotationWriter) {
        text.put("[");
        for item in self.iter() {
            item.put(text);
            text.put(",");
        }
        text.close("]");
    }
}

impl<T: Shown + Ord> Shown for BTreeSet<T> {
    fn put(&self, text: &mut NotationWriter) {
        text.put("[");
        for item in self.iter() {
            item.put(text);
            text.put(",");
        }
        text.close("]");
    }
}
