//! Values that may be missing, boxes, tuples and maps.
use crate::notation::writer::NotationWriter;
use crate::shown::Shown;
use std::collections::{BTreeMap, HashMap};
use std::hash::Hash;

impl<A: Shown> Shown for (A,) {
    fn put(&self, text: &mut NotationWriter) {
        text.put("(");
        self.0.put(text);
        text.put(")");
    }
}

impl<A: Shown, B: Shown> Shown for (A, B) {
    fn put(&self, text: &mut NotationWriter) {
        text.put("(");
        self.0.put(text);
        text.put(",");
        self.1.put(text);
        text.put(")");
    }
}

impl<A: Shown, B: Shown, C: Shown> Shown for (A, B, C) {
    fn put(&self, text: &mut NotationWriter) {
        text.put("(");
        self.0.put(text);
        text.put(",");
        self.1.put(text);
        text.put(",");
        self.2.put(text);
        text.put(")");
    }
}

impl<A: Shown, B: Shown, C: Shown, D: Shown> Shown for (A, B, C, D) {
    fn put(&self, text: &mut NotationWriter) {
        text.put("(");
        self.0.put(text);
        text.put(",");
        self.1.put(text);
        text.put(",");
        self.2.put(text);
        text.put(",");
        self.3.put(text);
        text.put(")");
    }
}

impl<T: Shown> Shown for Option<T> {
    fn put(&self, text: &mut NotationWriter) {
        match self {
            None => text.put("-"),
            Some(value) => {
                text.put("+");
                value.put(text);
            }
        }
    }
}

impl<T: Shown> Shown for Box<T> {
    fn put(&self, text: &mut NotationWriter) {
        Shown::put(&**self, text);
    }
}

impl<K: Shown + Ord, V: Shown> Shown for BTreeMap<K, V> {
    fn put(&self, text: &mut NotationWriter) {
        text.put("{");
        for (key, value) in self.iter() {
            key.put(text);
            text.put("=");
            value.put(text);
            text.put(",");
        }
        text.close("}");
    }
}

impl<K: Shown + Eq + Hash, V: Shown> Shown for HashMap<K, V> {
    fn put(&self, text: &mut NotationWriter) {
        text.put("{");
        for (key, value) in self.iter() {
            key.put(text);
            text.put("=");
            value.put(text);
            text.put(",");
        }
        text.close("}");
    }
}
