//! Any value.
use crate::random::body::{Body, Sort};
use crate::random::drawing::Drawing;
use crate::random::samples::{BYTES, INTEGERS, KEYS, REALS, TEXTS};
use anyhow::Result;
use serde_bser::header::{
    BSER_ARRAY, BSER_BYTESTRING, BSER_FALSE, BSER_INT8, BSER_INT16, BSER_INT32, BSER_INT64,
    BSER_NULL, BSER_OBJECT, BSER_REAL, BSER_SKIP, BSER_TEMPLATE, BSER_TRUE, BSER_UTF8STRING,
};
use std::alloc::Global;

/// How many parts a value is at most made of.
const MOST_PARTS: usize = 4000;

/// The widths of integers: mostly the least one.
const WIDTHS: [u8; 7] = [
    BSER_INT8, BSER_INT8, BSER_INT8, BSER_INT8, BSER_INT16, BSER_INT32, BSER_INT64,
];

/// What a value is made up to.
#[derive(Clone, Copy)]
pub enum Extent {
    /// At most so many containers of a few parts each.
    Wide(usize),
    /// So many containers of one part, one in the other.
    Deep(usize),
}

/// A part of a container that is to be put.
#[derive(Clone, Copy)]
enum Part {
    Item,
    Entry,
    Field,
}

/// Puts what it draws.
#[derive(Drop)]
pub struct Maker {
    pub alloc: Global,
    pub drawing: Drawing,
    pub body: Body,
}

impl Maker {
    /// Has put nothing.
    pub fn new(alloc: Global, seed: u64) -> Self {
        Maker {
            alloc,
            drawing: Drawing::new(seed),
            body: Body::new(alloc),
        }
    }

    /// Puts a value. What is open is a list of the parts that are to come, the next one last.
    pub fn put_any(&mut self, extent: Extent) -> Result<()> {
        let (mut left, is_deep) = match extent {
            Extent::Wide(containers) => (containers, false),
            Extent::Deep(containers) => (containers, true),
        };
        let mut parts = Vec::from_slice(self.alloc, &[Part::Item])?;
        for _ in 0..MOST_PARTS {
            let Some(part) = parts.pop() else {
                break;
            };
            if let Part::Entry = part {
                self.put_any_key()?;
            }
            if left > 0 && (is_deep || self.drawing.is_once_in(2)) {
                left = left.saturating_sub(1);
                let most = if is_deep { 1 } else { self.drawing.below(5) };
                self.put_container(&mut parts, most)?;
            } else {
                self.put_part(part)?;
            }
        }
        Ok(())
    }

    /// Puts a value without parts, or a skip in the place of a field.
    fn put_part(&mut self, part: Part) -> Result<()> {
        match part {
            Part::Field if self.drawing.is_once_in(3) => self.body.put(&[BSER_SKIP]),
            _ => self.put_leaf(),
        }
    }

    /// Puts what begins a container of so many parts, and lists its parts.
    fn put_container(&mut self, parts: &mut Vec<Part>, count: usize) -> Result<()> {
        let start = self.body.bytes.len();
        match self.drawing.below(3) {
            0 => {
                self.put_counted(BSER_ARRAY, count)?;
                list(parts, Part::Item, count)?;
            }
            1 => {
                self.put_counted(BSER_OBJECT, count)?;
                list(parts, Part::Entry, count)?;
            }
            _ => self.put_template(parts, count)?,
        }
        self.body.mark(Sort::Container, start)
    }

    /// Puts the keys of a template, at least one, and the number of its rows.
    fn put_template(&mut self, parts: &mut Vec<Part>, rows: usize) -> Result<()> {
        let keys = if rows == 1 {
            1
        } else {
            self.drawing.below(3).max(rows.min(1))
        };
        self.body.put(&[BSER_TEMPLATE])?;
        self.put_counted(BSER_ARRAY, keys)?;
        for _ in 0..keys {
            self.put_any_key()?;
        }
        self.put_count(rows)?;
        list(parts, Part::Field, rows.saturating_mul(keys))
    }

    /// Puts a value without parts.
    pub fn put_leaf(&mut self) -> Result<()> {
        match self.drawing.below(9) {
            0 => self.put_marked(&[BSER_NULL]),
            1 => self.put_marked(&[BSER_TRUE]),
            2 => self.put_marked(&[BSER_FALSE]),
            3 => {
                let bits = self.drawing.bits();
                self.put_integer(i64::from_le_bytes(bits.to_le_bytes()))
            }
            4 => {
                let number = self.drawing.choose(&INTEGERS, 0);
                self.put_integer(number)
            }
            5 => self.put_real(),
            6 => {
                let bytes = self.drawing.choose(&BYTES, b"");
                self.put_string(BSER_BYTESTRING, bytes)
            }
            _ => self.put_any_text(),
        }
    }

    /// Puts bytes that are a value without parts.
    pub fn put_marked(&mut self, bytes: &[u8]) -> Result<()> {
        let start = self.body.bytes.len();
        self.body.put(bytes)?;
        self.body.mark(Sort::Leaf, start)
    }

    /// Puts an integer in any width that holds it.
    pub fn put_integer(&mut self, number: i64) -> Result<()> {
        let start = self.body.bytes.len();
        let width = self.drawing.choose(&WIDTHS, BSER_INT8);
        self.body.put_integer(number, width)?;
        self.body.mark(Sort::Leaf, start)
    }

    /// Puts a real.
    fn put_real(&mut self) -> Result<()> {
        let other = self.drawing.bits();
        let bits = if self.drawing.is_once_in(2) {
            other
        } else {
            self.drawing.choose(&REALS, other)
        };
        let [a, b, c, d, e, f, g, h] = bits.to_le_bytes();
        self.put_marked(&[BSER_REAL, a, b, c, d, e, f, g, h])
    }

    /// Puts a text, under either tag.
    pub fn put_any_text(&mut self) -> Result<()> {
        let text = self.drawing.choose(&TEXTS, "");
        let tag = self
            .drawing
            .choose(&[BSER_BYTESTRING, BSER_UTF8STRING], BSER_UTF8STRING);
        self.put_string(tag, text.as_bytes())
    }

    /// Puts a string, as a value.
    pub fn put_string(&mut self, tag: u8, bytes: &[u8]) -> Result<()> {
        let start = self.body.bytes.len();
        self.put_counted(tag, bytes.len())?;
        self.put_content(bytes, tag == BSER_UTF8STRING)?;
        self.body.mark(Sort::Leaf, start)
    }

    /// Puts a key, under either tag.
    pub fn put_key(&mut self, key: &str) -> Result<()> {
        let start = self.body.bytes.len();
        let tag = self
            .drawing
            .choose(&[BSER_BYTESTRING, BSER_UTF8STRING], BSER_UTF8STRING);
        self.put_counted(tag, key.len())?;
        self.put_content(key.as_bytes(), true)?;
        self.body.mark(Sort::Key, start)
    }

    /// Puts any key.
    fn put_any_key(&mut self) -> Result<()> {
        let key = self.drawing.choose(&KEYS, "");
        self.put_key(key)
    }

    /// Puts the bytes of a string.
    fn put_content(&mut self, bytes: &[u8], is_text: bool) -> Result<()> {
        let start = self.body.bytes.len();
        self.body.put(bytes)?;
        if is_text && !bytes.is_empty() {
            self.body.mark(Sort::Text, start)?;
        }
        Ok(())
    }

    /// Puts a tag and a count.
    pub fn put_counted(&mut self, tag: u8, count: usize) -> Result<()> {
        self.body.put(&[tag])?;
        self.put_count(count)
    }

    /// Puts a count in any width that holds it.
    pub fn put_count(&mut self, count: usize) -> Result<()> {
        let start = self.body.bytes.len();
        let width = self.drawing.choose(&WIDTHS, BSER_INT8);
        self.body.put_integer(i64::try_from(count)?, width)?;
        self.body.mark(Sort::Count, start)
    }
}

/// Lists so many parts as the next ones.
fn list(parts: &mut Vec<Part>, part: Part, count: usize) -> Result<()> {
    for _ in 0..count {
        parts.push(part)?;
    }
    Ok(())
}
