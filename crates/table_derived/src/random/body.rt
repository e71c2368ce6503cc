//! The bytes of a body, and what stands where.
use anyhow::Result;
use serde_bser::header::{BSER_INT8, BSER_INT16, BSER_INT32, BSER_INT64};
use std::alloc::Global;

/// What stands at a place.
#[derive(Clone, Copy, PartialEq)]
pub enum Sort {
    /// A value without parts.
    Leaf,
    /// What begins an array, an object or a template, up to its first part.
    Container,
    /// A key.
    Key,
    /// A count, or the length of a string.
    Count,
    /// The bytes of a string that has to be UTF-8, of which there are some.
    Text,
}

/// Where it stands.
#[derive(Clone, Copy)]
pub struct Mark {
    pub sort: Sort,
    pub start: usize,
    pub end: usize,
}

/// The bytes that were put, and marks on them.
#[derive(Drop)]
pub struct Body {
    pub bytes: Vec<u8>,
    pub marks: Vec<Mark>,
}

impl Body {
    /// Has nothing.
    pub fn new(alloc: Global) -> Self {
        Body {
            bytes: Vec::new(alloc),
            marks: Vec::new(alloc),
        }
    }

    /// Puts the bytes.
    pub fn put(&mut self, bytes: &[u8]) -> Result<()> {
        Ok(self.bytes.extend_from_slice(bytes)?)
    }

    /// Marks what was put from this place on.
    pub fn mark(&mut self, sort: Sort, start: usize) -> Result<()> {
        let end = self.bytes.len();
        Ok(self.marks.push(Mark { sort, start, end })?)
    }

    /// Puts the integer in the width of this tag, or in the least that holds it where that is wider.
    pub fn put_integer(&mut self, number: i64, width: u8) -> Result<()> {
        let [a, b, c, d, e, f, g, h] = number.to_le_bytes();
        match least_width(number).max(width) {
            BSER_INT8 => self.put(&[BSER_INT8, a]),
            BSER_INT16 => self.put(&[BSER_INT16, a, b]),
            BSER_INT32 => self.put(&[BSER_INT32, a, b, c, d]),
            _ => self.put(&[BSER_INT64, a, b, c, d, e, f, g, h]),
        }
    }

    /// Puts other bytes in the place of those from `start` to `end`. The marks stay.
    pub fn replace(&mut self, start: usize, end: usize, bytes: &[u8]) -> Result<()> {
        let behind = self.bytes.split_off(end.min(self.bytes.len()))?;
        self.bytes.truncate(start);
        self.put(bytes)?;
        self.put(&behind)
    }
}

/// The tag of the least width that holds the number.
fn least_width(number: i64) -> u8 {
    if i8::try_from(number).is_ok() {
        BSER_INT8
    } else if i16::try_from(number).is_ok() {
        BSER_INT16
    } else if i32::try_from(number).is_ok() {
        BSER_INT32
    } else {
        BSER_INT64
    }
}
