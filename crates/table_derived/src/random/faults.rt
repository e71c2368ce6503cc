//! What is broken of a body.
use crate::random::any::Maker;
use crate::random::body::{Mark, Sort};
use crate::random::samples::{KEYS, STRAYS};
use anyhow::Result;
use serde_bser::header::{BSER_INT8, BSER_NULL};

/// What is wrong with a message.
#[derive(Clone, Copy, PartialEq)]
pub enum Fault {
    /// It ends early.
    Cut,
    /// Its body has another length than its header says.
    WrongLength,
    /// A value begins with a byte that no value begins with.
    UnknownTag,
    /// A count is below 0.
    NegativeCount,
    /// There is null where a count has to be.
    NoCount,
    /// A text has a byte that is never in UTF-8.
    NotUtf8,
    /// There is another value without parts, or a small container.
    Stray,
    /// There is another key.
    Renamed,
    /// Two bytes are any bytes: it may be whole, or have several faults.
    AnyBytes,
}

/// All of them.
pub const FAULTS: [Fault; 9] = [
    Fault::Cut,
    Fault::WrongLength,
    Fault::UnknownTag,
    Fault::NegativeCount,
    Fault::NoCount,
    Fault::NotUtf8,
    Fault::Stray,
    Fault::Renamed,
    Fault::AnyBytes,
];

impl Maker {
    /// Breaks the body, where the fault is one of a body and the body has a place for it. Answers how
    /// many bytes of the body come before the place where it has to be told, if that is known.
    pub fn break_body(&mut self, fault: Fault) -> Result<Option<usize>> {
        match fault {
            Fault::UnknownTag => self.break_tag(),
            Fault::NegativeCount => self.break_count(),
            Fault::NoCount => self.remove_count(),
            Fault::NotUtf8 => self.break_text(),
            Fault::Stray => self.put_stray(),
            Fault::Renamed => self.rename(),
            Fault::Cut | Fault::WrongLength | Fault::AnyBytes => Ok(None),
        }
    }

    /// Any of the places of this sort.
    fn any_mark(&mut self, sort: Sort) -> Option<Mark> {
        let mut seen = 0usize;
        let mut any = None;
        for mark in &self.body.marks {
            if mark.sort == sort {
                seen = seen.saturating_add(1);
                if self.drawing.is_once_in(seen) {
                    any = Some(*mark);
                }
            }
        }
        any
    }

    /// Puts a byte from 14 on in the place of a value's tag, where it is told.
    fn break_tag(&mut self) -> Result<Option<usize>> {
        let sort = self
            .drawing
            .choose(&[Sort::Leaf, Sort::Container], Sort::Leaf);
        let Some(mark) = self.any_mark(sort) else {
            return Ok(None);
        };
        let tag = self.drawing.choose(&[14, 15, 0x20, 0x7b, 0x80, 0xff], 14);
        self.body
            .replace(mark.start, mark.start.saturating_add(1), &[tag])?;
        Ok(Some(mark.start))
    }

    /// Puts a number below 0 in the place of a count. It is told behind the number.
    fn break_count(&mut self) -> Result<Option<usize>> {
        let Some(mark) = self.any_mark(Sort::Count) else {
            return Ok(None);
        };
        let low = self.drawing.choose(&[0x80, 0xff, 0xfe], 0xff);
        self.body.replace(mark.start, mark.end, &[BSER_INT8, low])?;
        Ok(Some(mark.start.saturating_add(2)))
    }

    /// Puts null in the place of a count, where it is told.
    fn remove_count(&mut self) -> Result<Option<usize>> {
        let Some(mark) = self.any_mark(Sort::Count) else {
            return Ok(None);
        };
        self.body.replace(mark.start, mark.end, &[BSER_NULL])?;
        Ok(Some(mark.start))
    }

    /// Puts a byte that is never in UTF-8 at the end of a text, behind which it is told.
    fn break_text(&mut self) -> Result<Option<usize>> {
        let Some(mark) = self.any_mark(Sort::Text) else {
            return Ok(None);
        };
        let byte = self.drawing.choose(&[0xc0, 0xf5, 0xff], 0xff);
        self.body
            .replace(mark.end.saturating_sub(1), mark.end, &[byte])?;
        Ok(Some(mark.end))
    }

    /// Puts another value in the place of one without parts. A type that does not take it tells it
    /// there.
    fn put_stray(&mut self) -> Result<Option<usize>> {
        let Some(mark) = self.any_mark(Sort::Leaf) else {
            return Ok(None);
        };
        let stray = self.drawing.choose(&STRAYS, b"\x0a");
        self.body.replace(mark.start, mark.end, stray)?;
        Ok(Some(mark.start))
    }

    /// Puts another key. It may be told anywhere behind it.
    fn rename(&mut self) -> Result<Option<usize>> {
        let Some(mark) = self.any_mark(Sort::Key) else {
            return Ok(None);
        };
        let key = self.drawing.choose(&KEYS, "");
        let behind = self
            .body
            .bytes
            .split_off(mark.end.min(self.body.bytes.len()))?;
        self.body.bytes.truncate(mark.start);
        self.put_key(key)?;
        self.body.put(&behind)?;
        Ok(None)
    }
}
