//! The parts of a message, at the front of a slice.
ghost use Rattle.std.specs.Prelude.{◌≡◌, ◌<◌, ◌^◌, ◌∷◌, ◌++◌, false, length};
ghost use Rattle.bser_format.specs.Canonical.{is_within as within, least_count, least_integer};
ghost use Rattle.bser_c.specs.Fronts.{Puts};

use crate::measure::is_within;
use bser_format::header::{BSER_INT8, BSER_INT16, BSER_INT32, BSER_INT64};

/// Parts of a message, one after the other at the front of a slice, as far as it has room.
#[derive(Drop)]
pub(crate) struct Front<'o> {
    out: &'o mut [u8],
    len: usize,
}

/// Each put appends its bytes, or answers none where they have no room.
impl<'o> Front<'o> {
    /// Begins with no byte put.
    pub(crate) fn new(out: &'o mut [u8]) -> Self
        ensures out { result.out ≡ out.entry }
        ensures len { result.len ≡ 0 }
    {
        Front { out, len: 0 }
    }

    /// How many bytes were put.
    pub(crate) fn len(&self) -> usize
        ensures { result ≡ self.now.len }
    {
        self.len
    }

    /// Puts these bytes.
    #[inline(always)]
    pub(crate) fn put(&mut self, bytes: &[u8]) -> Option<()>
        ensures { Puts self.old self.new bytes.now result }
    {
        let end = self.len.checked_add(bytes.len())?;
        if end > self.out.len() {
            return None;
        }
        self.out[self.len..end].copy_from_slice(bytes);
        self.len = end;
        Some(())
    }

    /// Puts a tag and these bytes.
    #[inline(always)]
    pub(crate) fn put_tagged(&mut self, tag: u8, bytes: &[u8]) -> Option<()>
        ensures { Puts self.old self.new (tag ∷ bytes.now) result }
    {
        self.put(&[tag])?;
        self.put(bytes)
    }

    /// Puts an integer in its least width.
    #[inline(always)]
    pub(crate) fn put_integer(&mut self, v: i64) -> Option<()>
        ensures { Puts self.old self.new (least_integer v) result }
    {
        if is_within(0x80, v) {
            return self.put(&[BSER_INT8, (v as i8).cast_unsigned()]);
        }
        self.put_wide(v)
    }

    /// Puts an integer of more than one byte.
    #[inline(never)]
    fn put_wide(&mut self, v: i64) -> Option<()>
        requires { within 128 v ≡ false }
        ensures { Puts self.old self.new (least_integer v) result }
    {
        if is_within(0x8000, v) {
            return self.put_tagged(BSER_INT16, &(v as i16).to_le_bytes());
        }
        if is_within(0x8000_0000, v) {
            return self.put_tagged(BSER_INT32, &(v as i32).to_le_bytes());
        }
        self.put_tagged(BSER_INT64, &v.to_le_bytes())
    }

    /// Puts a count as an integer.
    #[inline(always)]
    pub(crate) fn put_count(&mut self, count: usize) -> Option<()>
        requires { count < 2 ^ 63 }
        ensures { Puts self.old self.new (least_count count) result }
    {
        self.put_integer(count as i64)
    }

    /// Puts a tag and a count.
    #[inline(always)]
    pub(crate) fn put_head(&mut self, tag: u8, count: usize) -> Option<()>
        requires { count < 2 ^ 63 }
        ensures { Puts self.old self.new (tag ∷ least_count count) result }
    {
        if count < 0x80 {
            return self.put(&[tag, BSER_INT8, count as u8]);
        }
        self.put(&[tag])?;
        self.put_count(count)
    }

    /// Puts a string under a tag, with its length.
    #[inline(always)]
    pub(crate) fn put_string(&mut self, tag: u8, string: &[u8]) -> Option<()>
        requires { length string.now < 2 ^ 63 }
        ensures { Puts self.old self.new
            (tag ∷ (least_count (length string.now) ++ string.now)) result }
    {
        self.put_head(tag, string.len())?;
        self.put(string)
    }
}
