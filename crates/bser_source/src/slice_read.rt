//! A byte source over a slice.
ghost use Rattle.std.specs.Prelude.{refl, ◌≡◌, ◌≤◌, true, false, length};

use crate::read::{DeRead, count_octets};
use bser_format::errors::ReadCause;

/// A source over a slice, which lends all that is taken and takes no memory.
///
/// All that is left is buffered. It fails past its end alone, with [`ReadCause::Eof`], or with
/// [`ReadCause::Failed`] after `close`, and is unchanged by an error.
#[derive(Drop)]
pub struct SliceRead<'a> {
    slice: &'a [u8],
    index: usize,
    failed: bool,
    ghost within: { index ≤ length slice.now },
    ghost refused: { failed ≡ true → index ≡ length slice.now },
}

impl<'a> SliceRead<'a> {
    ghost use Rattle.bser_source.specs.Slice.{slice_fresh};

    /// Reads the slice from its start.
    pub fn new(slice: &'a [u8]) -> Self
        ensures { ⟦<SliceRead<'a> as DeRead>⟧.window result ≡ slice_fresh slice.entry.now }
    {
        SliceRead {
            slice,
            index: 0,
            failed: false,
        }
    }
}

impl<'a> DeRead for SliceRead<'a> {
    ghost use Rattle.bser_source.specs.Slice.{slice_at, none_left};

    type Lent = &'a [u8];

    ghost window = { slice_at };

    ghost refuses = { λ r f. none_left r.slice.now r.index (r.refused f) };

    ghost lending = { λ _. refl };

    #[inline(always)]
    fn buffered<'s>(&'s self) -> &'s [u8] {
        &self.slice[self.index..]
    }

    #[inline(always)]
    fn fill(&mut self, n: usize) -> Result<(), ReadCause> {
        if n <= count_octets(self.buffered()) {
            return Ok(());
        }
        Err(if self.failed {
            ReadCause::Failed
        } else {
            ReadCause::Eof
        })
    }

    #[inline(always)]
    fn consume(&mut self, n: usize) {
        self.index += n;
    }

    #[inline(always)]
    fn lend(&self, n: usize) -> Option<&'a [u8]> {
        let start = self.index;
        let end = start + n;
        let all: &'a [u8] = self.slice;
        Some(&all[start..end])
    }

    fn gather(&mut self, _len: usize, _scratch: &mut Vec<u8>) -> Result<(), ReadCause> {
        Err(if self.failed {
            ReadCause::Failed
        } else {
            ReadCause::Eof
        })
    }

    fn expect(&mut self, _n: usize) {}

    fn close(&mut self) {
        let all: &'a [u8] = self.slice;
        self.slice = &all[..self.index];
        self.failed = true;
    }

    fn read_count(&self) -> usize {
        self.index
    }

    fn is_failed(&self) -> bool {
        self.failed
    }
}
