//! A byte source over a slice that lends nothing.
ghost use Rattle.std.specs.Prelude.{refl, ◌≡◌};

use bser_format::errors::ReadCause;
use bser_source::read::DeRead;
use bser_source::reference::NoLoan;
use bser_source::slice_read::SliceRead;

/// A source over a slice, whose bytes are copied where they are kept.
#[derive(Drop)]
pub(crate) struct CopiedRead<'a> {
    inner: SliceRead<'a>,
}

impl<'a> CopiedRead<'a> {
    ghost use Rattle.bser_frames.specs.Copied.{copied_fresh};

    /// Reads the slice from its start.
    pub(crate) fn new(slice: &'a [u8]) -> Self
        ensures { ⟦<CopiedRead<'a> as DeRead>⟧.window result ≡ copied_fresh slice.entry.now }
    {
        CopiedRead {
            inner: SliceRead::new(slice),
        }
    }
}

impl<'a> DeRead for CopiedRead<'a> {
    ghost use Rattle.bser_source.specs.Slice.{none_left};
    ghost use Rattle.bser_frames.specs.Copied.{copied};

    type Lent = NoLoan;

    ghost window = { λ r. copied (⟦<SliceRead<'a> as DeRead>⟧.window r.inner) };

    ghost refuses = { λ r f. none_left r.inner.slice.now r.inner.index (r.inner.refused f) };

    ghost lending = { λ _. refl };

    #[inline(always)]
    fn buffered<'s>(&'s self) -> &'s [u8] {
        self.inner.buffered()
    }

    #[inline(always)]
    fn fill(&mut self, n: usize) -> Result<(), ReadCause> {
        match self.inner.fill(n) {
            Ok(()) => Ok(()),
            Err(cause) => {
                self.inner.close();
                Err(cause)
            }
        }
    }

    #[inline(always)]
    fn consume(&mut self, n: usize) {
        self.inner.consume(n);
    }

    #[inline(always)]
    fn lend(&self, _n: usize) -> Option<NoLoan> {
        None
    }

    fn gather(&mut self, len: usize, scratch: &mut Vec<u8>) -> Result<(), ReadCause> {
        match self.inner.gather(len, scratch) {
            Ok(()) => Ok(()),
            Err(cause) => {
                self.inner.close();
                Err(cause)
            }
        }
    }

    fn expect(&mut self, n: usize) {
        self.inner.expect(n);
    }

    fn close(&mut self) {
        self.inner.close();
    }

    fn read_count(&self) -> usize {
        self.inner.read_count()
    }

    fn is_failed(&self) -> bool {
        self.inner.is_failed()
    }
}
