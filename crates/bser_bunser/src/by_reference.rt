//! A byte source that is read through a reference.
ghost use Rattle.std.specs.Prelude.{◌≡◌};
ghost use Rattle.bser_bunser.specs.ByReference.{read_through, reference_of};

use bser_format::errors::ReadCause;
use bser_source::read::DeRead;

/// Another source, read through a reference, so that it is there afterwards.
#[derive(Drop)]
pub struct ByReference<'a, R> {
    read: &'a mut R,
}

impl<'a, R> ByReference<'a, R> {
    /// Reads on where the source is.
    #[inline(always)]
    pub fn new(read: &'a mut R) -> Self
        ensures { reference_of result ≡ read.entry }
    {
        ByReference { read }
    }

    /// Gives the reference back.
    #[inline(always)]
    pub fn into_inner(self) -> &'a mut R
        ensures { result ≡ reference_of self.entry }
    {
        let ByReference { read } = self;
        read
    }
}

impl<'a, R: DeRead> DeRead for ByReference<'a, R> {
    type Lent = R::Lent;

    ghost window = { λ r. read_through (reference_of r).ghost_name
        (R.window (reference_of r).now) };

    ghost refuses = { λ r f. R.refuses r.read.now f };

    ghost lending = { λ r. R.lending r.read.now };

    #[inline(always)]
    fn buffered<'s>(&'s self) -> &'s [u8] {
        self.read.buffered()
    }

    #[inline(always)]
    fn fill(&mut self, n: usize) -> Result<(), ReadCause> {
        self.read.fill(n)
    }

    #[inline(always)]
    fn consume(&mut self, n: usize) {
        self.read.consume(n);
    }

    #[inline(always)]
    fn lend(&self, n: usize) -> Option<R::Lent> {
        self.read.lend(n)
    }

    fn gather(&mut self, len: usize, scratch: &mut Vec<u8>) -> Result<(), ReadCause> {
        self.read.gather(len, scratch)
    }

    #[inline(always)]
    fn expect(&mut self, n: usize) {
        self.read.expect(n);
    }

    fn close(&mut self) {
        self.read.close();
    }

    #[inline(always)]
    fn read_count(&self) -> usize {
        self.read.read_count()
    }

    #[inline(always)]
    fn is_failed(&self) -> bool {
        self.read.is_failed()
    }
}
