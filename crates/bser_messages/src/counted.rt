//! A reader with a count of the bytes that it gave.
ghost use Rattle.std.specs.Prelude.{◌≡◌};
ghost use Rattle.bser_messages.specs.Descriptions.{inner_of};

use bser_source::device::Source;
use std::io;

/// A source, and how many bytes it gave.
#[derive(Drop)]
pub(crate) struct CountedSource<S> {
    inner: S,
    given: usize,
}

impl<S> CountedSource<S> {
    /// Counts what `inner` gives from now on.
    pub(crate) fn new(inner: S) -> Self
        ensures { inner_of result ≡ inner }
    {
        CountedSource { inner, given: 0 }
    }

    /// How many bytes were given, at most `usize::MAX`.
    pub(crate) fn given(&self) -> usize {
        self.given
    }

    /// Gives the source back.
    pub(crate) fn into_inner(self) -> S
        ensures { result ≡ inner_of self }
    {
        let CountedSource { inner, given: _ } = self;
        inner
    }
}

impl<S: Source> Source for CountedSource<S> {
    ghost remaining = { λ c. S.remaining (inner_of c) };

    ghost failures = { λ c. S.failures (inner_of c) };

    ghost through = { λ c. S.through (inner_of c) };

    fn pull(&mut self, buf: &mut [u8]) -> io::Result<usize> {
        match self.inner.pull(buf) {
            Ok(count) => {
                self.given = self.given.saturating_add(count);
                Ok(count)
            }
            Err(fault) => Err(fault),
        }
    }
}
