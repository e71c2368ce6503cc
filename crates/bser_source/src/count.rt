//! A writer that counts.
ghost use Rattle.std.specs.Prelude.{◌≡◌, Ok, length};
ghost use Rattle.bser_source.specs.Device.{counts_to};
ghost use Rattle.bser_source.specs.Sinks.{counts_to-none, counts_to-both};
ghost use Rattle.bser_source.specs.Counting.{count_of};

use crate::device::Sink;
use std::io;
use std::io::Write;

/// Takes all bytes, keeps none, and counts them.
#[derive(Drop)]
pub struct CountWrite {
    count: usize,
}

impl CountWrite {
    /// Begins with a count of 0.
    pub fn new() -> Self
        ensures { count_of result ≡ 0 }
    {
        CountWrite { count: 0 }
    }

    /// Returns the number of bytes taken, `usize::MAX` at most.
    pub fn count(&self) -> usize
        ensures { result ≡ count_of self.now }
    {
        self.count
    }
}

impl Write for CountWrite {
    fn write(&mut self, bytes: &[u8]) -> io::Result<usize>
        ensures all { result ≡ Ok (length bytes.now) }
        ensures counted { count_of self.new ≡ counts_to (count_of self.old) (length bytes.now) }
    {
        self.count = self.count.saturating_add(bytes.len());
        Ok(bytes.len())
    }

    fn flush(&mut self) -> io::Result<()>
        ensures { (result ≡ Ok tt) × (self.new ≡ self.old) }
    {
        Ok(())
    }
}

impl Sink for CountWrite {
    ghost took = { λ a b xs. count_of b ≡ counts_to (count_of a) (length xs) };

    ghost answered = { λ _ _ xs r. r ≡ Ok (length xs) };

    ghost failures = { λ _. 0 };

    fn push(&mut self, bytes: &[u8]) -> io::Result<usize> {
        self.count = self.count.saturating_add(bytes.len());
        Ok(bytes.len())
    }

    fn take_at_once(&mut self, front: &[u8], back: &[u8]) -> bool {
        self.count = self
            .count
            .saturating_add(front.len())
            .saturating_add(back.len());
        true
    }

    ghost took_nothing = { λ c. counts_to-none (count_of c) };

    ghost took_both = { λ a b c xs ys. counts_to-both (count_of a) (count_of b)
        (count_of c) xs ys };
}
