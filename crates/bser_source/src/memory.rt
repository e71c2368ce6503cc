//! A writer into memory.
ghost use Rattle.std.specs.Prelude.{◌≡◌, ◌++◌};
ghost use Rattle.bser_source.specs.Memory.{bytes_in, failures_in, TakesAllOrNothing};
ghost use Rattle.bser_source.specs.Sinks.{append-none, append-both};

use crate::device::Sink;
use std::io;
use std::io::ErrorKind;

/// Appends all bytes to a vector.
///
/// It fails only where the vector cannot grow, with an error of kind `OutOfMemory`.
#[derive(Drop)]
pub struct InMemory {
    bytes: Vec<u8>,
    failures: u64,
}

impl InMemory {
    /// Appends to `bytes`, without failures so far.
    pub fn new(bytes: Vec<u8>) -> Self
        ensures bytes { bytes_in result ≡ bytes.items }
        ensures failures { failures_in result ≡ 0 }
    {
        InMemory { bytes, failures: 0 }
    }

    /// Returns the bytes so far, those that it began with among them.
    pub fn get_ref(&self) -> &Vec<u8>
        ensures { result.now.items ≡ bytes_in self.now }
    {
        &self.bytes
    }

    /// Gives the vector back.
    pub fn into_inner(self) -> Vec<u8>
        ensures { result.items ≡ bytes_in self }
    {
        let InMemory { bytes, failures: _ } = self;
        bytes
    }
}

impl Sink for InMemory {
    ghost took = { λ a b xs. bytes_in b ≡ bytes_in a ++ xs };

    ghost answered = { λ _ _ xs r. TakesAllOrNothing xs r };

    ghost failures = { λ m. failures_in m };

    fn push(&mut self, bytes: &[u8]) -> io::Result<usize> {
        match self.bytes.extend_from_slice(bytes) {
            Ok(()) => Ok(bytes.len()),
            Err(_) => {
                self.failures = self.failures.saturating_add(1);
                Err(io::Error::new(ErrorKind::OutOfMemory, "no memory left"))
            }
        }
    }

    #[inline(always)]
    fn take_at_once(&mut self, front: &[u8], back: &[u8]) -> bool {
        let before = self.bytes.len();
        if self.bytes.extend_from_slice(front).is_err() {
            return false;
        }
        if self.bytes.extend_from_slice(back).is_err() {
            self.bytes.truncate(before);
            return false;
        }
        true
    }

    /// Makes room. Where there is none, the push that needs it fails.
    fn expect(&mut self, most: usize) {
        let _ = self.bytes.reserve(most);
    }

    ghost took_nothing = { λ m. append-none (bytes_in m) };

    ghost took_both = { λ a b c xs ys. append-both (bytes_in a) (bytes_in b) (bytes_in c) xs ys };
}
