//! A writer into memory, up to a number of bytes.
ghost use Rattle.std.specs.Prelude.{◌≡◌, ◌++◌, [], if◌then◌else◌};
ghost use Rattle.bser_source.specs.Memory.{TakesAllOrNothing};
ghost use Rattle.bser_source.specs.Sinks.{append-none, append-both};
ghost use Rattle.bser_canonical.specs.Room.{bytes_in, failures_in};

use bser_source::device::Sink;
use bser_source::memory::InMemory;
use std::io;
use std::io::ErrorKind;

/// Appends all bytes to a vector, which gets no longer than `most` bytes.
///
/// It fails where they have no room there, or where the vector cannot grow, with an error of kind
/// `OutOfMemory`.
#[derive(Drop)]
pub(crate) struct Room {
    memory: InMemory,
    most: usize,
    failures: u64,
}

impl Room {
    /// Appends to `bytes`, without failures so far.
    pub(crate) fn new(bytes: Vec<u8>, most: usize) -> Self
        ensures bytes { bytes_in result ≡ bytes.items }
    {
        Room {
            memory: InMemory::new(bytes),
            most,
            failures: 0,
        }
    }

    /// Gives the vector back.
    pub(crate) fn into_inner(self) -> Vec<u8>
        ensures { result.items ≡ bytes_in self }
    {
        let Room {
            memory,
            most: _,
            failures: _,
        } = self;
        memory.into_inner()
    }

    /// Appends two pieces, or answers false and appends nothing.
    #[inline(always)]
    fn append(&mut self, front: &[u8], back: &[u8]) -> bool
        ensures bytes { bytes_in self.new
            ≡ bytes_in self.old ++ (if result then front.now ++ back.now else []) }
        ensures failures { failures_in self.new ≡ failures_in self.old }
    {
        let room = self.most.saturating_sub(self.memory.get_ref().len());
        front.len() <= room
            && back.len() <= room - front.len()
            && self.memory.take_at_once(front, back)
    }
}

impl Sink for Room {
    ghost took = { λ a b xs. bytes_in b ≡ bytes_in a ++ xs };

    ghost answered = { λ _ _ xs r. TakesAllOrNothing xs r };

    ghost failures = { λ m. failures_in m };

    fn push(&mut self, bytes: &[u8]) -> io::Result<usize> {
        if self.append(bytes, &[]) {
            return Ok(bytes.len());
        }
        self.failures = self.failures.saturating_add(1);
        Err(io::Error::new(ErrorKind::OutOfMemory, "no room left"))
    }

    #[inline(always)]
    fn take_at_once(&mut self, front: &[u8], back: &[u8]) -> bool {
        self.append(front, back)
    }

    ghost took_nothing = { λ m. append-none (bytes_in m) };

    ghost took_both = { λ a b c xs ys. append-both (bytes_in a) (bytes_in b) (bytes_in c) xs ys };
}
