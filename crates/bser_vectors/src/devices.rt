//! A reader and a writer that follow a plan, for tests of what a device may do.
ghost use Rattle.std.specs.Prelude.{◌≤◌, IfOk};

use std::alloc::Global;
use std::io;
use std::io::{ErrorKind, Read, Write};

/// What a device does once it has moved its number of bytes.
#[derive(Clone, Copy, PartialEq)]
pub enum Then {
    /// It goes on.
    GoesOn,
    /// It moves nothing more: each call answers 0.
    Ends,
    /// Each call answers a fault of this kind.
    Faults(ErrorKind),
    /// One call answers a fault of this kind, and then it goes on.
    FaultsOnce(ErrorKind),
}

/// How a device moves bytes.
#[derive(Clone, Copy)]
pub struct Plan {
    most: usize,
    before: usize,
    then: Then,
}

impl Plan {
    /// As many bytes a call as are asked for.
    pub fn whole() -> Self {
        Plan::pieces(usize::MAX)
    }

    /// At most `most` bytes a call.
    pub fn pieces(most: usize) -> Self {
        Plan {
            most,
            before: 0,
            then: Then::GoesOn,
        }
    }

    /// So up to `bytes` bytes, and then `then`.
    pub fn up_to(self, bytes: usize, then: Then) -> Self {
        Plan {
            most: self.most,
            before: bytes,
            then,
        }
    }

    /// How many bytes the next call moves, of `asked` that are asked for and `there` that are there.
    fn moves(&mut self, asked: usize, there: usize) -> io::Result<usize>
        ensures asked { IfOk result (λ n. n ≤ asked) }
        ensures there { IfOk result (λ n. n ≤ there) }
    {
        let count = asked.min(there).min(self.most);
        if asked == 0 || self.then == Then::GoesOn {
            return Ok(count);
        }
        if self.before > 0 {
            let count = count.min(self.before);
            self.before -= count;
            return Ok(count);
        }
        match self.then {
            Then::GoesOn => Ok(count),
            Then::Ends => Ok(0),
            Then::Faults(kind) => Err(io::Error::from(kind)),
            Then::FaultsOnce(kind) => {
                self.then = Then::GoesOn;
                Err(io::Error::from(kind))
            }
        }
    }
}

/// Gives the bytes of a slice by a plan.
#[derive(Drop)]
pub struct PlannedReader<'a> {
    /// The bytes that were not given.
    pub left: &'a [u8],
    /// How often it was asked.
    pub calls: u64,
    plan: Plan,
}

impl<'a> PlannedReader<'a> {
    /// Gives `bytes` as the plan says.
    pub fn new(bytes: &'a [u8], plan: Plan) -> Self {
        PlannedReader {
            left: bytes,
            plan,
            calls: 0,
        }
    }
}

impl<'a> Read for PlannedReader<'a> {
    fn read(&mut self, buf: &mut [u8]) -> io::Result<usize> {
        self.calls = self.calls.saturating_add(1);
        let count = self.plan.moves(buf.len(), self.left.len())?;
        let (given, left) = self.left.split_at(count);
        buf[..count].copy_from_slice(given);
        self.left = left;
        Ok(count)
    }
}

/// Takes bytes by a plan, and keeps them.
#[derive(Drop)]
pub struct PlannedWriter {
    /// The bytes that were taken.
    pub taken: Vec<u8>,
    plan: Plan,
}

impl PlannedWriter {
    /// Has taken nothing.
    pub fn new(alloc: Global, plan: Plan) -> Self {
        PlannedWriter {
            taken: Vec::new(alloc),
            plan,
        }
    }
}

impl Write for PlannedWriter {
    fn write(&mut self, buf: &[u8]) -> io::Result<usize> {
        let count = self.plan.moves(buf.len(), buf.len())?;
        self.taken.extend_from_slice(&buf[..count])?;
        Ok(count)
    }

    fn flush(&mut self) -> io::Result<()> {
        Ok(())
    }
}
