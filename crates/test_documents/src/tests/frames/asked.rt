//! A reader that keeps how far it was asked, and how often.
use bser_vectors::devices::{Plan, PlannedReader};
use std::io;
use std::io::Read;

/// Gives bytes by a plan, and keeps how far it was asked at most, and how often.
#[derive(Drop)]
pub struct AskedReader<'a> {
    inner: PlannedReader<'a>,
    given: usize,
    asked: usize,
}

impl<'a> AskedReader<'a> {
    /// Gives `bytes` as the plan says.
    pub fn new(bytes: &'a [u8], plan: Plan) -> Self {
        AskedReader {
            inner: PlannedReader::new(bytes, plan),
            given: 0,
            asked: 0,
        }
    }

    /// The place in the stream behind the last byte that it was asked for.
    pub fn asked(&self) -> usize {
        self.asked
    }

    /// How often it was asked.
    pub fn calls(&self) -> u64 {
        self.inner.calls
    }
}

impl<'a> Read for AskedReader<'a> {
    fn read(&mut self, buf: &mut [u8]) -> io::Result<usize> {
        self.asked = self.asked.max(self.given.saturating_add(buf.len()));
        let count = self.inner.read(buf)?;
        self.given = self.given.saturating_add(count);
        Ok(count)
    }
}
