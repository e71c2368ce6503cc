//! The JSON texts of a reader, each as soon as it is there.
ghost use Rattle.std.specs.Prelude.{◌≤◌, length};

use crate::fault::{Place, blanks};
use crate::split::Scan;
use std::alloc::Global;
use std::io;
use std::io::{ErrorKind, Read};

/// How many bytes a read asks for.
const BLOCK: usize = 8192;

/// What came of the texts, from the one on that is next.
#[derive(Drop)]
pub(crate) struct ReadTexts {
    bytes: Vec<u8>,
    // where the next text begins, and the one behind it
    start: usize,
    end: usize,
    scan: Scan,
    // how many bytes of the next text are scanned
    scanned: usize,
    // where the first of the bytes is in the input
    place: Place,
    has_ended: bool,
    block: [u8; BLOCK],
    ghost ordered: { start ≤ end },
    ghost within: { end ≤ length bytes.items },
}

impl ReadTexts {
    /// Nothing came.
    pub(crate) fn new(alloc: Global) -> Self {
        ReadTexts {
            bytes: Vec::new(alloc),
            start: 0,
            end: 0,
            scan: Scan::new(),
            scanned: 0,
            place: Place::START,
            has_ended: false,
            block: [0; BLOCK],
        }
    }

    /// Whether the reader has ended.
    pub(crate) fn has_ended(&self) -> bool {
        self.has_ended
    }

    /// The text that came last.
    pub(crate) fn text(&self) -> &[u8] {
        &self.bytes[self.start..self.end]
    }

    /// Where it is in the input.
    pub(crate) fn place(&self) -> Place {
        self.place.after(&self.bytes[..self.start])
    }

    /// Goes to the next text, and tells whether it is whole. The last ends where the reader did.
    pub(crate) fn advance(&mut self) -> bool {
        if self.scanned == 0 {
            self.end += blanks(&self.bytes[self.end..]);
        }
        self.start = self.end;
        let front = &self.bytes[self.start..];
        let len = match self.scan.end(front, self.scanned) {
            Some(len) => len,
            None if self.has_ended && !front.is_empty() => front.len(),
            None => {
                self.scanned = front.len();
                return false;
            }
        };
        self.end = self.start + len;
        self.scan = Scan::new();
        self.scanned = 0;
        true
    }

    /// Reads once, and drops the texts that came before. An interruption is no error.
    pub(crate) fn read<R: Read>(&mut self, reader: &mut R) -> io::Result<()> {
        self.drop_front();
        match reader.read(&mut self.block) {
            Ok(count) => {
                self.has_ended = count == 0;
                self.bytes.extend_from_slice(&self.block[..count])?;
                Ok(())
            }
            Err(fault) if fault.kind() == ErrorKind::Interrupted => Ok(()),
            Err(fault) => Err(fault),
        }
    }

    /// Drops the texts that came before, if there are any.
    fn drop_front(&mut self) {
        if self.end == 0 {
            return;
        }
        self.place = self.place.after(&self.bytes[..self.end]);
        let left = self.bytes.len() - self.end;
        self.bytes.copy_within(self.end.., 0);
        self.bytes.truncate(left);
        self.start = 0;
        self.end = 0;
    }
}
