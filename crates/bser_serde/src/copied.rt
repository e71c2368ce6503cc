//! A copy of a message, made as it is told.
ghost use Rattle.std.specs.Prelude.{true, false};

use bser_format::header::{BSER_ARRAY, HEADER_START, integer_tag};
use serde_bser::tell::{Builder, Event, Header, Place, Stop};
use std::alloc::{AllocError, Global};

/// Copies a message of a reader: each part stands where it stood in the message, and zeros stand
/// in the place of the header until it is put.
///
/// The place of a part tells how many bytes its integer has.
#[derive(Drop)]
pub struct Copied {
    bytes: Vec<u8>,
}

impl Copied {
    /// Nothing is copied yet.
    pub fn new(alloc: Global) -> Copied {
        Copied {
            bytes: Vec::new(alloc),
        }
    }

    /// What is copied so far.
    pub fn as_slice(&self) -> &[u8] {
        self.bytes.as_slice()
    }

    /// Puts the message's header where the zeros stand.
    pub fn put_header(&mut self, header: &Header) {
        let width = header
            .start
            .saturating_sub(HEADER_START.len())
            .saturating_sub(1);
        let len = i64::try_from(header.len).unwrap_or(i64::MAX).to_le_bytes();
        self.overwrite(0, &HEADER_START);
        self.overwrite(2, &header.capabilities.to_le_bytes());
        self.overwrite(HEADER_START.len(), &[integer_tag(width)]);
        self.overwrite(HEADER_START.len().saturating_add(1), &len[..width.min(8)]);
    }

    /// Puts these bytes in the place of those behind the first so many.
    fn overwrite(&mut self, at: usize, bytes: &[u8]) {
        let mut at = at;
        for byte in bytes {
            if let Some(slot) = self.bytes.get_mut(at) {
                *slot = *byte;
            }
            at = at.saturating_add(1);
        }
    }

    /// Puts an integer in so many bytes.
    fn put_number(&mut self, number: i64, width: usize) -> Result<(), AllocError> {
        let bytes = number.to_le_bytes();
        match width {
            1 => self.bytes.extend_from_slice(&bytes[..1]),
            2 => self.bytes.extend_from_slice(&bytes[..2]),
            4 => self.bytes.extend_from_slice(&bytes[..4]),
            _ => self.bytes.extend_from_slice(&bytes),
        }
    }

    /// Puts a length or a count, which has so many bytes with its tag.
    fn put_count(&mut self, count: usize, size: usize) -> Result<(), AllocError> {
        let width = size.saturating_sub(1);
        self.bytes.push(integer_tag(width))?;
        self.put_number(i64::try_from(count).unwrap_or(i64::MAX), width)
    }

    /// Puts a string behind its tag. It has so many bytes with its length.
    fn put_string(&mut self, string: &[u8], size: usize) -> Result<(), AllocError> {
        self.put_count(string.len(), size.saturating_sub(string.len()))?;
        self.bytes.extend_from_slice(string)
    }

    /// Puts a part behind the others.
    fn put(&mut self, event: Event<'_>, place: Place) -> Result<(), AllocError> {
        for _ in self.bytes.len()..place.start {
            self.bytes.push(0)?;
        }
        if let Some(tag) = event.tag(place) {
            self.bytes.push(tag)?;
        }
        let size = place.size();
        let behind = size.saturating_sub(1);
        match event {
            Event::Int(number) => self.put_number(number, behind),
            Event::Real(bits) => self.bytes.extend_from_slice(&bits.to_le_bytes()),
            Event::Bytes(string) => self.put_string(string, behind),
            Event::Text(string) | Event::Key(string) => self.put_string(string.as_bytes(), behind),
            Event::Array { len } | Event::Object { len } => self.put_count(len, behind),
            Event::Template { len } => {
                self.bytes.push(BSER_ARRAY)?;
                self.put_count(len, behind.saturating_sub(1))
            }
            Event::Rows { len } => self.put_count(len, size),
            Event::Null | Event::Bool(_) | Event::Skip | Event::Close => Ok(()),
        }
    }
}

impl Builder for Copied {
    ghost takes = { λ _ _ _ _. Unit {0} };

    ghost stopped = { λ _ _ _ _ _. Unit {0} };

    ghost stops = { true };

    ghost asks = { false };

    ghost bytes = { true };

    #[inline(always)]
    fn wants_bytes(&self) -> bool {
        true
    }

    #[inline(always)]
    fn take(&mut self, event: Event<'_>, place: Place) -> Result<(), Stop> {
        match self.put(event, place) {
            Ok(()) => Ok(()),
            Err(_) => Err(Stop::Memory),
        }
    }

    fn bytes_passed(&mut self, _len: usize, _place: Place) -> Result<(), Stop> {
        Ok(())
    }
}
