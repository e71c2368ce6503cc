//! The JSON texts that follow each other.
ghost use Rattle.std.specs.Prelude.{◌≤◌, length, IfSome};

use crate::fault::is_blank;

/// How far a value is scanned.
#[derive(Clone, Copy)]
pub(crate) struct Scan {
    depth: u64,
    is_string: bool,
    is_escaped: bool,
}

/// Where a byte is in the value.
#[derive(Drop)]
enum ByteState {
    Inside,
    Before,
    Behind,
}

impl Scan {
    /// Nothing is scanned.
    pub(crate) fn new() -> Self {
        Scan {
            depth: 0,
            is_string: false,
            is_escaped: false,
        }
    }

    /// Scans the bytes of a value behind so many that are scanned, and answers where it ends:
    /// behind the bracket that closes its first, behind the quote that ends its string, or before
    /// a blank, an opening bracket or a quote. None where that is not among the bytes.
    pub(crate) fn end(&mut self, bytes: &[u8], scanned: usize) -> Option<usize>
        ensures { IfSome result (λ n. n ≤ length bytes.now) }
    {
        let mut scan = *self;
        for at in scanned..bytes.len() {
            match scan.step(bytes[at], at == 0) {
                ByteState::Inside => {}
                ByteState::Before => return Some(at),
                ByteState::Behind => return Some(at + 1),
            }
        }
        *self = scan;
        None
    }

    /// Scans the next byte.
    fn step(&mut self, byte: u8, is_first: bool) -> ByteState {
        if self.is_string {
            return self.step_in_string(byte);
        }
        match byte {
            b'"' | b'{' | b'[' if self.depth == 0 && !is_first => ByteState::Before,
            b'"' => {
                self.is_string = true;
                ByteState::Inside
            }
            b'{' | b'[' => {
                self.depth = self.depth.saturating_add(1);
                ByteState::Inside
            }
            b'}' | b']' => {
                self.depth = self.depth.saturating_sub(1);
                self.ending()
            }
            _ if self.depth > 0 => ByteState::Inside,
            _ if !is_first && is_blank(byte) => ByteState::Before,
            _ => ByteState::Inside,
        }
    }

    /// Scans the next byte, inside a string.
    fn step_in_string(&mut self, byte: u8) -> ByteState {
        match byte {
            b'\\' => {
                self.is_escaped = !self.is_escaped;
                ByteState::Inside
            }
            b'"' if !self.is_escaped => {
                self.is_string = false;
                self.ending()
            }
            _ => {
                self.is_escaped = false;
                ByteState::Inside
            }
        }
    }

    /// Whether the value ends behind this byte.
    fn ending(&self) -> ByteState {
        if self.depth == 0 {
            ByteState::Behind
        } else {
            ByteState::Inside
        }
    }
}
