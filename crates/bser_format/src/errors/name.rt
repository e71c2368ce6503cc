//! The name of an enum, as an error keeps it.
ghost use Rattle.std.specs.Prelude.{◌≡◌, ◌≤◌, ◌<◌, ◌++◌, List, ℕ, length, take, IsUtf8, Some};
ghost use Rattle.std.specs.Str.{IsCharBoundary};

use std::fmt;

/// An enum's name, of which an error keeps at most [`EnumName::CAPACITY`] bytes: a longer name is
/// cut at a character.
#[derive(Clone, Copy, PartialEq, Eq)]
pub struct EnumName {
    bytes: [u8; EnumName::CAPACITY],
    len: u8,
    ghost within: { len ≤ 60 },
    ghost text: { ∥ IsUtf8 (take len bytes) ∥₁ },
}

impl EnumName {
    ghost use Rattle.bser_format.specs.EnumName.{kept, kept_whole};

    /// How many bytes of a name are kept.
    pub const CAPACITY: usize = 60;

    /// Keeps the name, or the longest prefix of whole characters that fits.
    pub fn new(name: &str) -> Self
        ensures whole { length name.now ≤ 60 → kept result ≡ name.now }
        ensures front { (rest : List ℕ) × (name.now ≡ kept result ++ rest) }
        ensures longest { (i : ℕ) → length (kept result) < i → i ≤ 60
            → ¬ (IsCharBoundary name.now i) }
        ensures known { (enum : EnumName) → kept_whole name.now ≡ Some enum → result ≡ enum }
    {
        let end = name.floor_char_boundary(Self::CAPACITY);
        let front = &name[..end];
        let mut bytes = [0; Self::CAPACITY];
        bytes[..end].copy_from_slice(front.as_bytes());
        EnumName {
            bytes,
            len: end as u8,
        }
    }

    /// Returns the name, as far as it was kept.
    pub fn as_str(&self) -> &str
        ensures { result.now ≡ kept self.now }
    {
        match str::from_utf8(&self.bytes[..self.len as usize]) {
            Ok(text) => text,
            Err(_) => unreachable!(),
        }
    }
}

impl fmt::Display for EnumName {
    fn fmt<W: fmt::Write>(&self, f: &mut fmt::Formatter<W>) -> fmt::Result {
        f.write_str(self.as_str())
    }
}

impl fmt::Debug for EnumName {
    fn fmt<W: fmt::Write>(&self, f: &mut fmt::Formatter<W>) -> fmt::Result {
        f.write_str(self.as_str())
    }
}
