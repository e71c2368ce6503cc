//! The tags of the format, and the header of a message.
ghost use Rattle.std.specs.Prelude.{◌≡◌, ◌∷◌, ◌++◌, replicate, IfOk, option_map, string_bytes};
ghost use Rattle.bser_format.specs.HeaderBytes.{integer_tag, tag_name, description};
ghost use Rattle.bser_format.specs.declared.header.TheConstants.{BSER_CAP_DISABLE_UNICODE};
ghost use Rattle.bser_format.specs.declared.header.TheConstants.{BSER_CAP_DISABLE_UNICODE_FOR_ERRORS};
ghost use Rattle.bser_format.specs.declared.header.TheConstants.{EMPTY_HEADER};

use std::alloc::{AllocError, Global};
use std::fmt;

/// The tag of an array: a count and the items follow.
pub const BSER_ARRAY: u8 = 0x00;
/// The tag of an object: a count follows, and for each entry a key and a value.
pub const BSER_OBJECT: u8 = 0x01;
/// The tag of a byte string: a length and the bytes follow.
pub const BSER_BYTESTRING: u8 = 0x02;
/// The tag of an integer of one byte.
pub const BSER_INT8: u8 = 0x03;
/// The tag of an integer of two bytes.
pub const BSER_INT16: u8 = 0x04;
/// The tag of an integer of four bytes.
pub const BSER_INT32: u8 = 0x05;
/// The tag of an integer of eight bytes.
pub const BSER_INT64: u8 = 0x06;
/// The tag of a real: eight bytes follow.
pub const BSER_REAL: u8 = 0x07;
/// The truth value true.
pub const BSER_TRUE: u8 = 0x08;
/// The truth value false.
pub const BSER_FALSE: u8 = 0x09;
/// Null.
pub const BSER_NULL: u8 = 0x0a;
/// The tag of a template: an array of keys, a count of rows and each row's fields follow.
pub const BSER_TEMPLATE: u8 = 0x0b;
/// A missing field of a template.
pub const BSER_SKIP: u8 = 0x0c;
/// The tag of a text: a length and the bytes follow, which are UTF-8.
pub const BSER_UTF8STRING: u8 = 0x0d;

/// What a message with no capability begins with: the magic and the capabilities. The length of the
/// body follows.
pub const HEADER_START: [u8; 6] = [0, 2, 0, 0, 0, 0];

/// The header of a message with no capability, and room for a length of four bytes.
pub const EMPTY_HEADER: &[u8] = b"\x00\x02\x00\x00\x00\x00\x05\x00\x00\x00\x00";

/// The capability that turns texts into byte strings.
pub const BSER_CAP_DISABLE_UNICODE: u8 = 1;
/// The capability that turns texts into byte strings in errors.
pub const BSER_CAP_DISABLE_UNICODE_FOR_ERRORS: u8 = 2;

/// States the constants that no call cites: the two capabilities, and the empty header. The
/// function does nothing, and its contract is the law.
pub fn constants()
    ensures disable_unicode { BSER_CAP_DISABLE_UNICODE ≡ 1 }
    ensures disable_unicode_for_errors { BSER_CAP_DISABLE_UNICODE_FOR_ERRORS ≡ 2 }
    ensures empty_header { EMPTY_HEADER.now
        ≡ 0x00 ∷ 0x02 ∷ replicate 4 0x00 ++ (0x05 ∷ replicate 4 0x00) }
{}

/// Returns the tag of an integer of so many bytes: 1, 2, 4 or 8.
#[inline]
pub fn integer_tag(width: usize) -> u8
    ensures { result ≡ integer_tag width }
{
    match width {
        1 => BSER_INT8,
        2 => BSER_INT16,
        4 => BSER_INT32,
        _ => BSER_INT64,
    }
}

/// Prints a byte by the name of the tag that it is, and an unknown one in decimal.
#[derive(Debug, Clone, Copy, PartialEq, Eq)]
pub struct HeaderByte(pub u8);

impl HeaderByte {
    /// The name of the tag, where the byte is one.
    fn name(self) -> Option<&'static str>
        ensures { option_map (λ s. s.now) result ≡ tag_name self.0 }
    {
        Some(match self.0 {
            BSER_ARRAY => "BSER_ARRAY",
            BSER_OBJECT => "BSER_OBJECT",
            BSER_BYTESTRING => "BSER_BYTESTRING",
            BSER_INT8 => "BSER_INT8",
            BSER_INT16 => "BSER_INT16",
            BSER_INT32 => "BSER_INT32",
            BSER_INT64 => "BSER_INT64",
            BSER_REAL => "BSER_REAL",
            BSER_TRUE => "BSER_TRUE",
            BSER_FALSE => "BSER_FALSE",
            BSER_NULL => "BSER_NULL",
            BSER_TEMPLATE => "BSER_TEMPLATE",
            BSER_SKIP => "BSER_SKIP",
            BSER_UTF8STRING => "BSER_UTF8STRING",
            _ => return None,
        })
    }
}

impl fmt::Display for HeaderByte {
    ghost use Rattle.std.specs.Prelude.{Some};

    ghost output = { λ b. Some (description b.0) };

    fn fmt<W: fmt::Write>(&self, f: &mut fmt::Formatter<W>) -> fmt::Result {
        match self.name() {
            Some(name) => f.write_str(name),
            None => write!(f, "unknown byte '{}'", self.0),
        }
    }
}

/// Returns the name of the tag that the byte is, or `unknown byte 'N'` with the byte in decimal.
///
/// The only error is that there is no memory.
pub fn header_byte_desc(alloc: Global, byte: u8) -> std::result::Result<String, AllocError>
    ensures { IfOk result (λ s. string_bytes s ≡ description byte) }
{
    HeaderByte(byte).to_string(alloc)
}
