//! Values without parts.
ghost use Rattle.std.specs.Prelude.{Ok, pos, string_bytes, encode_utf8};
ghost use Rattle.std.specs.Cow.{cow_str_bytes};
ghost use Rattle.bser_format.specs.Tree.{null, boolean, integer, bytes, text};
ghost use Rattle.bser_format.specs.Written.{unsigned_tree};

use crate::Serialize;
use crate::serializer::Serializer;
use bser_format::bytestring::ByteString;
use bser_format::errors::Result;
use bser_source::device::Sink;
use std::alloc::Global;
use std::borrow::CowStr;

impl Serialize for () {
    ghost meaning = { λ _. Ok null };

    fn serialize<W: Sink>(&self, _alloc: Global, out: &mut Serializer<W>) -> Result<()> {
        out.put_null()
    }
}

impl Serialize for bool {
    ghost meaning = { λ v. Ok (boolean v) };

    fn serialize<W: Sink>(&self, _alloc: Global, out: &mut Serializer<W>) -> Result<()> {
        out.put_bool(*self)
    }
}

impl Serialize for i8 {
    ghost meaning = { λ v. Ok (integer v) };

    fn serialize<W: Sink>(&self, _alloc: Global, out: &mut Serializer<W>) -> Result<()> {
        out.put_i64(i64::from(*self))
    }
}

impl Serialize for i16 {
    ghost meaning = { λ v. Ok (integer v) };

    fn serialize<W: Sink>(&self, _alloc: Global, out: &mut Serializer<W>) -> Result<()> {
        out.put_i64(i64::from(*self))
    }
}

impl Serialize for i32 {
    ghost meaning = { λ v. Ok (integer v) };

    fn serialize<W: Sink>(&self, _alloc: Global, out: &mut Serializer<W>) -> Result<()> {
        out.put_i64(i64::from(*self))
    }
}

impl Serialize for i64 {
    ghost meaning = { λ v. Ok (integer v) };

    fn serialize<W: Sink>(&self, _alloc: Global, out: &mut Serializer<W>) -> Result<()> {
        out.put_i64(*self)
    }
}

impl Serialize for u8 {
    ghost meaning = { λ v. Ok (integer (pos v)) };

    fn serialize<W: Sink>(&self, _alloc: Global, out: &mut Serializer<W>) -> Result<()> {
        out.put_i64(i64::from(*self))
    }
}

impl Serialize for u16 {
    ghost meaning = { λ v. Ok (integer (pos v)) };

    fn serialize<W: Sink>(&self, _alloc: Global, out: &mut Serializer<W>) -> Result<()> {
        out.put_i64(i64::from(*self))
    }
}

impl Serialize for u32 {
    ghost meaning = { λ v. Ok (integer (pos v)) };

    fn serialize<W: Sink>(&self, _alloc: Global, out: &mut Serializer<W>) -> Result<()> {
        out.put_i64(i64::from(*self))
    }
}

impl Serialize for u64 {
    ghost meaning = { unsigned_tree };

    fn serialize<W: Sink>(&self, _alloc: Global, out: &mut Serializer<W>) -> Result<()> {
        out.put_u64(*self)
    }
}

impl Serialize for usize {
    ghost meaning = { unsigned_tree };

    fn serialize<W: Sink>(&self, _alloc: Global, out: &mut Serializer<W>) -> Result<()> {
        out.put_u64(*self as u64)
    }
}

impl Serialize for isize {
    ghost meaning = { λ v. Ok (integer v) };

    fn serialize<W: Sink>(&self, _alloc: Global, out: &mut Serializer<W>) -> Result<()> {
        out.put_i64(*self as i64)
    }
}

impl Serialize for char {
    ghost meaning = { λ c. Ok (text (encode_utf8 c)) };

    fn serialize<W: Sink>(&self, _alloc: Global, out: &mut Serializer<W>) -> Result<()> {
        out.put_char(*self)
    }
}

impl Serialize for &str {
    ghost meaning = { λ s. Ok (text s.now) };

    fn serialize<W: Sink>(&self, _alloc: Global, out: &mut Serializer<W>) -> Result<()> {
        out.put_text(self)
    }
}

impl Serialize for String {
    ghost meaning = { λ s. Ok (text (string_bytes s)) };

    fn serialize<W: Sink>(&self, _alloc: Global, out: &mut Serializer<W>) -> Result<()> {
        out.put_text(self.as_str())
    }
}

impl<'a> Serialize for CowStr<'a> {
    ghost meaning = { λ s. Ok (text (cow_str_bytes s)) };

    fn serialize<W: Sink>(&self, _alloc: Global, out: &mut Serializer<W>) -> Result<()> {
        out.put_text(self.as_str())
    }
}

impl Serialize for ByteString {
    ghost meaning = { λ s. Ok (bytes s) };

    fn serialize<W: Sink>(&self, _alloc: Global, out: &mut Serializer<W>) -> Result<()> {
        out.put_bytes(self.as_bytes())
    }
}
