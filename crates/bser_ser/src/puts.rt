//! The puts of a serializer.
ghost use Rattle.std.specs.Prelude.{◌≡◌, pos, ◌<◌, ◌^◌, OnOk, IfOk, IfErr, encode_utf8};
ghost use Rattle.bser_format.specs.Canonical.{IsWritableText};
ghost use Rattle.bser_format.specs.Pieces.{null_piece, bool_piece, integer_piece, real_piece, text_piece, bytes_piece, key_piece, array_head, object_head, template_tag, newtype_variant_head, tuple_variant_head, struct_variant_head};
ghost use Rattle.bser_format.specs.declared.errors.Collection.TheVariants.{Sequence, Map};
ghost use Rattle.bser_ser.specs.Message.{front_of};
ghost use Rattle.bser_ser.specs.Sent.{Puts, PutsOr, PutsHead, IsTooBig, IsTooMany, IsCounted, payload_head, skip_piece};

use crate::adds::Parts;
use crate::integer::{LONGEST, spell};
use crate::serializer::Serializer;
use bser_format::errors::{Collection, Complaint, Error, Result};
use bser_format::header::{BSER_ARRAY, BSER_OBJECT, BSER_SKIP, HEADER_START};
use bser_source::device::Sink;

/// Each put appends its piece, or nothing where it fails.
///
/// A put sends first where more than 4096 bytes are pending, and passes the writer's error on as
/// `Io`: it is what the writer answered, or of kind `WriteZero` where it took nothing, and is not
/// tried again. An allocation that fails is `OutOfMemory`. Other errors are named at each put. The
/// writer counts one failure for an `Io`, and none where a put succeeds or fails otherwise.
impl<W: Sink> Serializer<W> {
    /// Puts null.
    pub fn put_null(&mut self) -> Result<()>
        ensures { Puts W.Sink self.old self.new null_piece result }
    {
        match self.add_null() {
            Ok(()) => Ok(()),
            Err(_) => Err(self.refusal()),
        }
    }

    /// Puts a truth value.
    pub fn put_bool(&mut self, v: bool) -> Result<()>
        ensures { Puts W.Sink self.old self.new (bool_piece v) result }
    {
        match self.add_bool(v) {
            Ok(()) => Ok(()),
            Err(_) => Err(self.refusal()),
        }
    }

    /// Puts an integer in its least size.
    pub fn put_i64(&mut self, v: i64) -> Result<()>
        ensures { Puts W.Sink self.old self.new (integer_piece v) result }
    {
        match self.add_i64(v) {
            Ok(()) => Ok(()),
            Err(_) => Err(self.refusal()),
        }
    }

    /// Puts an integer in its least size. One above `i64::MAX` is `SerU64TooBig`.
    pub fn put_u64(&mut self, v: u64) -> Result<()>
        ensures put { PutsOr (IsTooBig v) W.Sink self.old self.new (integer_piece (pos v)) result }
        ensures fits { OnOk result (v < 2 ^ 63) }
    {
        match i64::try_from(v) {
            Ok(v) => self.put_i64(v),
            Err(_) => Err(Error::SerU64TooBig { v }),
        }
    }

    /// Puts a real, given by its 64 bits.
    pub fn put_real_bits(&mut self, bits: u64) -> Result<()>
        ensures { Puts W.Sink self.old self.new (real_piece bits) result }
    {
        match self.add_real_bits(bits) {
            Ok(()) => Ok(()),
            Err(_) => Err(self.refusal()),
        }
    }

    /// Puts a text.
    pub fn put_text(&mut self, text: &str) -> Result<()>
        ensures put { Puts W.Sink self.old self.new (text_piece text.now) result }
        ensures writable { OnOk result (IsWritableText text.now) }
    {
        match self.add_text(text) {
            Ok(()) => Ok(()),
            Err(_) => Err(self.refusal()),
        }
    }

    /// Puts the text of one character.
    pub fn put_char(&mut self, c: char) -> Result<()>
        ensures put { Puts W.Sink self.old self.new (text_piece (encode_utf8 c)) result }
        ensures writable { OnOk result (IsWritableText (encode_utf8 c)) }
    {
        let mut buf = [0; 4];
        self.put_text(c.encode_utf8(&mut buf))
    }

    /// Puts a byte string.
    pub fn put_bytes(&mut self, bytes: &[u8]) -> Result<()>
        ensures { Puts W.Sink self.old self.new (bytes_piece bytes.now) result }
    {
        match self.add_bytes(bytes) {
            Ok(()) => Ok(()),
            Err(_) => Err(self.refusal()),
        }
    }

    /// Puts an object's key: a text where it is UTF-8, else a byte string.
    pub fn put_key(&mut self, key: &[u8]) -> Result<()>
        ensures { Puts W.Sink self.old self.new (key_piece key.now) result }
    {
        match str::from_utf8(key) {
            Ok(text) => self.put_text(text),
            Err(_) => self.put_bytes(key),
        }
    }

    /// Puts an array's tag and count; the items follow.
    ///
    /// A missing count is `SerNeedSize`, and one above `i64::MAX` is `SerCustom` `CountTooGreat`.
    pub fn put_seq(&mut self, count: Option<usize>) -> Result<()>
        ensures put { PutsHead Sequence array_head W.Sink self.old self.new count result }
        ensures counted { OnOk result (IsCounted count) }
    {
        let Some(n) = count else {
            return Err(Error::SerNeedSize {
                kind: Collection::Sequence,
            });
        };
        let count = checked(n)?;
        match self.add_seq(count) {
            Ok(()) => Ok(()),
            Err(_) => Err(self.refusal()),
        }
    }

    /// Puts an object's tag and count; for each entry its key and its value follow.
    ///
    /// A missing count is `SerNeedSize`, and one above `i64::MAX` is `SerCustom` `CountTooGreat`.
    pub fn put_map(&mut self, count: Option<usize>) -> Result<()>
        ensures put { PutsHead Map object_head W.Sink self.old self.new count result }
        ensures counted { OnOk result (IsCounted count) }
    {
        let Some(n) = count else {
            return Err(Error::SerNeedSize {
                kind: Collection::Map,
            });
        };
        let count = checked(n)?;
        match self.add_map(count) {
            Ok(()) => Ok(()),
            Err(_) => Err(self.refusal()),
        }
    }

    /// Puts a template's tag. What follows is [`put_seq`](Self::put_seq) for the count of its keys,
    /// [`put_key`](Self::put_key) for each key, and [`put_i64`](Self::put_i64) for the count of its
    /// rows; then for each row a value for each key.
    ///
    /// Nothing checks that what follows makes a template.
    pub fn put_template(&mut self) -> Result<()>
        ensures { Puts W.Sink self.old self.new template_tag result }
    {
        match self.add_template() {
            Ok(()) => Ok(()),
            Err(_) => Err(self.refusal()),
        }
    }

    /// Puts a skip, which is in a template's row in the place of a field that the row does not
    /// have.
    ///
    /// Nothing checks that a row's field is due.
    pub fn put_skip(&mut self) -> Result<()>
        ensures { Puts W.Sink self.old self.new skip_piece result }
    {
        match self.append(&[BSER_SKIP]) {
            Ok(()) => Ok(()),
            Err(_) => Err(self.refusal()),
        }
    }

    /// Puts the beginning of an enum's variant with one value, which follows.
    pub fn put_newtype_variant(&mut self, name: &str) -> Result<()>
        ensures { Puts W.Sink self.old self.new (newtype_variant_head name.now) result }
    {
        match self.add_variant(name) {
            Ok(()) => Ok(()),
            Err(_) => Err(self.refusal()),
        }
    }

    /// Puts the beginning of an enum's variant with `count` values, which follow as the items of an
    /// array.
    ///
    /// A count above `i64::MAX` is `SerCustom` `CountTooGreat`.
    pub fn put_tuple_variant(&mut self, name: &str, count: usize) -> Result<()>
        ensures put { PutsOr (IsTooMany count) W.Sink self.old self.new
            (tuple_variant_head name.now count) result }
        ensures fits { OnOk result (count < 2 ^ 63) }
    {
        self.put_variant_of(name, BSER_ARRAY, count)
    }

    /// Puts the beginning of an enum's variant with `count` fields, which follow as the entries of
    /// an object.
    ///
    /// A count above `i64::MAX` is `SerCustom` `CountTooGreat`.
    pub fn put_struct_variant(&mut self, name: &str, count: usize) -> Result<()>
        ensures put { PutsOr (IsTooMany count) W.Sink self.old self.new
            (struct_variant_head name.now count) result }
        ensures fits { OnOk result (count < 2 ^ 63) }
    {
        self.put_variant_of(name, BSER_OBJECT, count)
    }

    /// Puts the header of a message: the magic, no capabilities, and the body's length in its least
    /// size, 8 to 15 bytes.
    ///
    /// `body` is the number of bytes of the one value that follows. Nothing checks it. A reader
    /// refuses a message whose body has another length, and one whose length is negative.
    pub fn put_header(&mut self, body: i64) -> Result<()>
        ensures { Puts W.Sink self.old self.new (front_of body) result }
    {
        let mut integer = [0; LONGEST];
        let len = spell(&mut integer, body);
        match self.append_parts(&HEADER_START, &integer[..len]) {
            Ok(()) => Ok(()),
            Err(_) => Err(self.refusal()),
        }
    }

    /// Puts the beginning of a variant, and its payload's tag and count.
    fn put_variant_of(&mut self, name: &str, tag: u8, count: usize) -> Result<()>
        ensures put { PutsOr (IsTooMany count) W.Sink self.old self.new
            (payload_head name.now tag (pos count)) result }
        ensures fits { OnOk result (count < 2 ^ 63) }
    {
        let count = checked(count)? as i64;
        match self.add_variant_of(name, tag, count) {
            Ok(()) => Ok(()),
            Err(_) => Err(self.refusal()),
        }
    }
}

/// The count, where the format has it.
fn checked(n: usize) -> Result<usize>
    ensures same { IfOk result (λ count. count ≡ n) }
    ensures fits { OnOk result (n < 2 ^ 63) }
    ensures err { IfErr result (IsTooMany n) }
{
    match i64::try_from(n) {
        Ok(_) => Ok(n),
        Err(_) => Err(Error::ser_custom(Complaint::CountTooGreat)),
    }
}
