//! The puts of a serializer that keep the error in it.
ghost use Rattle.std.specs.Prelude.{◌≡◌, ◌<◌, ◌≤◌, ◌^◌, ◌∷◌, ◌++◌, [], length, take};
ghost use Rattle.bser_format.specs.Canonical.{least_integer, least_count};
ghost use Rattle.bser_format.specs.Pieces.{null_piece, bool_piece, integer_piece, real_piece, text_piece, bytes_piece, key_piece, array_head, object_head, template_tag, newtype_variant_head};
ghost use Rattle.bser_ser.specs.Sent.{Adds, payload_head, string_piece, refusal_of};

use crate::integer::{LONGEST, spell};
use crate::pending::{append_both, append_variant, append_variant_of};
use crate::serializer::{PutRefused, Serializer};
use bser_format::errors::Error;
use bser_format::header::{
    BSER_ARRAY, BSER_BYTESTRING, BSER_FALSE, BSER_INT8, BSER_NULL, BSER_OBJECT, BSER_REAL,
    BSER_TEMPLATE, BSER_TRUE, BSER_UTF8STRING,
};
use bser_source::device::Sink;
use byteorder::{ByteOrder, LittleEndian};
use std::result::Result;

/// Puts a value of many parts without passing an error from part to part, as a [`Serializer`] does.
/// It is a trait only so that the crates above can call what users do not get.
///
/// Each call does what the put of its name does. Where it fails it answers [`PutRefused`], and
/// [`refusal`](Self::refusal) gives the error: the writer's own at this call (`Io`), or
/// `OutOfMemory`. Every other call keeps that error.
pub trait Parts {
    /// Returns the error of the last call that answered [`PutRefused`], and `OutOfMemory` before
    /// the first.
    fn refusal(&self) -> Error;

    /// Puts null.
    fn add_null(&mut self) -> Result<(), PutRefused>;

    /// Puts a truth value.
    fn add_bool(&mut self, v: bool) -> Result<(), PutRefused>;

    /// Puts an integer in its least size.
    fn add_i64(&mut self, v: i64) -> Result<(), PutRefused>;

    /// Puts a real, given by its 64 bits.
    fn add_real_bits(&mut self, bits: u64) -> Result<(), PutRefused>;

    /// Puts a text.
    fn add_text(&mut self, text: &str) -> Result<(), PutRefused>;

    /// Puts a byte string.
    fn add_bytes(&mut self, bytes: &[u8]) -> Result<(), PutRefused>;

    /// Puts an object's key that is a text, as [`put_key`](Serializer::put_key) does.
    fn add_text_key(&mut self, key: &str) -> Result<(), PutRefused>;

    /// Puts an array's tag and count; the items follow.
    fn add_seq(&mut self, count: usize) -> Result<(), PutRefused>
        requires { count < 2 ^ 63 };

    /// Puts an object's tag and count; for each entry its key and its value follow.
    fn add_map(&mut self, count: usize) -> Result<(), PutRefused>
        requires { count < 2 ^ 63 };

    /// Puts a template's tag. What follows is [`add_seq`](Self::add_seq) for the count of its keys,
    /// each key as a text, and the count of its rows as an integer; then the fields of each row.
    fn add_template(&mut self) -> Result<(), PutRefused>;
}

impl<W: Sink> Parts for Serializer<W> {
    #[cold]
    fn refusal(&self) -> Error
        ensures { result ≡ refusal_of self.now }
    {
        match self.fault {
            Some(fault) => Error::Io(fault),
            None => Error::OutOfMemory,
        }
    }

    #[inline(always)]
    fn add_null(&mut self) -> Result<(), PutRefused>
        ensures { Adds W.Sink self.old self.new null_piece result }
    {
        self.append(&[BSER_NULL])
    }

    #[inline(always)]
    fn add_bool(&mut self, v: bool) -> Result<(), PutRefused>
        ensures { Adds W.Sink self.old self.new (bool_piece v) result }
    {
        self.append(&[if v { BSER_TRUE } else { BSER_FALSE }])
    }

    #[inline(always)]
    fn add_i64(&mut self, v: i64) -> Result<(), PutRefused>
        ensures { Adds W.Sink self.old self.new (integer_piece v) result }
    {
        let mut integer = [0; LONGEST];
        let len = spell(&mut integer, v);
        if self.is_taken_at_once(&integer[..len], &[]) {
            return Ok(());
        }
        self.append_pending_front(&integer, len)
    }

    #[inline(always)]
    fn add_real_bits(&mut self, bits: u64) -> Result<(), PutRefused>
        ensures { Adds W.Sink self.old self.new (real_piece bits) result }
    {
        let mut piece = [BSER_REAL; 9];
        LittleEndian::write_u64(&mut piece[1..], bits);
        self.append(&piece)
    }

    #[inline(always)]
    fn add_text(&mut self, text: &str) -> Result<(), PutRefused>
        ensures { Adds W.Sink self.old self.new (text_piece text.now) result }
    {
        self.add_string(BSER_UTF8STRING, text.as_bytes())
    }

    #[inline(always)]
    fn add_bytes(&mut self, bytes: &[u8]) -> Result<(), PutRefused>
        ensures { Adds W.Sink self.old self.new (bytes_piece bytes.now) result }
    {
        self.add_string(BSER_BYTESTRING, bytes)
    }

    #[inline(always)]
    fn add_text_key(&mut self, key: &str) -> Result<(), PutRefused>
        ensures { Adds W.Sink self.old self.new (key_piece key.now) result }
    {
        self.add_text(key)
    }

    #[inline(always)]
    fn add_seq(&mut self, count: usize) -> Result<(), PutRefused>
        requires { count < 2 ^ 63 }
        ensures { Adds W.Sink self.old self.new (array_head count) result }
    {
        self.add_head(BSER_ARRAY, count)
    }

    #[inline(always)]
    fn add_map(&mut self, count: usize) -> Result<(), PutRefused>
        requires { count < 2 ^ 63 }
        ensures { Adds W.Sink self.old self.new (object_head count) result }
    {
        self.add_head(BSER_OBJECT, count)
    }

    #[inline(always)]
    fn add_template(&mut self) -> Result<(), PutRefused>
        ensures { Adds W.Sink self.old self.new template_tag result }
    {
        self.append(&[BSER_TEMPLATE])
    }
}

/// What these calls are made of.
impl<W: Sink> Serializer<W> {
    /// Puts the beginning of an enum's variant with one value.
    pub(crate) fn add_variant(&mut self, name: &str) -> Result<(), PutRefused>
        ensures { Adds W.Sink self.old self.new (newtype_variant_head name.now) result }
    {
        self.make_room()?;
        match append_variant(&mut self.pending, name) {
            Ok(()) => Ok(()),
            Err(_) => Err(self.out_of_memory()),
        }
    }

    /// Puts the beginning of a variant, and its payload's tag and count.
    pub(crate) fn add_variant_of(
        &mut self,
        name: &str,
        tag: u8,
        count: i64,
    ) -> Result<(), PutRefused>
        ensures { Adds W.Sink self.old self.new (payload_head name.now tag count) result }
    {
        self.make_room()?;
        match append_variant_of(&mut self.pending, name, tag, count) {
            Ok(()) => Ok(()),
            Err(_) => Err(self.out_of_memory()),
        }
    }

    /// Puts a container's tag and its count.
    #[inline(always)]
    fn add_head(&mut self, tag: u8, count: usize) -> Result<(), PutRefused>
        requires { count < 2 ^ 63 }
        ensures { Adds W.Sink self.old self.new (tag ∷ least_count count) result }
    {
        if count < 0x80 {
            return self.append(&[tag, BSER_INT8, count as u8]);
        }
        self.add_great_counted(tag, count as i64, &[])
    }

    /// Puts a string under this tag.
    #[inline(always)]
    fn add_string(&mut self, tag: u8, bytes: &[u8]) -> Result<(), PutRefused>
        ensures { Adds W.Sink self.old self.new (string_piece tag bytes.now) result }
    {
        if bytes.len() < 0x80 {
            let count = bytes.len() as u8;
            if self.is_taken_at_once(&[tag, BSER_INT8, count], bytes) {
                return Ok(());
            }
            return self.append_pending_short(tag, count, bytes);
        }
        self.add_great_counted(tag, bytes.len() as i64, bytes)
    }

    /// Puts a tag and a count, and then these bytes, whatever size the count takes.
    #[inline(never)]
    fn add_great_counted(&mut self, tag: u8, count: i64, bytes: &[u8]) -> Result<(), PutRefused>
        ensures { Adds W.Sink self.old self.new (tag ∷ (least_integer count ++ bytes.now)) result }
    {
        let mut head = [tag; LONGEST + 1];
        let len = spell(&mut head[1..], count);
        self.append_parts(&head[..len + 1], bytes)
    }

    /// Puts a piece.
    #[inline(always)]
    pub(crate) fn append(&mut self, piece: &[u8]) -> Result<(), PutRefused>
        ensures { Adds W.Sink self.old self.new piece.now result }
    {
        if self.is_taken_at_once(piece, &[]) {
            return Ok(());
        }
        self.append_pending_front(piece, piece.len())
    }

    /// Puts a piece that is given in two parts.
    #[inline]
    pub(crate) fn append_parts(&mut self, head: &[u8], end: &[u8]) -> Result<(), PutRefused>
        ensures { Adds W.Sink self.old self.new (head.now ++ end.now) result }
    {
        if self.is_taken_at_once(head, end) {
            return Ok(());
        }
        self.append_pending_parts(head, end)
    }

    /// Puts the first n bytes of `bytes` where they wait for the writer.
    ///
    /// All are put there and the rest is cut off, since a copy whose length the compiler knows takes
    /// no call.
    #[inline(always)]
    fn append_pending_front(&mut self, bytes: &[u8], n: usize) -> Result<(), PutRefused>
        requires { n ≤ length bytes.now }
        ensures { Adds W.Sink self.old self.new (take n bytes.now) result }
    {
        self.make_room()?;
        let before = self.pending.len();
        match self.pending.extend_from_slice(bytes) {
            Ok(()) => {
                self.pending.truncate(before + n);
                Ok(())
            }
            Err(_) => Err(self.out_of_memory()),
        }
    }

    /// Puts a tag and a count of one byte, and then these bytes, where they wait for the writer.
    #[inline(never)]
    fn append_pending_short(&mut self, tag: u8, count: u8, bytes: &[u8]) -> Result<(), PutRefused>
        ensures { Adds W.Sink self.old self.new (tag ∷ 3 ∷ count ∷ bytes.now) result }
    {
        self.make_room()?;
        match append_both(&mut self.pending, &[tag, BSER_INT8, count], bytes) {
            Ok(()) => Ok(()),
            Err(_) => Err(self.out_of_memory()),
        }
    }

    /// Puts a piece that is given in two parts where it waits for the writer.
    #[inline(never)]
    fn append_pending_parts(&mut self, head: &[u8], end: &[u8]) -> Result<(), PutRefused>
        ensures { Adds W.Sink self.old self.new (head.now ++ end.now) result }
    {
        self.make_room()?;
        match append_both(&mut self.pending, head, end) {
            Ok(()) => Ok(()),
            Err(_) => Err(self.out_of_memory()),
        }
    }
}
