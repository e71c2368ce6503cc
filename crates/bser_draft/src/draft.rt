//! A message that is written part by part.
ghost use Rattle.std.specs.Prelude.{◌≡◌, [], IfOk};
ghost use Rattle.bser_format.specs.Pieces.{null_piece, bool_piece, integer_piece, real_piece, text_piece, bytes_piece, key_piece, array_head, object_head};
ghost use Rattle.bser_source.specs.Window.{AreOctets};
ghost use Rattle.bser_draft.specs.Begun.{Begun, put_in, body_of, Puts, HasBody};
ghost use Rattle.bser_draft.specs.Written.{IsLeastMessage};

use crate::containers::OpenContainers;
use crate::draft_error::{DraftError, Put};
use bser_deserializer::deserializer::LEVELS;
use bser_ser::message::{SHORTEST_HEADER, gap, put_in_gap};
use bser_ser::{InMemory, Parts, Serializer};
use std::alloc::{AllocError, Global};

/// The most items or entries that a message can count.
const MOST_COUNTED: usize = i64::MAX as usize;

/// A message that is written part by part, and holds no tree of its value.
///
/// Each part is put where it may come, and is refused elsewhere: what was put is the beginning of a
/// message of at most 128 levels, without templates, each integer, length and count in its least
/// width. A part that is refused is not put, and another may come in its place.
#[derive(Drop)]
pub struct Draft {
    /// The parts, behind a gap for a header.
    out: Serializer<InMemory>,
    containers: OpenContainers,
    ghost begun: { ∥ Begun (put_in out) containers ∥₁ },
}

impl Draft {
    /// Begins a message of one value. It fails where there is no memory.
    pub fn new(alloc: Global) -> Result<Draft, AllocError>
        ensures { IfOk result (λ draft. body_of (put_in draft.out) ≡ []) }
    {
        let gap = gap(alloc)?;
        Ok(Draft {
            out: Serializer::new(alloc, InMemory::new(gap)),
            containers: OpenContainers::new(alloc, LEVELS),
        })
    }

    /// Returns whether a value may come.
    #[inline(always)]
    pub fn is_value_due(&self) -> bool {
        self.containers.expect_value().is_ok()
    }

    /// Returns how many containers are open.
    #[inline(always)]
    pub fn depth(&self) -> usize {
        self.containers.outer.len()
    }

    /// Puts null, as the next value.
    ///
    /// This and each call below fails with [`DraftError::Unexpected`] where the part may not come,
    /// and with [`DraftError::OutOfMemory`]; then nothing was put.
    #[inline(always)]
    pub fn put_null(&mut self) -> Put
        ensures { Puts self.old.out self.new.out null_piece result }
    {
        self.containers.expect_value()?;
        let put = self.out.add_null();
        self.containers.take_value(put)
    }

    /// Puts a truth value.
    #[inline(always)]
    pub fn put_bool(&mut self, v: bool) -> Put
        ensures { Puts self.old.out self.new.out (bool_piece v) result }
    {
        self.containers.expect_value()?;
        let put = self.out.add_bool(v);
        self.containers.take_value(put)
    }

    /// Puts an integer.
    #[inline(always)]
    pub fn put_i64(&mut self, v: i64) -> Put
        ensures { Puts self.old.out self.new.out (integer_piece v) result }
    {
        self.containers.expect_value()?;
        let put = self.out.add_i64(v);
        self.containers.take_value(put)
    }

    /// Puts a real, given by its 64 bits.
    #[inline(always)]
    pub fn put_real_bits(&mut self, bits: u64) -> Put
        ensures { Puts self.old.out self.new.out (real_piece bits) result }
    {
        self.containers.expect_value()?;
        let put = self.out.add_real_bits(bits);
        self.containers.take_value(put)
    }

    /// Puts a text.
    #[inline(always)]
    pub fn put_text(&mut self, text: &str) -> Put
        ensures { Puts self.old.out self.new.out (text_piece text.now) result }
    {
        self.containers.expect_value()?;
        let put = self.out.add_text(text);
        self.containers.take_value(put)
    }

    /// Puts a byte string.
    #[inline(always)]
    pub fn put_bytes(&mut self, bytes: &[u8]) -> Put
        ensures { Puts self.old.out self.new.out (bytes_piece bytes.now) result }
    {
        self.containers.expect_value()?;
        let put = self.out.add_bytes(bytes);
        self.containers.take_value(put)
    }

    /// Puts the key of the next entry.
    #[inline(always)]
    pub fn put_key(&mut self, key: &str) -> Put
        ensures { Puts self.old.out self.new.out (key_piece key.now) result }
    {
        self.containers.expect_key()?;
        let put = self.out.add_text_key(key);
        self.containers.take_key(put)
    }

    /// Opens an array of so many items. It fails with [`DraftError::CountTooGreat`] for more than
    /// `i64::MAX`, and with [`DraftError::ArrayTooDeep`] below 128 levels.
    #[inline(always)]
    pub fn open_array(&mut self, count: usize) -> Put
        ensures { Puts self.old.out self.new.out (array_head count) result }
    {
        if count > MOST_COUNTED {
            return Err(DraftError::CountTooGreat);
        }
        self.containers.enter(count, 0, DraftError::ArrayTooDeep)?;
        let put = self.out.add_seq(count);
        self.containers.settle(put)
    }

    /// Opens an object of so many entries. It fails with [`DraftError::CountTooGreat`] for more
    /// than `i64::MAX`, and with [`DraftError::ObjectTooDeep`] below 128 levels.
    #[inline(always)]
    pub fn open_object(&mut self, count: usize) -> Put
        ensures { Puts self.old.out self.new.out (object_head count) result }
    {
        if count > MOST_COUNTED {
            return Err(DraftError::CountTooGreat);
        }
        self.containers.enter(0, count, DraftError::ObjectTooDeep)?;
        let put = self.out.add_map(count);
        self.containers.settle(put)
    }

    /// Closes the innermost container, of which all has come.
    #[inline(always)]
    pub fn close(&mut self) -> Put
        ensures { self.new.out ≡ self.old.out }
    {
        self.containers.leave()
    }

    /// Opens an object whose entries are to be counted, and has no count yet. Then no message comes
    /// of the draft: it is rough.
    #[inline(never)]
    pub fn open_uncounted(&mut self) -> Put
        ensures { Puts self.old.out self.new.out (object_head 0) result }
    {
        self.containers
            .enter(0, usize::MAX, DraftError::ObjectTooDeep)?;
        self.containers.is_rough = true;
        let put = self.out.add_map(0);
        self.containers.settle(put)
    }

    /// Closes such an object, and returns how many entries came.
    #[inline(never)]
    pub fn close_uncounted(&mut self) -> Result<usize, DraftError>
        ensures { self.new.out ≡ self.old.out }
    {
        self.containers.leave_uncounted()
    }

    /// Returns whether no message comes of what was put, whatever is put behind it.
    #[inline(always)]
    pub fn is_rough(&self) -> bool {
        self.containers.is_rough
    }

    /// Returns the message. It fails with [`DraftError::Unexpected`] where not all of it has come,
    /// and where the draft is rough; with [`DraftError::CountTooGreat`] where its body is longer
    /// than `i64::MAX` bytes; and with [`DraftError::OutOfMemory`].
    pub fn finish(self) -> Result<Vec<u8>, DraftError>
        ensures least { IfOk result (λ message. IsLeastMessage message.items) }
        ensures whole { IfOk result (λ message. HasBody message.items
            (body_of (put_in self.out))) }
    {
        let Draft { out, containers } = self;
        if containers.is_rough || !containers.are_done() {
            return Err(DraftError::Unexpected);
        }
        let mut message = match out.finish() {
            Ok(memory) => memory.into_inner(),
            Err(_) => return Err(DraftError::OutOfMemory),
        };
        let Ok(body) = i64::try_from(message.len() - SHORTEST_HEADER) else {
            return Err(DraftError::CountTooGreat);
        };
        match put_in_gap(&mut message, body) {
            Ok(()) => {}
            Err(_) => return Err(DraftError::OutOfMemory),
        }
        are_octets(&message);
        Ok(message)
    }
}

/// Does nothing: that bytes are below 256 is its contract.
#[inline(always)]
fn are_octets(bytes: &[u8])
    ensures { AreOctets bytes.now }
{
    let _ = bytes;
}
