//! Reading scalars.
ghost use Rattle.std.specs.Prelude.{◌≡◌, ◌≢◌, false, IfOk, OnErr, OnOk};
ghost use Rattle.bser_format.specs.ReadsScalars.{reads_bool, reads_unit, reads_real};
ghost use Rattle.bser_deserializer.specs.Askings.{asking_bool, asking_real, asking_unit};
ghost use Rattle.bser_deserializer.specs.Calls.{Keeps, Reads, ReadsInteger, RefusesAs, RefusesInteger, RefusesNode, TakesNull, is_out_of_range};
ghost use Rattle.bser_deserializer.specs.Dues.{IsTagged, IsValueDue};
ghost use Rattle.bser_deserializer.specs.Holds.{HoldsTruth, HoldsSize, HoldsOne};
ghost use Rattle.bser_deserializer.specs.Nodes.{tag_node, SeesNode};
ghost use Rattle.bser_deserializer.specs.Reading.{bare};
ghost use Rattle.bser_deserializer.specs.View.{is_null_at, is_other_kind};

use crate::cursor::Cursor;
use crate::deserializer::{Deserializer, Due};
use crate::node::Node;
use crate::note::Wanted;
use bser_bunser::prefix::{Look, Unexpected};
use bser_bunser::refusal::Answer;
use bser_format::errors::{Complaint, Error};
use bser_format::header::{
    BSER_FALSE, BSER_NULL, BSER_REAL, BSER_SKIP, BSER_TEMPLATE, BSER_TRUE, BSER_UTF8STRING,
};
use bser_source::read::DeRead;

/// Whether a value with this tag is of a kind, and of another than null.
#[inline(always)]
fn is_something(tag: u8) -> bool
    ensures { result ≡ is_other_kind (tag_node tag) }
{
    tag < BSER_NULL || tag == BSER_UTF8STRING || tag == BSER_TEMPLATE
}

impl<R: DeRead> Deserializer<R> {
    /// Returns what kind of value is expected. It is not taken: what is read next begins with the
    /// tag that was seen.
    ///
    /// A template is an array, its row an object, and a skipped field null. The key of an object or
    /// of a row's field is [`Node::Key`]. The error is [`Complaint::TooFewItems`] or
    /// [`Complaint::ValueOpen`] where nothing is expected, and
    /// [`DeInvalidStartByte`](bser_format::errors::Error::DeInvalidStartByte) where a byte is next
    /// that may not be there. Out of memory never comes.
    #[inline(always)]
    pub fn node(&mut self) -> Answer<Node>
        ensures found { IfOk result (SeesNode self.old.state self.new.state) }
        ensures kept { OnOk result (Keeps self.old self.new) }
        ensures refused { OnErr result (RefusesNode self.old self.new) }
        ensures memory { OnErr result (self.new.refusal ≢ Error.OutOfMemory) }
    {
        match self.due {
            Due::Node | Due::Field | Due::Key => {
                self.bunser.fill(1)?;
                let tag = self.bunser.buffered()[0];
                match Node::at(self.due, tag) {
                    Some(node) => Ok(node),
                    None => Err(self.refuse_tag(Wanted::Value, tag)),
                }
            }
            _ => self.node_without_tag(),
        }
    }

    /// The kind of what is expected and has no tag.
    #[inline(never)]
    fn node_without_tag(&mut self) -> Answer<Node>
        requires { IsTagged self.old.state.due → ⊥ }
        ensures found { IfOk result (SeesNode self.old.state self.new.state) }
        ensures kept { OnOk result (Keeps self.old self.new) }
        ensures refused { OnErr result (RefusesNode self.old self.new) }
        ensures memory { OnErr result (self.new.refusal ≢ Error.OutOfMemory) }
    {
        if self.is_failed() {
            return Err(self.complain(Complaint::WrongType));
        }
        if !self.is_due() {
            return Err(self.refuse_nothing_due());
        }
        match self.due {
            Due::Row => Ok(Node::Object),
            _ => Ok(Node::Key),
        }
    }

    /// Returns whether a null or a skipped field is next, which is taken then. Another kind of
    /// value is not: what is read next is no null.
    ///
    /// Fails as [`Deserializer::node`] does.
    #[inline(always)]
    pub fn read_none(&mut self) -> Answer<bool>
        ensures found { IfOk result (TakesNull self.old self.new) }
        ensures kept { OnOk result (Keeps self.old self.new) }
        ensures refused { OnErr result (RefusesNode self.old self.new) }
        ensures memory { OnErr result (self.new.refusal ≢ Error.OutOfMemory) }
    {
        if !self.is_value_due() {
            return self.read_no_value();
        }
        self.bunser.fill(1)?;
        let tag = self.bunser.buffered()[0];
        if is_something(tag) {
            return Ok(false);
        }
        if !self.is_null_tag(tag) {
            return Err(self.refuse_tag(Wanted::Value, tag));
        }
        self.bunser.consume(1);
        self.due = Due::Nothing;
        Ok(true)
    }

    /// Reads no value: a key or a row is expected, or nothing is.
    #[inline(never)]
    fn read_no_value(&mut self) -> Answer<bool>
        ensures found { IfOk result (TakesNull self.old self.new) }
        ensures kept { OnOk result (Keeps self.old self.new) }
        ensures refused { OnErr result (RefusesNode self.old self.new) }
        ensures memory { OnErr result (self.new.refusal ≢ Error.OutOfMemory) }
    {
        match self.node()? {
            Node::Null => {
                self.bunser.consume(1);
                self.due = Due::Nothing;
                Ok(true)
            }
            _ => Ok(false),
        }
    }

    /// Reads a truth value. Another kind of value is [`Complaint::WrongType`]. Out of memory
    /// never comes.
    #[inline(always)]
    pub fn read_bool(&mut self) -> Answer<bool>
        ensures found { IfOk result (Reads reads_bool HoldsTruth self.old self.new) }
        ensures kept { OnOk result (Keeps self.old self.new) }
        ensures refused { OnErr result (RefusesAs asking_bool bare self.old self.new) }
        ensures memory { OnErr result (self.new.refusal ≢ Error.OutOfMemory) }
    {
        let tag = self.value_tag()?;
        if tag != BSER_TRUE && tag != BSER_FALSE {
            return Err(self.refuse_tag(Wanted::Truth, tag));
        }
        self.bunser.consume(1);
        self.due = Due::Nothing;
        Ok(tag == BSER_TRUE)
    }

    /// Reads an integer of any width. Another kind of value is [`Complaint::WrongType`].
    ///
    /// The errors are those of integers of any range, and never out of memory.
    #[inline(always)]
    pub fn read_i64(&mut self) -> Answer<i64>
        ensures found { IfOk result (ReadsInteger self.old self.new) }
        ensures kept { OnOk result (Keeps self.old self.new) }
        ensures refused { OnErr result (RefusesInteger self.old self.new) }
        ensures begun { OnErr result (self.new.note.begun ≡ self.old.note.begun) }
        ensures other { OnErr result (is_out_of_range self.new.refusal ≡ false) }
        ensures memory { OnErr result (self.new.refusal ≢ Error.OutOfMemory) }
    {
        if !self.is_value_due() {
            return Err(self.refuse_no_value());
        }
        match self.bunser.buffered_int() {
            Some(number) => {
                self.due = Due::Nothing;
                Ok(number)
            }
            None => self.read_i64_slowly(),
        }
    }

    /// Reads an integer of any width, and buffers its bytes before.
    #[cold]
    #[inline(never)]
    #[tactic(auto, using(crate::proofs::Ranges::cut_other, crate::proofs::Ranges::refused_other))]
    fn read_i64_slowly(&mut self) -> Answer<i64>
        requires { IsValueDue self.old.state.due }
        ensures found { IfOk result (ReadsInteger self.old self.new) }
        ensures kept { OnOk result (Keeps self.old self.new) }
        ensures refused { OnErr result (RefusesInteger self.old self.new) }
        ensures begun { OnErr result (self.new.note.begun ≡ self.old.note.begun) }
        ensures other { OnErr result (is_out_of_range self.new.refusal ≡ false) }
        ensures memory { OnErr result (self.new.refusal ≢ Error.OutOfMemory) }
    {
        match self.bunser.next_int()? {
            Look::Taken(number) => {
                self.due = Due::Nothing;
                Ok(number)
            }
            Look::Unexpected(Unexpected::Tag(tag)) => Err(self.refuse_tag(Wanted::Integer, tag)),
            Look::Unexpected(_) => Err(self.complain(Complaint::WrongType)),
        }
    }

    /// Reads the 64 bits of a real. Another kind of value is [`Complaint::WrongType`]. Out of
    /// memory never comes.
    #[inline(always)]
    pub fn read_real_bits(&mut self) -> Answer<u64>
        ensures found { IfOk result (Reads reads_real HoldsSize self.old self.new) }
        ensures kept { OnOk result (Keeps self.old self.new) }
        ensures refused { OnErr result (RefusesAs asking_real bare self.old self.new) }
        ensures memory { OnErr result (self.new.refusal ≢ Error.OutOfMemory) }
    {
        let tag = self.value_tag()?;
        if tag != BSER_REAL {
            return Err(self.refuse_tag(Wanted::Real, tag));
        }
        let bits = self.bunser.next_bits()?;
        self.due = Due::Nothing;
        Ok(bits)
    }

    /// Reads a null, or a skipped field. Another kind of value is [`Complaint::WrongType`]. Out of
    /// memory never comes.
    #[inline(always)]
    pub fn read_unit(&mut self) -> Answer<()>
        ensures found { IfOk result (Reads reads_unit HoldsOne self.old self.new) }
        ensures kept { OnOk result (Keeps self.old self.new) }
        ensures refused { OnErr result (RefusesAs asking_unit bare self.old self.new) }
        ensures memory { OnErr result (self.new.refusal ≢ Error.OutOfMemory) }
    {
        let tag = self.value_tag()?;
        if !self.is_null_tag(tag) {
            return Err(self.refuse_tag(Wanted::Null, tag));
        }
        self.bunser.consume(1);
        self.due = Due::Nothing;
        Ok(())
    }

    /// Whether this is the tag of null, or the skip of the field that is expected.
    #[inline(always)]
    fn is_null_tag(&self, tag: u8) -> bool
        ensures { result ≡ is_null_at self.now.state.due tag }
    {
        match self.due {
            Due::Field => tag == BSER_NULL || tag == BSER_SKIP,
            _ => tag == BSER_NULL,
        }
    }
}
