//! Reading strings, and keys as strings.
ghost use Rattle.std.specs.Prelude.{◌≡◌, ◌≢◌, ◌⊎◌, true, false, Some, string_bytes, IfOk, OnErr, OnOk};
ghost use Rattle.bser_format.specs.Errors.{error_of};
ghost use Rattle.bser_source.specs.Refs.{bytes_of, is_lent, text_bytes, is_lent_text};
ghost use Rattle.bser_deserializer.specs.Askings.{asking_string};
ghost use Rattle.bser_deserializer.specs.Calls.{IsPlaced, Keeps, ReadsBytes, ReadsText, RefusesAs, RefusesBytes, RefusesCopy, TakesBytes, TakesName, source_lends};
ghost use Rattle.bser_deserializer.specs.Dues.{IsTagged};
ghost use Rattle.bser_deserializer.specs.Reading.{bare, owned};
ghost use Rattle.bser_deserializer.specs.State.{refused};

use crate::cursor::{Cursor, name_of};
use crate::deserializer::{Deserializer, Due};
use crate::note::Wanted;
use bser_bunser::prefix::is_key_tag;
use bser_bunser::refusal::{Answer, Refused};
use bser_format::bytestring::ByteString;
use bser_format::errors::{Complaint, Error, ReadCause};
use bser_format::header::BSER_UTF8STRING;
use bser_source::read::DeRead;
use bser_source::reference::{Lending, LendsText, Reference, TextReference};
use bser_source::text::as_text;
use std::alloc::Global;

impl<R: DeRead> Deserializer<R> {
    /// Reads the bytes of a string under either tag, or of a key. They are borrowed where the
    /// source lends, and else copied to `scratch` in place of what it held.
    ///
    /// Another kind of value is [`Complaint::WrongType`]. Bytes under a text's tag that are not
    /// UTF-8 are [`ReadCause::Utf8`].
    #[inline(always)]
    pub fn read_bytes<'s>(&mut self, scratch: &'s mut Vec<u8>) -> Answer<Reference<'s, R::Lent>>
        ensures found { IfOk result (ReadsBytes (bytes_of R.Lent.bytes) self.old self.new) }
        ensures lent { IfOk result (λ r. is_lent r ≡ source_lends self.old) }
        ensures source { IfOk result (λ r. is_lent r ≡ R.Lent.lends) }
        ensures kept { OnOk result (Keeps self.old self.new) }
        ensures refused { OnErr result (RefusesBytes self.old self.new) }
    {
        let (bytes, is_text) = self.take_bytes(scratch)?;
        if is_text && str::from_utf8(bytes.get_ref()).is_err() {
            return Err(self.refuse_utf8());
        }
        Ok(bytes)
    }

    /// Fails for bytes that are not UTF-8.
    #[cold]
    #[inline(never)]
    fn refuse_utf8(&mut self) -> Refused
        ensures reason { self.new.refusal ≡ error_of ReadCause.Utf8 }
        ensures state { self.new.state ≡ refused self.old.state }
        ensures note { self.new.note ≡ self.old.note }
    {
        self.refuse(Error::de_reader_error(ReadCause::Utf8))
    }

    /// Fails for bytes that are not UTF-8, where this was expected behind so many bytes. Of a byte
    /// string, which is well-formed, it notes that it began there.
    #[cold]
    #[inline(never)]
    fn refuse_string(&mut self, begun: usize, due: Due, is_text: bool) -> Refused
        ensures reason { self.new.refusal ≡ error_of ReadCause.Utf8 }
        ensures state { self.new.state ≡ refused self.old.state }
        ensures begun { is_text ≡ false → due ≢ Due.Key → self.new.note.begun ≡ Some begun }
        ensures malformed { is_text ≡ true → self.new.note.begun ≡ self.old.note.begun }
        ensures key { due ≡ Due.Key → self.new.note.begun ≡ self.old.note.begun }
        ensures place { (self.new.note.begun ≡ self.old.note.begun)
            ⊎ (self.new.note.begun ≡ Some begun) }
    {
        if !is_text && due != Due::Key {
            self.note_begun(begun);
        }
        self.refuse_utf8()
    }

    /// Takes the bytes of the string or key that is expected, UTF-8 or not, and returns whether
    /// they were under the text's tag.
    #[inline(always)]
    fn take_bytes<'s>(&mut self, scratch: &'s mut Vec<u8>) -> Answer<(Reference<'s, R::Lent>, bool)>
        ensures found { IfOk result (TakesBytes (bytes_of R.Lent.bytes) self.old self.new) }
        ensures lent { IfOk result (λ p. is_lent p.0 ≡ source_lends self.old) }
        ensures source { IfOk result (λ p. is_lent p.0 ≡ R.Lent.lends) }
        ensures kept { OnOk result (Keeps self.old self.new) }
        ensures refused { OnErr result (RefusesBytes self.old self.new) }
        ensures begun { OnErr result (self.new.note.begun ≡ self.old.note.begun) }
    {
        match self.due {
            Due::Node | Due::Field | Due::Key => {
                self.bunser.fill(1)?;
                let tag = self.bunser.buffered()[0];
                if !is_key_tag(tag) {
                    return Err(self.refuse_tag(Wanted::Text, tag));
                }
                self.bunser.consume(1);
                let bytes = self.bunser.next_string(scratch)?;
                self.due = Due::Nothing;
                Ok((bytes, tag == BSER_UTF8STRING))
            }
            _ => Ok((self.take_name(scratch)?, false)),
        }
    }

    /// Takes the bytes of the string or key that is expected as a copy, UTF-8 or not, and returns
    /// whether they were under the text's tag.
    #[inline(always)]
    fn take_copy(&mut self, alloc: Global) -> Answer<(Vec<u8>, bool)>
        ensures found { IfOk result (TakesBytes (λ v. v.items) self.old self.new) }
        ensures kept { OnOk result (Keeps self.old self.new) }
        ensures refused { OnErr result (RefusesCopy self.old self.new) }
        ensures begun { OnErr result (self.new.note.begun ≡ self.old.note.begun) }
    {
        match self.due {
            Due::Node | Due::Field | Due::Key => {
                self.bunser.fill(1)?;
                let tag = self.bunser.buffered()[0];
                if !is_key_tag(tag) {
                    return Err(self.refuse_tag(Wanted::Text, tag));
                }
                self.bunser.consume(1);
                let bytes = self.bunser.next_copy(alloc)?;
                self.due = Due::Nothing;
                Ok((bytes, tag == BSER_UTF8STRING))
            }
            _ => Ok((self.copy_name(alloc)?, false)),
        }
    }

    /// Takes the key of a row's field as a copy.
    #[inline(never)]
    fn copy_name(&mut self, alloc: Global) -> Answer<Vec<u8>>
        requires { IsTagged self.old.state.due → ⊥ }
        ensures found { IfOk result (TakesName (λ v. v.items) self.old self.new) }
        ensures kept { OnOk result (Keeps self.old self.new) }
        ensures refused { OnErr result (RefusesCopy self.old self.new) }
        ensures begun { OnErr result (self.new.note.begun ≡ self.old.note.begun) }
    {
        let mut scratch = Vec::new(alloc);
        let bytes = self.take_name(&mut scratch)?;
        match Vec::from_slice(alloc, bytes.get_ref()) {
            Ok(copy) => Ok(copy),
            Err(_) => Err(self.refuse(Error::OutOfMemory)),
        }
    }

    /// Takes the key of a row's field, which has no bytes of its own.
    #[inline(never)]
    fn take_name<'s>(&mut self, scratch: &'s mut Vec<u8>) -> Answer<Reference<'s, R::Lent>>
        requires { IsTagged self.old.state.due → ⊥ }
        ensures found { IfOk result (TakesName (bytes_of R.Lent.bytes) self.old self.new) }
        ensures lent { IfOk result (λ r. is_lent r ≡ source_lends self.old) }
        ensures source { IfOk result (λ r. is_lent r ≡ R.Lent.lends) }
        ensures kept { OnOk result (Keeps self.old self.new) }
        ensures refused { OnErr result (RefusesBytes self.old self.new) }
        ensures begun { OnErr result (self.new.note.begun ≡ self.old.note.begun) }
    {
        match name_of(self) {
            None => Err(self.refuse_no_value()),
            Some(key) => match <R::Lent as Lending>::lend(key, scratch) {
                Ok(bytes) => {
                    self.due = Due::Nothing;
                    Ok(bytes)
                }
                Err(reason) => Err(self.refuse(reason)),
            },
        }
    }

    /// Reads the bytes of a string as [`Deserializer::read_bytes`] does, and copies them.
    ///
    /// A failed allocation is [`Error::OutOfMemory`].
    #[inline(always)]
    pub fn read_byte_string(&mut self, alloc: Global) -> Answer<ByteString>
        ensures found { IfOk result (ReadsBytes (λ s. s) self.old self.new) }
        ensures kept { OnOk result (Keeps self.old self.new) }
        ensures refused { OnErr result (RefusesCopy self.old self.new) }
    {
        let (bytes, is_text) = self.take_copy(alloc)?;
        if is_text && str::from_utf8(&bytes).is_err() {
            return Err(self.refuse_utf8());
        }
        Ok(ByteString::from_vec(bytes))
    }
}

impl<R: DeRead> Deserializer<R>
where
    R::Lent: LendsText,
{
    /// Reads a text, or a byte string or key that is UTF-8. It is borrowed where the source lends,
    /// and else copied to `scratch` in place of what it held.
    ///
    /// Another kind of value is [`Complaint::WrongType`]. Bytes that are not UTF-8 are
    /// [`ReadCause::Utf8`].
    #[inline(always)]
    pub fn read_text<'s>(
        &mut self,
        scratch: &'s mut Vec<u8>,
    ) -> Answer<TextReference<'s, <R::Lent as LendsText>::Text>>
        ensures found { IfOk result (ReadsText (text_bytes R.Lent.Text.text) self.old self.new) }
        ensures lent { IfOk result (λ t. is_lent_text t ≡ source_lends self.old) }
        ensures source { IfOk result (λ t. is_lent_text t ≡ R.Lent.lends) }
        ensures kept { OnOk result (Keeps self.old self.new) }
        ensures refused { OnErr result (RefusesAs asking_string bare self.old self.new) }
        ensures place { OnErr result (IsPlaced self.old self.new) }
    {
        let (begun, due) = (self.taken(), self.due);
        let (bytes, is_text) = self.take_bytes(scratch)?;
        match bytes.to_text() {
            Ok(text) => Ok(text),
            Err(_) => Err(self.refuse_string(begun, due, is_text)),
        }
    }

    /// Reads a key as [`Deserializer::read_text`] does. One that is not UTF-8 is malformed.
    #[inline(always)]
    pub fn read_key<'s>(
        &mut self,
        scratch: &'s mut Vec<u8>,
    ) -> Answer<TextReference<'s, <R::Lent as LendsText>::Text>>
        ensures found { IfOk result (ReadsText (text_bytes R.Lent.Text.text) self.old self.new) }
        ensures lent { IfOk result (λ t. is_lent_text t ≡ source_lends self.old) }
        ensures source { IfOk result (λ t. is_lent_text t ≡ R.Lent.lends) }
        ensures kept { OnOk result (Keeps self.old self.new) }
        ensures refused { OnErr result (RefusesAs asking_string bare self.old self.new) }
    {
        let (key, _) = self.take_bytes(scratch)?;
        match key.to_text() {
            Ok(text) => Ok(text),
            Err(cause) => Err(self.refuse(Error::de_reader_error(cause))),
        }
    }

    /// Reads a text as [`Deserializer::read_text`] does, and copies it.
    ///
    /// A failed allocation is [`Error::OutOfMemory`].
    #[inline(always)]
    pub fn read_string(&mut self, alloc: Global) -> Answer<String>
        ensures found { IfOk result (ReadsText string_bytes self.old self.new) }
        ensures kept { OnOk result (Keeps self.old self.new) }
        ensures refused { OnErr result (RefusesAs asking_string owned self.old self.new) }
        ensures place { OnErr result (IsPlaced self.old self.new) }
    {
        let (begun, due) = (self.taken(), self.due);
        let (bytes, is_text) = self.take_copy(alloc)?;
        if as_text(&bytes).is_none() {
            return Err(self.refuse_string(begun, due, is_text));
        }
        Ok(unsafe { String::from_utf8_unchecked(bytes) })
    }
}
