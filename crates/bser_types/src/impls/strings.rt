//! Strings and characters.
ghost use Rattle.std.specs.Prelude.{◌≡◌, ◌≢◌, true, refl, Some, chars, string_bytes, IfOk, OnErr};
ghost use Rattle.std.specs.Cow.{IsBorrowedStr};
ghost use Rattle.bser_format.specs.ReadsScalars.{reads_slice, reads_string, reads_byte_string, reads_char, one_char};
ghost use Rattle.bser_deserializer.specs.HoldsTexts.{HoldsBytes, HoldsChar, char_content};
ghost use Rattle.bser_deserializer.specs.Askings.{asking_bytes, asking_string, asking_char};
ghost use Rattle.bser_deserializer.specs.Calls.{complained};
ghost use Rattle.bser_deserializer.specs.State.{refused};
ghost use Rattle.bser_deserializer.specs.Reading.{TakesNoMemory, copying, owned, lending};
ghost use Rattle.bser_types.specs.Accesses.{ReadsDue, RefusesDue};
ghost use Rattle.bser_types.specs.Askings.{asking_byte_string};
ghost use Rattle.bser_types.specs.HoldsCows.{HoldsCow};

use crate::deserialize::{Deserialize, OwnedShape, Shape};
use bser_bunser::refusal::{Answer, Refused};
use bser_deserializer::cursor::Cursor;
use bser_deserializer::deserializer::Deserializer;
use bser_deserializer::node::Node;
use bser_format::bytestring::ByteString;
use bser_format::errors::{Complaint, Error};
use bser_source::read::DeRead;
use bser_source::reference::{LendsFrom, LendsText, TextReference};
use std::alloc::Global;
use std::borrow::CowStr;

/// A text, or a byte string or key that is UTF-8.
impl Shape for String {
    ghost reads = { reads_string };

    ghost holds = { λ s. HoldsBytes (string_bytes s) };

    ghost needs = { owned };

    ghost asks = { Some asking_string };

    ghost plain = { Some (λ _. refl) };
}

impl<L: LendsText> Deserialize<L> for String {
    #[inline(always)]
    fn deserialize<R: DeRead<Lent = L>>(
        alloc: Global,
        from: &mut Deserializer<R>,
    ) -> Answer<String> {
        from.read_string(alloc)
    }
}

impl OwnedShape for String {
    ghost owned = { refl };
}

/// A text, or a byte string or key that is UTF-8, borrowed from the input.
impl<'de> Shape for &'de str {
    ghost reads = { reads_string };

    ghost holds = { λ s. HoldsBytes s.now };

    ghost needs = { lending };

    ghost asks = { Some asking_string };

    ghost plain = { Some (λ _. refl) };
}

impl<'de, L: LendsFrom<'de>> Deserialize<L> for &'de str {
    #[inline(always)]
    fn deserialize<R: DeRead<Lent = L>>(
        alloc: Global,
        from: &mut Deserializer<R>,
    ) -> Answer<&'de str> {
        let mut scratch = Vec::new(alloc);
        match L::lent_text(from.read_text(&mut scratch)?) {
            Some(text) => Ok(text),
            None => Err(from.complain(Complaint::BorrowedFromCopying)),
        }
    }
}

/// A text, or a byte string or key that is UTF-8: borrowed from the input where it is a slice, and
/// else a copy.
///
/// A copy takes memory, and out of memory is [`Error::OutOfMemory`].
impl<'de> Shape for CowStr<'de> {
    ghost reads = { reads_string };

    ghost holds = { HoldsCow };

    ghost needs = { owned };

    ghost asks = { Some asking_string };

    ghost plain = { Some (λ _. refl) };
}

impl<'de, L: LendsFrom<'de>> Deserialize<L> for CowStr<'de> {
    #[inline(always)]
    fn deserialize<R: DeRead<Lent = L>>(
        alloc: Global,
        from: &mut Deserializer<R>,
    ) -> Answer<CowStr<'de>>
        ensures found { IfOk result (ReadsDue reads_string HoldsCow from.old from.new) }
        ensures borrowed { IfOk result (λ s. L.lends ≡ true → IsBorrowedStr s) }
        ensures refused { OnErr result (RefusesDue reads_string (Some asking_string) owned
            from.old from.new) }
        ensures memory { TakesNoMemory owned → OnErr result (from.new.refusal ≢ Error.OutOfMemory) }
    {
        let mut scratch = Vec::new(alloc);
        match from.read_text(&mut scratch)? {
            TextReference::Copied(text) => match String::from_str(alloc, text) {
                Ok(text) => Ok(CowStr::Owned(text)),
                Err(_) => Err(from.refuse(Error::OutOfMemory)),
            },
            TextReference::Borrowed(text) => match L::lent_text(TextReference::Borrowed(text)) {
                Some(text) => Ok(CowStr::Borrowed(text)),
                None => unreachable!(),
            },
        }
    }
}

impl<'de> OwnedShape for CowStr<'de> {
    ghost owned = { refl };
}

/// The bytes of a string or key, borrowed from the input.
impl<'de> Shape for &'de [u8] {
    ghost reads = { reads_slice };

    ghost holds = { λ s. HoldsBytes s.now };

    ghost needs = { lending };

    ghost asks = { Some asking_bytes };

    ghost plain = { Some (λ _. refl) };
}

impl<'de, L: LendsFrom<'de>> Deserialize<L> for &'de [u8] {
    #[inline(always)]
    fn deserialize<R: DeRead<Lent = L>>(
        alloc: Global,
        from: &mut Deserializer<R>,
    ) -> Answer<&'de [u8]> {
        let mut scratch = Vec::new(alloc);
        match L::lent_bytes(from.read_bytes(&mut scratch)?) {
            Some(bytes) => Ok(bytes),
            None => Err(from.complain(Complaint::BorrowedFromCopying)),
        }
    }
}

/// The bytes of a string or key, or those of an array of integers from 0 to 255.
///
/// Another integer in the array is [`Complaint::IntegerOutOfRange`], another kind of value
/// [`Complaint::WrongType`], and out of memory [`Error::OutOfMemory`].
///
/// [`Error::OutOfMemory`]: bser_format::errors::Error::OutOfMemory
impl Shape for ByteString {
    ghost reads = { reads_byte_string };

    ghost holds = { HoldsBytes };

    ghost needs = { owned };

    ghost asks = { Some asking_byte_string };

    ghost plain = { Some (λ _. refl) };
}

impl<L: LendsText> Deserialize<L> for ByteString {
    #[inline(always)]
    fn deserialize<R: DeRead<Lent = L>>(
        alloc: Global,
        from: &mut Deserializer<R>,
    ) -> Answer<ByteString> {
        match from.node()? {
            Node::Array => Ok(ByteString::from_vec(Vec::<u8>::deserialize(alloc, from)?)),
            _ => from.read_byte_string(alloc),
        }
    }
}

impl OwnedShape for ByteString {
    ghost owned = { refl };
}

/// A text of one character, or a byte string or key that is one in UTF-8.
impl Shape for char {
    ghost reads = { reads_char };

    ghost holds = { HoldsChar };

    ghost needs = { copying };

    ghost asks = { Some asking_char };

    ghost plain = { Some (λ _. refl) };
}

impl<L: LendsText> Deserialize<L> for char {
    #[inline(always)]
    fn deserialize<R: DeRead<Lent = L>>(alloc: Global, from: &mut Deserializer<R>) -> Answer<char> {
        let mut scratch = Vec::new(alloc);
        let begun = from.taken();
        let text = from.read_text(&mut scratch)?;
        match only_char(text.get_ref()) {
            Some(only) => Ok(only),
            None => Err(refuse_text(from, begun)),
        }
    }
}

impl OwnedShape for char {
    ghost owned = { refl };
}

/// Fails for a text of another number of characters, which began behind so many bytes.
#[cold]
#[inline(never)]
fn refuse_text<R: DeRead>(from: &mut Deserializer<R>, begun: usize) -> Refused
    ensures reason { from.new.refusal ≡ complained Complaint.WrongType from.old }
    ensures state { from.new.state ≡ refused from.old.state }
    ensures begun { from.new.note.begun ≡ Some begun }
{
    from.note_begun(begun);
    from.complain(Complaint::WrongType)
}

/// The text's only character.
fn only_char(text: &str) -> Option<char>
    ensures { char_content result ≡ one_char (chars text.now) }
{
    let mut chars = text.chars();
    match (chars.next(), chars.next()) {
        (Some(only), None) => Some(only),
        _ => None,
    }
}
