//! What a byte source lends.
ghost use Rattle.std.specs.Prelude.{◌≡◌, ℕ, Bool, true, false, List, [], string_bytes, IfOk, IfErr, OnOk, OnErr, MatchOption};
ghost use Rattle.std.specs.Str.{IsUtf8};
ghost use Rattle.bser_format.specs.declared.errors.ReadCause.TheVariants.{Utf8};
ghost use Rattle.bser_format.specs.declared.errors.Error.TheVariants.{OutOfMemory};
ghost use Rattle.bser_source.specs.Refs.{bytes_of, is_lent, text_bytes, is_lent_text, RefusesKept};

use crate::reference::{Reference, TextReference};
use crate::text::as_text;
use bser_format::errors::{Error, ReadCause, Result};
use std::alloc::Global;

/// A text that a source lends.
pub trait LendingText: Copy {
    ghost text: { Self → List ℕ };

    /// Returns the text.
    fn as_text<'a>(&'a self) -> &'a str
        ensures { result.now ≡ text self.now };
}

/// Bytes that a source lends.
pub trait Lending: Copy {
    ghost bytes: { Self → List ℕ };

    // whether a source that lends this lends what is read
    ghost lends: { Bool };

    /// What is kept of a text that is wanted again later: the borrow itself, or else a copy.
    type Kept: Drop;

    ghost kept: { Self.Kept → List ℕ };

    /// Returns the bytes.
    fn as_bytes<'a>(&'a self) -> &'a [u8]
        ensures { result.now ≡ bytes self.now };

    /// Returns the text that was kept.
    fn kept_text<'k>(key: &'k Self::Kept) -> &'k str
        ensures { result.now ≡ kept key.now };

    /// Keeps bytes that a source gave, which have to be UTF-8. Others are [`ReadCause::Utf8`].
    /// Where they were copied it takes memory, and a failed allocation is [`Error::OutOfMemory`].
    fn keep(alloc: Global, given: Reference<'_, Self>) -> Result<Self::Kept>
        requires { is_lent given ≡ lends }
        ensures ok { IfOk result (λ k. kept k ≡ bytes_of bytes given.entry) }
        ensures utf8 { OnOk result (IsUtf8 (bytes_of bytes given.entry)) }
        ensures err { IfErr result (λ e. RefusesKept lends (bytes_of bytes given.entry) e) };

    /// Lends kept bytes, or else copies them to `scratch` in place of what it held. A failed
    /// allocation is [`Error::OutOfMemory`].
    fn lend<'s>(key: &Self::Kept, scratch: &'s mut Vec<u8>) -> Result<Reference<'s, Self>>
        ensures ok { IfOk result (λ r. bytes_of bytes r ≡ kept key.now) }
        ensures lent { IfOk result (λ r. is_lent r ≡ lends) }
        ensures err { IfErr result (λ e. (e ≡ OutOfMemory) × (lends ≡ false)) };
}

/// Bytes that a source lends, and that are borrowed as a text too.
pub trait LendsText: Lending {
    /// The borrowed text.
    type Text: LendingText;

    /// Returns the bytes as a text. Bytes that are not UTF-8 are [`ReadCause::Utf8`].
    fn to_text(self) -> std::result::Result<Self::Text, ReadCause>
        ensures ok { IfOk result (λ t. (Self.Text.text t ≡ Self.bytes self) × IsUtf8
            (Self.bytes self)) }
        ensures err { OnErr result (¬ (IsUtf8 (Self.bytes self))) }
        ensures cause { IfErr result (λ e. e ≡ Utf8) };
}

/// What a source lends, where that may be bytes of an input of this lifetime.
pub trait LendsFrom<'de>: LendsText {
    /// Returns the borrowed bytes, for as long as the input lives. None where the source lends
    /// nothing.
    fn lent_bytes(given: Reference<'_, Self>) -> Option<&'de [u8]>
        requires { is_lent given ≡ Self.lends }
        ensures { MatchOption result (Self.lends ≡ false)
            (λ s. s.now ≡ bytes_of Self.bytes given.entry) };

    /// Returns the borrowed text, for as long as the input lives. None where the source lends
    /// nothing.
    fn lent_text(given: TextReference<'_, Self::Text>) -> Option<&'de str>
        requires { is_lent_text given ≡ Self.lends }
        ensures { MatchOption result (Self.lends ≡ false)
            (λ s. s.now ≡ text_bytes Self.Text.text given.entry) };
}

impl<'a> LendingText for &'a str {
    ghost text = { λ s. s.now };

    fn as_text<'b>(&'b self) -> &'b str {
        *self
    }
}

impl<'a> Lending for &'a [u8] {
    ghost bytes = { λ s. s.now };

    ghost lends = { true };

    type Kept = &'a str;

    ghost kept = { λ s. s.now };

    #[inline(always)]
    fn as_bytes<'b>(&'b self) -> &'b [u8] {
        *self
    }

    #[inline(always)]
    fn kept_text<'k>(key: &'k &'a str) -> &'k str
        ensures { result.now ≡ key.now.now }
    {
        *key
    }

    fn keep(_alloc: Global, given: Reference<'_, &'a [u8]>) -> Result<&'a str>
        requires { is_lent given ≡ true }
        ensures ok { IfOk result (λ k. k.now ≡ bytes_of (λ s. s.now) given.entry) }
        ensures utf8 { OnOk result (IsUtf8 (bytes_of (λ s. s.now) given.entry)) }
        ensures err { IfErr result (λ e. RefusesKept true (bytes_of (λ s. s.now) given.entry) e) }
    {
        match given {
            Reference::Borrowed(bytes) => match str::from_utf8(bytes) {
                Ok(text) => Ok(text),
                Err(_) => Err(Error::de_reader_error(ReadCause::Utf8)),
            },
            Reference::Copied(_) => Err(Error::OutOfMemory),
        }
    }

    fn lend<'s>(key: &&'a str, _scratch: &'s mut Vec<u8>) -> Result<Reference<'s, &'a [u8]>>
        ensures ok { IfOk result (λ r. bytes_of (λ s. s.now) r ≡ key.now.now) }
        ensures lent { IfOk result (λ r. is_lent r ≡ true) }
        ensures err { IfErr result (λ e. (e ≡ OutOfMemory) × (true ≡ false)) }
    {
        Ok(Reference::Borrowed(key.as_bytes()))
    }
}

impl<'a> LendsText for &'a [u8] {
    type Text = &'a str;

    #[inline(always)]
    fn to_text(self) -> std::result::Result<&'a str, ReadCause> {
        match as_text(self) {
            Some(text) => Ok(text),
            None => Err(ReadCause::Utf8),
        }
    }
}

/// What a source that copies lends: nothing, and no bytes. No call of it answers
/// [`Reference::Borrowed`](crate::reference::Reference::Borrowed).
///
/// A type without values would say so by itself, but its calls could have no caller.
#[derive(Clone, Copy)]
pub struct NoLoan;

impl LendingText for NoLoan {
    ghost text = { λ _. [] };

    fn as_text<'b>(&'b self) -> &'b str {
        ""
    }
}

impl Lending for NoLoan {
    ghost bytes = { λ _. [] };

    ghost lends = { false };

    type Kept = String;

    ghost kept = { λ s. string_bytes s };

    fn as_bytes<'b>(&'b self) -> &'b [u8] {
        &[]
    }

    #[inline(always)]
    fn kept_text<'k>(key: &'k String) -> &'k str
        ensures { result.now ≡ string_bytes key.now }
    {
        key.as_str()
    }

    fn keep(alloc: Global, given: Reference<'_, NoLoan>) -> Result<String>
        requires { is_lent given ≡ false }
        ensures ok { IfOk result (λ k. string_bytes k ≡ bytes_of (λ _. []) given.entry) }
        ensures utf8 { OnOk result (IsUtf8 (bytes_of (λ _. []) given.entry)) }
        ensures err { IfErr result (λ e. RefusesKept false (bytes_of (λ _. []) given.entry) e) }
    {
        match given {
            Reference::Borrowed(_) => Err(Error::OutOfMemory),
            Reference::Copied(bytes) => match str::from_utf8(bytes) {
                Ok(text) => Ok(String::from_str(alloc, text)?),
                Err(_) => Err(Error::de_reader_error(ReadCause::Utf8)),
            },
        }
    }

    fn lend<'s>(key: &String, scratch: &'s mut Vec<u8>) -> Result<Reference<'s, NoLoan>>
        ensures ok { IfOk result (λ r. bytes_of (λ _. []) r ≡ string_bytes key.now) }
        ensures lent { IfOk result (λ r. is_lent r ≡ false) }
        ensures err { IfErr result (λ e. (e ≡ OutOfMemory) × (false ≡ false)) }
    {
        scratch.clear();
        scratch.extend_from_slice(key.as_bytes())?;
        Ok(Reference::Copied(scratch))
    }
}

impl LendsText for NoLoan {
    type Text = NoLoan;

    fn to_text(self) -> std::result::Result<NoLoan, ReadCause> {
        Ok(self)
    }
}

impl<'de> LendsFrom<'de> for &'de [u8] {
    fn lent_bytes(given: Reference<'_, &'de [u8]>) -> Option<&'de [u8]>
        requires { is_lent given ≡ true }
        ensures { MatchOption result (true ≡ false)
            (λ s. s.now ≡ bytes_of (λ b. b.now) given.entry) }
    {
        match given {
            Reference::Borrowed(bytes) => Some(bytes),
            Reference::Copied(_) => None,
        }
    }

    fn lent_text(given: TextReference<'_, &'de str>) -> Option<&'de str>
        requires { is_lent_text given ≡ true }
        ensures { MatchOption result (true ≡ false)
            (λ s. s.now ≡ text_bytes (λ t. t.now) given.entry) }
    {
        match given {
            TextReference::Borrowed(text) => Some(text),
            TextReference::Copied(_) => None,
        }
    }
}

impl<'de> LendsFrom<'de> for NoLoan {
    fn lent_bytes(_given: Reference<'_, NoLoan>) -> Option<&'de [u8]>
        requires { is_lent _given ≡ false }
        ensures { MatchOption result (false ≡ false)
            (λ s. s.now ≡ bytes_of (λ _. []) _given.entry) }
    {
        None
    }

    fn lent_text(_given: TextReference<'_, NoLoan>) -> Option<&'de str>
        requires { is_lent_text _given ≡ false }
        ensures { MatchOption result (false ≡ false)
            (λ s. s.now ≡ text_bytes (λ _. []) _given.entry) }
    {
        None
    }
}
