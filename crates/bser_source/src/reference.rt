//! What a byte source gives: bytes and texts that are borrowed, or that were copied.
ghost use Rattle.std.specs.Prelude.{◌≡◌, IfOk, IfErr, OnErr};
ghost use Rattle.bser_source.specs.Refs.{bytes_of, is_lent, text_bytes, is_lent_text};
ghost use Rattle.std.specs.Str.{IsUtf8};
ghost use Rattle.bser_format.specs.declared.errors.ReadCause.TheVariants.{Utf8};

pub use crate::lending::{Lending, LendingText, LendsFrom, LendsText, NoLoan};
use bser_format::errors::ReadCause;

/// Bytes that are borrowed from the input, or that were copied.
///
/// `L` is what the source lends: `&[u8]` of a slice, and [`NoLoan`] of a reader.
#[derive(Drop)]
pub enum Reference<'s, L> {
    /// Bytes of the input.
    Borrowed(L),
    /// Bytes in a scratch.
    Copied(&'s [u8]),
}

/// A text that is borrowed from the input, or that was copied.
#[derive(Drop)]
pub enum TextReference<'s, T> {
    /// A text of the input.
    Borrowed(T),
    /// A text in a scratch.
    Copied(&'s str),
}

impl<'s, L: Lending> Reference<'s, L> {
    /// Returns the bytes.
    pub fn get_ref<'a>(&'a self) -> &'a [u8]
        ensures { result.now ≡ bytes_of L.bytes self.now }
    {
        match self {
            Reference::Borrowed(bytes) => bytes.as_bytes(),
            Reference::Copied(bytes) => bytes,
        }
    }
}

impl<'s, L: LendsText> Reference<'s, L> {
    /// Returns the bytes as a text, borrowed or copied as they are.
    ///
    /// Bytes that are not UTF-8 are [`ReadCause::Utf8`].
    pub fn to_text(self) -> Result<TextReference<'s, L::Text>, ReadCause>
        ensures ok { IfOk result (λ t. (text_bytes L.Text.text t ≡ bytes_of L.bytes self.entry)
            × IsUtf8 (bytes_of L.bytes self.entry)) }
        ensures lent { IfOk result (λ t. is_lent_text t ≡ is_lent self.entry) }
        ensures err { OnErr result (¬ (IsUtf8 (bytes_of L.bytes self.entry))) }
        ensures cause { IfErr result (λ e. e ≡ Utf8) }
    {
        match self {
            Reference::Borrowed(bytes) => Ok(TextReference::Borrowed(bytes.to_text()?)),
            Reference::Copied(bytes) => match str::from_utf8(bytes) {
                Ok(text) => Ok(TextReference::Copied(text)),
                Err(_) => Err(ReadCause::Utf8),
            },
        }
    }
}

impl<'s, T: LendingText> TextReference<'s, T> {
    /// Returns the text.
    pub fn get_ref<'a>(&'a self) -> &'a str
        ensures { result.now ≡ text_bytes T.text self.now }
    {
        match self {
            TextReference::Borrowed(text) => text.as_text(),
            TextReference::Copied(text) => text,
        }
    }
}
