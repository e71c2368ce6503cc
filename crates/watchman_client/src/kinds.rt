//! Which messages are unsolicited, and which report an error.
ghost use Rattle.std.specs.Prelude.{◌≡◌, codes, [], ◌∷◌, true, false, IfOk, IfSome, IfNone, List, ℕ};
ghost use Rattle.bser_structs.specs.Fields.{optional, required, struct_meaning};
ghost use Rattle.watchman_client.specs.Kinds.{IsKind, TellsError, TellsNoError};

use bser_bunser::refusal::Answer;
use bser_deserializer::deserializer::Deserializer;
use bser_format::bytestring::ByteString;
use bser_format::errors::Error;
use bser_messages::message::from_slice;
use bser_source::read::DeRead;
use bser_source::reference::LendsText;
use bser_structs::fields::{Fields, ReadOnly};
use bser_structs::read_struct;
use bser_structs::struct_reader::ReadsFields;
use bser_types::deserialize::{Deserialize, Meant, OwnedShape};
use bser_types::impls::Ignored;
use std::alloc::{AllocError, Global};

/// What a message says of itself.
#[derive(Drop)]
pub(crate) struct Unilateral {
    /// Whether it is unsolicited.
    pub unilateral: bool,
}

impl Fields for Unilateral {
    ghost fields = { required (codes "unilateral") (λ v. v.unilateral) ⟦<bool as ReadOnly>⟧.coding
        ∷ [] };
}

impl Meant for Unilateral {
    ghost meaning = { struct_meaning ⟦<Unilateral as Fields>⟧.fields };
}

impl<L: LendsText> Deserialize<L> for Unilateral {
    fn deserialize<R: DeRead<Lent = L>>(
        alloc: Global,
        from: &mut Deserializer<R>,
    ) -> Answer<Unilateral> {
        read_struct! { alloc, from, Unilateral { unilateral: Required("unilateral") } }
    }
}

/// What a server answers where it cannot do what was asked.
#[derive(Drop)]
pub(crate) struct ErrorField {
    /// Why.
    pub error: ByteString,
}

impl Fields for ErrorField {
    ghost fields = { required (codes "error") (λ v. v.error) ⟦<ByteString as ReadOnly>⟧.coding
        ∷ [] };
}

impl Meant for ErrorField {
    ghost meaning = { struct_meaning ⟦<ErrorField as Fields>⟧.fields };
}

impl<L: LendsText> Deserialize<L> for ErrorField {
    fn deserialize<R: DeRead<Lent = L>>(
        alloc: Global,
        from: &mut Deserializer<R>,
    ) -> Answer<ErrorField> {
        read_struct! { alloc, from, ErrorField { error: Required("error") } }
    }
}

/// What an event says of itself, and its error of any kind, if it has one.
#[derive(Drop)]
pub(crate) struct Signs {
    /// Whether it is unsolicited.
    pub unilateral: bool,
    /// Why what was asked for cannot be done.
    pub error: Option<Ignored>,
}

impl Fields for Signs {
    ghost fields = { required (codes "unilateral") (λ v. v.unilateral) ⟦<bool as ReadOnly>⟧.coding
        ∷ optional (codes "error") (λ v. v.error) ⟦<Ignored as ReadOnly>⟧.coding
        ∷ [] };
}

impl Meant for Signs {
    ghost meaning = { struct_meaning ⟦<Signs as Fields>⟧.fields };
}

impl<L: LendsText> Deserialize<L> for Signs {
    fn deserialize<R: DeRead<Lent = L>>(
        alloc: Global,
        from: &mut Deserializer<R>,
    ) -> Answer<Signs> {
        read_struct! {
            alloc,
            from,
            Signs { unilateral: Required("unilateral"), error: Optional("error") }
        }
    }
}

/// Whether a message is unsolicited, and whether it is known to report no error.
#[derive(Debug, Clone, Copy, PartialEq, Eq)]
pub(crate) struct Kind {
    /// Whether it is unsolicited.
    pub unsolicited: bool,
    /// Whether it is known to report no error.
    pub errorless: bool,
}

/// Returns the kind of a message, of an event by one reading. Where an answer is wanted, which has no
/// mark as a rule, its error is not looked for.
///
/// Fails only where memory runs out.
pub(crate) fn kind_of(alloc: Global, message: &[u8], wants_answer: bool) -> Result<Kind, AllocError>
    ensures kind { IfOk result (λ k. IsKind k.unsolicited message.now) }
    ensures errorless { IfOk result (λ k. k.errorless ≡ true → TellsNoError message.now) }
{
    if !wants_answer {
        match from_slice::<Signs>(alloc, message) {
            Ok(signs) => {
                return Ok(Kind {
                    unsolicited: signs.unilateral,
                    errorless: signs.error.is_none(),
                });
            }
            Err(Error::OutOfMemory) => return Err(AllocError),
            Err(_other) => {}
        }
    }
    let unsolicited = is_unsolicited(alloc, message)?;
    Ok(Kind {
        unsolicited,
        errorless: false,
    })
}

/// Returns whether a message is unsolicited: an object whose `unilateral` is true.
///
/// All else is not, bytes that are no message too. Fails only where memory runs out.
pub fn is_unsolicited(alloc: Global, message: &[u8]) -> Result<bool, AllocError>
    ensures { IfOk result (λ b. IsKind b message.now) }
{
    match from_slice::<Unilateral>(alloc, message) {
        Ok(mark) => Ok(mark.unilateral),
        Err(Error::OutOfMemory) => Err(AllocError),
        Err(_other) => Ok(false),
    }
}

/// Returns the text of an object's `error`, and `None` for all else.
///
/// Fails only where memory runs out.
pub fn error_of(alloc: Global, message: &[u8]) -> Result<Option<ByteString>, AllocError>
    ensures found { IfOk result (λ o. IfSome o (λ error. TellsError error message.now)) }
    ensures none { IfOk result (λ o. IfNone o
        ((error : List ℕ) → TellsError error message.now → ⊥)) }
{
    match from_slice::<ErrorField>(alloc, message) {
        Ok(failure) => Ok(Some(failure.error)),
        Err(Error::OutOfMemory) => Err(AllocError),
        Err(_other) => Ok(None),
    }
}
