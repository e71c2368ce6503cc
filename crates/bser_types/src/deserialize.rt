//! Types that are read.
ghost use Rattle.std.specs.Prelude.{◌≡◌, ◌≢◌, false, Option, IfOk, OnErr};
ghost use Rattle.bser_format.specs.Content.{Content, Meaning, ReadsNoObject};
ghost use Rattle.bser_deserializer.specs.Reading.{Asking, Needs, TakesNoMemory};
ghost use Rattle.bser_types.specs.Accesses.{ReadsDue, RefusesDue};
ghost use Rattle.bser_types.specs.Meanings.{TypeMeaning};

use bser_bunser::refusal::Answer;
use bser_deserializer::deserializer::Deserializer;
use bser_format::errors::Error;
use bser_source::read::DeRead;
use bser_source::reference::{LendsText, NoLoan};
use std::alloc::Global;

/// The meaning of a type that is read: which trees it reads, and what a value of it holds.
///
/// It has no calls and no lifetime, so that a type has one meaning wherever its bytes are borrowed
/// from.
pub trait Shape {
    // which trees the type reads, and as what
    ghost reads: { Meaning };

    // what a value holds
    ghost holds: { Self → Content → Type 0 };

    // whether a value may hold borrowed bytes, whether reading one may take memory, whether an
    // error may, and whether bytes are read that a source copies
    ghost needs: { Needs };

    // which reader gives its errors, where the type says one
    ghost asks: { Option (Asking Self.reads) };

    // that the type reads no object, where that is known; then a tuple that has such a part is
    // never read of a template, and takes no memory for one
    ghost plain: { Option (ReadsNoObject Self.reads) };
}

/// A type whose meaning is given as one value, as by the list of a struct's fields.
pub trait Meant {
    // all that is said of the type
    ghost meaning: { TypeMeaning Self };
}

impl<T: Meant> Shape for T {
    ghost reads = { T.meaning.reads };

    ghost holds = { T.meaning.holds };

    ghost needs = { T.meaning.needs };

    ghost asks = { T.meaning.asks };

    ghost plain = { T.meaning.plain };
}

/// A type that is read from a source that lends `L`.
///
/// In place of serde's visitors a type pulls its parts from the deserializer.
pub trait Deserialize<L: LendsText>: Shape + Drop {
    /// Reads what is expected, a value as a rule. It answers by the type's meaning: exactly where a
    /// prefix of the bytes left spells a tree that the type reads, and then it takes that prefix.
    ///
    /// Else it is an error, as an I/O error of the reader is. A type that holds borrowed bytes,
    /// over a source that copies, is [`Complaint::BorrowedFromCopying`]. Out of memory comes only
    /// of a type that takes some, or that reads bytes which are copied.
    ///
    /// [`Complaint::BorrowedFromCopying`]: bser_format::errors::Complaint::BorrowedFromCopying
    fn deserialize<R: DeRead<Lent = L>>(alloc: Global, from: &mut Deserializer<R>) -> Answer<Self>
        ensures found { IfOk result (ReadsDue Self.reads Self.holds from.old from.new) }
        ensures refused { OnErr result (RefusesDue Self.reads Self.asks Self.needs
            from.old from.new) }
        ensures memory { TakesNoMemory Self.needs
            → OnErr result (from.new.refusal ≢ Error.OutOfMemory) };
}

/// A meaning whose values hold nothing that is borrowed.
pub trait OwnedShape: Shape {
    ghost owned: { Self.needs.lent ≡ false };
}

/// A type that borrows nothing, so that it is read from any reader.
///
/// Each type is one that has both halves.
pub trait DeserializeOwned: OwnedShape + Deserialize<NoLoan> {}

impl<T: OwnedShape + Deserialize<NoLoan>> DeserializeOwned for T {}
