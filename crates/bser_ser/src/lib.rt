//! Writing values as messages of BSER, version 2.
//!
//! The calls of [`message`] write one message for a value of a type that is [`Serialize`]. A
//! [`Serializer`] puts the parts of a value one after another, without a message's header.
#![tactic(auto)]

ghost use Rattle.std.specs.Prelude.{Result, OnOk, IfErr};
ghost use Rattle.bser_format.specs.Tree.{Tree};
ghost use Rattle.bser_format.specs.declared.errors.Error.{Error};
ghost use Rattle.bser_ser.specs.Ends.{Ends, Stops, text_of, CanBeWritten};

mod adds;
mod holders;
mod integer;
mod lists;
mod maps;
pub mod message;
mod pending;
mod pushing;
mod puts;
mod scalars;
mod serializer;
mod tuples;

pub use crate::adds::Parts;
pub use crate::pushing::push_all;
pub use crate::serializer::{PutRefused, Serializer};
use bser_format::errors::Result;
pub use bser_source::count::CountWrite;
use bser_source::device::Sink;
pub use bser_source::memory::InMemory;
use std::alloc::Global;

/// A value that can be written.
///
/// A type says how it is written, and as which tree, or with which error it fails.
pub trait Serialize {
    // the value's tree, or the error that says why it has none
    ghost meaning: { Self → Result Tree Error };

    /// Puts the canonical text of the value's tree. On success the tree can be written: each of its
    /// numbers and counts is in its range, each text is UTF-8, and each row of a template has a
    /// field for each key.
    ///
    /// A value without a tree gives the error that `meaning` says. An integer above `i64::MAX` is
    /// [`SerU64TooBig`](bser_format::errors::Error::SerU64TooBig) with itself, and a count above it
    /// `SerCustom` `CountTooGreat`. Of several parts without a tree the first one gives the error.
    /// Besides, the errors of the puts are passed on: `Io` for the writer's own, and `OutOfMemory`.
    /// After an error the parts before it have been put. The writer counts a failure only for an
    /// `Io`.
    fn serialize<W: Sink>(&self, alloc: Global, out: &mut Serializer<W>) -> Result<()>
        ensures ok { OnOk result (Ends W.Sink (text_of (meaning self.now)) out.old out.new) }
        ensures writable { OnOk result (CanBeWritten (meaning self.now)) }
        ensures err { IfErr result (Stops W.Sink (text_of (meaning self.now)) out.old out.new) };
}
