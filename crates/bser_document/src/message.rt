//! Whole messages, kept as documents.
ghost use Rattle.std.specs.Prelude.{◌≡◌, ◌≤◌, false, length, Some, IfOk, IfErr, OnOk};
ghost use Rattle.bser_deserializer.specs.declared.deserializer.TheConstants.{MOST_LEVELS};
ghost use Rattle.bser_messages.specs.Messages.{Same};
ghost use Rattle.bser_messages.specs.Told.{
  HasPlace,
  KnowsHeader,
  NextUntold,
  SliceUntold,
  StopsLate,
};
ghost use Rattle.bser_document.specs.Messages.{BeginsWithKept, IsNextKept};

use crate::builder::DocumentBuilder;
use crate::document::Document;
use bser_messages::limits::Limits;
use bser_messages::telling;
use bser_messages::told::TellError;
use bser_source::device::Source;
use std::alloc::Global;

impl Document {
    /// Keeps the message at the start of `bytes`, within these limits, as it is spelled. What
    /// follows the message is ignored.
    ///
    /// It takes no more nodes and bytes of strings, counted together, than the body of the message
    /// has bytes. The errors are those of [`from_slice`](bser_messages::telling::from_slice), but
    /// for [`Stopped`](bser_messages::told::Reason::Stopped), which does not come.
    pub fn from_slice(alloc: Global, limits: Limits, bytes: &[u8]) -> Result<Document, TellError>
        requires { limits.levels ≤ MOST_LEVELS }
        ensures found { IfOk result (BeginsWithKept limits bytes.now) }
        ensures failed { IfErr result (λ e. SliceUntold limits false bytes.now e.reason) }
        ensures header { IfErr result (KnowsHeader (Some bytes.now)) }
        ensures late { IfErr result StopsLate }
        ensures place { IfErr result HasPlace }
        ensures given { IfErr result (λ e. e.given ≡ length bytes.now) }
    {
        let mut builder = DocumentBuilder::new(alloc, None);
        match telling::from_slice(alloc, limits, bytes, &mut builder) {
            Ok(_header) => Ok(builder.into_document()),
            Err(untold) => Err(untold),
        }
    }

    /// Keeps the reader's next message, within these limits, as it is spelled, or answers `None`
    /// where no byte is left. What follows the message is left in the reader.
    ///
    /// It takes no more nodes and bytes of strings, counted together, than the body of the message
    /// has bytes. The errors are those of [`next_message`](bser_messages::telling::next_message),
    /// but for [`Stopped`](bser_messages::told::Reason::Stopped), which does not come.
    pub fn next_message<S: Source>(
        alloc: Global,
        limits: Limits,
        reader: &mut S,
    ) -> Result<Option<Document>, TellError>
        requires { limits.levels ≤ MOST_LEVELS }
        ensures found { IfOk result
            (IsNextKept limits (S.remaining reader.old) (S.remaining reader.new)) }
        ensures kept { OnOk result (Same S.failures reader.old reader.new) }
        ensures failed { IfErr result (λ e.
            NextUntold limits false S.Source reader.old reader.new e.reason) }
        ensures header { IfErr result (KnowsHeader (S.remaining reader.old)) }
        ensures late { IfErr result StopsLate }
        ensures place { IfErr result HasPlace }
    {
        Document::next_message_in(alloc, None, limits, reader)
    }

    /// Keeps the reader's next message as [`next_message`](Document::next_message) does, in the
    /// memory of a document that is no longer wanted.
    ///
    /// So of messages that follow each other one takes new memory for its nodes only where it has
    /// more than those before it. After an error, and where no byte is left, the memory is given back.
    pub fn next_message_in<S: Source>(
        alloc: Global,
        before: Option<Document>,
        limits: Limits,
        reader: &mut S,
    ) -> Result<Option<Document>, TellError>
        requires { limits.levels ≤ MOST_LEVELS }
        ensures found { IfOk result
            (IsNextKept limits (S.remaining reader.old) (S.remaining reader.new)) }
        ensures kept { OnOk result (Same S.failures reader.old reader.new) }
        ensures failed { IfErr result (λ e.
            NextUntold limits false S.Source reader.old reader.new e.reason) }
        ensures header { IfErr result (KnowsHeader (S.remaining reader.old)) }
        ensures late { IfErr result StopsLate }
        ensures place { IfErr result HasPlace }
    {
        let mut builder = DocumentBuilder::new(alloc, before);
        match telling::next_message(alloc, limits, reader, &mut builder) {
            Ok(Some(_header)) => Ok(Some(builder.into_document())),
            Ok(None) => Ok(None),
            Err(untold) => Err(untold),
        }
    }
}
