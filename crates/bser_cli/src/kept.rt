//! Messages that are kept whole while they are shown.

use bser_document::document::Document;
use bser_messages::limits::Limits;
use bser_source::device::Source;
use bser_views::messages::{View, ViewError};
use std::alloc::Global;
use std::io::Write;

/// What shows a document.
pub(crate) trait ShowDocument {
    /// Shows the document. The errors are that it lacks what it was asked for, that it cannot be
    /// written again or that there is no memory, and those of the output.
    fn show<W: Write>(
        &self,
        alloc: Global,
        document: &Document,
        out: &mut W,
    ) -> Result<(), ViewError>;
}

/// Shows each message as a document, which takes the memory of the one before.
#[derive(Drop)]
pub(crate) struct KeptView<V> {
    view: V,
    document: Option<Document>,
}

impl<V: ShowDocument> KeptView<V> {
    /// No message was read.
    pub(crate) fn new(view: V) -> Self {
        KeptView {
            view,
            document: None,
        }
    }
}

impl<V: ShowDocument> View for KeptView<V> {
    fn show_next<S: Source, W: Write>(
        &mut self,
        alloc: Global,
        _start: u64,
        reader: &mut S,
        out: &mut W,
    ) -> Result<bool, ViewError> {
        let before = self.document.take();
        self.document = Document::next_message_in(alloc, before, Limits::new(), reader)?;
        match &self.document {
            Some(document) => {
                self.view.show(alloc, document, out)?;
                Ok(true)
            }
            None => Ok(false),
        }
    }
}
