//! Messages written again.

use crate::kept::ShowDocument;
use bser_document::document::Document;
use bser_format::errors::Error;
use bser_ser::message::serialize_to;
use bser_source::device::Watched;
use bser_value::compact::serialize_compact;
use bser_views::messages::ViewError;
use std::alloc::Global;
use std::io::Write;

/// Writes a message again, in the canonical or the compact form.
#[derive(Debug, Clone, Copy, PartialEq, Eq)]
pub(crate) struct Canon {
    pub(crate) is_compact: bool,
}

impl ShowDocument for Canon {
    fn show<W: Write>(
        &self,
        alloc: Global,
        document: &Document,
        out: &mut W,
    ) -> Result<(), ViewError> {
        let mut sink = Watched::new(out);
        let written = if self.is_compact {
            serialize_compact(alloc, &mut sink, &document.to_value(alloc)?)
        } else {
            serialize_to(alloc, &mut sink, document)
        };
        match written {
            Ok(()) => Ok(()),
            Err(Error::Io(fault)) => Err(ViewError::Output(fault)),
            Err(error) => Err(ViewError::Unwritten(error)),
        }
    }
}
