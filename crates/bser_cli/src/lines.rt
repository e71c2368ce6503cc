//! Messages shown as JSON.

use crate::kept::ShowDocument;
use bser_document::document::Document;
use bser_document::item::Item;
use bser_json::printing::Layout;
use bser_json::writing::write_json;
use bser_views::messages::ViewError;
use std::alloc::Global;
use std::io::Write;

/// Shows a message as a JSON text, and a line's end. The message is kept, and its text is not.
#[derive(Debug, Clone, Copy, PartialEq, Eq)]
pub struct Json {
    /// How the text is laid out.
    pub layout: Layout,
}

impl ShowDocument for Json {
    fn show<W: Write>(
        &self,
        alloc: Global,
        document: &Document,
        out: &mut W,
    ) -> Result<(), ViewError> {
        put_line(alloc, document.root(), self.layout, out)
    }
}

/// Prints a value as a JSON text, and a line's end.
pub(crate) fn put_line<W: Write>(
    alloc: Global,
    item: Item<'_>,
    layout: Layout,
    out: &mut W,
) -> Result<(), ViewError> {
    let out = write_json(alloc, item, layout, out)?;
    out.write_all(b"\n")?;
    Ok(())
}
