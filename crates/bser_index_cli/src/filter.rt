//! Which of the files that were found are printed.

use watchman_sqlite::record::Record;

/// Which of the files that were found are printed: those that each part lets through.
#[derive(Debug, Clone, Copy)]
pub(crate) struct Filter<'a> {
    /// The path of a folder, without slashes at its end. The folder and the files below it pass.
    pub(crate) under: Option<&'a str>,
    /// Watchman's letter for a type. The files that are known to be of it pass.
    pub(crate) kind: Option<&'a str>,
}

impl Filter<'_> {
    /// Whether a file passes.
    pub(crate) fn passes(&self, record: &Record) -> bool {
        let is_there = match self.under {
            Some(folder) => is_under(record.name.as_bytes(), folder.as_bytes()),
            None => true,
        };
        let is_of_type = match (self.kind, record.row.state.kind) {
            (Some(wanted), Some(kind)) => kind.word() == wanted,
            (Some(_), None) => false,
            (None, _) => true,
        };
        is_there && is_of_type
    }
}

/// Whether a path is that of the folder, or of a file below it.
fn is_under(path: &[u8], folder: &[u8]) -> bool {
    match path.strip_prefix(folder) {
        Some(rest) => rest.is_empty() || rest.starts_with(b"/"),
        None => false,
    }
}
