//! What an index is to be of.

use index_following::expression::{check_terms, expression_of};
use serde_bser::bytestring::ByteString;
use std::alloc::Global;
use watchman_sqlite::error::IndexError;
use watchman_sqlite::subject::{FIELDS, FileField, Subject};

/// What an index is to be of, in the words of the command.
#[derive(Debug, Clone, Copy)]
pub(crate) struct Wish<'a> {
    pub(crate) root: &'a str,
    pub(crate) relative_root: Option<&'a str>,
    pub(crate) expression: Option<&'a str>,
}

/// What these words say, with the fields of these words, or all where there is none.
pub(crate) fn subject_of(
    alloc: Global,
    wish: Wish<'_>,
    fields: &[&str],
) -> Result<Subject, IndexError> {
    if !wish.root.starts_with('/') {
        return Err(IndexError::Root);
    }
    let relative_root = match wish.relative_root {
        Some(path) if path.is_empty() || path.starts_with('/') => {
            return Err(IndexError::RelativeRoot);
        }
        Some(path) => Some(ByteString::from_text(alloc, path)?),
        None => None,
    };
    let expression = match wish.expression {
        Some(text) => {
            let expression = expression_of(alloc, text)?;
            check_terms(alloc, &expression)?;
            Some(format!(in alloc; "{expression}")?)
        }
        None => None,
    };
    Ok(Subject {
        root: ByteString::from_text(alloc, without_last_slashes(wish.root))?,
        relative_root,
        expression,
        fields: fields_of(alloc, fields)?,
    })
}

/// The path of a root as the server names it, without slashes at its end.
fn without_last_slashes(root: &str) -> &str {
    match root.trim_end_matches('/') {
        "" => "/",
        path => path,
    }
}

/// The fields of these words, in the order in which an index has them, with those that it needs.
fn fields_of(alloc: Global, words: &[&str]) -> Result<Vec<FileField>, IndexError> {
    for word in words {
        if FileField::from_word(*word).is_none() {
            return Err(IndexError::NoField(String::from_str(alloc, *word)?));
        }
    }
    let mut fields = Vec::new(alloc);
    for field in FIELDS {
        // without these two a row says nothing
        let is_needed = matches!(field, FileField::Name | FileField::Exists);
        if is_needed || words.is_empty() || words.contains(&field.word()) {
            fields.push(field)?;
        }
    }
    Ok(fields)
}
