//! Long texts and messages, by their sums.
use sha2::{Digest, Sha256};
use std::alloc::{AllocError, Global};

/// `#`, how many bytes there are, a colon, and their digest by SHA-256.
pub fn sum_of(alloc: Global, bytes: &[u8]) -> Result<String, AllocError> {
    let digest = hex::encode(alloc, Sha256::digest(bytes))?;
    format!(in alloc; "#{}:{digest}", bytes.len())
}

/// Whether a column shows the text: as it is, or by its sum.
pub fn is_text(alloc: Global, text: &str, column: &str) -> Result<bool, AllocError> {
    Ok(
        text == column
            || column.starts_with('#') && sum_of(alloc, text.as_bytes())?.as_str() == column,
    )
}

/// Whether a column shows the bytes: in hexadecimal digits, or by their sum.
pub fn is_message(alloc: Global, bytes: &[u8], column: &str) -> Result<bool, AllocError> {
    let shown = if column.starts_with('#') {
        sum_of(alloc, bytes)?
    } else {
        hex::encode(alloc, bytes)?
    };
    Ok(shown.as_str() == column)
}
