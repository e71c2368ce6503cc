//! A part of a message, as a message.
ghost use Rattle.std.specs.Prelude.{◌≡◌, option_map, IfOk};
ghost use Rattle.serde_bser.specs.Canonical.{canonical_message};
ghost use Rattle.serde_bser.specs.Contents.{get};
ghost use Rattle.serde_bser.specs.DocumentView.{value_of};

use serde_bser::document::Document;
use serde_bser::errors::Result;
use serde_bser::laws::found_is_written;
use serde_bser::ser::to_vec;
use std::alloc::Global;

/// The message of the value under this key of the object that the document is, if there is one.
pub fn part_message(alloc: Global, document: &Document, key: &str) -> Result<Option<Vec<u8>>>
    ensures { IfOk result (λ part. option_map (λ message. message.items) part
        ≡ option_map canonical_message (get key.now (value_of document.now))) }
{
    found_is_written();
    match document.root().get(key) {
        Some(part) => Ok(Some(to_vec(alloc, &part)?)),
        None => Ok(None),
    }
}
