//! Values that are written as a message and read back from it.
ghost use Rattle.std.specs.Prelude.{◌≡◌, IfOk, string_bytes};

use serde_bser::device::Watched;
use serde_bser::errors::Result;
use serde_bser::from_slice;
use serde_bser::ser::serialize_to;
use std::alloc::Global;

/// Writes the text as a message, and reads it back: it is the same text.
pub fn text_returned(alloc: Global, text: &String) -> Result<String>
    ensures { IfOk result (λ back. string_bytes back ≡ string_bytes text.now) }
{
    let mut writer = Watched::new(Vec::new(alloc));
    serialize_to(alloc, &mut writer, text)?;
    let message = writer.into_inner();
    from_slice(alloc, message.as_slice())
}

/// Writes the numbers as a message, and reads them back: they are the same numbers.
pub fn numbers_returned(alloc: Global, numbers: &Vec<i64>) -> Result<Vec<i64>>
    ensures { IfOk result (λ back. back.items ≡ numbers.now.items) }
{
    let mut writer = Watched::new(Vec::new(alloc));
    serialize_to(alloc, &mut writer, numbers)?;
    let message = writer.into_inner();
    from_slice(alloc, message.as_slice())
}
