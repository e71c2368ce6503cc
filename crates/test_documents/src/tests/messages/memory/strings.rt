//! Byte strings and printed bytes.
use super::{Tested, check_bytes, check_text};
use serde_bser::bytestring::ByteString;
use serde_bser::header::header_byte_desc;
use std::alloc::{AllocError, Global};
use std::process::Abort;

/// A name that is no text, and is longer than what is escaped at once.
const NAME: &[u8] = b"src/caf\xc3\xa9/\xff\xfe/a name of some length\xc3";

/// The name, escaped.
const ESCAPED: &str = "src/caf\u{e9}/\\xff\\xfe/a name of some length\\xc3";

fn name(alloc: Global) -> Result<ByteString, AllocError> {
    Ok(ByteString::from_vec(Vec::from_slice(alloc, NAME)?))
}

#[test]
fn a_byte_string_is_escaped(rt: HostRuntime) -> Tested {
    let name = name(rt.alloc())?;
    let escaped = name.as_escaped_string(rt.alloc());
    check_bytes(&rt, name.as_bytes(), NAME)?;
    check_text(&rt, escaped, ESCAPED)
}

/// Checks that the copy has the name's bytes, or answers the refusal. The original has them in any case.
fn check_copy(
    rt: &impl Abort,
    original: &ByteString,
    copy: Result<ByteString, AllocError>,
) -> Tested {
    check_bytes(rt, original.as_bytes(), NAME)?;
    check_bytes(rt, copy?.as_bytes(), NAME)
}

#[test]
fn a_byte_string_is_copied_and_cloned_and_made_of_a_text(rt: HostRuntime) -> Tested {
    let name = name(rt.alloc())?;
    check_copy(&rt, &name, name.try_clone(rt.alloc()))?;
    check_copy(&rt, &name, name.clone())?;
    let made = ByteString::from_text(rt.alloc(), "Tom")?;
    check_bytes(&rt, made.as_bytes(), b"Tom")
}

#[test]
fn a_tag_is_described(rt: HostRuntime) -> Tested {
    check_text(&rt, header_byte_desc(rt.alloc(), 0x0b), "BSER_TEMPLATE")?;
    check_text(
        &rt,
        header_byte_desc(rt.alloc(), 0xff),
        "unknown byte '255'",
    )
}
