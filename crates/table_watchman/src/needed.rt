//! Which capabilities a server lacks.
use anyhow::{Result, ensure};
use serde_bser::bytestring::ByteString;
use serde_bser::de::{Deserialize, from_slice};
use watchman_types::version::{CapabilityName, Version};

/// What clients may need.
const NEEDED: [&[&str]; 4] = [
    &["cmd-subscribe", "field-mtime_ms"],
    &["bser-v2", "template", "scm-git"],
    &["bser-v"],
    &[],
];

/// Prints which capabilities the server lacks by its answer to `version`, read with each type of
/// texts.
pub fn print_needed(rt: &HostRuntime, bytes: &[u8]) -> Result<()> {
    print_missing::<&str>(rt, bytes)?;
    print_missing::<&[u8]>(rt, bytes)?;
    print_missing::<String>(rt, bytes)?;
    print_missing::<ByteString>(rt, bytes)
}

/// Prints the first capability that the server lacks of each list.
fn print_missing<'m, S: CapabilityName + Deserialize<&'m [u8]>>(
    rt: &HostRuntime,
    bytes: &'m [u8],
) -> Result<()> {
    let version: Version<S> = from_slice(rt.alloc(), bytes)?;
    for needed in NEEDED {
        let mut has_all = true;
        for name in needed {
            has_all = has_all && version.has_capability(name);
        }
        ensure!(
            has_all == version.missing_capability(needed).is_none(),
            "{needed:?}"
        );
        match version.missing_capability(needed) {
            Some(name) => println!(rt; "of {needed:?} the server lacks {name}")?,
            None => println!(rt; "of {needed:?} the server lacks nothing")?,
        }
    }
    Ok(())
}
