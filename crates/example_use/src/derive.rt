//! A struct by a derive, from standard input to standard output.
use anyhow::Result;
use bser_serde::{ByteBuf, from_reader, to_writer};
use serde::{Deserialize, Serialize};
use serde_bser::device::Watched;

/// A file. Its name need not be UTF-8.
#[derive(Drop, Serialize, Deserialize)]
pub struct StoredFile {
    pub name: ByteBuf,
    pub size: u64,
}

/// Reads the message of a file, and writes that of the same file when it is empty.
pub fn empty_file(rt: &HostRuntime) -> Result<()> {
    let mut file: StoredFile = from_reader(rt.alloc(), &mut Watched::new(rt.stdin()))?;
    file.size = 0;
    to_writer(rt.alloc(), &mut Watched::new(rt.stdout()), &file)?;
    Ok(())
}
