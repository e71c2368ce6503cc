//! A short message whose value is long.
use crate::run::{output_of, print_run};
use anyhow::Result;
use bser_vectors::commands::closed_behind;
use std::alloc::Global;

/// How long the key of the template is, and how many rows it has: 0x7530 in the message.
const COUNT: usize = 30_000;

/// How many bytes are taken of an output.
const TAKEN: usize = 60;

/// Runs commands on a template of one long key and many rows, each of which skips it. Its value has
/// the key as often as there are rows, so of long outputs a front is taken, and then they are closed.
pub fn print_amplifying(rt: &HostRuntime) -> Result<()> {
    let message = template(rt.alloc())?;
    println!(rt; "a message of {} bytes", message.len())?;
    let counts = output_of(rt, &["summary"], &message)?;
    print!(rt; "{}", str::from_utf8(&counts)?)?;
    let row = output_of(rt, &["get", "/29999"], &message)?;
    println!(rt; "its last row as JSON: {} bytes", row.len())?;
    let cut = message.len().saturating_sub(1);
    for words in [&["show"], &["json"], &["canon"]] {
        print_run(rt, words, &message, closed_behind(TAKEN))?;
    }
    for words in [&["summary"], &["json"], &["canon"]] {
        print_run(rt, words, &message[..cut], closed_behind(TAKEN))?;
    }
    Ok(())
}

/// The message: its body has a tag, the keys, their number and their tag, and the rows.
fn template(alloc: Global) -> Result<Vec<u8>> {
    let mut message = Vec::from_slice(alloc, b"\x00\x02\x00\x00\x00\x00\x05\x6f\xea\x00\x00")?;
    message.extend_from_slice(b"\x0b\x00\x03\x01\x02\x05\x30\x75\x00\x00")?;
    put_often(&mut message, b'k')?;
    message.extend_from_slice(b"\x05\x30\x75\x00\x00")?;
    put_often(&mut message, b'\x0c')?;
    Ok(message)
}

/// Puts the byte as often as the key is long.
fn put_often(out: &mut Vec<u8>, byte: u8) -> Result<()> {
    for _ in 0..COUNT {
        out.push(byte)?;
    }
    Ok(())
}
