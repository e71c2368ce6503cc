//! What `{}` prints of a message, beside its JSON.
//!
//! `{}` of a `Value` and of a `Document` puts a space behind each comma and colon, and prints finite reals
//! as std does. In all else it is the line of `bser json`.
use crate::run::output_of;
use anyhow::{Context, Result};
use bser_vectors::counts::CaseCounts;
use serde_bser::document::Document;
use serde_bser::tell::Limits;
use std::alloc::Global;
use std::{fs, mem};

/// Compares what is printed of the message in each file, and prints the files where that is not so.
pub fn compare_printed(rt: &HostRuntime, files: &[&str]) -> Result<()> {
    let mut printed = CaseCounts::default();
    for file in files {
        let message = fs::read(rt, *file)?;
        let json = output_of(rt, &["json"], &message)?;
        let mismatch = match is_printed_as(rt.alloc(), &message, &json)? {
            true => None,
            false => Some("another text by `{}`"),
        };
        printed.add(rt, format_args!("{file}"), mismatch)?;
    }
    println!(rt;
        "{} files printed, {} of them wrong",
        printed.cases, printed.wrong
    )?;
    Ok(())
}

/// Whether the message is printed as this line of JSON, but for spaces and the texts of finite reals.
pub fn is_printed_as(alloc: Global, message: &[u8], line: &[u8]) -> Result<bool> {
    let document = Document::from_slice(alloc, Limits::new(), message)
        .ok()
        .context("no message")?;
    let printed = format!(in alloc; "{document}\n")?;
    let of_value = format!(in alloc; "{}\n", document.to_value(alloc)?)?;
    let texts = Compared::of(alloc, printed.as_bytes())? == Compared::of(alloc, line)?;
    Ok(texts && of_value == printed)
}

/// A JSON text without the spaces between its tokens, where each number with a point or an exponent
/// is the bits of its real.
#[derive(Drop)]
struct Compared {
    alloc: Global,
    text: Vec<u8>,
    // a number that may go on
    number: Vec<u8>,
    is_string: bool,
    is_escaped: bool,
}

impl Compared {
    /// What is compared of a text, which a line's end ends.
    fn of(alloc: Global, text: &[u8]) -> Result<Vec<u8>> {
        let mut compared = Compared {
            alloc,
            text: Vec::new(alloc),
            number: Vec::new(alloc),
            is_string: false,
            is_escaped: false,
        };
        for byte in text {
            compared.put(*byte)?;
        }
        Ok(compared.text)
    }

    /// Puts the next byte of the text.
    fn put(&mut self, byte: u8) -> Result<()> {
        if self.is_string {
            return self.put_in_string(byte);
        }
        if matches!(byte, b'0'..=b'9' | b'+' | b'-' | b'.' | b'e' | b'E') {
            self.number.push(byte)?;
            return Ok(());
        }
        self.put_number()?;
        self.is_string = byte == b'"';
        if byte != b' ' {
            self.text.push(byte)?;
        }
        Ok(())
    }

    /// Puts the next byte of a string.
    fn put_in_string(&mut self, byte: u8) -> Result<()> {
        self.is_string = self.is_escaped || byte != b'"';
        self.is_escaped = !self.is_escaped && byte == b'\\';
        self.text.push(byte)?;
        Ok(())
    }

    /// Puts the number that ended, if there is one.
    fn put_number(&mut self) -> Result<()> {
        let number = mem::replace(&mut self.number, Vec::new(self.alloc));
        let text = str::from_utf8(&number)?;
        match text.parse::<f64>() {
            Ok(real) if !real.is_nan() && text.contains(['.', 'e', 'E']) => {
                let bits = format!(in self.alloc; "{:016x}", real.to_bits())?;
                self.text.extend_from_slice(bits.as_bytes())?;
            }
            _ => self.text.extend_from_slice(&number)?,
        }
        Ok(())
    }
}
