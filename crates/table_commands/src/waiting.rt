//! What is written before each read, which may wait.
//!
//! The input gives one byte a read. Before each of them the output has to be what the same command
//! prints of the bytes that were given, where the input ends there.
use crate::run::{run_command, run_on};
use anyhow::Result;
use bser_vectors::counts::CaseCounts;
use std::cell::Cell;
use std::io::{Read, Write};
use std::{fs, io};

/// Runs each command on the file, and prints where not all was written that had to be.
pub fn compare_waits(rt: &HostRuntime, commands: &[&[&str]], file: &str) -> Result<()> {
    let input = fs::read(rt, file)?;
    let mut reads = CaseCounts::default();
    for words in commands {
        let written = Cell::new(0);
        let mut reader = ByteReader {
            left: &input,
            written: &written,
            before: Vec::new(rt.alloc()),
        };
        let mut writer = CountingWriter {
            taken: Vec::new(rt.alloc()),
            written: &written,
        };
        let mut errors = Vec::new(rt.alloc());
        let _status = run_on(rt, *words, &mut reader, &mut writer, &mut errors)?;
        for (given, len) in reader.before.iter().enumerate() {
            let front = run_command(rt, *words, &input[..given.min(input.len())])?;
            let is_right = writer.taken.get(..*len) == Some(front.output.as_slice());
            reads.count(is_right);
            if !is_right {
                println!(rt; "{file}, {words:?}: another output before byte {given} is read")?;
            }
        }
    }
    println!(rt;
        "{} reads of {file}, {} of them with another output before",
        reads.cases, reads.wrong
    )?;
    Ok(())
}

/// Gives one byte a call, and notes how much was written before it.
#[derive(Drop)]
struct ByteReader<'a> {
    left: &'a [u8],
    written: &'a Cell<usize>,
    before: Vec<usize>,
}

impl Read for ByteReader<'_> {
    fn read(&mut self, buf: &mut [u8]) -> io::Result<usize> {
        self.before.push(self.written.get())?;
        match (self.left, buf) {
            ([first, rest @ ..], [place, ..]) => {
                *place = *first;
                self.left = rest;
                Ok(1)
            }
            _ => Ok(0),
        }
    }
}

/// Keeps what is written, and tells how much.
#[derive(Drop)]
struct CountingWriter<'a> {
    taken: Vec<u8>,
    written: &'a Cell<usize>,
}

impl Write for CountingWriter<'_> {
    fn write(&mut self, buf: &[u8]) -> io::Result<usize> {
        self.taken.extend_from_slice(buf)?;
        self.written.set(self.taken.len());
        Ok(buf.len())
    }

    fn flush(&mut self) -> io::Result<()> {
        Ok(())
    }
}
