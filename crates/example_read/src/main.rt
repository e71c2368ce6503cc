//! Prints the files of each answer on standard input, or why one is not read.
#![tactic(auto)]

use bser_serde::{ByteBuf, ReadError, from_reader};
use serde::Deserialize;
use serde_bser::device::Watched;
use std::io::Result;
use std::process::ExitCode;

#[derive(Drop, Deserialize)]
struct File {
    name: ByteBuf, // need not be UTF-8
    size: u64,
}

#[derive(Drop, Deserialize)]
struct Answer {
    clock: String,
    files: Vec<File>,
}

fn main(rt: HostRuntime) -> Result<ExitCode> {
    let mut input = Watched::new(rt.stdin());
    for _ in 0..u64::MAX {
        match from_reader::<_, Answer>(rt.alloc(), &mut input) {
            Ok(answer) => {
                println!(rt; "{} files at {}", answer.files.len(), answer.clock)?;
                for file in &answer.files {
                    println!(rt; "{:>10} {}", file.size, file.name)?;
                }
            }
            Err(ReadError::Misfit(it)) => println!(rt;
                "{}: {}, at byte {}",
                it.path, it.reason, it.place
            )?,
            Err(ReadError::Ended) => return Ok(ExitCode::SUCCESS),
            Err(error) => {
                eprintln!(rt; "{error}")?;
                break;
            }
        }
    }
    Ok(ExitCode::FAILURE)
}
