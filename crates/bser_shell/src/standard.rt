//! A program over the standard streams.

use crate::program::{Program, run_program};
use crate::screen::Terminals;
use crate::status::{FAILED, UNKNOWN_ARGUMENT};
use crate::streams::GivenStreams;
use std::env;
use std::io::{ErrorKind, IsTerminal};
use std::process::ExitCode;

/// Runs the program with the arguments of the process, on its standard streams.
pub fn run_process<P: Program>(rt: &HostRuntime, program: &P) -> ExitCode {
    let name = program.name();
    let words: Vec<String> = match env::args(rt) {
        Ok(words) => match words.collect(rt.alloc()) {
            Ok(words) => words,
            Err(_error) => return ExitCode::from(FAILED),
        },
        Err(fault) if fault.kind() == ErrorKind::InvalidData => {
            let _ = eprintln!(rt; "{name}: an argument is not UTF-8");
            return ExitCode::from(UNKNOWN_ARGUMENT);
        }
        Err(fault) => {
            let _ = eprintln!(rt; "{name}: {fault}");
            return ExitCode::from(FAILED);
        }
    };
    let (input, output, errors) = (rt.stdin(), rt.stdout(), rt.stderr());
    let terminals = Terminals {
        output: output.is_terminal(),
        errors: errors.is_terminal(),
    };
    let given = GivenStreams {
        input,
        output,
        errors,
        terminals,
    };
    ExitCode::from(run_program(rt.alloc(), program, &words, given))
}
