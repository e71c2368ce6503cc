//! Looks into BSER messages, and makes them: `bser --help` lists its commands.
//!
//! The status is 0; or 1 where a message is malformed, an input is empty or cannot be read, nothing
//! is found by `get`, or the output fails; or 2 for unknown arguments. Lines on standard error say
//! which.
#![tactic(auto)]

use bser_cli::program::Bser;
use bser_shell::standard::run_process;
use std::process::ExitCode;

fn main(rt: HostRuntime) -> ExitCode {
    run_process(&rt, &Bser::new(rt.alloc(), &rt))
}
