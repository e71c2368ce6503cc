//! A SQLite file of what Watchman tells of the files below a root: `bser_index --help` lists its
//! commands.
//!
//! The status is 0; or 1 where not all was done: a message is refused, tells an error of the server, or
//! something is missing before it, a subscription ended, a file or clock is not known, a difference is
//! found, the index cannot be used, or the output fails; or 2 for unknown arguments, and where the time
//! of `wait` is over.
#![tactic(auto)]

use bser_index_cli::program::BserIndex;
use bser_shell::standard::run_process;
use std::process::ExitCode;

fn main(rt: HostRuntime) -> ExitCode {
    run_process(&rt, &BserIndex::new(&rt))
}
