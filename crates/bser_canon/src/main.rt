//! Reads one BSER message from standard input, and writes its value to standard output in the
//! canonical form, or with the argument `--compact` in the compact form.
//!
//! The status is 0, 1 after a refusal, or 2 for another argument or a second one; each but the
//! first comes with a line on standard error.
#![tactic(auto)]

use bser_canonical::standard::rewrite;
use std::process::ExitCode;

fn main(rt: HostRuntime) -> ExitCode {
    rewrite(rt)
}
