//! The program over the standard streams.
use crate::process::{ProcessArguments, process};
use bser_source::device::Watched;
use std::process::ExitCode;

/// Runs the program with the arguments that the process was given, on standard input, output and
/// error.
pub fn rewrite(rt: HostRuntime) -> ExitCode {
    let mut reader = Watched::new(rt.stdin());
    let writer = Watched::new(rt.stdout());
    let mut errors = Watched::new(rt.stderr());
    let given = ProcessArguments::new(&rt);
    process(rt.alloc(), &given, &mut reader, writer, &mut errors)
}
