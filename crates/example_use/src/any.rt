//! Any message, printed.
use serde_bser::describe;
use serde_bser::device::Watched;
use serde_bser::document::Document;
use std::process::ExitCode;

/// Prints the next message on standard input on one line, or why it cannot be read.
pub fn print_message(rt: &HostRuntime) -> ExitCode {
    match describe::from_reader::<_, Document>(rt.alloc(), &mut Watched::new(rt.stdin())) {
        Ok(message) => {
            let _ = println!(rt; "{message}");
            ExitCode::SUCCESS
        }
        Err(error) => {
            let _ = eprintln!(rt; "{error}");
            ExitCode::FAILURE
        }
    }
}
