//! An output that takes nothing.
use crate::run::print_run;
use anyhow::Result;
use bser_vectors::devices::{Plan, Then};
use std::fs;

/// Runs commands on the file, to an output that answers each write with 0, and prints what they left.
pub fn print_untaken(rt: &HostRuntime, file: &str) -> Result<()> {
    println!(rt; "an output that takes nothing")?;
    let message = fs::read(rt, file)?;
    for words in [&["show"], &["json"], &["canon"]] {
        print_run(rt, words, &message, Plan::whole().up_to(0, Then::Ends))?;
    }
    Ok(())
}
