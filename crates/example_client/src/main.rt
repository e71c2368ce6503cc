//! Follows the changes below a folder, as a client of a Watchman server whose stream is standard
//! input and output. The folder is the first argument, and a clock from which changes are asked for may
//! be the second. What changed is logged on standard error.
#![tactic(auto)]

use anyhow::{Context, Result};
use client_following::{Followed, follow_changes};
use serde_bser::device::Watched;
use std::env;
use std::process::ExitCode;

fn main(rt: HostRuntime) -> Result<ExitCode> {
    let mut arguments = env::args(&rt)?.skip(1);
    let folder = arguments.next().context("a folder is wanted")?;
    let since = arguments.next();
    let followed = Followed {
        folder: folder.as_str(),
        since: since.as_deref(),
    };
    let (input, output) = (Watched::new(rt.stdin()), Watched::new(rt.stdout()));
    Ok(ExitCode::from(follow_changes(rt.alloc(), followed, input, output, &mut rt.stderr())))
}
