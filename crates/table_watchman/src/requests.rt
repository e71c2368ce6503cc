//! The requests that a client sent in a recorded session with a Watchman server, made again and
//! compared with what was sent.
//!
//! The client wrote all strings as byte strings. What is compared is how the values are printed,
//! which is the same for a byte string and for a text. Only the last request is meant to differ.
//! The requests between those of the session and the last two were not in it: pywatchman 1.4.0 wrote
//! them to a server of Watchman 4.9.0, which took all but four (`requests/words.rt` says which).
mod commands;
mod queries;
mod recording;
mod words;

use crate::requests::recording::RecordedRequests;
use anyhow::Result;
use std::io::Read;

/// Makes each request on standard input, names those that differ, and counts both.
pub fn compare_requests(rt: &HostRuntime) -> Result<()> {
    let mut bytes = Vec::new(rt.alloc());
    rt.reader().read_to_end(&mut bytes)?;
    let mut recording = RecordedRequests::new(rt, &bytes);
    commands::compare_first(&mut recording);
    queries::compare_first(&mut recording);
    commands::compare_states(rt, &mut recording);
    commands::compare_log(&mut recording);
    queries::compare_names(&mut recording);
    commands::compare_errors(&mut recording);
    queries::compare_errors(&mut recording);
    commands::compare_subscriptions(&mut recording);
    queries::compare_last(&mut recording);
    queries::compare_written(&mut recording);
    words::compare_queries(&mut recording);
    words::compare_commands(&mut recording);
    words::compare_last(&mut recording);
    commands::compare_versions(&mut recording);
    recording.print_counts()?;
    Ok(())
}
