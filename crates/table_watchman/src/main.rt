//! Compares recorded messages of a Watchman server, read as the types of `watchman_types`, with
//! what was written down of them. It prints how many agree. Then the requests on standard input are
//! made again, and a client is given a recorded session.
//!
//! The file `messages.tsv` has a line for each message, in columns between tabs: its name, the
//! message in hexadecimal digits, the type of the answer, and how `Debug` prints what it is read
//! as, with texts that are owned and with texts that are borrowed. A long text is
//! `#LENGTH:SHA256`. Names begin with `session` or `recorded` where the message was recorded of
//! Watchman 4.9.0, and with `made` where it was put together for this list. What is in
//! `wrong-messages.tsv` is wrong, and each line of it is named.
//!
//! The file `session.tsv` has a line for each message of the server in `stream-server.bser`: its
//! number in the session, its connection, where it begins, its length, `answer` or `unsolicited`,
//! and `files` where it lists some.
#![tactic(auto)]

mod asking;
mod following;
mod line;
mod needed;
mod printed;
mod requests;
mod session;
mod told;

use crate::asking::{print_asking, print_events};
use crate::following::{print_below, print_early, print_following, print_made};
use crate::line::PrintedMessage;
use crate::needed::print_needed;
use crate::requests::compare_requests;
use crate::session::compare_session;
use crate::told::{check_event, print_message};
use anyhow::{Context, Result};
use bser_vectors::counts::CaseCounts;
use bser_vectors::session::sent_messages;
use std::fs;

/// How many messages of the session a client follows.
const FOLLOWED: usize = 13;

fn main(rt: HostRuntime) -> Result<()> {
    compare_lines(&rt, "messages.tsv")?;
    compare_lines(&rt, "wrong-messages.tsv")?;
    print_session(&rt, "messages.tsv")?;
    compare_requests(&rt)?;
    let stream = fs::read(&rt, "stream-server.bser")?;
    let list = fs::read_to_string(&rt, "session.tsv")?;
    let messages = sent_messages(rt.alloc(), list.as_str())?;
    compare_session(&rt, &stream, &messages)?;
    let followed = messages.get(..FOLLOWED).context("too few")?;
    print_following(&rt, &stream, followed)?;
    print_below(&rt, &fs::read(&rt, "stream-relative.bser")?)?;
    print_early(&rt, &stream, followed)?;
    print_made(
        &rt,
        &stream,
        followed,
        &fs::read_to_string(&rt, "events.tsv")?,
    )?;
    print_asking(&rt, &stream, followed)?;
    print_events(&rt, &stream, followed)
}

/// Reads each message of the list, and prints how many are not read as the list says.
fn compare_lines(rt: &HostRuntime, file: &str) -> Result<()> {
    let text = fs::read_to_string(rt, file)?;
    let mut lines = CaseCounts::default();
    for line in text.as_str().lines() {
        let line = PrintedMessage::parse(line);
        lines.add(rt, line.name, line.first_mismatch(rt.alloc())?)?;
    }
    println!(rt; "{} messages, {} of them wrong", lines.cases, lines.wrong)?;
    Ok(())
}

/// Prints the clock, the errors and the events of the recorded session, and what servers lack by
/// their answers to `version`.
fn print_session(rt: &HostRuntime, file: &str) -> Result<()> {
    let text = fs::read_to_string(rt, file)?;
    for line in text.as_str().lines() {
        let line = PrintedMessage::parse(line);
        if line.name.starts_with("session/") && matches!(line.answer, "clock" | "-") {
            let message = hex::decode(rt.alloc(), line.message)?;
            print_message(rt, &message)?;
            check_event(rt.alloc(), &message)?;
        }
        if line.name.contains("-version") {
            println!(rt; "{}", line.name)?;
            print_needed(rt, &hex::decode(rt.alloc(), line.message)?)?;
        }
    }
    Ok(())
}
