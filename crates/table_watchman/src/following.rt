//! A client that follows changes, over recorded messages: what it asks, what it logs and how it ends.
//!
//! It is run over the first messages of the session, whole and cut at the beginning and in the middle
//! of each, and with events that cannot be read and many events behind them. Then it follows a folder
//! below a project's root. `stream-relative.bser` is what a server of Watchman 4.9.0 sent on one
//! connection while files in that folder and in another one changed, a state was entered and left, and
//! the root was let go. Behind these are events before an answer, and those of `events.tsv`, each of
//! which pywatchman 1.4.0 wrote: a name and the message, in columns between tabs.
use anyhow::{Context, Result, bail};
use bser_vectors::columns::columns;
use bser_vectors::session::SentMessage;
use client_following::{Followed, follow_changes};
use serde_bser::device::Watched;
use serde_bser::from_slice;
use serde_bser::ser::to_vec;
use serde_bser::stream::Frames;
use serde_bser::value::Value;
use std::alloc::Global;
use std::collections::BTreeMap;

/// A client that follows the root of the session.
const ROOT: Followed<'static> = Followed {
    folder: "/data/my/project",
    since: None,
};

/// The clock that the server answered.
const CLOCK: &str = "c:1795768208:28022:1:2";

/// The place of the answer to `subscribe` among the messages of the session.
const SUBSCRIBED: usize = 4;

/// How many lines are logged of the answers.
const ANSWER_LINES: usize = 21;

/// How many events follow each other.
const MANY: u64 = 2_000;

/// What came of a run.
#[derive(Drop)]
struct FollowingRun {
    status: u8,
    requests: Vec<u8>,
    log: Vec<u8>,
}

/// Prints what a client asks and logs over the messages, and how it ends where they are cut.
pub fn print_following(rt: &HostRuntime, stream: &[u8], messages: &[SentMessage]) -> Result<()> {
    let end = messages.last().context("no message")?.end;
    let stream = stream.get(..end).context("outside")?;
    print_whole(rt, &run_over(rt.alloc(), ROOT, stream))?;
    print_since(rt, stream, messages.get(2).context("too few messages")?)?;
    for message in messages {
        for cut in [message.start, message.start.midpoint(message.end)] {
            let run = run_over(rt.alloc(), ROOT, stream.get(..cut).context("outside")?);
            let name = format!(in rt.alloc(); "cut at {cut}")?;
            print_run(rt, name.as_str(), &run)?;
        }
    }
    print_many(rt, stream, messages.last().context("no message")?)
}

/// Prints what a client asks and logs that follows a folder below a project's root.
pub fn print_below(rt: &HostRuntime, stream: &[u8]) -> Result<()> {
    let followed = Followed {
        folder: "/data/my/project/sub",
        since: None,
    };
    print_whole(rt, &run_over(rt.alloc(), followed, stream))
}

/// Prints how a client ends to which two events come before the answer to `subscribe`.
pub fn print_early(rt: &HostRuntime, stream: &[u8], messages: &[SentMessage]) -> Result<()> {
    let (answers, events) = messages
        .split_at_checked(SUBSCRIBED)
        .context("too few messages")?;
    let mut server = Vec::new(rt.alloc());
    for message in answers {
        server.extend_from_slice(message.bytes(stream))?;
    }
    let (answer, events) = events.split_first().context("too few messages")?;
    for (number, event) in events.iter().enumerate() {
        if number == 2 {
            server.extend_from_slice(answer.bytes(stream))?;
        }
        server.extend_from_slice(event.bytes(stream))?;
    }
    print_run(
        rt,
        "two events before an answer",
        &run_over(rt.alloc(), ROOT, &server),
    )
}

/// Prints what a client logs of each event of the list, behind the answers.
pub fn print_made(
    rt: &HostRuntime,
    stream: &[u8],
    messages: &[SentMessage],
    list: &str,
) -> Result<()> {
    let end = messages.get(SUBSCRIBED).context("too few messages")?.end;
    for line in list.lines() {
        let [name, message, ..] = columns(line, "\t");
        let mut server = Vec::from_slice(rt.alloc(), stream.get(..end).context("outside")?)?;
        server.extend_from_slice(&hex::decode(rt.alloc(), message)?)?;
        let run = run_over(rt.alloc(), ROOT, &server);
        println!(rt; "{name}: status {}", run.status)?;
        for line in str::from_utf8(&run.log)?.lines().skip(ANSWER_LINES) {
            println!(rt; "told {line}")?;
        }
    }
    Ok(())
}

/// Prints what a client logs of an event that cannot be read, and how many lines it logs where one
/// event comes many times behind it.
fn print_many(rt: &HostRuntime, stream: &[u8], event: &SentMessage) -> Result<()> {
    let mut server = Vec::from_slice(rt.alloc(), stream)?;
    let mut unread = BTreeMap::new(rt.alloc());
    for key in ["unilateral", "files"] {
        unread.insert(String::from_str(rt.alloc(), key)?, true)?;
    }
    server.extend_from_slice(&to_vec(rt.alloc(), &unread)?)?;
    print_run(rt, "an unread event", &run_over(rt.alloc(), ROOT, &server))?;
    for _ in 0..MANY {
        server.extend_from_slice(event.bytes(stream))?;
    }
    print_run(
        rt,
        "many events behind it",
        &run_over(rt.alloc(), ROOT, &server),
    )
}

/// Prints how a client ends that is given the clock, which it need not ask for, so that the server
/// does not send it.
fn print_since(rt: &HostRuntime, bytes: &[u8], clock: &SentMessage) -> Result<()> {
    let mut server = Vec::from_slice(rt.alloc(), bytes.get(..clock.start).context("outside")?)?;
    server.extend_from_slice(bytes.get(clock.end..).context("outside")?)?;
    let followed = Followed {
        since: Some(CLOCK),
        ..ROOT
    };
    let run = run_over(rt.alloc(), followed, &server);
    print_run(rt, "with a clock", &run)
}

/// Runs a client over what the server sent.
fn run_over(alloc: Global, followed: Followed<'_>, server: &[u8]) -> FollowingRun {
    let mut sent = Watched::new(Vec::new(alloc));
    let mut log = Vec::new(alloc);
    let status = follow_changes(alloc, followed, Watched::new(server), &mut sent, &mut log);
    FollowingRun {
        status,
        requests: sent.into_inner(),
        log,
    }
}

/// Prints each request and each line that was logged, and the status.
fn print_whole(rt: &HostRuntime, run: &FollowingRun) -> Result<()> {
    print_requests(rt, &run.requests)?;
    for line in str::from_utf8(&run.log)?.lines() {
        println!(rt; "told {line}")?;
    }
    println!(rt; "status {}", run.status)?;
    Ok(())
}

/// Prints each request.
fn print_requests(rt: &HostRuntime, requests: &[u8]) -> Result<()> {
    let mut frames = Frames::new(rt.alloc(), Watched::new(requests));
    for _ in 0..u64::MAX {
        match frames.next_frame() {
            Ok(true) => {}
            Ok(false) => break,
            Err(error) => bail!("{error}"),
        }
        println!(rt;
            "asked {}",
            from_slice::<Value>(rt.alloc(), frames.frame())?
        )?;
    }
    Ok(())
}

/// Prints how a run ended.
fn print_run(rt: &HostRuntime, name: &str, run: &FollowingRun) -> Result<()> {
    let log = str::from_utf8(&run.log)?;
    let last = log.lines().last().unwrap_or("nothing");
    println!(rt;
        "{name}: status {}, {} bytes asked, {} lines told, last {last}",
        run.status,
        run.requests.len(),
        log.lines().count()
    )?;
    Ok(())
}
