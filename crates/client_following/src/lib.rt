//! A client of Watchman that prints what changed below a folder since a clock, and then each
//! change, until the subscription or the stream ends.
#![tactic(auto)]

mod error;
pub mod events;

use crate::error::FollowError;
use crate::events::events_of;
use serde_bser::bytestring::ByteString;
use serde_bser::device::{Sink, Source};
use std::alloc::Global;
use std::io::Write;
use watchman_client::bounds::Bounds;
use watchman_client::client::Client;
use watchman_client::errors::ClientError;
use watchman_types::file::File;
use watchman_types::message::Event;
use watchman_types::query::QueryResult;
use watchman_types::requests::{
    Bytes, Capabilities, ClockRequest, Moment, Query, QueryRequest, SubscribeRequest,
    VersionRequest, WatchProjectRequest,
};
use watchman_types::subscription::Subscribed;
use watchman_types::version::Version;
use watchman_types::watch::{Clock, WatchProject};

/// Messages of 64 MiB, and as much that is kept.
const BOUNDS: Bounds = Bounds {
    message_bytes: 67_108_864,
    kept_messages: 1_000,
    kept_bytes: 67_108_864,
};

/// What the server must be able to do: it answers an error, where it knows capabilities.
const NEEDED: &[&str] = &["cmd-subscribe"];

/// What is followed.
#[derive(Clone, Copy)]
pub struct Followed<'a> {
    pub folder: &'a str,
    /// The clock after which changes are wanted. From now on, where there is none.
    pub since: Option<&'a str>,
}

/// Follows the changes, and writes them to the log. The answer is a program's exit status, 1 after an
/// error, which is written too. The end of the subscription is one, and the end of the stream.
pub fn follow_changes<S: Source + Drop, W: Sink + Drop, L: Write>(
    alloc: Global,
    followed: Followed<'_>,
    input: S,
    output: W,
    log: &mut L,
) -> u8 {
    let mut client = Client::new(alloc, BOUNDS, input, output);
    match follow(&mut client, followed, log) {
        Ok(()) => 0,
        Err(error) => {
            let _ = writeln!(log, "error: {error}");
            1
        }
    }
}

/// Asks what the server can do, for the root, and for the clock, and follows from there.
fn follow<S: Source, W: Sink, L: Write>(
    client: &mut Client<S, W>,
    followed: Followed<'_>,
    log: &mut L,
) -> Result<(), FollowError> {
    let capabilities = Some(Capabilities {
        optional: &[],
        required: NEEDED,
    });
    let version: Version<String> = client.request(&VersionRequest { capabilities })?;
    writeln!(log, "version {}", version.version)?;
    if let Some(name) = version.missing_capability(NEEDED) {
        return Err(FollowError::Lacks(name));
    }
    let path = Bytes(followed.folder.as_bytes());
    let project: WatchProject<ByteString> = client.request(&WatchProjectRequest { path })?;
    if let Some(clock) = followed.since {
        return follow_since(client, &project, clock, log);
    }
    let root = Bytes(project.watch.as_bytes());
    let sync_timeout = None;
    let now: Clock<String> = client.request(&ClockRequest { root, sync_timeout })?;
    follow_since(client, &project, now.clock.as_str(), log)
}

/// Tells what changed since the clock, and then each change.
fn follow_since<S: Source, W: Sink, L: Write>(
    client: &mut Client<S, W>,
    project: &WatchProject<ByteString>,
    clock: &str,
    log: &mut L,
) -> Result<(), FollowError> {
    let root = Bytes(project.watch.as_bytes());
    let query = query_since(project, clock);
    let found: QueryResult<ByteString, File<ByteString>> = client.request(&QueryRequest {
        root,
        query,
    })?;
    let clock = str::from_utf8(found.clock.as_bytes())?;
    tell_changes(log, clock, found.is_fresh_instance, found.files.as_slice())?;
    let request = SubscribeRequest::new(root, "changes", query_since(project, clock));
    let _subscribed: Subscribed<ByteString> = client.request(&request)?;
    for event in events_of::<ByteString, File<ByteString>, _, _>(client) {
        match event {
            Ok(event) => tell_event(log, event)?,
            Err(ClientError::Answer(error)) => writeln!(log, "an event is not read: {error}")?,
            Err(error) => return Err(FollowError::Client(error)),
        }
    }
    Err(FollowError::Ended)
}

/// Names and sizes of the files that changed since the clock, below the folder that is followed:
/// where the server watches one above it, `relative_root` is the way from there.
fn query_since<'a>(project: &'a WatchProject<ByteString>, clock: &'a str) -> Query<'a> {
    Query {
        since: Some(Moment::Clock(clock)),
        fields: Some(&["name", "exists", "size"]),
        relative_root: relative_root(project),
        ..Query::new()
    }
}

/// Where the folder is below the root, if it is not the root itself.
fn relative_root(project: &WatchProject<ByteString>) -> Option<Bytes<'_>> {
    match &project.relative_path {
        Some(path) => Some(Bytes(path.as_bytes())),
        None => None,
    }
}

/// Tells an event. The end of the subscription is an error, since nothing comes behind it.
fn tell_event<L: Write>(
    log: &mut L,
    event: Event<ByteString, File<ByteString>>,
) -> Result<(), FollowError> {
    match event {
        Event::Files(changed) => {
            let clock = str::from_utf8(changed.clock.as_bytes())?;
            return tell_changes(
                log,
                clock,
                changed.is_fresh_instance,
                changed.files.as_slice(),
            );
        }
        Event::StateEntered(state) => writeln!(log, "state {} begins", state.state)?,
        Event::StateLeft(state) => writeln!(log, "state {} ends", state.state)?,
        Event::Log(message) => writeln!(log, "log {}", message.line)?,
        Event::Canceled(canceled) => return Err(FollowError::Canceled(canceled.subscription)),
        Event::Other => writeln!(log, "another event")?,
    }
    Ok(())
}

/// Writes a clock to the log, and each of the files that changed up to it. A fresh answer has all
/// that there are, as where the server was started anew.
fn tell_changes<L: Write>(
    log: &mut L,
    clock: &str,
    is_fresh: bool,
    files: &[File<ByteString>],
) -> Result<(), FollowError> {
    let others = if is_fresh {
        ", all others are gone"
    } else {
        ""
    };
    writeln!(log, "at {clock}{others}")?;
    for file in files {
        let Some(name) = &file.name else {
            return Err(FollowError::Nameless);
        };
        if file.exists == Some(false) {
            writeln!(log, "  {name} is gone")?;
        } else {
            writeln!(log, "  {name}: {} bytes", file.size.unwrap_or(0))?;
        }
    }
    Ok(())
}
