//! A client that sends requests in the midst of its events.
use anyhow::{Context, Result};
use bser_vectors::session::SentMessage;
use client_following::events::{events_of, next_event};
use serde_bser::bytestring::ByteString;
use serde_bser::device::Watched;
use watchman_client::bounds::Bounds;
use watchman_client::client::Client;
use watchman_types::file::File;
use watchman_types::message::Event;
use watchman_types::requests::{Bytes, ClockRequest};
use watchman_types::watch::Clock;

/// Places among the messages of the session: three events, and the answer to `clock` in the place of
/// those to the requests behind each of the events. The first two answers come behind an event.
const ORDER: [usize; 6] = [5, 6, 2, 7, 2, 2];

/// What the client keeps.
const BOUNDS: Bounds = Bounds {
    message_bytes: 1_000,
    kept_messages: 1,
    kept_bytes: 1_000,
};

/// Prints each event, and the clock that is asked for behind it.
pub fn print_asking(rt: &HostRuntime, stream: &[u8], messages: &[SentMessage]) -> Result<()> {
    let mut server = Vec::new(rt.alloc());
    for place in ORDER {
        let message = messages.get(place).context("too few messages")?;
        server.extend_from_slice(message.bytes(stream))?;
    }
    let writer = Watched::new(Vec::new(rt.alloc()));
    let reader = Watched::new(server.as_slice());
    let mut client = Client::new(rt.alloc(), BOUNDS, reader, writer);
    for _ in 0..u64::MAX {
        match next_event::<ByteString, File<ByteString>, _, _>(&mut client)? {
            Some(Event::Files(changed)) => println!(rt; "changes at {}", changed.clock)?,
            Some(_event) => println!(rt; "another event")?,
            None => break,
        }
        let request = ClockRequest {
            root: Bytes(b"/data/my/project"),
            sync_timeout: None,
        };
        let now: Clock<ByteString> = client.request(&request)?;
        let kept = client.has_kept();
        println!(rt; "asked behind it: {}, an event is kept: {kept}", now.clock)?;
    }
    Ok(())
}

/// Prints the events, where nothing is asked between them.
pub fn print_events(rt: &HostRuntime, stream: &[u8], messages: &[SentMessage]) -> Result<()> {
    let mut server = Vec::new(rt.alloc());
    for place in [5, 6, 7] {
        let message = messages.get(place).context("too few messages")?;
        server.extend_from_slice(message.bytes(stream))?;
    }
    let writer = Watched::new(Vec::new(rt.alloc()));
    let reader = Watched::new(server.as_slice());
    let mut client = Client::new(rt.alloc(), BOUNDS, reader, writer);
    for event in events_of::<ByteString, File<ByteString>, _, _>(&mut client) {
        match event? {
            Event::Files(changed) => println!(rt; "then changes at {}", changed.clock)?,
            _event => println!(rt; "then another event")?,
        }
    }
    Ok(())
}
