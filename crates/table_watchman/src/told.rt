//! What messages tell, for people.
use anyhow::{Result, bail};
use serde_bser::bytestring::ByteString;
use serde_bser::from_slice;
use std::alloc::Global;
use watchman_types::file::File;
use watchman_types::header::Header;
use watchman_types::kind::{EventKind, MessageKind};
use watchman_types::message::{Event, Message, read_event, read_message};
use watchman_types::watch::Clock;

/// Prints what the message tells: an answer to `clock`, or what came in its place.
pub fn print_message(rt: &HostRuntime, bytes: &[u8]) -> Result<()> {
    let message: Message<ByteString, File<ByteString>, Clock<ByteString>> = read_message(
        rt.alloc(),
        bytes,
    )?;
    match message {
        Message::Answer(Ok(answer)) => println!(rt; "the clock is {}", answer.clock)?,
        Message::Answer(Err(reply)) => println!(rt; "the server's error: {}", reply.error)?,
        Message::Event(Event::Files(changed)) => println!(rt;
            "{} tells of {} files",
            changed.subscription,
            changed.files.len()
        )?,
        Message::Event(_event) => println!(rt; "another event")?,
    }
    Ok(())
}

/// Checks of an event that what its kind alone is read as is of that kind.
pub fn check_event(alloc: Global, bytes: &[u8]) -> Result<()> {
    let header: Header = from_slice(alloc, bytes)?;
    let MessageKind::Event(kind) = header.kind() else {
        return Ok(());
    };
    let event: Event<ByteString, File<ByteString>> = read_event(alloc, header.event_kind(), bytes)?;
    match (kind, &event) {
        (EventKind::Log, Event::Log(_))
        | (EventKind::StateEntered, Event::StateEntered(_))
        | (EventKind::StateLeft, Event::StateLeft(_))
        | (EventKind::Canceled, Event::Canceled(_))
        | (EventKind::Files, Event::Files(_))
        | (EventKind::Other, Event::Other) => Ok(()),
        _ => bail!("an event of another kind"),
    }
}
