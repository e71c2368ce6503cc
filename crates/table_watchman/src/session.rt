//! What a client gives of a recorded session, whole and cut, and the tables of files folded from
//! it.
//!
//! Each connection is a client of its own. Requests are sent as soon as the answer before came, so
//! unsolicited messages come before answers, and are kept. Then the session is followed message by
//! message, and what is listed of files is compared with tables that were folded elsewhere. One row
//! of `wrong-tables.tsv` is wrong, and is named.
mod fold;
mod table;

use crate::session::fold::fold_session;
use anyhow::{Context, Result, bail, ensure};
use bser_vectors::session::SentMessage;
use serde_bser::device::Watched;
use serde_bser::from_slice;
use serde_bser::value::Value;
use std::alloc::Global;
use watchman_client::bounds::Bounds;
use watchman_client::client::Client;
use watchman_client::errors::ClientError;
use watchman_client::reading::{read_answer, read_owned_answer};

/// What a client keeps of the session.
const BOUNDS: Bounds = Bounds {
    message_bytes: 1_000,
    kept_messages: 100,
    kept_bytes: 100_000,
};

/// The bytes before the body of a message of 128 to 32,767 bytes.
const HEADER: usize = 9;

/// Compares both connections of the session, and what is listed of files.
pub fn compare_session(rt: &HostRuntime, stream: &[u8], messages: &[SentMessage]) -> Result<()> {
    for connection in 1..3 {
        let messages = messages_of(rt.alloc(), messages, connection)?;
        let cuts = check_connection(rt.alloc(), stream, &messages)?;
        println!(rt;
            "connection {connection}: {} messages, {cuts} cuts",
            messages.len()
        )?;
    }
    print_bounds(rt, stream, messages.first().context("no message")?)?;
    fold_session(rt, stream, messages)
}

/// Prints how a client ends that takes bodies of as many bytes as the message has, and of one less.
fn print_bounds(rt: &HostRuntime, stream: &[u8], message: &SentMessage) -> Result<()> {
    let bytes = message.bytes(stream);
    let body = bytes.len().saturating_sub(HEADER);
    for message_bytes in [body, body.saturating_sub(1)] {
        let writer = Watched::new(Vec::new(rt.alloc()));
        let bounds = Bounds {
            message_bytes,
            ..BOUNDS
        };
        let mut client = Client::new(rt.alloc(), bounds, Watched::new(bytes), writer);
        client.send(&"request")?;
        match client.answer() {
            Ok(()) => {
                check_read(rt.alloc(), client.read_owned(), bytes)?;
                println!(rt; "at most {message_bytes} bytes: an answer")?;
            }
            Err(error) => println!(rt; "at most {message_bytes} bytes: {error}")?,
        }
    }
    Ok(())
}

/// Compares the answer that was read with what each other call reads of its bytes.
fn check_read(alloc: Global, read: Result<Value, ClientError>, bytes: &[u8]) -> Result<()> {
    let answer = read?;
    ensure!(
        read_answer::<Value>(alloc, bytes)? == answer,
        "lent otherwise"
    );
    ensure!(
        read_owned_answer::<Value>(alloc, bytes)? == answer,
        "owned otherwise"
    );
    ensure!(
        from_slice::<Value>(alloc, bytes)? == answer,
        "read otherwise"
    );
    Ok(())
}

/// The messages of a connection.
pub fn messages_of(
    alloc: Global,
    messages: &[SentMessage],
    connection: usize,
) -> Result<Vec<SentMessage>> {
    let mut chosen = Vec::new(alloc);
    for message in messages {
        if message.connection == connection {
            chosen.push(*message)?;
        }
    }
    Ok(chosen)
}

/// Compares the whole stream of a connection, and each of its beginnings, and tells how many these
/// are.
fn check_connection(alloc: Global, stream: &[u8], messages: &[SentMessage]) -> Result<usize> {
    let start = messages.first().context("no message")?.start;
    let end = messages.last().context("no message")?.end;
    for cut in start..end.saturating_add(1) {
        check_cut(alloc, stream, start, cut, messages)?;
    }
    Ok(end.saturating_sub(start))
}

/// Compares what a client gives of these bytes with the messages that are whole among them.
fn check_cut(
    alloc: Global,
    stream: &[u8],
    start: usize,
    cut: usize,
    messages: &[SentMessage],
) -> Result<()> {
    let bytes = stream.get(start..cut).context("outside")?;
    let writer = Watched::new(Vec::new(alloc));
    let mut client = Client::new(alloc, BOUNDS, Watched::new(bytes), writer);
    let clean = cut == start || messages.iter().any(|m| m.end == cut);
    for message in messages {
        if message.end <= cut && !message.is_unsolicited {
            client.send(&"request")?;
            ensure!(client.is_waiting(), "a request that is not outstanding");
            client.answer()?;
            ensure!(
                !client.is_waiting(),
                "a request that is outstanding behind its answer"
            );
            check_message(stream, message, client.message())?;
        }
    }
    client.send(&"request")?;
    match client.answer() {
        Err(ClientError::Ended) if clean => {}
        Err(ClientError::Frame(_)) if !clean => {}
        _other => bail!("another end at {cut}"),
    }
    for message in messages {
        if message.end <= cut && message.is_unsolicited {
            ensure!(client.next_unsolicited()?, "none at {cut}");
            check_message(stream, message, client.message())?;
        }
    }
    match client.next_unsolicited() {
        Ok(false) if clean => {}
        Err(ClientError::Failed) if !clean => {}
        _other => bail!("another message at {cut}"),
    }
    ensure!(client.has_failed() != clean, "failed otherwise at {cut}");
    Ok(())
}

/// Compares a message that was given with the one recorded.
fn check_message(stream: &[u8], message: &SentMessage, given: &[u8]) -> Result<()> {
    ensure!(
        given == message.bytes(stream),
        "another message than that at {}",
        message.start
    );
    Ok(())
}
