//! Several kinds of messages in one slice.
ghost use Rattle.std.specs.Prelude.{codes, [], ◌∷◌};
ghost use Rattle.serde_bser.specs.StructFields.{required, struct_meaning};

use crate::file::File;
use serde_bser::de::read::LendsFrom;
use serde_bser::de::{Answer, Deserializer};
use serde_bser::describe;
use serde_bser::errors::Result;
use serde_bser::prelude::*;
use serde_bser::stream::SliceMessages;
use std::alloc::Global;

/// An answer, whose clock is borrowed from the message.
#[derive(Drop)]
pub struct Reply<'a> {
    pub clock: &'a str,
    pub files: Vec<File>,
}

impl<'a> Fields for Reply<'a> {
    ghost fields = { required (codes "clock") (λ v. v.clock) ⟦<&'a str as ReadOnly>⟧.coding
        ∷ required (codes "files") (λ v. v.files) ⟦<Vec<File> as ReadOnly>⟧.coding
        ∷ [] };
}

impl<'a> Meant for Reply<'a> {
    ghost meaning = { struct_meaning ⟦<Reply<'a> as Fields>⟧.fields };
}

impl<'a, L: LendsFrom<'a>> Deserialize<L> for Reply<'a> {
    fn deserialize<R: DeRead<Lent = L>>(alloc: Global, from: &mut Deserializer<R>) -> Answer<Self> {
        read_struct! { alloc, from, Reply { clock: Required("clock"), files: Required("files") } }
    }
}

/// What the server sends where it cannot answer.
#[derive(Drop)]
pub struct ServerError<'a> {
    pub error: &'a str,
}

impl<'a> Fields for ServerError<'a> {
    ghost fields = { required (codes "error") (λ v. v.error) ⟦<&'a str as ReadOnly>⟧.coding ∷ [] };
}

impl<'a> Meant for ServerError<'a> {
    ghost meaning = { struct_meaning ⟦<ServerError<'a> as Fields>⟧.fields };
}

impl<'a, L: LendsFrom<'a>> Deserialize<L> for ServerError<'a> {
    fn deserialize<R: DeRead<Lent = L>>(alloc: Global, from: &mut Deserializer<R>) -> Answer<Self> {
        read_struct! { alloc, from, ServerError { error: Required("error") } }
    }
}

/// Prints each message of the slice: an answer, or the server's error in its place. The first
/// message that is neither ends it.
pub fn print_replies(rt: &HostRuntime, bytes: &[u8]) -> Result<()> {
    let mut messages = SliceMessages::new(rt.alloc(), bytes);
    for _ in 0..bytes.len() {
        match messages.next_message::<Reply>() {
            Ok(Some(reply)) => print_reply(rt, &reply)?,
            Ok(None) => break,
            Err(_error) => match messages.next_message::<ServerError>() {
                Ok(Some(failure)) => println!(rt; "error of the server: {}", failure.error)?,
                _other => return print_error(rt, &messages),
            },
        }
    }
    Ok(())
}

/// Prints an answer.
pub fn print_reply(rt: &HostRuntime, reply: &Reply) -> Result<()> {
    println!(rt; "at {}, files: {}", reply.clock, reply.files.len())?;
    for file in &reply.files {
        println!(rt; "  {}: {} bytes", file.name, file.size)?;
    }
    Ok(())
}

/// Prints why the next message is no answer.
fn print_error(rt: &HostRuntime, messages: &SliceMessages) -> Result<()> {
    if let Err(error) = describe::from_slice::<Reply>(rt.alloc(), messages.rest()) {
        println!(rt; "the message at byte {}: {error}", messages.taken())?;
    }
    Ok(())
}
