//! The messages of the server: the answers to requests, and what no request asked for.
ghost use Rattle.std.specs.Prelude.{◌≡◌, IfOk, IfErr};
ghost use Rattle.watchman_types.specs.Messages.{EventTypes, kind_of_event, IsEvent, kind_of_message, IsOfKind, IsMessage};
ghost use Rattle.watchman_types.specs.Refusals.{RefusesEvent, RefusesKind, RefusesMessage};

use crate::error_reply::ErrorReply;
use crate::header::Header;
use crate::kind::{EventKind, MessageKind};
use crate::log::Log;
use crate::state::{StateEntered, StateLeft};
use crate::subscription::{Canceled, FilesChanged};
use serde_bser::de::{Deserialize, Shape, from_slice};
use serde_bser::errors::Result;
use std::alloc::Global;

/// The answer to a request, or the server's error in its place.
pub type Answer<T, S> = std::result::Result<T, ErrorReply<S>>;

/// A message that no request asked for. `S` is what its texts are read as, and `F` what a file is.
#[derive(Debug, Drop)]
pub enum Event<S, F> {
    Log(Log<S>),
    StateEntered(StateEntered<S>),
    StateLeft(StateLeft<S>),
    Canceled(Canceled<S>),
    Files(FilesChanged<S, F>),
    /// One of another kind, of which nothing is read.
    Other,
}

/// A message of the server. `T` is what the answer to the outstanding request is read as, `S` what
/// texts elsewhere are, and `F` what a file of an event is.
#[derive(Debug, Drop)]
pub enum Message<S, F, T> {
    Answer(Answer<T, S>),
    Event(Event<S, F>),
}

/// What each event is read as, by the types of its texts and files.
pub trait EventShape<F> {
    // what each event is read as
    ghost events: { EventTypes Self F };
}

impl<S: Shape, F: Shape> EventShape<F> for S {
    ghost events = { record {
      log = ⟦<Log<S> as Shape>⟧;
      entered = ⟦<StateEntered<S> as Shape>⟧;
      left = ⟦<StateLeft<S> as Shape>⟧;
      canceled = ⟦<Canceled<S> as Shape>⟧;
      files = ⟦<FilesChanged<S, F> as Shape>⟧;
    } };
}

/// Reads the event of this kind from the message at the start of `bytes`.
///
/// Fails as [`from_slice`] does of the type that the kind names. For `Other` the bytes are not
/// looked at.
pub fn read_event<'de, S: Deserialize<&'de [u8]>, F: Deserialize<&'de [u8]>>(
    alloc: Global,
    kind: EventKind,
    bytes: &'de [u8],
) -> Result<Event<S, F>>
    ensures kind { IfOk result (λ event. kind_of_event event ≡ kind) }
    ensures found { IfOk result (IsEvent ⟦<S as EventShape<F>>⟧.events bytes.now) }
    ensures refused { IfErr result (RefusesEvent ⟦<S as EventShape<F>>⟧.events kind bytes.now) }
{
    match kind {
        EventKind::Log => {
            let line = from_slice(alloc, bytes)?;
            Ok(Event::Log(line))
        }
        EventKind::StateEntered => {
            let state = from_slice(alloc, bytes)?;
            Ok(Event::StateEntered(state))
        }
        EventKind::StateLeft => {
            let state = from_slice(alloc, bytes)?;
            Ok(Event::StateLeft(state))
        }
        EventKind::Canceled => {
            let canceled = from_slice(alloc, bytes)?;
            Ok(Event::Canceled(canceled))
        }
        EventKind::Files => {
            let changed = from_slice(alloc, bytes)?;
            Ok(Event::Files(changed))
        }
        EventKind::Other => Ok(Event::Other),
    }
}

/// Reads the message at the start of `bytes`, of at most 128 levels.
///
/// [`Header::kind`] decides which message it is: an event where its `unilateral` is true, else the
/// error of the server where it has an `error`, else the answer to the outstanding request. What
/// follows the message is ignored.
///
/// Fails as [`from_slice`] does of a [`Header`], and then of the type that the kind names.
pub fn read_message<'de, S, F, T>(alloc: Global, bytes: &'de [u8]) -> Result<Message<S, F, T>>
where
    S: Deserialize<&'de [u8]>,
    F: Deserialize<&'de [u8]>,
    T: Deserialize<&'de [u8]>,
    ensures kind { IfOk result (λ message. IsOfKind ⟦<Header as Shape>⟧ bytes.now
        (kind_of_message message)) }
    ensures found { IfOk result (IsMessage ⟦<S as EventShape<F>>⟧.events T.Shape
        ⟦<ErrorReply<S> as Shape>⟧ bytes.now) }
    ensures refused { IfErr result (RefusesMessage ⟦<Header as Shape>⟧
        ⟦<S as EventShape<F>>⟧.events T.Shape ⟦<ErrorReply<S> as Shape>⟧ bytes.now) }
{
    let header: Header = from_slice(alloc, bytes)?;
    read_by_kind(alloc, header.kind(), bytes)
}

/// Reads the message of this kind at the start of `bytes`.
///
/// Fails as [`from_slice`] does of the type that the kind names.
fn read_by_kind<'de, S, F, T>(
    alloc: Global,
    kind: MessageKind,
    bytes: &'de [u8],
) -> Result<Message<S, F, T>>
where
    S: Deserialize<&'de [u8]>,
    F: Deserialize<&'de [u8]>,
    T: Deserialize<&'de [u8]>,
    ensures kind { IfOk result (λ message. kind_of_message message ≡ kind) }
    ensures found { IfOk result (IsMessage ⟦<S as EventShape<F>>⟧.events T.Shape
        ⟦<ErrorReply<S> as Shape>⟧ bytes.now) }
    ensures refused { IfErr result (RefusesKind ⟦<S as EventShape<F>>⟧.events T.Shape
        ⟦<ErrorReply<S> as Shape>⟧ kind bytes.now) }
{
    match kind {
        MessageKind::Answer => {
            let answer = from_slice(alloc, bytes)?;
            Ok(Message::Answer(Ok(answer)))
        }
        MessageKind::Error => {
            let error = from_slice(alloc, bytes)?;
            Ok(Message::Answer(Err(error)))
        }
        MessageKind::Event(kind) => {
            let event = read_event(alloc, kind, bytes)?;
            Ok(Message::Event(event))
        }
    }
}
