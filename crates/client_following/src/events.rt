//! The events of a client, each as a value of its kind.
ghost use Rattle.std.specs.Prelude.{◌≡◌, ◌^◌, ◌-◌, IfOk, IfErr};
ghost use Rattle.client_following.specs.Events.{ReadsEvent, UnreadEvent, UnreadKind};
ghost use Rattle.watchman_client.specs.Events.{EventsInTurn, EventsToTheEnd};
ghost use Rattle.watchman_client.specs.Requests.{GivesEvent, NoEvent};
ghost use Rattle.watchman_client.specs.Views.{StaysWithin};
ghost use Rattle.watchman_types.specs.Messages.{IsEvent, kind_of_event};

use serde_bser::de::{DeserializeOwned, Shape};
use serde_bser::device::{Sink, Source};
use std::marker::PhantomData;
use watchman_client::client::Client;
use watchman_client::errors::{ClientError, ends};
use watchman_types::header::Header;
use watchman_types::kind::EventKind;
use watchman_types::message::{Event, EventShape};

/// The events of a client, one after the other, with texts that are read as `T` and files as `F`.
///
/// One that is not read is an error, [`ClientError::Answer`] as a rule, and the next item is the
/// event behind it. It ends where the stream ended behind a whole message, behind an error by which
/// the client fails for good or has failed, and after `u64::MAX` items.
#[derive(Drop)]
pub struct TypedEvents<'c, T, F, S, W> {
    client: &'c mut Client<S, W>,
    left: u64,
    event: PhantomData<(T, F)>,
}

/// Returns the events that the client keeps, and then those of the stream.
pub fn events_of<T, F, S, W>(client: &mut Client<S, W>) -> TypedEvents<'_, T, F, S, W>
where
    T: DeserializeOwned,
    F: DeserializeOwned,
    S: Source,
    W: Sink,
    ensures client { result.client.now ≡ client.old }
    ensures most { result.left ≡ 2 ^ 64 - 1 }
{
    TypedEvents {
        client,
        left: u64::MAX,
        event: PhantomData,
    }
}

impl<'c, T, F, S, W> Iterator for TypedEvents<'c, T, F, S, W>
where
    T: DeserializeOwned,
    F: DeserializeOwned,
    S: Source,
    W: Sink,
{
    ghost use Rattle.std.specs.Iterator.{at_most};
    ghost use Rattle.client_following.specs.Events.{ReadsEvent, UnreadEvent};
    ghost use Rattle.watchman_client.specs.Requests.{GivesItem};

    type Item = Result<Event<T, F>, ClientError>;

    ghost next_gives = { λ s r t. GivesItem S.remaining
        (ReadsEvent ⟦<Header as Shape>⟧ ⟦<T as EventShape<F>>⟧.events)
        (UnreadEvent ⟦<Header as Shape>⟧ ⟦<T as EventShape<F>>⟧.events)
        s.left t.left s.client.now t.client.now r };

    ghost remaining = { λ s. at_most s.left };

    fn next(&mut self) -> Option<Result<Event<T, F>, ClientError>> {
        if self.left == 0 {
            return None;
        }
        match next_event(self.client) {
            Ok(Some(event)) => {
                self.left -= 1;
                Some(Ok(event))
            }
            Ok(None) => None,
            Err(error) => {
                self.left = if ends(&error) { 0 } else { self.left - 1 };
                Some(Err(error))
            }
        }
    }
}

/// Takes the next event, one that the client keeps before those of the stream, or answers `None`
/// where the stream ended behind a whole message.
///
/// Between two of these calls requests can be sent, while a loop over [`events_of`] holds the client.
/// The errors are those of [`Client::next_unsolicited`], and then of [`Client::read_owned`]: after one
/// of the latter the message was taken, and the next call gives the event behind it.
pub fn next_event<T, F, S, W>(client: &mut Client<S, W>) -> Result<Option<Event<T, F>>, ClientError>
where
    T: DeserializeOwned,
    F: DeserializeOwned,
    S: Source,
    W: Sink,
    ensures given { IfOk result (GivesEvent S.remaining
        (ReadsEvent ⟦<Header as Shape>⟧ ⟦<T as EventShape<F>>⟧.events)
        (UnreadEvent ⟦<Header as Shape>⟧ ⟦<T as EventShape<F>>⟧.events) client.old client.new) }
    ensures refused { IfErr result (NoEvent S.remaining
        (ReadsEvent ⟦<Header as Shape>⟧ ⟦<T as EventShape<F>>⟧.events)
        (UnreadEvent ⟦<Header as Shape>⟧ ⟦<T as EventShape<F>>⟧.events) client.old client.new) }
    ensures writer { client.new.writer ≡ client.old.writer }
    ensures within { StaysWithin client.old client.new }
{
    if !client.next_unsolicited()? {
        return Ok(None);
    }
    match read_event(client) {
        Ok(event) => Ok(Some(event)),
        Err(error) => Err(error),
    }
}

/// Reads the message that was given last as the event that it is.
fn read_event<T, F, S, W>(client: &Client<S, W>) -> Result<Event<T, F>, ClientError>
where
    T: DeserializeOwned,
    F: DeserializeOwned,
    S: Source,
    W: Sink,
    ensures found { IfOk result (ReadsEvent ⟦<Header as Shape>⟧ ⟦<T as EventShape<F>>⟧.events
        client.now.message) }
    ensures refused { IfErr result (UnreadEvent ⟦<Header as Shape>⟧ ⟦<T as EventShape<F>>⟧.events
        client.now.message) }
{
    let header: Header = client.read()?;
    read_kind(client, header.event_kind())
}

/// Reads the message that was given last as an event of this kind.
fn read_kind<T, F, S, W>(client: &Client<S, W>, kind: EventKind) -> Result<Event<T, F>, ClientError>
where
    T: DeserializeOwned,
    F: DeserializeOwned,
    S: Source,
    W: Sink,
    ensures kind { IfOk result (λ event. kind_of_event event ≡ kind) }
    ensures found { IfOk result (IsEvent ⟦<T as EventShape<F>>⟧.events client.now.message) }
    ensures refused { IfErr result (UnreadKind ⟦<T as EventShape<F>>⟧.events kind
        client.now.message) }
{
    match kind {
        EventKind::Log => {
            let line = client.read_owned()?;
            Ok(Event::Log(line))
        }
        EventKind::StateEntered => {
            let state = client.read_owned()?;
            Ok(Event::StateEntered(state))
        }
        EventKind::StateLeft => {
            let state = client.read_owned()?;
            Ok(Event::StateLeft(state))
        }
        EventKind::Canceled => {
            let canceled = client.read_owned()?;
            Ok(Event::Canceled(canceled))
        }
        EventKind::Files => {
            let changed = client.read_owned()?;
            Ok(Event::Files(changed))
        }
        EventKind::Other => Ok(Event::Other),
    }
}

/// What [`events_in_turn`](watchman_client::laws::events_in_turn) says holds of loops over
/// [`events_of`] too.
pub fn typed_events_in_turn<S: Source, W: Sink, T: DeserializeOwned, F: DeserializeOwned>()
    ensures items { EventsInTurn W S.remaining
        (ReadsEvent ⟦<Header as Shape>⟧ ⟦<T as EventShape<F>>⟧.events)
        (UnreadEvent ⟦<Header as Shape>⟧ ⟦<T as EventShape<F>>⟧.events) }
    ensures all { EventsToTheEnd W S.remaining
        (ReadsEvent ⟦<Header as Shape>⟧ ⟦<T as EventShape<F>>⟧.events)
        (UnreadEvent ⟦<Header as Shape>⟧ ⟦<T as EventShape<F>>⟧.events) }
{}
