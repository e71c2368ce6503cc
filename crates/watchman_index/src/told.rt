//! What an index can use of a message.
ghost use Rattle.std.specs.Prelude.{◌≡◌, List, ℕ, Some, IfOk, IfErr, IfSome, IfNone};
ghost use Rattle.watchman_index.specs.Tells.{
  IsNone,
  IsNoSubscribed,
  IsSubscribed,
  Tells,
  Types,
  Untold,
};
ghost use Rattle.watchman_index.specs.Tells.{IsUnreadOrFull, TellsChanged, TellsClock, TellsQuery};
ghost use Rattle.watchman_types.specs.Messages.{IsReadAs};

use crate::changes::Changes;
use crate::listed::Listed;
use serde_bser::bytestring::ByteString;
use serde_bser::de::{self, Deserialize, Shape};
use serde_bser::describe::{Description, from_slice};
use serde_bser::errors::Error;
use std::alloc::{AllocError, Global};
use std::fmt;
use watchman_types::error_reply::ErrorReply;
use watchman_types::header::Header;
use watchman_types::kind::{EventKind, MessageKind};
use watchman_types::query::QueryResult;
use watchman_types::subscription::{Canceled, FilesChanged, Subscribed};
use watchman_types::watch::Clock;

/// What an index can use of a message.
#[derive(Debug, Drop)]
pub enum Told {
    /// Which files there are, or which of them changed.
    Files(Changes),
    /// A clock, and no files.
    Clock(ByteString),
    /// The clock of the answer to `subscribe`, behind which come the messages of a subscription.
    Subscribed(ByteString),
    /// An error of the server, in the place of an answer.
    ServerError(ByteString),
    /// The end of the subscription of this name: its root is no longer watched.
    Canceled(ByteString),
    /// None of these.
    Nothing,
}

/// Why it is not known what an index can use of a message.
#[derive(Debug, Drop)]
pub enum ContentError {
    /// It is malformed, or lists files without what an index keeps of them.
    Message(Description),
    /// No memory was left for its files.
    OutOfMemory,
}

impl From<Description> for ContentError {
    ghost use Rattle.watchman_index.specs.declared.told.ContentError.TheVariants as unread;

    ghost from_gives = { λ d e. e ≡ unread.Message d };

    fn from(error: Description) -> Self {
        ContentError::Message(error)
    }
}

impl From<AllocError> for ContentError {
    ghost use Rattle.watchman_index.specs.declared.told.ContentError.TheVariants as unread;

    ghost from_gives = { λ _ e. e ≡ unread.OutOfMemory };

    fn from(_: AllocError) -> Self {
        ContentError::OutOfMemory
    }
}

impl fmt::Display for ContentError {
    fn fmt<W: fmt::Write>(&self, f: &mut fmt::Formatter<W>) -> fmt::Result {
        match self {
            ContentError::Message(error) => write!(f, "{error}"),
            ContentError::OutOfMemory => f.write_str("out of memory"),
        }
    }
}

/// The types that messages are read as.
pub trait ToldTypes {
    // what each message is read as
    ghost types: { Types };
}

impl ToldTypes for Told {
    ghost types = { record {
      header = ⟦<Header as Shape>⟧;
      query = ⟦<QueryResult<ByteString, Listed> as Shape>⟧;
      changed = ⟦<FilesChanged<ByteString, Listed> as Shape>⟧;
      error = ⟦<ErrorReply<ByteString> as Shape>⟧;
      canceled = ⟦<Canceled<ByteString> as Shape>⟧;
      subscribed = ⟦<Subscribed<ByteString> as Shape>⟧;
      clock = ⟦<Clock<ByteString> as Shape>⟧;
    } };
}

/// Reads what an index can use of the message at the start of `bytes`, of at most 128 levels.
///
/// That is the files of an answer that has `files` and of a message of a subscription; the text of
/// an error of the server; the name of a subscription that is canceled; and the clock of all else,
/// where it has one.
///
/// Fails as [`from_slice`] does of a [`Header`]; where the message has `files`, as it does of a
/// [`QueryResult`] or [`FilesChanged`] of [`Listed`] files; where it is an error or cancels, as it
/// does of an [`ErrorReply`] or [`Canceled`]; and where there is no memory.
pub fn read_told(alloc: Global, bytes: &[u8]) -> Result<Told, ContentError>
    ensures told { IfOk result (Tells ⟦<Told as ToldTypes>⟧.types bytes.now) }
    ensures refused { IfErr result (Untold ⟦<Told as ToldTypes>⟧.types bytes.now) }
{
    let header: Header = from_slice(alloc, bytes)?;
    match header.kind() {
        MessageKind::Answer if header.files.is_some() => query_told(alloc, bytes),
        MessageKind::Event(EventKind::Files) => subscription_told(alloc, bytes),
        MessageKind::Event(EventKind::Canceled) => {
            let canceled: Canceled<ByteString> = from_slice(alloc, bytes)?;
            Ok(Told::Canceled(canceled.subscription))
        }
        MessageKind::Error => {
            let reply: ErrorReply<ByteString> = from_slice(alloc, bytes)?;
            Ok(Told::ServerError(reply.error))
        }
        _ => clock_told(alloc, bytes),
    }
}

/// What an index can use of the answer to a query.
fn query_told(alloc: Global, bytes: &[u8]) -> Result<Told, ContentError>
    ensures told { IfOk result (TellsQuery ⟦<Told as ToldTypes>⟧.types bytes.now) }
    ensures refused { IfErr result (IsUnreadOrFull
        ⟦<QueryResult<ByteString, Listed> as Shape>⟧ bytes.now) }
{
    let answer: QueryResult<ByteString, Listed> = from_slice(alloc, bytes)?;
    let changes = Changes::of_query(alloc, answer)?;
    Ok(Told::Files(changes))
}

/// What an index can use of a message of a subscription.
fn subscription_told(alloc: Global, bytes: &[u8]) -> Result<Told, ContentError>
    ensures told { IfOk result (TellsChanged ⟦<Told as ToldTypes>⟧.types bytes.now) }
    ensures refused { IfErr result (IsUnreadOrFull
        ⟦<FilesChanged<ByteString, Listed> as Shape>⟧ bytes.now) }
{
    let changed: FilesChanged<ByteString, Listed> = from_slice(alloc, bytes)?;
    let changes = Changes::of_subscription(alloc, changed)?;
    Ok(Told::Files(changes))
}

/// The clock of a message without files, if it has one.
fn clock_told(alloc: Global, bytes: &[u8]) -> Result<Told, ContentError>
    ensures told { IfOk result (TellsClock ⟦<Told as ToldTypes>⟧.types bytes.now) }
    ensures memory { IfErr result (λ e. e ≡ ContentError.OutOfMemory) }
{
    match subscribed_clock(alloc, bytes)? {
        Some(clock) => Ok(Told::Subscribed(clock)),
        None => match read_if::<Clock<ByteString>>(alloc, bytes)? {
            Some(told) => Ok(Told::Clock(told.clock)),
            None => Ok(Told::Nothing),
        },
    }
}

/// The clock of the answer to `subscribe`. `None` for another message, and one without a clock.
fn subscribed_clock(alloc: Global, bytes: &[u8]) -> Result<Option<ByteString>, AllocError>
    ensures found { IfOk result (λ o. IfSome o (λ clock.
        IsSubscribed ⟦<Told as ToldTypes>⟧.types bytes.now (Some clock))) }
    ensures none { IfOk result (λ o. IfNone o
        (IsNoSubscribed ⟦<Told as ToldTypes>⟧.types bytes.now)) }
{
    match read_if::<Subscribed<ByteString>>(alloc, bytes)? {
        Some(answer) => Ok(answer.clock),
        None => Ok(None),
    }
}

/// Reads the message at the start of `bytes` as the type. `None` for another message. The error is
/// that there is no memory for it.
fn read_if<'de, T: Deserialize<&'de [u8]>>(
    alloc: Global,
    bytes: &'de [u8],
) -> Result<Option<T>, AllocError>
    ensures found { IfOk result (λ o. IfSome o (IsReadAs T.Shape bytes.now)) }
    ensures none { IfOk result (λ o. IfNone o (IsNone T.Shape bytes.now)) }
{
    match de::from_slice::<T>(alloc, bytes) {
        Ok(value) => Ok(Some(value)),
        Err(Error::OutOfMemory) => Err(AllocError),
        Err(_other) => Ok(None),
    }
}
