//! The events of a client, one after the other.
ghost use Rattle.std.specs.Prelude.{◌≡◌, ◌^◌, ◌-◌};
ghost use Rattle.std.specs.Iterator.{at_most};

use crate::client::Client;
use crate::errors::{ClientError, ends};
use bser_source::device::{Sink, Source};
use bser_types::deserialize::DeserializeOwned;
use std::marker::PhantomData;

/// The unsolicited messages of a client, one after the other, as values that borrow nothing.
///
/// It ends where the stream ended behind a whole message, behind an error by which the client fails
/// for good or has failed, and after `u64::MAX` items. After any other error it goes on.
#[derive(Drop)]
pub struct Events<'c, S, W, T> {
    client: &'c mut Client<S, W>,
    left: u64,
    event: PhantomData<T>,
}

impl<S: Source, W: Sink> Client<S, W> {
    /// Returns the unsolicited messages that are kept, and then those of the stream, as
    /// [`next_event`](Self::next_event) gives them.
    pub fn events<T: DeserializeOwned>(&mut self) -> Events<'_, S, W, T>
        ensures client { result.client.now ≡ self.old }
        ensures most { result.left ≡ 2 ^ 64 - 1 }
    {
        Events {
            client: self,
            left: u64::MAX,
            event: PhantomData,
        }
    }
}

impl<'c, S: Source, W: Sink, T: DeserializeOwned> Iterator for Events<'c, S, W, T> {
    ghost use Rattle.watchman_client.specs.Requests.{GivesItem, ReadsOwned, UnreadOwned};

    type Item = Result<T, ClientError>;

    ghost next_gives = { λ s r t. GivesItem S.remaining (ReadsOwned T.Shape) (UnreadOwned T.Shape)
        s.left t.left s.client.now t.client.now r };

    ghost remaining = { λ s. at_most s.left };

    fn next(&mut self) -> Option<Result<T, ClientError>> {
        if self.left == 0 {
            return None;
        }
        match self.client.next_event() {
            Ok(Some(event)) => {
                self.left -= 1;
                Some(Ok(event))
            }
            Ok(None) => None,
            Err(error) => {
                self.left = if ends(&error) { 0 } else { self.left - 1 };
                Some(Err(error))
            }
        }
    }
}
