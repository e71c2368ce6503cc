//! Requests with their answers, and events, each in one call.
ghost use Rattle.std.specs.Prelude.{◌≡◌, IfOk, OnOk, IfErr};
ghost use Rattle.watchman_client.specs.Requests.{Exchanges, GivesEvent, NoEvent, ReadsOwned, Unmet, UnreadOwned};
ghost use Rattle.watchman_client.specs.Views.{StaysWithin};

use crate::client::Client;
use crate::errors::ClientError;
use bser_ser::Serialize;
use bser_source::device::{Sink, Source};
use bser_types::deserialize::DeserializeOwned;

impl<S: Source, W: Sink> Client<S, W> {
    /// Sends the request, takes its answer, and reads it as a value that borrows nothing.
    ///
    /// The errors are those of [`send`](Self::send), then of [`answer`](Self::answer), and then of
    /// [`read_owned`](Self::read_owned). After an error of `send` at most a beginning of the request
    /// was sent, and after one of `answer` it is outstanding: `answer` goes on. After one of
    /// `read_owned` the answer was taken, and [`message`](Self::message) lends it. `Memory` comes of
    /// the last two: the answer was taken where [`is_waiting`](Self::is_waiting) is false.
    pub fn request<T: DeserializeOwned, Q: Serialize>(
        &mut self,
        request: &Q,
    ) -> Result<T, ClientError>
        ensures exchanged { OnOk result (Exchanges S.remaining W.Sink (Q.meaning request.now)
            self.old self.new) }
        ensures found { IfOk result (ReadsOwned T.Shape self.new.message) }
        ensures refused { IfErr result (Unmet S.remaining W.Sink (Q.meaning request.now)
            T.Shape self.old self.new) }
        ensures within { StaysWithin self.old self.new }
    {
        self.send(request)?;
        match self.answer() {
            Ok(()) => self.read_owned(),
            Err(unanswered) => Err(unanswered),
        }
    }

    /// Takes the next unsolicited message and reads it as a value that borrows nothing, or answers
    /// `None` where the stream ended behind a whole message.
    ///
    /// The errors are those of [`next_unsolicited`](Self::next_unsolicited), and then of
    /// [`read_owned`](Self::read_owned): after one of the latter the message was taken.
    pub fn next_event<T: DeserializeOwned>(&mut self) -> Result<Option<T>, ClientError>
        ensures given { IfOk result (GivesEvent S.remaining (ReadsOwned T.Shape)
            (UnreadOwned T.Shape) self.old self.new) }
        ensures refused { IfErr result (NoEvent S.remaining (ReadsOwned T.Shape)
            (UnreadOwned T.Shape) self.old self.new) }
        ensures writer { self.new.writer ≡ self.old.writer }
        ensures within { StaysWithin self.old self.new }
    {
        if !self.next_unsolicited()? {
            return Ok(None);
        }
        match self.read_owned() {
            Ok(event) => Ok(Some(event)),
            Err(error) => Err(error),
        }
    }
}
