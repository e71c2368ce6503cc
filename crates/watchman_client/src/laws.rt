//! What each call of a client is among all, and what all do together.
ghost use Rattle.std.specs.Prelude.{MatchResult};
ghost use Rattle.watchman_client.specs.Calls.{Makes, MakesSent, MakesTold, MakesUnsent};
ghost use Rattle.watchman_client.specs.Events.{EventsInTurn, EventsToTheEnd};
ghost use Rattle.watchman_client.specs.Requests.{ReadsOwned, UnreadOwned};
ghost use Rattle.watchman_client.specs.Steps.{WholeRun, answered, idle};

use crate::client::Client;
use crate::errors::ClientError;
use bser_ser::Serialize;
use bser_source::device::{Sink, Source};
use bser_types::deserialize::DeserializeOwned;

/// [`send`](Client::send) is a step of [`whole_run`]: the request's message was sent, or broke off,
/// or nothing was done.
pub fn send_is_a_step<S: Source, W: Sink, T: Serialize>(
    client: &mut Client<S, W>,
    request: &T,
) -> Result<(), ClientError>
    ensures { MatchResult result
        (λ _. MakesSent S.remaining W.Sink client.old client.new (T.meaning request.now))
        (λ _. MakesUnsent S.remaining W.Sink client.old client.new (T.meaning request.now)) }
{
    client.send(request)
}

/// [`answer`](Client::answer) is a step of [`whole_run`]: the message was given as the answer, or
/// none was.
pub fn answer_is_a_step<S: Source, W: Sink>(client: &mut Client<S, W>) -> Result<(), ClientError>
    ensures { MatchResult result
        (λ _. Makes S.remaining W.Sink client.old client.new (answered client.new.message))
        (λ _. Makes S.remaining W.Sink client.old client.new idle) }
{
    client.answer()
}

/// [`next_unsolicited`](Client::next_unsolicited) is a step of [`whole_run`]: the message was given
/// as an unsolicited one, or none was.
pub fn next_unsolicited_is_a_step<S: Source, W: Sink>(
    client: &mut Client<S, W>,
) -> Result<bool, ClientError>
    ensures { MatchResult result (MakesTold S.remaining W.Sink client.old client.new)
        (λ _. Makes S.remaining W.Sink client.old client.new idle) }
{
    client.next_unsolicited()
}

/// Over any calls of a client, the messages that were sent are those of the requests in their order.
/// Each message that came was given or is kept, once and in order: an answer is to its request, and
/// what was given as unsolicited is. Nothing else was given or sent, but for a beginning of one
/// message, where a call failed for good.
pub fn whole_run<W: Sink>()
    ensures { WholeRun W.Sink }
{}

/// Over any items of a loop over [`events`](crate::client::Client::events), each unsolicited
/// message is one of them, once and in order. It is there as the value, or as the error why it is
/// not read. The loop goes on behind each error that does not end all. The first call that gives no
/// item is at the end of the stream, with no message kept.
pub fn events_in_turn<S: Source, W: Sink, T: DeserializeOwned>()
    ensures items { EventsInTurn W S.remaining (ReadsOwned T.Shape) (UnreadOwned T.Shape) }
    ensures all { EventsToTheEnd W S.remaining (ReadsOwned T.Shape) (UnreadOwned T.Shape) }
{}
