//! What the next message is.
ghost use Rattle.std.specs.Prelude.{◌≡◌, IfOk, IfErr};
ghost use Rattle.std.specs.Io.KnownBytes.{Keeps};
ghost use Rattle.watchman_client.specs.Failures.{IsHindered};
ghost use Rattle.watchman_client.specs.Views.{left_of, IsNext};

use crate::errors::ClientError;
use crate::incoming::Incoming;
use crate::kinds::kind_of;
use bser_source::device::Source;
use std::alloc::Global;

/// What comes next.
#[derive(Debug, Clone, Copy, PartialEq, Eq)]
pub(crate) enum NextMessage {
    /// No byte is left.
    End,
    /// An unsolicited message, and whether it is known to report no error.
    Unsolicited { errorless: bool },
    /// Any other message.
    Answer,
}

/// Has the next message in hand, and returns what it is. Where an answer is wanted, the error of the
/// message is not looked for.
pub(crate) fn next_kind<S: Source>(
    alloc: Global,
    incoming: &mut Incoming<S>,
    wants_answer: bool,
) -> Result<NextMessage, ClientError>
    ensures kept { Keeps (left_of S.remaining incoming.old) (left_of S.remaining incoming.new) }
    ensures next { IfOk result (IsNext S.remaining incoming.new) }
    ensures err { IfErr result (λ e. IsHindered S.remaining e incoming.new) }
    ensures limits { incoming.new.stream.limits ≡ incoming.old.stream.limits }
{
    match incoming.reach() {
        Ok(true) => match kind_of(alloc, incoming.frame(), wants_answer) {
            Ok(kind) if kind.unsolicited => {
                let errorless = kind.errorless;
                Ok(NextMessage::Unsolicited { errorless })
            }
            Ok(_answer) => Ok(NextMessage::Answer),
            Err(_) => Err(ClientError::Memory),
        },
        Ok(false) => Ok(NextMessage::End),
        Err(error) => Err(ClientError::Frame(error)),
    }
}
