//! Reading one message under limits of levels and of bytes.
ghost use Rattle.std.specs.Prelude.{◌≡◌, ◌≢◌, IfOk, IfErr, OnErr};
ghost use Rattle.bser_source.specs.Window.{left};
ghost use Rattle.bser_deserializer.specs.Reading.{TakesNoMemory};
ghost use Rattle.bser_deserializer.specs.State.{IsUnread};
ghost use Rattle.bser_messages.specs.Limited.{
  LimitedBodyRead,
  LimitedBodyRefused,
  LimitedRead,
  LimitedRefused,
};
ghost use Rattle.bser_messages.specs.Messages.{HeadBeforeMemory, HeadFirst, SparesMemory};

use crate::limits::Limits;
use bser_bunser::refusal::{Answer, Refused};
use bser_deserializer::deserializer::Deserializer;
use bser_format::errors::{Error, Result};
use bser_source::read::DeRead;
use bser_source::reference::LendsText;
use bser_types::deserialize::Deserialize;
use std::alloc::Global;

/// Reads one message as a value, within these limits, by a deserializer that has read nothing.
///
/// Fails as [`read_message`](crate::message::read_message) does, and with [`Error::DeTooLong`]
/// where the header announces a body of more than `limits.bytes` bytes. Then no byte of the body
/// was taken.
pub fn read_limited<R: DeRead, T: Deserialize<R::Lent>>(
    alloc: Global,
    limits: Limits,
    from: &mut Deserializer<R>,
) -> Result<T>
where
    R::Lent: LendsText,
    requires unread { IsUnread from.old.state }
    requires start { from.old.state.source.count ≡ 0 }
    ensures found { IfOk result (LimitedRead limits T.Shape from.old from.new) }
    ensures refused { IfErr result (LimitedRefused limits T.Shape from.old from.new) }
    ensures memory { SparesMemory T.needs result }
    ensures head { HeadFirst (left from.old.state.source) result }
{
    match read_body(alloc, limits, from) {
        Ok(value) => {
            from.end()?;
            Ok(value)
        }
        Err(Refused) => Err(from.take_refusal()),
    }
}

/// Reads a message's header, which has to announce no more than the limit, and its value.
fn read_body<R: DeRead, T: Deserialize<R::Lent>>(
    alloc: Global,
    limits: Limits,
    from: &mut Deserializer<R>,
) -> Answer<T>
where
    R::Lent: LendsText,
    requires { IsUnread from.old.state }
    ensures found { IfOk result (LimitedBodyRead limits T.Shape from.old from.new) }
    ensures refused { OnErr result (LimitedBodyRefused limits T.Shape from.old from.new) }
    ensures memory { TakesNoMemory T.needs
        → OnErr result (from.new.refusal ≢ Error.OutOfMemory) }
    ensures head { OnErr result (HeadBeforeMemory from.old from.new) }
{
    from.read_head(limits.levels)?;
    let announced = from.body_length() as usize;
    if announced > limits.bytes {
        return Err(from.refuse(Error::DeTooLong {
            announced,
            most: limits.bytes,
        }));
    }
    T::deserialize(alloc, from)
}
