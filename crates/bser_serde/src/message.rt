//! The message at the start of some bytes.
ghost use Rattle.std.specs.Prelude.{IfSome};
ghost use Rattle.bser_serde.specs.HasMessage.{HasHeader, HasMessage};

use bser_events::fronts::{CountFront, count};
use bser_format::header::HEADER_START;
use bser_serde_format::values::value;

/// Where the body of a message stands.
#[derive(Clone, Copy, Drop)]
pub struct Body {
    /// How many bytes stand before it, which are the header.
    pub start: usize,
    /// How many bytes it has.
    pub len: usize,
}

/// What stands behind a header.
#[derive(Clone, Copy, Drop)]
pub(crate) struct Headed<'b> {
    /// How many bytes the header has.
    pub(crate) start: usize,
    /// How many bytes the body is announced with.
    pub(crate) len: usize,
    /// The bytes from the body on.
    pub(crate) bytes: &'b [u8],
}

/// What stands behind the header that these bytes begin with, which announces at most `most` bytes.
#[inline(always)]
pub(crate) fn head_of(bytes: &[u8], most: usize) -> Option<Headed<'_>>
    ensures { IfSome result (HasHeader most bytes.now) }
{
    if bytes.len() < HEADER_START.len()
        || bytes[0] != HEADER_START[0]
        || bytes[1] != HEADER_START[1]
    {
        return None;
    }
    let CountFront {
        count: len,
        rest: body,
    } = count(&bytes[HEADER_START.len()..])?;
    if len > most {
        return None;
    }
    let start = bytes.len().checked_sub(body.len())?;
    Some(Headed {
        start,
        len,
        bytes: body,
    })
}

/// The body of the message that these bytes begin with: a well-formed one, of at most so many
/// levels, with a body of at most `most` bytes. What follows the message is ignored.
///
/// `None` says nothing of the bytes: [`from_slice`](crate::reading::from_slice) tells what is wrong,
/// and where.
pub fn body_of(bytes: &[u8], levels: usize, most: usize) -> Option<Body>
    ensures { IfSome result (λ b. HasMessage levels most bytes.now b.start b.len) }
{
    let Headed {
        start,
        len,
        bytes: body,
    } = head_of(bytes, most)?;
    let rest = value(body, levels)?;
    if rest.len().checked_add(len)? != body.len() {
        return None;
    }
    Some(Body { start, len })
}
