//! The containers that are open around the innermost one.
ghost use Rattle.std.specs.Prelude.{◌≡◌, ◌≤◌, [], ◌∷◌, ◌++◌, length, vec_capacity, IfSome, IfNone, OnOk, OnErr};
ghost use Rattle.bser_format.specs.declared.errors.Error.TheVariants.{OutOfMemory};
ghost use Rattle.bser_bunser.specs.Calls.{Closes};
ghost use Rattle.bser_events.specs.Around.{around};

use crate::frame::Frame;
use crate::outermost::Outermost;
use crate::refusal::{Fault, refuse_with};
use bser_bunser::bunser::Bunser;
use bser_bunser::refusal::Answer;
use bser_source::read::DeRead;

/// Keeps an open container, in which another was opened.
#[inline(always)]
pub fn push_frame<R: DeRead>(
    bunser: &mut Bunser<R>,
    outermost: &mut Outermost,
    frames: &mut Vec<Frame>,
    frame: Frame,
) -> Answer<()>
    ensures pushed { OnOk result (around outermost.new frames.new.items
        ≡ around outermost.old frames.old.items ++ frame ∷ []) }
    ensures same { OnOk result (bunser.new ≡ bunser.old) }
    ensures room { OnOk result (vec_capacity frames.old ≤ vec_capacity frames.new) }
    ensures full { OnErr result (vec_capacity frames.old
        ≤ length (around outermost.old frames.old.items)) }
    ensures reason { OnErr result (bunser.new.refusal ≡ OutOfMemory) }
    ensures state { OnErr result (Closes bunser.old bunser.new) }
{
    if frames.is_empty() && outermost.push(frame) {
        return Ok(());
    }
    if frames.push(frame).is_err() {
        return Err(refuse_with(bunser, Fault::Memory));
    }
    Ok(())
}

/// Gives back the container around the innermost one. None where there is none.
#[inline(always)]
pub fn pop_frame(outermost: &mut Outermost, frames: &mut Vec<Frame>) -> Option<Frame>
    ensures popped { IfSome result (λ frame. around outermost.old frames.old.items
        ≡ around outermost.new frames.new.items ++ frame ∷ []) }
    ensures none { IfNone result (around outermost.old frames.old.items ≡ []) }
    ensures room { vec_capacity frames.new ≡ vec_capacity frames.old }
{
    match frames.pop() {
        Some(frame) => Some(frame),
        None => outermost.pop(),
    }
}
