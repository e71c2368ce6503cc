//! The outermost of the open containers.
ghost use Rattle.std.specs.Prelude.{◌≡◌, ◌≤◌, [], ◌∷◌, ◌++◌, length, IfSome, IfNone};
ghost use Rattle.std.specs.Bool.{OnTrue, OnFalse};
ghost use Rattle.bser_events.specs.declared.outermost.TheConstants.{FEW};

use crate::frame::Frame;

/// How many open containers are kept without memory.
const FEW: usize = 4;

/// The outermost open containers.
#[derive(Drop)]
pub struct Outermost {
    frames: [Frame; FEW],
    count: usize,
    ghost within: { count ≤ FEW },
    ghost whole: { length frames ≡ FEW },
}

impl Outermost {
    ghost use Rattle.bser_events.specs.Around.{outermost_frames};

    /// None is open. Any frame takes the places that are free.
    #[inline(always)]
    pub fn new(any: Frame) -> Self
        ensures { outermost_frames result ≡ [] }
    {
        Outermost {
            frames: [any; FEW],
            count: 0,
        }
    }

    /// Keeps a container, where there is room.
    #[inline(always)]
    pub fn push(&mut self, frame: Frame) -> bool
        ensures pushed { OnTrue result
            (outermost_frames self.new ≡ outermost_frames self.old ++ frame ∷ []) }
        ensures full { OnFalse result (self.new ≡ self.old) }
    {
        if self.count == FEW {
            return false;
        }
        self.frames[self.count] = frame;
        self.count += 1;
        true
    }

    /// Gives back the last container that is kept.
    #[inline(always)]
    pub fn pop(&mut self) -> Option<Frame>
        ensures popped { IfSome result (λ frame.
            outermost_frames self.old ≡ outermost_frames self.new ++ frame ∷ []) }
        ensures none { IfNone result (outermost_frames self.old ≡ []) }
    {
        if self.count == 0 {
            return None;
        }
        self.count -= 1;
        Some(self.frames[self.count])
    }
}
