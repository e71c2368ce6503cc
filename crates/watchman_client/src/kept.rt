//! Messages that are kept in their order.
ghost use Rattle.std.specs.Prelude.{◌≡◌, ◌≤◌, ◌<◌, ◌+◌, [], ◌∷◌, ◌++◌, true, false, length, map, max, OnOk, OnErr, IfErr, IfSome, IfNone, IfOk};
ghost use Rattle.watchman_client.specs.Kept.{size_of, IsWithin};

use crate::bounds::Bounds;
use std::alloc::Global;
use std::collections::VecDeque;
use std::marker::Model;

/// Why a message is not kept.
#[derive(Debug, Clone, Copy, PartialEq, Eq)]
pub(crate) enum QueueError {
    /// As many are kept as may be, or too many bytes.
    Full,
    /// No memory was left.
    Memory,
}

/// Messages that are kept in their order, with the number of their bytes.
#[derive(Drop)]
pub(crate) struct Kept {
    alloc: Global,
    messages: VecDeque<Vec<u8>>,
    bytes: usize,
    ghost total: { bytes ≡ size_of (map (λ m. m.items) messages.items) },
}

impl Model for Kept {
    ghost use Rattle.std.specs.Prelude.{ℕ, List, map};

    ghost Value = { List (List ℕ) };

    ghost view = { λ k. map (λ m. m.items) k.messages.items };
}

impl Kept {
    ghost use Rattle.watchman_client.specs.Kept.{is_full};

    /// None.
    pub(crate) fn new(alloc: Global) -> Self
        ensures { result ≡ [] }
    {
        Kept {
            alloc,
            messages: VecDeque::new(alloc),
            bytes: 0,
        }
    }

    /// How many messages are kept.
    pub(crate) fn len(&self) -> usize
        ensures { result ≡ length self.now }
    {
        self.messages.len()
    }

    /// Keeps a copy of the message behind the others.
    #[tactic(auto, using(crate::proofs::Sizes::size_snoc, std::proofs::lemmas::Grind::common_steps))]
    pub(crate) fn push(&mut self, bounds: Bounds, message: &[u8]) -> Result<(), QueueError>
        ensures ok { OnOk result (self.new ≡ self.old ++ message.now ∷ []) }
        ensures number { OnOk result (length self.old < bounds.kept_messages) }
        ensures bytes { OnOk result
            (size_of self.new ≤ max bounds.kept_bytes (size_of self.old)) }
        ensures within { IsWithin bounds self.old → IsWithin bounds self.new }
        ensures err { OnErr result (self.new ≡ self.old) }
        ensures full { IfErr result (λ e. e ≡ QueueError.Full
            → is_full bounds self.old message.now ≡ true) }
    {
        let room = bounds.kept_bytes.saturating_sub(self.bytes);
        if self.messages.len() >= bounds.kept_messages || message.len() > room {
            return Err(QueueError::Full);
        }
        let Ok(copy) = Vec::from_slice(self.alloc, message) else {
            return Err(QueueError::Memory);
        };
        let Ok(()) = self.messages.push_back(copy) else {
            return Err(QueueError::Memory);
        };
        self.bytes += message.len();
        Ok(())
    }

    /// Takes the first message.
    pub(crate) fn pop(&mut self) -> Option<Vec<u8>>
        ensures some { IfSome result (λ m. self.old ≡ m.items ∷ self.new) }
        ensures none { IfNone result (self.old ≡ []) }
        ensures none_left { IfNone result (self.new ≡ []) }
        ensures within { (b : Bounds) → IsWithin b self.old → IsWithin b self.new }
    {
        let message = self.messages.pop_front()?;
        self.bytes -= message.len();
        Some(message)
    }
}
