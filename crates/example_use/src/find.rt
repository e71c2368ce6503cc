//! A search that stops where it has found something, and what it proves of that.
ghost use Rattle.std.specs.Prelude.{◌≡◌, true, false, IfSome};
ghost use Rattle.bser_events.specs.Told.{told};
ghost use Rattle.example_use.specs.Finds.{IsSizeKey, Finds, goes_on, has_found};

use serde_bser::tell::{Builder, Event, Limits, Place, Reason, Stop, from_slice};
use std::alloc::Global;

/// The first integer right behind a key "size".
#[derive(Drop)]
pub struct Search {
    /// Whether the last part was such a key.
    is_next: bool,
    found: Option<i64>,
}

impl Builder for Search {
    ghost takes = { λ a e _ b. goes_on a e b };

    ghost stopped = { λ _ a e _ b. has_found a e b };

    ghost stops = { true };

    ghost asks = { true };

    ghost bytes = { false };

    fn wants_bytes(&self) -> bool {
        false
    }

    fn take(&mut self, event: Event<'_>, _place: Place) -> Result<(), Stop> {
        if self.is_next {
            if let Event::Int(number) = event {
                self.found = Some(number);
                return Err(Stop::Asked);
            }
        }
        self.is_next = is_size_key(event);
        Ok(())
    }

    fn bytes_passed(&mut self, _len: usize, _place: Place) -> Result<(), Stop> {
        self.is_next = false;
        Ok(())
    }
}

/// Whether this is a key "size".
fn is_size_key(event: Event<'_>) -> bool
    ensures { result ≡ true → IsSizeKey (told event.entry) }
{
    match event {
        Event::Key(name) => name == "size",
        _ => false,
    }
}

/// The first integer behind a key "size" in the message at the start of the bytes, wherever it is.
/// Nothing of the message is kept, and nothing behind the integer is read.
#[tactic(auto, using(crate::proofs::Found::found_in))]
pub fn first_size(alloc: Global, bytes: &[u8]) -> Option<i64>
    ensures { IfSome result (Finds bytes.now) }
{
    let mut search = Search {
        is_next: false,
        found: None,
    };
    match from_slice(alloc, Limits::new(), bytes, &mut search) {
        Ok(_header) => None,
        Err(untold) => match untold.reason {
            Reason::Stopped { place: _ } => search.found,
            Reason::Failed(_) => None,
        },
    }
}
