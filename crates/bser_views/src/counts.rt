//! How many parts of each kind there are.
ghost use Rattle.std.specs.Prelude.{◌≡◌};
ghost use Rattle.bser_events.specs.Told.{told};
ghost use Rattle.bser_views.specs.Counting.{added, number_of, rows_in, counted};

use bser_events::event::{Event, EventKind};

/// A number for each kind of events, at most `u64::MAX`.
#[derive(Debug, Clone, Copy, PartialEq, Eq)]
pub struct Kinds {
    numbers: [u64; EventKind::COUNT],
}

impl Kinds {
    /// No number but 0.
    pub const NONE: Kinds = Kinds {
        numbers: [0; EventKind::COUNT],
    };

    /// The number of this kind.
    pub fn of(&self, kind: EventKind) -> u64
        ensures { result ≡ number_of kind self.now }
    {
        self.numbers[kind.index()]
    }

    /// Adds to the number of this kind.
    pub fn add(&mut self, kind: EventKind, count: u64)
        ensures { self.new ≡ added kind count self.old }
    {
        let place = kind.index();
        self.numbers[place] = self.numbers[place].saturating_add(count);
    }
}

/// What a message has: its values and how deep they nest, as they are spelled.
#[derive(Debug, Clone, Copy, PartialEq, Eq)]
pub struct Counts {
    /// How many values there are, containers and skips among them. Keys are none.
    pub nodes: u64,
    /// How many containers were open at once, at most. A template is one.
    pub depth: u64,
    /// How many rows all templates have.
    pub rows: u64,
    /// How many events there were of each kind.
    pub kinds: Kinds,
    /// How many containers are open.
    pub around: u64,
}

impl Counts {
    /// Nothing was told.
    pub const NONE: Counts = Counts {
        nodes: 0,
        depth: 0,
        rows: 0,
        kinds: Kinds::NONE,
        around: 0,
    };

    /// Counts what an event tells.
    pub fn count(&mut self, event: &Event<'_>)
        ensures { self.new ≡ counted (told event.now) self.old }
    {
        let kind = event.kind();
        self.kinds.add(kind, 1);
        self.rows = self.rows.saturating_add(rows_in(event) as u64);
        match kind {
            EventKind::Key | EventKind::Rows => {}
            EventKind::Close => self.around = self.around.saturating_sub(1),
            EventKind::Array | EventKind::Object | EventKind::Template => {
                self.nodes = self.nodes.saturating_add(1);
                self.around = self.around.saturating_add(1);
                self.depth = self.depth.max(self.around);
            }
            _ => self.nodes = self.nodes.saturating_add(1),
        }
    }
}

/// How many rows of a template follow.
fn rows_in(event: &Event<'_>) -> usize
    ensures { result ≡ rows_in (told event.now) }
{
    match event {
        Event::Rows { len } => *len,
        _ => 0,
    }
}
