//! Writing a tape, event by event.
ghost use Rattle.std.specs.Prelude.{◌≡◌, ◌≤◌, ◌+◌, ◌-◌, ◌^◌, min, true, false, [], ◌∷◌, ◌++◌, length};
ghost use Rattle.bser_events.specs.Told.{told};
ghost use Rattle.bser_c.specs.Builders.{Grew, second_at, words_in};

use crate::heads::head;
use bser_events::builder::{Builder, Stop};
use bser_events::event::{Event, Place};

/// The words of the events up to now, and a count of them where they have no room.
#[derive(Drop)]
pub struct Tape<'t> {
    pub words: &'t mut [u64],
    pub len: usize,
}

impl<'t> Tape<'t> {
    /// Begins a tape at the front of the words.
    pub fn new(words: &'t mut [u64]) -> Self
        ensures words { result.words ≡ words.entry }
        ensures len { result.len ≡ 0 }
    {
        Tape { words, len: 0 }
    }

    /// Puts two words, or counts them.
    #[inline(always)]
    fn put(&mut self, first: u64, second: u64)
        ensures through { self.new.words.ghost_name ≡ self.old.words.ghost_name }
        ensures room { length self.new.words.now ≡ length self.old.words.now }
        ensures longer { self.old.len ≤ self.new.len }
        ensures counted { self.new.len ≡ min (self.old.len + 2) (2 ^ 64 - 1) }
        ensures grew { self.new.len ≤ length self.new.words.now
            → words_in self.new ≡ words_in self.old ++ first ∷ second ∷ [] }
    {
        let at = self.len;
        self.len = at.saturating_add(2);
        if self.len <= self.words.len() {
            self.words[at] = first;
            self.words[at + 1] = second;
        }
    }
}

/// The second word of an event at this place. A string ends where its place does.
#[inline(always)]
fn second(event: Event<'_>, place: Place) -> u64
    ensures { result ≡ second_at place (told event.entry) }
{
    match event {
        Event::Int(number) => number.cast_unsigned(),
        Event::Real(bits) => bits,
        Event::Bytes(string) => place.end.saturating_sub(string.len()) as u64,
        Event::Text(text) => place.end.saturating_sub(text.len()) as u64,
        Event::Key(key) => place.end.saturating_sub(key.len()) as u64,
        _ => place.start as u64,
    }
}

impl<'t> Builder for Tape<'t> {
    ghost takes = { λ a e place b. Grew a place e b };

    ghost stopped = { λ _ _ _ _ _. ⊥ };

    ghost stops = { false };

    ghost asks = { false };

    ghost bytes = { true };

    #[inline(always)]
    fn wants_bytes(&self) -> bool {
        true
    }

    #[inline(always)]
    fn take(&mut self, event: Event<'_>, place: Place) -> Result<(), Stop> {
        let first = head(event, place.is_text);
        let second = second(event, place);
        self.put(first, second);
        Ok(())
    }

    fn bytes_passed(&mut self, _len: usize, _place: Place) -> Result<(), Stop> {
        Ok(())
    }
}
