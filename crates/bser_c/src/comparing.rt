//! Comparing a tape with a message, event by event.
ghost use Rattle.std.specs.Prelude.{◌≡◌, ◌-◌, ◌^◌, true, false, length};
ghost use Rattle.bser_events.specs.Told.{told};
ghost use Rattle.bser_c.specs.Builders.{Agreed, Compares, StandNext, place_of};
ghost use Rattle.bser_c.specs.Tape.{IsFirst, IsSecond};
ghost use Rattle.bser_c.specs.Untaped.{IsSame};

use crate::heads::{head, stands_at};
use bser_events::builder::{Builder, Stop};
use bser_events::event::{Event, Place};
use bser_messages::told::Header;

/// The words of a tape, over the bytes of its strings, and how many of them agreed with the events
/// up to now. It takes all events, also behind one whose words are others.
#[derive(Drop)]
pub struct TapeComparison<'w, 's> {
    words: &'w [u64],
    strings: &'s [u8],
    /// How many words agreed, or `usize::MAX` where others came next.
    at: usize,
    /// How many words agreed then.
    parted: usize,
}

/// Whether this is the first word of an event. A key is under either of its tags.
#[inline(always)]
fn is_first(event: Event<'_>, word: u64) -> bool
    ensures found { result ≡ true → IsFirst (told event.entry) word }
    ensures other { IsFirst (told event.entry) word → result ≡ true }
{
    word == head(event, true) || word == head(event, false)
}

/// Whether this is the second word of an event.
#[inline(always)]
fn is_second(strings: &[u8], event: Event<'_>, word: u64) -> bool
    ensures found { result ≡ true → IsSecond strings.now (told event.entry) word }
    ensures other { IsSecond strings.now (told event.entry) word → result ≡ true }
{
    match event {
        Event::Int(number) => word == number.cast_unsigned(),
        Event::Real(bits) => word == bits,
        Event::Bytes(string) => stands_at(strings, word as usize, string),
        Event::Text(text) => stands_at(strings, word as usize, text.as_bytes()),
        Event::Key(key) => stands_at(strings, word as usize, key.as_bytes()),
        _ => word as usize <= strings.len(),
    }
}

impl<'w, 's> TapeComparison<'w, 's> {
    /// Begins with no event reported.
    pub fn new(words: &'w [u64], strings: &'s [u8]) -> Self
        ensures words { result.words ≡ words.entry }
        ensures strings { result.strings ≡ strings.entry }
        ensures at { result.at ≡ 0 }
    {
        TapeComparison {
            words,
            strings,
            at: 0,
            parted: 0,
        }
    }

    /// Returns whether a message of so many bytes, which has this header, was reported whole, and
    /// all words agreed.
    pub fn is_same(&self, header: Header, size: usize) -> bool
        ensures found { result ≡ true
            → IsSame header size self.now.at (length self.now.words.now) }
        ensures other { IsSame header size self.now.at (length self.now.words.now)
            → result ≡ true }
    {
        header.message_length() == size && header.capabilities == 0 && self.at == self.words.len()
    }

    /// Returns how many words agreed before any others, and so lie before those that are wrong.
    pub fn place(&self) -> usize
        ensures { result ≡ place_of self.now }
    {
        if self.at < usize::MAX {
            self.at
        } else {
            self.parted
        }
    }

    /// Whether the words of the event come next. Then they agreed.
    #[inline(always)]
    fn agrees(&mut self, event: Event<'_>) -> bool
        ensures agreed { result ≡ true → Agreed self.old (told event.entry) self.new }
        ensures same { result ≡ false → self.new ≡ self.old }
        ensures other { StandNext self.old (told event.entry) → result ≡ true }
    {
        let at = self.at;
        if at > self.words.len() || self.words.len() - at < 2 {
            return false;
        }
        if !is_first(event, self.words[at]) {
            return false;
        }
        if !is_second(self.strings, event, self.words[at + 1]) {
            return false;
        }
        self.at = at + 2;
        true
    }

    /// Notes that other words come next.
    #[cold]
    #[inline(never)]
    fn part(&mut self)
        ensures words { self.new.words ≡ self.old.words }
        ensures strings { self.new.strings ≡ self.old.strings }
        ensures at { self.new.at ≡ 2 ^ 64 - 1 }
        ensures place { place_of self.new ≡ place_of self.old }
    {
        if self.at < usize::MAX {
            self.parted = self.at;
            self.at = usize::MAX;
        }
    }
}

impl<'w, 's> Builder for TapeComparison<'w, 's> {
    ghost takes = { λ a e _ b. Compares a e b };

    ghost stopped = { λ _ _ _ _ _. ⊥ };

    ghost stops = { false };

    ghost asks = { false };

    ghost bytes = { true };

    #[inline(always)]
    fn wants_bytes(&self) -> bool {
        true
    }

    #[inline(always)]
    fn take(&mut self, event: Event<'_>, _place: Place) -> Result<(), Stop> {
        if !self.agrees(event) {
            self.part();
        }
        Ok(())
    }

    fn bytes_passed(&mut self, _len: usize, _place: Place) -> Result<(), Stop> {
        Ok(())
    }
}
