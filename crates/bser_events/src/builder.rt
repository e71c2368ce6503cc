//! Receiving the events of a value.
ghost use Rattle.std.specs.Prelude.{◌≡◌, ◌≤◌, ℕ, Bool, true, false, List, length, string_bytes, OnOk, OnErr, IfErr};
ghost use Rattle.bser_format.specs.declared.errors.Error.TheVariants.{OutOfMemory};
ghost use Rattle.bser_bunser.specs.Calls.{Closes};
ghost use Rattle.bser_events.specs.Events as events;
ghost use Rattle.bser_events.specs.Places.{place_at, reading_at};
ghost use Rattle.bser_events.specs.Cut.{Stops};
ghost use Rattle.bser_events.specs.Told.{told};
ghost use Rattle.bser_events.specs.declared.builder.Stop.TheVariants.{Asked};

use crate::event::{Event, Place};
use crate::refusal::{Fault, refuse_with};
use bser_bunser::bunser::Bunser;
use bser_bunser::refusal::Answer;
use bser_source::read::DeRead;

/// Why a builder takes no more.
#[derive(Debug, Clone, Copy, PartialEq, Eq)]
pub enum Stop {
    /// There is no memory for what is reported.
    Memory,
    /// The builder wants no more.
    Asked,
}

/// Receives the events of a value, as they are read.
pub trait Builder {
    ghost use Rattle.bser_events.specs.declared.event.Place.{Place};
    ghost use Rattle.bser_events.specs.declared.builder.Stop.{Stop};

    // it took this event, which is at this place
    ghost takes: { Self → events.Event → Place → Self → Type 0 };

    // it took no more at this event, which is at this place, for this reason
    ghost stopped: { Stop → Self → events.Event → Place → Self → Type 0 };

    // whether it may take no more, for either reason
    ghost stops: { Bool };

    // whether it may want no more
    ghost asks: { Bool };

    // whether the bytes of byte strings are wanted
    ghost bytes: { Bool };

    /// Returns whether the bytes of byte strings are wanted, at any time. Where they are not,
    /// [`Builder::bytes_passed`] takes the place of those that are not buffered whole.
    fn wants_bytes(&self) -> bool
        ensures { result ≡ Self.bytes };

    /// Takes an event at this place, whose end is not before its start. An error ends the reading:
    /// there is no memory, or the builder wants no more.
    fn take(&mut self, event: Event<'_>, place: Place) -> Result<(), Stop>
        requires forwards { place.start ≤ place.end }
        ensures ok { OnOk result (Self.takes self.old (told event.entry) place self.new) }
        ensures err { OnErr result (Self.stops ≡ true) }
        ensures stopped { IfErr result (λ stop.
            Self.stopped stop self.old (told event.entry) place self.new) }
        ensures asked { IfErr result (λ stop. stop ≡ Asked → Self.asks ≡ true) };

    /// Takes a text, which is the builder's now, as [`Self::take`] does. The text was copied from a
    /// reader, since it is longer than what is buffered of one.
    fn take_text(&mut self, text: String, place: Place) -> Result<(), Stop>
        requires forwards { place.start ≤ place.end }
        ensures ok { OnOk result
            (Self.takes self.old (events.text (string_bytes text)) place self.new) }
        ensures err { OnErr result (Self.stops ≡ true) }
        ensures stopped { IfErr result (λ stop.
            Self.stopped stop self.old (events.text (string_bytes text)) place self.new) }
        ensures asked { IfErr result (λ stop. stop ≡ Asked → Self.asks ≡ true) }
    {
        self.take(Event::Text(text.as_str()), place)
    }

    /// Takes a byte string as [`Self::take_text`] takes a text.
    fn take_bytes(&mut self, string: Vec<u8>, place: Place) -> Result<(), Stop>
        requires forwards { place.start ≤ place.end }
        ensures ok { OnOk result
            (Self.takes self.old (events.bytes string.items) place self.new) }
        ensures err { OnErr result (Self.stops ≡ true) }
        ensures stopped { IfErr result (λ stop.
            Self.stopped stop self.old (events.bytes string.items) place self.new) }
        ensures asked { IfErr result (λ stop. stop ≡ Asked → Self.asks ≡ true) }
    {
        self.take(Event::Bytes(string.as_slice()), place)
    }

    /// Takes a byte string of `len` bytes, which were passed over: the bytes of byte strings are
    /// not wanted. This place covers its head too. The errors are those of [`Self::take`].
    fn bytes_passed(&mut self, len: usize, place: Place) -> Result<(), Stop>
        requires forwards { place.start ≤ place.end }
        ensures ok { OnOk result (bytes ≡ false
            → (s : List ℕ) → length s ≡ len → takes self.old (events.bytes s) place self.new) }
        ensures err { OnErr result (stops ≡ true) }
        ensures stopped { IfErr result (λ stop. bytes ≡ false → (s : List ℕ) → length s ≡ len
            → stopped stop self.old (events.bytes s) place self.new) }
        ensures asked { IfErr result (λ stop. stop ≡ Asked → asks ≡ true) };
}

/// Returns how many bytes were taken.
#[inline(always)]
pub fn taken<R: DeRead>(bunser: &Bunser<R>) -> usize
    ensures { result ≡ reading_at bunser.now.window }
{
    bunser.taken()
}

/// The place from `start` on to where reading is.
#[inline(always)]
pub(crate) fn place_from<R: DeRead>(bunser: &Bunser<R>, start: usize, is_text: bool) -> Place
    ensures { result ≡ place_at start (reading_at bunser.now.window) is_text }
{
    Place {
        start,
        end: taken(bunser),
        is_text,
    }
}

/// Reports an event to the builder, which began at `start`, where reading was, and ends where it
/// is. Where the builder takes no more, the reader fails with out of memory.
#[inline(always)]
pub fn tell<R: DeRead, B: Builder>(
    bunser: &mut Bunser<R>,
    builder: &mut B,
    event: Event<'_>,
    start: usize,
    is_text: bool,
) -> Answer<()>
    requires begun { start ≤ reading_at bunser.old.window }
    ensures ok { OnOk result (B.takes builder.old (told event.entry)
        (place_at start (reading_at bunser.old.window) is_text) builder.new) }
    ensures same { OnOk result (bunser.new ≡ bunser.old) }
    ensures err { OnErr result (Closes bunser.old bunser.new) }
    ensures reason { OnErr result (bunser.new.refusal ≡ OutOfMemory) }
    ensures stops { OnErr result (B.stops ≡ true) }
    ensures stopped { OnErr result (Stops B.stopped builder.old (told event.entry)
        (place_at start (reading_at bunser.old.window) is_text) builder.new) }
{
    let place = place_from(bunser, start, is_text);
    match builder.take(event, place) {
        Ok(()) => Ok(()),
        Err(_) => Err(refuse_with(bunser, Fault::Memory)),
    }
}

/// Reports the end of a container to the builder, where reading is.
#[inline(always)]
pub(crate) fn tell_close<R: DeRead, B: Builder>(
    bunser: &mut Bunser<R>,
    builder: &mut B,
) -> Answer<()>
    ensures ok { OnOk result (B.takes builder.old events.close
        (place_at (reading_at bunser.old.window) (reading_at bunser.old.window) false)
        builder.new) }
    ensures same { OnOk result (bunser.new ≡ bunser.old) }
    ensures err { OnErr result (Closes bunser.old bunser.new) }
    ensures reason { OnErr result (bunser.new.refusal ≡ OutOfMemory) }
    ensures stops { OnErr result (B.stops ≡ true) }
    ensures stopped { OnErr result (Stops B.stopped builder.old events.close
        (place_at (reading_at bunser.old.window) (reading_at bunser.old.window) false)
        builder.new) }
{
    let end = taken(bunser);
    tell(bunser, builder, Event::Close, end, false)
}

/// Any value, of which nothing is kept: an unknown field of an object, as a rule.
///
/// The value has to be well-formed, and its objects' keys UTF-8. It takes the place of serde's
/// `IgnoredAny`.
#[derive(Debug, Clone, Copy, PartialEq, Eq)]
pub struct Ignored;

impl Builder for Ignored {
    ghost takes = { λ _ _ _ _. Unit {0} };

    ghost stopped = { λ _ _ _ _ _. ⊥ };

    ghost stops = { false };

    ghost asks = { false };

    ghost bytes = { false };

    #[inline(always)]
    fn wants_bytes(&self) -> bool {
        false
    }

    #[inline(always)]
    fn take(&mut self, _event: Event<'_>, _place: Place) -> Result<(), Stop> {
        Ok(())
    }

    #[inline(always)]
    fn bytes_passed(&mut self, _len: usize, _place: Place) -> Result<(), Stop> {
        Ok(())
    }
}

/// A `&mut` to a builder is one.
impl<B: Builder> Builder for &mut B {
    ghost takes = { λ a e p b. (b.ghost_name ≡ a.ghost_name) × B.takes a.now e p b.now };

    ghost stopped = { λ s a e p b. (b.ghost_name ≡ a.ghost_name) × B.stopped s a.now e p b.now };

    ghost stops = { B.stops };

    ghost asks = { B.asks };

    ghost bytes = { B.bytes };

    #[inline(always)]
    fn wants_bytes(&self) -> bool {
        (**self).wants_bytes()
    }

    #[inline(always)]
    fn take(&mut self, event: Event<'_>, place: Place) -> Result<(), Stop> {
        (**self).take(event, place)
    }

    #[inline(always)]
    fn take_text(&mut self, text: String, place: Place) -> Result<(), Stop> {
        (**self).take_text(text, place)
    }

    #[inline(always)]
    fn take_bytes(&mut self, string: Vec<u8>, place: Place) -> Result<(), Stop> {
        (**self).take_bytes(string, place)
    }

    #[inline(always)]
    fn bytes_passed(&mut self, len: usize, place: Place) -> Result<(), Stop> {
        (**self).bytes_passed(len, place)
    }
}
