//! A builder that is watched: whether it wanted no more, and where.
ghost use Rattle.std.specs.Prelude.{◌≡◌, true, None, IsSome, IfErr, OnOk};
ghost use Rattle.bser_events.specs.Cut.{noted};
ghost use Rattle.bser_events.specs.declared.builder.Stop.TheVariants.{Asked};

use crate::builder::{Builder, Stop};
use crate::event::{Event, Place};

/// A builder, and where it wanted no more.
pub struct WatchedBuilder<B: Builder> {
    builder: B,
    asked: Option<Place>,
    ghost may: { IsSome asked → B.asks ≡ true },
}

impl<B: Builder> WatchedBuilder<B> {
    ghost use Rattle.bser_events.specs.Watched.{builder_of, asked_at};

    /// Watches this builder from now on.
    pub fn new(builder: B) -> Self
        ensures builder { builder_of result ≡ builder }
        ensures asked { asked_at result ≡ None }
    {
        WatchedBuilder {
            builder,
            asked: None,
        }
    }

    /// Returns the place of the event at which the builder wanted no more, if it did.
    pub fn asked_place(&self) -> Option<Place>
        ensures place { result ≡ asked_at self.now }
        ensures asks { IsSome result → B.asks ≡ true }
    {
        self.asked
    }

    /// Notes what the builder answered, and answers it.
    #[inline(always)]
    fn note(&mut self, taken: Result<(), Stop>, place: Place) -> Result<(), Stop>
        requires { IfErr taken (λ stop. stop ≡ Asked → B.asks ≡ true) }
        ensures same { result ≡ taken }
        ensures builder { builder_of self.new ≡ builder_of self.old }
        ensures ok { OnOk taken (asked_at self.new ≡ asked_at self.old) }
        ensures err { IfErr taken (λ stop.
            asked_at self.new ≡ noted stop place (asked_at self.old)) }
    {
        if let Err(Stop::Asked) = taken {
            self.asked = Some(place);
        }
        taken
    }

    /// Gives the builder back.
    pub fn into_inner(self) -> B
        ensures { result ≡ builder_of self }
    {
        let WatchedBuilder { builder, asked: _ } = self;
        builder
    }
}

impl<B: Builder> Builder for WatchedBuilder<B> {
    ghost use Rattle.bser_events.specs.Watched.{builder_of, asked_at};

    ghost takes = { λ a e p b. B.takes (builder_of a) e p (builder_of b)
        × (asked_at b ≡ asked_at a) };

    ghost stopped = { λ s a e p b. B.stopped s (builder_of a) e p (builder_of b)
        × (asked_at b ≡ noted s p (asked_at a)) };

    ghost stops = { B.stops };

    ghost asks = { B.asks };

    ghost bytes = { B.bytes };

    #[inline(always)]
    fn wants_bytes(&self) -> bool {
        self.builder.wants_bytes()
    }

    #[inline(always)]
    fn take(&mut self, event: Event<'_>, place: Place) -> Result<(), Stop> {
        let taken = self.builder.take(event, place);
        self.note(taken, place)
    }

    fn take_text(&mut self, text: String, place: Place) -> Result<(), Stop> {
        let taken = self.builder.take_text(text, place);
        self.note(taken, place)
    }

    fn take_bytes(&mut self, string: Vec<u8>, place: Place) -> Result<(), Stop> {
        let taken = self.builder.take_bytes(string, place);
        self.note(taken, place)
    }

    fn bytes_passed(&mut self, len: usize, place: Place) -> Result<(), Stop> {
        let taken = self.builder.bytes_passed(len, place);
        self.note(taken, place)
    }
}
