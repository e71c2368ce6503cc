//! Adding up the size of what is reported.
ghost use Rattle.std.specs.Prelude.{◌≡◌, true, false, OnOk};
ghost use Rattle.bser_events.specs.Told.{told};
ghost use Rattle.bser_events.specs.declared.builder.Stop.TheVariants.{Memory};
ghost use Rattle.bser_messages.specs.Tallies.{
  Counts,
  Shows,
  Takes,
  nothing_told,
  closed,
  entered,
  keyed,
  more_values,
  opened,
  with_rows,
};

use crate::size::Size;
use bser_events::builder::{Builder, Stop};
use bser_events::event::{Event, Place};
use std::alloc::{AllocError, Global};

/// The size of what was reported up to now.
#[derive(Drop)]
pub(crate) struct Sizing {
    size: Size,
    /// How many bytes the keys of a template have that were reported up to now, until its rows are.
    template_keys: Option<u64>,
    /// How deep the innermost open container is.
    level: usize,
    /// How deep it was when each of the open containers began, the outermost first.
    around: Vec<usize>,
}

impl Sizing {
    /// Nothing was reported.
    pub(crate) fn new(alloc: Global) -> Self
        ensures { Shows result nothing_told }
    {
        Sizing {
            size: Size {
                values: 0,
                key_bytes: 0,
                depth: 0,
            },
            template_keys: None,
            level: 0,
            around: Vec::new(alloc),
        }
    }

    /// The size of what was reported.
    pub(crate) fn into_size(self) -> Size
        ensures { result ≡ self.size }
    {
        let Sizing {
            size,
            template_keys: _,
            level: _,
            around: _,
        } = self;
        size
    }

    /// Counts so many values.
    #[inline(always)]
    fn add_values(&mut self, count: usize)
        ensures { Counts (more_values count) self.old self.new }
    {
        self.size.values = self.size.values.saturating_add(count as u64);
    }

    /// Goes so many levels deeper.
    #[inline(always)]
    fn enter(&mut self, levels: usize)
        ensures { Counts (entered levels) self.old self.new }
    {
        self.level = self.level.saturating_add(levels);
        self.size.depth = self.size.depth.max(self.level);
    }

    /// Opens a container.
    #[inline(always)]
    fn open(&mut self) -> Result<(), AllocError>
        ensures { OnOk result (Counts opened self.old self.new) }
    {
        self.around.push(self.level)?;
        self.add_values(1);
        self.enter(1);
        Ok(())
    }

    /// Counts a key of so many bytes, of an object or of the template whose keys are reported.
    #[inline(always)]
    fn add_key(&mut self, len: usize)
        ensures { Counts (keyed len) self.old self.new }
    {
        match &mut self.template_keys {
            None => self.size.key_bytes = self.size.key_bytes.saturating_add(len as u64),
            Some(bytes) => *bytes = bytes.saturating_add(len as u64),
        }
    }

    /// Counts the objects of so many rows, and their keys.
    fn add_rows(&mut self, count: usize)
        ensures { Counts (with_rows count) self.old self.new }
    {
        let keys = self.template_keys.take().unwrap_or(0);
        let bytes = keys.saturating_mul(count as u64);
        self.size.key_bytes = self.size.key_bytes.saturating_add(bytes);
        self.add_values(count);
        self.enter(count.min(1));
    }

    /// Closes the innermost container.
    #[inline(always)]
    fn close(&mut self)
        ensures { Counts closed self.old self.new }
    {
        self.level = self.around.pop().unwrap_or(0);
    }
}

impl Sizing {
    /// Counts what an event brings.
    #[inline(always)]
    fn add_event(&mut self, event: Event<'_>) -> Result<(), AllocError>
        ensures { OnOk result (Takes self.old (told event.entry) self.new) }
    {
        match event {
            Event::Array { .. } | Event::Object { .. } => self.open()?,
            Event::Template { .. } => {
                self.open()?;
                self.template_keys = Some(0);
            }
            Event::Key(key) => self.add_key(key.len()),
            Event::Rows { len } => self.add_rows(len),
            Event::Close => self.close(),
            _ => self.add_values(1),
        }
        Ok(())
    }
}

impl Builder for Sizing {
    ghost takes = { λ a e _ b. Takes a e b };

    ghost stopped = { λ stop _ _ _ _. stop ≡ Memory };

    ghost stops = { true };

    ghost asks = { false };

    ghost bytes = { false };

    #[inline(always)]
    fn wants_bytes(&self) -> bool {
        false
    }

    #[inline(always)]
    fn take(&mut self, event: Event<'_>, _place: Place) -> Result<(), Stop> {
        match self.add_event(event) {
            Ok(()) => Ok(()),
            Err(_) => Err(Stop::Memory),
        }
    }

    #[inline(always)]
    fn bytes_passed(&mut self, _len: usize, _place: Place) -> Result<(), Stop> {
        self.add_values(1);
        Ok(())
    }
}
