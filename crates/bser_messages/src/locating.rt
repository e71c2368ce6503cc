//! Going through a message up to an error, with the containers that are open there.

use crate::path::{Path, Step};
use bser_events::builder::{Builder, Stop};
use bser_events::event::{Event, Place};
use std::alloc::{AllocError, Global};

/// Which part of the containers that are open an error is about.
#[derive(Clone, Copy)]
pub(crate) enum Target<'n> {
    /// The next part of the innermost container, however deep it is.
    Innermost,
    /// The next part of the container that the type reads.
    Next,
    /// The last part of it that was begun.
    Last,
    /// The next row of the innermost container.
    NextWhole,
    /// The innermost container that the type reads, or its last row.
    LastWhole,
    /// Its field of this name.
    Field(&'n str),
}

/// A container that is open.
#[derive(Drop)]
enum OpenPart {
    /// An array, of which so many items were begun.
    Array {
        begun: usize,
    },
    /// An object, its last key, and whether the value of that key was begun.
    Object {
        key: Option<String>,
        begun: bool,
    },
    /// A template's keys, and how many fields of its rows were begun, once the rows are reported.
    Template {
        keys: Vec<String>,
        begun: Option<usize>,
    },
}

impl OpenPart {
    /// Notes that a part is begun.
    fn begin_part(&mut self) {
        match self {
            OpenPart::Array { begun } => *begun = begun.saturating_add(1),
            OpenPart::Object { key: _, begun } => *begun = true,
            OpenPart::Template { keys: _, begun } => {
                *begun = Some(begun.unwrap_or(0).saturating_add(1));
            }
        }
    }

    /// Notes a key of an object, or of a template.
    fn put_key(&mut self, name: String) -> Result<(), AllocError> {
        match self {
            OpenPart::Array { begun: _ } => {}
            OpenPart::Object { key, begun } => {
                *key = Some(name);
                *begun = false;
            }
            OpenPart::Template { keys, begun: _ } => keys.push(name)?,
        }
        Ok(())
    }

    /// Puts the steps to the part that was begun last, if there is one.
    fn put_last(&self, alloc: Global, steps: &mut Vec<Step>) -> Result<(), AllocError> {
        match self {
            OpenPart::Array { begun } => {
                if *begun > 0 {
                    steps.push(Step::Index(*begun - 1))?;
                }
            }
            OpenPart::Object { key: Some(key), .. } => {
                steps.push(Step::Key(String::from_str(alloc, key.as_str())?))?;
            }
            OpenPart::Object { key: None, .. } => {}
            OpenPart::Template { keys, begun } => {
                let field = begun.unwrap_or(0).saturating_sub(1);
                put_field(alloc, keys.as_slice(), field, steps)?;
            }
        }
        Ok(())
    }

    /// Puts the steps to the part that comes next, if it is known which that is.
    fn put_next(&self, alloc: Global, steps: &mut Vec<Step>) -> Result<(), AllocError> {
        match self {
            OpenPart::Array { begun } => steps.push(Step::Index(*begun))?,
            OpenPart::Object {
                key: Some(key),
                begun: false,
            } => steps.push(Step::Key(String::from_str(alloc, key.as_str())?))?,
            OpenPart::Object { .. } => {}
            OpenPart::Template {
                keys,
                begun: Some(begun),
            } => put_field(alloc, keys.as_slice(), *begun, steps)?,
            OpenPart::Template { .. } => {}
        }
        Ok(())
    }
}

/// Puts the steps to a template's field, counted over all rows.
fn put_field(
    alloc: Global,
    keys: &[String],
    field: usize,
    steps: &mut Vec<Step>,
) -> Result<(), AllocError> {
    if keys.is_empty() {
        return Ok(());
    }
    steps.push(Step::Index(field / keys.len()))?;
    let key = String::from_str(alloc, keys[field % keys.len()].as_str())?;
    steps.push(Step::Key(key))?;
    Ok(())
}

/// What was reported of a message up to an error.
#[derive(Drop)]
pub(crate) struct Locating {
    alloc: Global,
    /// How many bytes lie before the error.
    place: usize,
    /// How many containers the type had opened there.
    opened: usize,
    /// The containers that are open, the outermost first.
    around: Vec<OpenPart>,
}

impl Locating {
    /// Nothing was reported.
    pub(crate) fn new(alloc: Global, place: usize, opened: usize) -> Self {
        Locating {
            alloc,
            place,
            opened,
            around: Vec::new(alloc),
        }
    }

    /// The path to the part that the error is about.
    pub(crate) fn path(&self, target: Target<'_>) -> Result<Path, AllocError> {
        let mut steps = Vec::new(self.alloc);
        let outer = self.around.len().saturating_sub(1);
        for open in &self.around.as_slice()[..outer] {
            open.put_last(self.alloc, &mut steps)?;
        }
        if let Some(open) = self.around.last() {
            match target {
                Target::Innermost | Target::Next | Target::NextWhole => {
                    open.put_next(self.alloc, &mut steps)?
                }
                Target::Last | Target::LastWhole | Target::Field(_) => {
                    open.put_last(self.alloc, &mut steps)?
                }
            }
        }
        match target {
            Target::Innermost => {}
            Target::Next | Target::Last => steps.truncate(self.opened),
            Target::NextWhole | Target::LastWhole => {
                steps.truncate(self.opened.saturating_sub(1))
            }
            Target::Field(name) => {
                steps.truncate(self.opened.saturating_sub(1));
                steps.push(Step::Key(String::from_str(self.alloc, name)?))?;
            }
        }
        Ok(Path { steps })
    }

    /// Whether what is at this place is behind the error. The end of a container that is inside the
    /// one which the type reads is before it.
    fn is_behind(&self, event: &Event<'_>, place: Place) -> bool {
        if place.start < self.place {
            return false;
        }
        match event {
            Event::Close => self.levels_around() < self.opened,
            _ => true,
        }
    }

    /// How many levels are open around the innermost container. A template has two: those of its
    /// array and of its rows.
    fn levels_around(&self) -> usize {
        let outer = self.around.len().saturating_sub(1);
        let mut levels = 0usize;
        for open in &self.around.as_slice()[..outer] {
            levels = match open {
                OpenPart::Template { keys: _, begun: _ } => levels.saturating_add(2),
                _ => levels.saturating_add(1),
            };
        }
        levels
    }

    /// Notes that a part of the innermost container is begun.
    fn begin_part(&mut self) {
        if let Some(open) = self.around.last_mut() {
            open.begin_part();
        }
    }

    /// Opens a container, which is a part of the one around it.
    fn open(&mut self, open: OpenPart) -> Result<(), AllocError> {
        self.begin_part();
        self.around.push(open)?;
        Ok(())
    }

    /// Notes an event.
    fn note(&mut self, event: Event<'_>) -> Result<(), AllocError> {
        match event {
            Event::Array { len: _ } => self.open(OpenPart::Array { begun: 0 })?,
            Event::Object { len: _ } => self.open(OpenPart::Object {
                key: None,
                begun: false,
            })?,
            Event::Template { len: _ } => self.open(OpenPart::Template {
                keys: Vec::new(self.alloc),
                begun: None,
            })?,
            Event::Key(key) => {
                let name = String::from_str(self.alloc, key)?;
                if let Some(open) = self.around.last_mut() {
                    open.put_key(name)?;
                }
            }
            Event::Rows { len: _ } => {
                if let Some(OpenPart::Template { keys: _, begun }) = self.around.last_mut() {
                    *begun = Some(0);
                }
            }
            Event::Close => {
                let _closed = self.around.pop();
            }
            _ => self.begin_part(),
        }
        Ok(())
    }
}

/// It stops at the first event behind the error.
impl Builder for Locating {
    ghost use Rattle.std.specs.Prelude.{true, false};

    ghost takes = { λ _ _ _ _. Unit {0} };

    ghost stopped = { λ _ _ _ _ _. Unit {0} };

    ghost stops = { true };

    ghost asks = { true };

    ghost bytes = { false };

    fn wants_bytes(&self) -> bool {
        false
    }

    fn take(&mut self, event: Event<'_>, place: Place) -> Result<(), Stop> {
        if self.is_behind(&event, place) {
            return Err(Stop::Asked);
        }
        match self.note(event) {
            Ok(()) => Ok(()),
            Err(_) => Err(Stop::Memory),
        }
    }

    fn bytes_passed(&mut self, _len: usize, place: Place) -> Result<(), Stop> {
        if place.start >= self.place {
            return Err(Stop::Asked);
        }
        self.begin_part();
        Ok(())
    }
}
