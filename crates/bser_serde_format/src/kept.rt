//! A walk that stays on the value that it began with.
ghost use Rattle.std.specs.Prelude.{◌≡◌, IfSome};

use crate::marks::Saved;
use crate::naming::{Naming, Wrong};
use crate::walk::{Key, StepError, Walk};
use std::alloc::Global;
use std::marker::{Brand, Model, PhantomData};

/// The bytes that a value is read from, and how many levels it may have.
pub trait KnownBody {
    ghost use Rattle.std.specs.Prelude.{Option, List, ℕ};

    ghost bytes: { Option (List ℕ) };

    ghost levels: { ℕ };
}

impl KnownBody for Brand {
    ghost use Rattle.std.specs.Prelude.{None};

    ghost bytes = { None };

    ghost levels = { 0 };
}

/// A walk, the places to come back to, and what the errors are.
#[derive(Drop)]
pub struct KeptWalk<'m, N: Naming, K: KnownBody> {
    pub(crate) walk: Walk<'m>,
    pub(crate) saved: Vec<Saved<'m>>,
    pub(crate) names: N,
    of: PhantomData<K>,
}

/// What the walk reads on completes the value that it began with.
impl<'m, N: Naming, K: KnownBody> Model for KeptWalk<'m, N, K> {
    ghost use Rattle.bser_serde_format.specs.declared.walk.Walk.{Walk};
    ghost use Rattle.bser_serde_format.specs.Kept.{StaysOn};

    ghost Value = { Walk };

    ghost view = { λ s. s.walk };

    ghost invariant = { λ s. StaysOn K.bytes K.levels s.walk s.saved.items };
}

impl<'m, N: Naming, K: KnownBody> KeptWalk<'m, N, K> {
    ghost use Rattle.bser_serde_format.specs.Kept.{IsBodyOf, ValueBefore};

    /// Before the value.
    pub fn new(alloc: Global, bytes: &'m [u8], levels: usize, names: N) -> KeptWalk<'m, N, K>
        requires { IsBodyOf K.bytes K.levels bytes.now levels }
    {
        let walk = Walk::new(alloc, bytes, levels);
        let saved = Vec::new(alloc);
        KeptWalk {
            walk,
            saved,
            names,
            of: PhantomData,
        }
    }

    /// How many bytes follow the value, where it was read.
    pub fn left(&self) -> Option<usize>
        ensures { IfSome result (ValueBefore K.bytes K.levels) }
    {
        if self.walk.is_done() {
            return Some(self.walk.left());
        }
        None
    }

    /// What a step came to that began before so many bytes.
    #[inline(always)]
    pub(crate) fn told<X>(
        &mut self,
        before: usize,
        read: Result<X, StepError>,
    ) -> Result<X, N::Error> {
        match read {
            Ok(read) => {
                if self.walk.left() != before {
                    self.names.passed(before);
                }
                Ok(read)
            }
            Err(error) => Err(self.error(Wrong::Step(error))),
        }
    }

    /// Keeps where the walk is, as the answered one of the places.
    pub(crate) fn put_mark(&mut self) -> usize {
        let mark = self.saved.len();
        let place = self.walk.place();
        match self.saved.push(place) {
            Ok(()) => self.walk.keep_open(),
            Err(_) => self.walk.stop(),
        }
        mark
    }

    /// Goes back to a place, and drops those that were kept after it.
    pub(crate) fn go_back(&mut self, mark: usize) {
        match self.saved.get(mark) {
            Some(saved) => {
                let saved = *saved;
                self.saved.truncate(mark.saturating_add(1));
                self.walk.go_back(&saved);
            }
            None => self.walk.stop(),
        }
    }

    /// Drops a place, and those that were kept after it.
    pub(crate) fn drop_mark(&mut self, mark: usize) {
        if let Some(saved) = self.saved.get(mark) {
            let saved = *saved;
            self.saved.truncate(mark);
            self.walk.let_close(&saved);
        }
    }

    /// The error.
    #[inline(always)]
    pub(crate) fn error(&self, wrong: Wrong<'_>) -> N::Error {
        self.names.error(&self.walk, wrong)
    }

    /// The same, of a step that read a key, or the end of an object or a row.
    #[inline(always)]
    pub(crate) fn key_told(
        &mut self,
        before: usize,
        read: Result<Option<Key<'m>>, StepError>,
    ) -> Result<Option<Key<'m>>, N::Error> {
        match read {
            Ok(Some(key)) => {
                self.names.passed(before);
                Ok(Some(key))
            }
            Ok(None) => {
                if !self.walk.is_between() {
                    self.names.ended(1);
                }
                Ok(None)
            }
            Err(error) => Err(self.error(Wrong::Step(error))),
        }
    }
}
