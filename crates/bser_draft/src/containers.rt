//! The containers that are open, and what is to come of them.
ghost use Rattle.std.specs.Prelude.{◌≡◌, ◌≢◌, true, IsTrue, is_ok, OnOk, OnErr, MatchResult};
ghost use Rattle.bser_draft.specs.Steps.{IsNew, IsDone, Stays, TakesValue, TakesKey, Enters, Leaves};

use crate::container::Container;
use crate::draft_error::{DraftError, Put};
use bser_ser::PutRefused;
use std::alloc::Global;

/// The containers that are open.
#[derive(Drop)]
pub(crate) struct OpenContainers {
    /// The innermost one.
    pub(crate) inner: Container,
    /// Those around it, the outermost first.
    pub(crate) outer: Vec<Container>,
    /// Whether no message comes of what was put: an object has another count than it says, or a
    /// container was opened whose head found no memory.
    pub(crate) is_rough: bool,
}

impl OpenContainers {
    /// A value of so many levels is due: the one item of an array around it.
    pub(crate) fn new(alloc: Global, levels: usize) -> OpenContainers
        ensures { IsNew levels result }
    {
        OpenContainers {
            inner: Container {
                values: 1,
                entries: 0,
                levels,
            },
            outer: Vec::new(alloc),
            is_rough: false,
        }
    }

    /// Whether all has come.
    pub(crate) fn are_done(&self) -> bool
        ensures { IsTrue result → IsDone self.now }
    {
        self.inner.values == 0 && self.inner.entries == 0 && self.outer.is_empty()
    }

    /// A value may come.
    #[inline(always)]
    pub(crate) fn expect_value(&self) -> Put
        ensures { OnOk result (self.now.inner.values ≢ 0) }
    {
        if self.inner.values == 0 {
            return Err(DraftError::Unexpected);
        }
        Ok(())
    }

    /// A key may come.
    #[inline(always)]
    pub(crate) fn expect_key(&self) -> Put
        ensures values { OnOk result (self.now.inner.values ≡ 0) }
        ensures entries { OnOk result (self.now.inner.entries ≢ 0) }
    {
        if self.inner.values != 0 || self.inner.entries == 0 {
            return Err(DraftError::Unexpected);
        }
        Ok(())
    }

    /// A value came, if it was put.
    #[inline(always)]
    pub(crate) fn take_value(&mut self, put: Result<(), PutRefused>) -> Put
        requires { self.old.inner.values ≢ 0 }
        ensures step { MatchResult put (λ _. TakesValue self.old self.new)
            (λ _. Stays self.old self.new) }
        ensures ok { is_ok result ≡ is_ok put }
    {
        put?;
        self.inner.values -= 1;
        Ok(())
    }

    /// A key came, if it was put.
    #[inline(always)]
    pub(crate) fn take_key(&mut self, put: Result<(), PutRefused>) -> Put
        requires { self.old.inner.entries ≢ 0 }
        ensures step { MatchResult put (λ _. TakesKey self.old self.new)
            (λ _. Stays self.old self.new) }
        ensures ok { is_ok result ≡ is_ok put }
    {
        put?;
        self.inner.entries -= 1;
        self.inner.values = 1;
        Ok(())
    }

    /// Opens a container of so many values and entries, as a value of the innermost one.
    #[inline(always)]
    pub(crate) fn enter(&mut self, values: usize, entries: usize, too_deep: DraftError) -> Put
        ensures ok { OnOk result (Enters self.old self.new values entries) }
        ensures err { OnErr result (Stays self.old self.new) }
    {
        self.expect_value()?;
        if self.inner.levels == 0 {
            return Err(too_deep);
        }
        let levels = self.inner.levels - 1;
        let around = Container {
            values: self.inner.values - 1,
            ..self.inner
        };
        if self.outer.push(around).is_err() {
            return Err(DraftError::OutOfMemory);
        }
        self.inner = Container {
            values,
            entries,
            levels,
        };
        Ok(())
    }

    /// The head of the container that was opened was put, or found no memory.
    #[inline(always)]
    pub(crate) fn settle(&mut self, put: Result<(), PutRefused>) -> Put
        ensures step { MatchResult put (λ _. Stays self.old self.new)
            (λ _. self.new.is_rough ≡ true) }
        ensures ok { is_ok result ≡ is_ok put }
    {
        if put.is_err() {
            self.is_rough = true;
            return Err(DraftError::OutOfMemory);
        }
        Ok(())
    }

    /// Closes the innermost container, of which nothing is to come.
    #[inline(always)]
    pub(crate) fn leave(&mut self) -> Put
        ensures ok { OnOk result (Leaves self.old self.new) }
        ensures err { OnErr result (Stays self.old self.new) }
    {
        if self.inner.values != 0 || self.inner.entries != 0 {
            return Err(DraftError::Unexpected);
        }
        match self.outer.pop() {
            Some(around) => {
                self.inner = around;
                Ok(())
            }
            None => Err(DraftError::Unexpected),
        }
    }

    /// Closes an object whose entries were counted, and says how many came.
    pub(crate) fn leave_uncounted(&mut self) -> Result<usize, DraftError>
        ensures { self.new.is_rough ≡ true }
    {
        self.is_rough = true;
        let count = usize::MAX - self.inner.entries;
        self.inner.entries = 0;
        self.leave()?;
        Ok(count)
    }
}
