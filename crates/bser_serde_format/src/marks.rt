//! Places of a walk to come back to.
ghost use Rattle.std.specs.Prelude.{◌≡◌, length, take};
ghost use Rattle.bser_serde_format.specs.Left.{Steps};

use crate::open::{Form, Open};
use crate::walk::{Key, Walk};

/// A place to come back to.
#[derive(Clone, Copy, Drop)]
pub(crate) struct Saved<'m> {
    rest: &'m [u8],
    inner: Open,
    key: Key<'m>,
    /// How many containers are around the innermost one, and how many keys of templates are kept.
    outer: usize,
    keys: usize,
    /// So many of them were not to be closed before.
    floor: usize,
}

impl<'m> Walk<'m> {
    /// Where the walk is.
    #[inline(always)]
    pub(crate) fn place(&self) -> Saved<'m>
        ensures rest { result.rest.now ≡ self.now.rest.now }
        ensures inner { result.inner ≡ self.now.inner }
        ensures outer { result.outer ≡ length self.now.outer.items }
        ensures floor { result.floor ≡ self.now.floor }
    {
        Saved {
            rest: self.rest,
            inner: self.inner,
            key: self.key,
            outer: self.outer.len(),
            keys: self.keys.len(),
            floor: self.floor,
        }
    }

    /// What is open is not closed from now on.
    #[inline(always)]
    pub(crate) fn keep_open(&mut self)
        ensures { self.new ≡ record self.old { floor = length self.old.outer.items } }
    {
        self.floor = self.outer.len();
    }

    /// Goes back there. What was open there still is, and is not closed.
    pub(crate) fn go_back(&mut self, saved: &Saved<'m>)
        ensures rest { self.new.rest.now ≡ saved.now.rest.now }
        ensures inner { self.new.inner ≡ saved.now.inner }
        ensures outer { self.new.outer.items ≡ take saved.now.outer self.old.outer.items }
        ensures floor { self.new.floor ≡ saved.now.outer }
    {
        self.rest = saved.rest;
        self.inner = saved.inner;
        self.key = saved.key;
        self.outer.truncate(saved.outer);
        self.keys.truncate(saved.keys);
        self.floor = saved.outer;
    }

    /// What was open there may be closed again.
    #[inline(always)]
    pub(crate) fn let_close(&mut self, saved: &Saved<'m>)
        ensures { self.new ≡ record self.old { floor = saved.now.floor } }
    {
        self.floor = saved.floor;
    }

    /// Nothing more is read.
    #[cold]
    #[inline(never)]
    pub(crate) fn stop(&mut self)
        ensures { Steps self.old self.new }
    {
        self.rest = &[];
        self.inner.form = Form::Array;
        self.inner.left = 1;
    }
}
