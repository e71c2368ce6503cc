//! What a walk goes past.
ghost use Rattle.std.specs.Prelude.{◌≡◌, ◌<◌};
ghost use Rattle.bser_serde_format.specs.Left.{Steps};

use crate::open::Form;
use crate::values::{fields, value};
use crate::walk::{StepError, Walk};
use bser_format::header::BSER_SKIP;

impl<'m> Walk<'m> {
    /// Goes past what comes: a value, a key or a row.
    #[inline(always)]
    pub(crate) fn skip(&mut self) -> Result<(), StepError>
        ensures { Steps self.old self.new }
    {
        if self.inner.left != 0 {
            return self.skip_value();
        }
        if self.inner.held == 0 {
            return self.skip_row();
        }
        self.inner.left = self.inner.held;
        self.inner.held = 0;
        Ok(())
    }

    /// Goes past a value, or a field of a row that is missing.
    #[inline(never)]
    fn skip_value(&mut self) -> Result<(), StepError>
        requires { 0 < self.old.inner.left }
        ensures { Steps self.old self.new }
    {
        let rest = self.rest;
        if self.inner.form == Form::Row && !rest.is_empty() && rest[0] == BSER_SKIP {
            self.pass(&rest[1..]);
            return Ok(());
        }
        match value(rest, self.inner.levels) {
            Some(rest) => {
                self.pass(rest);
                Ok(())
            }
            None => Err(StepError::Malformed),
        }
    }

    /// Goes past a row.
    #[inline(never)]
    fn skip_row(&mut self) -> Result<(), StepError>
        requires { self.old.inner.held ≡ 0 }
        ensures { Steps self.old self.new }
    {
        if !self.is_at_row() {
            return Err(StepError::Malformed);
        }
        let Some(rest) = fields(self.rest, self.inner.width, self.inner.levels) else {
            return Err(StepError::Malformed);
        };
        self.rest = rest;
        self.inner.more -= 1;
        Ok(())
    }
}
