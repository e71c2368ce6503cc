//! Containers that a walk opens, and their parts.
ghost use Rattle.std.specs.Prelude.{◌≡◌, ◌<◌, slice_index, IfOk};
ghost use Rattle.bser_format.specs.declared.header.TheConstants.{BSER_TEMPLATE};
ghost use Rattle.bser_events.specs.Found.{keys_at};
ghost use Rattle.bser_events.specs.Takes.{Takes};
ghost use Rattle.bser_serde_format.specs.declared.open.Form.TheVariants as forms;
ghost use Rattle.bser_serde_format.specs.Left.{TakesOne, Leaves, Steps};

use crate::open::{Form, Open};
use crate::walk::{Key, StepError, Walk};
use bser_events::fronts::{CountFront, Taken, count, key};
use bser_format::header::{BSER_ARRAY, BSER_OBJECT, BSER_TEMPLATE};

impl<'m> Walk<'m> {
    /// Opens a container, of which this comes.
    #[inline(always)]
    fn enter(&mut self, inner: Open, rest: &'m [u8]) -> Result<(), StepError>
        requires some { 0 < self.old.inner.left }
        requires inside { (z : _) → Leaves inner rest.now z
            → TakesOne self.old.inner.form self.old.inner.levels self.old.rest.now z }
        ensures { Steps self.old self.new }
    {
        let mut around = self.inner;
        around.left -= 1;
        match self.outer.push(around) {
            Ok(()) => {
                self.inner = inner;
                self.rest = rest;
                Ok(())
            }
            Err(_) => Err(StepError::Memory),
        }
    }

    /// Opens the array that comes, or the template.
    #[inline(always)]
    pub(crate) fn array(&mut self) -> Result<(), StepError>
        ensures { Steps self.old self.new }
    {
        let rest = self.rest;
        if self.inner.left == 0 || rest.is_empty() {
            return Err(StepError::Array);
        }
        match rest[0] {
            BSER_ARRAY => match count(&rest[1..]) {
                Some(CountFront { count: items, rest }) if self.inner.levels != 0 => {
                    let inner = Open {
                        form: Form::Array,
                        left: items,
                        held: 0,
                        more: 0,
                        levels: self.inner.levels - 1,
                        width: 0,
                        end: usize::MAX,
                    };
                    self.enter(inner, rest)
                }
                _ => Err(StepError::Malformed),
            },
            BSER_TEMPLATE => self.template(),
            _ => Err(StepError::Array),
        }
    }

    /// Opens the template that comes.
    #[inline(never)]
    fn template(&mut self) -> Result<(), StepError>
        requires some { 0 < self.old.inner.left }
        requires tag { slice_index self.old.rest.now 0 ≡ BSER_TEMPLATE }
        ensures { Steps self.old self.new }
    {
        let rest = self.rest;
        if self.inner.levels < 2 || rest.len() < 2 || rest[1] != BSER_ARRAY {
            return Err(StepError::Malformed);
        }
        let Some(CountFront { count: width, rest }) = count(&rest[2..]) else {
            return Err(StepError::Malformed);
        };
        let rest = take_keys(&mut self.keys, rest, width)?;
        let Some(CountFront { count: rows, rest }) = count(rest) else {
            return Err(StepError::Malformed);
        };
        if width == 0 && rows != 0 {
            return Err(StepError::Malformed);
        }
        let inner = Open {
            form: Form::Rows,
            left: 0,
            held: 0,
            more: rows,
            levels: self.inner.levels - 1,
            width,
            end: self.keys.len(),
        };
        self.enter(inner, rest)
    }

    /// Opens the object or the row that comes.
    #[inline(always)]
    pub(crate) fn object(&mut self) -> Result<(), StepError>
        ensures { Steps self.old self.new }
    {
        if !self.is_at_row() {
            return self.entries();
        }
        self.inner.form = Form::Row;
        self.inner.left = self.inner.width;
        self.inner.more -= 1;
        Ok(())
    }

    /// Opens the object that comes.
    #[inline(never)]
    fn entries(&mut self) -> Result<(), StepError>
        ensures { Steps self.old self.new }
    {
        let rest = self.rest;
        if self.inner.left == 0 || rest.is_empty() || rest[0] != BSER_OBJECT {
            return Err(StepError::Object);
        }
        match count(&rest[1..]) {
            Some(CountFront { count: more, rest }) if self.inner.levels != 0 => {
                let inner = Open {
                    form: Form::Object,
                    left: 0,
                    held: 0,
                    more,
                    levels: self.inner.levels - 1,
                    width: 0,
                    end: usize::MAX,
                };
                self.enter(inner, rest)
            }
            _ => Err(StepError::Malformed),
        }
    }

    /// Whether another item of the array, or row of the template, comes. At the end it is closed.
    #[inline(always)]
    pub(crate) fn has_item(&mut self) -> Result<bool, StepError>
        ensures { Steps self.old self.new }
    {
        if self.inner.left != 0 || self.inner.more != 0 {
            return Ok(true);
        }
        self.close()?;
        Ok(false)
    }

    /// Closes the innermost container, of which nothing is left.
    #[inline(never)]
    fn close(&mut self) -> Result<(), StepError>
        ensures { Steps self.old self.new }
    {
        if !self.inner.is_spent() || self.outer.len() <= self.floor {
            return Err(StepError::Malformed);
        }
        let Some(around) = self.outer.pop() else {
            return Err(StepError::Malformed);
        };
        self.keys
            .truncate(self.inner.end.wrapping_sub(self.inner.width));
        self.inner = around;
        Ok(())
    }

    /// The key of the next field, or of the next entry, behind which its value comes. None at the
    /// end, where an object is closed.
    #[inline(always)]
    pub(crate) fn next_key(&mut self) -> Result<Option<Key<'m>>, StepError>
        ensures { Steps self.old self.new }
    {
        if let Some(key) = self.keys.get(self.inner.end.wrapping_sub(self.inner.left)) {
            return Ok(Some(*key));
        }
        self.entry_key()
    }

    /// The key of the next entry. None at the end, and at the end of a row.
    #[inline(always)]
    fn entry_key(&mut self) -> Result<Option<Key<'m>>, StepError>
        ensures { Steps self.old self.new }
    {
        if self.inner.left != 0 || self.inner.held != 0 {
            return Err(StepError::Malformed);
        }
        match self.inner.form {
            Form::Row => {
                self.inner.form = Form::Rows;
                Ok(None)
            }
            Form::Object if self.inner.more == 0 => {
                self.close()?;
                Ok(None)
            }
            Form::Object => self.take_key(),
            _ => Err(StepError::Malformed),
        }
    }

    /// Takes the key of the next entry.
    #[inline(always)]
    fn take_key(&mut self) -> Result<Option<Key<'m>>, StepError>
        requires object { self.old.inner.form ≡ forms.Object }
        requires some { 0 < self.old.inner.more }
        requires none { (self.old.inner.left ≡ 0) × (self.old.inner.held ≡ 0) }
        ensures { Steps self.old self.new }
    {
        let Some(Taken { text, rest }) = key(self.rest) else {
            return Err(StepError::Malformed);
        };
        self.rest = rest;
        self.inner.left = 1;
        self.inner.more -= 1;
        Ok(Some(Key {
            text,
            behind: rest.len(),
        }))
    }

    /// Has this key read as a value, behind which its value comes.
    #[inline(always)]
    pub(crate) fn hold(&mut self, key: Key<'m>)
        ensures { Steps self.old self.new }
    {
        if self.inner.held != 0 {
            return;
        }
        self.key = key;
        self.inner.held = self.inner.left;
        self.inner.left = 0;
    }
}

/// Takes so many keys of a template, and answers what follows them.
fn take_keys<'m>(
    keys: &mut Vec<Key<'m>>,
    bytes: &'m [u8],
    width: usize,
) -> Result<&'m [u8], StepError>
    ensures { IfOk result (λ rest. Takes (keys_at width) bytes.now rest.now) }
{
    let mut rest = bytes;
    for _ in 0..width {
        let Some(taken) = key(rest) else {
            return Err(StepError::Malformed);
        };
        rest = taken.rest;
        let key = Key {
            text: taken.text,
            behind: rest.len(),
        };
        if keys.push(key).is_err() {
            return Err(StepError::Memory);
        }
    }
    Ok(rest)
}
