//! A walk over a value, part by part, which checks what it goes past.
ghost use Rattle.std.specs.Prelude.{◌≡◌, ◌<◌, true, length, IsUtf8};
ghost use Rattle.bser_serde_format.specs.Left.{TakesOne, IsAtRow, Remains, Starts, Steps};

use crate::heads::{Number, Str, integer_at, string_at};
use crate::open::{Form, Open};
use bser_bunser::prefix::{Prefix, Token, token_prefix};
use bser_format::header::{
    BSER_FALSE, BSER_NULL, BSER_OBJECT, BSER_SKIP, BSER_TRUE, BSER_UTF8STRING,
};
use bser_source::text::as_text;
use std::alloc::Global;

/// Why a step is not made. Each but the last three says what is wanted where something else comes.
#[derive(Clone, Copy, PartialEq, Eq, Drop)]
pub enum StepError {
    Truth,
    Integer,
    Real,
    Text,
    Array,
    Object,
    /// The string that comes is no UTF-8.
    NotUtf8,
    /// The bytes are not well-formed there, or nothing may be read.
    Malformed,
    /// An allocation failed.
    Memory,
}

/// A key, and how many bytes follow it.
#[derive(Clone, Copy, Drop)]
pub(crate) struct Key<'m> {
    pub(crate) text: &'m str,
    pub(crate) behind: usize,
}

/// How long a string is that was read, and how many bytes follow it.
#[derive(Clone, Copy, Drop)]
pub(crate) struct Span {
    pub(crate) len: usize,
    pub(crate) behind: usize,
}

/// A number that is read as a float.
#[derive(Clone, Copy, Drop)]
pub(crate) enum ReadReal {
    Bits(u64),
    Integer(i64),
}

/// A value, and how far it was read.
#[derive(Drop)]
pub struct Walk<'m> {
    /// The bytes from what comes next on.
    pub(crate) rest: &'m [u8],
    /// The innermost container that is open.
    pub(crate) inner: Open,
    /// The key that is to be read as a value, where `inner` holds values behind it.
    pub(crate) key: Key<'m>,
    /// The containers around it, the outermost first. The first so many are not closed.
    pub(crate) outer: Vec<Open>,
    pub(crate) floor: usize,
    /// The keys of the templates that are open.
    pub(crate) keys: Vec<Key<'m>>,
}

/// What comes next.
#[derive(Clone, Copy, Drop)]
pub struct Ahead {
    /// How many bytes are left.
    pub left: usize,
    /// The tag of what comes. A row is an object, and a key a text.
    pub tag: u8,
    /// How many levels are open. A template has two, and a row is none.
    pub depth: usize,
    /// Whether a row comes.
    pub is_row: bool,
    /// Whether the innermost container is a template, and none of its rows is open.
    pub is_between: bool,
}

impl<'m> Walk<'m> {
    /// Before a value of at most so many levels, which these bytes begin with.
    #[tactic(auto, using(crate::proofs::Parts::starts))]
    pub fn new(alloc: Global, bytes: &'m [u8], levels: usize) -> Walk<'m>
        ensures { Starts levels bytes.now result }
    {
        Walk {
            rest: bytes,
            inner: Open {
                form: Form::Array,
                left: 1,
                held: 0,
                more: 0,
                levels,
                width: 0,
                end: usize::MAX,
            },
            key: Key {
                text: "",
                behind: 0,
            },
            outer: Vec::new(alloc),
            floor: 0,
            keys: Vec::new(alloc),
        }
    }

    /// Whether the value was read.
    pub fn is_done(&self) -> bool
        ensures { result ≡ true → Remains self.now self.now.rest.now }
    {
        self.outer.is_empty() && self.inner.is_spent()
    }

    /// How many bytes are left.
    #[inline(always)]
    pub fn left(&self) -> usize
        ensures { result ≡ length self.now.rest.now }
    {
        self.rest.len()
    }

    /// Whether a row of a template comes.
    #[inline(always)]
    pub(crate) fn is_at_row(&self) -> bool
        ensures { result ≡ true → IsAtRow self.now.inner }
    {
        self.inner.form == Form::Rows && self.inner.left == 0 && self.inner.more != 0
    }

    /// Whether the innermost container is a template, and none of its rows is open.
    #[inline(always)]
    pub(crate) fn is_between(&self) -> bool {
        self.inner.form == Form::Rows
    }

    /// The tag of what comes. A row is an object, and a key a text.
    #[inline(always)]
    pub(crate) fn tag(&self) -> u8 {
        if self.inner.held != 0 {
            return BSER_UTF8STRING;
        }
        if self.is_at_row() {
            return BSER_OBJECT;
        }
        match self.rest.first() {
            Some(tag) => *tag,
            None => BSER_NULL,
        }
    }

    /// What comes next.
    pub fn ahead(&self) -> Ahead {
        Ahead {
            left: self.rest.len(),
            tag: self.tag(),
            depth: self.depth(),
            is_row: self.is_at_row(),
            is_between: self.is_between(),
        }
    }

    /// How many levels are open. A template has two, and a row is none.
    fn depth(&self) -> usize {
        let mut depth = self.inner.depth();
        for open in &self.outer {
            depth = depth.saturating_add(open.depth());
        }
        depth.saturating_sub(1)
    }

    /// Goes past a value, behind which this comes.
    #[inline(always)]
    pub(crate) fn pass(&mut self, rest: &'m [u8])
        requires some { 0 < self.old.inner.left }
        requires one { TakesOne self.old.inner.form self.old.inner.levels
            self.old.rest.now rest.now }
        ensures { Steps self.old self.new }
    {
        self.rest = rest;
        self.inner.left -= 1;
    }

    /// Reads a truth value.
    #[inline(always)]
    #[tactic(auto, using(crate::proofs::Firsts::true_one, crate::proofs::Firsts::false_one))]
    pub(crate) fn truth(&mut self) -> Result<bool, StepError>
        ensures { Steps self.old self.new }
    {
        let rest = self.rest;
        if self.inner.left == 0 || rest.is_empty() {
            return Err(StepError::Truth);
        }
        match rest[0] {
            BSER_TRUE => {
                self.pass(&rest[1..]);
                Ok(true)
            }
            BSER_FALSE => {
                self.pass(&rest[1..]);
                Ok(false)
            }
            _ => Err(StepError::Truth),
        }
    }

    /// Reads null, or a missing field, if one comes.
    #[inline(always)]
    #[tactic(auto, using(crate::proofs::Firsts::null_one, crate::proofs::Firsts::skip_one))]
    pub(crate) fn unit(&mut self) -> bool
        ensures { Steps self.old self.new }
    {
        let rest = self.rest;
        if self.inner.left == 0 || rest.is_empty() {
            return false;
        }
        match rest[0] {
            BSER_NULL => {
                self.pass(&rest[1..]);
                true
            }
            BSER_SKIP if self.inner.form == Form::Row => {
                self.pass(&rest[1..]);
                true
            }
            _ => false,
        }
    }

    /// Reads an integer.
    #[inline(always)]
    pub(crate) fn integer(&mut self) -> Result<i64, StepError>
        ensures { Steps self.old self.new }
    {
        if self.inner.left == 0 {
            return Err(StepError::Integer);
        }
        match integer_at(self.rest) {
            Some(Number { value, rest }) => {
                self.pass(rest);
                Ok(value)
            }
            None => Err(StepError::Integer),
        }
    }

    /// Reads a real or an integer.
    #[inline(never)]
    pub(crate) fn real(&mut self) -> Result<ReadReal, StepError>
        ensures { Steps self.old self.new }
    {
        let rest = self.rest;
        if self.inner.left == 0 {
            return Err(StepError::Real);
        }
        match token_prefix(rest) {
            Prefix::Found { value: token, len } => match token {
                Token::Real(bits) => {
                    self.pass(&rest[len..]);
                    Ok(ReadReal::Bits(bits))
                }
                Token::Int(number) => {
                    self.pass(&rest[len..]);
                    Ok(ReadReal::Integer(number))
                }
                _ => Err(StepError::Real),
            },
            _ => Err(StepError::Real),
        }
    }

    /// Goes past the key that is to be read as a value, if one is.
    #[cold]
    #[inline(never)]
    fn key_due(&mut self) -> bool
        requires { self.old.inner.left ≡ 0 }
        ensures { Steps self.old self.new }
    {
        if self.inner.held == 0 {
            return false;
        }
        self.inner.left = self.inner.held;
        self.inner.held = 0;
        true
    }

    /// Reads a string or a key, as a text.
    #[inline(always)]
    pub(crate) fn text(&mut self) -> Result<&'m str, StepError>
        ensures { Steps self.old self.new }
    {
        if self.inner.left == 0 {
            if !self.key_due() {
                return Err(StepError::Text);
            }
            return Ok(self.key.text);
        }
        let Some(Str { string, rest, .. }) = string_at(self.rest) else {
            return Err(StepError::Text);
        };
        let Some(text) = as_text(string) else {
            return Err(StepError::NotUtf8);
        };
        self.pass(rest);
        Ok(text)
    }

    /// Reads a string or a key. That of a text is UTF-8.
    #[inline(always)]
    pub(crate) fn string(&mut self) -> Result<&'m [u8], StepError>
        ensures { Steps self.old self.new }
    {
        if self.inner.left == 0 {
            if !self.key_due() {
                return Err(StepError::Text);
            }
            return Ok(self.key.text.as_bytes());
        }
        let Some(
            Str {
                is_text,
                string,
                rest,
            },
        ) = string_at(self.rest)
        else {
            return Err(StepError::Text);
        };
        if !may_be(string, is_text) {
            return Err(StepError::NotUtf8);
        }
        self.pass(rest);
        Ok(string)
    }

    /// The same, as where it stands.
    #[inline(always)]
    pub(crate) fn span(&mut self) -> Result<Span, StepError>
        ensures { Steps self.old self.new }
    {
        if self.inner.left == 0 {
            if !self.key_due() {
                return Err(StepError::Text);
            }
            let Key { text, behind } = self.key;
            return Ok(Span {
                len: text.len(),
                behind,
            });
        }
        let len = self.string()?.len();
        Ok(Span {
            len,
            behind: self.rest.len(),
        })
    }
}

/// Whether the string is UTF-8, where it is a text.
#[inline(always)]
fn may_be(string: &[u8], is_text: bool) -> bool
    ensures { result ≡ true → is_text ≡ true → IsUtf8 string.now }
{
    if is_text {
        return as_text(string).is_some();
    }
    true
}
