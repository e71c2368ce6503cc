//! Readers and writers that count their failures, and whose contracts show what they give and take.
ghost use Rattle.std.specs.Prelude.{◌≡◌, ◌≤◌, ℕ, List, [], ◌++◌, length, take, Option, Some, None, IfOk, MatchResult, Result, if◌then◌else◌};
ghost use Rattle.std.specs.declared.io.Error as io_error;
ghost use Rattle.std.specs.Borrow.{GName};
ghost use Rattle.std.specs.Io.{ReadsAtMost};
ghost use Rattle.std.specs.Io.KnownBytes.{ReadConsumes, Appends};
ghost use Rattle.bser_source.specs.Device.{PullCounts, has_failed, counted, one_more};
ghost use Rattle.bser_source.specs.Watched.{inner_of, failures_of};
ghost use Rattle.bser_source.specs.Sinks.{Appends-none, Appends-both};

use std::io;
use std::io::{Read, Write};

/// A reader that counts its failures, and whose contract shows the bytes left where they are known.
///
/// [`Watched`] makes a source of any reader by std's `Read`, and a `&mut` to a source is one.
pub trait Source {
    // the bytes left, where they are known
    ghost remaining: { Self → Option (List ℕ) };

    // the failures so far, which stay at the greatest u64
    ghost failures: { Self → ℕ };

    // the reference that it reads through, where it is one: each call keeps it
    ghost through: { Self → Option GName } = { λ _. None };

    /// Reads some bytes to the start of `buf`, and answers how many, as std's `read` does.
    ///
    /// An error, an interruption too, raises the count of failures by one, below `u64::MAX`; every
    /// other answer keeps it.
    fn pull(&mut self, buf: &mut [u8]) -> io::Result<usize>
        ensures bound { ReadsAtMost result buf.new }
        ensures bytes { ReadConsumes (remaining self.old) (remaining self.new) result buf.new }
        ensures failures { PullCounts (failures self.old) (failures self.new) result }
        ensures through { through self.new ≡ through self.old };
}

/// A writer that counts its failures, and whose contract shows what it takes.
///
/// [`Watched`] makes a sink of any writer by std's `Write`, and a `&mut` to a sink is one.
pub trait Sink {
    // from the first state to the second it took these bytes
    ghost took: { Self → Self → List ℕ → Type 0 };

    // from the first state to the second it answered so to a push of these bytes
    ghost answered: { Self → Self → List ℕ → Result ℕ io_error.Error → Type 0 };

    // the failures so far, which stay at the greatest u64
    ghost failures: { Self → ℕ };

    /// Writes some bytes from the start of `bytes`, and answers how many, as std's `write` does.
    ///
    /// An error, an interruption too, and the answer 0 to a nonempty slice raise the count of
    /// failures by one, below `u64::MAX`; every other answer keeps it.
    fn push(&mut self, bytes: &[u8]) -> io::Result<usize>
        ensures bound { IfOk result (λ n. n ≤ length bytes.now) }
        ensures taken { MatchResult result (λ n. took self.old self.new (take n bytes.now))
            (λ _. took self.old self.new []) }
        ensures answered { answered self.old self.new bytes.now result }
        ensures failures { failures self.new ≡ counted (has_failed result bytes.now)
            (failures self.old) };

    /// Takes all of `front` and then of `back`, or answers false and takes nothing.
    ///
    /// A sink that keeps bytes in memory, or only counts them, so saves its caller the copy into a
    /// buffer. Every other sink answers false, as here.
    fn take_at_once(&mut self, front: &[u8], back: &[u8]) -> bool
        ensures taken { took self.old self.new (if result then front.now ++ back.now else []) }
        ensures failures { failures self.new ≡ failures self.old }
    {
        let _ = front;
        let _ = back;
        false
    }

    /// Announces that at most so many bytes will follow, and takes nothing.
    ///
    /// A sink may make room for them. Every other one does nothing, as here.
    fn expect(&mut self, most: usize)
        ensures taken { took self.old self.new [] }
        ensures failures { failures self.new ≡ failures self.old }
    {
        let _ = most;
    }

    ghost took_nothing: { (s : Self) → took s s [] };

    ghost took_both: { (a b c : Self) (xs ys : List ℕ) → took a b xs → took b c ys → took a c
        (xs ++ ys) };
}

/// Any reader or writer, with a count of its failures.
#[derive(Drop)]
pub struct Watched<T> {
    inner: T,
    failures: u64,
}

impl<T> Watched<T> {
    /// Watches `inner`, without failures so far.
    pub fn new(inner: T) -> Self
        ensures inner { inner_of result ≡ inner }
        ensures failures { failures_of result ≡ 0 }
    {
        Watched { inner, failures: 0 }
    }

    /// Returns the reader or writer.
    pub fn get_ref(&self) -> &T
        ensures { result.now ≡ inner_of self.now }
    {
        &self.inner
    }

    /// Gives the reader or writer back.
    pub fn into_inner(self) -> T
        ensures { result ≡ inner_of self }
    {
        let Watched { inner, failures: _ } = self;
        inner
    }

    /// Counts a failure.
    fn count_failure(&mut self)
        ensures inner { self.new.inner ≡ self.old.inner }
        ensures failures { self.new.failures ≡ one_more self.old.failures }
    {
        if self.failures < u64::MAX {
            self.failures += 1;
        }
    }
}

impl<T: Read> Source for Watched<T> {
    ghost remaining = { λ w. T.remaining (inner_of w) };

    ghost failures = { λ w. failures_of w };

    fn pull(&mut self, buf: &mut [u8]) -> io::Result<usize> {
        match self.inner.read(buf) {
            Ok(n) => Ok(n),
            Err(fault) => {
                self.count_failure();
                Err(fault)
            }
        }
    }
}

impl<T: Write> Sink for Watched<T> {
    ghost took = { λ a b xs. Appends (T.contents (inner_of a)) (T.contents (inner_of b)) xs };

    ghost answered = { λ a b xs r. failures_of b ≡ counted (has_failed r xs) (failures_of a) };

    ghost failures = { λ w. failures_of w };

    fn push(&mut self, bytes: &[u8]) -> io::Result<usize> {
        match self.inner.write(bytes) {
            Ok(n) => {
                if n == 0 && !bytes.is_empty() {
                    self.count_failure();
                }
                Ok(n)
            }
            Err(fault) => {
                self.count_failure();
                Err(fault)
            }
        }
    }

    ghost took_nothing = { λ w. Appends-none (T.contents w.inner) };

    ghost took_both = { λ a b c xs ys. Appends-both (T.contents a.inner) (T.contents b.inner)
        (T.contents c.inner) xs ys };
}

impl<S: Source> Source for &mut S {
    ghost remaining = { λ s. S.remaining s.now };

    ghost failures = { λ s. S.failures s.now };

    ghost through = { λ s. Some s.ghost_name };

    fn pull(&mut self, buf: &mut [u8]) -> io::Result<usize> {
        (**self).pull(buf)
    }
}

impl<S: Sink> Sink for &mut S {
    ghost use Rattle.std.proofs.Common.{refl, ◌∙◌};

    ghost took = { λ a b xs. (b.ghost_name ≡ a.ghost_name) × S.took a.now b.now xs };

    ghost answered = { λ a b xs r. S.answered a.now b.now xs r };

    ghost failures = { λ s. S.failures s.now };

    fn push(&mut self, bytes: &[u8]) -> io::Result<usize> {
        (**self).push(bytes)
    }

    fn take_at_once(&mut self, front: &[u8], back: &[u8]) -> bool {
        (**self).take_at_once(front, back)
    }

    fn expect(&mut self, most: usize) {
        (**self).expect(most);
    }

    ghost took_nothing = { λ s. (refl, S.took_nothing s.now) };

    ghost took_both = { λ a b c xs ys p q.
        (q.0 ∙ p.0, S.took_both a.now b.now c.now xs ys p.1 q.1) };
}
