//! A byte source over a reader.
ghost use Rattle.std.specs.Prelude.{refl, ◌≡◌, ◌≢◌, ◌≤◌, ◌<◌, ◌+◌, ◌-◌, ◌^◌, max, true, false, length, IfErr, OnOk};
ghost use Rattle.bser_source.specs.declared.read.TheConstants.{WINDOW};
ghost use Rattle.bser_source.specs.Window.{Grown, Filled, closed};
ghost use Rattle.bser_source.specs.Refusal.{EndsShort, Refused};

use crate::device::Source;
use crate::pull::{pull_at, pull_rest};
use crate::read::{DeRead, WINDOW, count_octets};
use crate::reference::NoLoan;
use bser_format::errors::ReadCause;

/// A source over a reader, which copies all that is taken.
///
/// It buffers at most [`WINDOW`] bytes, in a block of its own. A `fill` of more bytes than are
/// buffered reads until it has them. One read asks for what was announced by `expect` and has not
/// arrived, or for what the call still lacks, whichever is more, and never for more than the block
/// has room for. So past the bytes announced it takes no more from the reader than a call needs,
/// and an I/O error or an early end is answered only by a call that needs a missing byte. `gather`
/// reads to the scratch, and takes nothing ahead.
///
/// It takes memory for a scratch alone. After an error of the reader, an early end, a failed
/// allocation, or a call that would raise the count of bytes past the greatest `usize`, bytes that
/// had arrived are lost, nothing is buffered, and each call that can fail answers
/// [`ReadCause::Failed`], that last call too. An interruption is an error too, and is not read
/// again.
#[derive(Drop)]
pub struct IoRead<S> {
    reader: S,
    block: [u8; WINDOW],
    start: usize,
    end: usize,
    arrived: usize,
    limit: usize,
    failed: bool,
    ghost ordered: { start ≤ end },
    ghost within: { end ≤ length block },
    ghost counted: { end - start ≤ arrived },
    ghost refused: { failed ≡ true → start ≡ end },
}

impl<S: Source> IoRead<S> {
    ghost use Rattle.bser_source.specs.Reader.{io_at, io_fresh, io_reader};

    /// Reads from the reader's next byte on. Nothing is taken, and nothing announced.
    ///
    /// [`Watched`](crate::device::Watched) makes a [`Source`] of a reader by std's `Read`.
    #[inline(always)]
    pub fn new(reader: S) -> Self
        ensures window { ⟦<IoRead<S> as DeRead>⟧.window result
            ≡ io_fresh S.remaining S.failures S.through reader }
        ensures reader { io_reader result ≡ reader }
    {
        IoRead {
            reader,
            block: [0; WINDOW],
            start: 0,
            end: 0,
            arrived: 0,
            limit: 0,
            failed: false,
        }
    }

    /// Reads from the reader's next byte on, as a new source of it does, in the block that is there.
    /// Bytes that were buffered are lost.
    pub fn restart(&mut self)
        ensures window { ⟦<IoRead<S> as DeRead>⟧.window self.new
            ≡ io_fresh S.remaining S.failures S.through (io_reader self.old) }
        ensures reader { io_reader self.new ≡ io_reader self.old }
    {
        self.start = 0;
        self.end = 0;
        self.arrived = 0;
        self.limit = 0;
        self.failed = false;
    }

    /// Returns the reader.
    pub fn get_ref(&self) -> &S
        ensures { result.now ≡ io_reader self.now }
    {
        &self.reader
    }

    /// Gives the reader back. Bytes that were buffered are lost.
    #[inline(always)]
    pub fn into_inner(self) -> S
        ensures { result ≡ io_reader self }
    {
        let IoRead {
            reader,
            block: _,
            start: _,
            end: _,
            arrived: _,
            limit: _,
            failed: _,
        } = self;
        reader
    }

    /// Buffers nothing, and makes all calls from now on fail.
    fn refuse(&mut self, cause: ReadCause) -> ReadCause
        ensures cause { result ≡ cause }
        ensures window { io_at S.remaining S.failures S.through self.new
            ≡ closed (io_at S.remaining S.failures S.through self.old) }
    {
        self.close();
        cause
    }

    /// Moves what is buffered to the start of the block.
    fn pack(&mut self)
        ensures window { io_at S.remaining S.failures S.through self.new
            ≡ io_at S.remaining S.failures S.through self.old }
        ensures front { self.new.start ≡ 0 }
    {
        self.block.copy_within(self.start..self.end, 0);
        self.end -= self.start;
        self.start = 0;
    }

    /// How many bytes one read asks for, where `n` are to be buffered.
    fn ahead(&self, n: usize) -> usize
        requires front { self.now.start ≡ 0 }
        requires short { self.now.end < n }
        requires fits { n ≤ WINDOW }
        ensures some { 0 < result }
        ensures room { self.now.end + result ≤ WINDOW }
        ensures within { self.now.end + result
            ≤ max (self.now.limit - (self.now.arrived - self.now.end)) n }
    {
        let announced = self.limit.saturating_sub(self.arrived);
        let room = WINDOW - self.end;
        announced.min(room).max(n - self.end)
    }

    /// Takes some bytes from the reader by one read, where `n` are to be buffered.
    fn pull(&mut self, n: usize) -> Result<(), ReadCause>
        requires front { self.old.start ≡ 0 }
        requires short { self.old.end < n }
        requires fits { n ≤ WINDOW }
        requires working { self.old.failed ≡ false }
        requires counted { self.old.arrived - self.old.end + n < 2 ^ 64 }
        ensures grown { OnOk result (Grown n
            (io_at S.remaining S.failures S.through self.old)
            (io_at S.remaining S.failures S.through self.new)) }
        ensures front { OnOk result (self.new.start ≡ 0) }
        ensures more { OnOk result (self.old.end < self.new.end) }
        ensures err { IfErr result (λ e. Refused e
            (io_at S.remaining S.failures S.through self.old)
            (io_at S.remaining S.failures S.through self.new) n) }
        ensures end { IfErr result (λ e. e ≡ ReadCause.Eof → EndsShort n
            (io_at S.remaining S.failures S.through self.old)
            (io_at S.remaining S.failures S.through self.new)) }
        ensures memory { IfErr result (λ e. e ≢ ReadCause.Memory) }
    {
        let want = self.ahead(n);
        match pull_at(&mut self.reader, &mut self.block, self.end, want) {
            Ok(0) => Err(self.refuse(ReadCause::Eof)),
            Ok(got) => {
                self.end += got;
                self.arrived += got;
                Ok(())
            }
            Err(fault) => Err(self.refuse(ReadCause::Reader(fault))),
        }
    }

    /// Takes bytes from the reader until `n` are buffered.
    #[cold]
    #[inline(never)]
    fn pull_to(&mut self, n: usize) -> Result<(), ReadCause>
        requires short { self.old.end - self.old.start < n }
        requires fits { n ≤ WINDOW }
        ensures ok { OnOk result (Filled n
            (io_at S.remaining S.failures S.through self.old)
            (io_at S.remaining S.failures S.through self.new)) }
        ensures err { IfErr result (λ e. Refused e
            (io_at S.remaining S.failures S.through self.old)
            (io_at S.remaining S.failures S.through self.new) n) }
        ensures end { IfErr result (λ e. e ≡ ReadCause.Eof → EndsShort n
            (io_at S.remaining S.failures S.through self.old)
            (io_at S.remaining S.failures S.through self.new)) }
        ensures memory { IfErr result (λ e. e ≢ ReadCause.Memory) }
    {
        if self.failed || n > usize::MAX - self.read_count() {
            return Err(self.refuse(ReadCause::Failed));
        }
        self.pack();
        while count_octets(self.buffered()) < n {
            self.pull(n)?;
        }
        Ok(())
    }
}

impl<S: Source> DeRead for IoRead<S> {
    ghost use Rattle.bser_source.specs.Reader.{io_at, nothing_held};

    type Lent = NoLoan;

    ghost window = { io_at S.remaining S.failures S.through };

    ghost refuses = { λ r f. nothing_held r.block r.start r.end (r.refused f) };

    ghost lending = { λ _. refl };

    #[inline(always)]
    fn buffered<'s>(&'s self) -> &'s [u8] {
        &self.block[self.start..self.end]
    }

    #[inline(always)]
    fn fill(&mut self, n: usize) -> Result<(), ReadCause> {
        if n <= count_octets(self.buffered()) {
            return Ok(());
        }
        self.pull_to(n)
    }

    #[inline(always)]
    fn consume(&mut self, n: usize) {
        self.start += n;
    }

    #[inline(always)]
    fn lend(&self, _n: usize) -> Option<NoLoan> {
        None
    }

    fn gather(&mut self, len: usize, scratch: &mut Vec<u8>) -> Result<(), ReadCause> {
        if self.failed || len > usize::MAX - self.read_count() {
            return Err(self.refuse(ReadCause::Failed));
        }
        scratch.clear();
        if scratch.extend_from_slice(self.buffered()).is_err() {
            return Err(self.refuse(ReadCause::Memory));
        }
        let missing = len - scratch.len();
        match pull_rest(&mut self.reader, scratch, len) {
            Ok(()) => {
                self.start = self.end;
                self.arrived += missing;
                Ok(())
            }
            Err(cause) => Err(self.refuse(cause)),
        }
    }

    fn expect(&mut self, n: usize) {
        self.limit = self.limit.max(self.read_count().saturating_add(n));
    }

    fn close(&mut self) {
        self.arrived = self.read_count();
        self.start = self.end;
        self.failed = true;
    }

    fn read_count(&self) -> usize {
        self.arrived - (self.end - self.start)
    }

    fn is_failed(&self) -> bool {
        self.failed
    }
}
