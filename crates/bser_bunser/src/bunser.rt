//! Tagged values over a byte source.
ghost use Rattle.std.specs.Prelude.{◌≡◌, ◌≢◌, ◌≤◌, ◌<◌, ◌-◌, length, IfOk, IfErr, OnOk, OnErr};
ghost use Rattle.bser_format.specs.Errors.{error_of};
ghost use Rattle.bser_format.specs.Named.{next, front};
ghost use Rattle.bser_source.specs.declared.read.TheConstants.{WINDOW};
ghost use Rattle.bser_source.specs.Refusal.{EndsShort};
ghost use Rattle.bser_source.specs.Window.{Peeks, consumed};
ghost use Rattle.bser_bunser.specs.Calls.{bytes_taken, Buffers, Takes, TakesToken, Keeps, Closes, FailsShort, FailsBy, FailsInPlace};
ghost use Rattle.bser_bunser.specs.Faults.{Stands, ClosesAt};
ghost use Rattle.bser_bunser.specs.Names.{Names};
ghost use Rattle.bser_bunser.specs.Refusal.{ShortOf, unexpected_refusal};
ghost use Rattle.bser_bunser.specs.Tokens.{token, LengthFits};

mod integers;
mod numbers;
mod pdu;
mod strings;

pub use crate::bunser::pdu::PduInfo;
use crate::prefix::{Look, Prefix, Token, Unexpected, before_fault, int_prefix, token_prefix};
use crate::refusal::{Answer, Refused};
use bser_format::errors::{Complaint, Error, Kind, ReadCause, Result};
use bser_source::read::{DeRead, count_octets};
use bser_source::reference::Lending;
use std::alloc::Global;
use std::marker::{Model, PhantomData};

/// Reads the header of a message, integers, tokens and counted bytes from a byte source.
///
/// After an error each later call that can fail answers [`Error::DeReaderError`] with
/// [`ReadCause::Failed`], [`Bunser::end`] too, of which alone an error changes nothing. An early
/// end, a reader's error, or a use after the source itself failed is [`Error::DeReaderError`] with
/// the source's cause, and a caller's scratch that cannot grow [`Error::OutOfMemory`]. It takes no
/// memory itself.
///
/// Some calls answer the error itself. The others answer [`Refused`], which has no content: the
/// error is kept, and [`Bunser::take_refusal`] gives it. A call that succeeds keeps the error that
/// is there.
#[derive(Drop)]
pub struct Bunser<R: DeRead> {
    read: R,
    refusal: Option<Error>,
    // they name what is borrowed and kept, so that a reader over a slice can be made
    lent: PhantomData<R::Lent>,
    kept: PhantomData<<R::Lent as Lending>::Kept>,
}

impl<R: DeRead> Model for Bunser<R> {
    ghost use Rattle.bser_bunser.specs.Seen.{Seen, kept_or_failed};

    ghost Value = { Seen };

    ghost view = { λ b. record { window = R.window b.read; refusal = kept_or_failed b.refusal } };
}

impl<R: DeRead> Bunser<R> {
    /// Reads from the source's next byte on. Nothing is taken, and nothing reserved.
    #[inline(always)]
    pub fn new(_alloc: Global, read: R) -> Self
        ensures window { result.window ≡ R.window read }
        ensures refusal { result.refusal ≡ error_of ReadCause.Failed }
    {
        Bunser {
            read,
            refusal: None,
            lent: PhantomData,
            kept: PhantomData,
        }
    }

    /// Gives the byte source back, as far as it was read.
    #[inline(always)]
    pub fn into_inner(self) -> R
        ensures { R.window result ≡ self.window }
    {
        let Bunser { read, .. } = self;
        read
    }

    /// Returns whether a call failed before, so that each later one does.
    pub fn is_failed(&self) -> bool
        ensures value { result ≡ self.now.window.failed }
        ensures lends { self.now.window.lends ≡ R.Lent.lends }
    {
        self.read.is_failed()
    }

    /// Returns how many bytes were taken, at most `i64::MAX`. Bytes that are only buffered are not
    /// counted.
    pub fn read_count(&self) -> i64
        ensures { result ≡ bytes_taken self.now }
    {
        i64::try_from(self.read.read_count()).unwrap_or(i64::MAX)
    }

    /// Returns how many bytes were taken. Bytes that are only buffered are not counted.
    #[inline(always)]
    pub fn taken(&self) -> usize
        ensures { result ≡ self.now.window.count }
    {
        self.read.read_count()
    }

    /// Takes the last error, or [`ReadCause::Failed`] where none is kept.
    ///
    /// It belongs after an answer of [`Refused`].
    #[cold]
    #[inline(never)]
    pub fn take_refusal(&mut self) -> Error
        ensures reason { result ≡ self.old.refusal }
        ensures taken { self.new.refusal ≡ error_of ReadCause.Failed }
        ensures state { self.new.window ≡ self.old.window }
    {
        match self.refusal.take() {
            Some(reason) => reason,
            None => Error::de_reader_error(ReadCause::Failed),
        }
    }

    /// Makes all calls from now on fail, and keeps the error.
    ///
    /// A layer above calls it where it does not read what it found, and answers [`Refused`] itself.
    #[cold]
    #[inline(never)]
    pub fn refuse(&mut self, reason: Error) -> Refused
        ensures reason { self.new.refusal ≡ reason }
        ensures state { Closes self.old self.new }
    {
        self.read.close();
        self.refusal = Some(reason);
        Refused
    }

    /// Fails, for what the source answered.
    #[cold]
    #[inline(never)]
    fn refuse_cause(&mut self, cause: ReadCause) -> Refused
        ensures reason { self.new.refusal ≡ error_of cause }
        ensures state { Closes self.old self.new }
    {
        self.refuse(Error::de_reader_error(cause))
    }

    /// Fails, for what was found where something of this kind is wanted.
    #[cold]
    #[inline(never)]
    fn refuse_unexpected(&mut self, kind: Kind, why: Unexpected) -> Refused
        ensures reason { self.new.refusal ≡ unexpected_refusal kind why }
        ensures memory { self.new.refusal ≢ Error.OutOfMemory }
        ensures state { Closes self.old self.new }
    {
        self.refuse(match why {
            Unexpected::Tag(byte) => Error::DeInvalidStartByte { kind, byte },
            Unexpected::Length(byte) => Error::DeInvalidStartByte {
                kind: Kind::Integer,
                byte,
            },
            Unexpected::NegativeLength => Error::de_custom(Complaint::NegativeLength),
            Unexpected::NegativeCount => Error::de_custom(Complaint::NegativeCount),
        })
    }

    /// Fails, for what is buffered where a token is wanted, and takes the bytes before it.
    #[cold]
    #[inline(never)]
    fn refuse_token(&mut self, why: Unexpected) -> Refused
        requires { Stands why self.old.window.buffered }
        ensures reason { self.new.refusal ≡ unexpected_refusal Kind.NextItem why }
        ensures memory { self.new.refusal ≢ Error.OutOfMemory }
        ensures state { ClosesAt why self.old.window self.new.window }
    {
        let before = before_fault(why, self.read.buffered());
        self.read.consume(before);
        self.refuse_unexpected(Kind::NextItem, why)
    }

    /// Buffers `n` bytes, from 1 to 4096, and takes none.
    ///
    /// Where fewer are left it is [`ReadCause::Eof`]. Over a reader it may be its I/O error,
    /// [`ReadCause::Reader`], or [`ReadCause::Failed`] where the count of bytes would pass the
    /// greatest `usize`.
    #[inline(always)]
    pub fn fill(&mut self, n: usize) -> Answer<()>
        requires some { 0 < n }
        requires fits { n ≤ WINDOW }
        ensures ok { OnOk result (Buffers n self.old self.new) }
        ensures kept { OnOk result (Keeps self.old self.new) }
        ensures refused { OnErr result (FailsShort n self.old self.new) }
    {
        if n <= count_octets(self.read.buffered()) {
            return Ok(());
        }
        self.fill_slowly(n)
    }

    /// Buffers `n` bytes by a call of the source.
    #[cold]
    #[inline(never)]
    fn fill_slowly(&mut self, n: usize) -> Answer<()>
        requires some { 0 < n }
        requires fits { n ≤ WINDOW }
        ensures ok { OnOk result (Buffers n self.old self.new) }
        ensures kept { OnOk result (Keeps self.old self.new) }
        ensures refused { OnErr result (FailsShort n self.old self.new) }
    {
        match self.read.fill(n) {
            Ok(()) => Ok(()),
            Err(cause) => Err(self.refuse_cause(cause)),
        }
    }

    /// Buffers the next byte, and takes none.
    ///
    /// The errors are those of [`Self::fill`] for one byte.
    #[inline(always)]
    pub fn peek(&mut self) -> Result<u8>
        ensures ok { IfOk result (λ b. Peeks self.old.window self.new.window b) }
        ensures kept { OnOk result (Keeps self.old self.new) }
        ensures err { IfErr result (λ e. ShortOf 1 e self.old.window self.new.window) }
        ensures end { IfErr result (λ e. e ≡ error_of ReadCause.Eof
            → EndsShort 1 self.old.window self.new.window) }
        ensures names { IfErr result (λ e. Names next e self.old.window) }
        ensures memory { IfErr result (λ e. e ≢ Error.OutOfMemory) }
    {
        match self.read.peek() {
            Ok(byte) => Ok(byte),
            Err(cause) => {
                self.read.close();
                Err(Error::de_reader_error(cause))
            }
        }
    }

    /// Takes the first buffered byte. It wants one, which a [`Self::peek`] that succeeds gives.
    #[inline(always)]
    pub fn discard(&mut self)
        requires { 0 < length self.old.window.buffered }
        ensures window { self.new.window ≡ consumed 1 self.old.window }
        ensures kept { Keeps self.old self.new }
    {
        self.read.consume(1);
    }

    /// Returns the buffered bytes: the first of those left, which are taken without an error. None
    /// after an error.
    #[inline(always)]
    pub fn buffered<'s>(&'s self) -> &'s [u8]
        ensures { result.now ≡ self.now.window.buffered }
    {
        self.read.buffered()
    }

    /// Takes the first `n` buffered bytes. It wants as many.
    #[inline(always)]
    pub fn consume(&mut self, n: usize)
        requires { n ≤ length self.old.window.buffered }
        ensures window { self.new.window ≡ consumed n self.old.window }
        ensures kept { Keeps self.old self.new }
    {
        self.read.consume(n);
    }

    /// Takes a token. The bytes of a string, and what a container holds, are left.
    ///
    /// A byte that no token begins with is [`Error::DeInvalidStartByte`] of kind
    /// [`Kind::NextItem`]. After the tag of a string, an array or an object, another byte than an
    /// integer's tag is [`Error::DeInvalidStartByte`] of kind [`Kind::Integer`], a length below 0
    /// the message [`Complaint::NegativeLength`], and a count below 0 the message
    /// [`Complaint::NegativeCount`]. A token that is cut short, or none at all, fails as
    /// [`Self::fill`] does. A byte that may not be there is not taken then, and a length or a count
    /// below 0 is.
    ///
    /// A count is read with its tag. Where containers nest no deeper, the tag is to be looked at
    /// first, by [`Self::fill`] and [`Self::buffered`].
    #[inline(always)]
    pub fn token(&mut self) -> Answer<Token>
        ensures ok { IfOk result (λ t. TakesToken t self.old self.new) }
        ensures fits { IfOk result (λ t. LengthFits t) }
        ensures kept { OnOk result (Keeps self.old self.new) }
        ensures refused { OnErr result (FailsBy token self.old self.new) }
        ensures place { OnErr result (FailsInPlace self.old self.new) }
    {
        loop {
            match token_prefix(self.read.buffered()) {
                Prefix::Found { value, len } => {
                    self.read.consume(len);
                    return Ok(value);
                }
                Prefix::Short { need } => self.fill_slowly(need)?,
                Prefix::Unexpected(why) => return Err(self.refuse_token(why)),
            }
        }
    }

    /// Takes as many bytes as the array has.
    #[inline(always)]
    fn front<const N: usize>(&mut self) -> Answer<[u8; N]>
        requires some { 0 < N }
        requires fits { N ≤ WINDOW }
        ensures length { IfOk result (λ bs. length bs ≡ N) }
        ensures ok { IfOk result (λ bs. Takes bs self.old self.new) }
        ensures kept { OnOk result (Keeps self.old self.new) }
        ensures refused { OnErr result (FailsShort N self.old self.new) }
    {
        self.fill(N)?;
        let mut front = [0; N];
        front.copy_from_slice(&self.read.buffered()[..N]);
        self.read.consume(N);
        Ok(front)
    }
}
