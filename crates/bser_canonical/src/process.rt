//! The program over what a process gives it: its arguments and three streams.
ghost use Rattle.std.specs.Prelude.{◌≡◌, ◌≢◌, ◌≤◌, ℕ, List, Option, None, Result, Ok, Err, IfOk};
ghost use Rattle.std.specs.Io.{WritesAtMost};
ghost use Rattle.std.specs.Process.{exit_status};
ghost use Rattle.std.specs.declared.io.Error as io_error;
ghost use Rattle.bser_canonical.specs.Arguments.{form_of, words};
ghost use Rattle.bser_canonical.specs.Line.{PutsReport};
ghost use Rattle.bser_canonical.specs.Process.{AnswersAt, AskFor, Ended, Fails, IsTextAt, IsTextOf};
ghost use Rattle.bser_canonical.specs.Process.{Unasked};

use crate::program::{report, run};
use bser_format::errors::Error;
use bser_shell::status::{DONE, FAILED};
use bser_source::device::{Sink, Source, Watched};
use std::alloc::{AllocError, Global};
use std::env::{Env, FillError};
use std::io;
use std::io::Write;
use std::process::ExitCode;

/// Arguments longer than this many bytes count as the empty text.
const LONGEST: usize = 64;

/// Gives a program its arguments, without the program's name.
pub trait Arguments {
    // the arguments, where they are known
    ghost given: { Self → Option (List (List ℕ)) };

    /// Copies the argument at this place, counted from 0, to the front of `bytes`, and answers its
    /// length. The places that are asked for are 0 and 1.
    fn argument(&self, place: usize, bytes: &mut [u8]) -> Result<usize, FillError>
        requires { place ≤ 1 }
        ensures bound { WritesAtMost result bytes.new }
        ensures given { AnswersAt (given self.now) place result bytes.new };
}

/// The arguments of a process. The logic knows none of them.
#[derive(Clone, Copy, Drop)]
pub struct ProcessArguments<'a, R> {
    rt: &'a R,
}

impl<'a, R> ProcessArguments<'a, R> {
    /// Takes the arguments from the runtime.
    pub fn new(rt: &'a R) -> Self {
        ProcessArguments { rt }
    }
}

impl<R: Env> Arguments for ProcessArguments<'_, R> {
    ghost given = { λ _. None };

    fn argument(&self, place: usize, bytes: &mut [u8]) -> Result<usize, FillError> {
        self.rt.arg(place + 1, bytes)
    }
}

/// A writer that hands on at last what it holds back.
pub trait Finish {
    // the answer to the last flush
    ghost ends: { Self → Result Unit io_error.Error → Type 0 };

    /// Flushes the writer and lets it go.
    fn finish(self) -> io::Result<()>
        ensures { ends self result };
}

impl<W: Write + Drop> Finish for Watched<W> {
    ghost ends = { λ _ _. Unit };

    fn finish(self) -> io::Result<()> {
        self.into_inner().flush()
    }
}

/// Runs the program, and answers the status that its process ends with.
///
/// It is that of [`run`] over the arguments, of which at most two are looked at: one that is longer
/// than 64 bytes or not UTF-8 counts as the empty text, and so is unknown. After status 0 the writer
/// is finished; its fault is reported, with status 1. Where there is no memory for the arguments,
/// that is reported, with status 1, and nothing is read or written.
pub fn process<A: Arguments, R: Source, W: Sink + Finish + Drop, E: Sink>(
    alloc: Global,
    given: &A,
    reader: &mut R,
    writer: W,
    errors: &mut E,
) -> ExitCode
    ensures status { exit_status result ≤ 2 }
    ensures done { exit_status result ≡ 0 →
        Ended (A.given given.now) R.Source W.Sink W.ends reader.old reader.new writer (Ok tt) }
    ensures quiet { exit_status result ≡ 0 → errors.new ≡ errors.old }
    ensures told { exit_status result ≡ 1 → PutsReport E.Sink errors.old errors.new }
    ensures failed { exit_status result ≡ 1 →
        Fails (A.given given.now) R.Source W.Sink W.ends reader.old reader.new writer }
    ensures unasked { exit_status result ≡ 2 →
        Unasked (A.given given.now) E.Sink reader.old reader.new errors.old errors.new }
{
    let Ok(args) = gather(alloc, given) else {
        report(alloc, errors, &Error::OutOfMemory);
        return ExitCode::from(FAILED);
    };
    let mut writer = writer;
    let status = run(alloc, &args, reader, &mut writer, errors);
    ExitCode::from(last_status(alloc, status, writer, errors))
}

/// The arguments that are looked at, as texts.
fn gather<A: Arguments>(alloc: Global, given: &A) -> Result<Vec<String>, AllocError>
    ensures { IfOk result (λ args. AskFor (A.given given.now) (form_of (words args.items))) }
{
    let mut args = Vec::new(alloc);
    let Some(first) = text_at(alloc, given, 0)? else {
        return Ok(args);
    };
    args.push(first)?;
    let Some(second) = text_at(alloc, given, 1)? else {
        return Ok(args);
    };
    args.push(second)?;
    Ok(args)
}

/// The argument at this place, as a text. One that is not UTF-8, or is longer than any that the
/// program could know, is the empty text.
fn text_at<A: Arguments>(
    alloc: Global,
    given: &A,
    place: usize,
) -> Result<Option<String>, AllocError>
    requires { place ≤ 1 }
    ensures { IfOk result (IsTextAt (A.given given.now) place) }
{
    let mut bytes = [0; LONGEST];
    let len = match given.argument(place, &mut bytes) {
        Ok(len) => len,
        Err(FillError::TooLong) => 0,
        Err(FillError::NotPresent) => return Ok(None),
    };
    Ok(Some(String::from_str(alloc, text_of(&bytes[..len]))?))
}

/// The bytes as a text, or the empty one where they are not UTF-8.
fn text_of(bytes: &[u8]) -> &str
    ensures { IsTextOf bytes.now result.now }
{
    str::from_utf8(bytes).unwrap_or("")
}

/// The status after the writer is finished, which it is where all was done.
fn last_status<W: Finish + Drop, E: Sink>(
    alloc: Global,
    status: u8,
    writer: W,
    errors: &mut E,
) -> u8
    ensures other { (status ≢ 0) → (result ≡ status) × (errors.new ≡ errors.old) }
    ensures done { status ≡ 0 → result ≡ 0 → W.ends writer (Ok tt) × (errors.new ≡ errors.old) }
    ensures told { status ≡ 0 → (result ≢ 0)
        → (result ≡ 1) × PutsReport E.Sink errors.old errors.new }
    ensures fault { status ≡ 0 → (result ≢ 0)
        → (fault : io_error.Error) × W.ends writer (Err fault) }
{
    if status != DONE {
        return status;
    }
    match writer.finish() {
        Ok(()) => DONE,
        Err(fault) => {
            report(alloc, errors, &Error::Io(fault));
            FAILED
        }
    }
}
