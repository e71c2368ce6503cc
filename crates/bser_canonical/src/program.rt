//! The program over any streams.
ghost use Rattle.std.specs.Prelude.{◌≡◌, ◌≢◌, ◌≤◌, ◌<◌, [], ◌∷◌, ◌++◌, codes, length, string_bytes};
ghost use Rattle.std.specs.Prelude.{OnOk, IfOk, IfErr, None};
ghost use Rattle.bser_canonical.specs.Canon.{Rewrote, RefusesRewriting};
ghost use Rattle.bser_canonical.specs.Arguments.{IsUnknown, asked, form_of, in_form, words};
ghost use Rattle.bser_canonical.specs.Line.{IsReport, PutsLine, PutsReport, unknown_argument};

use crate::engine::{canon, canon_compact};
use bser_format::errors::Error;
use bser_shell::status::{DONE, FAILED, UNKNOWN_ARGUMENT};
use bser_source::device::{Sink, Source};
use std::alloc::{AllocError, Global};

/// The form in which a value is written.
#[derive(Clone, Copy, Drop)]
enum MessageForm {
    Canonical,
    Compact,
}

/// Rewrites one message, and answers the program's status. Without arguments that is done by
/// [`canon`], and for `--compact` alone by [`canon_compact`]: the status is 0 where it succeeds, and
/// 1 where it refuses, with the error's text on a line of `errors`. With any other argument, or a
/// second one, it is 2, there is a line on `errors`, and nothing is read or written.
///
/// The status does not change where its line cannot be written.
pub fn run<R: Source, W: Sink, E: Sink>(
    alloc: Global,
    args: &[String],
    reader: &mut R,
    writer: &mut W,
    errors: &mut E,
) -> u8
    ensures argument { IsUnknown args.now → result ≡ 2 }
    ensures untouched { IsUnknown args.now → (reader.new ≡ reader.old) × (writer.new ≡ writer.old) }
    ensures line { IsUnknown args.now → PutsLine E.Sink unknown_argument errors.old errors.new }
    ensures status { (form_of (words args.now) ≢ None) → result ≤ 1 }
    ensures done { result ≡ 0 → Rewrote (asked args.now) R.Source W.Sink
        reader.old reader.new writer.old writer.new }
    ensures quiet { result ≡ 0 → errors.new ≡ errors.old }
    ensures told { result ≡ 1 → PutsReport E.Sink errors.old errors.new }
    ensures refused { result ≡ 1 → (e : Error) × RefusesRewriting (asked args.now) R.Source W.Sink
        reader.old reader.new writer.old writer.new e }
{
    let Some(form) = form_asked(args) else {
        put(errors, b"bser_canon: unknown argument\n");
        return UNKNOWN_ARGUMENT;
    };
    match rewrite(alloc, form, reader, writer) {
        Ok(()) => DONE,
        Err(error) => {
            report(alloc, errors, &error);
            FAILED
        }
    }
}

/// Writes a line with the error's text, as far as the writer takes it. Where there is no memory for
/// the text, the line says so.
pub fn report<E: Sink>(alloc: Global, errors: &mut E, error: &Error)
    ensures { PutsReport E.Sink errors.old errors.new }
{
    match report_line(alloc, error) {
        Ok(line) => put(errors, line.as_bytes()),
        Err(_) => put(errors, b"bser_canon: out of memory\n"),
    }
}

/// The form that the arguments ask for, where the program knows them.
fn form_asked(args: &[String]) -> Option<MessageForm>
    ensures { result ≡ form_of (words args.now) }
{
    match args {
        [] => Some(MessageForm::Canonical),
        [argument] if argument.as_str() == "--compact" => Some(MessageForm::Compact),
        _ => None,
    }
}

/// Rewrites one message in this form.
fn rewrite<R: Source, W: Sink>(
    alloc: Global,
    form: MessageForm,
    reader: &mut R,
    writer: &mut W,
) -> Result<(), Error>
    ensures ok { OnOk result (Rewrote (in_form form) R.Source W.Sink
        reader.old reader.new writer.old writer.new) }
    ensures refused { IfErr result (RefusesRewriting (in_form form) R.Source W.Sink
        reader.old reader.new writer.old writer.new) }
{
    match form {
        MessageForm::Canonical => canon(alloc, reader, writer),
        MessageForm::Compact => canon_compact(alloc, reader, writer),
    }
}

/// The line with the error's text.
fn report_line(alloc: Global, error: &Error) -> Result<String, AllocError>
    ensures { IfOk result (λ line. IsReport (string_bytes line)) }
{
    let text = error.to_string(alloc)?;
    format!(in alloc; "bser_canon: {text}\n")
}

/// Writes the line, as far as the writer takes it.
fn put<E: Sink>(errors: &mut E, line: &[u8])
    ensures { PutsLine E.Sink line.now errors.old errors.new }
{
    let mut done = 0;
    while done < line.len() {
        match errors.push(&line[done..]) {
            Ok(n) if n > 0 => done += n,
            _ => return,
        }
    }
}
