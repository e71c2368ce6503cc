//! The writer of a text, which keeps its own error.
ghost use Rattle.std.specs.Prelude.{◌≡◌, true, is_some, nat_lt, IfOk, IfErr, OnOk};
ghost use Rattle.bser_source.specs.Watched.{failures_of, inner_of};
ghost use Rattle.bser_json.specs.Output.{IsAccounted};

use bser_source::device::{Sink, Watched};
use bser_views::messages::ViewError;
use bser_views::print_error::PrintError;
use std::alloc::AllocError;
use std::io;
use std::io::{ErrorKind, Write};

/// Why a text was not written whole, and its writer, which took some of it.
#[derive(Drop)]
pub struct Unwritten<W> {
    /// The writer, with a count of its failures.
    pub out: Watched<W>,
    /// `Output` with the writer's own error, where it failed; and else `Memory`.
    pub error: PrintError,
}

impl<W: Drop> From<Unwritten<W>> for ViewError {
    fn from(unwritten: Unwritten<W>) -> Self {
        ViewError::from(unwritten.error)
    }
}

/// A writer, and its error once it failed. From then on it is asked no more, and what is answered
/// in its place only says that it failed.
#[derive(Drop)]
pub(crate) struct Output<W> {
    out: Watched<W>,
    fault: Option<io::Error>,
    ghost told: { is_some fault ≡ nat_lt 0 (failures_of out) },
}

impl<W> Output<W> {
    /// A writer that did not fail.
    pub(crate) fn new(out: W) -> Self
        ensures { inner_of result.out ≡ out }
    {
        Output {
            out: Watched::new(out),
            fault: None,
        }
    }

    /// Gives the writer back. That the text is not whole is its own error where it failed.
    pub(crate) fn end(self, is_whole: bool) -> Result<W, Unwritten<W>>
        ensures whole { OnOk result (is_whole ≡ true) }
        ensures same { IfOk result (λ out. out ≡ inner_of self.out) }
        ensures refused { IfErr result (λ unwritten.
            IsAccounted unwritten.error (failures_of unwritten.out)) }
    {
        let Output { out, fault } = self;
        match fault {
            Some(fault) => Err(Unwritten {
                out,
                error: PrintError::Output(fault),
            }),
            None if is_whole => Ok(out.into_inner()),
            None => Err(Unwritten {
                out,
                error: PrintError::Memory(AllocError),
            }),
        }
    }
}

impl<W: Write> Write for Output<W> {
    ghost contents = { λ o. W.contents (inner_of o.out) };

    fn write(&mut self, bytes: &[u8]) -> io::Result<usize> {
        if self.fault.is_some() {
            return Err(failed());
        }
        let fault = match self.out.push(bytes) {
            Ok(0) if !bytes.is_empty() => io::Error::new(ErrorKind::WriteZero, "nothing taken"),
            Ok(count) => return Ok(count),
            Err(fault) => fault,
        };
        self.fault = Some(fault);
        Err(failed())
    }

    fn flush(&mut self) -> io::Result<()> {
        Ok(())
    }
}

/// What stands for the error that is kept.
fn failed() -> io::Error {
    io::Error::new(ErrorKind::Other, "the output failed")
}
