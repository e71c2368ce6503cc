//! A program over any streams.

use crate::beside::Beside;
use crate::reports::Reports;
use crate::screen::Screen;
use crate::status::{DONE, FAILED, UNKNOWN_ARGUMENT};
use crate::streams::{GivenStreams, Streams};
use clap::Error;
use std::alloc::Global;
use std::io;
use std::io::{BufWriter, ErrorKind, Read, Write};

/// What a program does.
pub trait Program {
    /// Its name, which stands before each of its reports.
    fn name(&self) -> &'static str;

    /// Does what the words ask for, the first of which is the program's name, and answers the
    /// status. The error is that of the output.
    fn obey<R: Read, W: Write, E: Write>(
        &self,
        words: &[String],
        streams: &mut Streams<'_, R, W, E>,
    ) -> io::Result<u8>;
}

/// Runs the program with these words, and answers its status. What is wrong is reported, and where
/// the reports go to a terminal, a line there says how far a long input is read.
///
/// A closed pipe of the output ends the program, and is no error.
pub fn run_program<P: Program, R: Read + Drop, W: Write + Drop, E: Write + Drop>(
    alloc: Global,
    program: &P,
    words: &[String],
    given: GivenStreams<R, W, E>,
) -> u8 {
    let GivenStreams {
        input,
        output,
        mut errors,
        terminals,
    } = given;
    let screen = Screen::new(terminals);
    let out = match BufWriter::new(alloc, Beside::new(&screen, output)) {
        Ok(out) => out,
        Err(fault) => {
            let mut reports = Reports::new(&screen, &mut errors);
            return failed(program.name(), &fault, &mut reports);
        }
    };
    let mut streams = Streams {
        input,
        out,
        reports: Reports::new(&screen, &mut errors),
    };
    let done = program.obey(words, &mut streams);
    finish(program.name(), done, &mut streams)
}

/// Sends the rest of the output, and answers the status of what was done.
fn finish<R, W: Write, E: Write>(
    name: &str,
    done: io::Result<u8>,
    streams: &mut Streams<'_, R, W, E>,
) -> u8 {
    let flushed = streams.out.flush();
    streams.reports.clear();
    match (done, flushed) {
        (Ok(status), Ok(())) => status,
        (Err(fault), _) | (_, Err(fault)) => failed(name, &fault, &mut streams.reports),
    }
}

/// The status where the output failed, or there is no memory.
fn failed<E: Write>(name: &str, fault: &io::Error, reports: &mut Reports<'_, E>) -> u8 {
    if fault.kind() == ErrorKind::BrokenPipe {
        return DONE;
    }
    let _written = writeln!(reports, "{name}: the output failed: {fault}");
    FAILED
}

/// Prints the help that is asked for, or reports what is wrong with the words. Answers the status.
pub fn put_usage<R, W: Write, E: Write>(
    error: &Error,
    streams: &mut Streams<'_, R, W, E>,
) -> io::Result<u8> {
    if error.use_stderr() {
        let _written = write!(streams.reports, "{error}");
        return Ok(UNKNOWN_ARGUMENT);
    }
    write!(streams.out, "{error}")?;
    Ok(DONE)
}
