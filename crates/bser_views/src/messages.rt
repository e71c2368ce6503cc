//! The messages of a reader, shown one after the other.

use crate::frame::{End, MessageReader};
use crate::input_error::{InputError, folder_fault, is_first_version};
use crate::lack::Lack;
use crate::print_error::PrintError;
use bser_format::errors::{Error, ReadCause};
use bser_messages::told::{Header, Reason, TellError};
use bser_shell::counted::CountedInput;
use bser_shell::reports::Reports;
use bser_source::device::Source;
use std::alloc::{AllocError, Global};
use std::io;
use std::io::Write;

/// Why a message was not shown whole.
#[derive(Debug, Drop, thiserror::Error)]
pub enum ViewError {
    /// The message, the memory or the reader failed.
    #[error("{0}")]
    Tell(TellError),
    /// A part of the message runs past the end that its header announces.
    #[error("{} bytes announced, and more wanted, at byte {}", .header.len, .header.message_length())]
    Overrun {
        /// What the header tells.
        header: Header,
        /// Why the message was not told whole.
        untold: TellError,
    },
    /// The message was taken, and cannot be written again.
    #[error("{0}")]
    Unwritten(Error),
    /// The message was taken, and lacks what it was asked for.
    #[error("{0}")]
    Lacking(Lack),
    /// The message was taken, and there is no memory for what is to be shown of it.
    #[error("out of memory")]
    Memory(#[from(alloc)] AllocError),
    /// The output failed.
    #[error("the output failed: {0}")]
    Output(#[from] io::Error),
}

impl From<TellError> for ViewError {
    fn from(untold: TellError) -> Self {
        ViewError::Tell(untold)
    }
}

impl From<PrintError> for ViewError {
    fn from(trouble: PrintError) -> Self {
        match trouble {
            PrintError::Memory(error) => ViewError::Memory(error),
            PrintError::Output(fault) => ViewError::Output(fault),
        }
    }
}

/// What is shown of a message.
pub trait View {
    /// Takes the reader's next message, which begins at byte `start` of the input, and shows it.
    /// False where no byte is left.
    fn show_next<S: Source, W: Write>(
        &mut self,
        alloc: Global,
        start: u64,
        reader: &mut S,
        out: &mut W,
    ) -> Result<bool, ViewError>;
}

/// Where messages come from, and what is done after one that fails.
#[derive(Drop)]
pub struct Input<'a, S> {
    /// The name of the input, in reports.
    pub name: &'a str,
    /// Whether the messages behind one that fails are shown too.
    pub keeps_going: bool,
    /// What they are read from.
    pub reader: S,
}

/// Shows the messages of the reader, and tells whether each was shown whole.
///
/// A message that fails has a line in the `reports`, behind all that was shown of it. It ends the
/// showing, unless the input `keeps_going` and the end that the header announces can be reached:
/// then the next message is shown, and no byte behind that end is read of this one. An input without
/// any byte has a line too, and is not shown whole. The output has all of a message before the next
/// is read. The error is that of the output.
pub fn show_messages<S: Source + Drop, V: View, W: Write, E: Write>(
    alloc: Global,
    input: Input<'_, S>,
    view: &mut V,
    out: &mut W,
    reports: &mut Reports<'_, E>,
) -> io::Result<bool> {
    let Input {
        name,
        keeps_going,
        reader,
    } = input;
    let mut counted = CountedInput::new(reader, reports);
    let end = end_of(keeps_going);
    let mut whole = true;
    for _ in 0..u64::MAX {
        out.flush()?;
        let start = counted.given();
        let mut frame = MessageReader::new(alloc, &mut counted, end);
        let shown = view.show_next(alloc, start, &mut frame, out);
        let has_ended = frame.has_ended();
        match shown {
            Ok(true) => counted.reports().count_message(),
            Ok(false) if start == 0 => {
                let _written = report_unread(name, InputError::Empty, counted.reports());
                return Ok(false);
            }
            Ok(false) => return Ok(whole),
            Err(ViewError::Output(fault)) => return Err(fault),
            Err(failure) => {
                whole = false;
                out.flush()?;
                let failure = past_end(failure, has_ended);
                report(name, start, &failure, counted.reports());
                if !keeps_going || !goes_on(alloc, name, &failure, &mut counted) {
                    return Ok(false);
                }
            }
        }
    }
    Ok(whole)
}

/// Where the reader of a message ends.
fn end_of(keeps_going: bool) -> End {
    if keeps_going {
        End::ANNOUNCED
    } else {
        End::OfInput
    }
}

/// The failure of a message whose reader ended where its header announces, or did not end.
fn past_end(failure: ViewError, has_ended: bool) -> ViewError {
    match failure {
        ViewError::Tell(untold) => match untold.header {
            Some(header) if has_ended && is_of_reader(&untold) => {
                ViewError::Overrun { header, untold }
            }
            _ => ViewError::Tell(untold),
        },
        other => other,
    }
}

/// Writes a line on a message that begins at byte `start`, and was not shown whole.
fn report<E: Write>(name: &str, start: u64, failure: &ViewError, errors: &mut E) {
    let _written = match failure {
        ViewError::Tell(untold) => report_untold(name, start, untold, errors),
        ViewError::Lacking(lack) => {
            writeln!(errors, "bser: {name}: the message at {start} has {lack}")
        }
        other => writeln!(errors, "bser: {name}: the message at {start}: {other}"),
    };
}

/// Writes a line on a message that was not told, or on an input that has none.
fn report_untold<E: Write>(
    name: &str,
    start: u64,
    untold: &TellError,
    errors: &mut E,
) -> io::Result<()> {
    if let Some(fault) = folder_fault(untold) {
        return report_unread(name, InputError::Fault(fault), errors);
    }
    write!(errors, "bser: {name}: the message at {start}: {untold}")?;
    if is_first_version(untold) {
        write!(errors, "; watchman writes it by --output-encoding=bser-v2")?;
    }
    writeln!(errors)
}

/// Writes a line on an input that is not read.
pub fn report_unread<E: Write>(
    name: &str,
    unread: InputError<'_>,
    errors: &mut E,
) -> io::Result<()> {
    writeln!(errors, "bser: {name}: {unread}")
}

/// Goes to the next message, and tells whether the reader is there. Else a line says why not, but
/// where the input ended or failed.
fn goes_on<S: Source, E: Write>(
    alloc: Global,
    name: &str,
    failure: &ViewError,
    counted: &mut CountedInput<'_, '_, S, E>,
) -> bool {
    let untold = match failure {
        ViewError::Tell(untold) if !is_of_reader(untold) => untold,
        ViewError::Overrun { untold, .. } => untold,
        ViewError::Lacking(_) | ViewError::Memory(_) | ViewError::Unwritten(_) => return true,
        _ => return false,
    };
    let why = match untold.skip_rest(alloc, counted) {
        Ok(true) => return true,
        Ok(false) => "the next message is not found",
        Err(_error) => "the message is cut, and the last",
    };
    let _written = writeln!(counted.reports(), "bser: {name}: {why}");
    false
}

/// Whether the reader ended or failed.
fn is_of_reader(untold: &TellError) -> bool {
    let Reason::Failed(description) = &untold.reason else {
        return false;
    };
    match description.cause() {
        Error::DeReaderError { source } => !matches!(source, ReadCause::Utf8),
        _ => false,
    }
}
