//! The program over any streams.

use crate::canon::Canon;
use crate::command::command;
use crate::kept::KeptView;
use crate::order::{Task, order_of};
use bser_format::errors::Error as MessageError;
use bser_from_json::texts::{TextError, Writing, write_messages};
use bser_shell::counted::CountedInput;
use bser_shell::program::{Program, put_usage};
use bser_shell::reports::Reports;
use bser_shell::status::{DONE, FAILED, UNKNOWN_ARGUMENT};
use bser_shell::streams::{DASH, STANDARD_INPUT, Streams};
use bser_source::device::Watched;
use bser_views::input_error::InputError;
use bser_views::messages::{Input, View, report_unread, show_messages};
use bser_views::summary::Summary;
use std::alloc::Global;
use std::fs::Files;
use std::io::{Read, Write};
use std::{fs, io};

/// The program `bser`.
#[derive(Drop)]
pub struct Bser<'f, F> {
    alloc: Global,
    files: &'f F,
}

impl<'f, F: Files> Bser<'f, F> {
    /// The program, which opens its files by these.
    pub fn new(alloc: Global, files: &'f F) -> Self {
        Bser { alloc, files }
    }
}

/// What is read, and what is done behind a message that fails.
#[derive(Clone, Copy)]
struct InputFiles<'a> {
    /// The names of files, and `-` for standard input. Without them standard input is read.
    names: &'a [&'a str],
    /// Whether the messages behind one that fails are shown too.
    keeps_going: bool,
}

/// The JSON texts of an input, and how their messages are written.
#[derive(Clone, Copy)]
struct Texts<'n> {
    name: &'n str,
    writing: Writing,
}

impl<F: Files> Program for Bser<'_, F> {
    fn name(&self) -> &'static str {
        "bser"
    }

    fn obey<R: Read, W: Write, E: Write>(
        &self,
        words: &[String],
        streams: &mut Streams<'_, R, W, E>,
    ) -> io::Result<u8> {
        let matches = match command(self.alloc)?.try_get_matches_from(words) {
            Ok(matches) => matches,
            Err(error) => return put_usage(&error, streams),
        };
        let Some((name, inner)) = matches.subcommand() else {
            return Ok(UNKNOWN_ARGUMENT);
        };
        let order = match order_of(name, inner) {
            Ok(order) => order,
            Err(disorder) => {
                let _written = writeln!(streams.reports, "bser: {disorder}");
                return Ok(UNKNOWN_ARGUMENT);
            }
        };
        let inputs = InputFiles {
            names: inner.get_raw("FILE").unwrap_or(&[]),
            keeps_going: order.keeps_going,
        };
        let done = self.do_task(order.task, inputs, streams)?;
        Ok(if done { DONE } else { FAILED })
    }
}

impl<F: Files> Bser<'_, F> {
    /// Does the task with each input, and tells whether all was done.
    fn do_task<R: Read, W: Write, E: Write>(
        &self,
        task: Task<'_>,
        inputs: InputFiles<'_>,
        streams: &mut Streams<'_, R, W, E>,
    ) -> io::Result<bool> {
        match task {
            Task::Show(mut view) => self.show_all(inputs, &mut view, streams),
            Task::Json(json) => self.show_all(inputs, &mut KeptView::new(json), streams),
            Task::Summary => self.show_all(inputs, &mut Summary, streams),
            Task::Get(get) => self.show_all(inputs, &mut KeptView::new(get), streams),
            Task::Canon { is_compact } => {
                let canon = Canon { is_compact };
                self.show_all(inputs, &mut KeptView::new(canon), streams)
            }
            Task::FromJson(writing) => self.write_all(inputs, writing, streams),
        }
    }

    /// Shows the messages of each input, and tells whether each was shown whole.
    fn show_all<V: View, R: Read, W: Write, E: Write>(
        &self,
        inputs: InputFiles<'_>,
        view: &mut V,
        streams: &mut Streams<'_, R, W, E>,
    ) -> io::Result<bool> {
        let keeps_going = inputs.keeps_going;
        if inputs.names.is_empty() {
            return self.show_standard(keeps_going, view, streams);
        }
        let mut whole = true;
        for name in inputs.names {
            let shown = if *name == DASH {
                self.show_standard(keeps_going, view, streams)?
            } else {
                self.show_file(*name, keeps_going, view, streams)?
            };
            whole = whole && shown;
        }
        Ok(whole)
    }

    /// Shows the messages of standard input, and tells whether each was shown whole.
    fn show_standard<V: View, R: Read, W: Write, E: Write>(
        &self,
        keeps_going: bool,
        view: &mut V,
        streams: &mut Streams<'_, R, W, E>,
    ) -> io::Result<bool> {
        let input = Input {
            name: STANDARD_INPUT,
            keeps_going,
            reader: Watched::new(&mut streams.input),
        };
        let (out, reports) = (&mut streams.out, &mut streams.reports);
        show_messages(self.alloc, input, view, out, reports)
    }

    /// Shows the messages of a file, and tells whether each was shown whole.
    fn show_file<V: View, R: Read, W: Write, E: Write>(
        &self,
        name: &str,
        keeps_going: bool,
        view: &mut V,
        streams: &mut Streams<'_, R, W, E>,
    ) -> io::Result<bool> {
        let (out, reports) = (&mut streams.out, &mut streams.reports);
        match fs::open(self.files, name) {
            Ok(file) => {
                let input = Input {
                    name,
                    keeps_going,
                    reader: Watched::new(file),
                };
                show_messages(self.alloc, input, view, out, reports)
            }
            Err(fault) => Ok(not_read(name, InputError::Fault(&fault), reports)),
        }
    }

    /// Writes the messages of the JSON texts in each input, and tells whether each was written.
    fn write_all<R: Read, W: Write, E: Write>(
        &self,
        inputs: InputFiles<'_>,
        writing: Writing,
        streams: &mut Streams<'_, R, W, E>,
    ) -> io::Result<bool> {
        if inputs.names.is_empty() {
            return self.write_standard(writing, streams);
        }
        let mut whole = true;
        for name in inputs.names {
            let written = if *name == DASH {
                self.write_standard(writing, streams)?
            } else {
                self.write_file(*name, writing, streams)?
            };
            whole = whole && written;
        }
        Ok(whole)
    }

    /// Writes the messages of the JSON texts of standard input, and tells whether each was written.
    fn write_standard<R: Read, W: Write, E: Write>(
        &self,
        writing: Writing,
        streams: &mut Streams<'_, R, W, E>,
    ) -> io::Result<bool> {
        let texts = Texts {
            name: STANDARD_INPUT,
            writing,
        };
        let (out, reports) = (&mut streams.out, &mut streams.reports);
        self.write_texts(texts, &mut streams.input, out, reports)
    }

    /// Writes the messages of the JSON texts in a file, and tells whether each was written.
    fn write_file<R: Read, W: Write, E: Write>(
        &self,
        name: &str,
        writing: Writing,
        streams: &mut Streams<'_, R, W, E>,
    ) -> io::Result<bool> {
        match fs::open(self.files, name) {
            Ok(mut file) => {
                let (out, reports) = (&mut streams.out, &mut streams.reports);
                self.write_texts(Texts { name, writing }, &mut file, out, reports)
            }
            Err(fault) => Ok(not_read(name, InputError::Fault(&fault), &mut streams.reports)),
        }
    }

    /// Writes the messages of a reader's JSON texts, and tells whether each was written.
    fn write_texts<R: Read, W: Write, E: Write>(
        &self,
        texts: Texts<'_>,
        input: &mut R,
        out: &mut W,
        reports: &mut Reports<'_, E>,
    ) -> io::Result<bool> {
        let Texts { name, writing } = texts;
        let mut counted = CountedInput::new(input, reports);
        let written = write_messages(self.alloc, writing, &mut counted, out);
        let is_empty = counted.given() == 0;
        let unread = match written {
            Ok(()) if is_empty => return Ok(not_read(name, InputError::Empty, reports)),
            Ok(()) => return Ok(true),
            Err(TextError::Message(MessageError::Io(fault))) => return Err(fault),
            Err(unread) => unread,
        };
        out.flush()?;
        if let TextError::Input(fault) = &unread {
            return Ok(not_read(name, InputError::Fault(fault), reports));
        }
        let _written = writeln!(reports, "bser: {name}: {unread}");
        Ok(false)
    }
}

/// Reports that an input is not read. It is not shown whole.
fn not_read<E: Write>(name: &str, unread: InputError<'_>, reports: &mut Reports<'_, E>) -> bool {
    let _written = report_unread(name, unread, reports);
    false
}
