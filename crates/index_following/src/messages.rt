//! The messages of the inputs, each handed to what takes them.
ghost use Rattle.std.specs.Prelude.{◌≡◌, ◌≤◌, ◌+◌};

use bser_frames::error::FrameError;
use bser_frames::frames::Frames;
use bser_shell::reports::Reports;
use bser_shell::streams::{DASH, STANDARD_INPUT};
use bser_source::device::{Source, Watched};
use serde_bser::bytestring::ByteString;
use std::alloc::Global;
use std::fs::Files;
use std::io::{BufReader, ErrorKind, Read, Write};
use std::{fs, io};
use watchman_index::changes::Changes;
use watchman_index::standing::is_told;
use watchman_index::told::{Told, read_told};
use watchman_sqlite::error::{GapText, IndexError, ServerErrorText};
use watchman_sqlite::taking::{Taken, Taker, Totals, is_filled};

/// How many bytes are read at once.
const BUFFERED: usize = 1 << 16;

/// With what a message of the first version begins.
const FIRST_VERSION: &[u8] = &[0, 1];

/// Where messages come from.
#[derive(Drop)]
pub struct Inputs<'i, R> {
    /// The names of files, and `-` for standard input. Without them standard input is read.
    pub names: &'i [&'i str],
    /// Standard input.
    pub standard: R,
    /// Whether they were recorded. Else the end of a subscription's messages is reported, since what
    /// changes from then on is not known.
    pub are_recorded: bool,
}

/// Hands the messages of the inputs to the taker, up to the first that cannot be taken. That is
/// reported, and so is each error of the server.
pub fn take_inputs<F: Files, R: Read + Drop, T: Taker, E: Write>(
    alloc: Global,
    files: &F,
    inputs: Inputs<'_, R>,
    taker: &mut T,
    reports: &mut Reports<'_, E>,
) -> Totals
    ensures { result.refused ≤ 1 }
{
    let Inputs {
        names,
        standard,
        are_recorded,
    } = inputs;
    let mut standard = standard;
    let mut taking = Taking {
        alloc,
        taker,
        reports,
        are_recorded,
        is_subscribed: false,
        gap: None,
        totals: Totals::default(),
    };
    if names.is_empty() {
        taking.take_reader(STANDARD_INPUT, true, &mut standard);
        return taking.finish();
    }
    for name in names {
        if *name == DASH {
            taking.take_reader(STANDARD_INPUT, true, &mut standard);
        } else {
            taking.take_file(files, *name);
        }
        if taking.totals.refused > 0 {
            break;
        }
    }
    taking.finish()
}

/// A reader of messages.
#[derive(Drop)]
struct MessageInput<R: Drop> {
    // whether it is no file, whose bytes are there
    may_wait: bool,
    frames: Frames<Watched<BufReader<R>>>,
}

impl<R: Read + Drop> MessageInput<R> {
    /// Whether the next message may have to be waited for.
    fn is_at_rest(&self) -> bool {
        self.may_wait && self.frames.get_ref().get_ref().buffer().is_empty()
    }

    /// Whether no byte was read yet.
    fn is_empty(&self) -> bool {
        self.frames.position() == 0 && self.frames.frame().is_empty()
    }
}

/// What came of the next message.
#[derive(Debug, Drop)]
enum Next {
    Taken,
    /// Something is missing before its files, which were not taken.
    Gap(Changes),
    ServerError(ByteString),
    Canceled(ByteString),
    End,
}

/// The messages that are taken: by what, and how many.
#[derive(Drop)]
struct Taking<'t, 'r, 'e, T, E> {
    alloc: Global,
    taker: &'t mut T,
    reports: &'r mut Reports<'e, E>,
    are_recorded: bool,
    // whether the input has messages of a subscription
    is_subscribed: bool,
    // the clock of the last message before which something is missing
    gap: Option<ByteString>,
    totals: Totals,
}

impl<T: Taker, E: Write> Taking<'_, '_, '_, T, E> {
    /// Hands the messages of a file to the taker.
    fn take_file<F: Files>(&mut self, files: &F, name: &str)
        ensures { self.new.totals.refused ≤ self.old.totals.refused + 1 }
    {
        let may_wait = match fs::metadata(files, name) {
            Ok(found) => !found.is_file(),
            Err(_) => false,
        };
        match fs::open(files, name) {
            Ok(file) => self.take_reader(name, may_wait, file),
            Err(fault) => self.refuse_input(name, &fault),
        }
    }

    /// Hands the messages of a reader to the taker, which is told before one is waited for.
    fn take_reader<R: Read + Drop>(&mut self, name: &str, may_wait: bool, reader: R)
        ensures { self.new.totals.refused ≤ self.old.totals.refused + 1 }
    {
        match BufReader::with_capacity(self.alloc, BUFFERED, reader) {
            Ok(buffered) => {
                let mut input = MessageInput {
                    may_wait,
                    frames: Frames::new(self.alloc, Watched::new(buffered)),
                };
                self.take_stream(name, &mut input);
            }
            Err(fault) => self.refuse_input(name, &fault),
        }
    }

    /// Hands the messages of an input to the taker, up to the first that cannot be taken.
    fn take_stream<R: Read + Drop>(&mut self, name: &str, input: &mut MessageInput<R>)
        ensures { self.new.totals.refused ≤ self.old.totals.refused + 1 }
    {
        self.is_subscribed = false;
        for _ in 0..u64::MAX {
            match self.take_next(input) {
                Ok(Next::End) => return self.end_stream(name, input),
                Ok(next) => {
                    self.count(input.frames.frame());
                    self.report_next(name, input.frames.position(), next);
                }
                Err(IndexError::Frame(FrameError::Reader(fault)))
                    if fault.kind() == ErrorKind::IsADirectory => {
                    return self.refuse_input(name, &fault);
                }
                Err(failure) => {
                    self.refuse();
                    return self.report(name, &input.frames, &failure);
                }
            }
        }
    }

    /// Reports the end of an input that has no messages, and of one with messages of a subscription.
    fn end_stream<R: Read + Drop>(&mut self, name: &str, input: &MessageInput<R>)
        ensures { self.new.totals.refused ≤ self.old.totals.refused + 1 }
    {
        if input.is_empty() {
            self.refuse();
            let _written = writeln!(
                self.reports,
                "bser_index: {name}: it is empty: see whether what writes it failed"
            );
        } else if self.is_subscribed && !self.are_recorded {
            self.totals.ended = self.totals.ended.saturating_add(1);
            let _written = writeln!(
                self.reports,
                "bser_index: {name}: the messages of the subscription end, and what changes from now on is not known; if they were recorded, say so by --recording"
            );
        }
    }

    /// Hands the next message to the taker.
    fn take_next<R: Read + Drop>(&mut self, input: &mut MessageInput<R>) -> Result<Next, IndexError>
        ensures { self.new.totals.refused ≡ self.old.totals.refused }
    {
        if input.is_at_rest() {
            self.taker.pause()?;
        }
        let frames = &mut input.frames;
        match frames.next_frame() {
            Ok(true) => {}
            Ok(false) => return Ok(Next::End),
            Err(error) => return Err(fault_of(self.alloc, error, frames.frame())),
        }
        match read_told(self.alloc, frames.frame()) {
            Ok(told) => self.take_told(told),
            Err(error) => Err(IndexError::Message(error)),
        }
    }

    /// Hands what a message tells to the taker.
    fn take_told(&mut self, told: Told) -> Result<Next, IndexError>
        ensures { self.new.totals.refused ≡ self.old.totals.refused }
    {
        match told {
            Told::Files(changes) => return self.take_changes(changes),
            Told::ServerError(error) => {
                self.totals.errors = self.totals.errors.saturating_add(1);
                return Ok(Next::ServerError(error));
            }
            Told::Canceled(name) => {
                self.totals.errors = self.totals.errors.saturating_add(1);
                return Ok(Next::Canceled(name));
            }
            Told::Subscribed(clock) => {
                self.is_subscribed = true;
                self.taker.take_clock(clock)?;
            }
            Told::Clock(clock) => self.taker.take_clock(clock)?,
            Told::Nothing => {}
        }
        self.totals.others = self.totals.others.saturating_add(1);
        Ok(Next::Taken)
    }

    /// Hands which files a message tells to the taker.
    fn take_changes(&mut self, changes: Changes) -> Result<Next, IndexError>
        ensures { self.new.totals.refused ≡ self.old.totals.refused }
    {
        self.is_subscribed = self.is_subscribed || changes.subscription.is_some();
        let files = changes.files.len() as u64;
        let fills = matches!(&self.gap, Some(gap) if is_filled(gap, &changes.clock));
        match self.taker.take_changes(changes)? {
            Taken::Joined => {
                self.totals.messages = self.totals.messages.saturating_add(1);
                self.totals.files = self.totals.files.saturating_add(files);
            }
            Taken::Told => self.totals.told = self.totals.told.saturating_add(1),
            Taken::Gap(changes) => {
                self.totals.gaps = self.totals.gaps.saturating_add(1);
                return Ok(Next::Gap(changes));
            }
        }
        if fills {
            self.gap = None;
        }
        Ok(Next::Taken)
    }

    /// The totals, where no input is left. A gap that is open still is reported.
    fn finish(self) -> Totals
        ensures { result.refused ≡ self.entry.totals.refused }
    {
        let Taking {
            taker,
            reports,
            gap,
            mut totals,
            ..
        } = self;
        let Some(gap) = gap else {
            return totals;
        };
        let is_filled = match taker.last_clock() {
            Ok(last) => is_told(last, &gap),
            Err(_) => false,
        };
        if !is_filled {
            totals.unfilled = totals.unfilled.saturating_add(1);
            let _written = writeln!(
                reports,
                "bser_index: the gap before {gap} was not filled: add the answer to what bser_index request prints"
            );
        }
        totals
    }

    /// Counts a message that was taken.
    fn count(&mut self, frame: &[u8])
        ensures { self.new.totals ≡ self.old.totals }
    {
        self.reports.count_message();
        self.reports.count_bytes(frame.len());
    }

    /// Notes that something was refused.
    fn refuse(&mut self)
        ensures { self.new.totals.refused ≤ self.old.totals.refused + 1 }
    {
        self.totals.refused = self.totals.refused.saturating_add(1);
    }

    /// Reports that an input is not read.
    fn refuse_input(&mut self, name: &str, fault: &io::Error)
        ensures { self.new.totals.refused ≤ self.old.totals.refused + 1 }
    {
        self.refuse();
        let _written = if fault.kind() == ErrorKind::IsADirectory {
            writeln!(
                self.reports,
                "bser_index: {name}: it is a folder: name the files in it"
            )
        } else {
            writeln!(self.reports, "bser_index: {name}: {fault}")
        };
    }

    /// Reports why a message is not taken.
    fn report<S: Source>(&mut self, name: &str, frames: &Frames<S>, failure: &IndexError)
        ensures { self.new.totals ≡ self.old.totals }
    {
        let place = frames.position();
        let _written = write!(
            self.reports,
            "bser_index: {name}: the message at {place}: {failure}"
        );
        if frames.frame().starts_with(FIRST_VERSION) {
            let _written = write!(
                self.reports,
                "; watchman writes it by --output-encoding=bser-v2"
            );
        }
        let _written = writeln!(self.reports);
    }

    /// Reports what has to be known of a message behind which the next is taken.
    fn report_next(&mut self, name: &str, place: u64, next: Next)
        ensures { self.new.totals ≡ self.old.totals }
    {
        let _written = match next {
            Next::Gap(changes) => return self.report_gap(name, place, changes),
            Next::ServerError(error) => writeln!(
                self.reports,
                "bser_index: {name}: the message at {place} is an error of the server: {}",
                ServerErrorText(error)
            ),
            Next::Canceled(canceled) => writeln!(
                self.reports,
                "bser_index: {name}: the message at {place} ends the subscription {canceled}: its root is no longer watched"
            ),
            Next::Taken | Next::End => return,
        };
    }

    /// Reports the first of the messages before which something is missing, and notes its clock.
    fn report_gap(&mut self, name: &str, place: u64, changes: Changes)
        ensures { self.new.totals ≡ self.old.totals }
    {
        if self.gap.is_none() {
            let last = self.last_clock();
            let gap = GapText {
                since: changes.since.as_ref(),
                last: last.as_ref(),
            };
            let _written = writeln!(
                self.reports,
                "bser_index: {name}: the message at {place}: {gap}: nothing behind it is taken until the answer to what bser_index request prints was added"
            );
        }
        self.gap = Some(changes.clock);
    }

    /// The clock up to which all is told.
    fn last_clock(&mut self) -> Option<ByteString>
        ensures { self.new.totals ≡ self.old.totals }
    {
        let last = self.taker.last_clock().ok()?;
        last?.clone().ok()
    }
}

/// Why there is no next message, where this came of it.
fn fault_of(alloc: Global, error: FrameError, frame: &[u8]) -> IndexError {
    match error {
        FrameError::Cut { .. } | FrameError::Header(_) => match read_told(alloc, frame) {
            Err(unread) => IndexError::Message(unread),
            Ok(_) => IndexError::Frame(error),
        },
        _ => IndexError::Frame(error),
    }
}
