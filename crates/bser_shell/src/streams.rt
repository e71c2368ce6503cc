//! The streams of a program.

use crate::reports::Reports;
use crate::screen::Terminals;

/// The name of standard input among those of files.
pub const DASH: &str = "-";

/// The name of standard input in reports.
pub const STANDARD_INPUT: &str = "standard input";

/// What a program is given to read and to write.
#[derive(Drop)]
pub struct GivenStreams<R, W, E> {
    /// What is read where no file is named.
    pub input: R,
    /// What takes the output.
    pub output: W,
    /// What takes the reports.
    pub errors: E,
    /// Which of these go to a terminal.
    pub terminals: Terminals,
}

/// What a program reads and writes while it runs.
#[derive(Drop)]
pub struct Streams<'s, R, W, E> {
    /// What is read where no file is named.
    pub input: R,
    /// What takes the output.
    pub out: W,
    /// What takes the reports.
    pub reports: Reports<'s, E>,
}
