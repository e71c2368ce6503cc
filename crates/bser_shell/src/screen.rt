//! The terminal that reports and perhaps the output go to.

use std::cell::Cell;

/// Which streams go to a terminal.
#[derive(Debug, Clone, Copy, PartialEq, Eq)]
pub struct Terminals {
    /// Whether the output does.
    pub output: bool,
    /// Whether the reports do.
    pub errors: bool,
}

impl Terminals {
    /// No stream does.
    pub const NONE: Terminals = Terminals {
        output: false,
        errors: false,
    };
}

/// What stands on the last line of the terminal, if there is one.
#[derive(Drop)]
pub struct Screen {
    terminals: Terminals,
    // whether a line of progress is shown
    is_shown: Cell<bool>,
    // whether the output ended within the line
    is_within: Cell<bool>,
}

impl Screen {
    /// Nothing is shown.
    pub fn new(terminals: Terminals) -> Self {
        Screen {
            terminals,
            is_shown: Cell::new(false),
            is_within: Cell::new(false),
        }
    }

    /// Whether a line of progress may be shown.
    pub(crate) fn is_free(&self) -> bool {
        self.terminals.errors && !self.is_within.get()
    }

    /// Notes that a line of progress is shown.
    pub(crate) fn show(&self) {
        self.is_shown.set(true);
    }

    /// Whether a line of progress was shown, which is cleared now.
    pub(crate) fn take_shown(&self) -> bool {
        self.is_shown.replace(false)
    }

    /// Whether the output goes to a terminal.
    pub(crate) fn has_output(&self) -> bool {
        self.terminals.output
    }

    /// Notes what was written of the output.
    pub(crate) fn note_output(&self, bytes: &[u8]) {
        if let Some(last) = bytes.last() {
            self.is_within.set(*last != b'\n');
        }
    }
}
