//! What an index knows of a file.
ghost use Rattle.std.specs.Prelude.{◌≡◌, if◌then◌else◌};
ghost use Rattle.watchman_index.specs.Rows.{changed_by, gone};
ghost use Rattle.watchman_index.specs.Tables.{is_since};

use watchman_types::file_type::FileType;

/// What a message says of a file, but for its name. What was not asked for is `None`.
#[derive(Debug, Clone, Copy, PartialEq, Eq)]
pub struct FileState {
    /// Whether the file exists. Of one that was deleted the rest is the last that was known.
    pub exists: bool,
    /// How many bytes the file has.
    pub size: Option<u64>,
    /// The type and the permissions, as `stat` gives them.
    pub mode: Option<u32>,
    /// The type.
    pub kind: Option<FileType>,
    /// When the content last changed, in milliseconds from 1970 on.
    pub mtime_ms: Option<i64>,
}

/// What an index knows of a file.
#[derive(Debug, Clone, Copy, PartialEq, Eq)]
pub struct Row {
    /// What was last said of it.
    pub state: FileState,
    /// The number of the message that listed it last.
    pub told: u64,
    /// The number of the message that changed it last.
    pub changed: u64,
}

impl Row {
    /// The row of a file that the message of this number lists so. The message changed it.
    pub fn told(number: u64, state: FileState) -> Row
        ensures { result ≡ changed_by number state }
    {
        Row {
            state,
            told: number,
            changed: number,
        }
    }

    /// The row of a file that the message of this number says to be gone, since it lists all files
    /// and not this one. One that did not exist stays as it was.
    pub fn gone(self, number: u64) -> Row
        ensures { result ≡ gone number self }
    {
        if !self.state.exists {
            return self;
        }
        let state = FileState {
            exists: false,
            ..self.state
        };
        Row {
            state,
            changed: number,
            ..self
        }
    }

    /// The row after the message of this number, which lists all files, and this one where it
    /// `is_listed`.
    pub(crate) fn kept(self, number: u64, is_listed: bool) -> Row
        ensures { result ≡ (if is_listed then self else gone number self) }
    {
        if is_listed { self } else { self.gone(number) }
    }

    /// Whether a message behind that of this number changed it. Where no message is known, whether
    /// the file exists.
    pub fn is_since(&self, number: Option<u64>) -> bool
        ensures { result ≡ is_since number self.now }
    {
        match number {
            Some(number) => number < self.changed,
            None => self.state.exists,
        }
    }
}
