//! The server's log.
ghost use Rattle.std.specs.Prelude.{◌≡◌, codes, [], ◌∷◌, Ok};
ghost use Rattle.bser_format.specs.Tree.{text};
ghost use Rattle.watchman_types.specs.Terms.{tagged};
ghost use Rattle.watchman_types.specs.Words.{log_level_word};

use bser_format::errors::Result;
use bser_ser::{Serialize, Serializer};
use bser_source::device::Sink;
use std::alloc::Global;

/// Which lines of its log the server sends.
#[derive(Clone, Copy)]
pub enum Level {
    /// `debug`: all
    Debug,
    /// `error`: errors
    Error,
    /// `off`: none
    Off,
}

impl Level {
    /// Returns Watchman's word for it.
    pub fn word(self) -> &'static str
        ensures { result.now ≡ log_level_word self }
    {
        match self {
            Level::Debug => "debug",
            Level::Error => "error",
            Level::Off => "off",
        }
    }
}

/// `log-level`: the server sends lines of its log from now on, or no longer.
#[derive(Clone, Copy)]
pub struct LogLevelRequest {
    pub level: Level,
}

impl Serialize for LogLevelRequest {
    ghost meaning = { λ r. tagged (codes "log-level") (Ok (text (log_level_word r.level)) ∷ []) };

    fn serialize<W: Sink>(&self, alloc: Global, out: &mut Serializer<W>) -> Result<()> {
        ("log-level", self.level.word()).serialize(alloc, out)
    }
}

/// `log`: the server writes this line into its log, of the level `Off` too.
#[derive(Clone, Copy)]
pub struct LogRequest<'a> {
    pub level: Level,
    pub line: &'a str,
}

impl<'a> Serialize for LogRequest<'a> {
    ghost meaning = { λ r. tagged (codes "log")
        (Ok (text (log_level_word r.level)) ∷ Ok (text r.line.now) ∷ []) };

    fn serialize<W: Sink>(&self, alloc: Global, out: &mut Serializer<W>) -> Result<()> {
        ("log", self.level.word(), self.line).serialize(alloc, out)
    }
}
