//! What a message lacks of what it was asked for.

use crate::quoted::Quoted;
use std::alloc::{AllocError, Global};
use std::fmt;

/// What a message lacks of what it was asked for.
///
/// It prints as what the message has in its place.
#[derive(Debug, Drop)]
pub enum Lack {
    /// Nothing is there.
    Value,
    /// Neither an array nor an object is there.
    Container,
    /// A string has the byte NUL, which is to end each string.
    End,
    /// Values of a container were left out.
    Inside(LeftOut),
}

/// The values of a container that were left out, of which there is at least one.
#[derive(Debug, Drop)]
pub struct LeftOut {
    /// How many values of the container were gone into.
    pub all: u64,
    /// How many of them have nothing there.
    pub lacking: u64,
    /// JSON pointers to the strings that have the byte NUL.
    pub unended: Vec<String>,
}

impl LeftOut {
    /// No value was gone into.
    pub fn new(alloc: Global) -> Self {
        LeftOut {
            all: 0,
            lacking: 0,
            unended: Vec::new(alloc),
        }
    }

    /// Counts a value that was gone into.
    pub fn count(&mut self) {
        self.all = self.all.saturating_add(1);
    }

    /// Notes that nothing is there in one of them.
    pub fn add_lacking(&mut self) {
        self.lacking = self.lacking.saturating_add(1);
    }

    /// Notes that a string has the byte NUL, to which this pointer leads.
    pub fn add_unended(&mut self, pointer: String) -> Result<(), AllocError> {
        self.unended.push(pointer)?;
        Ok(())
    }

    /// Whether no value was left out.
    pub fn is_empty(&self) -> bool {
        self.lacking == 0 && self.unended.is_empty()
    }
}

impl fmt::Display for Lack {
    fn fmt<W: fmt::Write>(&self, f: &mut fmt::Formatter<W>) -> fmt::Result {
        match self {
            Lack::Value => f.write_str("nothing there"),
            Lack::Container => f.write_str("no array and no object there"),
            Lack::End => f.write_str("a string with a NUL there, which is to end each string"),
            Lack::Inside(left_out) => write!(f, "{left_out}"),
        }
    }
}

impl fmt::Display for LeftOut {
    fn fmt<W: fmt::Write>(&self, f: &mut fmt::Formatter<W>) -> fmt::Result {
        let LeftOut {
            all,
            lacking,
            unended,
        } = self;
        if *lacking > 0 {
            write!(f, "nothing there in {lacking} of {all} values")?;
        }
        if unended.is_empty() {
            return Ok(());
        }
        if *lacking > 0 {
            f.write_str(", and ")?;
        }
        f.write_str("a NUL, which is to end each string, at")?;
        for (place, pointer) in unended.iter().enumerate() {
            let before = if place == 0 { "" } else { "," };
            write!(f, "{before} {}", Quoted(pointer.as_bytes()))?;
        }
        Ok(())
    }
}
