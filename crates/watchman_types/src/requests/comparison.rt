//! Comparisons with a number.
ghost use Rattle.std.specs.Prelude.{◌≡◌, Ok};
ghost use Rattle.bser_format.specs.Tree.{text};
ghost use Rattle.watchman_types.specs.Words.{operator_word};

use bser_format::errors::Result;
use bser_ser::{Serialize, Serializer};
use bser_source::device::Sink;
use std::alloc::Global;

/// How a file's number compares with the given one.
#[derive(Clone, Copy)]
pub enum Operator {
    /// `eq`
    Equal,
    /// `ne`
    NotEqual,
    /// `gt`
    Greater,
    /// `ge`
    GreaterOrEqual,
    /// `lt`
    Less,
    /// `le`
    LessOrEqual,
}

impl Operator {
    /// Returns Watchman's word for it.
    pub fn word(self) -> &'static str
        ensures { result.now ≡ operator_word self }
    {
        match self {
            Operator::Equal => "eq",
            Operator::NotEqual => "ne",
            Operator::Greater => "gt",
            Operator::GreaterOrEqual => "ge",
            Operator::Less => "lt",
            Operator::LessOrEqual => "le",
        }
    }
}

impl Serialize for Operator {
    ghost meaning = { λ o. Ok (text (operator_word o)) };

    fn serialize<W: Sink>(&self, _alloc: Global, out: &mut Serializer<W>) -> Result<()> {
        out.put_text(self.word())
    }
}

/// A comparison with a number: of a file's size in bytes, or of how deep it lies.
#[derive(Clone, Copy)]
pub struct Comparison {
    pub operator: Operator,
    pub number: i64,
}
