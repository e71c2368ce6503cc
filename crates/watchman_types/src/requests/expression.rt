//! Expressions: which files a query is about.
ghost use Rattle.std.specs.Prelude.{OnOk, IfErr};
ghost use Rattle.bser_ser.specs.Ends.{Ends, Stops, text_of, CanBeWritten};
ghost use Rattle.watchman_types.specs.Expressions.{expression_tree, expression_meaning, operands_tree, negation_tree};

use crate::file_type::FileType;
use crate::requests::comparison::Comparison;
use crate::requests::nesting::nests_within;
use crate::requests::terms::{Dirname, Match, Name, Pcre, Since};
use bser_format::errors::{Error, Kind, Result};
use bser_ser::{Serialize, Serializer};
use bser_source::device::Sink;
use std::alloc::Global;

/// At most so many of `AllOf`, `AnyOf` and `Not` are one in another. A term takes at most two levels
/// more and a request two around the expression, so a message has at most 128.
pub const MOST_NESTED: usize = 124;

/// Which files a query is about: a tree of terms, written as nested arrays.
#[derive(Clone, Copy)]
pub enum Expression<'a> {
    /// Each of these holds. The server refuses it without one.
    AllOf(&'a [Expression<'a>]),
    /// One of these holds, or more. The server refuses it without one.
    AnyOf(&'a [Expression<'a>]),
    /// This does not hold.
    Not(&'a Expression<'a>),
    /// Every file.
    True,
    /// No file.
    False,
    /// The file is there.
    Exists,
    /// The file is there, is a regular file or a directory, and its size is 0.
    Empty,
    /// The file is of this type. The server refuses `FileType::Unknown`.
    Type(FileType),
    /// The file's name ends in this behind a point. Small and capital letters are the same.
    Suffix(&'a str),
    /// It ends in one of these. The server has to have the capability `suffix-set`, which 4.9.0 has
    /// not: it refuses this term, and takes `AnyOf` of several `Suffix`.
    Suffixes(&'a [&'a str]),
    Name(Name<'a>),
    Match(Match<'a>),
    Pcre(Pcre<'a>),
    Dirname(Dirname<'a>),
    /// The file's size in bytes. A file that is gone has none.
    Size(Comparison),
    Since(Since<'a>),
}

/// One in which more than [`MOST_NESTED`] operators are one in another is
/// `DeRecursionLimitExceeded`, the error with which a reader rejects what is deeper, and nothing of
/// it is put. Writing calls itself once for each level.
impl<'a> Serialize for Expression<'a> {
    ghost meaning = { expression_meaning };

    fn serialize<W: Sink>(&self, alloc: Global, out: &mut Serializer<W>) -> Result<()> {
        if !nests_within(self, MOST_NESTED) {
            return Err(Error::DeRecursionLimitExceeded { kind: Kind::Array });
        }
        put_expression(self, alloc, out)
    }
}

/// Puts an expression, however deep it is.
#[cycle(put)]
fn put_expression<W: Sink>(
    expression: &Expression<'_>,
    alloc: Global,
    out: &mut Serializer<W>,
) -> Result<()>
    ensures ok { OnOk result (Ends W.Sink (text_of (expression_tree expression.now))
        out.old out.new) }
    ensures writable { OnOk result (CanBeWritten (expression_tree expression.now)) }
    ensures err { IfErr result (Stops W.Sink (text_of (expression_tree expression.now))
        out.old out.new) }
{
    match expression {
        Expression::AllOf(operands) => put_operands("allof", operands, alloc, out),
        Expression::AnyOf(operands) => put_operands("anyof", operands, alloc, out),
        Expression::Not(operand) => put_negation(operand, alloc, out),
        Expression::True => ("true",).serialize(alloc, out),
        Expression::False => ("false",).serialize(alloc, out),
        Expression::Exists => ("exists",).serialize(alloc, out),
        Expression::Empty => ("empty",).serialize(alloc, out),
        Expression::Type(kind) => ("type", *kind).serialize(alloc, out),
        Expression::Suffix(suffix) => ("suffix", *suffix).serialize(alloc, out),
        Expression::Suffixes(suffixes) => ("suffix", *suffixes).serialize(alloc, out),
        Expression::Name(name) => name.serialize(alloc, out),
        Expression::Match(glob) => glob.serialize(alloc, out),
        Expression::Pcre(pattern) => pattern.serialize(alloc, out),
        Expression::Dirname(directory) => directory.serialize(alloc, out),
        Expression::Size(size) => ("size", size.operator, size.number).serialize(alloc, out),
        Expression::Since(since) => since.serialize(alloc, out),
    }
}

/// Puts an array of the word and the operands.
#[cycle(put)]
fn put_operands<W: Sink>(
    word: &str,
    operands: &[Expression<'_>],
    alloc: Global,
    out: &mut Serializer<W>,
) -> Result<()>
    ensures ok { OnOk result (Ends W.Sink (text_of (operands_tree word.now operands.now))
        out.old out.new) }
    ensures writable { OnOk result (CanBeWritten (operands_tree word.now operands.now)) }
    ensures err { IfErr result (Stops W.Sink (text_of (operands_tree word.now operands.now))
        out.old out.new) }
{
    out.put_seq(Some(operands.len() + 1))?;
    out.put_text(word)?;
    for operand in operands {
        put_expression(operand, alloc, out)?;
    }
    Ok(())
}

/// Puts an array of the word `not` and the operand.
#[cycle(put)]
fn put_negation<W: Sink>(
    operand: &Expression<'_>,
    alloc: Global,
    out: &mut Serializer<W>,
) -> Result<()>
    ensures ok { OnOk result (Ends W.Sink (text_of (negation_tree operand.now))
        out.old out.new) }
    ensures writable { OnOk result (CanBeWritten (negation_tree operand.now)) }
    ensures err { IfErr result (Stops W.Sink (text_of (negation_tree operand.now))
        out.old out.new) }
{
    out.put_seq(Some(2))?;
    out.put_text("not")?;
    put_expression(operand, alloc, out)
}
