//! One message in, and its canonical or its compact message out.
ghost use Rattle.std.specs.Prelude.{OnOk, IfErr};
ghost use Rattle.bser_format.specs.Compact.{fold_templates};
ghost use Rattle.bser_canonical.specs.Canon.{Rewrote, RefusesRewriting, ValueIsItsTree, canonical};

use crate::buffered::serialize_buffered;
use bser_document::document::Document;
use bser_format::errors::Result;
use bser_messages::message::from_reader;
use bser_source::device::{Sink, Source};
use bser_value::compact::serialize_compact;
use bser_value::value::Value;
use std::alloc::Global;

/// How many bytes of a message are made in memory at most for each node of a document and each byte
/// of its strings.
const BYTES_A_PART: usize = 16;

/// Reads the reader's next message, of at most 128 levels, and writes the canonical message of its
/// value. What follows the message is left in the reader. The memory that it takes is linear in the
/// length of the message that is read, since no `Value` is made.
///
/// Answers `Ok` exactly where the bytes left begin with such a message, but for out of memory, I/O
/// errors that the reader or the writer counted, and a body above `i64::MAX` bytes; neither counts a
/// failure then. Where reading fails, nothing is written. Where writing fails, the reader counted no
/// failure, and the writer took a beginning of the message, or nothing where its body could not be
/// measured.
#[tactic(auto, using(crate::proofs::Writing::writing_refused, crate::proofs::Writing::took_document))]
pub fn canon<R: Source, W: Sink>(alloc: Global, reader: &mut R, writer: &mut W) -> Result<()>
    ensures ok { OnOk result
        (Rewrote canonical R.Source W.Sink reader.old reader.new writer.old writer.new) }
    ensures refused { IfErr result
        (RefusesRewriting canonical R.Source W.Sink reader.old reader.new writer.old writer.new) }
{
    let read: Document = from_reader(alloc, reader)?;
    let most = read.weight().saturating_mul(BYTES_A_PART);
    serialize_buffered(alloc, writer, &read, most)
}

/// As [`canon`], but writes the compact message of the value. No message that reads as the value is
/// shorter. It makes a `Value`, which may take far more memory than the message has bytes.
#[tactic(auto, using(crate::proofs::Writing::writing_refused, crate::proofs::Writing::took_value))]
pub fn canon_compact<R: Source, W: Sink>(
    alloc: Global,
    reader: &mut R,
    writer: &mut W,
) -> Result<()>
    ensures ok { OnOk result
        (Rewrote fold_templates R.Source W.Sink reader.old reader.new writer.old writer.new) }
    ensures refused { IfErr result
        (RefusesRewriting fold_templates R.Source W.Sink
        reader.old reader.new writer.old writer.new) }
{
    let read: Value = from_reader(alloc, reader)?;
    serialize_compact(alloc, writer, &read)
}

/// A `Value` holds what was read exactly where its tree does: so what the clauses above say of a
/// tree they say of the `Value` that the message reads as.
pub fn value_is_its_tree()
    ensures { ValueIsItsTree }
{}
