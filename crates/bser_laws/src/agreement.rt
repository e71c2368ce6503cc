//! The same bytes, read from a slice and from a reader.
ghost use Rattle.std.specs.Prelude.{◌≡◌, Some, IsOk, IfOk, IfErr};
ghost use Rattle.bser_laws.specs.Agreement.{ReadAlike, SameName};
ghost use Rattle.serde_bser.specs.Messages.{IsMemory, IsReaderFault};

use bser_source::device::Source;
use serde_bser::de::{Deserialize, DeserializeOwned, Shape, from_reader, from_slice};
use serde_bser::errors::Result;
use std::alloc::Global;

/// What the same bytes were read as.
#[derive(Drop)]
pub struct Readings<T> {
    /// From the slice.
    pub slice: Result<T>,
    /// From the reader.
    pub reader: Result<T>,
}

/// Reads the bytes from the slice, and from a reader that has the same bytes left.
///
/// Where both answer a value, the values hold one content, that of the one message in front, and
/// the reader has left what follows that message. Where one alone answers a value, memory was
/// refused to the other, or the reader counted a fault. Where none does and the type tells of
/// names, both refusals have one name, unless memory was refused, the reader counted a fault or its
/// count of bytes would reach 2^64.
pub fn read_both_ways<'de, S: Source, T: DeserializeOwned + Deserialize<&'de [u8]>>(
    alloc: Global,
    bytes: &'de [u8],
    reader: &mut S,
) -> Readings<T>
    requires same { S.remaining reader.old ≡ Some bytes.now }
    ensures both { IfOk result.slice (λ v. IfOk result.reader
        (ReadAlike 128 T.reads T.holds bytes.now (S.remaining reader.new) v)) }
    ensures slice_alone { IsOk result.slice →
        IfErr result.reader (IsReaderFault (S.failures reader.old) (S.failures reader.new)) }
    ensures reader_alone { IsOk result.reader → IfErr result.slice (IsMemory T.needs) }
    ensures neither { IfErr result.slice (λ e. IfErr result.reader
        (SameName 128 T.asks bytes.now (S.failures reader.old) (S.failures reader.new) e)) }
{
    let slice = from_slice(alloc, bytes);
    let reader = from_reader(alloc, reader);
    Readings { slice, reader }
}
