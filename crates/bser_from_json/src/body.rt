//! The bodies of values, put one behind the other.
ghost use Rattle.std.specs.Prelude.{◌≡◌, ◌≤◌, pos, length, drop, ◌++◌, List, [], ℕ, OnOk, IfOk, IsUtf8};
ghost use Rattle.bser_format.specs.Canonical.{canonical_body, canonical_key};
ghost use Rattle.bser_format.specs.Pieces.{array_head, object_head};
ghost use Rattle.bser_format.specs.Tree.{Tree, object, entries_of};
ghost use Rattle.bser_ser.specs.Ends.{CanBeWritten, text_of};
ghost use Rattle.bser_ser.specs.Message.{FollowedBy, front_of};
ghost use Rattle.bser_ser.specs.Sent.{pending_of, writer_of};
ghost use Rattle.bser_ser.specs.declared.message.TheConstants.{SHORTEST_HEADER};
ghost use Rattle.bser_source.specs.Memory.{bytes_in};
ghost use Rattle.bser_value.specs.ValueView.{tree_of};
ghost use Rattle.bser_from_json.specs.Bodies.{EntriesStand, Follows};

use bser_ser::message::{SHORTEST_HEADER, put_in_gap};
use bser_ser::{InMemory, Serialize, Serializer};
use bser_value::value::Value;
use std::alloc::{AllocError, Global};
use std::collections::BTreeMap;

/// The bytes for which the parts of a container have room at first.
const FIRST_ROOM: usize = 128;

/// Where an entry stands among the parts of its object.
#[derive(Clone, Copy, Drop)]
pub(crate) struct EntrySpan {
    pub(crate) start: usize,
    pub(crate) end: usize,
}

/// The parts of a container that was opened.
pub(crate) fn no_parts(alloc: Global) -> Result<Vec<u8>, AllocError>
    ensures { IfOk result (λ parts. parts.items ≡ []) }
{
    Vec::with_capacity(alloc, FIRST_ROOM)
}

/// The bytes, and the value's body behind them.
pub(crate) fn with_value(
    alloc: Global,
    bytes: Vec<u8>,
    value: &Value,
) -> Result<Vec<u8>, AllocError>
    ensures { IfOk result (λ all. Follows bytes.items all.items (tree_of value.now)) }
{
    value.check_tree();
    with(alloc, bytes, value)
}

/// The bytes, and an object's key behind them.
pub(crate) fn with_key(alloc: Global, bytes: Vec<u8>, key: &str) -> Result<Vec<u8>, AllocError>
    ensures put { IfOk result (λ all. all.items ≡ bytes.items ++ canonical_key key.now) }
    ensures utf8 { OnOk result (IsUtf8 key.now) }
{
    with(alloc, bytes, &key)
}

/// The bytes, and behind them the array of so many items, whose bodies these are.
pub(crate) fn with_array(
    alloc: Global,
    bytes: Vec<u8>,
    count: usize,
    items: &[u8],
) -> Result<Vec<u8>, AllocError>
    ensures { IfOk result (λ all. all.items ≡ bytes.items ++ (array_head count ++ items.now)) }
{
    let mut out = Serializer::new(alloc, InMemory::new(bytes));
    if out.put_seq(Some(count)).is_err() {
        return Err(AllocError);
    }
    let mut all = finished(out)?;
    all.extend_from_slice(items)?;
    Ok(all)
}

/// The bytes, and behind them the object of these entries, which stand among its parts.
pub(crate) fn with_object(
    alloc: Global,
    bytes: Vec<u8>,
    entries: &BTreeMap<&str, EntrySpan>,
    parts: &[u8],
) -> Result<Vec<u8>, AllocError>
    requires { (es : List (List ℕ × Tree)) × EntriesStand parts.now entries.now.entries es }
    ensures { IfOk result (λ all. (es : List (List ℕ × Tree))
        → EntriesStand parts.now entries.now.entries es
        → all.items ≡ bytes.items ++ canonical_body (object (entries_of es))) }
{
    let mut all = with_object_head(alloc, bytes, entries.len())?;
    for (_, span) in entries {
        all.extend_from_slice(&parts[span.start..span.end])?;
    }
    Ok(all)
}

/// The bytes, and behind them the head of an object of so many entries.
fn with_object_head(alloc: Global, bytes: Vec<u8>, count: usize) -> Result<Vec<u8>, AllocError>
    ensures { IfOk result (λ all. all.items ≡ bytes.items ++ object_head count) }
{
    let mut out = Serializer::new(alloc, InMemory::new(bytes));
    match out.put_map(Some(count)) {
        Ok(()) => finished(out),
        Err(_) => Err(AllocError),
    }
}

/// The message whose body stands behind the gap for its header.
pub(crate) fn message(bytes: Vec<u8>) -> Result<Vec<u8>, AllocError>
    requires { SHORTEST_HEADER ≤ length bytes.items }
    ensures { IfOk result (λ message. message.items
        ≡ front_of (pos (length (drop SHORTEST_HEADER bytes.items)))
        ++ drop SHORTEST_HEADER bytes.items) }
{
    let mut message = bytes;
    let len = message.len() - SHORTEST_HEADER;
    put_in_gap(&mut message, len as i64)?;
    Ok(message)
}

/// The bytes, and the value's body behind them.
fn with<T: Serialize>(alloc: Global, bytes: Vec<u8>, value: &T) -> Result<Vec<u8>, AllocError>
    ensures ok { IfOk result (λ all. FollowedBy (text_of (T.meaning value.now))
        bytes.items all.items) }
    ensures writable { OnOk result (CanBeWritten (T.meaning value.now)) }
{
    let mut out = Serializer::new(alloc, InMemory::new(bytes));
    match value.serialize(alloc, &mut out) {
        Ok(()) => finished(out),
        Err(_) => Err(AllocError),
    }
}

/// All that was put.
fn finished(out: Serializer<InMemory>) -> Result<Vec<u8>, AllocError>
    ensures { IfOk result (λ all. all.items ≡ bytes_in (writer_of out) ++ pending_of out) }
{
    match out.finish() {
        Ok(memory) => Ok(memory.into_inner()),
        Err(_) => Err(AllocError),
    }
}
