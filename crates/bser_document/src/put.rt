//! Writing an item in the canonical form.
ghost use Rattle.std.specs.Prelude.{◌≡◌, ◌<◌, ◌≤◌, ℕ, List, Ok, OnOk, IfErr};
ghost use Rattle.std.specs.Map.{keys_of};
ghost use Rattle.bser_format.specs.Canonical.{IsWritable};
ghost use Rattle.bser_format.specs.Measures.{depth, items_depth, entries_depth};
ghost use Rattle.bser_format.specs.Tree.{Tree, array, object, entries, entries_of};
ghost use Rattle.bser_format.specs.Tree as trees;
ghost use Rattle.bser_ser.specs.Ends.{AddsTree, Ends, Stops, text_of};
ghost use Rattle.bser_document.specs.declared.put.AddError.TheVariants as errors;
ghost use Rattle.bser_document.specs.Holds.{HoldsItem, IsReadAs, ShowsNode};
ghost use Rattle.bser_document.specs.Order.{shown, last_places, HoldsFields, FindsField};
ghost use Rattle.bser_document.specs.Pairs.{HoldsEntries};
ghost use Rattle.bser_document.specs.Put.{AddsItem, IsPlain};
ghost use Rattle.bser_document.specs.Rows.{HoldsRows, Pair, row_object, row_objects};
ghost use Rattle.bser_document.specs.Sorted.{Lists};
ghost use Rattle.bser_document.specs.Walks.{HoldsItems};

use crate::document::{Document, DocumentNode};
use crate::entries::Entries;
use crate::item::Item;
use crate::items::Items;
use crate::order::{RowFields, ordered_keys};
use crate::rows::Rows;
use bser_format::errors::{Error, Result};
use bser_ser::{Parts, PutRefused, Serializer};
use bser_source::device::Sink;
use std::alloc::{AllocError, Global};
use std::collections::BTreeMap;
use std::result;

/// Why a part was not put.
#[derive(Clone, Copy)]
pub(crate) enum AddError {
    /// A put failed, and the serializer keeps the error.
    Put,
    /// Out of memory.
    OutOfMemory,
}

impl From<PutRefused> for AddError {
    ghost from_gives = { λ _ e. e ≡ errors.Put };

    fn from(_: PutRefused) -> Self {
        Self::Put
    }
}

impl From<AllocError> for AddError {
    ghost from_gives = { λ _ e. e ≡ errors.OutOfMemory };

    fn from(_: AllocError) -> Self {
        Self::OutOfMemory
    }
}

/// Puts the canonical text of an item that is less than `room` deep.
///
/// The errors are those of the puts, and `OutOfMemory` where there is no memory for the order of
/// an object's keys. It calls itself once for each level.
pub(crate) fn put_item<W: Sink>(
    alloc: Global,
    item: Item<'_>,
    room: usize,
    out: &mut Serializer<W>,
) -> Result<()>
    ensures ok { (u : Tree) → IsReadAs item.entry u → depth u < room
        → OnOk result (Ends W.Sink (text_of (Ok u)) out.old out.new) }
    ensures writable { (u : Tree) → IsReadAs item.entry u → depth u < room
        → OnOk result (IsWritable u) }
    ensures err { (u : Tree) → IsReadAs item.entry u → depth u < room
        → IfErr result (Stops W.Sink (text_of (Ok u)) out.old out.new) }
{
    match add_item(alloc, item, room, out) {
        Ok(()) => Ok(()),
        Err(AddError::Put) => Err(out.refusal()),
        Err(AddError::OutOfMemory) => Err(Error::OutOfMemory),
    }
}

/// Puts an item.
#[cycle(add)]
#[inline(always)]
fn add_item<W: Sink>(
    alloc: Global,
    item: Item<'_>,
    room: usize,
    out: &mut Serializer<W>,
) -> result::Result<(), AddError>
    ensures { (u : Tree) → IsReadAs item.entry u → depth u < room
        → AddsItem W.Sink out.old out.new u result }
{
    match item.node() {
        DocumentNode::Array { len: _, end: _ }
        | DocumentNode::Object { len: _, end: _ }
        | DocumentNode::Template { len: _, end: _ } => add_container(alloc, item, room, out),
        node => Ok(item.document.add_plain(node, out)?),
    }
}

/// Puts an array or an object.
#[cycle(add)]
#[inline(never)]
fn add_container<W: Sink>(
    alloc: Global,
    item: Item<'_>,
    room: usize,
    out: &mut Serializer<W>,
) -> result::Result<(), AddError>
    ensures { (u : Tree) → HoldsItem item.entry u → depth u < room
        → AddsItem W.Sink out.old out.new u result }
{
    if room == 0 {
        return Err(AddError::OutOfMemory);
    }
    if let Some(rows) = item.rows() {
        return add_rows(alloc, rows, room - 1, out);
    }
    if let Some(items) = item.items() {
        return add_items(alloc, items, room - 1, out);
    }
    let Some(entries) = item.entries() else {
        return Err(AddError::OutOfMemory);
    };
    if entries.is_rising() {
        return add_spelled(alloc, entries, room - 1, out);
    }
    let sorted = entries.sorted(alloc)?;
    add_entries(alloc, &sorted, room - 1, out)
}

/// Puts an array of these items.
#[cycle(add)]
fn add_items<W: Sink>(
    alloc: Global,
    items: Items<'_>,
    room: usize,
    out: &mut Serializer<W>,
) -> result::Result<(), AddError>
    ensures { (us : trees.Items) → HoldsItems items.entry us → items_depth us < room
        → AddsItem W.Sink out.old out.new (array us) result }
{
    let count = items.len();
    // no list of nodes is longer
    if count > isize::MAX as usize {
        return Err(AddError::OutOfMemory);
    }
    out.add_seq(count)?;
    for item in items {
        add_item(alloc, item, room, out)?;
    }
    Ok(())
}

/// Puts an object of these entries.
#[cycle(add)]
fn add_entries<W: Sink>(
    alloc: Global,
    sorted: &BTreeMap<&str, Item<'_>>,
    room: usize,
    out: &mut Serializer<W>,
) -> result::Result<(), AddError>
    ensures { (es : trees.Entries) → Lists (entries es) sorted.entry.now.entries
        → entries_depth es < room → AddsItem W.Sink out.old out.new (object es) result }
{
    out.add_map(sorted.len())?;
    for (key, item) in sorted {
        out.add_text_key(*key)?;
        add_item(alloc, *item, room, out)?;
    }
    Ok(())
}

/// Puts an object of these entries, whose keys rise.
#[cycle(add)]
fn add_spelled<W: Sink>(
    alloc: Global,
    entries: Entries<'_>,
    room: usize,
    out: &mut Serializer<W>,
) -> result::Result<(), AddError>
    ensures { (m : List (List ℕ × Tree)) → HoldsEntries entries.entry m
        → entries_depth (entries_of m) < room
        → AddsItem W.Sink out.old out.new (object (entries_of m)) result }
{
    let count = entries.len();
    // no list of nodes is longer
    if count > isize::MAX as usize {
        return Err(AddError::OutOfMemory);
    }
    out.add_map(count)?;
    for entry in entries {
        out.add_text_key(entry.key)?;
        add_item(alloc, entry.value, room, out)?;
    }
    Ok(())
}

/// Puts an array of the objects of these rows.
#[cycle(add)]
fn add_rows<W: Sink>(
    alloc: Global,
    rows: Rows<'_>,
    room: usize,
    out: &mut Serializer<W>,
) -> result::Result<(), AddError>
    ensures { (ks : List (List ℕ)) (ms : List (List Pair)) → HoldsRows rows.entry ks ms
        → items_depth (row_objects ms) < room
        → AddsItem W.Sink out.old out.new (array (row_objects ms)) result }
{
    let count = rows.len();
    // no list of nodes is longer
    if count > isize::MAX as usize {
        return Err(AddError::OutOfMemory);
    }
    let order = ordered_keys(alloc, rows)?;
    let mut fields = RowFields::new(alloc, rows);
    out.add_seq(count)?;
    for row in rows {
        fields.read(row)?;
        add_row(alloc, &order, &fields, room.saturating_sub(1), out)?;
    }
    Ok(())
}

/// Puts an object of the fields of a row, in the order of their keys.
#[cycle(add)]
fn add_row<W: Sink>(
    alloc: Global,
    order: &[(&str, usize)],
    fields: &RowFields<'_>,
    room: usize,
    out: &mut Serializer<W>,
) -> result::Result<(), AddError>
    ensures { (m : List Pair) → shown order.entry.now ≡ last_places (keys_of m)
        → HoldsFields fields.entry.now m → depth (row_object m) ≤ room
        → AddsItem W.Sink out.old out.new (row_object m) result }
{
    out.add_map(order.len())?;
    for entry in order.iter() {
        let (key, place) = *entry;
        out.add_text_key(key)?;
        add_field(alloc, fields.get(place), room, out)?;
    }
    Ok(())
}

/// Puts a field, and null where there is none.
#[cycle(add)]
#[inline(always)]
fn add_field<W: Sink>(
    alloc: Global,
    field: Option<Item<'_>>,
    room: usize,
    out: &mut Serializer<W>,
) -> result::Result<(), AddError>
    ensures { (u : Tree) → FindsField u field.entry → depth u < room
        → AddsItem W.Sink out.old out.new u result }
{
    match field {
        Some(item) => add_item(alloc, item, room, out),
        None => Ok(out.add_null()?),
    }
}

impl Document {
    /// Puts a value that is no container, given by its node; a skipped field is null.
    #[inline(always)]
    fn add_plain<W: Sink>(
        &self,
        node: DocumentNode,
        out: &mut Serializer<W>,
    ) -> result::Result<(), PutRefused>
        ensures put { (u : Tree) → ShowsNode u self.now node → IsPlain u
            → AddsTree W.Sink out.old out.new (Ok u) result }
        ensures writable { (u : Tree) → ShowsNode u self.now node → IsPlain u
            → OnOk result (IsWritable u) }
    {
        match node {
            DocumentNode::Bool(truth) => out.add_bool(truth),
            DocumentNode::Int(number) => out.add_i64(number),
            DocumentNode::Real(bits) => out.add_real_bits(bits),
            DocumentNode::Bytes { len, at } => out.add_bytes(self.string(len, at)),
            DocumentNode::Text { len, at } => out.add_text(self.text(len, at)),
            _ => out.add_null(),
        }
    }
}
