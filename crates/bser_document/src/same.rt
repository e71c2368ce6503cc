//! Whether two items are read as the same value.
ghost use Rattle.std.specs.Prelude.{◌≡◌, ◌<◌, IfOk};
ghost use Rattle.std.specs.Bool.{Decides};
ghost use Rattle.bser_format.specs.Content.{value};
ghost use Rattle.bser_format.specs.Measures.{depth, items_depth, entries_depth};
ghost use Rattle.bser_format.specs.SameTree.{same_tree, same_items, same_entries};
ghost use Rattle.bser_format.specs.Tree.{Tree, entries};
ghost use Rattle.bser_format.specs.Tree as trees;
ghost use Rattle.bser_document.specs.DocumentView.{HoldsDocument, value_of};
ghost use Rattle.bser_document.specs.Holds.{HoldsItem};
ghost use Rattle.bser_document.specs.Put.{IsPlain};
ghost use Rattle.bser_document.specs.Sorted.{Lists};
ghost use Rattle.bser_document.specs.Walks.{HoldsItems};

use crate::document::Document;
use crate::item::{Item, ItemKind};
use crate::items::Items;
use std::alloc::{AllocError, Global};
use std::collections::BTreeMap;

impl Document {
    /// Returns whether both documents hold the same value, as [`Item::same_content`] says it.
    pub fn same_content(&self, alloc: Global, other: &Document) -> Result<bool, AllocError>
        ensures whole { IfOk result
            (λ same. Decides same (value_of self.now ≡ value_of other.now)) }
        ensures held { (u v : Tree) → HoldsDocument self.now (value u)
            → HoldsDocument other.now (value v) → IfOk result (λ same. Decides same (u ≡ v)) }
    {
        self.root().same_content(alloc, other.root())
    }
}

impl Item<'_> {
    /// Returns whether both are read as the same value. It does not matter whether an array is
    /// spelled as a template, in which order the keys of an object come, and in how many bytes a
    /// number is spelled; of equal keys the last counts. Reals are compared by their bits. An
    /// integer and a real differ, and so do a text and a byte string.
    ///
    /// The error is that there is no memory for the order of an object's keys. It calls itself once
    /// for each level.
    pub fn same_content(self, alloc: Global, other: Item<'_>) -> Result<bool, AllocError>
        ensures { (u v : Tree) → HoldsItem self.entry u → HoldsItem other.entry v
            → IfOk result (λ same. Decides same (u ≡ v)) }
    {
        let room = self.document.nodes.len() + 2;
        is_same(alloc, self, other, room)
    }
}

/// Whether two items are the same, of which the first is less than `room` deep.
#[cycle(same)]
fn is_same(alloc: Global, item: Item<'_>, other: Item<'_>, room: usize) -> Result<bool, AllocError>
    ensures { (u v : Tree) → HoldsItem item.entry u → HoldsItem other.entry v → depth u < room
        → IfOk result (λ same. same ≡ same_tree u v) }
{
    if room == 0 {
        return Ok(false);
    }
    if let Some(items) = item.items() {
        return match other.items() {
            Some(others) => are_same_items(alloc, items, others, room - 1),
            None => Ok(false),
        };
    }
    if let Some(entries) = item.sorted(alloc)? {
        return match other.sorted(alloc)? {
            Some(others) => are_same_entries(alloc, &entries, &others, room - 1),
            None => Ok(false),
        };
    }
    Ok(is_same_plain(item, other))
}

/// Whether these items are the same, one after the other.
#[cycle(same)]
fn are_same_items(
    alloc: Global,
    items: Items<'_>,
    others: Items<'_>,
    room: usize,
) -> Result<bool, AllocError>
    ensures { (us vs : trees.Items) → HoldsItems items.entry us → HoldsItems others.entry vs
        → items_depth us < room → IfOk result (λ same. same ≡ same_items us vs) }
{
    let mut rest = others;
    for item in items {
        let Some(other) = rest.next() else {
            return Ok(false);
        };
        if !is_same(alloc, item, other, room)? {
            return Ok(false);
        }
    }
    Ok(rest.next().is_none())
}

/// Whether these entries are the same, one after the other.
#[cycle(same)]
fn are_same_entries(
    alloc: Global,
    sorted: &BTreeMap<&str, Item<'_>>,
    others: &BTreeMap<&str, Item<'_>>,
    room: usize,
) -> Result<bool, AllocError>
    ensures { (es fs : trees.Entries) → Lists (entries es) sorted.now.entries
        → Lists (entries fs) others.now.entries → entries_depth es < room
        → IfOk result (λ same. same ≡ same_entries es fs) }
{
    let mut rest = others.iter();
    for (key, item) in sorted {
        let Some((other_key, other)) = rest.next() else {
            return Ok(false);
        };
        if *key != *other_key {
            return Ok(false);
        }
        if !is_same(alloc, *item, *other, room)? {
            return Ok(false);
        }
    }
    Ok(rest.next().is_none())
}

/// Whether two items are the same, of which the first is no container.
fn is_same_plain(item: Item<'_>, other: Item<'_>) -> bool
    ensures { (u v : Tree) → HoldsItem item.entry u → HoldsItem other.entry v → IsPlain u
        → result ≡ same_tree u v }
{
    match item.kind() {
        ItemKind::Null => other.is_null(),
        ItemKind::Bool => item.as_bool() == other.as_bool(),
        ItemKind::Integer => item.as_i64() == other.as_i64(),
        ItemKind::Real => item.as_real_bits() == other.as_real_bits(),
        ItemKind::Text => other.as_str().is_some() && item.as_bytes() == other.as_bytes(),
        ItemKind::Bytes => other.as_str().is_none() && item.as_bytes() == other.as_bytes(),
        ItemKind::Array => false,
        ItemKind::Object => false,
    }
}
